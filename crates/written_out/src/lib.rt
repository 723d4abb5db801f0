// Libraries and queues against decks written out: what either hands out is what writing gives for a deck with every placement in it. Laws in specs/, no code.

#![tactic(auto)]
