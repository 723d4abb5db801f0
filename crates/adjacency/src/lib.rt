// The neighbour text: what it says, what is written, and that the one undoes the other. Definitions and laws in specs/, no code.

#![tactic(auto)]
