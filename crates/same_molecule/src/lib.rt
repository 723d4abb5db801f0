// After a yes of `matched::check` a deck's molecule is the listed one but for the numbering, and what is told of the one is told of the other. Laws in specs/, no code.

#![tactic(auto)]
