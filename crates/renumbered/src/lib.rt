// Molecules that differ only in the numbering of their atoms: what is told of the one is told of the other. Definitions and laws in specs/, no code.

#![tactic(auto)]
