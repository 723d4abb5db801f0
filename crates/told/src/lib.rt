// What the one number of a C reply tells. Laws in specs/; no code.

#![tactic(auto)]
