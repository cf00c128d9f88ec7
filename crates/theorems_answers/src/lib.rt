// Statements of functions for those that else only their line of fixed answers would name, in Rattle and over C. No code: statements stand in proofs/Theorems.antt and proofs/OverC.antt.
#![tactic(auto)]
