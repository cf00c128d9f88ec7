// The demands as theorems of the functions, over their contracts as the checker makes them, in Rattle and over C. No code: statements stand in proofs/Theorems.antt and proofs/OverC.antt.
#![tactic(auto)]
