// Adjustments and transport packets as theorems of the functions, over their contracts. No code: statements stand in proofs/{Theorems,OverC}.antt.
#![tactic(auto)]
