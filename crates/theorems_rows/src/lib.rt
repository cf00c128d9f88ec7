// Worked sections, and each refusal by its own words, as theorems over the definitions of the other crates. No code: the statements stand in proofs/Theorems.antt.
#![tactic(auto)]
