// A row for each refusal number over C, as theorems over the definitions of the other crates. No code: the statements stand in proofs/Theorems.antt.
#![tactic(auto)]
