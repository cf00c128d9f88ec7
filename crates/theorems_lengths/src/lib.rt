// What is written of what is read is no longer than it was, as theorems over the definitions of the other crates. No code: the statements stand in proofs/Theorems.antt.
#![tactic(auto)]
