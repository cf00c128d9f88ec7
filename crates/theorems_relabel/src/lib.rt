// What is promised of a section in which one identifier is replaced, as theorems of the functions, over their contracts as the checker makes them, in Rattle and over C. No code: statements stand in proofs/Theorems.antt.
#![tactic(auto)]
