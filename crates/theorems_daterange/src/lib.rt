// What is promised of lines of playlists (Q-1), as theorems of the functions, over their contracts as the checker makes them, in Rattle and over C. No code: statements stand in proofs/Theorems.antt.
#![tactic(auto)]
