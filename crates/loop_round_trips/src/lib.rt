// The laws of descriptor loops: what is written of a loop's items, against what its reader makes of it. No code: all is in specs/ and proofs/.
#![tactic(auto)]
