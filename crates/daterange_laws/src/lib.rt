// The laws of lines: lists of attributes are unique, what is written reads back, order and unknown attributes. No code: all is in specs/ and proofs/.
#![tactic(auto)]
