// The laws of the descriptor writer: its definitions against the reader's. No code: all is in specs/ and proofs/.
#![tactic(auto)]
