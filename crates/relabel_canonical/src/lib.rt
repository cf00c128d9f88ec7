// More theorems of crate relabel: canonical in, canonical out; and what stands beside the items. No code: all is in specs/ and proofs/.
#![tactic(auto)]
