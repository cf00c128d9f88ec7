// The theorems of crate relabel.
#![tactic(auto)]
