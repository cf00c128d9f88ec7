// The theorems of crate relabel: back and forth, and byte by byte.
#![tactic(auto)]
