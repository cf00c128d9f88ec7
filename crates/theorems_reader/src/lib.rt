// The demands on reading, as theorems.
#![tactic(auto)]
