// The demands on writing, as theorems.
#![tactic(auto)]
