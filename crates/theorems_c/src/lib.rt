// The demands over the C boundary, as theorems.
#![tactic(auto)]
