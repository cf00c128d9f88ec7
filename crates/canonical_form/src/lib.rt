// The canonical form and equal readings: definitions.
#![tactic(auto)]
