// The splice header.
#![tactic(auto)]

pub mod header;
