// The named numbers of SCTE 35: each enum, from a number and to it.
#![tactic(auto)]

pub mod algorithm;
pub mod command;
pub mod flags;
pub mod numbering;
pub mod segmentation;
pub mod upid;
