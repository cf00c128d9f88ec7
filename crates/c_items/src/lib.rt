// The flat forms of the items of a loop and of UPIDs: structs of 64-bit words alone, which is what crosses to C.
#![tactic(auto)]

pub mod beside;
pub mod descriptors;
mod refusals;
pub mod segmentations;
pub mod steps;
pub mod upids;
