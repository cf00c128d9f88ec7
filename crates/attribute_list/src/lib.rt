// Attribute lists of RFC 8216, cut attribute by attribute. Nothing here knows of cues.
#![tactic(auto)]

pub mod bytes;
pub mod cutting;
