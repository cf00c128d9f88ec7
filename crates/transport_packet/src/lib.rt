// One transport packet of ISO/IEC 13818-1: its head, refusals 71 to 74, and where the sections in it end. No state, and no word of SCTE 35.
#![tactic(auto)]

pub mod packet;
pub mod sections;
