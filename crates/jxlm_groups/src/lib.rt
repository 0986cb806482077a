//! How the coded channels of an image are cut into parts: the global part, the LF groups, and the groups of each pass
//! (ISO/IEC 18181-1, frame: groups, LF groups and passes).
#![tactic(auto)]

pub mod area;
pub mod complete;
pub mod cut;
pub mod laws;
pub mod part;
pub mod pass;
pub mod pieces;
