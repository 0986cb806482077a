//! Squeeze and colour of samples of 16 bits, eight at a time, and of those of 32 bits where they are near to 0.
#![tactic(auto)]

pub mod colour_lanes;
pub mod lanes;
pub mod near_lanes;
