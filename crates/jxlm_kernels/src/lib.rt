//! Squeeze and colour of rows and lines of samples, by one body for both types.
#![tactic(auto)]

pub mod colour;
pub mod lines;
