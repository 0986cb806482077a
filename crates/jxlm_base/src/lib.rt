//! Samples, grids and their regions, with squeeze and colour undone in them.
#![tactic(auto)]

pub mod grid;
pub mod laws;
pub mod region;
pub mod sample;
mod squeeze;
mod subgrid;
