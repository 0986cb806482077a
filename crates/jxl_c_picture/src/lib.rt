//! The structs of the library for C, and the picture that a caller describes by them.
#![tactic(auto)]

pub mod channels;
pub mod described;
pub mod grids;
pub mod info;
mod meanings;
pub mod numbers;
