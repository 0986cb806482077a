//! Pictures that were decoded from JPEG XL files: their channels, how they are shown upright, and how large they may be.
#![tactic(auto)]

pub mod floats;
pub mod limits;
pub mod orientation;
pub mod picture;
