//! The orientation in Exif data (TIFF 6.0, Exif 2.3).
#![tactic(auto)]

pub mod laws;
pub mod mark;
pub mod orientation;
mod tiff;
