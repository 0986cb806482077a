//! Pictures in other formats: they are written in PGM, PPM, PAM and PFM, and in decimal numbers.
#![tactic(auto)]

mod decimals;
pub mod format;
pub mod layers;
pub mod output;
mod raster;
mod text;
