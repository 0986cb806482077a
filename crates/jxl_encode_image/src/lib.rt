//! An image made ready for the sections of a frame: its samples as they are coded, its parts, and its header
//! (ISO/IEC 18181-1, Modular).
#![tactic(auto)]

mod checked;
pub mod colours;
mod grids;
pub mod header;
pub mod image;
pub mod palette;
mod palettes;
pub mod transform;
