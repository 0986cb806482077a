//! Modular images that are cut into sections, as they stand in bytes: a row of sections, each after its length
//! (ISO/IEC 18181-1, frame: sections).
#![tactic(auto)]

mod picture;
mod reading;
mod split;

pub use picture::{CutPicture, decode_cut, decode_cut_picture, one_pass};
pub use reading::split_sections;
pub use split::split_section;
