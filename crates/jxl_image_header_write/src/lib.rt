//! Writes image headers so that the reader of `jxl_image_header` reads them (ISO/IEC 18181-1, image header).
#![tactic(auto)]

pub mod animation;
pub mod channel;
pub mod colour;
pub mod fields;
pub mod image;
pub mod size;
pub mod writable;
