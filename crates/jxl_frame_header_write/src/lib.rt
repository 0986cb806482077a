//! Writes headers of frames so that the reader of `jxl_frame_header` reads them (ISO/IEC 18181-1, frame header).
#![tactic(auto)]

pub mod blending;
pub mod coding;
pub mod fields;
pub mod filter;
pub mod frame;
pub mod passes;
pub mod place;
pub mod still;
