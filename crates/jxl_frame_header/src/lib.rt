//! The headers of the frames of a JPEG XL codestream (ISO/IEC 18181-1).
#![tactic(auto)]

pub mod blending;
pub mod coding;
mod fields;
pub mod filter;
pub mod frame;
pub mod laws;
pub mod passes;
pub mod place;
pub mod refusal;
