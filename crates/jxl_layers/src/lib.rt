//! Frames of a JPEG XL file as layers of pictures (ISO/IEC 18181-1): what of them is not supported, what comes before their
//! samples, and what they make with the pictures that slots hold.
#![tactic(auto)]

pub mod compose;
pub mod error;
pub mod layer;
pub mod opening;
pub mod refusal;
