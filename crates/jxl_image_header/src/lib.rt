//! The headers of a JPEG XL codestream (ISO/IEC 18181-1): of the image, of a frame, and its table of contents. What
//! is read of samples, profiles and entropy codes is the matter of the layer above.
#![tactic(auto)]

pub mod channel;
pub mod colour;
pub mod fields;
pub mod image;
pub mod laws;
pub mod refusal;
pub mod size;
