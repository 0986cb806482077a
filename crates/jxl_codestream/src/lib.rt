//! What a JPEG XL codestream has before the samples of its frames (ISO/IEC 18181-1): the image header, a colour profile, and
//! of each frame the header, the table of contents, the parts that its sections hold, and what its first section begins
//! with.
#![tactic(auto)]

pub mod error;
pub mod frame;
pub mod front;
pub mod laws;
pub mod layout;
mod order;
pub mod profile;
pub mod start;
pub mod toc;
