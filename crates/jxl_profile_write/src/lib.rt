//! The ICC profile of a codestream, written between the image header and the first frame (ISO/IEC 18181-1).
#![tactic(auto)]

mod contexts;
mod long;
pub mod profile;
