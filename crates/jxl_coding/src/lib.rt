//! The entropy decoder of JPEG XL (ISO/IEC 18181-1, entropy decoding): clusters of contexts, each with its code, and
//! copies of earlier tokens.
#![tactic(auto)]

pub mod clusters;
mod coded;
pub mod codes;
pub mod decoder;
pub mod laws;
mod parse;
mod state;
mod tables;
mod tokens;
mod window;
