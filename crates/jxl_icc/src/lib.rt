//! The ICC profile of a JPEG XL image: decoded from its encoded stream (ISO/IEC 18181-1, ICC profile).
#![tactic(auto)]

mod commands;
pub mod decode;
pub mod error;
pub mod header;
mod linear;
mod numbers;
mod pieces;
mod tags;
mod walk;
