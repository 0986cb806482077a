//! The tokens of samples, as an encoder writes them (ISO/IEC 18181-1, Modular: decoding of samples).
#![tactic(auto)]

mod form;
pub mod laws;
mod leaf;
pub mod part;
mod rows;
pub mod token;
