//! One part of a Modular image decoded: the samples of a list of channels, in the order of their cells (ISO/IEC
//! 18181-1, Modular: decoding of samples).
#![tactic(auto)]

pub mod above;
mod cell;
pub mod channels;
pub mod coding;
mod decode;
mod gradient;
pub mod laws;
pub mod leaf;
mod number;
mod one_gradient;
mod one_leaf;
pub mod part;
pub mod rows;
mod source;
mod zeros;
