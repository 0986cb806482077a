//! The pixels of a picture as bytes: the samples of its channels side by side.
#![tactic(auto)]

pub mod depth;
pub mod pixels;
