//! A lossless encoder over the plain decoder's format.
#![tactic(auto)]

pub mod encode;
pub mod error;
pub mod laws;
pub mod listing;
mod placing;
