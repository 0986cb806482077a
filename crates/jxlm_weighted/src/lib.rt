//! The weighted (self-correcting) predictor.
#![tactic(auto)]

pub mod around;
pub mod reduced;
pub mod self_correcting;
pub mod weights;
