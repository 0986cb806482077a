//! What an image's channels are, and what transforms do to the list of them.
#![tactic(auto)]

pub mod channels;
pub mod param;
pub mod transform;
