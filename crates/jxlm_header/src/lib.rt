//! The header of a Modular image, and what it asks of the image's channels.
#![tactic(auto)]

pub mod header;
pub mod laws;
pub mod opening;
