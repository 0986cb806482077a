//! Transforms undone: where the channels of an image lie, and what brings the image back from its coded channels.
#![tactic(auto)]

mod default_squeeze;
mod front;
pub mod grid;
pub mod laws;
pub mod placed;
pub mod scratch;
pub mod undo;
