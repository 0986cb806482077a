//! An image as text: as it is printed, and as it is read from such a text.
#![tactic(auto)]

mod cut;
mod lines;
pub mod printing;
pub mod reading;
pub mod rows;
mod words;
