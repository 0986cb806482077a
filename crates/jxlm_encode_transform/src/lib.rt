//! Transforms run forward in a store, so that undoing them brings back what was there: lines are squeezed, and the
//! colours of rows coded.
#![tactic(auto)]

mod colour;
mod colour_rows;
mod lines;
pub mod redo;
mod squeeze;
mod strips;
