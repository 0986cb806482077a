//! What undoes a colour transform, a palette or a squeeze in regions of a store.
#![tactic(auto)]

pub mod palette;
pub mod rct;
pub mod squeeze;
