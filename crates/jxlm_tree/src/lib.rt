//! Meta-adaptive trees as they are compiled for the samples of one channel.
#![tactic(auto)]

mod compile;
pub mod flat;
pub mod leaf_sets;
mod left_over;
pub mod ma;
pub mod paths;
mod sets;
mod steps;
mod streams;
mod sums;
