//! A decoder that has an error where its input says so, for tests of what stands after an error.
#![tactic(auto)]

pub mod fault;
