//! Meta-adaptive trees: how they are read, and what is left of them where some properties are known.
#![tactic(auto)]

pub mod alike;
mod build;
pub mod leaf;
pub mod marks;
mod nodes;
pub mod read;
pub mod tree;
