//! The command line of `jxldec`: its options, and what they ask for.
#![tactic(auto)]

pub mod options;
