//! What is written as a netpbm file is read as the same picture.
#![tactic(auto)]

pub mod laws;
