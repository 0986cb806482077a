//! The names of the files that frames are written to: a pattern with one place for the number of the frame.
#![tactic(auto)]

pub mod pattern;
