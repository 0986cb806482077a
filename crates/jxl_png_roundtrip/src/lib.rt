//! What is written as a PNG file is read as the same picture.
#![tactic(auto)]

pub mod roundtrip;
