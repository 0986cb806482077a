//! What is encoded comes back: the law, and a call that encodes and decodes.
#![tactic(auto)]

pub mod laws;
pub mod roundtrip;
