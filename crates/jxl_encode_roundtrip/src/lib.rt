//! What is encoded comes back: a call that encodes a picture to a .jxl file and decodes it.
#![tactic(auto)]

pub mod roundtrip;
