//! Bits written one after another, and the fields of headers (ISO/IEC 18181-1, bit packing and field types).
#![tactic(auto)]

pub mod fields;
pub mod spelled;
pub mod token;
pub mod writer;
