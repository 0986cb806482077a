//! The encoded stream of an ICC profile (ISO/IEC 18181-1, ICC profile), written.
#![tactic(auto)]

pub mod encode;
mod header;
mod numbers;
mod stream;
mod tags;
