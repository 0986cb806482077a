//! Bits, fields, errors and entropy decoders: what all readers stand on.
#![tactic(auto)]

pub mod bit_laws;
pub mod bits;
pub mod decoder;
pub mod error;
