//! Fields and distributions of entropy codes, written so that the decoder reads them (ISO/IEC 18181-1, entropy
//! decoding).
#![tactic(auto)]

pub mod configs;
pub mod counts;
pub mod distributions;
pub mod fields;
