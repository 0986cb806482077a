//! Trees, and the samples that they predict, written in JPEG XL's entropy codes (ISO/IEC 18181-1, Modular: meta-adaptive
//! trees and decoding of samples; entropy decoding).
#![tactic(auto)]

mod nodes;
pub mod samples;
pub mod tree;
