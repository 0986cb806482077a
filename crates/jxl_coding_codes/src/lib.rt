//! Codes of symbols and integers, as JPEG XL's entropy coding has them (ISO/IEC 18181-1, entropy decoding): integer
//! configurations, prefix codes, distributions, alias tables.
#![tactic(auto)]

pub mod alias;
pub mod ans;
pub mod codeword;
pub mod config;
pub mod distribution;
pub mod fields;
mod filling;
pub mod laws;
pub mod lengths;
pub mod lookup;
pub mod prefix;
pub mod refusal;
mod signalled;
mod widths;
