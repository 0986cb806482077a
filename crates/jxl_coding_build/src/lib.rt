//! Codes made for given tokens, and their decoder and stream written together, with copies of earlier tokens (ISO/IEC
//! 18181-1, entropy decoding, LZ77). Which copies are found is a heuristic: a writer leaves out copies that do not fit.
#![tactic(auto)]

pub mod any;
mod configs;
pub mod copies;
pub mod costs;
pub mod histogram;
pub mod normalise;
pub mod plan;
mod prices;
mod runs;
mod search;
pub mod streams;
mod symbols;
