//! Trees of headers' own, compared with a limit on decisions before any sample is decoded (ISO/IEC 18181-1, Modular:
//! Modular header, MA tree).
#![tactic(auto)]

pub mod channels;
pub mod depth;
