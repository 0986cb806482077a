//! Trees learnt from counted samples, with their prices (ISO/IEC 18181-1, Modular: meta-adaptive trees). What is learnt is
//! a heuristic: no sample depends on it.
#![tactic(auto)]

pub mod axis;
pub mod clusters;
pub mod costs;
pub mod counted;
pub mod counts;
mod learn;
mod refine;
pub mod scheme;
pub mod symbols;
