//! Trees learnt from samples one by one: by their neighbours, or by all predictors and properties (ISO/IEC
//! 18181-1, Modular: meta-adaptive trees), and the walk over them. What is learnt is a heuristic: no sample depends on it.
#![tactic(auto)]

pub mod broad;
mod kept;
mod levels;
mod near;
pub mod neighbours;
pub mod repeats;
mod samples;
pub mod source;
pub mod walk;
