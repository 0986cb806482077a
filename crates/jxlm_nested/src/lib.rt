//! Parts of a Modular image that have a header of their own, over a store of grids: header and tree read, samples
//! decoded, transforms undone (ISO/IEC 18181-1, Modular: group sub-bitstreams).
#![tactic(auto)]

mod held;
pub mod nested;
pub mod opening;
pub mod stream;
