//! Ways to code a picture: trees, colour transforms and palettes (ISO/IEC 18181-1, Modular). They are heuristics: no sample
//! depends on them.
#![tactic(auto)]

pub mod advice;
mod best;
pub mod effort;
pub mod grids;
mod joined;
mod looks;
mod palettes;
