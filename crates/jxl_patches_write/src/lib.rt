//! The dictionary of patches, written (ISO/IEC 18181-1, frame: LF global, patches).
#![tactic(auto)]

mod coordinates;
pub mod dictionary;
mod runs;
mod tokens;
