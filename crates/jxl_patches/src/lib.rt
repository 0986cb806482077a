//! Patches of a JPEG XL frame (ISO/IEC 18181-1, frame: LF global, patches): rectangles of saved frames, which are put
//! into it.
#![tactic(auto)]

mod apply;
pub mod dictionary;
pub mod error;
pub mod laws;
pub mod patches;
mod place;
mod row;
pub mod slots;
mod source;
mod token;
