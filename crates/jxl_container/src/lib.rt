//! JPEG XL files: where the codestream lies (ISO/IEC 18181-2). A file is a codestream, or boxes that hold one.
#![tactic(auto)]

pub mod boxes;
pub mod codestream;
pub mod error;
pub mod laws;
pub mod metadata;
mod rules;
mod seen;
