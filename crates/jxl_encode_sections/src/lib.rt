//! The sections of a frame of a lossless .jxl file, written (ISO/IEC 18181-1, frame: sections; Modular: global and
//! group sub-bitstreams).
#![tactic(auto)]

mod codes;
mod copies;
pub mod frame;
mod groups;
pub mod laws;
mod list;
mod parts;
mod section;
