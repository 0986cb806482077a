//! Lossless .jxl files, written of pictures (ISO/IEC 18181-1, 18181-2).
#![tactic(auto)]

mod channels;
mod choice;
pub mod codable;
mod codestream;
pub mod effort;
pub mod error;
pub mod file;
mod frame;
mod large;
mod level;
pub mod orientation;
pub mod profile;
pub mod progress;
mod sizes;
