//! JPEG XL files in boxes, written (ISO/IEC 18181-2).
#![tactic(auto)]

mod boxes;
pub mod container;
