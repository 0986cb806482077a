//! Lossless frames of JPEG XL files, written so that the decoder of `jxl_lossless` decodes them (ISO/IEC 18181-1, frame:
//! sections; Modular: global and group sub-bitstreams).
#![tactic(auto)]

pub mod laws;
pub mod sections;
