//! Entropy coded streams and the heads of their decoders, written so that the entropy decoder reads them (ISO/IEC
//! 18181-1, entropy decoding).
#![tactic(auto)]

mod back;
pub mod cluster;
pub mod copies;
pub mod copy_head;
mod first_bits;
pub mod head;
pub mod head_limits;
pub mod laws;
pub mod stream;
