//! Symbols and hybrid integers, written so that the entropy decoder reads them (ISO/IEC 18181-1, entropy decoding).
#![tactic(auto)]

pub mod piece;
pub mod slot_table;
pub mod spelling;
