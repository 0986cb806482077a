//! Residuals by their size, as a code for them would have it.

use jxlm_encode_write::tree::pack;

/// The number of symbols.
pub const SYMBOLS: usize = 72;

/// The residuals that have a symbol of their own.
const DIRECT: u32 = 16;

/// The symbol of a residual.
pub fn symbol_of(residual: i32) -> usize {
    let value = pack(residual);
    if value < DIRECT {
        return value as usize;
    }
    let width = 31u32.saturating_sub(value.leading_zeros());
    let half = value.wrapping_shr(width.saturating_sub(1)) & 1;
    width
        .saturating_sub(4)
        .saturating_mul(2)
        .saturating_add(16)
        .saturating_add(half) as usize
}
