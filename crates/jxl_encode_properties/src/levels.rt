//! Levels of differences: fine near 0, two for each doubling farther away.

use jxl_encode_learn::axis::Axis;
use jxlm_base::grid::OutOfMemory;
use std::alloc::Global;

/// The level of 0.
const ZERO: usize = 15;

/// The number of cuts between levels.
const CUTS: usize = 30;

/// The level of a difference in units of 2 to the power of `shift`.
pub(crate) fn level_of(difference: i32, shift: u32) -> usize {
    let size = difference.unsigned_abs().wrapping_shr(shift);
    let level = if size < 4 {
        size as usize
    } else {
        let width = 31u32.saturating_sub(size.leading_zeros());
        let half = size.wrapping_shr(width.saturating_sub(1)) & 1;
        (width.saturating_mul(2).saturating_add(half) as usize).min(ZERO)
    };
    if difference < 0 {
        ZERO.saturating_sub(level)
    } else {
        ZERO.saturating_add(level)
    }
}

/// The greatest difference at a level.
fn greatest_at(level: usize, shift: u32) -> i32 {
    let step = if level < ZERO {
        ZERO.saturating_sub(level)
    } else {
        level.saturating_sub(ZERO).saturating_add(1)
    };
    // The least size at this many levels from 0.
    let step = step.min(31) as u32;
    let size = if step < 2 {
        step
    } else {
        2u32.saturating_add(step % 2)
            .wrapping_shl((step / 2).saturating_sub(1))
    };
    let size = size.wrapping_shl(shift).min(1 << 30) as i32;
    if level < ZERO {
        size.wrapping_neg()
    } else {
        size.saturating_sub(1)
    }
}

/// A property by its levels.
pub(crate) fn levels_on(alloc: Global, property: u32, shift: u32) -> Result<Axis, OutOfMemory> {
    let mut cuts = Vec::new(alloc);
    for level in 0..CUTS {
        cuts.push(greatest_at(level, shift))?;
    }
    Ok(Axis { property, cuts })
}
