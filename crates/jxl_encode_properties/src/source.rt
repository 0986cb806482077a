//! The samples that trees are learnt from: rows of channels, their colours as they are coded.

use jxlm_base::grid::{AlignedGrid, OutOfMemory};
use std::alloc::Global;

/// The channels of a picture, and the kind of colour transform by which the first three are coded.
#[derive(Clone, Copy)]
pub struct Source<'a> {
    /// The channels.
    pub channels: &'a [AlignedGrid<i32>],
    /// The kind of the colour transform.
    pub colour: Option<u32>,
}

/// Whether a row is one that is looked at, of which there is one in `step`: evenly spread, and at no period.
pub fn is_taken(y: usize, step: usize) -> bool {
    y.wrapping_mul(40503).wrapping_add(10000) % 65536 < 65536 / step.max(1)
}

/// About how many rows are looked at at least.
const LEAST_ROWS: usize = 8;

/// How many rows there are for each that is looked at, if about this number of samples of each channel are, or more of a channel
/// that is so wide that these were few rows.
pub(crate) fn step_of(channels: &[AlignedGrid<i32>], pixels: usize) -> usize {
    match channels.get(0) {
        Some(first) => {
            let step = first.buf().len().div_ceil(pixels.max(1));
            step.min(first.height() / LEAST_ROWS).max(1)
        }
        None => 1,
    }
}

/// The number of samples.
pub fn samples_in(channels: &[AlignedGrid<i32>]) -> usize {
    let mut samples: usize = 0;
    for channel in channels {
        samples = samples.saturating_add(channel.buf().len());
    }
    samples
}

/// The channels from which the coded ones come by a colour transform of this kind.
fn order_of(kind: u32) -> [usize; 3] {
    match kind / 7 {
        0 => [0, 1, 2],
        1 => [1, 2, 0],
        2 => [2, 0, 1],
        3 => [0, 2, 1],
        4 => [1, 0, 2],
        _ => [2, 1, 0],
    }
}

/// The sample of a channel that a colour transform of this kind makes of three samples in its order.
fn formed(kind: u32, channel: usize, first: i32, second: i32, third: i32) -> i32 {
    let part = kind % 7;
    if part == 6 {
        // Luma and two differences.
        let orange = first.wrapping_sub(third);
        let middle = third.wrapping_add(orange >> 1);
        let leaf = second.wrapping_sub(middle);
        return match channel {
            0 => middle.wrapping_add(leaf >> 1),
            1 => orange,
            _ => leaf,
        };
    }
    match channel {
        0 => first,
        1 if part / 2 == 1 => second.wrapping_sub(first),
        1 if part / 2 == 2 => second.wrapping_sub(first.wrapping_add(third) >> 1),
        1 => second,
        _ if part % 2 == 1 => third.wrapping_sub(first),
        _ => third,
    }
}

/// The row of a channel; none outside.
pub(crate) fn row_of<'a>(channels: &'a [AlignedGrid<i32>], channel: usize, y: usize) -> &'a [i32] {
    match channels.get(channel) {
        Some(grid) if y < grid.height() => grid.get_row(y),
        _ => &[],
    }
}

impl Source<'_> {
    /// The height of a channel; 0, if there is none of this number.
    pub fn height(self, channel: usize) -> usize {
        match self.channels.get(channel) {
            Some(grid) => grid.height(),
            None => 0,
        }
    }

    /// Adds a row of a channel that a colour transform makes.
    fn add_formed(
        self,
        row: &mut Vec<i32>,
        kind: u32,
        channel: usize,
        y: usize,
    ) -> Result<(), OutOfMemory> {
        let [first, second, third] = order_of(kind);
        let first = row_of(self.channels, first, y);
        let second = row_of(self.channels, second, y);
        let third = row_of(self.channels, third, y);
        for x in 0..first.len() {
            let second = second.get(x).copied().unwrap_or(0);
            let third = third.get(x).copied().unwrap_or(0);
            row.push(formed(kind, channel, first[x], second, third))?;
        }
        Ok(())
    }

    /// Puts a row of a channel in the place of another.
    pub fn copy(self, row: &mut Vec<i32>, channel: usize, y: usize) -> Result<(), OutOfMemory> {
        row.truncate(0);
        match self.colour {
            Some(kind) if channel < 3 => self.add_formed(row, kind, channel, y)?,
            _ => row.extend_from_slice(row_of(self.channels, channel, y))?,
        }
        Ok(())
    }
}
