//! The neighbours of a sample (ISO/IEC 18181-1, Modular: neighbours and properties), and what predictors make of them.

use crate::source::Source;
use jxlm_base::grid::OutOfMemory;
use jxlm_base::sample::Sealed;
use std::alloc::Global;
use std::mem;

/// The side of a group, at which neighbours end.
pub(crate) const SIDE: usize = 256;

/// The rows around a sample.
#[derive(Drop)]
pub(crate) struct NearRows {
    /// The number of the channel.
    pub(crate) channel: usize,
    /// Its own row.
    pub(crate) here: Vec<i32>,
    above: Vec<i32>,
    higher: Vec<i32>,
    // Its own row in the channel before, and the row above that.
    earlier: Vec<i32>,
    before: Vec<i32>,
    /// How many rows of its group are above.
    pub(crate) depth: usize,
    // The channel and the row after this one.
    next: (usize, usize),
}

/// The neighbours of a sample.
#[derive(Clone, Copy, PartialEq, Eq)]
pub(crate) struct Near {
    pub(crate) west: i32,
    pub(crate) north: i32,
    north_west: i32,
    north_east: i32,
    // Two columns to the right in the row above.
    far_east: i32,
    north_north: i32,
    west_west: i32,
}

/// The sample in this column of a row; 0 outside.
pub(crate) fn sample_at(row: &[i32], x: usize) -> i32 {
    row.get(x).copied().unwrap_or(0)
}

impl NearRows {
    /// No rows.
    pub(crate) fn new(alloc: Global) -> NearRows {
        NearRows {
            channel: 0,
            here: Vec::new(alloc),
            above: Vec::new(alloc),
            higher: Vec::new(alloc),
            earlier: Vec::new(alloc),
            before: Vec::new(alloc),
            depth: 0,
            next: (0, 0),
        }
    }

    /// Goes to a row of a channel.
    pub(crate) fn go(
        &mut self,
        source: Source<'_>,
        channel: usize,
        y: usize,
    ) -> Result<(), OutOfMemory> {
        self.channel = channel;
        self.depth = y % SIDE;
        if y > 0 && self.next == (channel, y) {
            // The rows around the last one are those above.
            mem::swap(&mut self.higher, &mut self.above);
            mem::swap(&mut self.above, &mut self.here);
            mem::swap(&mut self.before, &mut self.earlier);
        } else {
            source.copy(&mut self.above, channel, y.saturating_sub(1))?;
            source.copy(&mut self.higher, channel, y.saturating_sub(2))?;
            if channel > 0 {
                source.copy(&mut self.before, channel - 1, y.saturating_sub(1))?;
            }
        }
        source.copy(&mut self.here, channel, y)?;
        if channel > 0 {
            source.copy(&mut self.earlier, channel - 1, y)?;
        }
        self.next = (channel, y.saturating_add(1));
        Ok(())
    }

    /// The sample in the channel before.
    pub(crate) fn sample_before(&self, x: usize) -> i32 {
        sample_at(&self.earlier, x)
    }

    /// The residual by the gradient in the channel before.
    pub(crate) fn residual_before(&self, x: usize) -> i32 {
        let before = x.saturating_sub(1);
        let north = sample_at(&self.before, x);
        let west = sample_at(&self.earlier, before);
        let expected = match (x % SIDE, self.depth) {
            (0, 0) => 0,
            (0, _) => north,
            (_, 0) => west,
            _ => i32::grad_clamped(north, west, sample_at(&self.before, before)),
        };
        self.sample_before(x).wrapping_sub(expected)
    }
}

impl Near {
    /// The neighbours in the first row of a group.
    fn in_first_row(rows: &NearRows, x: usize) -> Near {
        let column = x % SIDE;
        let west = if column > 0 {
            sample_at(&rows.here, x.saturating_sub(1))
        } else {
            0
        };
        Near {
            west,
            north: west,
            north_west: west,
            north_east: west,
            far_east: west,
            north_north: west,
            west_west: if column > 1 {
                sample_at(&rows.here, x.saturating_sub(2))
            } else {
                west
            },
        }
    }

    /// The neighbours of the sample in column `x`.
    pub(crate) fn of(rows: &NearRows, x: usize) -> Near {
        if rows.depth == 0 {
            return Near::in_first_row(rows, x);
        }
        let column = x % SIDE;
        let before = x.saturating_sub(1);
        let north = sample_at(&rows.above, x);
        let (west, north_west) = if column > 0 {
            (
                sample_at(&rows.here, before),
                sample_at(&rows.above, before),
            )
        } else {
            (north, north)
        };
        let end = rows
            .above
            .len()
            .min(x.saturating_sub(column).saturating_add(SIDE));
        let north_east = if x.saturating_add(1) < end {
            sample_at(&rows.above, x.saturating_add(1))
        } else {
            north
        };
        Near {
            west,
            north,
            north_west,
            north_east,
            far_east: if x.saturating_add(2) < end {
                sample_at(&rows.above, x.saturating_add(2))
            } else {
                north_east
            },
            north_north: if rows.depth > 1 {
                sample_at(&rows.higher, x)
            } else {
                north
            },
            west_west: if column > 1 {
                sample_at(&rows.here, x.saturating_sub(2))
            } else {
                west
            },
        }
    }

    /// The slopes: from above left to the left, from above to above left, from above right to above, and from the neighbour
    /// behind it to the one above and to the one on the left.
    pub(crate) fn slopes(self) -> [i32; 5] {
        [
            self.west.wrapping_sub(self.north_west),
            self.north_west.wrapping_sub(self.north),
            self.north.wrapping_sub(self.north_east),
            self.north.wrapping_sub(self.north_north),
            self.west.wrapping_sub(self.west_west),
        ]
    }

    /// The clamped gradient.
    pub(crate) fn gradient(self) -> i32 {
        i32::grad_clamped(self.north, self.west, self.north_west)
    }

    /// The average of left and above, rounded towards 0.
    pub(crate) fn average(self) -> i32 {
        let odd = (self.west % 2 + self.north % 2) / 2;
        (self.west / 2)
            .wrapping_add(self.north / 2)
            .wrapping_add(odd)
    }

    /// Left or above, whichever the sample above left speaks for.
    pub(crate) fn select(self) -> i32 {
        if self.north.abs_diff(self.north_west) < self.west.abs_diff(self.north_west) {
            self.west
        } else {
            self.north
        }
    }

    /// The average of all neighbours.
    pub(crate) fn average_of_all(self) -> i32 {
        let near = self
            .north
            .wrapping_mul(6)
            .wrapping_add(self.west.wrapping_mul(7))
            .wrapping_add(self.north_east.wrapping_mul(3));
        let far = self
            .west_west
            .wrapping_add(self.far_east)
            .wrapping_sub(self.north_north.wrapping_mul(2));
        near.wrapping_add(far).wrapping_add(8) / 16
    }
}
