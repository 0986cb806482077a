//! Whether rows of samples repeat: a look before copies are searched, far cheaper than the search.

use jxlm_base::grid::{AlignedGrid, OutOfMemory};
use std::alloc::Global;

/// How many hashes are kept.
const KEPT: usize = 1 << 14;

/// Samples of a large channel are looked at where their hash is at most this: at one place of eight.
const LOOKED: u32 = (1 << 29) - 1;

/// The factor of the hash: after eight samples more nothing of a sample is left in it.
const FACTOR: u32 = 0x9E37_79B0;

/// In a channel of fewer samples copies are searched without a look.
const FEW: usize = 1 << 10;

/// A channel of fewer samples is looked at at all places.
const SMALL: usize = 1 << 15;

/// How many places that were looked at may be new for one that was there before.
const NEW: u32 = 8;

/// The places of a channel that were looked at.
#[derive(Drop)]
struct Look {
    // The last hash of each kind.
    hashes: Vec<u32>,
    // The greatest hash of a place that is looked at.
    most: u32,
    // How many places there were.
    places: u32,
    // How many of them had the hash of an earlier one.
    repeated: u32,
}

impl Look {
    /// Looks at some places of a row where a sample is not that before it.
    fn look_at_row(&mut self, row: &[i32]) {
        let mut hash: u32 = 0;
        let mut last: i32 = 0;
        for sample in row {
            let sample = *sample;
            hash = hash
                .wrapping_mul(FACTOR)
                .wrapping_add(sample.cast_unsigned().wrapping_mul(2654435761));
            if sample != last && hash <= self.most {
                self.places = self.places.saturating_add(1);
                if let Some(earlier) = self.hashes.get_mut(hash as usize % KEPT) {
                    if *earlier == hash {
                        self.repeated = self.repeated.saturating_add(1);
                    }
                    *earlier = hash;
                }
            }
            last = sample;
        }
    }
}

/// Whether eight samples at an edge often are those at an earlier edge, in the first of these channels.
///
/// # Errors
///
/// Out of memory alone.
pub fn do_repeat(alloc: Global, channels: &[AlignedGrid<i32>]) -> Result<bool, OutOfMemory> {
    let Some(channel) = channels.get(0) else {
        return Ok(false);
    };
    let samples = channel.width().saturating_mul(channel.height());
    if samples < FEW {
        return Ok(true);
    }
    let mut look = Look {
        hashes: vec![in alloc; 0; KEPT]?,
        most: if samples < SMALL { u32::MAX } else { LOOKED },
        places: 0,
        repeated: 0,
    };
    for y in 0..channel.height() {
        look.look_at_row(channel.get_row(y));
    }
    Ok(look.repeated.saturating_mul(NEW) > look.places)
}
