//! Samples that are alike, counted together.

use jxlm_base::grid::OutOfMemory;
use std::alloc::Global;

/// How many keys are kept.
const KEPT: usize = 1 << 14;

/// The factor of a hash.
const FACTOR: u64 = 0x9E37_79B9_7F4A_7C15;

/// The factor of the second list.
const SECOND_FACTOR: u64 = 0xBF58_476D_1CE4_E5B9;

/// A hash of these numbers, one after another.
pub(crate) fn hash_of(numbers: &[i32]) -> u64 {
    let mut hash: u64 = FACTOR;
    for number in numbers {
        let number = *number;
        hash = (hash ^ u64::from(number.cast_unsigned())).wrapping_mul(FACTOR);
        hash = hash ^ hash.wrapping_shr(29);
    }
    hash
}

/// Small numbers behind one another.
fn packed(numbers: &[usize]) -> u64 {
    let mut packed: u64 = 0;
    for number in numbers {
        packed = packed.wrapping_mul(128).wrapping_add(*number as u64);
    }
    packed
}

/// A hash of two lists of at most nine small numbers.
pub(crate) fn hash_of_both(first: &[usize], second: &[usize]) -> u64 {
    let hash = packed(first).wrapping_mul(FACTOR);
    let rest = packed(second).wrapping_mul(SECOND_FACTOR);
    (hash ^ hash.wrapping_shr(29)).wrapping_add(rest)
}

/// The key of a sample, and its number plus 1; 0 where none is kept.
#[derive(Clone, Copy)]
struct Key {
    hash: u64,
    next: usize,
}

/// The last samples of each kind of key, and how many are like each sample.
#[derive(Drop)]
pub(crate) struct Weights {
    keys: Vec<Key>,
    // How many samples there are.
    samples: usize,
    // The number of the sample that the last one is like.
    last: usize,
    /// How many samples each stands for.
    pub(crate) list: Vec<u32>,
}

impl Weights {
    /// No samples.
    pub(crate) fn new(alloc: Global) -> Result<Weights, OutOfMemory> {
        Ok(Weights {
            keys: vec![in alloc; Key { hash: 0, next: 0 }; KEPT]?,
            samples: 0,
            last: 0,
            list: Vec::new(alloc),
        })
    }

    /// Whether more than a quarter of the samples is counted with others.
    pub(crate) fn are_alike(&self) -> bool {
        self.list.len() < self.samples.saturating_sub(self.samples / 4)
    }

    /// Whether more than two thirds of the samples are counted with others.
    pub(crate) fn are_mostly_alike(&self) -> bool {
        self.list.len() < self.samples / 3
    }

    /// Counts a sample with the one that is before it.
    pub(crate) fn count_again(&mut self) {
        self.samples = self.samples.saturating_add(1);
        if let Some(weight) = self.list.get_mut(self.last) {
            *weight = u32::saturating_add(*weight, 1);
        }
    }

    /// Counts a sample of this key with one that is like it. Returns false if none is kept: then the sample is new.
    pub(crate) fn count(&mut self, hash: u64) -> Result<bool, OutOfMemory> {
        self.samples = self.samples.saturating_add(1);
        let at = hash.wrapping_mul(FACTOR).wrapping_shr(40) as usize % KEPT;
        if let Some(key) = self.keys.get(at) {
            if key.hash == hash && key.next > 0 {
                if let Some(weight) = self.list.get_mut(key.next - 1) {
                    *weight = u32::saturating_add(*weight, 1);
                    self.last = key.next - 1;
                    return Ok(true);
                }
            }
        }
        self.last = self.list.len();
        self.list.push(1)?;
        let next = self.list.len();
        if let Some(key) = self.keys.get_mut(at) {
            *key = Key { hash, next };
        }
        Ok(false)
    }
}
