//! What symbols cost, in bits times 65,536.

use crate::counts::symbols_in;
use crate::symbols::SYMBOLS;
use jxlm_base::grid::OutOfMemory;
use std::alloc::Global;

/// One bit.
pub const BIT: u64 = 65536;

/// The sum of the counts of a code.
const WHOLE: u32 = 4096;

/// The bits of the head of a code of one symbol.
const ONLY_HEAD: u64 = 21;

/// The bits of the head of another code, beside its counts.
const HEAD: u64 = 24;

/// More bits than a symbol has, times 65,536.
const MOST: u64 = 64 * 65536;

/// What a code and a tree cost beside the samples.
#[derive(Clone, Copy)]
pub struct Prices {
    /// The number of samples for each that is counted.
    pub scale: u64,
    /// The price of a decision and one more leaf, in bits.
    pub decision: u64,
    /// The price of a leaf of more symbols than one, in bits.
    pub leaf: u64,
    /// The price of each of its symbols, in bits.
    pub symbol: u64,
}

/// The binary logarithm of a number above 0, nearly.
fn log2(number: u32) -> u64 {
    let width = 31u32.saturating_sub(number.leading_zeros());
    let rest = u64::from(number.wrapping_shl(32u32.saturating_sub(width)) / 65536);
    let part = if width == 0 { 0 } else { rest };
    let bend = part.saturating_mul(BIT.saturating_sub(part)) / 65536;
    u64::from(width)
        .saturating_mul(BIT)
        .saturating_add(part)
        .saturating_add(bend.saturating_mul(22512) / 65536)
}

/// What is known of all symbols.
#[derive(Clone, Copy)]
struct Sums {
    // The number of samples.
    total: u32,
    // The number of symbols that occur.
    kinds: u32,
}

/// The bits of a symbol, times 65,536: by its share of a code, and those that follow it.
#[derive(Drop)]
pub(crate) struct Bits {
    shares: Vec<u32>,
    after: Vec<u32>,
}

/// What is known of symbols of these counts.
fn sums_of(counts: &[u32]) -> Sums {
    let mut sums = Sums { total: 0, kinds: 0 };
    for symbol in 0..counts.len() {
        let count = counts[symbol];
        sums.total = sums.total.wrapping_add(count);
        sums.kinds = sums.kinds.wrapping_add(count.min(1));
    }
    sums
}

/// The bits of a symbol by each share of a code.
fn bits_of_shares(alloc: Global) -> Result<Vec<u32>, OutOfMemory> {
    let mut shares = Vec::new(alloc);
    for share in 0..WHOLE + 1 {
        let bits = BIT.saturating_mul(12).saturating_sub(log2(share.max(1)));
        shares.push(bits.min(MOST) as u32)?;
    }
    Ok(shares)
}

/// The bits that follow each symbol.
fn bits_of_rest(alloc: Global) -> Result<Vec<u32>, OutOfMemory> {
    let mut after = Vec::new(alloc);
    for symbol in 0..SYMBOLS {
        // Symbols below 16 are numbers; of others there are two for each number of bits.
        let bits = if symbol < 16 {
            0
        } else {
            (symbol as u64 / 2).saturating_sub(5).saturating_mul(BIT)
        };
        after.push(bits.min(MOST) as u32)?;
    }
    Ok(after)
}

impl Bits {
    /// Those of all symbols.
    pub(crate) fn new(alloc: Global) -> Result<Bits, OutOfMemory> {
        Ok(Bits {
            shares: bits_of_shares(alloc)?,
            after: bits_of_rest(alloc)?,
        })
    }

    /// What samples of these counts cost by a code of their own: if they have one symbol, the bits after it alone.
    fn samples(&self, counts: &[u32], sums: Sums) -> u64 {
        let room = u64::from(WHOLE.saturating_sub(sums.kinds));
        let part = ((room << 32) / u64::from(sums.total.max(1))).wrapping_add(1);
        let mut cost: u64 = 0;
        for symbol in 0..counts.len() {
            let count = counts[symbol];
            if count > 0 {
                let count = u64::from(count);
                let share = (count.wrapping_mul(part) >> 32).wrapping_add(1);
                let own = self.shares.get(share as usize).copied().unwrap_or(0);
                let rest = self.after.get(symbol).copied().unwrap_or(0);
                let bits = u64::from(own.wrapping_add(rest));
                cost = cost.wrapping_add(bits.wrapping_mul(count));
            }
        }
        cost
    }

    /// What symbols of these counts cost in a leaf with a code of its own.
    pub(crate) fn cost(&self, prices: Prices, counts: &[u32]) -> u64 {
        let sums = sums_of(counts);
        let own = if sums.kinds < 2 {
            0
        } else {
            prices
                .leaf
                .saturating_add(prices.symbol.saturating_mul(u64::from(sums.kinds)))
        };
        self.samples(counts, sums)
            .saturating_mul(prices.scale)
            .saturating_add(own.saturating_mul(BIT))
    }

    /// What symbols of these counts cost by a code with its head.
    pub(crate) fn cost_with_head(&self, scale: u64, counts: &[u32]) -> u64 {
        let sums = sums_of(counts);
        let head = if sums.kinds < 2 {
            ONLY_HEAD
        } else {
            let last = symbols_in(counts).saturating_sub(1);
            let last = last.saturating_add(last.saturating_sub(16)) as u64;
            let kinds = u64::from(sums.kinds);
            let absent = last.saturating_add(1).saturating_sub(kinds);
            absent
                .saturating_mul(5)
                .saturating_add(kinds.saturating_mul(9))
                .saturating_add(HEAD)
        };
        self.samples(counts, sums)
            .saturating_mul(scale)
            .saturating_add(head.saturating_mul(BIT))
    }
}
