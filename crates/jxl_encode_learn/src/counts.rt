//! How often symbols occur.

use crate::symbols::SYMBOLS;

/// How often each symbol occurs.
pub(crate) type Counts = [u32; SYMBOLS];

/// No symbols.
pub(crate) const NONE: Counts = [0; SYMBOLS];

/// The number of symbols up to the greatest that occurs.
pub(crate) fn symbols_in(counts: &[u32]) -> usize {
    let mut symbols: usize = 0;
    for symbol in 0..counts.len() {
        if counts[symbol] > 0 {
            symbols = symbol + 1;
        }
    }
    symbols
}

/// The counts of both.
pub(crate) fn sum_of(first: &Counts, second: &Counts) -> Counts {
    let mut sums = *first;
    for symbol in 0..SYMBOLS {
        sums[symbol] = sums[symbol].wrapping_add(second[symbol]);
    }
    sums
}

/// The counts of the first without those of the second.
pub(crate) fn rest_of(first: &Counts, second: &Counts) -> Counts {
    let mut rest = *first;
    for symbol in 0..SYMBOLS {
        rest[symbol] = rest[symbol].saturating_sub(second[symbol]);
    }
    rest
}
