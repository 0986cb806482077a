//! What a code costs, in bits times 65,536.

/// One bit.
pub const BIT: u64 = 65536;

/// The bits of the head of a code of one symbol.
const ONLY_HEAD: u64 = 21;

/// The bits of the head of another code, beside its counts.
const HEAD: u64 = 24;

/// The bits of a count of 0 in the head.
const ABSENT: u64 = 5;

/// The bits of another count in the head.
const PRESENT: u64 = 9;

/// The binary logarithm of a number above 0, nearly, times 65,536.
pub fn log2(number: u32) -> u64 {
    let width = 31u32.saturating_sub(number.leading_zeros());
    let rest = u64::from(number.wrapping_shl(32u32.saturating_sub(width)) / 65536);
    let part = if width == 0 { 0 } else { rest };
    let bend = part.saturating_mul(BIT.saturating_sub(part)) / 65536;
    u64::from(width)
        .saturating_mul(BIT)
        .saturating_add(part)
        .saturating_add(bend.saturating_mul(22512) / 65536)
}

/// What is known of all symbols.
#[derive(Clone, Copy)]
struct Sums {
    // The sum of the counts.
    total: u64,
    // The number of symbols that occur.
    kinds: u64,
    // The greatest of them, and 1.
    end: u64,
}

/// What is known of the symbols of these counts.
fn sums_of(counts: &[u32]) -> Sums {
    let mut sums = Sums {
        total: 0,
        kinds: 0,
        end: 0,
    };
    for symbol in 0..counts.len() {
        if counts[symbol] > 0 {
            sums = Sums {
                total: sums.total.saturating_add(u64::from(counts[symbol])),
                kinds: sums.kinds.saturating_add(1),
                end: (symbol as u64).saturating_add(1),
            };
        }
    }
    sums
}

/// The bits of a symbol of this count, times 65,536.
fn bits_of(sums: Sums, count: u32) -> u64 {
    let room = 4096u64.saturating_sub(sums.kinds);
    let part = u64::from(count).saturating_mul(room) / sums.total.max(1);
    let share = part.saturating_add(1).min(4096) as u32;
    BIT.saturating_mul(12).saturating_sub(log2(share))
}

/// What symbols of these counts and the head of their code cost.
pub(crate) fn cost_of_code(counts: &[u32]) -> u64 {
    let sums = sums_of(counts);
    if sums.kinds < 2 {
        return ONLY_HEAD.saturating_mul(BIT);
    }
    let absent = sums.end.saturating_sub(sums.kinds);
    let head = absent
        .saturating_mul(ABSENT)
        .saturating_add(sums.kinds.saturating_mul(PRESENT))
        .saturating_add(HEAD);
    let mut cost = head.saturating_mul(BIT);
    for count in counts {
        if *count > 0 {
            let bits = bits_of(sums, *count).saturating_mul(u64::from(*count));
            cost = cost.saturating_add(bits);
        }
    }
    cost
}
