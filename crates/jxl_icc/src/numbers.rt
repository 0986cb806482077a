//! Numbers of the stream: seven bits in each byte.

ghost use Rattle.std.specs.Prelude.{◌≡◌, ◌<◌, ◌≤◌, ◌^◌, length, IfOk};
ghost use Rattle.jxl_icc.specs.Numbers.{number_within, number_from, number_if, word_bytes};

use crate::error::ProfileError;

/// A number, and the position after it.
#[derive(Clone, Copy)]
pub struct Number {
    /// The number.
    pub value: u64,
    /// How many bytes of the stream are before what follows it.
    pub after: usize,
}

// The number from `start` on, of at most this many bytes, all of them before `end`.
#[tactic(auto, unfolding(crate::specs::Numbers::number_within))]
fn within(bytes: &[u8], end: usize, most: u32, start: usize) -> Result<Number, ProfileError>
    requires inside { end ≤ length bytes.now }
    requires few { most ≤ 9 }
    ensures gives { result ≡ number_within bytes.now end most start }
    ensures after { IfOk result (λ n. (start < n.after) × (n.after ≤ end)) }
    ensures below { IfOk result (λ n. n.value < 128 ^ most) }
{
    if most == 0 {
        return Err(ProfileError::NumberTooLong);
    }
    if start >= end {
        return Err(ProfileError::Truncated);
    }
    let low = u64::from(bytes[start]);
    if low < 128 {
        return Ok(Number {
            value: low,
            after: start + 1,
        });
    }
    match within(bytes, end, most - 1, start + 1) {
        Ok(high) => Ok(Number {
            value: low - 128 + 128 * high.value,
            after: high.after,
        }),
        Err(error) => Err(error),
    }
}

/// The number from `start` on, all of whose bytes are before `end`.
///
/// # Errors
///
/// `Truncated` if its bytes pass `end`, `NumberTooLong` if they are more than nine.
#[tactic(auto, unfolding(crate::specs::Numbers::number_from))]
pub fn number_at(bytes: &[u8], end: usize, start: usize) -> Result<Number, ProfileError>
    requires { end ≤ length bytes.now }
    ensures gives { result ≡ number_from bytes.now end start }
    ensures after { IfOk result (λ n. (start < n.after) × (n.after ≤ end)) }
    ensures below { IfOk result (λ n. n.value < 2 ^ 63) }
{
    within(bytes, end, 9, start)
}

/// The four bytes of a number, the most significant first.
pub fn word(v: u32) -> [u8; 4]
    ensures { result ≡ word_bytes v }
{
    [
        (v / 16777216 % 256) as u8,
        (v / 65536 % 256) as u8,
        (v / 256 % 256) as u8,
        (v % 256) as u8,
    ]
}

/// The number from `start` on if it is present; else this value.
#[tactic(auto, unfolding(crate::specs::Numbers::number_if))]
pub fn number_or(
    bytes: &[u8],
    end: usize,
    present: bool,
    absent: u64,
    start: usize,
) -> Result<Number, ProfileError>
    requires inside { end ≤ length bytes.now }
    requires here { start ≤ end }
    requires small { absent < 2 ^ 63 }
    ensures gives { result ≡ number_if bytes.now end present absent start }
    ensures after { IfOk result (λ n. (start ≤ n.after) × (n.after ≤ end)) }
    ensures below { IfOk result (λ n. n.value < 2 ^ 63) }
{
    if present {
        number_at(bytes, end, start)
    } else {
        Ok(Number {
            value: absent,
            after: start,
        })
    }
}
