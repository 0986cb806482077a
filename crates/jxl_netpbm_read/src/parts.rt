//! The numbers in headers.

ghost use Rattle.std.specs.Prelude.{◌≡◌, ◌<◌, ◌≤◌, ◌^◌, true, length, IfOk, IfSome};
ghost use Rattle.jxl_netpbm_read.specs.Parts.{bits_below, bits_from, bits_of as the_bits_of, is_side as the_side, side_from};

use crate::error::NetpbmError;
use crate::words::{Number, number_at};

fn is_side(side: u32) -> bool
    ensures { result ≡ the_side side }
{
    1 <= side && side <= 1 << 30
}

/// The side of a picture that the next word writes.
///
/// # Errors
///
/// Those of [`number_at`], and `Size` if it is 0 or above 2^30.
#[tactic(auto, unfolding(crate::specs::Parts::side_from))]
pub(crate) fn side_at(bytes: &[u8], start: usize) -> Result<Number, NetpbmError>
    requires { start ≤ length bytes.now }
    ensures value { result ≡ side_from bytes.now start }
    ensures inside { IfOk result (λ n. n.after < length bytes.now) }
    ensures side { IfOk result (λ n. the_side n.value ≡ true) }
{
    let number = number_at(bytes, start)?;
    if is_side(number.value) {
        Ok(number)
    } else {
        Err(NetpbmError::Size)
    }
}

// The number of bits, at most `most`, of numbers up to this maximum.
fn bits_within(maximum: u32, most: u32) -> Option<u32>
    requires { most ≤ 16 }
    ensures value { result ≡ bits_below maximum most }
    ensures some { IfSome result (λ n. 1 ≤ n) }
    ensures few { IfSome result (λ n. n ≤ most) }
{
    if most == 0 {
        return None;
    }
    if maximum == (1 << most) - 1 {
        return Some(most);
    }
    bits_within(maximum, most - 1)
}

/// The number of bits of samples up to the maximum that the next word writes, from 1 to 16.
///
/// # Errors
///
/// Those of [`number_at`], and `Maximum` if it is not 2^n - 1 with n from 1 to 16.
#[tactic(auto, unfolding(crate::specs::Parts::bits_from))]
pub(crate) fn bits_at(bytes: &[u8], start: usize) -> Result<Number, NetpbmError>
    requires { start ≤ length bytes.now }
    ensures value { result ≡ bits_from bytes.now start }
    ensures inside { IfOk result (λ n. n.after < length bytes.now) }
    ensures some { IfOk result (λ n. 1 ≤ n.value) }
    ensures few { IfOk result (λ n. n.value ≤ 16) }
{
    let number = number_at(bytes, start)?;
    match bits_within(number.value, 16) {
        Some(value) => Ok(Number {
            value,
            after: number.after,
        }),
        None => Err(NetpbmError::Maximum),
    }
}
