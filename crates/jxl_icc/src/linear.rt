//! Prediction of a byte by the bytes before it.

ghost use Rattle.std.specs.Prelude.{◌≡◌, ◌<◌, ◌≤◌, ◌+◌, ◌*◌, ◌^◌, ◌/◌, length, ◌⊎◌};
ghost use Rattle.jxl_icc.specs.Linear.{big, range, extrapolated, linear_byte, source as the_source};

use crate::numbers::word;

/// A prediction of values of this many bytes by values at distances of this stride, by a polynomial of this order.
#[derive(Clone, Copy)]
pub struct Linear {
    /// How many bytes a value has: 1, 2 or 4.
    pub width: usize,
    /// The order: 0, 1 or 2.
    pub order: u8,
    /// The distance, in bytes, to the value before.
    pub stride: u64,
}

// The number of the bytes from `start` on, the first the most significant.
fn number(bytes: &[u8], start: usize, width: usize) -> u64
    requires width { (width ≡ 1) ⊎ ((width ≡ 2) ⊎ (width ≡ 4)) }
    requires inside { start + width ≤ length bytes.now }
    ensures is { result ≡ big bytes.now start width }
    ensures below { result < range width }
{
    let first = u64::from(bytes[start]);
    match width {
        1 => first,
        2 => first * 256 + u64::from(bytes[start + 1]),
        _ => {
            let low = u64::from(bytes[start + 2]) * 256 + u64::from(bytes[start + 3]);
            (first * 256 + u64::from(bytes[start + 1])) * 65536 + low
        }
    }
}

// How many numbers have this many bytes.
fn range_of(width: usize) -> u64
    ensures { result ≡ range width }
{
    match width {
        1 => 256,
        2 => 65536,
        _ => 4294967296,
    }
}

// The value that continues the last three values, modulo this one.
fn extrapolate(order: u8, modulus: u64, last: u64, second: u64, third: u64) -> u64
    requires small { modulus ≤ 2 ^ 32 }
    requires last { last < modulus }
    requires second { second < modulus }
    requires third { third < modulus }
    ensures is { result ≡ extrapolated order modulus last second third }
    ensures below { result < modulus }
{
    match order {
        0 => last,
        1 => (2 * last + modulus - second) % modulus,
        _ => (3 * last + 3 * (modulus - second) + third) % modulus,
    }
}

/// What is predicted for byte i after the first `start` bytes, of which the bytes before it are known.
#[tactic(auto, unfolding(crate::specs::Linear::linear_byte))]
pub fn predict(out: &[u8], start: usize, by: Linear, i: usize) -> u8
    requires width { (by.width ≡ 1) ⊎ ((by.width ≡ 2) ⊎ (by.width ≡ 4)) }
    requires stride { by.width ≤ by.stride }
    requires before { 4 * by.stride < start }
    requires known { length out.now ≡ start + i }
    ensures { result ≡ linear_byte out.now start by i }
{
    let stride = by.stride as usize;
    let place = start + i / by.width * by.width;
    let modulus = range_of(by.width);
    let last = number(out, place - stride, by.width);
    let second = number(out, place - 2 * stride, by.width);
    let third = number(out, place - 3 * stride, by.width);
    let value = extrapolate(by.order, modulus, last, second, third);
    word(value as u32)[4 - by.width + i % by.width]
}

/// Which of `count` bytes becomes byte i when the rows of a table of `width` rows become its columns.
#[tactic(auto, unfolding(crate::specs::Linear::source))]
pub fn source(count: usize, width: usize, i: usize) -> usize
    requires wide { 0 < width }
    requires few { width ≤ 4 }
    requires long { count < 2 ^ 32 }
    requires inside { i < count }
    ensures is { result ≡ the_source count width i }
    ensures inside { result < count }
{
    let columns = (count + width - 1) / width;
    let whole = count / columns;
    let longer = count % columns;
    let split = longer * (whole + 1);
    if i < split {
        i % (whole + 1) * columns + i / (whole + 1)
    } else {
        let k = i - split;
        k % whole * columns + longer + k / whole
    }
}
