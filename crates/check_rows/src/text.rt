//! The words of rows.

ghost use Rattle.std.specs.Prelude.{◌≤◌, IfSome};

use std::alloc::Global;

/// A number that is not negative.
pub fn number(text: &str) -> Option<u32> {
    text.parse::<u32>().ok()
}

/// A word, and what is after the space that ends it.
pub fn word(text: &str) -> (&str, &str) {
    text.split_once(' ').unwrap_or((text, ""))
}

/// Two numbers with a mark between.
pub fn numbers(text: &str, mark: char) -> Option<(u32, u32)> {
    let (first, second) = text.split_once(mark)?;
    Some((number(first)?, number(second)?))
}

/// Signed numbers with spaces between; none in an empty text.
pub fn signed(alloc: Global, text: &str) -> Option<Vec<i32>> {
    let mut numbers = Vec::new(alloc);
    for word in text.split_whitespace() {
        numbers.push(word.parse::<i32>().ok()?).ok()?;
    }
    Some(numbers)
}

fn digit(c: u8) -> Option<u8>
    ensures { IfSome result (λ d. d ≤ 15) }
{
    match c {
        b'0'..=b'9' => Some(c - b'0'),
        b'a'..=b'f' => Some(c - b'a' + 10),
        _ => None,
    }
}

/// The bytes of hexadecimal digits, two for each; none where there are others, or an odd number.
pub fn bytes(alloc: Global, digits: &str) -> Option<Vec<u8>> {
    let mut bytes = Vec::new(alloc);
    let mut digits = digits.bytes();
    while let Some(high) = digits.next() {
        let low = digits.next()?;
        bytes.push(16 * digit(high)? + digit(low)?).ok()?;
    }
    Some(bytes)
}

/// The bytes of words of hexadecimal digits, with a star and a number after those that stand more than once.
pub fn repeated(alloc: Global, text: &str) -> Option<Vec<u8>> {
    let mut all = Vec::new(alloc);
    for word in text.split_whitespace() {
        let (digits, count) = word.split_once('*').unwrap_or((word, "1"));
        let part = bytes(alloc, digits)?;
        for _ in 0..number(count)? {
            all.extend_from_slice(&part).ok()?;
        }
    }
    Some(all)
}

/// A checksum of texts one after another, from 0: each byte, times a power of 31, the last times 1, added up modulo
/// 2^32. This is the sum after one more text.
pub fn text_sum(sum: u32, text: &str) -> u32 {
    let mut sum = sum;
    for byte in text.bytes() {
        sum = sum.wrapping_mul(31).wrapping_add(u32::from(byte));
    }
    sum
}
