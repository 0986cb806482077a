//! Deflate and zlib streams, read, and drawn texts, written and read again.

use check_rows::{number, repeated, word};
use jxl_deflate::adler32::adler32;
use jxl_deflate::inflate::{Inflated, inflate};
use jxl_deflate::zlib::decompress;
use jxl_deflate_write::deflate::{Effort, deflate};
use jxl_deflate_write::zlib::compress;
use std::alloc::Global;

/// A text: its checksum, its number of bytes, and the number of bytes of its stream.
fn told(alloc: Global, read: &Inflated) -> Option<String> {
    let sum = adler32(&read.text);
    format!(in alloc; "{sum} {} {}", read.text.len(), read.end).ok()
}

/// A row asks with a limit and the bytes of a deflate stream, as words of hexadecimal digits. It gives the checksum of
/// the text, its number of bytes and the number of bytes of the stream, or the error's name.
pub fn seen_of_inflate(alloc: Global, asked: &str) -> Option<String> {
    let (limit, digits) = word(asked);
    let bytes = repeated(alloc, digits)?;
    match inflate(alloc, &bytes, number(limit)? as usize) {
        Ok(read) => told(alloc, &read),
        Err(error) => format!(in alloc; "{error:?}").ok(),
    }
}

/// The same of a zlib stream.
pub fn seen_of_zlib(alloc: Global, asked: &str) -> Option<String> {
    let (limit, digits) = word(asked);
    let bytes = repeated(alloc, digits)?;
    match decompress(alloc, &bytes, number(limit)? as usize) {
        Ok(read) => told(alloc, &read),
        Err(error) => format!(in alloc; "{error:?}").ok(),
    }
}

/// Draws a number below 2^31: the upper bits of the next state of a linear congruential generator.
fn draw(state: &mut u64) -> u32 {
    *state = state
        .wrapping_mul(6364136223846793005)
        .wrapping_add(1442695040888963407);
    (*state / 8589934592) as u32
}

/// The byte at this distance before the end of a text; 0 before its start.
fn byte_before(text: &[u8], distance: usize) -> u32 {
    let place = text.len().checked_sub(distance);
    match place.and_then(|place| text.get(place)) {
        Some(byte) => u32::from(*byte),
        None => 0,
    }
}

/// Draws a byte of a shape, after these.
fn byte_of(shape: &str, text: &[u8], state: &mut u64) -> Option<u8> {
    let drawn = draw(state);
    let byte = match shape {
        "same" => 7,
        "two" => drawn % 2,
        "flat" => drawn % 256,
        "steep" => drawn.leading_zeros(),
        "period" => byte_before(text, 3).wrapping_add(drawn % 64 / 63),
        "row" => byte_before(text, 32).wrapping_add(drawn % 4 / 3),
        _ => return None,
    };
    Some((byte % 256) as u8)
}

/// Draws a text.
fn text_of(alloc: Global, shape: &str, seed: u32, count: u32) -> Option<Vec<u8>> {
    let mut state = u64::from(seed);
    let mut text = Vec::new(alloc);
    for _ in 0..count {
        let byte = byte_of(shape, &text, &mut state)?;
        text.push(byte).ok()?;
    }
    Some(text)
}

/// The efforts.
const EFFORTS: [Effort; 3] = [Effort::Fast, Effort::Usual, Effort::Best];

/// Whether this text is read from what is written of it, in a deflate stream and in a zlib stream, and each stream ends
/// where its bytes do.
fn is_read_again(alloc: Global, text: &[u8], effort: Effort) -> Option<bool> {
    let plain = deflate(alloc, text, effort).ok()?;
    let framed = compress(alloc, text, effort).ok()?;
    let first = inflate(alloc, &plain, text.len()).ok()?;
    let second = decompress(alloc, &framed, text.len()).ok()?;
    let are_whole = first.end == plain.len() && second.end == framed.len();
    Some(are_whole && first.text.as_slice() == text && second.text.as_slice() == text)
}

/// A row asks with a shape, a seed and a number of bytes. A text is drawn, written by each effort and read again. It
/// gives the checksum of the text and its number of bytes, or `differs`.
pub fn seen_of_written(alloc: Global, asked: &str) -> Option<String> {
    let (shape, rest) = word(asked);
    let (seed, count) = rest.split_once(' ')?;
    let text = text_of(alloc, shape, number(seed)?, number(count)?)?;
    for effort in EFFORTS {
        if !is_read_again(alloc, &text, effort)? {
            return format!(in alloc; "differs").ok();
        }
    }
    format!(in alloc; "{} {}", adler32(&text), text.len()).ok()
}
