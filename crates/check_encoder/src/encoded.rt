//! Netpbm files, read, encoded, decoded and written again.
//!
//! `encoded EFFORT BYTES -> BYTES` is of the bytes of a file; `encoded_drawn EFFORT DRAWN -> LENGTH #SUM` of a file that
//! is drawn, with the length and the checksum of the bytes: each, times a power of 31, the last times 1, added up modulo
//! 2^32.

use crate::drawn::draw;
use check_rows::{bytes, word};
use jxl_encode::codable::is_codable;
use jxl_encode::effort::Effort;
use jxl_encode::file::encode_lossless;
use jxl_lossless::{Limits, Steps, decode_lossless};
use jxl_netpbm::format::Format;
use jxl_netpbm_read::picture::read_netpbm;
use std::alloc::Global;

/// The effort of this name.
fn effort(name: &str) -> Option<Effort> {
    match name {
        "fast" => Some(Effort::Fast),
        "usual" => Some(Effort::Usual),
        "best" => Some(Effort::Best),
        _ => None,
    }
}

/// The file of the picture that a netpbm file holds.
fn encoded(alloc: Global, effort: Effort, netpbm: &[u8]) -> Option<Vec<u8>> {
    let picture = read_netpbm(alloc, netpbm).ok()?;
    if !picture.is_whole() || !is_codable(&picture) {
        return None;
    }
    encode_lossless(alloc, &picture, effort).ok()
}

/// The netpbm file of the picture that a file holds, in its usual format.
fn decoded(alloc: Global, file: &[u8]) -> Option<Vec<u8>> {
    let picture = decode_lossless(alloc, file, &Limits::usual(), &mut Steps::new()).ok()?;
    let format = Format::usual(&picture.header)?;
    if !picture.is_whole() || !format.suits(&picture.header) {
        return None;
    }
    let mut netpbm = Vec::new(alloc);
    format.write(alloc, &picture, &mut netpbm).ok()?;
    Some(netpbm)
}

/// The netpbm file that comes of the one that a row asks for.
pub fn seen(alloc: Global, asked: &str) -> Option<String> {
    let (name, digits) = word(asked);
    let file = encoded(alloc, effort(name)?, &bytes(alloc, digits)?)?;
    let mut text = String::new(alloc);
    for byte in &decoded(alloc, &file)? {
        write!(text, "{byte:02x}").ok()?;
    }
    Some(text)
}

/// The checksum of bytes.
fn sum(bytes: &[u8]) -> u32 {
    let mut sum = 0u32;
    for byte in bytes {
        sum = sum.wrapping_mul(31).wrapping_add(u32::from(*byte));
    }
    sum
}

/// The length and the checksum of the netpbm file that comes of a drawn one.
pub fn seen_of_drawn(alloc: Global, asked: &str) -> Option<String> {
    let (name, drawn) = word(asked);
    let file = encoded(alloc, effort(name)?, &draw(alloc, drawn)?)?;
    let netpbm = decoded(alloc, &file)?;
    format!(in alloc; "{} #{}", netpbm.len(), sum(&netpbm)).ok()
}
