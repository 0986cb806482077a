//! Entropy decoders whose bytes are cut or changed.

use crate::answers::Question;
use check_rows::{bytes, text_sum};
use std::alloc::Global;

/// A row asks as one of kind `entropy` does. It gives, for each of the beginnings of the bytes, from none on, how many
/// letters are answered before the error, and its name where that is not `Eof`.
pub fn seen_of_cuts(alloc: Global, asked: &str) -> Option<String> {
    let question = Question::parse(asked)?;
    let bytes = bytes(alloc, question.digits)?;
    let mut text = String::new(alloc);
    for n in 0..bytes.len() {
        let told = question.answers(alloc, &bytes[..n])?.told(alloc)?;
        match told.as_str().strip_suffix("Eof") {
            Some(before) => write!(text, "{} ", before.len()).ok()?,
            None => write!(text, "{told} ").ok()?,
        }
    }
    Some(text)
}

/// What a byte is changed by: one bit of it, or all.
const CHANGES: [u8; 9] = [1, 2, 4, 8, 16, 32, 64, 128, 255];

/// The checksum after what the bytes answer where one of them is changed, for each change.
fn sum_at(
    alloc: Global,
    question: &Question<'_>,
    bytes: &mut [u8],
    place: usize,
    sum: u32,
) -> Option<u32> {
    let mut sum = sum;
    for change in CHANGES {
        if place < bytes.len() {
            bytes[place] ^= change;
            let told = question.answers(alloc, bytes)?.told(alloc)?;
            bytes[place] ^= change;
            sum = text_sum(sum, told.as_str());
        }
    }
    Some(sum)
}

/// A row asks as one of kind `entropy` does. It gives the checksum of what is answered where each of the bytes is
/// changed in turn.
pub fn sum_of_damaged(alloc: Global, asked: &str) -> Option<String> {
    let question = Question::parse(asked)?;
    let mut bytes = bytes(alloc, question.digits)?;
    let mut sum = 0;
    for place in 0..bytes.len() {
        sum = sum_at(alloc, &question, &mut bytes, place, sum)?;
    }
    format!(in alloc; "#{sum}").ok()
}
