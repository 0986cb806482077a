//! Words of a header, with white space and comments between them.

ghost use Rattle.std.specs.Prelude.{◌≡◌, ◌<◌, ◌≤◌, ◌-◌, ◌^◌, false, length, min, IfOk};
ghost use Rattle.std.specs.Option.{option_map};
ghost use Rattle.jxl_netpbm_read.specs.Words.{digits_from, gap as the_gap, is_digit as the_digit, is_line_end as the_line_end, is_space as the_space, number_from, word_from, word_length as the_word_length};

use crate::error::NetpbmError;

/// Where a word is.
#[derive(Clone, Copy)]
pub struct Word {
    pub start: usize,
    /// The first byte after it.
    pub end: usize,
}

/// A number, and the byte after its word.
#[derive(Clone, Copy)]
pub struct Number {
    pub value: u32,
    pub after: usize,
}

fn is_space(byte: u8) -> bool
    ensures { result ≡ the_space byte }
{
    byte == 32 || 9 <= byte && byte <= 13
}

fn is_line_end(byte: u8) -> bool
    ensures { result ≡ the_line_end byte }
{
    byte == 10 || byte == 13
}

/// Whether a byte is a decimal digit.
pub(crate) fn is_digit(byte: u8) -> bool
    ensures { result ≡ the_digit byte }
{
    48 <= byte && byte <= 57
}

/// How many bytes of white space and comments the text begins with.
pub(crate) fn gap(text: &[u8]) -> usize
    ensures value { result ≡ the_gap false text.now }
    ensures inside { result ≤ length text.now }
{
    let mut comment = false;
    for (i, byte) in text.iter().enumerate() {
        if comment {
            comment = !is_line_end(*byte);
        } else if *byte == 35 {
            comment = true;
        } else if !is_space(*byte) {
            return i;
        }
    }
    text.len()
}

/// How many bytes the text has before its first white space.
pub(crate) fn word_length(text: &[u8]) -> usize
    ensures value { result ≡ the_word_length text.now }
    ensures inside { result ≤ length text.now }
{
    for (i, byte) in text.iter().enumerate() {
        if is_space(*byte) {
            return i;
        }
    }
    text.len()
}

/// The next word, from byte `start` on: white space follows it.
///
/// # Errors
///
/// `Truncated` if the file ends before that.
#[tactic(auto, unfolding(crate::specs::Words::word_from))]
pub(crate) fn word_at(bytes: &[u8], start: usize) -> Result<Word, NetpbmError>
    requires { start ≤ length bytes.now }
    ensures value { result ≡ word_from bytes.now start }
    ensures inside { IfOk result (λ w. (w.start ≤ w.end) × (w.end < length bytes.now)) }
{
    let first = start + gap(&bytes[start..]);
    let end = first + word_length(&bytes[first..]);
    if end >= bytes.len() {
        return Err(NetpbmError::Truncated);
    }
    Ok(Word { start: first, end })
}

// The number of these digits, or 2^32 - 1 if it is larger.
fn digits(text: &[u8]) -> Option<u32>
    ensures { result ≡ option_map (λ n. min n (2 ^ 32 - 1)) (digits_from 0 text.now) }
{
    let mut value = 0u32;
    for digit in text {
        if !is_digit(*digit) {
            return None;
        }
        value = value
            .saturating_mul(10)
            .saturating_add(u32::from(*digit - 48));
    }
    Some(value)
}

/// The number that the next word writes in decimal digits, or 2^32 - 1 if it is larger.
///
/// # Errors
///
/// `Truncated` if the file ends before the word does, `InvalidHeader` if it writes no number.
#[tactic(auto, unfolding(crate::specs::Words::number_from))]
pub(crate) fn number_at(bytes: &[u8], start: usize) -> Result<Number, NetpbmError>
    requires { start ≤ length bytes.now }
    ensures value { result ≡ number_from bytes.now start }
    ensures inside { IfOk result (λ n. n.after < length bytes.now) }
{
    let word = word_at(bytes, start)?;
    match digits(&bytes[word.start..word.end]) {
        Some(value) => Ok(Number {
            value,
            after: word.end,
        }),
        None => Err(NetpbmError::InvalidHeader),
    }
}
