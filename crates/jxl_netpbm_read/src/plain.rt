//! The headers of PGM, PPM and PFM files.

ghost use Rattle.std.specs.Prelude.{◌≡◌, ◌==◌, ◌<◌, ◌≤◌, length, count_by, IfOk};
ghost use Rattle.std.specs.List.{list_all, list_any};
ghost use Rattle.jxl_netpbm_read.specs.Words.{is_digit as the_digit};
ghost use Rattle.jxl_netpbm_read.specs.Headers.{are_digits as are_the_digits, float_from, is_decimal as the_decimal, is_digit_or_point as the_digit_or_point, is_sign as the_sign, plain_from, scale_from};
ghost use Rattle.jxl_netpbm_read.specs.Parts.{IsHeader};

use crate::error::NetpbmError;
use crate::header::{Header, Scale, Storage};
use crate::parts::{bits_at, side_at};
use crate::words::{is_digit, word_at};

/// The header of a PGM or PPM file, after its magic: width, height and maximum.
#[tactic(auto, unfolding(crate::specs::Headers::plain_from))]
pub(crate) fn plain_at(bytes: &[u8], grey: bool, start: usize) -> Result<Header, NetpbmError>
    requires { start ≤ length bytes.now }
    ensures value { result ≡ plain_from bytes.now grey start }
    ensures header { IfOk result IsHeader }
    ensures inside { IfOk result (λ h. h.start ≤ length bytes.now) }
{
    let width = side_at(bytes, start)?;
    let height = side_at(bytes, width.after)?;
    let bits = bits_at(bytes, height.after)?;
    Ok(Header {
        width: width.value,
        height: height.value,
        grey,
        alpha: false,
        storage: Storage::Numbers(bits.value),
        start: bits.after + 1,
    })
}

fn is_sign(byte: u8) -> bool
    ensures { result ≡ the_sign byte }
{
    byte == 43 || byte == 45
}

fn is_digit_or_point(byte: u8) -> bool
    ensures { result ≡ the_digit_or_point byte }
{
    is_digit(byte) || byte == 46
}

fn points(text: &[u8]) -> usize
    ensures { result ≡ count_by (λ b. b == 46) text.now }
{
    text.iter().filter(|byte| **byte == 46).count()
}

fn are_digits_or_points(text: &[u8]) -> bool
    ensures { result ≡ list_all the_digit_or_point text.now }
{
    text.iter().all(|byte| is_digit_or_point(*byte))
}

fn has_digit(text: &[u8]) -> bool
    ensures { result ≡ list_any the_digit text.now }
{
    text.iter().any(|byte| is_digit(*byte))
}

// Digits, at least one, with at most one point.
fn are_digits(text: &[u8]) -> bool
    ensures { result ≡ are_the_digits text.now }
{
    are_digits_or_points(text) && has_digit(text) && points(text) <= 1
}

fn is_decimal(text: &[u8]) -> bool
    ensures { result ≡ the_decimal text.now }
{
    if text.is_empty() {
        return false;
    }
    if is_sign(text[0]) {
        are_digits(&text[1..])
    } else {
        are_digits(text)
    }
}

// The order of the bytes of floats, by the next word: a decimal number, whose sign says it.
#[tactic(auto, unfolding(crate::specs::Headers::scale_from))]
fn scale_at(bytes: &[u8], start: usize) -> Result<Scale, NetpbmError>
    requires { start ≤ length bytes.now }
    ensures value { result ≡ scale_from bytes.now start }
    ensures inside { IfOk result (λ s. s.after < length bytes.now) }
{
    let word = word_at(bytes, start)?;
    if !is_decimal(&bytes[word.start..word.end]) {
        return Err(NetpbmError::InvalidHeader);
    }
    Ok(Scale {
        little_endian: bytes[word.start] == 45,
        after: word.end,
    })
}

/// The header of a PFM file, after its magic: width, height and scale.
#[tactic(auto, unfolding(crate::specs::Headers::float_from))]
pub(crate) fn float_at(bytes: &[u8], grey: bool, start: usize) -> Result<Header, NetpbmError>
    requires { start ≤ length bytes.now }
    ensures value { result ≡ float_from bytes.now grey start }
    ensures header { IfOk result IsHeader }
    ensures inside { IfOk result (λ h. h.start ≤ length bytes.now) }
{
    let width = side_at(bytes, start)?;
    let height = side_at(bytes, width.after)?;
    let scale = scale_at(bytes, height.after)?;
    Ok(Header {
        width: width.value,
        height: height.value,
        grey,
        alpha: false,
        storage: Storage::Floats(scale.little_endian),
        start: scale.after + 1,
    })
}
