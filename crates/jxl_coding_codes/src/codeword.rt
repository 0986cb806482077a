//! Codewords of prefix codes.

ghost use Rattle.std.specs.Prelude.{◌≡◌, ◌<◌, ◌≤◌, ◌+◌, ◌*◌, ◌/◌, ◌%◌, ◌^◌, length, slice_index_or};
ghost use Rattle.jxlm_bits.specs.Bits.{bytes_of, position_of};
ghost use Rattle.jxl_coding_codes.specs.PrefixCodes.{codeword_at};
ghost use Rattle.jxl_coding_codes.specs.Reading.{Exactly};

use crate::fields::number;
use crate::refusal::Refusal;
use jxlm_bits::bits::Bitstream;
use jxlm_bits::decoder::DecoderError;

/// The symbol of the codeword at the reader's position, where this number of codewords have the lengths from 1 on, and
/// their symbols begin at `start`.
pub fn codeword(
    bits: &mut Bitstream<'_>,
    counts: &[u32],
    symbols: &[u32],
    start: u32,
) -> Result<u32, DecoderError>
    ensures gives { Exactly result (position_of bits.new)
        (codeword_at counts.now symbols.now 0 start (bytes_of bits.old) (position_of bits.old)) }
    ensures bytes { bytes_of bits.new ≡ bytes_of bits.old }
{
    if counts.len() <= 57 && bits.has_ahead(0) {
        return codeword_ahead(bits, counts, symbols, start);
    }
    codeword_from(bits, counts, symbols, 0, start)
}

/// The number of bits less that of the first codeword that is longer, after one bit more.
#[inline(always)]
fn with_bit(code: u32, bit: u32) -> u32
    ensures { result ≡ (2 * code + bit) % 2 ^ 32 }
{
    code.wrapping_mul(2).wrapping_add(bit)
}

/// Bit `i` of a number, the first the least significant.
#[inline(always)]
fn bit_of(word: u64, i: usize) -> u32
    requires { i < 64 }
    ensures { result ≡ word / 2 ^ i % 2 ^ 1 }
{
    ((word >> i) % 2) as u32
}

/// The symbol of a codeword, where the symbols of its length begin at `place` and `code` are before it.
#[inline(always)]
fn symbol_after(symbols: &[u32], place: u32, code: u32) -> u32
    ensures { result ≡ slice_index_or symbols.now ((place + code) % 2 ^ 32) 0 }
{
    match symbols.get(place.wrapping_add(code) as usize) {
        Some(symbol) => *symbol,
        None => 0,
    }
}

/// `codeword` where 57 bits are left, and no codeword has more.
fn codeword_ahead(
    bits: &mut Bitstream<'_>,
    counts: &[u32],
    symbols: &[u32],
    start: u32,
) -> Result<u32, DecoderError>
    requires few { length counts.now ≤ 57 }
    requires room { position_of bits.old / 8 + 8 ≤ length (bytes_of bits.old) }
    ensures gives { Exactly result (position_of bits.new)
        (codeword_at counts.now symbols.now 0 start (bytes_of bits.old) (position_of bits.old)) }
    ensures bytes { bytes_of bits.new ≡ bytes_of bits.old }
{
    let word = bits.ahead(0);
    let mut code = 0;
    let mut place = start;
    for (shorter, count) in counts.iter().enumerate() {
        let bit = bit_of(word, shorter);
        let next = with_bit(code, bit);
        if next < *count {
            bits.skip(shorter as u64 + 1);
            return Ok(symbol_after(symbols, place, next));
        }
        code = next - *count;
        place = place.wrapping_add(*count);
    }
    Err(DecoderError::from(Refusal::NoCodeword))
}

/// The same, where bits were read that are no codeword: `code` is their number less that of the first codeword that is
/// longer, and the symbols of those begin at `place`.
#[tactic(auto, unfolding(crate::specs::PrefixCodes::codeword_at))]
fn codeword_from(
    bits: &mut Bitstream<'_>,
    counts: &[u32],
    symbols: &[u32],
    code: u32,
    place: u32,
) -> Result<u32, DecoderError>
    ensures gives { Exactly result (position_of bits.new)
        (codeword_at counts.now symbols.now code place (bytes_of bits.old) (position_of bits.old)) }
    ensures bytes { bytes_of bits.new ≡ bytes_of bits.old }
{
    let Some((count, longer)) = counts.split_first() else {
        return Err(DecoderError::from(Refusal::NoCodeword));
    };
    let code = with_bit(code, number(bits, 1)?);
    if code < *count {
        return Ok(symbol_after(symbols, place, code));
    }
    codeword_from(
        bits,
        longer,
        symbols,
        code - *count,
        place.wrapping_add(*count),
    )
}
