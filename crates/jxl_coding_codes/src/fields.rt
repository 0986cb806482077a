//! Fields of the input, with a decoder's errors.

ghost use Rattle.std.specs.Prelude.{◌≡◌, ◌<◌, ◌≤◌, ◌+◌, ◌^◌, IfOk, IfErr};
ghost use Rattle.jxlm_bits.specs.Bits.{bytes_of, position_of};
ghost use Rattle.jxlm_bits.specs.declared.decoder.DecoderError.{DecoderError};
ghost use Rattle.jxlm_bits.specs.Decoding.{Gives};
ghost use Rattle.jxl_coding_codes.specs.Fields.{number_at, var_len_at, width_at, bit_width_of, width_from, width_of};

use jxlm_bits::bits::Bitstream;
use jxlm_bits::decoder::DecoderError;

/// The next number of `n` bits.
#[tactic(auto, unfolding(crate::specs::Fields::number_at))]
#[inline(always)]
pub fn number(bits: &mut Bitstream<'_>, n: u32) -> Result<u32, DecoderError>
    requires { n ≤ 32 }
    ensures gives { Gives (λ v. v) result (position_of bits.new)
        (number_at (bytes_of bits.old) (position_of bits.old) n) }
    ensures below { IfOk result (λ v. v < 2 ^ n) }
    ensures err { IfErr result (λ e. (e ≡ DecoderError.UnexpectedEof) × (bits.new ≡ bits.old)) }
    ensures bytes { bytes_of bits.new ≡ bytes_of bits.old }
{
    match bits.read_bits(n) {
        Ok(value) => Ok(value),
        Err(_) => Err(DecoderError::UnexpectedEof),
    }
}

/// The width of a number, in four bits or three.
fn var_len_width(bits: &mut Bitstream<'_>, wide: bool) -> Result<u32, DecoderError>
    ensures gives { Gives (λ v. v) result (position_of bits.new)
        (width_at (bytes_of bits.old) (position_of bits.old) wide) }
    ensures below { IfOk result (λ v. v ≤ 15) }
    ensures bytes { bytes_of bits.new ≡ bytes_of bits.old }
{
    if wide {
        number(bits, 4)
    } else {
        number(bits, 3)
    }
}

/// A number whose width is read first, in four bits or three: 0, or 2 to the width and more.
#[tactic(auto, unfolding(crate::specs::Fields::var_len_at))]
pub fn var_len(bits: &mut Bitstream<'_>, wide: bool) -> Result<u32, DecoderError>
    ensures gives { Gives (λ v. v) result (position_of bits.new)
        (var_len_at (bytes_of bits.old) (position_of bits.old) wide) }
    ensures below { IfOk result (λ v. v < 2 ^ 16) }
    ensures bytes { bytes_of bits.new ≡ bytes_of bits.old }
{
    if number(bits, 1)? == 0 {
        return Ok(0);
    }
    let width = var_len_width(bits, wide)?;
    let rest = number(bits, width)?;
    Ok(power(width) + rest)
}

/// How many bits a number below 16 takes: 0 for 0.
pub fn bit_width(value: u32) -> u32
    requires { value ≤ 15 }
    ensures length { result ≡ bit_width_of value }
    ensures most { result ≤ 4 }
{
    if value == 0 {
        0
    } else if value < 2 {
        1
    } else if value < 4 {
        2
    } else if value < 8 {
        3
    } else {
        4
    }
}

/// How many bits a number below 2 to the 15 takes.
pub fn width(value: u32) -> u32
    ensures width { result ≡ width_of value }
    ensures most { result ≤ 15 }
{
    least_width(15, 0, value)
}

/// The least width from one on, at most `n` more, that a number fits.
fn least_width(n: u32, from: u32, value: u32) -> u32
    requires { n + from ≤ 15 }
    ensures width { result ≡ width_from n from value }
    ensures most { result ≤ 15 }
{
    if n == 0 || value < power(from) {
        from
    } else {
        least_width(n - 1, from + 1, value)
    }
}

/// 2 to the power of a number below 32.
#[tactic(auto, using(std::proofs::lemmas::Nat::one_shl))]
#[inline(always)]
pub fn power(n: u32) -> u32
    requires { n ≤ 31 }
    ensures { result ≡ 2 ^ n }
{
    1 << n
}
