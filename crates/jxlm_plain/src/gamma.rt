//! Gamma tokens: n zeros, a one, and n bits, whose number with 2^n is the token and one more.

ghost use Rattle.std.specs.Prelude.{◌≡◌, ◌+◌, ◌*◌, ◌^◌, ◌<◌, ◌≤◌, IfOk, IfErr, length};
ghost use Rattle.jxlm_bits.specs.Bits.{bytes_of, position_of};
ghost use Rattle.jxlm_bits.specs.Decoding.{Gives};
ghost use Rattle.jxlm_plain.specs.Plain.{zeros_end, low_bits, gamma_at};
ghost use Rattle.jxlm_plain.specs.Inner.GammaReads.{next_at, few_at, many_at};
ghost use Rattle.jxlm_plain.specs.Inner.PlainReads.{IsOfTokens};

use crate::plain::number;
use jxlm_bits::bits::Bitstream;
use jxlm_bits::decoder::DecoderError;

/// The next 32 bits, of which those after the end are 0, where fewer are left.
#[cold]
#[inline(never)]
fn last_bits(bits: &Bitstream<'_>) -> u32
    requires { 8 * length (bytes_of bits.now) < position_of bits.now + 32 }
    ensures { result ≡ next_at (bytes_of bits.now) (position_of bits.now) }
{
    for missing in 1..32 {
        let mut ahead = *bits;
        if let Ok(next) = number(&mut ahead, 32 - missing) {
            return next;
        }
    }
    0
}

/// The next 32 bits, of which those after the end are 0.
#[inline(always)]
fn next_bits(bits: &Bitstream<'_>) -> u32
    ensures { result ≡ next_at (bytes_of bits.now) (position_of bits.now) }
{
    let mut ahead = *bits;
    match number(&mut ahead, 32) {
        Ok(next) => next,
        Err(_) => last_bits(bits),
    }
}

/// Passes 32 zeros, and the one after them.
#[tactic(auto, unfolding(crate::specs::Inner::GammaReads::many_at))]
#[cold]
#[inline(never)]
fn many_zeros(bits: &mut Bitstream<'_>) -> Result<u32, DecoderError>
    ensures gives { Gives (λ v. v) result (position_of bits.new)
        (many_at (bytes_of bits.old) (position_of bits.old)) }
    ensures ok { IfOk result (λ n. n ≤ 32) }
    ensures err { IfErr result IsOfTokens }
    ensures bytes { bytes_of bits.new ≡ bytes_of bits.old }
{
    number(bits, 32)?;
    if number(bits, 1)? == 0 {
        Err(DecoderError::Invalid(7))
    } else {
        Ok(32)
    }
}

/// Passes n zeros, and the one after them.
#[tactic(auto, unfolding(crate::specs::Inner::GammaReads::few_at))]
#[inline(always)]
fn few_zeros(bits: &mut Bitstream<'_>, n: u32) -> Result<u32, DecoderError>
    requires { n < 32 }
    ensures gives { Gives (λ v. v) result (position_of bits.new)
        (few_at (bytes_of bits.old) (position_of bits.old) n) }
    ensures ok { IfOk result (λ n. n ≤ 32) }
    ensures err { IfErr result IsOfTokens }
    ensures bytes { bytes_of bits.new ≡ bytes_of bits.old }
{
    number(bits, n + 1)?;
    Ok(n)
}

/// The zeros of a gamma token, of which one look tells how many there are; the reader is left after the one.
#[inline(always)]
fn zeros(bits: &mut Bitstream<'_>) -> Result<u32, DecoderError>
    ensures gives { Gives (λ v. v) result (position_of bits.new)
        (zeros_end (bytes_of bits.old) (position_of bits.old)) }
    ensures ok { IfOk result (λ n. n ≤ 32) }
    ensures err { IfErr result IsOfTokens }
    ensures bytes { bytes_of bits.new ≡ bytes_of bits.old }
{
    let next = next_bits(bits);
    if next == 0 {
        many_zeros(bits)
    } else {
        few_zeros(bits, next.trailing_zeros())
    }
}

/// The 32 bits after the one of the longest tokens, each of which is 0.
#[cold]
#[inline(never)]
fn no_bits(bits: &mut Bitstream<'_>) -> Result<u32, DecoderError>
    ensures gives { Gives (λ v. v) result (position_of bits.new)
        (low_bits (bytes_of bits.old) (position_of bits.old) 32) }
    ensures ok { IfOk result (λ low. low ≡ 0) }
    ensures err { IfErr result IsOfTokens }
    ensures bytes { bytes_of bits.new ≡ bytes_of bits.old }
{
    if next_bits(bits) != 0 {
        return Err(DecoderError::Invalid(7));
    }
    number(bits, 32)
}

/// The n bits after n zeros and a one, without those of the longest tokens, which have none but zeros.
#[tactic(auto, unfolding(crate::specs::Plain::low_bits))]
#[inline(always)]
fn low(bits: &mut Bitstream<'_>, n: u32) -> Result<u32, DecoderError>
    requires { n ≤ 32 }
    ensures gives { Gives (λ v. v) result (position_of bits.new)
        (low_bits (bytes_of bits.old) (position_of bits.old) n) }
    ensures ok { IfOk result (λ low. (low < 2 ^ n) × (2 ^ n + low ≤ 2 ^ 32)) }
    ensures err { IfErr result IsOfTokens }
    ensures bytes { bytes_of bits.new ≡ bytes_of bits.old }
{
    if n == 32 {
        no_bits(bits)
    } else {
        number(bits, n)
    }
}

/// A gamma token; an error may leave the reader behind.
#[tactic(auto, unfolding(crate::specs::Plain::gamma_at))]
#[inline(always)]
fn gamma_parts(bits: &mut Bitstream<'_>) -> Result<u32, DecoderError>
    ensures gives { Gives (λ v. v) result (position_of bits.new)
        (gamma_at (bytes_of bits.old) (position_of bits.old)) }
    ensures err { IfErr result IsOfTokens }
    ensures bytes { bytes_of bits.new ≡ bytes_of bits.old }
{
    let n = zeros(bits)?;
    let low = low(bits, n)?;
    Ok(((1u64 << n) + u64::from(low) - 1) as u32)
}

/// A gamma token; an error leaves the reader.
#[inline(always)]
pub(crate) fn gamma_token(bits: &mut Bitstream<'_>) -> Result<u32, DecoderError>
    ensures gives { Gives (λ v. v) result (position_of bits.new)
        (gamma_at (bytes_of bits.old) (position_of bits.old)) }
    ensures err { IfErr result (λ e. (IsOfTokens e) × (bits.new ≡ bits.old)) }
    ensures bytes { bytes_of bits.new ≡ bytes_of bits.old }
{
    let mut ahead = *bits;
    let token = gamma_parts(&mut ahead)?;
    *bits = ahead;
    Ok(token)
}
