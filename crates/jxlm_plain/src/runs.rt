//! Tokens of one width under runs, many at a time.

ghost use Rattle.std.specs.Prelude.{◌≡◌, ◌+◌, ◌*◌, ◌/◌, ◌^◌, ◌<◌, ◌≤◌, ◌⊎◌, ℕ, true, length, slice_index, Ok};
ghost use Rattle.jxlm_bits.specs.Bits.{bytes_of, position_of};
ghost use Rattle.jxlm_plain.specs.Plain.{is_runs, token_at};
ghost use Rattle.jxlm_plain.specs.Inner.PlainReads.{ReadsTokens};
ghost use Rattle.jxlm_plain.specs.declared.plain.Code.TheVariants.{Fixed};
ghost use Rattle.jxlm_plain.specs.declared.plain.Mode.TheVariants.{Runs};

use crate::plain::{Code, Mode, each_token};
use jxlm_bits::bits::Bitstream;
use jxlm_bits::decoder::TokensError;
use std::hint::select_unpredictable;

/// A place between two tokens: the token before, how often it is still owed, and how many bits after the reader's position
/// it lies.
#[derive(Clone, Copy)]
struct Ahead {
    last: u32,
    left: u32,
    at: u64,
}

/// The next token, or the first of a run, which is then the last one; none is owed before it.
#[inline(always)]
fn token_ahead(bits: &Bitstream<'_>, width: u32, before: Ahead) -> Ahead
    requires narrow { width ≤ 32 }
    requires none { before.left ≡ 0 }
    requires few { before.at < 2 ^ 62 }
    requires room { (position_of bits.now + before.at) / 8 + 8 ≤ length (bytes_of bits.now) }
    ensures gives { token_at (Runs before.last before.left) (Fixed width) (bytes_of bits.now)
        (position_of bits.now + before.at)
        ≡ Ok (record {
          value = result.last;
          state = Runs result.last result.left;
          position = position_of bits.now + result.at;
        }) }
    ensures near { result.at ≤ before.at + 33 }
    ensures few { result.left < 256 }
{
    let word = bits.ahead(before.at);
    let is_run = word % 2 == 1;
    let number = (word / 2 % (1 << width)) as u32;
    let again = (word / 2 % 256) as u32;
    Ahead {
        last: select_unpredictable(is_run, before.last, number),
        left: select_unpredictable(is_run, again, 0),
        at: before.at + u64::from(select_unpredictable(is_run, 9, 1 + width)),
    }
}

/// Writes a token into `count` places, from place `from` on.
#[inline(always)]
fn fill_from(tokens: &mut [u32], from: usize, count: usize, token: u32)
    requires inside { from + count ≤ length tokens.old }
    ensures many { length tokens.new ≡ length tokens.old }
    ensures filled { (j : ℕ) → from ≤ j → j < from + count → slice_index tokens.new j ≡ token }
    ensures kept { (j : ℕ) → j < from → slice_index tokens.new j ≡ slice_index tokens.old j }
{
    for k in from..from + count {
        tokens[k] = token;
    }
}

/// Writes the last token as often as it comes, once more than it is owed, but not past the end; returns how often.
#[inline(always)]
fn repeat_last(tokens: &mut [u32], from: usize, now: Ahead) -> usize
    requires inside { from < length tokens.old }
    requires few { now.left < 256 }
    ensures least { 0 < result }
    ensures most { result ≤ now.left + 1 }
    ensures inside { from + result ≤ length tokens.old }
    ensures whole { (result ≡ now.left + 1) ⊎ (from + result ≡ length tokens.old) }
    ensures many { length tokens.new ≡ length tokens.old }
    ensures filled { (j : ℕ) → from ≤ j → j < from + result → slice_index tokens.new j ≡ now.last }
    ensures kept { (j : ℕ) → j < from → slice_index tokens.new j ≡ slice_index tokens.old j }
{
    let times = now.left as usize + 1;
    if times <= 8 && from + 8 <= tokens.len() {
        // always eight, of which those after the run are written again
        fill_from(tokens, from, 8, now.last);
        return times;
    }
    let count = times.min(tokens.len() - from);
    fill_from(tokens, from, count, now.last);
    count
}

/// Tokens that are all there, and eight bytes after them, from the reader's position on.
#[inline(always)]
fn tokens_ahead(bits: &Bitstream<'_>, width: u32, before: Ahead, tokens: &mut [u32]) -> Ahead
    requires narrow { width ≤ 32 }
    requires here { before.at ≡ 0 }
    requires few { length tokens.old < 2 ^ 32 }
    requires room { (position_of bits.now + 33 * length tokens.old) / 8 + 8 ≤ length (bytes_of bits.now) }
    ensures gives { ReadsTokens (Ok tt) tokens.old tokens.new (Runs before.last before.left)
        (Runs result.last result.left) (Fixed width) (bytes_of bits.now) (position_of bits.now)
        (position_of bits.now + result.at) }
    ensures near { result.at ≤ 33 * length tokens.old }
{
    let mut k = (before.left as usize).min(tokens.len());
    fill_from(tokens, 0, k, before.last);
    let mut now = Ahead {
        last: before.last,
        left: before.left - k as u32,
        at: 0,
    };
    while k < tokens.len() {
        now = token_ahead(bits, width, now);
        let count = repeat_last(tokens, k, now);
        now.left = now.left + 1 - count as u32;
        k += count;
    }
    now
}

/// The same, by a loop of its own for tokens that are as wide as a run's length.
#[inline(always)]
fn tokens_by_width(bits: &Bitstream<'_>, width: u32, before: Ahead, tokens: &mut [u32]) -> Ahead
    requires narrow { width ≤ 32 }
    requires here { before.at ≡ 0 }
    requires few { length tokens.old < 2 ^ 32 }
    requires room { (position_of bits.now + 33 * length tokens.old) / 8 + 8 ≤ length (bytes_of bits.now) }
    ensures gives { ReadsTokens (Ok tt) tokens.old tokens.new (Runs before.last before.left)
        (Runs result.last result.left) (Fixed width) (bytes_of bits.now) (position_of bits.now)
        (position_of bits.now + result.at) }
    ensures near { result.at ≤ 33 * length tokens.old }
{
    if width == 8 {
        tokens_ahead(bits, 8, before, tokens)
    } else {
        tokens_ahead(bits, width, before, tokens)
    }
}

/// Tokens of a fixed width under runs.
#[inline(never)]
pub(crate) fn numbers_in_runs(
    mode: &mut Mode,
    bits: &mut Bitstream<'_>,
    width: u32,
    tokens: &mut [u32],
) -> Result<(), TokensError>
    requires narrow { width ≤ 32 }
    requires runs { is_runs mode.old ≡ true }
    ensures gives { ReadsTokens result tokens.old tokens.new mode.old mode.new (Fixed width) (bytes_of bits.old)
        (position_of bits.old) (position_of bits.new) }
    ensures bytes { bytes_of bits.new ≡ bytes_of bits.old }
{
    let Mode::Runs { last, left } = *mode else {
        unreachable!()
    };
    let few = tokens.len() <= u32::MAX as usize;
    if few && bits.has_ahead(33 * tokens.len() as u64) {
        // a copy, so that it may stay in registers
        let reader = *bits;
        let end = tokens_by_width(&reader, width, Ahead { last, left, at: 0 }, tokens);
        bits.skip(end.at);
        *mode = Mode::Runs {
            last: end.last,
            left: end.left,
        };
        return Ok(());
    }
    each_token(mode, bits, Code::Fixed(width), tokens)
}
