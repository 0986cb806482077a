//! Words of the text of an image.
ghost use Rattle.std.specs.Prelude.{◌≡◌, ◌≤◌, ◌^◌, ℕ, ◌≢◌, ◌++◌, ◌∷◌, codes, MatchOption};
ghost use Rattle.std.specs.Int.{w32};
ghost use Rattle.std.specs.Fmt.{decimal};
ghost use Rattle.jxl_text.specs.Inner.Words.{IsNoSize, IsOfNoChannel, IsSize, Names, NamesNone, WritesNoNumber, WritesNoSample, WritesSample};

use crate::cut::cut;
use jxlm_base::sample::Sample;

/// The number that the digits write: no sign and no leading zeros, below 2^32.
fn natural(word: &[u8]) -> Option<u32>
    ensures { MatchOption result (WritesNoNumber word.now) (λ n. word.now ≡ decimal n) }
{
    if word.is_empty() || word.len() > 10 {
        return None;
    }
    if word[0] == b'0' {
        return if word.len() == 1 { Some(0) } else { None };
    }
    let mut value = 0u64;
    for digit in word {
        if !digit.is_ascii_digit() {
            return None;
        }
        value = value * 10 + u64::from(*digit - b'0');
    }
    u32::try_from(value).ok()
}

/// The number that the word writes: no leading zeros, and a minus before negative numbers alone.
fn signed(word: &[u8]) -> Option<i32>
    ensures { MatchOption result (WritesNoSample w32 word.now) (λ z. WritesSample w32 word.now z) }
{
    if word.is_empty() || word[0] != b'-' {
        return i32::try_from(natural(word)?).ok();
    }
    let number = natural(&word[1..])?;
    if number == 0 {
        return None;
    }
    i32::try_from(-i64::from(number)).ok()
}

/// The sample that the word writes.
pub(crate) fn sample<S: Sample>(word: &[u8]) -> Option<S>
    ensures { MatchOption result (WritesNoSample S.width word.now)
        (λ s. WritesSample S.width word.now (S.to_int s)) }
{
    let number = signed(word)?;
    let sample = S::from_i32(number);
    if sample.to_i32() == number {
        Some(sample)
    } else {
        None
    }
}

/// The side of a channel: a number of at most 2^30.
fn side(word: &[u8]) -> Option<usize>
    ensures { MatchOption result ((n : ℕ) → n ≤ 2 ^ 30 → word.now ≢ decimal n)
        (λ n. (word.now ≡ decimal n) × (n ≤ 2 ^ 30)) }
{
    let side = natural(word)?;
    if side > 1 << 30 {
        return None;
    }
    Some(side as usize)
}

/// The width and the height that the text gives.
fn size(text: &[u8]) -> Option<(usize, usize)>
    ensures { MatchOption result (IsNoSize text.now) (λ p. IsSize text.now p.0 p.1) }
{
    let (width, height) = cut(text, b'x')?;
    Some((side(width)?, side(height)?))
}

/// What comes after the word `channel` and a space.
fn after_channel(line: &[u8]) -> Option<&[u8]>
    ensures { MatchOption result (IsOfNoChannel line.now) (λ rest. line.now ≡ codes "channel" ++ 32 ∷ rest.now) }
{
    let (word, rest) = cut(line, b' ')?;
    if word != b"channel".as_slice() {
        return None;
    }
    Some(rest)
}

/// The width and the height of the channel of this number, which the line names.
pub(crate) fn sides(line: &[u8], number: usize) -> Option<(usize, usize)>
    ensures { MatchOption result (NamesNone number line.now) (λ p. Names number line.now p.0 p.1) }
{
    let rest = after_channel(line)?;
    let (index, text) = cut(rest, b' ')?;
    let index = natural(index)?;
    if number >= 1 << 20 || index as usize != number {
        return None;
    }
    size(text)
}
