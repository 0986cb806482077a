//! Pairs of columns of samples of 16 bits, undone eight at a time.
ghost use Rattle.std.specs.Prelude.{◌≡◌, ◌≤◌, ◌<◌, ◌+◌, ◌-◌, ◌*◌, ◌/◌, ℕ, pos, int_div, FitsSigned, min, length, map, slice_index, ◌-ℤ◌, unsigned_abs, int_le, if◌then◌else◌};
ghost use Rattle.std.specs.Int.{w16};
ghost use Rattle.std.specs.Simd.Lanes.{Each1};
ghost use Rattle.jxlm_lanes.specs.Squeeze.{slope, tendency};
ghost use Rattle.jxlm_lanes.specs.Inner.Lanes.{lane, of_z, to_z};
ghost use Rattle.jxlm_lanes.specs.Pairs.{first_of, second_of, number_at, ArePairs};

use std::simd::prelude::*;

/// The bits of signed numbers.
#[inline(always)]
fn unsigned(a: i16x8) -> u16x8
    requires len { length a ≡ 8 }
    requires fit { Each1 (FitsSigned w16) a }
    ensures { result ≡ map (of_z w16) a }
{
    u16x8::from_le_bytes(a.to_le_bytes())
}

/// The signed numbers of bits.
#[inline(always)]
pub(crate) fn signed(a: u16x8) -> i16x8
    requires { length a ≡ 8 }
    ensures value { result ≡ map (to_z w16) a }
    ensures fit { Each1 (FitsSigned w16) result }
{
    i16x8::from_le_bytes(a.to_le_bytes())
}

/// A third of each number, rounded down.
#[inline(always)]
fn third(n: u16x8) -> u16x8
    requires { length n ≡ 8 }
    ensures value { (j : ℕ) → j < 8 → slice_index result j ≡ slice_index n j / 3 }
    ensures len { length result ≡ 8 }
{
    n / u16x8::splat(3)
}

/// Half of each number, rounded toward zero.
#[inline(always)]
pub(crate) fn half(n: i16x8) -> i16x8
    requires len { length n ≡ 8 }
    requires fit { Each1 (FitsSigned w16) n }
    ensures value { (j : ℕ) → j < 8 → lane result j ≡ int_div (lane n j) (pos 2) }
    ensures len { length result ≡ 8 }
{
    n / i16x8::splat(2)
}

/// The lesser of two numbers.
#[inline(always)]
fn lesser(a: u16x8, b: u16x8) -> u16x8
    requires a_len { length a ≡ 8 }
    requires b_len { length b ≡ 8 }
    ensures value { (j : ℕ) → j < 8 → slice_index result j ≡ min (slice_index a j) (slice_index b j) }
    ensures len { length result ≡ 8 }
{
    a.simd_min(b)
}

/// The sum of two numbers, at most 65535.
#[inline(always)]
pub(crate) fn sum(a: u16x8, b: u16x8) -> u16x8
    requires a_len { length a ≡ 8 }
    requires b_len { length b ≡ 8 }
    ensures value { (j : ℕ) → j < 8 → slice_index result j ≡ min (slice_index a j + slice_index b j) 65535 }
    ensures len { length result ≡ 8 }
{
    a.saturating_add(b)
}

/// Each number less a fourth of it, which is rounded down.
#[inline(always)]
fn less_a_fourth(a: u16x8) -> u16x8
    requires { length a ≡ 8 }
    ensures value { (j : ℕ) → j < 8 → slice_index result j ≡ slice_index a j - slice_index a j / 4 }
    ensures len { length result ≡ 8 }
{
    a - (a >> 2)
}

/// The slopes of falls by `p` and then by `q`: exact where the whole fall fits.
#[inline(always)]
pub(crate) fn slopes(p: u16x8, q: u16x8) -> u16x8
    requires p_len { length p ≡ 8 }
    requires q_len { length q ≡ 8 }
    ensures value { (j : ℕ) → j < 8 → slice_index p j + slice_index q j < 65536 → slice_index result j
        ≡ slope (slice_index p j) (slice_index q j) }
    ensures len { length result ≡ 8 }
{
    let one = u16x8::splat(1);
    let third = third(sum(p, less_a_fourth(sum(q, one))));
    lesser(lesser(third, sum(sum(p, p), one)), sum(q, q))
}

/// How far apart two numbers are.
#[inline(always)]
pub(crate) fn gap(a: i16x8, b: i16x8) -> u16x8
    requires a_len { length a ≡ 8 }
    requires b_len { length b ≡ 8 }
    requires a_fit { Each1 (FitsSigned w16) a }
    requires b_fit { Each1 (FitsSigned w16) b }
    ensures value { (j : ℕ) → j < 8 → slice_index result j ≡ unsigned_abs (lane a j -ℤ lane b j) }
    ensures len { length result ≡ 8 }
{
    unsigned(a.simd_max(b) - a.simd_min(b))
}

/// `kept`, and 0 where `a` is below `b`.
#[inline(always)]
pub(crate) fn none_below(a: i16x8, b: i16x8, kept: i16x8) -> i16x8
    requires a_len { length a ≡ 8 }
    requires b_len { length b ≡ 8 }
    requires kept_len { length kept ≡ 8 }
    requires a_fit { Each1 (FitsSigned w16) a }
    requires b_fit { Each1 (FitsSigned w16) b }
    requires kept_fit { Each1 (FitsSigned w16) kept }
    ensures value { (j : ℕ) → j < 8 → lane result j ≡ (if int_le (lane b j) (lane a j) then lane kept j else pos 0) }
    ensures len { length result ≡ 8 }
    ensures fit { Each1 (FitsSigned w16) result }
{
    a.simd_lt(b).select(i16x8::splat(0), kept)
}

/// The tendency of three samples.
#[inline(always)]
fn tendencies(a: i16x8, b: i16x8, c: i16x8) -> i16x8
    requires a_len { length a ≡ 8 }
    requires b_len { length b ≡ 8 }
    requires c_len { length c ≡ 8 }
    requires a_fit { Each1 (FitsSigned w16) a }
    requires b_fit { Each1 (FitsSigned w16) b }
    requires c_fit { Each1 (FitsSigned w16) c }
    ensures value { (j : ℕ) → j < 8 → lane result j ≡ tendency (lane a j) (lane b j) (lane c j) }
    ensures len { length result ≡ 8 }
    ensures fit { Each1 (FitsSigned w16) result }
{
    let slope = signed(slopes(gap(a, b), gap(b, c)));
    let fall = none_below(a, b, none_below(b, c, slope));
    let rise = none_below(b, a, none_below(c, b, slope));
    fall - rise
}

/// The samples of pairs, from the samples before them, their averages, the next averages and their residuals.
#[inline(always)]
fn pairs(before: i16x8, average: i16x8, next: i16x8, residual: i16x8) -> (i16x8, i16x8)
    requires before_len { length before ≡ 8 }
    requires average_len { length average ≡ 8 }
    requires next_len { length next ≡ 8 }
    requires residual_len { length residual ≡ 8 }
    requires before_fit { Each1 (FitsSigned w16) before }
    requires average_fit { Each1 (FitsSigned w16) average }
    requires next_fit { Each1 (FitsSigned w16) next }
    requires residual_fit { Each1 (FitsSigned w16) residual }
    ensures first { (j : ℕ) → j < 8 → lane result.0 j
        ≡ first_of w16 (lane before j) (lane average j) (lane next j) (lane residual j) }
    ensures second { (j : ℕ) → j < 8 → lane result.1 j
        ≡ second_of w16 (lane before j) (lane average j) (lane next j) (lane residual j) }
    ensures first_len { length result.0 ≡ 8 }
    ensures second_len { length result.1 ≡ 8 }
    ensures first_fits { Each1 (FitsSigned w16) result.0 }
    ensures second_fits { Each1 (FitsSigned w16) result.1 }
{
    let difference = residual + tendencies(before, average, next);
    let first = average + half(difference);
    (first, first - difference)
}

/// Shows that a number is one of its type.
#[inline(always)]
fn number_fits(_number: i16)
    ensures { FitsSigned w16 _number }
{}

/// Shows that the numbers of a line are those of their type. It compiles to nothing.
#[inline(always)]
pub(crate) fn line_fits(line: &[i16])
    ensures { (j : ℕ) → j < length line.now → FitsSigned w16 (lane line.now j) }
{
    for j in 0..line.len() {
        number_fits(line[j]);
    }
}

/// Undoes one pair of rows of several columns, eight at a time: the samples before the pair are in `strip` from `at`
/// on, and its own are written after them. Returns how many columns are undone: all but those that are left over.
#[inline(always)]
pub fn unsqueeze_eights(
    averages: &[i16],
    next: &[i16],
    residuals: &[i16],
    strip: &mut [i16],
    at: usize,
) -> usize
    requires next_len { length next.now ≡ length averages.now }
    requires residuals_len { length residuals.now ≡ length averages.now }
    requires room { at + 3 * length averages.now ≤ length strip.old }
    ensures eights { result ≡ 8 * (length averages.now / 8) }
    ensures len { length strip.new ≡ length strip.old }
    ensures kept { (i : ℕ) → i < at + length averages.now → number_at (λ x. x) strip.new i
        ≡ number_at (λ x. x) strip.old i }
    ensures undone { ArePairs (λ x. x) w16 averages.now next.now residuals.now (length averages.now) at strip.new
        result }
{
    line_fits(averages);
    line_fits(next);
    line_fits(residuals);
    line_fits(strip);
    let columns = averages.len();
    for k in 0..columns / 8 {
        let j = 8 * k;
        let (first, second) = pairs(
            i16x8::from_slice(&strip[at + j..]),
            i16x8::from_slice(&averages[j..]),
            i16x8::from_slice(&next[j..]),
            i16x8::from_slice(&residuals[j..]),
        );
        first.copy_to_slice(&mut strip[at + columns + j..]);
        second.copy_to_slice(&mut strip[at + 2 * columns + j..]);
    }
    columns / 8 * 8
}
