//! Pairs of columns of samples of 32 bits, undone eight at a time where all of them are near enough to 0.
ghost use Rattle.std.specs.Prelude.{◌≡◌, ◌≤◌, ◌<◌, ◌+◌, ◌*◌, ◌/◌, ℕ, pos, length, slice_index, ◌-ℤ◌, unsigned_abs, int_le, FitsSigned, true, if◌then◌else◌};
ghost use Rattle.std.specs.Int.{w16, w32};
ghost use Rattle.jxlm_lanes.specs.Squeeze.{slope, tendency};
ghost use Rattle.jxlm_lanes.specs.Inner.Lanes.{lane, spread, AreEight, AreWideEight};
ghost use Rattle.jxlm_lanes.specs.Pairs.{first_of, second_of, number_at, ArePairs};

use crate::colour_lanes::{differences, sums};
use crate::lanes::{gap, half, none_below, signed, slopes, sum};
use std::simd::prelude::*;

/// Eight numbers in 16 bits: one that does not fit becomes the least or the greatest that does.
#[inline(always)]
fn narrowed(v: i32x8) -> i16x8
    requires { AreWideEight v }
    ensures same { (j : ℕ) → j < 8 → FitsSigned w16 (lane v j) → lane result j ≡ lane v j }
    ensures inside { (j : ℕ) → j < 8 → unsigned_abs (lane result j) < 32767 → lane v j ≡ lane result j }
    ensures eight { AreEight result }
{
    v.simd_clamp(i32x8::splat(-32768), i32x8::splat(32767))
        .cast::<i16>()
}

/// Eight numbers in 32 bits.
#[inline(always)]
fn widened(v: i16x8) -> i32x8
    requires { AreEight v }
    ensures value { (j : ℕ) → j < 8 → lane result j ≡ lane v j }
    ensures eight { AreWideEight result }
{
    v.cast::<i32>()
}

/// Whether each number is at most 32000.
#[inline(always)]
fn are_near(n: u16x8) -> bool
    requires { length n ≡ 8 }
    ensures { result ≡ true → (j : ℕ) → j < 8 → slice_index n j ≤ 32000 }
{
    !n.simd_gt(u16x8::splat(32000)).any()
}

/// How far from 0 each number is.
#[inline(always)]
fn sizes(v: i16x8) -> u16x8
    requires { AreEight v }
    ensures value { (j : ℕ) → j < 8 → slice_index result j ≡ unsigned_abs (lane v j) }
    ensures len { length result ≡ 8 }
{
    gap(v, i16x8::splat(0))
}

/// The slopes of three numbers that rise or fall, and 0 where they turn. In all they are at most 32000 apart.
#[inline(always)]
fn straight_slopes(a: i16x8, b: i16x8, c: i16x8) -> i16x8
    requires a { AreEight a }
    requires b { AreEight b }
    requires c { AreEight c }
    requires near { (j : ℕ) → j < 8 → unsigned_abs (lane a j -ℤ lane b j) + unsigned_abs (lane b j -ℤ lane c j)
        ≤ 32000 }
    ensures value { (j : ℕ) → j < 8 → lane result j
        ≡ (if int_le (pos (unsigned_abs (lane a j -ℤ lane b j) + unsigned_abs (lane b j -ℤ lane c j)))
        (pos (unsigned_abs (lane a j -ℤ lane c j)))
        then pos (slope (unsigned_abs (lane a j -ℤ lane b j)) (unsigned_abs (lane b j -ℤ lane c j))) else pos 0) }
    ensures eight { AreEight result }
{
    let (p, q) = (gap(a, b), gap(b, c));
    none_below(signed(gap(a, c)), signed(sum(p, q)), signed(slopes(p, q)))
}

/// The tendencies of three numbers, which are at most 32000 apart in all.
#[inline(always)]
fn near_tendencies(a: i16x8, b: i16x8, c: i16x8) -> i16x8
    requires a { AreEight a }
    requires b { AreEight b }
    requires c { AreEight c }
    requires near { (j : ℕ) → j < 8 → unsigned_abs (lane a j -ℤ lane b j) + unsigned_abs (lane b j -ℤ lane c j)
        ≤ 32000 }
    ensures value { (j : ℕ) → j < 8 → lane result j ≡ tendency (lane a j) (lane b j) (lane c j) }
    ensures eight { AreEight result }
{
    let straight = straight_slopes(a, b, c);
    let (whole, zero) = (differences(a, c), i16x8::splat(0));
    differences(
        none_below(whole, zero, straight),
        none_below(zero, whole, straight),
    )
}

/// The samples of pairs, from the samples before them, their averages, the next averages and their residuals: with no
/// sum that wraps.
#[inline(always)]
fn near_pairs(before: i16x8, average: i16x8, next: i16x8, residual: i16x8) -> (i16x8, i16x8)
    requires before { AreEight before }
    requires average { AreEight average }
    requires next { AreEight next }
    requires residual { AreEight residual }
    requires near { (j : ℕ) → j < 8 → spread (lane before j) (lane average j) (lane next j) (lane residual j)
        ≤ 32000 }
    ensures first { (j : ℕ) → j < 8 → lane result.0 j
        ≡ first_of w32 (lane before j) (lane average j) (lane next j) (lane residual j) }
    ensures second { (j : ℕ) → j < 8 → lane result.1 j
        ≡ second_of w32 (lane before j) (lane average j) (lane next j) (lane residual j) }
    ensures first_eight { AreEight result.0 }
    ensures second_eight { AreEight result.1 }
{
    let difference = sums(residual, near_tendencies(before, average, next));
    let first = sums(average, half(difference));
    (first, differences(first, difference))
}

/// The spreads of pairs, at most 65535.
#[inline(always)]
fn spreads(before: i16x8, average: i16x8, next: i16x8, residual: i16x8) -> u16x8
    requires before { AreEight before }
    requires average { AreEight average }
    requires next { AreEight next }
    requires residual { AreEight residual }
    ensures value { (j : ℕ) → j < 8 → slice_index result j ≤ 32000 → spread (lane before j) (lane average j)
        (lane next j) (lane residual j) ≤ 32000 }
    ensures len { length result ≡ 8 }
{
    let apart = sum(gap(before, average), gap(average, next));
    sum(apart, sum(sizes(average), sizes(residual)))
}

/// Whether the spread of each pair is at most 32000.
#[inline(always)]
fn have_small_spreads(before: i32x8, average: i32x8, next: i32x8, residual: i32x8) -> bool
    requires before { AreWideEight before }
    requires average { AreWideEight average }
    requires next { AreWideEight next }
    requires residual { AreWideEight residual }
    ensures { result ≡ true → (j : ℕ) → j < 8 → spread (lane before j) (lane average j) (lane next j)
        (lane residual j) ≤ 32000 }
{
    let (b, m, x) = (narrowed(before), narrowed(average), narrowed(next));
    are_near(spreads(b, m, x, narrowed(residual)))
}

/// The samples of eight pairs, from the samples before them, their averages, the next averages and their residuals.
#[inline(always)]
fn eight_pairs(before: i32x8, average: i32x8, next: i32x8, residual: i32x8) -> (i32x8, i32x8)
    requires before { AreWideEight before }
    requires average { AreWideEight average }
    requires next { AreWideEight next }
    requires residual { AreWideEight residual }
    requires near { (j : ℕ) → j < 8 → spread (lane before j) (lane average j) (lane next j) (lane residual j)
        ≤ 32000 }
    ensures first { (j : ℕ) → j < 8 → lane result.0 j
        ≡ first_of w32 (lane before j) (lane average j) (lane next j) (lane residual j) }
    ensures second { (j : ℕ) → j < 8 → lane result.1 j
        ≡ second_of w32 (lane before j) (lane average j) (lane next j) (lane residual j) }
    ensures first_eight { AreWideEight result.0 }
    ensures second_eight { AreWideEight result.1 }
{
    let (b, m, x) = (narrowed(before), narrowed(average), narrowed(next));
    let (first, second) = near_pairs(b, m, x, narrowed(residual));
    (widened(first), widened(second))
}

/// Shows that a number is one of its type.
#[inline(always)]
fn number_fits(_number: i32)
    ensures { FitsSigned w32 _number }
{}

/// Shows that the numbers of a line are those of their type. It compiles to nothing.
#[inline(always)]
fn line_fits(line: &[i32])
    ensures { (j : ℕ) → j < length line.now → FitsSigned w32 (lane line.now j) }
{
    for j in 0..line.len() {
        number_fits(line[j]);
    }
}

/// Undoes one pair of rows of several columns, eight at a time, as long as their numbers are near enough to 0: the
/// samples before the pair are in `strip` from `at` on, and its own are written after them. Returns how many columns
/// are undone.
#[inline(always)]
pub fn unsqueeze_near(
    averages: &[i32],
    next: &[i32],
    residuals: &[i32],
    strip: &mut [i32],
    at: usize,
) -> usize
    requires next_len { length next.now ≡ length averages.now }
    requires residuals_len { length residuals.now ≡ length averages.now }
    requires room { at + 3 * length averages.now ≤ length strip.old }
    ensures within { result ≤ length averages.now }
    ensures len { length strip.new ≡ length strip.old }
    ensures kept { (i : ℕ) → i < at + length averages.now → number_at (λ x. x) strip.new i
        ≡ number_at (λ x. x) strip.old i }
    ensures undone { ArePairs (λ x. x) w32 averages.now next.now residuals.now (length averages.now) at strip.new
        result }
{
    line_fits(averages);
    line_fits(next);
    line_fits(residuals);
    line_fits(strip);
    let columns = averages.len();
    for k in 0..columns / 8 {
        let j = 8 * k;
        let before = i32x8::from_slice(&strip[at + j..]);
        let average = i32x8::from_slice(&averages[j..]);
        let after = i32x8::from_slice(&next[j..]);
        let residual = i32x8::from_slice(&residuals[j..]);
        if !have_small_spreads(before, average, after, residual) {
            return j;
        }
        let (first, second) = eight_pairs(before, average, after, residual);
        first.copy_to_slice(&mut strip[at + columns + j..]);
        second.copy_to_slice(&mut strip[at + 2 * columns + j..]);
    }
    columns / 8 * 8
}
