//! Colour of rows of samples of 16 bits, finished eight cells at a time.
ghost use Rattle.std.specs.Prelude.{◌≡◌, ◌==◌, ◌<◌, ◌*◌, ◌/◌, ◌%◌, ℕ, length, if◌then◌else◌};
ghost use Rattle.std.specs.Int.{w16};
ghost use Rattle.jxlm_lanes.specs.Colour.{triple, plus, minus, floor_half, finished_by, from_luma as the_luma_undone, from_differences as the_differences_undone};
ghost use Rattle.jxlm_lanes.specs.FinishedCells.{FinishesCells};
ghost use Rattle.jxlm_lanes.specs.Inner.Lanes.{lane, AreEight};

use crate::lanes::line_fits;
use std::simd::prelude::*;

/// The sums, reduced to 16 bits.
#[inline(always)]
pub(crate) fn sums(a: i16x8, b: i16x8) -> i16x8
    requires a { AreEight a }
    requires b { AreEight b }
    ensures value { (j : ℕ) → j < 8 → lane result j ≡ plus w16 (lane a j) (lane b j) }
    ensures eight { AreEight result }
{
    a + b
}

/// The differences, reduced to 16 bits.
#[inline(always)]
pub(crate) fn differences(a: i16x8, b: i16x8) -> i16x8
    requires a { AreEight a }
    requires b { AreEight b }
    ensures value { (j : ℕ) → j < 8 → lane result j ≡ minus w16 (lane a j) (lane b j) }
    ensures eight { AreEight result }
{
    a - b
}

/// Half of each number, rounded down.
#[inline(always)]
fn halves(a: i16x8) -> i16x8
    requires { AreEight a }
    ensures value { (j : ℕ) → j < 8 → lane result j ≡ floor_half (lane a j) }
    ensures eight { AreEight result }
{
    a >> 1
}

/// The finished samples of luma and two differences.
#[inline(always)]
fn from_luma(a: i16x8, b: i16x8, c: i16x8) -> (i16x8, i16x8, i16x8)
    requires a { AreEight a }
    requires b { AreEight b }
    requires c { AreEight c }
    ensures value { (j : ℕ) → j < 8 → triple (lane result.0 j) (lane result.1 j) (lane result.2 j)
        ≡ the_luma_undone w16 (triple (lane a j) (lane b j) (lane c j)) }
    ensures first { AreEight result.0 }
    ensures second { AreEight result.1 }
    ensures third { AreEight result.2 }
{
    let middle = differences(a, halves(c));
    let e = sums(c, middle);
    let f = differences(middle, halves(b));
    (sums(f, b), e, f)
}

/// The third samples, from what they lost of the first.
#[inline(always)]
fn third_samples(ty: u32, a: i16x8, c: i16x8) -> i16x8
    requires a { AreEight a }
    requires c { AreEight c }
    ensures value { (j : ℕ) → j < 8 → lane result j
        ≡ (if ty % 2 == 1 then plus w16 (lane c j) (lane a j) else lane c j) }
    ensures eight { AreEight result }
{
    if ty % 2 == 1 { sums(c, a) } else { c }
}

/// The second samples, from what they lost of the first, or of the mean of the first and the third, `f`.
#[inline(always)]
fn second_samples(ty: u32, a: i16x8, b: i16x8, f: i16x8) -> i16x8
    requires a { AreEight a }
    requires b { AreEight b }
    requires f { AreEight f }
    ensures value { (j : ℕ) → j < 8 → lane result j ≡ (if ty / 2 == 1 then plus w16 (lane b j) (lane a j)
        else if ty / 2 == 2 then plus w16 (lane b j) (floor_half (plus w16 (lane a j) (lane f j))) else lane b j) }
    ensures eight { AreEight result }
{
    let kind = ty / 2;
    if kind == 1 {
        sums(b, a)
    } else if kind == 2 {
        sums(b, halves(sums(a, f)))
    } else {
        b
    }
}

/// The finished samples of eight cells' coded ones, in the order of those.
#[inline(always)]
fn finished(ty: u32, a: i16x8, b: i16x8, c: i16x8) -> (i16x8, i16x8, i16x8)
    requires a { AreEight a }
    requires b { AreEight b }
    requires c { AreEight c }
    ensures value { (j : ℕ) → j < 8 → triple (lane result.0 j) (lane result.1 j) (lane result.2 j)
        ≡ finished_by w16 ty (triple (lane a j) (lane b j) (lane c j)) }
    ensures first { AreEight result.0 }
    ensures second { AreEight result.1 }
    ensures third { AreEight result.2 }
{
    if ty == 6 {
        return from_luma(a, b, c);
    }
    let f = third_samples(ty, a, c);
    (a, second_samples(ty, a, b, f), f)
}

/// Finishes three rows of one length, eight cells at a time. Returns how many cells are finished: all but those that
/// are left over.
#[inline(always)]
pub fn finish_eights(ty: u32, a: &mut [i16], b: &mut [i16], c: &mut [i16]) -> usize
    requires second { length b.old ≡ length a.old }
    requires third { length c.old ≡ length a.old }
    ensures eights { result ≡ 8 * (length a.old / 8) }
    ensures finished { FinishesCells w16 ty 0 result a.old b.old c.old a.new b.new c.new }
{
    line_fits(a);
    line_fits(b);
    line_fits(c);
    for k in 0..a.len() / 8 {
        let i = 8 * k;
        let (d, e, f) = finished(
            ty,
            i16x8::from_slice(&a[i..]),
            i16x8::from_slice(&b[i..]),
            i16x8::from_slice(&c[i..]),
        );
        d.copy_to_slice(&mut a[i..]);
        e.copy_to_slice(&mut b[i..]);
        f.copy_to_slice(&mut c[i..]);
    }
    a.len() / 8 * 8
}
