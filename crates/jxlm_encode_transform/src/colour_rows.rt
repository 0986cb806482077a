//! Colours of cells coded (ISO/IEC 18181-1, Modular: reversible colour transforms).

ghost use Rattle.std.specs.Prelude.{◌≡◌, length};
ghost use Rattle.jxlm_lanes.specs.Colour.{triple, plus as the_sum, minus as the_difference, floor_half, coded_triple};
ghost use Rattle.jxlm_lanes.specs.Colour.{to_luma as luma_of, to_differences as differences_of, coded_by as the_code};
ghost use Rattle.jxlm_encode_transform.specs.Inner.ColourRows.{AreCoded, AreSampleRows, HaveOneLength};

use crate::lines::{difference, known};
use jxlm_base::sample::{Sample, Sealed};

/// The sum, reduced to the type's width.
fn plus<S: Sample>(a: S, b: S) -> S
    ensures { S.to_int result ≡ the_sum S.width (S.to_int a) (S.to_int b) }
{
    a.add(b)
}

/// The difference, reduced to the type's width.
fn minus<S: Sample>(a: S, b: S) -> S
    ensures { S.to_int result ≡ the_difference S.width (S.to_int a) (S.to_int b) }
{
    difference(a, b)
}

/// Half of a sample, rounded down.
fn half<S: Sample>(a: S) -> S
    ensures { S.to_int result ≡ floor_half (S.to_int a) }
{
    S::from_i32(a.to_i32() >> 1)
}

/// Luma and two differences, of kind 6.
fn to_luma<S: Sample>(x: S, y: S, z: S) -> (S, S, S)
    ensures { triple (S.to_int result.0) (S.to_int result.1) (S.to_int result.2) ≡ luma_of S.width
        (triple (S.to_int x) (S.to_int y) (S.to_int z)) }
{
    let b = minus(x, z);
    let middle = plus(z, half(b));
    let c = minus(y, middle);
    (plus(middle, half(c)), b, c)
}

/// A sample, and what the others lose of it.
fn to_differences<S: Sample>(kind: u32, x: S, y: S, z: S) -> (S, S, S)
    ensures { triple (S.to_int result.0) (S.to_int result.1) (S.to_int result.2) ≡ differences_of S.width kind
        (triple (S.to_int x) (S.to_int y) (S.to_int z)) }
{
    let second = match kind / 2 {
        1 => minus(y, x),
        2 => minus(y, half(plus(x, z))),
        _ => y,
    };
    let third = if kind % 2 == 1 { minus(z, x) } else { z };
    (x, second, third)
}

/// The coded samples of three finished ones, in their order.
fn coded_by<S: Sample>(kind: u32, x: S, y: S, z: S) -> (S, S, S)
    ensures { triple (S.to_int result.0) (S.to_int result.1) (S.to_int result.2) ≡ the_code S.width kind
        (triple (S.to_int x) (S.to_int y) (S.to_int z)) }
{
    if kind == 6 {
        to_luma(x, y, z)
    } else {
        to_differences(kind, x, y, z)
    }
}

/// Codes three rows of one length, cell by cell, in their order, into three others.
fn code_each<S: Sample>(ty: u32, x: &[S], y: &[S], z: &[S], a: &mut [S], b: &mut [S], c: &mut [S])
    requires lengths { HaveOneLength (length x.now) y.now z.now a.old b.old c.old }
    ensures lengths { HaveOneLength (length x.now) y.now z.now a.new b.new c.new }
    ensures coded { AreCoded S.to_int (the_code S.width ty) x.now y.now z.now a.new b.new c.new (length x.now) }
    ensures samples { AreSampleRows S.to_int S.width x.now y.now z.now (length x.now) }
{
    for i in 0..x.len() {
        let (first, second, third) = coded_by(ty, known(x[i]), known(y[i]), known(z[i]));
        a[i] = first;
        b[i] = second;
        c[i] = third;
    }
}

/// Codes three rows of one length, `x`, `y` and `z`, cell by cell into `a`, `b` and `c`, by a kind of colour: what is
/// left of it by 7 names how they are coded, and its multiple of 7 in which order they come, where 6 and above name the
/// first order again. What was in `a`, `b` and `c` does not count.
pub(crate) fn code_rows<S: Sample>(
    kind: u32,
    x: &[S],
    y: &[S],
    z: &[S],
    a: &mut [S],
    b: &mut [S],
    c: &mut [S],
)
    requires lengths { HaveOneLength (length x.now) y.now z.now a.old b.old c.old }
    ensures lengths { HaveOneLength (length x.now) y.now z.now a.new b.new c.new }
    ensures coded { AreCoded S.to_int (coded_triple S.width kind) x.now y.now z.now a.new b.new c.new
        (length x.now) }
    ensures samples { AreSampleRows S.to_int S.width x.now y.now z.now (length x.now) }
{
    let ty = kind % 7;
    match kind / 7 {
        1 => code_each(ty, y, z, x, a, b, c),
        2 => code_each(ty, z, x, y, a, b, c),
        3 => code_each(ty, x, z, y, a, b, c),
        4 => code_each(ty, y, x, z, a, b, c),
        5 => code_each(ty, z, y, x, a, b, c),
        _ => code_each(ty, x, y, z, a, b, c),
    }
}
