//! The row above the one that is read, and what the samples around a cell add up to; the first row has none above it.

ghost use Rattle.std.specs.Prelude.{◌≡◌, ◌<◌, ◌+ℤ◌, ◌-ℤ◌, true, false, [], get_or, length};
ghost use Rattle.std.specs.Int.{int_wrap, w32};
ghost use Rattle.jxlm_samples.specs.RowNeighbours.{sum_by};

use jxlm_base::sample::{Sample, Sealed};
use jxlm_predictor::clamping::clamped_sum;

/// The sample above column `x`, or `other` in the first row.
#[inline(always)]
pub fn sample_above<S: Copy, const FIRST: bool>(above: &[S], x: usize, other: S) -> S
    requires first { FIRST ≡ true → above.now ≡ [] }
    requires inside { FIRST ≡ false → x < length above.now }
    ensures { result ≡ get_or above.now x other }
{
    if FIRST { other } else { above[x] }
}

/// The same, where it was read before as `n`, in place of another number.
#[inline(always)]
pub fn sample_again<S: Copy, const FIRST: bool>(above: &[S], x: usize, n: S, other: S) -> S
    requires first { FIRST ≡ true → above.now ≡ [] }
    requires inside { FIRST ≡ false → x < length above.now }
    ensures { (e : S) → n ≡ get_or above.now x e → result ≡ get_or above.now x other }
{
    if FIRST { other } else { n }
}

/// West less north west plus north, reduced to 32 bits.
#[inline(always)]
fn reduced_sum<S: Sample>(n: S, w: S, nw: S) -> i32
    ensures { result ≡ int_wrap w32 (S.to_int w -ℤ S.to_int nw +ℤ S.to_int n) }
{
    w.to_i32()
        .wrapping_sub(nw.to_i32())
        .wrapping_add(n.to_i32())
}

/// Property 9: west less north west plus north, clamped (`CLAMPED`) or reduced to 32 bits.
#[inline(always)]
pub fn property_9<S: Sample, const CLAMPED: bool>(n: S, w: S, nw: S) -> i32
    ensures { result ≡ sum_by CLAMPED (S.to_int w -ℤ S.to_int nw +ℤ S.to_int n) }
{
    if CLAMPED {
        clamped_sum(w.to_i32(), nw.to_i32(), n.to_i32())
    } else {
        reduced_sum(n, w, nw)
    }
}
