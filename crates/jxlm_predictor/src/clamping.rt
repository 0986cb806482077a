//! Property 9 where it is clamped in place of being reduced to 32 bits, far enough out for each cut of a tree that allows it.

ghost use Rattle.std.specs.Prelude.{◌≡◌, ◌+ℤ◌, ◌-ℤ◌, ℤ, List};
ghost use Rattle.jxlm_base.specs.Regions.{store_meanings};
ghost use Rattle.jxlm_predictor.specs.Holding.{IsCurrent, state_of, store_of, surroundings};
ghost use Rattle.jxlm_predictor.specs.Standing.{Setting, StandsAt};
ghost use Rattle.jxlm_predictor.specs.Sums.{clamp_sum, gradient_sum as sum_clamped};

use crate::predictor::Properties;
use jxlm_base::sample::Sample;

/// West less north west plus north.
#[inline(always)]
fn sum(w: i32, nw: i32, n: i32) -> i64
    ensures { result ≡ w -ℤ nw +ℤ n }
{
    w as i64 - nw as i64 + n as i64
}

/// The number clamped to -8193..=8191.
#[inline(always)]
fn near_zero(number: i64) -> i32
    ensures { result ≡ clamp_sum number }
{
    if number < -8193 {
        -8193
    } else if number > 8191 {
        8191
    } else {
        number as i32
    }
}

/// West less north west plus north, clamped to -8193..=8191.
#[inline(always)]
pub fn clamped_sum(w: i32, nw: i32, n: i32) -> i32
    ensures { result ≡ clamp_sum (w -ℤ nw +ℤ n) }
{
    near_zero(sum(w, nw, n))
}

impl<S: Sample> Properties<'_, S> {
    /// The sum of property 9 at the cell, clamped to -8193..=8191.
    #[inline(always)]
    pub fn clamped_sum(&self) -> i32
        requires { IsCurrent self.now }
        ensures { (s : Setting) (samples : List ℤ) → StandsAt (state_of self.now) s samples → result ≡ sum_clamped
            (surroundings s (store_meanings S.to_int (store_of self.now)) samples) }
    {
        clamped_sum(self.around.w, self.around.nw, self.around.n)
    }
}
