//! What each predictor makes of the samples around a cell.

ghost use Rattle.std.specs.Prelude.{◌≡◌, ◌+ℤ◌, ◌-ℤ◌, ◌*ℤ◌, pos, int_div, unsigned_abs, ◌<◌, ◌^◌};
ghost use Rattle.jxlm_predictor.specs.declared.predictor.Predictor.TheVariants.{AvgAll, Select};
ghost use Rattle.jxlm_predictor.specs.Predictions.{prediction_from};
ghost use Rattle.jxlm_weighted.specs.Around.{neighbours_of};

use crate::predictor::Predictor;
use jxlm_base::sample::Sealed;
use jxlm_weighted::around::Around;

/// The average of two samples, toward zero.
fn average(a: i32, b: i32) -> i64
    ensures { result ≡ int_div (a +ℤ b) (pos 2) }
{
    (a as i64 + b as i64) / 2
}

fn select(around: &Around) -> i32
    ensures { result ≡ prediction_from (neighbours_of around.now) (pos 0) Select }
{
    if around.n.abs_diff(around.nw) < around.w.abs_diff(around.nw) {
        around.w
    } else {
        around.n
    }
}

fn nearest(around: &Around) -> i64
    ensures value { result ≡ pos 6 *ℤ around.now.n -ℤ pos 2 *ℤ around.now.nn +ℤ pos 7 *ℤ around.now.w }
    ensures bound { unsigned_abs result < 2 ^ 36 }
{
    6 * around.n as i64 - 2 * around.nn as i64 + 7 * around.w as i64
}

fn farther(around: &Around) -> i64
    ensures value { result ≡ around.now.ww +ℤ around.now.nee +ℤ pos 3 *ℤ around.now.ne }
    ensures bound { unsigned_abs result < 2 ^ 34 }
{
    around.ww as i64 + around.nee as i64 + 3 * around.ne as i64
}

fn average_of_all(around: &Around) -> i64
    ensures { result ≡ prediction_from (neighbours_of around.now) (pos 0) AvgAll }
{
    (nearest(around) + farther(around) + 8) / 16
}

/// What a predictor makes of the neighbours. `corrected` is the weighted prediction times 8.
#[inline(always)]
pub(crate) fn predicted_from(around: &Around, corrected: i64, predictor: Predictor) -> i64
    requires { unsigned_abs corrected < 2 ^ 62 }
    ensures { result ≡ prediction_from (neighbours_of around.now) corrected predictor }
{
    match predictor {
        Predictor::Zero => 0,
        Predictor::West => around.w.into(),
        Predictor::North => around.n.into(),
        Predictor::AvgWestAndNorth => average(around.w, around.n),
        Predictor::Select => select(around).into(),
        Predictor::Gradient => i32::grad_clamped(around.n, around.w, around.nw).into(),
        Predictor::SelfCorrecting => (corrected + 3) >> 3,
        Predictor::NorthEast => around.ne.into(),
        Predictor::NorthWest => around.nw.into(),
        Predictor::WestWest => around.ww.into(),
        Predictor::AvgWestAndNorthWest => average(around.w, around.nw),
        Predictor::AvgNorthAndNorthWest => average(around.n, around.nw),
        Predictor::AvgNorthAndNorthEast => average(around.n, around.ne),
        Predictor::AvgAll => average_of_all(around),
    }
}
