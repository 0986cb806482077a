//! Predictors.

ghost use Rattle.std.specs.Prelude.{◌≡◌, ◌<◌, Some, pos, slice_get};
ghost use Rattle.std.specs.Int.{int_wrap, w32};
ghost use Rattle.jxlm_bits.specs.Grammar.{number};
ghost use Rattle.jxlm_predictor.specs.Holding.{IsCurrent, IsOfPlace};
ghost use Rattle.jxlm_predictor.specs.Predictions.{number_of, prediction, prediction_from, predictors};
ghost use Rattle.jxlm_weighted.specs.Around.{neighbours_of};

use crate::predictions::predicted_from;
pub use crate::properties::Properties;
pub use crate::state::PredictorState;
use jxlm_bits::bits::BitstreamError;
use jxlm_weighted::around::Around;
use jxlm_weighted::reduced::reduced;
pub use jxlm_weighted::self_correcting::PredictionResult;
pub use jxlm_weighted::weights::WpHeader;

/// How a sample is predicted from the samples before it (ISO/IEC 18181-1, Modular: predictors). The
/// variants are in the order of their numbers, from 0 to 13.
#[derive(Clone, Copy, PartialEq, Eq, Hash, Debug, Default)]
pub enum Predictor {
    /// Always 0.
    #[default]
    Zero,
    /// The sample to the left.
    West,
    /// The sample above.
    North,
    /// The average of left and above.
    AvgWestAndNorth,
    /// Left or above, whichever the sample above left speaks for.
    Select,
    /// The clamped gradient of left, above and above left.
    Gradient,
    /// The weighted sum of four sub-predictions, by how well each did at the neighbours.
    SelfCorrecting,
    /// The sample above right.
    NorthEast,
    /// The sample above left.
    NorthWest,
    /// The sample two to the left.
    WestWest,
    /// The average of left and above left.
    AvgWestAndNorthWest,
    /// The average of above and above left.
    AvgNorthAndNorthWest,
    /// The average of above and above right.
    AvgNorthAndNorthEast,
    /// A weighted average of six neighbours.
    AvgAll,
}

impl TryFrom<u32> for Predictor {
    ghost use Rattle.jxlm_predictor.specs.Predictions.{IsPredictorOf};

    type Error = BitstreamError;

    ghost try_from_gives = { IsPredictorOf };

    /// The predictor of a number; `InvalidEnum` if it is 14 or more.
    fn try_from(value: u32) -> std::result::Result<Predictor, BitstreamError> {
        Ok(match value {
            0 => Predictor::Zero,
            1 => Predictor::West,
            2 => Predictor::North,
            3 => Predictor::AvgWestAndNorth,
            4 => Predictor::Select,
            5 => Predictor::Gradient,
            6 => Predictor::SelfCorrecting,
            7 => Predictor::NorthEast,
            8 => Predictor::NorthWest,
            9 => Predictor::WestWest,
            10 => Predictor::AvgWestAndNorthWest,
            11 => Predictor::AvgNorthAndNorthWest,
            12 => Predictor::AvgNorthAndNorthEast,
            13 => Predictor::AvgAll,
            _ => {
                return Err(BitstreamError::InvalidEnum {
                    name: "MaProperty",
                    value,
                });
            }
        })
    }
}

impl Predictor {
    /// The number of the predictor, by which `try_from` finds it.
    #[tactic(auto, using(crate::proofs::Numbers::found_by_number))]
    pub fn number(self) -> u32
        ensures number { result ≡ number_of self }
        ensures found { slice_get predictors result ≡ Some self }
    {
        match self {
            Predictor::Zero => 0,
            Predictor::West => 1,
            Predictor::North => 2,
            Predictor::AvgWestAndNorth => 3,
            Predictor::Select => 4,
            Predictor::Gradient => 5,
            Predictor::SelfCorrecting => 6,
            Predictor::NorthEast => 7,
            Predictor::NorthWest => 8,
            Predictor::WestWest => 9,
            Predictor::AvgWestAndNorthWest => 10,
            Predictor::AvgNorthAndNorthWest => 11,
            Predictor::AvgNorthAndNorthEast => 12,
            Predictor::AvgAll => 13,
        }
    }

    /// What the predictor makes of the cell of these properties, reduced to 32 bits.
    #[inline(always)]
    pub fn predict<S>(self, properties: &Properties<'_, S>) -> i32
        requires { IsCurrent properties.now }
        ensures { IsOfPlace properties.now (λ weights samples width. prediction weights samples width self) result }
    {
        let corrected = PredictionResult::eightfold(&properties.correction);
        reduced(predicted_from(&properties.around, corrected, self))
    }

    /// What the predictor makes of these neighbours where the weighted prediction is 0, reduced to 32 bits.
    #[inline(always)]
    pub fn predict_around(self, around: &Around) -> i32
        ensures { result ≡ int_wrap w32 (prediction_from (neighbours_of around.now) (pos 0) self) }
    {
        reduced(predicted_from(around, 0, self))
    }
}
