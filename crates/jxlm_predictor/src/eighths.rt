//! The weighted (self-correcting) prediction in eighths of a sample, before and after its clamp.
//!
//! Reading an image never asks for these: a sample is predicted by `Predictor::predict`, which rounds the clamped
//! prediction.

ghost use Rattle.jxlm_predictor.specs.Holding.{IsCurrent, IsOfPlace};
ghost use Rattle.jxlm_weighted.specs.SelfCorrecting.{weighted_prediction, unclamped_correction};

use crate::properties::Properties;
use jxlm_weighted::self_correcting::PredictionResult;

/// The prediction at the cell of these properties, times 8, before it is clamped; 0 where there are no weights.
pub fn before_clamp<S>(properties: &Properties<'_, S>) -> i64
    requires { IsCurrent properties.now }
    ensures { IsOfPlace properties.now unclamped_correction result }
{
    let state = &properties.state;
    match &state.corrector {
        Some(corrector) => {
            corrector.unclamped(state.x as usize, state.y as usize, &properties.around)
        }
        None => 0,
    }
}

/// The prediction at the cell of these properties, times 8, after its clamp; 0 where there are no weights.
pub fn after_clamp<S>(properties: &Properties<'_, S>) -> i64
    requires { IsCurrent properties.now }
    ensures { IsOfPlace properties.now weighted_prediction result }
{
    PredictionResult::eightfold(&properties.correction)
}
