//! Walks over the samples of a part of a channel, by the state of the predictors.

ghost use Rattle.std.specs.Prelude.{◌≡◌, ◌<◌, ◌≤◌, ℤ, List, [], Ok, None, IfOk, IsSomeAnd, map};
ghost use Rattle.jxlm_predictor.specs.Holding.{IsCurrent, state_of};
ghost use Rattle.jxlm_predictor.specs.Predictions.{prediction, predictors};
ghost use Rattle.jxlm_predictor.specs.Standing.{Setting, StandsAt};
ghost use Rattle.jxl_encode_properties.specs.Walks.{IsAfter, IsAroundOf, Takes, weights_by};

use jxlm_base::grid::OutOfMemory;
use jxlm_predictor::predictor::{Predictor, PredictorState, Properties, WpHeader};
use std::alloc::Global;
use std::marker::Model;

/// The most samples of a part.
const MAX_CELLS: u32 = 65536;

/// All that the neighbours of a sample say of it before it is coded.
#[derive(Clone, Copy)]
pub struct Surroundings {
    /// Properties 0 to 15, in order.
    pub own: [i32; 16],
    /// What each predictor makes of it, in the order of their numbers.
    pub predicted: [i32; 14],
}

/// A walk over the samples of a part of a channel. Contracts see the state of the predictors, and the number of samples
/// that the walk may take yet.
#[derive(Drop)]
pub struct Walk {
    state: PredictorState<i32>,
    // The number of samples that it may take yet.
    left: u32,
}

impl Model for Walk {
    ghost use Rattle.jxl_encode_properties.specs.Inner.Underway.{IsUnderway};
    ghost use Rattle.jxl_encode_properties.specs.Walks.{Progress, progress};

    ghost Value = { Progress };

    ghost view = { λ w. progress w.state w.left };

    ghost invariant = { λ w. IsUnderway (progress w.state w.left) };
}

/// What each predictor makes of a sample, in the order of their numbers.
fn predictions_of(properties: &Properties<'_, i32>) -> [i32; 14]
    requires { IsCurrent properties.now }
    ensures { (s : Setting) (samples : List ℤ) → StandsAt (state_of properties.now) s samples → result
        ≡ map (prediction s.weights samples s.width) predictors }
{
    [
        Predictor::Zero.predict(properties),
        Predictor::West.predict(properties),
        Predictor::North.predict(properties),
        Predictor::AvgWestAndNorth.predict(properties),
        Predictor::Select.predict(properties),
        Predictor::Gradient.predict(properties),
        Predictor::SelfCorrecting.predict(properties),
        Predictor::NorthEast.predict(properties),
        Predictor::NorthWest.predict(properties),
        Predictor::WestWest.predict(properties),
        Predictor::AvgWestAndNorthWest.predict(properties),
        Predictor::AvgNorthAndNorthWest.predict(properties),
        Predictor::AvgNorthAndNorthEast.predict(properties),
        Predictor::AvgAll.predict(properties),
    ]
}

/// The default weights if `weighted`, or none.
fn weights_if(weighted: bool) -> Option<WpHeader>
    ensures { result ≡ weights_by weighted }
{
    if weighted {
        Some(WpHeader::default())
    } else {
        None
    }
}

impl Walk {
    /// At the first sample of a part of this width, with the weighted predictor if `weighted` says so: else it predicts 0
    /// for each sample, and its errors are 0. None, if the width is not one of a group: 0, or above 1,024.
    pub fn new(alloc: Global, width: u32, weighted: bool) -> Result<Option<Walk>, OutOfMemory>
        ensures empty { width ≡ 0 → result ≡ Ok None }
        ensures wide { 1024 < width → result ≡ Ok None }
        ensures begins { 0 < width → width ≤ 1024 → IfOk result (λ found. IsSomeAnd found
            (λ walk. IsAfter walk (weights_by weighted) width [])) }
    {
        if width == 0 || width > 1024 {
            return Ok(None);
        }
        let weights = weights_if(weighted);
        let mut state = PredictorState::new(alloc);
        match state.reset(width, &[], weights.as_ref()) {
            Ok(()) => Ok(Some(Walk {
                state,
                left: MAX_CELLS,
            })),
            Err(_) => Err(OutOfMemory),
        }
    }

    /// All that the neighbours of the next sample, which is this one, say of it; None after 65,536 samples.
    pub fn step(&mut self, sample: i32) -> Option<Surroundings>
        ensures none { self.old.left ≡ 0 → result ≡ None }
        ensures still { self.old.left ≡ 0 → self.new ≡ self.old }
        ensures around { 0 < self.old.left → IsSomeAnd result (λ around. IsAroundOf self.old around) }
        ensures takes { 0 < self.old.left → Takes self.old self.new sample }
    {
        if self.left == 0 {
            return None;
        }
        let properties = self.state.properties::<true>(&[]);
        let surroundings = Surroundings {
            own: properties.own(),
            predicted: predictions_of(&properties),
        };
        properties.record(sample);
        self.left -= 1;
        Some(surroundings)
    }
}
