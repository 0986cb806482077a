//! What tokens are taken from, and what the decoding of a part changes beside its store.

use jxlm_bits::bits::Bitstream;
use jxlm_bits::decoder::Decoder;
use jxlm_predictor::predictor::PredictorState;
use jxlm_tree::flat::Steps;

/// What tokens are taken from.
#[derive(Drop)]
pub(crate) struct Source<'b, D: Decoder> {
    /// The entropy decoder.
    pub(crate) decoder: D,
    /// The reader of its bits.
    pub(crate) bits: Bitstream<'b>,
    /// The steps that were taken in trees.
    pub(crate) steps: Steps,
}

/// What the decoding of a part changes beside its store.
#[derive(Drop)]
pub(crate) struct Walk<'b, S, D: Decoder> {
    /// What tokens are taken from.
    pub(crate) source: Source<'b, D>,
    /// The state of the predictors.
    pub(crate) state: PredictorState<S>,
}
