//! What a leaf of a tree says.

use jxlm_predictor::predictor::Predictor;

/// What a leaf of a tree says: how each sample that the tree leads there is decoded.
///
/// The sample is the signed number of its token times `multiplier`, plus `offset`, plus what
/// `predictor` makes of the samples before it.
#[derive(Clone, Copy, PartialEq, Eq)]
pub struct Leaf {
    /// The cluster of the entropy decoder from which the token is read.
    pub cluster: u8,
    /// How the sample is predicted.
    pub predictor: Predictor,
    /// What is added to each sample.
    pub offset: i32,
    /// By what a token's signed number is multiplied: from 1, below 2^31.
    pub multiplier: u32,
}
