//! Why a frame is not decoded.

ghost use Rattle.std.specs.Prelude.{◌≡◌};

use jxlm_base::grid::OutOfMemory;
use jxlm_bits::error::Error;
use std::alloc::AllocFailed;

/// Why a frame is not decoded: the first reason in the order of its bits, but that the parser looks for palettes with the
/// weighted predictor first: in the header before its conditions and its tree, in those of groups before any samples.
/// Trees are compared with the limits on codewords and on decisions after that, and before any samples.
#[derive(Clone, Copy, Debug, PartialEq, Eq, thiserror::Error)]
pub enum FrameError {
    /// The image's header, or its tree, has this error.
    #[error("image: {0}")]
    Header(Error),
    /// A palette of the image's header has the weighted (self-correcting) predictor.
    #[error("not supported: a palette with weighted deltas")]
    WeightedPalette,
    /// A group has a side of 0 in a coded channel, because of a squeeze.
    #[error("a group of no columns or rows")]
    NoGroups,
    /// A group has samples, but no section.
    #[error("a group without a section")]
    NoSection,
    /// The header of a group has such a palette.
    #[error("not supported: a palette with weighted deltas in a group")]
    GroupWeightedPalette,
    /// The codes of the own trees of sections may have more codewords than the limit.
    #[error("codes of sections: more codewords than the limit")]
    TooManyCodewords,
    /// The own tree of a section is deeper than the limit on decisions allows.
    #[error("tree of a section: more decisions than the limit")]
    TooManyDecisions,
    /// The samples have this error.
    #[error("samples: {0}")]
    Samples(Error),
    /// Out of memory.
    #[error("out of memory")]
    OutOfMemory,
}

impl From<OutOfMemory> for FrameError {
    ghost use Rattle.jxl_lossless.specs.declared.still.error.FrameError.TheVariants.{OutOfMemory};

    ghost from_gives = { λ _ e. e ≡ OutOfMemory };

    fn from(_error: OutOfMemory) -> FrameError {
        FrameError::OutOfMemory
    }
}

/// `OutOfMemory`, so that `?` serves on `push`; the value is dropped.
impl<T: Drop> From<AllocFailed<T>> for FrameError {
    ghost use Rattle.jxl_lossless.specs.declared.still.error.FrameError.TheVariants.{OutOfMemory};

    ghost from_gives = { λ _ e. e ≡ OutOfMemory };

    fn from(_error: AllocFailed<T>) -> FrameError {
        FrameError::OutOfMemory
    }
}
