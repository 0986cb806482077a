//! Why a file is not decoded.

ghost use Rattle.std.specs.Prelude.{◌≡◌};

use crate::still::error::FrameError;
use jxl_codestream::error::FrontError;
use jxl_container::error::FileError as BoxError;
use jxl_patches::error::PatchError;
use jxlm_base::grid::OutOfMemory;
use jxlm_bits::error::Error;

/// Why a file is not decoded: the first reason in the order of its bits, but that what is not supported comes before
/// what is wrong with samples.
#[derive(Clone, Copy, Debug, PartialEq, Eq, thiserror::Error)]
pub enum FileError {
    /// The file has no codestream that is read, for this reason.
    #[error("{0}")]
    File(BoxError),
    /// What comes before the sections of the frames has this error, or is not supported.
    #[error("{0}")]
    Front(FrontError),
    /// The patches of a frame have this error.
    #[error("patches: {0}")]
    Patches(PatchError),
    /// What the first section of a frame begins with, after patches, has this error.
    #[error("first section: {0}")]
    Start(Error),
    /// The tree that sections of a frame share has this error.
    #[error("global tree: {0}")]
    Tree(Error),
    /// The tree that sections of a frame share is deeper than the limit on decisions allows.
    #[error("global tree: more decisions than the limit")]
    TooManyDecisions,
    /// The image of a frame, or its samples, have this error.
    #[error("{0}")]
    Samples(FrameError),
    /// Out of memory.
    #[error("out of memory")]
    OutOfMemory,
}

impl From<OutOfMemory> for FileError {
    ghost use Rattle.jxl_lossless.specs.declared.error.FileError.TheVariants.{OutOfMemory};

    ghost from_gives = { λ _ e. e ≡ OutOfMemory };

    fn from(_error: OutOfMemory) -> FileError {
        FileError::OutOfMemory
    }
}
