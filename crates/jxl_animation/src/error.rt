//! Why frames are not decoded.

ghost use Rattle.std.specs.Prelude.{◌≡◌};

use jxl_layers::error::LayerError;
use jxl_lossless::FileError;
use jxlm_base::grid::OutOfMemory;

/// Why a frame is not decoded.
#[derive(Clone, Copy, Debug, PartialEq, Eq, thiserror::Error)]
pub enum AnimationError {
    /// The file, its headers or the samples of a frame have this error.
    #[error("{0}")]
    File(FileError),
    /// A frame cannot be composed with others, for this reason.
    #[error("{0}")]
    Layer(LayerError),
}

impl From<OutOfMemory> for AnimationError {
    ghost use Rattle.jxl_animation.specs.declared.error.AnimationError.TheVariants.{File};
    ghost use Rattle.jxl_lossless.specs.declared.error.FileError.TheVariants.{OutOfMemory as NoMemory};

    ghost from_gives = { λ _ e. e ≡ File NoMemory };

    fn from(_error: OutOfMemory) -> AnimationError {
        AnimationError::File(FileError::OutOfMemory)
    }
}
