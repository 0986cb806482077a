//! Why a picture is not encoded.

ghost use Rattle.std.specs.Prelude.{◌≡◌};

use jxlm_base::grid::OutOfMemory;
use std::alloc::{AllocError, AllocFailed};

/// Why a picture is not encoded.
#[derive(Clone, Copy, Debug, PartialEq, Eq, thiserror::Error)]
pub enum EncodeError {
    /// The picture has 2^31 samples or more; or its frame would have more than 16,777,216 sections; or a section of it
    /// would have 2^30 + 4,211,712 bytes or more.
    #[error("a picture too large for one frame")]
    TooLarge,
    /// Out of memory.
    #[error("out of memory")]
    OutOfMemory,
}

impl From<OutOfMemory> for EncodeError {
    ghost use Rattle.jxl_encode.specs.declared.error.EncodeError.TheVariants.{OutOfMemory as Memory};

    ghost from_gives = { λ _ e. e ≡ Memory };

    fn from(_error: OutOfMemory) -> EncodeError {
        EncodeError::OutOfMemory
    }
}

impl From<AllocError> for EncodeError {
    ghost use Rattle.jxl_encode.specs.declared.error.EncodeError.TheVariants.{OutOfMemory as Memory};

    ghost from_gives = { λ _ e. e ≡ Memory };

    fn from(_error: AllocError) -> EncodeError {
        EncodeError::OutOfMemory
    }
}

impl<T: Drop> From<AllocFailed<T>> for EncodeError {
    ghost use Rattle.jxl_encode.specs.declared.error.EncodeError.TheVariants.{OutOfMemory as Memory};

    ghost from_gives = { λ _ e. e ≡ Memory };

    fn from(_error: AllocFailed<T>) -> EncodeError {
        EncodeError::OutOfMemory
    }
}
