//! Why no patches are read.

ghost use Rattle.std.specs.Prelude.{◌≡◌};

use jxlm_bits::decoder::DecoderError;
use std::alloc::AllocFailed;

/// Why no patches are read.
#[derive(Clone, Copy, Debug, PartialEq, Eq, thiserror::Error)]
pub enum PatchError {
    /// A number that was read has no meaning: what it should mean, and the number.
    #[error("invalid value {value} for {name}")]
    Invalid { name: &'static str, value: u32 },
    /// The entropy decoder returned this error.
    #[error("entropy decoder error: {0}")]
    Decoder(DecoderError),
    /// The patches put more cells than the caller allows.
    #[error("patches of too many cells")]
    TooLarge,
    /// Out of memory.
    #[error("out of memory")]
    OutOfMemory,
}

/// The result of a call that reads patches.
pub type Result<T> = std::result::Result<T, PatchError>;

impl From<DecoderError> for PatchError {
    ghost use Rattle.jxl_patches.specs.declared.error.PatchError.TheVariants.{Decoder};

    ghost from_gives = { λ cause e. e ≡ Decoder cause };

    fn from(cause: DecoderError) -> PatchError {
        PatchError::Decoder(cause)
    }
}

/// `OutOfMemory`, so that `?` serves on the calls that allocate; the value is dropped.
impl<T: Drop> From<AllocFailed<T>> for PatchError {
    ghost use Rattle.jxl_patches.specs.declared.error.PatchError.TheVariants.{OutOfMemory};

    ghost from_gives = { λ _ e. e ≡ OutOfMemory };

    fn from(_cause: AllocFailed<T>) -> PatchError {
        PatchError::OutOfMemory
    }
}
