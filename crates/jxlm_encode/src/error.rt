//! Why an image is not encoded.

ghost use Rattle.std.specs.Prelude.{◌≡◌, ◌⊎◌};
ghost use Rattle.jxlm_bits.specs.ErrorKind.{kind_of};
ghost use Rattle.jxlm_encode.specs.Errors.{IsNotMemory};
ghost use Rattle.jxlm_encode.specs.declared.error.EncodeError.TheVariants.{OutOfMemory as Memory};

use jxlm_base::grid::OutOfMemory;
use jxlm_bits::decoder::DecoderError;
use jxlm_bits::error::Error;
use std::alloc::{AllocError, AllocFailed};

/// Why an image is not encoded.
#[derive(Clone, Copy, Debug, PartialEq, Eq, thiserror::Error)]
pub enum EncodeError {
    /// The transform of this number, from 0, does not suit the channels that the ones before it leave, or no header
    /// can spell it. The number after the last: the transforms leave more than 65536 channels.
    #[error("invalid encoder transform {0}")]
    InvalidTransform(u32),
    /// The nodes list no tree, or one that is too large.
    #[error("invalid encoder tree")]
    InvalidTree,
    /// Out of memory.
    #[error("out of memory")]
    OutOfMemory,
}

impl From<AllocError> for EncodeError {
    ghost use Rattle.jxlm_encode.specs.declared.error.EncodeError.TheVariants.{OutOfMemory as Memory};

    ghost from_gives = { λ _ e. e ≡ Memory };

    fn from(_error: AllocError) -> EncodeError {
        EncodeError::OutOfMemory
    }
}

impl From<OutOfMemory> for EncodeError {
    ghost use Rattle.jxlm_encode.specs.declared.error.EncodeError.TheVariants.{OutOfMemory as Memory};

    ghost from_gives = { λ _ e. e ≡ Memory };

    fn from(_error: OutOfMemory) -> EncodeError {
        EncodeError::OutOfMemory
    }
}

impl<T: Drop> From<AllocFailed<T>> for EncodeError {
    ghost use Rattle.jxlm_encode.specs.declared.error.EncodeError.TheVariants.{OutOfMemory as Memory};

    ghost from_gives = { λ _ e. e ≡ Memory };

    fn from(_error: AllocFailed<T>) -> EncodeError {
        EncodeError::OutOfMemory
    }
}

/// The error of a call that has this error where it is not out of memory.
pub fn unless_memory(error: Error, other: EncodeError) -> EncodeError
    ensures { (result ≡ Memory) ⊎ ((result ≡ other) × IsNotMemory (kind_of error)) }
{
    match error {
        Error::Buffer(_) => EncodeError::OutOfMemory,
        Error::Decoder(DecoderError::OutOfMemory) => EncodeError::OutOfMemory,
        _ => other,
    }
}
