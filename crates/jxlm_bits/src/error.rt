//! The errors of the library.

ghost use Rattle.std.specs.Prelude.{◌≡◌, ◌↔◌, ◌⊎◌, IsTrue};

use crate::bits::BitstreamError;
use crate::decoder::DecoderError;
use std::alloc::{AllocError, AllocFailed};

/// Out of memory.
#[derive(Clone, Copy, PartialEq, Eq, Debug, thiserror::Error)]
#[error("out of memory")]
pub struct OutOfMemory;

impl From<AllocError> for OutOfMemory {
    ghost from_gives = { λ _ e. e ≡ record {} };

    fn from(_error: AllocError) -> OutOfMemory {
        OutOfMemory
    }
}

impl<T: Drop> From<AllocFailed<T>> for OutOfMemory {
    ghost from_gives = { λ _ e. e ≡ record {} };

    fn from(_error: AllocFailed<T>) -> OutOfMemory {
        OutOfMemory
    }
}

/// Why a call returns no value: the header, the channels, the tree or the tokens, or out of memory.
#[derive(Clone, Copy, Debug, PartialEq, Eq, thiserror::Error)]
pub enum Error {
    /// The meta-adaptive tree is invalid.
    #[error("invalid meta-adaptive tree")]
    InvalidMaTree,
    /// The global meta-adaptive tree is asked for, and there is none.
    #[error("global meta-adaptive tree requested but unavailable")]
    GlobalMaTreeNotAvailable,
    /// The channels do not suit a colour transform.
    #[error("invalid Rct transform parameters")]
    InvalidRctParams,
    /// The channels do not suit a palette.
    #[error("invalid Palette transform parameters")]
    InvalidPaletteParams,
    /// The channels do not suit a squeeze, or cannot be divided into groups.
    #[error("invalid Squeeze transform parameters")]
    InvalidSqueezeParams,
    /// A field of the header has no value, for this cause.
    #[error("bitstream error: {0}")]
    Bitstream(BitstreamError),
    /// The entropy decoder returned this error.
    #[error("entropy decoder error: {0}")]
    Decoder(DecoderError),
    /// Out of memory for samples or tables.
    #[error("{0}")]
    Buffer(OutOfMemory),
}

/// The result of a call that may return an error of the library.
pub type Result<T> = std::result::Result<T, Error>;

impl Error {
    ghost use Rattle.jxlm_bits.specs.ErrorKind.{ErrorKind, Eof, OfDecoder, kind_of};
    ghost use Rattle.jxlm_bits.specs.declared.decoder.DecoderError.TheVariants.{UnexpectedEof};

    /// Whether the input ended too early, in a field or in the entropy decoder: true for `UnexpectedEof` in
    /// `Bitstream` or in `Decoder`, and for nothing else.
    pub fn unexpected_eof(&self) -> bool
        ensures { IsTrue result ↔ ((kind_of self.now ≡ Eof) ⊎ (kind_of self.now ≡ OfDecoder UnexpectedEof)) }
    {
        match self {
            Error::Bitstream(e) => e.unexpected_eof(),
            Error::Decoder(e) => e.unexpected_eof(),
            _ => false,
        }
    }
}

impl From<BitstreamError> for Error {
    ghost use Rattle.jxlm_bits.specs.declared.error.Error.TheVariants.{Bitstream};

    ghost from_gives = { λ cause e. e ≡ Bitstream cause };

    fn from(cause: BitstreamError) -> Error {
        Error::Bitstream(cause)
    }
}

impl From<DecoderError> for Error {
    ghost use Rattle.jxlm_bits.specs.declared.error.Error.TheVariants.{Decoder};

    ghost from_gives = { λ cause e. e ≡ Decoder cause };

    fn from(cause: DecoderError) -> Error {
        Error::Decoder(cause)
    }
}

impl From<OutOfMemory> for Error {
    ghost use Rattle.jxlm_bits.specs.declared.error.Error.TheVariants.{Buffer};

    ghost from_gives = { λ cause e. e ≡ Buffer cause };

    fn from(cause: OutOfMemory) -> Error {
        Error::Buffer(cause)
    }
}

/// `Buffer`, so that `?` serves on the calls that allocate.
impl From<AllocError> for Error {
    ghost use Rattle.jxlm_bits.specs.declared.error.Error.TheVariants.{Buffer};

    ghost from_gives = { λ _ e. e ≡ Buffer (record {}) };

    fn from(_cause: AllocError) -> Error {
        Error::Buffer(OutOfMemory)
    }
}

/// `Buffer`, so that `?` serves on `push` and the other calls that return what they cannot store; the value is
/// dropped.
impl<T: Drop> From<AllocFailed<T>> for Error {
    ghost use Rattle.jxlm_bits.specs.declared.error.Error.TheVariants.{Buffer};

    ghost from_gives = { λ _ e. e ≡ Buffer (record {}) };

    fn from(_cause: AllocFailed<T>) -> Error {
        Error::Buffer(OutOfMemory)
    }
}
