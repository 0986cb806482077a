//! The numbers by which a call says how it ended.

ghost use Rattle.std.specs.Prelude.{◌≡◌, ◌≤◌};
ghost use Rattle.jxl_c.specs.Statuses.{status_of_box, status_of_tokens, status_of_field, status_of_front, status_of_patches, status_of_frame, status_of};

use jxl_codestream::error::FrontError;
use jxl_container::error::FileError as BoxError;
use jxl_lossless::{FileError, FrameError};
use jxl_patches::error::PatchError;
use jxlm_bits::bits::BitstreamError;
use jxlm_bits::decoder::DecoderError;
use jxlm_bits::error::Error;

// As in `jxl_lossless.h`.
pub const DONE: u32 = 0;

pub const NOT_JXL: u32 = 1;

pub const INVALID: u32 = 2;

pub const TRUNCATED: u32 = 3;

pub const UNSUPPORTED: u32 = 4;

pub const TOO_LARGE: u32 = 5;

pub const NO_MEMORY: u32 = 6;

pub const WRONG_COUNT: u32 = 7;

pub const WRONG_STRUCT: u32 = 8;

pub const NO_ROOM: u32 = 9;

pub const NOT_CODABLE: u32 = 10;

fn of_box(error: BoxError) -> u32
    ensures gives { result ≡ status_of_box error }
    ensures some { 1 ≤ result }
    ensures few { result ≤ 6 }
{
    match error {
        BoxError::NotJpegXl => NOT_JXL,
        BoxError::TruncatedBox => TRUNCATED,
        BoxError::JpegReconstruction | BoxError::CompressedCodestream => UNSUPPORTED,
        BoxError::OutOfMemory => NO_MEMORY,
        _ => INVALID,
    }
}

fn of_tokens(error: DecoderError) -> u32
    ensures gives { result ≡ status_of_tokens error }
    ensures some { 1 ≤ result }
    ensures few { result ≤ 6 }
{
    match error {
        DecoderError::UnexpectedEof => TRUNCATED,
        DecoderError::OutOfMemory => NO_MEMORY,
        DecoderError::Invalid(_) => INVALID,
    }
}

fn of_field(error: Error) -> u32
    ensures gives { result ≡ status_of_field error }
    ensures some { 1 ≤ result }
    ensures few { result ≤ 6 }
{
    match error {
        Error::Bitstream(BitstreamError::UnexpectedEof) => TRUNCATED,
        Error::Decoder(error) => of_tokens(error),
        Error::Buffer(_) => NO_MEMORY,
        _ => INVALID,
    }
}

fn of_front(error: FrontError) -> u32
    ensures gives { result ≡ status_of_front error }
    ensures some { 1 ≤ result }
    ensures few { result ≤ 6 }
{
    match error {
        FrontError::TooLong | FrontError::TooLarge | FrontError::FramesTooLarge => TOO_LARGE,
        FrontError::Image(_) | FrontError::Frame(_) | FrontError::TooManySections => UNSUPPORTED,
        FrontError::TruncatedSection(_) => TRUNCATED,
        FrontError::ImageHeader(error)
        | FrontError::Profile(error)
        | FrontError::FrameHeader(error)
        | FrontError::Contents(error) => of_field(error),
    }
}

fn of_patches(error: PatchError) -> u32
    ensures gives { result ≡ status_of_patches error }
    ensures some { 1 ≤ result }
    ensures few { result ≤ 6 }
{
    match error {
        PatchError::Invalid { .. } => INVALID,
        PatchError::Decoder(error) => of_tokens(error),
        PatchError::TooLarge => TOO_LARGE,
        PatchError::OutOfMemory => NO_MEMORY,
    }
}

fn of_frame(error: FrameError) -> u32
    ensures gives { result ≡ status_of_frame error }
    ensures some { 1 ≤ result }
    ensures few { result ≤ 6 }
{
    match error {
        FrameError::Header(error) | FrameError::Samples(error) => of_field(error),
        FrameError::WeightedPalette | FrameError::GroupWeightedPalette => UNSUPPORTED,
        FrameError::NoGroups | FrameError::NoSection => INVALID,
        FrameError::TooManyCodewords | FrameError::TooManyDecisions => TOO_LARGE,
        FrameError::OutOfMemory => NO_MEMORY,
    }
}

/// How a call ends whose file is not decoded, by this error.
pub fn status_of_error(error: FileError) -> u32
    ensures gives { result ≡ status_of error }
    ensures some { 1 ≤ result }
    ensures few { result ≤ 6 }
{
    match error {
        FileError::File(error) => of_box(error),
        FileError::Front(error) => of_front(error),
        FileError::Patches(error) => of_patches(error),
        FileError::Start(error) | FileError::Tree(error) => of_field(error),
        FileError::TooManyDecisions => TOO_LARGE,
        FileError::Samples(error) => of_frame(error),
        FileError::OutOfMemory => NO_MEMORY,
    }
}
