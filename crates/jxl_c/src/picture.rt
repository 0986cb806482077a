//! The picture that a caller describes.

ghost use Rattle.std.specs.Prelude.{◌≡◌, ◌≢◌, ◌≤◌, IfErr, IfOk, OnOk, length};
ghost use Rattle.jxl_codestream.specs.FrontParts.{bytes_if};
ghost use Rattle.jxl_encode.specs.Codable.{IsCodable};
ghost use Rattle.jxl_image_header.specs.Images.{image_of};
ghost use Rattle.jxl_c_picture.specs.Described.{IsDescribed};
ghost use Rattle.jxl_c.specs.Encoded.{HasOtherSamples, IsPictureOf, IsRefused, profile_if, status_of_encoding};

use crate::status::{NO_MEMORY, NOT_CODABLE, TOO_LARGE, WRONG_COUNT};
use jxl_c_picture::channels::{CChannel, has_samples};
use jxl_c_picture::described::{DescriptionError, header_of, is_narrow};
use jxl_c_picture::grids::grids_of;
use jxl_c_picture::info::CInfo;
use jxl_encode::codable::is_codable;
use jxl_encode::error::EncodeError as FileError;
use jxl_picture::picture::Picture;
use jxlm_base::grid::OutOfMemory;
use std::alloc::Global;

/// Why a picture is not encoded.
#[derive(Clone, Copy, Debug, PartialEq, Eq)]
pub enum EncodeError {
    /// A count is not what the info and the extra channels say.
    WrongCount,
    /// A number names nothing, or no file can hold the picture.
    NotCodable,
    /// The picture is too large for one frame.
    TooLarge,
    /// Out of memory.
    OutOfMemory,
}

impl EncodeError {
    /// The status of a call that fails so.
    pub fn status(self) -> u32
        ensures gives { result ≡ status_of_encoding self }
        ensures fails { result ≢ 0 }
        ensures room { result ≢ 9 }
    {
        match self {
            EncodeError::WrongCount => WRONG_COUNT,
            EncodeError::NotCodable => NOT_CODABLE,
            EncodeError::TooLarge => TOO_LARGE,
            EncodeError::OutOfMemory => NO_MEMORY,
        }
    }

    /// The reason, in English.
    pub fn message(self) -> &'static [u8] {
        match self {
            EncodeError::WrongCount => b"an array has another size than the info says",
            EncodeError::NotCodable => b"a picture that cannot be encoded",
            EncodeError::TooLarge => b"a picture too large for one frame",
            EncodeError::OutOfMemory => b"out of memory",
        }
    }
}

impl From<OutOfMemory> for EncodeError {
    ghost use Rattle.jxl_c.specs.declared.picture.EncodeError.TheVariants.{OutOfMemory as Memory};

    ghost from_gives = { λ _ e. e ≡ Memory };

    fn from(_error: OutOfMemory) -> EncodeError {
        EncodeError::OutOfMemory
    }
}

impl From<FileError> for EncodeError {
    ghost use Rattle.jxl_c.specs.Encoded.{error_of};

    ghost from_gives = { λ cause e. e ≡ error_of cause };

    fn from(cause: FileError) -> EncodeError {
        match cause {
            FileError::TooLarge => EncodeError::TooLarge,
            FileError::OutOfMemory => EncodeError::OutOfMemory,
        }
    }
}

// The profile of these bytes; there is none without a byte.
fn profile_of(alloc: Global, icc: &[u8]) -> Result<Option<Vec<u8>>, OutOfMemory>
    ensures { IfOk result (λ profile. bytes_if profile ≡ profile_if icc.now) }
{
    if icc.is_empty() {
        return Ok(None);
    }
    let bytes = Vec::from_slice(alloc, icc)?;
    Ok(Some(bytes))
}

// The picture that a caller describes, without its samples, if a file can hold it.
fn empty_picture(
    alloc: Global,
    info: &CInfo,
    extra: &[CChannel],
    profile: &[u8],
    narrow: bool,
) -> Result<Picture, EncodeError>
    ensures described { IfOk result (λ p. IsDescribed info.now extra.now (image_of p.header)) }
    ensures narrow { IfOk result (λ p. p.header.modular_16bit_buffers ≡ narrow) }
    ensures profile { IfOk result (λ p. bytes_if p.profile ≡ profile_if profile.now) }
    ensures codable { IfOk result IsCodable }
    ensures err { IfErr result (λ e. e ≡ EncodeError.NotCodable → IsRefused info.now extra.now profile.now) }
    ensures counted { IfErr result (λ e. e ≢ EncodeError.WrongCount) }
    ensures small { IfErr result (λ e. e ≢ EncodeError.TooLarge) }
{
    let header = match header_of(alloc, info, extra, narrow) {
        Ok(header) => header,
        Err(DescriptionError::Meaningless) => return Err(EncodeError::NotCodable),
        Err(DescriptionError::OutOfMemory) => return Err(EncodeError::OutOfMemory),
    };
    let picture = Picture {
        header,
        channels: Vec::new(alloc),
        profile: profile_of(alloc, profile)?,
    };
    if !is_codable(&picture) {
        return Err(EncodeError::NotCodable);
    }
    Ok(picture)
}

/// The picture that a caller describes, with these samples and this profile.
///
/// # Errors
///
/// `WrongCount` if it has another number of samples; `NotCodable` if a number names nothing, or no file can hold it;
/// `OutOfMemory`.
pub fn picture_of(
    alloc: Global,
    info: &CInfo,
    extra: &[CChannel],
    samples: &[i32],
    profile: &[u8],
) -> Result<Picture, EncodeError>
    ensures ok { IfOk result (IsPictureOf info.now extra.now samples.now profile.now) }
    ensures codable { IfOk result IsCodable }
    ensures count { IfErr result
        (λ e. e ≡ EncodeError.WrongCount → HasOtherSamples info.now extra.now (length samples.now)) }
    ensures refused { IfErr result (λ e. e ≡ EncodeError.NotCodable → IsRefused info.now extra.now profile.now) }
    ensures small { IfErr result (λ e. e ≢ EncodeError.TooLarge) }
{
    let narrow = is_narrow(info, extra, samples);
    let empty = empty_picture(alloc, info, extra, profile, narrow)?;
    if !has_samples(&empty.header, samples.len()) {
        return Err(EncodeError::WrongCount);
    }
    let channels = grids_of(alloc, &empty.header, samples)?;
    Ok(Picture {
        header: empty.header,
        channels,
        profile: empty.profile,
    })
}
