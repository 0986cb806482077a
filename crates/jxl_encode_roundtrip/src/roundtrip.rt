//! A picture encoded to a .jxl file, and decoded again.

ghost use Rattle.std.specs.Prelude.{◌≡◌, Err, IfErr, IfOk};
ghost use Rattle.std.specs.List.{All};
ghost use Rattle.jxlm_base.specs.Grid.{IsFull};
ghost use Rattle.jxl_image_header.specs.Images.{image_of};
ghost use Rattle.jxl_picture.specs.Pictures.{IsWhole};
ghost use Rattle.jxl_codestream.specs.FrontParts.{bytes_if};
ghost use Rattle.jxl_encode.specs.Codable.{IsCodable};
ghost use Rattle.jxl_encode.specs.Errors.{IsTooLarge};
ghost use Rattle.jxl_encode.specs.Files.{AllowFile, IsShownAs};
ghost use Rattle.jxl_encode.specs.declared.error.EncodeError.TheVariants.{TooLarge};
ghost use Rattle.jxl_lossless_laws.specs.Same.{IsSamePicture};
ghost use Rattle.jxl_encode_roundtrip.specs.RoundTrip.{RoundTripFails};

use jxl_encode::effort::Effort;
use jxl_encode::error::EncodeError;
use jxl_encode::file::encode_lossless;
use jxl_lossless::{FileError, Limits, Picture, Steps, decode_lossless};
use jxl_lossless_laws::laws::{
    a_file_has_one_picture, a_file_with_a_picture_is_decoded, same_channels_are_equal,
};
use jxlm_base::grid::AlignedGrid;
use std::alloc::Global;

/// Why a picture did not come back.
#[derive(Clone, Copy, Debug, PartialEq, Eq, thiserror::Error)]
pub enum RoundTripError {
    /// It is not encoded: it is too large, or for want of memory.
    #[error("{0}")]
    Encode(EncodeError),
    /// What was encoded is not decoded: for want of memory, or because it has 2^61 bytes or more.
    #[error("{0}")]
    Decode(FileError),
}

impl From<EncodeError> for RoundTripError {
    ghost use Rattle.jxl_encode_roundtrip.specs.declared.roundtrip.RoundTripError.TheVariants.{Encode};

    ghost from_gives = { λ error e. e ≡ Encode error };

    fn from(error: EncodeError) -> RoundTripError {
        RoundTripError::Encode(error)
    }
}

/// Each of the grids has one sample in each column of each row.
fn all_are_full(grids: &[AlignedGrid<i32>])
    ensures { All IsFull grids.now }
{
    for grid in grids {
        let _columns = grid.width();
    }
}

/// Encodes the picture, and decodes the file: to what the picture shows.
fn encoded_and_decoded(
    alloc: Global,
    picture: &Picture,
    shown: &Picture,
    effort: Effort,
    limits: &Limits,
) -> Result<Picture, RoundTripError>
    requires whole { IsWhole (image_of picture.now.header) picture.now.channels.items }
    requires codable { IsCodable picture.now }
    requires shows { IsShownAs picture.now shown.now }
    requires allowed { AllowFile limits.now (image_of shown.now.header) (bytes_if shown.now.profile) }
    ensures same { IfOk result (IsSamePicture shown.now) }
    ensures large { IsTooLarge picture.now → result ≡ Err (RoundTripError.Encode TooLarge) }
    ensures err { IfErr result (RoundTripFails picture.now shown.now) }
{
    let file = encode_lossless(alloc, picture, effort)?;
    a_file_has_one_picture();
    a_file_with_a_picture_is_decoded();
    match decode_lossless(alloc, &file, limits, &mut Steps::new()) {
        Ok(decoded) => Ok(decoded),
        Err(error) => Err(RoundTripError::Decode(error)),
    }
}

/// Encodes a picture by [`encode_lossless`], decodes the file by [`decode_lossless`], and returns what the picture
/// shows by the orientation in its header, as `shown` does: the same header, the same samples, the same profile,
/// whatever the effort.
///
/// # Errors
///
/// Those of [`encode_lossless`]; and of the decoder out of memory, or a file of 2^61 bytes or more.
pub fn encode_and_decode_shown(
    alloc: Global,
    picture: &Picture,
    shown: &Picture,
    effort: Effort,
    limits: &Limits,
) -> Result<Picture, RoundTripError>
    requires whole { IsWhole (image_of picture.now.header) picture.now.channels.items }
    requires codable { IsCodable picture.now }
    requires shows { IsShownAs picture.now shown.now }
    requires allowed { AllowFile limits.now (image_of shown.now.header) (bytes_if shown.now.profile) }
    ensures same { IfOk result (IsSamePicture shown.now) }
    ensures channels { IfOk result (λ p. p.channels.items ≡ shown.now.channels.items) }
    ensures large { IsTooLarge picture.now → result ≡ Err (RoundTripError.Encode TooLarge) }
    ensures err { IfErr result (RoundTripFails picture.now shown.now) }
{
    let decoded = encoded_and_decoded(alloc, picture, shown, effort, limits)?;
    all_are_full(&shown.channels);
    all_are_full(&decoded.channels);
    same_channels_are_equal();
    Ok(decoded)
}

/// Encodes an upright picture by [`encode_lossless`], decodes the file by [`decode_lossless`], and returns the picture:
/// the same header, the same samples, the same profile, whatever the effort.
///
/// # Errors
///
/// Those of [`encode_lossless`]; and of the decoder out of memory, or a file of 2^61 bytes or more.
pub fn encode_and_decode(
    alloc: Global,
    picture: &Picture,
    effort: Effort,
    limits: &Limits,
) -> Result<Picture, RoundTripError>
    requires whole { IsWhole (image_of picture.now.header) picture.now.channels.items }
    requires codable { IsCodable picture.now }
    requires upright { picture.now.header.orientation ≡ 1 }
    requires allowed { AllowFile limits.now (image_of picture.now.header) (bytes_if picture.now.profile) }
    ensures same { IfOk result (IsSamePicture picture.now) }
    ensures channels { IfOk result (λ p. p.channels.items ≡ picture.now.channels.items) }
    ensures large { IsTooLarge picture.now → result ≡ Err (RoundTripError.Encode TooLarge) }
    ensures err { IfErr result (RoundTripFails picture.now picture.now) }
{
    encode_and_decode_shown(alloc, picture, picture, effort, limits)
}
