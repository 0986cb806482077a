//! A file of a picture: a codestream, or boxes with one.

ghost use Rattle.std.specs.Prelude.{◌≡◌, Err, IfErr, IfOk};
ghost use Rattle.std.specs.Option.{option_map};
ghost use Rattle.jxl_image_header.specs.Images.{image_of};
ghost use Rattle.jxl_picture.specs.Pictures.{IsWhole};
ghost use Rattle.jxl_encode.specs.Codable.{IsCodable};
ghost use Rattle.jxl_encode.specs.Errors.{EncodeFails, IsTooLarge};
ghost use Rattle.jxl_encode.specs.Files.{IsCodingOf, IsWrittenFile};
ghost use Rattle.jxl_encode.specs.Ways.{HasShortest};

use crate::choice::encode_codestream;
use crate::effort::Effort;
use crate::error::EncodeError;
use crate::large::is_too_large;
use crate::level::{is_boxed, level_of};
use crate::progress::Progress;
use jxl_container_write::container::write_container;
use jxl_picture::picture::Picture;
use std::alloc::Global;

/// A lossless .jxl file of the picture: [`encode_with`] without Exif and XMP data, with the same errors.
pub fn encode_lossless(
    alloc: Global,
    picture: &Picture,
    effort: Effort,
) -> Result<Vec<u8>, EncodeError>
    requires whole { IsWhole (image_of picture.now.header) picture.now.channels.items }
    requires codable { IsCodable picture.now }
    ensures picture { IfOk result (λ v. IsCodingOf picture.now v.items) }
    ensures large { IsTooLarge picture.now → result ≡ Err (EncodeError.TooLarge) }
    ensures err { IfErr result (EncodeFails picture.now) }
{
    encode_with(alloc, picture, effort, false, None, None)
}

/// A lossless .jxl file of the picture, which is whole and can be coded (`is_codable`), with these Exif and XMP data,
/// if present: the Exif data from the TIFF header on. `decode_lossless` returns the picture, mirrored or turned as the
/// orientation in its header says, within all limits that allow it, its profile with 16 bytes more, 128 decisions for a
/// sample, and 2^26 codewords. The file is a codestream, or boxes with one: if `boxed` says so, if there are such data,
/// or if level 5 does not hold the picture with its profile.
///
/// # Errors
///
/// `TooLarge` if the picture has 2^31 samples or more, if its frame would have more than 16,777,216 sections, or if one of
/// these would have 2^30 + 4,211,712 bytes or more, in a picture of 2^27 samples or more. Else `OutOfMemory`.
pub fn encode_with(
    alloc: Global,
    picture: &Picture,
    effort: Effort,
    boxed: bool,
    exif: Option<&[u8]>,
    xmp: Option<&[u8]>,
) -> Result<Vec<u8>, EncodeError>
    requires whole { IsWhole (image_of picture.now.header) picture.now.channels.items }
    requires codable { IsCodable picture.now }
    ensures picture { IfOk result (λ v. IsCodingOf picture.now v.items) }
    ensures written { IfOk result (λ v. IsWrittenFile picture.now boxed (option_map (λ s. s.now) exif.entry)
        (option_map (λ s. s.now) xmp.entry) v.items) }
    ensures large { IsTooLarge picture.now → result ≡ Err (EncodeError.TooLarge) }
    ensures err { IfErr result (EncodeFails picture.now) }
{
    encode_with_progress(alloc, picture, effort, boxed, exif, xmp, &mut ())
}

/// The file of [`encode_with`], with the same errors. `progress` hears of each way to code the picture that was tried, after
/// that, and the file has the shortest codestream of these.
pub fn encode_with_progress<P: Progress>(
    alloc: Global,
    picture: &Picture,
    effort: Effort,
    boxed: bool,
    exif: Option<&[u8]>,
    xmp: Option<&[u8]>,
    progress: &mut P,
) -> Result<Vec<u8>, EncodeError>
    requires whole { IsWhole (image_of picture.now.header) picture.now.channels.items }
    requires codable { IsCodable picture.now }
    ensures picture { IfOk result (λ v. IsCodingOf picture.now v.items) }
    ensures written { IfOk result (λ v. IsWrittenFile picture.now boxed (option_map (λ s. s.now) exif.entry)
        (option_map (λ s. s.now) xmp.entry) v.items) }
    ensures shortest { IfOk result (λ v. HasShortest picture.now P.way_tried_gives progress.old progress.new v.items) }
    ensures large { IsTooLarge picture.now → result ≡ Err (EncodeError.TooLarge) }
    ensures err { IfErr result (EncodeFails picture.now) }
{
    if is_too_large(picture) {
        return Err(EncodeError::TooLarge);
    }
    let codestream = encode_codestream(alloc, picture, effort, progress)?;
    if !is_boxed(picture, boxed, exif, xmp) {
        return Ok(codestream);
    }
    let level = level_of(picture);
    let file = write_container(alloc, &codestream, level, exif, xmp)?;
    Ok(file)
}
