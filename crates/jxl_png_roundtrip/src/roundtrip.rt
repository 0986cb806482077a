//! Pictures as PNG files, and back.

ghost use Rattle.std.specs.Prelude.{◌≡◌, IfErr, IfOk, true};
ghost use Rattle.std.specs.Option.{option_copied};
ghost use Rattle.jxl_image_header.specs.Images.{image_of};
ghost use Rattle.jxl_picture.specs.Pictures.{IsWhole};
ghost use Rattle.jxl_png_metadata.specs.Data.{items_if};
ghost use Rattle.jxl_png_metadata.specs.Texts.{unless_empty};
ghost use Rattle.jxl_png_read.specs.declared.error.ReadError.TheVariants as errors;
ghost use Rattle.jxl_png_roundtrip.specs.RoundTrips.{FailsToReadBack, IsReadBack};
ghost use Rattle.jxl_png_write.specs.Headers.{suits_png};
ghost use Rattle.jxl_png_write.specs.Pictures.{IsPngFileOf};

use jxl_picture::limits::Limits;
use jxl_picture::picture::Picture;
use jxl_png_read::error::ReadError;
use jxl_png_read::file::{PngImage, read_png};
use jxl_png_read::laws::png_files_have_one_picture;
use jxl_png_write::picture::png_file;
use std::alloc::Global;

// The PNG file of a picture, with an error of the reader.
fn file_of(
    alloc: Global,
    picture: &Picture,
    exif: Option<&[u8]>,
    xmp: Option<&[u8]>,
) -> Result<Vec<u8>, ReadError>
    requires whole { IsWhole (image_of picture.now.header) picture.now.channels.items }
    requires suits { suits_png (image_of picture.now.header) ≡ true }
    ensures ok { IfOk result (λ v. IsPngFileOf (image_of picture.now.header) picture.now.channels.items
        (unless_empty (items_if picture.now.profile)) (option_copied exif.entry)
        (option_copied xmp.entry) v.items) }
    ensures err { IfErr result (λ e. e ≡ errors.OutOfMemory) }
{
    match png_file(alloc, picture, exif, xmp) {
        Ok(file) => Ok(file),
        Err(_) => Err(ReadError::OutOfMemory),
    }
}

/// A picture after a round trip: its PNG file is written, with Exif and XMP data if present, and read within these
/// limits.
///
/// It has the channels that the file holds, in the depth of the file, the same profile, Exif and XMP data, and the
/// colours that the chunks of the file describe.
///
/// # Errors
///
/// Those of `read_png` for this file; `OutOfMemory`.
#[tactic(auto, using(crate::proofs::ReadBack::read_back, crate::proofs::ReadBack::write_fails, crate::proofs::ReadBack::read_fails))]
pub fn round_trip(
    alloc: Global,
    picture: &Picture,
    exif: Option<&[u8]>,
    xmp: Option<&[u8]>,
    limits: &Limits,
) -> Result<PngImage, ReadError>
    requires whole { IsWhole (image_of picture.now.header) picture.now.channels.items }
    requires suits { suits_png (image_of picture.now.header) ≡ true }
    ensures ok { IfOk result (λ p. IsReadBack (image_of picture.now.header) picture.now.channels.items
        (unless_empty (items_if picture.now.profile)) (option_copied exif.entry) (option_copied xmp.entry)
        (image_of p.picture.header) p.picture.channels.items (items_if p.picture.profile) (items_if p.exif)
        (items_if p.xmp)) }
    ensures err { IfErr result (FailsToReadBack limits.now (image_of picture.now.header) picture.now.channels.items
        (unless_empty (items_if picture.now.profile)) (option_copied exif.entry) (option_copied xmp.entry)) }
{
    png_files_have_one_picture();
    let file = file_of(alloc, picture, exif, xmp)?;
    let image = read_png(alloc, &file, limits)?;
    Ok(image)
}
