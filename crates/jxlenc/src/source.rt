//! The picture that the input is.

ghost use Rattle.std.specs.Prelude.{None, IfErr, IfOk};
ghost use Rattle.jxl_codestream.specs.FrontParts.{bytes_if};
ghost use Rattle.jxl_encode.specs.Codable.{IsCodable};
ghost use Rattle.jxl_image_header.specs.Images.{image_of};
ghost use Rattle.jxl_picture.specs.Pictures.{IsWhole};
ghost use Rattle.jxl_png_read.specs.Files.{IsErrorOf};
ghost use Rattle.jxl_png.specs.declared.error.PngError.TheVariants.{Signature};
ghost use Rattle.jxl_png_read.specs.declared.error.ReadError.TheVariants.{Png};
ghost use Rattle.jxlenc.specs.Encodings.{IsReadEnough, IsSource, PictureFails, ReadingFails, usual_limits};

use crate::failures::Failure;
use jxl_command::input::InputStream;
use jxl_netpbm_read::error::NetpbmError;
use jxl_netpbm_read::picture::read_netpbm;
use jxl_picture::limits::Limits;
use jxl_picture::picture::Picture;
use jxl_png::error::PngError;
use jxl_png_read::error::ReadError;
use jxl_png_read::file::read_png;
use std::alloc::Global;

/// How many bytes of an input are read first.
const START: usize = 1 << 16;

/// A picture that was read, and the Exif and XMP data of its file.
#[derive(Drop)]
pub struct Source {
    pub picture: Picture,
    pub exif: Option<Vec<u8>>,
    pub xmp: Option<Vec<u8>>,
}

// The picture of a netpbm file, which has not the signature of a PNG file. Each that is read can be coded.
fn netpbm_source(alloc: Global, input: &[u8]) -> Result<Source, Failure>
    requires { IsErrorOf usual_limits input.now (Png Signature) }
    ensures source { IfOk result (λ s. IsSource input.now (image_of s.picture.header) s.picture.channels.items
        (bytes_if s.picture.profile) (bytes_if s.exif) (bytes_if s.xmp)) }
    ensures whole { IfOk result (λ s. IsWhole (image_of s.picture.header) s.picture.channels.items) }
    ensures codable { IfOk result (λ s. IsCodable s.picture) }
    ensures err { IfErr result (PictureFails input.now) }
{
    match read_netpbm(alloc, input) {
        Ok(picture) => Ok(Source {
            picture,
            exif: None,
            xmp: None,
        }),
        Err(error) => Err(Failure::Picture(error)),
    }
}

// The picture of an input that is no PNG file, by this error: a netpbm file, if it has not the signature of one.
fn unless_png(alloc: Global, input: &[u8], error: ReadError) -> Result<Source, Failure>
    requires { IsErrorOf usual_limits input.now error }
    ensures source { IfOk result (λ s. IsSource input.now (image_of s.picture.header) s.picture.channels.items
        (bytes_if s.picture.profile) (bytes_if s.exif) (bytes_if s.xmp)) }
    ensures whole { IfOk result (λ s. IsWhole (image_of s.picture.header) s.picture.channels.items) }
    ensures codable { IfOk result (λ s. IsCodable s.picture) }
    ensures err { IfErr result (PictureFails input.now) }
{
    match error {
        ReadError::Png(PngError::Signature) => netpbm_source(alloc, input),
        _ => Err(Failure::Png(error)),
    }
}

// The picture of an input: a PNG file if it has the signature of one, else a netpbm file. Each that is read can be coded.
fn source_of_input(alloc: Global, input: &[u8]) -> Result<Source, Failure>
    ensures source { IfOk result (λ s. IsSource input.now (image_of s.picture.header) s.picture.channels.items
        (bytes_if s.picture.profile) (bytes_if s.exif) (bytes_if s.xmp)) }
    ensures whole { IfOk result (λ s. IsWhole (image_of s.picture.header) s.picture.channels.items) }
    ensures codable { IfOk result (λ s. IsCodable s.picture) }
    ensures err { IfErr result (PictureFails input.now) }
{
    match read_png(alloc, input, &Limits::usual()) {
        Ok(image) => Ok(Source {
            picture: image.picture,
            exif: image.exif,
            xmp: image.xmp,
        }),
        Err(error) => unless_png(alloc, input, error),
    }
}

/// Reads the picture of an input, as PNG or netpbm files have it. Of an input that begins otherwise, or that has the picture
/// in its first 65,536 bytes, no more is read.
pub fn read_source<R: InputStream>(alloc: Global, input: &mut R) -> Result<Source, Failure>
    ensures source { IfOk result (λ s. IsReadEnough (R.remaining input.old) (R.remaining input.new) (λ file. IsSource file
        (image_of s.picture.header) s.picture.channels.items (bytes_if s.picture.profile) (bytes_if s.exif)
        (bytes_if s.xmp))) }
    ensures whole { IfOk result (λ s. IsWhole (image_of s.picture.header) s.picture.channels.items) }
    ensures codable { IfOk result (λ s. IsCodable s.picture) }
    ensures err { IfErr result (ReadingFails (R.fails_by input.new) (R.remaining input.old) (R.remaining input.new)) }
{
    let start = match input.read_start(alloc, START) {
        Ok(bytes) => bytes,
        Err(error) => return Err(Failure::Unreadable(error)),
    };
    match source_of_input(alloc, &start) {
        Ok(source) => return Ok(source),
        Err(Failure::Picture(NetpbmError::Magic)) => {
            return Err(Failure::Picture(NetpbmError::Magic));
        }
        Err(failure) => {
            if start.len() < START {
                return Err(failure);
            }
        }
    }
    match input.read_on(start) {
        Ok(bytes) => source_of_input(alloc, &bytes),
        Err(error) => Err(Failure::Unreadable(error)),
    }
}
