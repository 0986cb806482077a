//! The headers of a file.

ghost use Rattle.std.specs.Prelude.{◌≡◌, IfErr, IfOk};
ghost use Rattle.jxl_container.specs.Files.{HasLaterError};
ghost use Rattle.jxl_image_header.specs.Images.{image_of};
ghost use Rattle.jxl_codestream.specs.Fronts.{FrontFails};
ghost use Rattle.jxl_info.specs.Reasons.{is_refusal as the_is_refusal};
ghost use Rattle.jxl_info.specs.Headers.{HeadersFail, HeadersOfFile, HeadersStand, is_boxed as the_is_boxed};

use crate::reasons::is_refusal;
use jxl_codestream::error::FrontError;
use jxl_codestream::front::Front;
use jxl_container::codestream::find_codestream;
use jxl_container::error::FileError;
use jxl_image_header::image::ImageHeader;
use jxl_picture::limits::Limits;
use jxlm_bits::decoder::Decoder;
use std::alloc::Global;

/// What the headers of a file tell.
#[derive(Drop)]
pub struct Headers {
    /// The image header.
    pub image: ImageHeader,
    /// Why the file is not decoded; none where all that comes before the sections of its frames is supported.
    pub reason: Option<FrontError>,
    /// The first error of the boxes after the codestream, if there is one.
    pub later_error: Option<FileError>,
}

/// Why the headers of a file cannot be told.
#[derive(Clone, Copy)]
pub enum HeadersError {
    /// The file has no codestream that is read.
    File(FileError),
    /// What comes before the sections of the frames has this error.
    Front(FrontError),
}

/// Whether a file has boxes: it does not begin as a codestream.
pub fn is_boxed(file: &[u8]) -> bool
    ensures { result ≡ the_is_boxed file.now }
{
    !file.starts_with(&[255, 10])
}

// The image header of a codestream, and why it is not decoded.
fn read_codestream<D: Decoder>(
    alloc: Global,
    bytes: &[u8],
    limits: &Limits,
) -> Result<(ImageHeader, Option<FrontError>), FrontError>
    ensures ok { IfOk result (λ h. HeadersStand D.meaning limits.now bytes.now (image_of h.0) h.1) }
    ensures err { IfErr result (FrontFails D.meaning limits.now bytes.now) }
{
    match Front::read::<D>(alloc, bytes, limits) {
        Ok(front) => {
            let image = front.image;
            match front.frames {
                Ok(_) => Ok((image, None)),
                Err(error) => {
                    if is_refusal(error) {
                        Ok((image, Some(error)))
                    } else {
                        Err(error)
                    }
                }
            }
        }
        Err(error) => Err(error),
    }
}

impl Headers {
    /// The headers of a file, bare or in boxes, and why it is not decoded, as far as they tell; no sample is decoded,
    /// and no memory is taken for samples. What is coded is read by any decoder.
    ///
    /// # Errors
    ///
    /// The first reason in the order of the bits why the headers do not stand: of the boxes, of the image header, the
    /// profile, a frame header or a table of contents. Where a header says what is not supported, those after it are not
    /// looked at. Or it is out of memory, within any of these.
    pub fn read<D: Decoder>(
        alloc: Global,
        file: &[u8],
        limits: &Limits,
    ) -> Result<Headers, HeadersError>
        ensures ok { IfOk result (λ h. HeadersOfFile D.meaning limits.now file.now (image_of h.image) h.reason) }
        ensures later { IfOk result (λ h. HasLaterError file.now h.later_error) }
        ensures err { IfErr result (HeadersFail D.meaning limits.now file.now) }
    {
        match find_codestream(alloc, file) {
            Ok(found) => match read_codestream::<D>(alloc, found.codestream.bytes(), limits) {
                Ok((image, reason)) => Ok(Headers {
                    image,
                    reason,
                    later_error: found.later_error,
                }),
                Err(error) => Err(HeadersError::Front(error)),
            },
            Err(error) => Err(HeadersError::File(error)),
        }
    }
}
