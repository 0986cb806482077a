//! A file, which is read once, and its picture.

ghost use Rattle.std.specs.Prelude.{◌≡◌, List, ℕ, true, IfErr, IfOk, None};
ghost use Rattle.std.specs.Option.{option_copied};
ghost use Rattle.jxl_coding.specs.Parse.{decoder_at};
ghost use Rattle.jxl_coding.specs.Tokens.{entropy};
ghost use Rattle.jxl_image_header.specs.Images.{image_of};
ghost use Rattle.jxl_picture.specs.Pictures.{IsWhole};
ghost use Rattle.jxl_lossless.specs.Pictures.{FileFails, IsPictureOfFile};

use crate::error::FileError;
use crate::picture::decode_codestream;
use jxl_codestream::error::FrontError;
use jxl_codestream::front::Front;
use jxl_coding::decoder::EntropyDecoder;
use jxl_container::codestream::{Codestream, find_codestream};
use jxl_container::error::FileError as BoxError;
use jxl_container::metadata::{find_exif, find_xmp};
use jxl_image_header::image::ImageHeader;
use jxl_modular::sections::Progress;
use jxl_picture::limits::Limits;
use jxl_picture::picture::Picture;
use jxlm_tree::flat::Steps;
use std::alloc::Global;

/// A JPEG XL file that was read up to the sections of its frames: the codestream, and the first error of the boxes after
/// it; Exif and XMP data; the image header, and the profile, the headers and tables of contents of the frames, or why these
/// are not decoded.
#[derive(Drop)]
pub struct JxlFile<'a> {
    stream: Codestream<'a>,
    later_error: Option<BoxError>,
    exif: Option<&'a [u8]>,
    xmp: Option<&'a [u8]>,
    front: Front,
}

impl<'a> JxlFile<'a> {
    ghost use Rattle.jxl_picture.specs.declared.limits.Limits.{Limits as TheLimits};
    ghost use Rattle.jxl_lossless.specs.Files.{IsReadOf, IsReadyFile, exif_of, header_of, is_before_frames, later_error_of, profile_of, reason_of, upright, xmp_of};
    ghost use Rattle.jxl_lossless.specs.Pictures.{ProfileOfFile};
    ghost use Rattle.jxl_codestream.specs.FrontParts.{bytes_if};

    /// Reads a file, bare or in boxes, up to the sections of its frames. No sample is decoded, and no memory is taken for
    /// samples.
    ///
    /// # Errors
    ///
    /// Those of the boxes up to the end of the codestream, or of the image header
    /// ([`Front::read`](jxl_codestream::front::Front::read)): what is wrong with the frames, or not supported, is the
    /// file's [`reason`](JxlFile::reason), and what is wrong with the boxes after the codestream its
    /// [`later_error`](JxlFile::later_error).
    pub fn read(alloc: Global, file: &'a [u8], limits: &Limits) -> Result<JxlFile<'a>, FileError>
        ensures ok { IfOk result (IsReadOf limits.now file.now) }
        ensures ready { IfOk result IsReadyFile }
        ensures err { IfErr result (FileFails limits.now file.now) }
        ensures first { IfErr result (λ e. is_before_frames e ≡ true) }
    {
        match find_codestream(alloc, file) {
            Ok(found) => {
                match Front::read::<EntropyDecoder>(alloc, found.codestream.bytes(), limits) {
                    Ok(front) => Ok(JxlFile {
                        stream: found.codestream,
                        later_error: found.later_error,
                        exif: find_exif(file),
                        xmp: find_xmp(file),
                        front,
                    }),
                    Err(error) => Err(FileError::Front(error)),
                }
            }
            Err(error) => Err(FileError::File(error)),
        }
    }

    /// The image header.
    pub fn header(&self) -> &ImageHeader
        ensures { result.now ≡ header_of self.now }
    {
        &self.front.image
    }

    /// Why the file is not decoded, as far as it was read: the first reason in the order of the bits, or none.
    pub fn reason(&self) -> Option<FrontError>
        ensures { result ≡ reason_of self.now }
    {
        match &self.front.frames {
            Ok(_) => None,
            Err(error) => Some(*error),
        }
    }

    /// The first error of the boxes after the codestream, if there is one. The picture is decoded whatever they hold.
    pub fn later_error(&self) -> Option<BoxError>
        ensures { result ≡ later_error_of self.now }
    {
        self.later_error
    }

    /// The ICC profile of the file, if it has one; none if there is a [`reason`](JxlFile::reason).
    pub fn profile(&self) -> Option<&[u8]>
        ensures { option_copied result ≡ profile_of self.now }
    {
        match &self.front.profile {
            Some(profile) => Some(profile),
            None => None,
        }
    }

    /// The ICC profile of the file, if it has one; none if there is a [`reason`](JxlFile::reason).
    pub fn into_profile(self) -> Option<Vec<u8>>
        ensures is { bytes_if result ≡ profile_of self.entry }
        ensures of_file { (limits : TheLimits) (file : List ℕ) → IsReadOf limits file self.entry
            → reason_of self.entry ≡ None → ProfileOfFile limits file (bytes_if result) }
    {
        let JxlFile { front, .. } = self;
        let Front { profile, .. } = front;
        profile
    }

    /// The Exif data of the file, if it has some: from the TIFF header on, unless the offset before it says otherwise.
    pub fn exif(&self) -> Option<&'a [u8]>
        ensures { option_copied result ≡ exif_of self.now }
    {
        self.exif
    }

    /// The XMP data of the file, if it has some.
    pub fn xmp(&self) -> Option<&'a [u8]>
        ensures { option_copied result ≡ xmp_of self.now }
    {
        self.xmp
    }

    /// The picture of the file, as [`decode_lossless_with`] gives it: by whichever limits it was read. Its header is the
    /// file's, but with the sides of what is shown, and orientation 1.
    pub fn decode<P: Progress>(
        self,
        alloc: Global,
        steps: &mut Steps,
        progress: &mut P,
    ) -> Result<Picture, FileError>
        requires ready { IsReadyFile self }
        ensures picture { (limits : TheLimits) (file : List ℕ) → IsReadOf limits file self.entry
            → IfOk result (λ p. IsPictureOfFile limits file p steps.old steps.new) }
        ensures header { IfOk result (λ p. image_of p.header ≡ upright (image_of (header_of self.entry))) }
        ensures whole { IfOk result (λ p. IsWhole (image_of p.header) p.channels.items) }
        ensures err { (limits : TheLimits) (file : List ℕ) → IsReadOf limits file self.entry
            → IfErr result (FileFails limits file) }
    {
        let JxlFile { stream, front, .. } = self;
        let Front {
            image,
            profile,
            frames,
        } = front;
        let frames = match frames {
            Ok(frames) => frames,
            Err(error) => return Err(FileError::Front(error)),
        };
        decode_codestream(
            alloc,
            stream.bytes(),
            image,
            profile,
            &frames,
            steps,
            progress,
        )
    }
}

/// The picture of a JPEG XL file: a lossless still picture of one frame, bare or in boxes, which frames may stand before
/// that are saved for others and not shown.
///
/// It has the samples that were coded, of which no decoder can make others: the file is a codestream, or boxes that
/// hold one; image header, frame headers and tables of contents stand at its bits; each section lies where the table
/// says; and the channels are the only ones that the transforms turn into the samples that the sections code, read by
/// the entropy decoder with the indices of their streams. They are shown upright: mirrored or turned as the image header
/// says. The picture has the profile of the file. An extra channel with a shift has the sides that it was coded with: nothing is upsampled. The picture's header
/// is that of the file, but that it has the size of what is shown, and orientation 1. Of each frame's trees, `steps`
/// counts at most the depth and one more for each sample.
///
/// # Errors
///
/// The first in the order of the bits, but that what is not supported comes before what is wrong with samples, and by
/// its name (docs/FILES.md); and `OutOfMemory` at any time. Nothing is left behind. Sizes are compared with the limits
/// before memory is taken for samples. What is wrong with boxes after the codestream is no error here:
/// [`JxlFile::later_error`] returns it.
pub fn decode_lossless(
    alloc: Global,
    file: &[u8],
    limits: &Limits,
    steps: &mut Steps,
) -> Result<Picture, FileError>
    ensures picture { IfOk result (λ p. IsPictureOfFile limits.now file.now p steps.old steps.new) }
    ensures whole { IfOk result (λ p. IsWhole (image_of p.header) p.channels.items) }
    ensures err { IfErr result (FileFails limits.now file.now) }
{
    decode_lossless_with(alloc, file, limits, steps, &mut ())
}

/// The picture of a JPEG XL file, as [`decode_lossless`] gives it; `progress` is called after each section of a frame.
pub fn decode_lossless_with<P: Progress>(
    alloc: Global,
    file: &[u8],
    limits: &Limits,
    steps: &mut Steps,
    progress: &mut P,
) -> Result<Picture, FileError>
    ensures picture { IfOk result (λ p. IsPictureOfFile limits.now file.now p steps.old steps.new) }
    ensures whole { IfOk result (λ p. IsWhole (image_of p.header) p.channels.items) }
    ensures err { IfErr result (FileFails limits.now file.now) }
{
    let read = JxlFile::read(alloc, file, limits)?;
    read.decode(alloc, steps, progress)
}
