//! What comes before the sections of the frames.

ghost use Rattle.std.specs.Prelude.{◌≡◌, ℕ, ◌*◌, ◌/◌, ◌<◌, ◌^◌, ◌≤◌, [], IfErr, IfOk, OnOk, length, true};
ghost use Rattle.jxlm_bits.specs.Bits.{bytes_of, position_of};
ghost use Rattle.jxl_image_header.specs.Images.{image_header, image_of};
ghost use Rattle.jxl_codestream.specs.Reading.{Decodes};
ghost use Rattle.jxl_picture.specs.Limits.{Allow};
ghost use Rattle.jxl_codestream.specs.Fronts.{AreBefore, FrontFails, HasProfile, StandsAt, between, profile_if};
ghost use Rattle.jxl_codestream.specs.FrontParts.{bytes_if};

use crate::error::FrontError;
use crate::frame::FrameFront;
use crate::profile::read_profile;
use jxl_image_header::fields::align;
use jxl_image_header::image::ImageHeader;
use jxl_picture::limits::Limits;
use jxlm_base::grid::OutOfMemory;
use jxlm_bits::bits::Bitstream;
use jxlm_bits::decoder::Decoder;
use jxlm_bits::error::Error;
use std::alloc::Global;

/// The frames of a codestream, before their sections.
#[derive(Drop)]
pub struct Frames {
    /// The frames that are saved for others, in their order.
    pub saved: Vec<FrameFront>,
    /// The frame that is shown.
    pub shown: FrameFront,
}

/// What a codestream has before the sections of its frames.
#[derive(Drop)]
pub struct Front {
    /// The image header.
    pub image: ImageHeader,
    /// The profile that says what colours mean, if the image header asks for one; none if the frames are not decoded.
    pub profile: Option<Vec<u8>>,
    /// The frames, or why they are not decoded.
    pub frames: Result<Frames, FrontError>,
}

// The profile, if there is one.
fn read_profile_if<D: Decoder>(
    alloc: Global,
    bits: &mut Bitstream<'_>,
    there: bool,
    limit: u64,
) -> Result<Option<Vec<u8>>, Error>
    ensures gives { Decodes bytes_if result (position_of bits.new)
        ((profile_if D.meaning limit there).read (bytes_of bits.old) (position_of bits.old)) }
    ensures bytes { bytes_of bits.new ≡ bytes_of bits.old }
{
    if !there {
        return Ok(None);
    }
    let icc = read_profile::<D>(alloc, bits, limit)?;
    Ok(Some(icc))
}

/// The profile, if there is one, after which the bits up to the next byte are passed.
pub fn read_between<D: Decoder>(
    alloc: Global,
    bits: &mut Bitstream<'_>,
    there: bool,
    limit: u64,
) -> Result<Option<Vec<u8>>, Error>
    requires short { 8 * length (bytes_of bits.old) < 2 ^ 64 }
    ensures gives { Decodes bytes_if result (position_of bits.new)
        ((between D.meaning limit there).read (bytes_of bits.old) (position_of bits.old)) }
    ensures bytes { bytes_of bits.new ≡ bytes_of bits.old }
{
    let profile = read_profile_if::<D>(alloc, bits, there, limit)?;
    align(bits)?;
    Ok(profile)
}

// Reads what comes between the image header and the first frame, of a picture that is supported and within the limits: the
// profile, if there is one. The reader is at the end of that header.
fn read_to_frames<D: Decoder>(
    alloc: Global,
    bits: &mut Bitstream<'_>,
    limits: &Limits,
    image: &ImageHeader,
) -> Result<Option<Vec<u8>>, FrontError>
    requires header { StandsAt image_header (bytes_of bits.old) 0 (image_of image.now) (position_of bits.old) }
    requires short { 8 * length (bytes_of bits.old) < 2 ^ 64 }
    ensures ok { OnOk result (AreBefore D.meaning limits.now (bytes_of bits.old) (image_of image.now) []
        (position_of bits.new / 8) 0) }
    ensures profile { IfOk result (λ icc. HasProfile D.meaning limits.now (bytes_of bits.old) (image_of image.now)
        (bytes_if icc)) }
    ensures allowed { OnOk result (Allow limits.now (image_of image.now)) }
    ensures inside { position_of bits.new ≤ 8 * length (bytes_of bits.old) }
    ensures err { IfErr result (FrontFails D.meaning limits.now (bytes_of bits.old)) }
    ensures bytes { bytes_of bits.new ≡ bytes_of bits.old }
{
    if let Some(refusal) = image.refused() {
        return Err(FrontError::Image(refusal));
    }
    if !limits.allow(image) {
        return Err(FrontError::TooLarge);
    }
    match read_between::<D>(alloc, bits, image.colour_encoding.want_icc, limits.profile) {
        Ok(profile) => Ok(profile),
        Err(error) => Err(FrontError::Profile(error)),
    }
}

/// The byte where the reader stands.
pub fn byte_of(bits: &Bitstream<'_>) -> usize
    requires short { 8 * length (bytes_of bits.now) < 2 ^ 64 }
    ensures is { result ≡ position_of bits.now / 8 }
    ensures inside { result ≤ length (bytes_of bits.now) }
{
    (bits.position() / 8) as usize
}

impl Frames {
    ghost use Rattle.jxl_codestream.specs.FrontParts.{AreFramesOf, frame_at};

    // The frames of a codestream, from this byte on.
    fn read<D: Decoder>(
        alloc: Global,
        bytes: &[u8],
        limits: &Limits,
        image: &ImageHeader,
        begin: usize,
    ) -> Result<Frames, FrontError>
        requires begins { AreBefore D.meaning limits.now bytes.now (image_of image.now) [] begin 0 }
        requires allowed { Allow limits.now (image_of image.now) }
        requires short { 8 * length bytes.now < 2 ^ 64 }
        requires inside { begin ≤ length bytes.now }
        ensures ok { IfOk result (AreFramesOf D.meaning limits.now bytes.now image.now) }
        ensures err { IfErr result (FrontFails D.meaning limits.now bytes.now) }
    {
        let mut saved = Vec::new(alloc);
        let mut start = begin;
        let mut used = 0;
        for _ in 0..u64::MAX {
            let frame = FrameFront::read::<D>(alloc, bytes, limits, image, start, used)?;
            if !frame.header.is_saved() {
                return Ok(Frames {
                    saved,
                    shown: frame,
                });
            }
            used = frame.cells_with(image, used, limits.pixels);
            start = frame.end(bytes, image);
            if saved.push(frame).is_err() {
                break;
            }
        }
        Err(FrontError::FrameHeader(Error::from(OutOfMemory)))
    }

    // The profile, if there is one, and the frames of a codestream whose image header was read: the reader is at the end of
    // that header.
    fn after<D: Decoder>(
        alloc: Global,
        bytes: &[u8],
        mut bits: Bitstream<'_>,
        limits: &Limits,
        image: &ImageHeader,
    ) -> Result<(Option<Vec<u8>>, Frames), FrontError>
        requires lies { bytes_of bits ≡ bytes.now }
        requires header { StandsAt image_header (bytes_of bits) 0 (image_of image.now) (position_of bits) }
        requires short { 8 * length bytes.now < 2 ^ 64 }
        ensures ok { IfOk result (λ r. AreFramesOf D.meaning limits.now bytes.now image.now r.1) }
        ensures profile { IfOk result (λ r. HasProfile D.meaning limits.now bytes.now (image_of image.now)
            (bytes_if r.0)) }
        ensures err { IfErr result (FrontFails D.meaning limits.now bytes.now) }
    {
        let profile = read_to_frames::<D>(alloc, &mut bits, limits, image)?;
        let begin = byte_of(&bits);
        let frames = Frames::read::<D>(alloc, bytes, limits, image, begin)?;
        Ok((profile, frames))
    }
}

impl Front {
    ghost use Rattle.jxl_codestream.specs.FrontParts.{IsFrontOf, is_of_header};

    /// What comes before the sections of the frames: the image header, at the start of the bytes; the profile, if there
    /// is one; and of each frame its header and table of contents. Frames that are saved for others
    /// stand one after another, each followed by its sections, and after them the one that is shown, which is the last.
    /// Picture and frames are supported and within the limits, and all sections lie in the codestream; else the image
    /// header comes with the reason why the frames are not decoded. What is coded is read by any decoder.
    ///
    /// No memory is taken for samples: that of the lists of the headers, of the profile and its encoded bytes, 16 bytes for
    /// each section, and the decoder's.
    ///
    /// # Errors
    ///
    /// `TooLong`, or `ImageHeader` where the image header has an error or is out of memory. Those of the frames are in
    /// the result: the first in the order of the bits, as [`FrontError`] lists them; within a header its own errors come
    /// before what is not supported. Or it is out of memory, within `Profile`, `FrameHeader` or `Contents`.
    pub fn read<D: Decoder>(
        alloc: Global,
        bytes: &[u8],
        limits: &Limits,
    ) -> Result<Front, FrontError>
        ensures ok { IfOk result (IsFrontOf D.meaning limits.now bytes.now) }
        ensures err { IfErr result (FrontFails D.meaning limits.now bytes.now) }
        ensures first { IfErr result (λ e. is_of_header e ≡ true) }
    {
        if bytes.len() >= 1 << 61 {
            return Err(FrontError::TooLong);
        }
        let mut bits = Bitstream::new(bytes);
        match ImageHeader::parse(alloc, &mut bits) {
            Ok(image) => match Frames::after::<D>(alloc, bytes, bits, limits, &image) {
                Ok((profile, frames)) => Ok(Front {
                    image,
                    profile,
                    frames: Ok(frames),
                }),
                Err(error) => Ok(Front {
                    image,
                    profile: None,
                    frames: Err(error),
                }),
            },
            Err(error) => Err(FrontError::ImageHeader(error)),
        }
    }
}
