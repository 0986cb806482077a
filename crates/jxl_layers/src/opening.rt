//! What comes before the frames: the image header and the profile.

ghost use Rattle.std.specs.Prelude.{◌≡◌, IfErr, IfOk};
ghost use Rattle.jxlm_bits.specs.Bits.{bytes_of, position_of};
ghost use Rattle.jxl_image_header.specs.Images.{image_of};
ghost use Rattle.jxl_codestream.specs.FrontParts.{bytes_if};

use crate::refusal::animation_refusal;
use jxl_codestream::error::FrontError;
use jxl_codestream::front::{byte_of, read_between};
use jxl_coding::decoder::EntropyDecoder;
use jxl_image_header::image::ImageHeader;
use jxl_picture::limits::Limits;
use jxlm_bits::bits::Bitstream;
use std::alloc::Global;

/// What comes before the frames: the image header, the profile, if there is one, and the byte where the first frame begins.
#[derive(Drop)]
pub struct Opening {
    pub image: ImageHeader,
    pub profile: Option<Vec<u8>>,
    pub start: usize,
}

impl Opening {
    ghost use Rattle.jxl_layers.specs.Openings.{ImageGoesOn, IsReadyOpening, Opens, OpeningFails};

    // The image header, of an image that is supported and within the limits.
    fn read_image(
        alloc: Global,
        bits: &mut Bitstream<'_>,
        limits: &Limits,
    ) -> Result<ImageHeader, FrontError>
        requires begin { position_of bits.old ≡ 0 }
        ensures ok { IfOk result (λ i. ImageGoesOn limits.now (bytes_of bits.old) (image_of i) (position_of bits.new)) }
        ensures err { IfErr result (OpeningFails limits.now (bytes_of bits.old)) }
        ensures bytes { bytes_of bits.new ≡ bytes_of bits.old }
    {
        let mut image = match ImageHeader::parse(alloc, bits) {
            Ok(image) => image,
            Err(error) => return Err(FrontError::ImageHeader(error)),
        };
        if let Some(refusal) = animation_refusal(&mut image) {
            return Err(FrontError::Image(refusal));
        }
        if !limits.allow(&image) {
            return Err(FrontError::TooLarge);
        }
        Ok(image)
    }

    /// Reads what comes before the frames of a codestream.
    pub fn read(alloc: Global, bytes: &[u8], limits: &Limits) -> Result<Opening, FrontError>
        ensures ok { IfOk result (λ o. Opens limits.now bytes.now (image_of o.image) (bytes_if o.profile) o.start) }
        ensures ready { IfOk result (IsReadyOpening bytes.now) }
        ensures err { IfErr result (OpeningFails limits.now bytes.now) }
    {
        if bytes.len() >= 1 << 61 {
            return Err(FrontError::TooLong);
        }
        let mut bits = Bitstream::new(bytes);
        let image = Opening::read_image(alloc, &mut bits, limits)?;
        let there = image.colour_encoding.want_icc;
        match read_between::<EntropyDecoder>(alloc, &mut bits, there, limits.profile) {
            Ok(profile) => Ok(Opening {
                image,
                profile,
                start: byte_of(&bits),
            }),
            Err(error) => Err(FrontError::Profile(error)),
        }
    }
}
