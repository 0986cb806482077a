//! The frame header.

ghost use Rattle.std.specs.Prelude.{◌≡◌, ◌<◌, ◌*◌, ◌==◌, not, [], IfOk, if◌then◌else◌, Some, None};
ghost use Rattle.std.specs.List.{list_any};
ghost use Rattle.jxlm_bits.specs.Grammar.{repeated, HasRead, Parses};
ghost use Rattle.jxl_image_header.specs.Fields.{when};
ghost use Rattle.jxl_image_header.specs.Images.{image_of};
ghost use Rattle.jxl_frame_header.specs.Passes.{IsPassCount};
ghost use Rattle.jxl_frame_header.specs.Codings.{factor};
ghost use Rattle.jxl_frame_header.specs.Frames.{frame_of, frame_header, has_extra_floats as the_has_extra_floats, has_floats as the_has_floats, has_shifts as the_has_shifts, frame_refusal, is_saved as the_is_saved, frame_size};
ghost use Rattle.jxl_frame_header.specs.declared.refusal.Refusal.TheVariants as refusals;

use crate::blending::{BlendingInfo, FrameBlending, FrameUse, read_infos_if};
use crate::coding::FrameCoding;
use crate::filter::RestorationFilter;
use crate::passes::{Passes, factors};
use crate::place::{Crop, FrameArea, lf_level};
use crate::refusal::Refusal;
use jxl_image_header::fields::{bundle_follows, extensions_if, name_if, number_if};
use jxl_image_header::image::ImageHeader;
use jxl_image_header::size::Size;
use jxlm_bits::bits::Bitstream;
use jxlm_bits::error::Result;
use std::alloc::Global;

/// What the headers say of a frame before its sections.
#[derive(Drop)]
pub struct FrameHeader {
    pub coding: FrameCoding,
    /// Of each extra channel, the frame's sides by this: 1, 2, 4 or 8, and further by the channel's own shift; none
    /// where the header says nothing, or low frequencies are those of another frame.
    pub ec_upsampling: Vec<u32>,
    /// The side of a group: 128, 256, 512 or 1024.
    pub group_dim: u32,
    pub passes: Passes,
    pub place: FrameArea,
    pub blending: FrameBlending,
    pub frame_use: FrameUse,
    /// How many bytes the frame's name has, at most 1071; they are passed.
    pub name_len: u32,
    pub restoration_filter: RestorationFilter,
    /// A bit for each extension that there is; what they hold is passed.
    pub extensions: u64,
}

// How much smaller than the picture each extra channel is coded, if the header signals it.
fn factors_if(
    alloc: Global,
    bits: &mut Bitstream<'_>,
    there: bool,
    extra: usize,
) -> Result<Vec<u32>>
    ensures { HasRead Parses (λ v. v.items) result bits.old bits.new (when there (repeated extra factor) []) }
{
    if there {
        factors(alloc, bits, extra)
    } else {
        Ok(Vec::new(alloc))
    }
}

// Whether an extra channel is coded smaller than the picture.
fn is_scaled(factors: &[u32]) -> bool
    ensures { result ≡ list_any (λ f. not (f == 1)) factors.now }
{
    factors.iter().any(|factor| *factor != 1)
}

fn factors_refused(factors: &[u32]) -> Option<Refusal>
    ensures { result ≡ (if list_any (λ f. not (f == 1)) factors.now then Some refusals.ExtraUpsampling else None) }
{
    if is_scaled(factors) {
        Some(Refusal::ExtraUpsampling)
    } else {
        None
    }
}

// Whether samples of an extra channel are floats.
fn has_extra_floats(image: &ImageHeader) -> bool
    ensures { result ≡ the_has_extra_floats (image_of image.now) }
{
    image
        .ec_info
        .iter()
        .any(|channel| channel.bit_depth.exp_bits != 0)
}

// Whether samples of colours or of an extra channel are floats.
fn has_floats(image: &ImageHeader) -> bool
    ensures { result ≡ the_has_floats (image_of image.now) }
{
    image.bit_depth.exp_bits != 0 || has_extra_floats(image)
}

// Whether an extra channel has a size of its own.
fn has_shifts(image: &ImageHeader) -> bool
    ensures { result ≡ the_has_shifts (image_of image.now) }
{
    image.ec_info.iter().any(|channel| channel.dim_shift != 0)
}

impl FrameHeader {
    /// The header of a frame of this image that stands at the reader's position, which is the start of a byte. What is
    /// not supported is read too, and `refused` names it. The reader is left where the table of contents begins.
    ///
    /// # Errors
    ///
    /// The first in the order of the bits: `UnexpectedEof` if the input is truncated, and `InvalidEnum` for
    /// passes that do not fit ([`Passes::parse`]), and for a mode of blending or an alpha channel that there is not.
    /// `Buffer` if it is out of memory, at extra channels or passes.
    #[tactic(auto, unfolding(crate::specs::Frames::frame_header))]
    pub fn parse(
        alloc: Global,
        bits: &mut Bitstream<'_>,
        image: &ImageHeader,
    ) -> Result<FrameHeader>
        ensures reads { HasRead Parses frame_of result bits.old bits.new (frame_header (image_of image.now)) }
        ensures dim { IfOk result (λ h. 0 < h.group_dim) }
        ensures counted { IfOk result (λ h. IsPassCount h.passes.num_passes) }
    {
        let xyb = image.xyb_encoded;
        let extra = image.ec_info.len();
        let follows = bundle_follows(bits, true)?;
        let coding = FrameCoding::parse(bits, follows, xyb)?;
        let frame_type = coding.frame_type;
        let modular = coding.encoding.is_modular();
        let ec_upsampling = factors_if(alloc, bits, follows & !coding.flags.use_lf_frame, extra)?;
        let shift = number_if(bits, modular, 2, 1)?;
        number_if(bits, follows & !modular & xyb, 6, 0)?;
        let passes = Passes::parse(alloc, bits, follows & !frame_type.is_reference())?;
        let lf_level = lf_level(bits, frame_type.is_lf())?;
        let crop = Crop::optional_if(
            bits,
            follows & !frame_type.is_lf(),
            image.size,
            frame_type.is_shown(),
        )?;
        let place = FrameArea { lf_level, crop };
        let partial = place.is_partial();
        let shown = follows & frame_type.is_shown();
        let colours = BlendingInfo::parse_if(bits, shown, extra, partial)?;
        let others = read_infos_if(alloc, bits, shown, extra, partial)?;
        let replaces = colours.replaces() & !partial;
        let frame_use = FrameUse::parse(bits, shown, image.animation, frame_type, replaces)?;
        let name_bytes = name_if(bits, follows)?;
        let filter = RestorationFilter::parse(bits, follows, modular)?;
        let extensions = extensions_if(bits, follows)?;
        Ok(FrameHeader {
            coding,
            ec_upsampling,
            group_dim: 128 << shift,
            passes,
            place,
            blending: FrameBlending {
                blending_info: colours,
                ec_blending_info: others,
            },
            frame_use,
            name_len: name_bytes,
            restoration_filter: filter,
            extensions,
        })
    }

    /// What the frame of this image has that is not supported: the first in the order of the bits, or none.
    pub fn refused(&self, image: &ImageHeader) -> Option<Refusal>
        ensures { result ≡ frame_refusal (image_of image.now) (frame_of self.now) }
    {
        self.coding
            .refused(has_floats(image), has_shifts(image))
            .or(factors_refused(&self.ec_upsampling))
            .or(self.place.refused(self.coding.frame_type))
            .or(self.blending.refused())
            .or(self.frame_use.refused(self.coding.frame_type))
            .or(self.restoration_filter.refused())
    }

    /// Whether the frame is not shown, but saved for those after it.
    pub fn is_saved(&self) -> bool
        ensures { result ≡ the_is_saved (frame_of self.now) }
    {
        self.coding.frame_type.is_reference()
    }

    /// The sides of the frame, in a picture of this size.
    pub fn size(&self, picture: Size) -> Size
        ensures { result ≡ frame_size picture (frame_of self.now) }
    {
        self.place.size(picture)
    }
}
