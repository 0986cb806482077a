//! The image header.

ghost use Rattle.std.specs.Prelude.{◌≡◌, ◌==◌, ◌&&◌, if◌then◌else◌, Some, None, [], codes};
ghost use Rattle.jxlm_bits.specs.Grammar.{Reads, number as the_number, repeated, HasRead, Parses};
ghost use Rattle.jxl_image_header.specs.Channels.{extra_channel};
ghost use Rattle.jxl_image_header.specs.Fields.{number_where, optional, when};
ghost use Rattle.jxl_image_header.specs.Inner.Groups.{extra_channels as the_extra_channels, weights as the_weights};
ghost use Rattle.jxl_image_header.specs.Sizes.{size as the_size};
ghost use Rattle.jxl_image_header.specs.Images.{image_of, animation as the_animation, channel_count as the_channel_count, matrices as the_matrices, image_header, channels_refusal as the_channels_refusal, image_refusal};
ghost use Rattle.jxl_image_header.specs.declared.refusal.Refusal.TheVariants.{Xyb};

use crate::channel::{BitDepth, ExtraChannel};
use crate::colour::{ColourEncoding, ToneMapping};
use crate::fields::{Result, bundle_follows, extensions_if, flag_if, number, number_if, skip_if};
use crate::refusal::Refusal;
use crate::size::{Size, read_size};
use jxlm_bits::bits::{Bitstream, BitstreamError, U32Spec};
use jxlm_bits::error;
use std::alloc::Global;

/// When the pictures of an animation change.
#[derive(Clone, Copy)]
pub struct Animation {
    /// The units of time in a second, times the denominator.
    pub tps_numerator: u32,
    pub tps_denominator: u32,
    /// How often the pictures are shown, 0 for ever.
    pub num_loops: u32,
    /// Whether frames have time codes.
    pub have_timecodes: bool,
}

/// What the headers say of an image before its frames.
#[derive(Drop)]
pub struct ImageHeader {
    pub size: Size,
    /// From 1, as it is, to 8: mirrored or turned, as Exif numbers it.
    pub orientation: u32,
    /// At which size the image is to be shown.
    pub intrinsic_size: Option<Size>,
    /// The size of a smaller picture that comes first.
    pub preview: Option<Size>,
    /// When its pictures change.
    pub animation: Option<Animation>,
    /// How the samples of colours are stored.
    pub bit_depth: BitDepth,
    /// Whether 16 bits are enough for each number while it is decoded.
    pub modular_16bit_buffers: bool,
    /// The channels beside the colours, at most 256.
    pub ec_info: Vec<ExtraChannel>,
    /// Whether colours are stored as XYB.
    pub xyb_encoded: bool,
    pub colour_encoding: ColourEncoding,
    pub tone_mapping: ToneMapping,
    /// A bit for each extension that there is; what they hold is passed.
    pub extensions: u64,
}

fn optional_size(bits: &mut Bitstream<'_>, preview: bool) -> Result<Option<Size>>
    ensures { HasRead Reads (λ v. v) result bits.old bits.new (optional (the_size preview)) }
{
    if !bits.read_bool()? {
        return Ok(None);
    }
    let size = read_size(bits, preview)?;
    Ok(Some(size))
}

fn size_if(bits: &mut Bitstream<'_>, there: bool, preview: bool) -> Result<Option<Size>>
    ensures { HasRead Reads (λ v. v) result bits.old bits.new (when there (optional (the_size preview)) None) }
{
    if there {
        optional_size(bits, preview)
    } else {
        Ok(None)
    }
}

impl Animation {
    #[tactic(auto, unfolding(crate::specs::Images::animation))]
    fn parse(bits: &mut Bitstream<'_>) -> Result<Animation>
        ensures { HasRead Reads (λ v. v) result bits.old bits.new the_animation }
    {
        let numerator = bits.read_u32(
            U32Spec::Const(100),
            U32Spec::Const(1000),
            U32Spec::Offset(1, 10),
            U32Spec::Offset(1, 30),
        )?;
        let denominator = bits.read_u32(
            U32Spec::Const(1),
            U32Spec::Const(1001),
            U32Spec::Offset(1, 8),
            U32Spec::Offset(1, 10),
        )?;
        let loops = bits.read_u32(
            U32Spec::Const(0),
            U32Spec::Offset(0, 3),
            U32Spec::Offset(0, 16),
            U32Spec::Offset(0, 32),
        )?;
        let timecodes = bits.read_bool()?;
        Ok(Animation {
            tps_numerator: numerator,
            tps_denominator: denominator,
            num_loops: loops,
            have_timecodes: timecodes,
        })
    }

    fn optional(bits: &mut Bitstream<'_>) -> Result<Option<Animation>>
        ensures { HasRead Reads (λ v. v) result bits.old bits.new (optional the_animation) }
    {
        if !bits.read_bool()? {
            return Ok(None);
        }
        let animation = Animation::parse(bits)?;
        Ok(Some(animation))
    }

    fn optional_if(bits: &mut Bitstream<'_>, there: bool) -> Result<Option<Animation>>
        ensures { HasRead Reads (λ v. v) result bits.old bits.new (when there (optional the_animation) None) }
    {
        if there {
            Animation::optional(bits)
        } else {
            Ok(None)
        }
    }
}

// How many extra channels there are.
fn channel_count(bits: &mut Bitstream<'_>) -> Result<u32>
    ensures { HasRead Reads (λ v. v) result bits.old bits.new the_channel_count }
{
    let value = bits.read_u32(
        U32Spec::Const(0),
        U32Spec::Const(1),
        U32Spec::Offset(2, 4),
        U32Spec::Offset(1, 12),
    )?;
    if value <= 256 {
        Ok(value)
    } else {
        let name = "num_extra_channels";
        Err(BitstreamError::InvalidEnum { name, value })
    }
}

// This number of extra channels.
fn read_channels(
    alloc: Global,
    bits: &mut Bitstream<'_>,
    count: u32,
) -> error::Result<Vec<ExtraChannel>>
    ensures { HasRead Parses (λ v. v.items) result bits.old bits.new (repeated count extra_channel) }
{
    let mut channels = Vec::new(alloc);
    for _ in 0..count {
        let channel = ExtraChannel::parse(bits)?;
        channels.push(channel)?;
    }
    Ok(channels)
}

fn extra_channels(alloc: Global, bits: &mut Bitstream<'_>) -> error::Result<Vec<ExtraChannel>>
    ensures { HasRead Parses (λ v. v.items) result bits.old bits.new the_extra_channels }
{
    let count = channel_count(bits)?;
    read_channels(alloc, bits, count)
}

fn channels_if(
    alloc: Global,
    bits: &mut Bitstream<'_>,
    there: bool,
) -> error::Result<Vec<ExtraChannel>>
    ensures { HasRead Parses (λ v. v.items) result bits.old bits.new (when there the_extra_channels []) }
{
    if there {
        extra_channels(alloc, bits)
    } else {
        Ok(Vec::new(alloc))
    }
}

// Passes those weights of upsampling that are there.
fn weights(bits: &mut Bitstream<'_>, first: bool, second: bool, third: bool) -> Result<()>
    ensures { HasRead Reads (λ v. v) result bits.old bits.new (the_weights first second third) }
{
    skip_if(bits, first, 30)?;
    skip_if(bits, second, 110)?;
    skip_if(bits, third, 420)
}

// The matrix of XYB, and the weights of upsampling that a mask says are there.
#[tactic(auto, unfolding(crate::specs::Images::matrices))]
fn matrices(bits: &mut Bitstream<'_>, xyb: bool) -> Result<()>
    ensures { HasRead Reads (λ v. v) result bits.old bits.new (the_matrices xyb) }
{
    let follows = bundle_follows(bits, true)?;
    let opsin = bundle_follows(bits, follows & xyb)?;
    skip_if(bits, opsin, 32)?;
    let mask = number_if(bits, follows, 3, 0)?;
    weights(bits, mask % 2 == 1, mask / 2 % 2 == 1, mask / 4 == 1)
}

fn signature(bits: &mut Bitstream<'_>) -> Result<u32>
    ensures { HasRead Reads (λ v. v) result bits.old bits.new
        (number_where (codes "signature") (λ v. v == 0x0AFF) (the_number 16)) }
{
    let value = number(bits, 16)?;
    if value == 0x0AFF {
        Ok(value)
    } else {
        let name = "signature";
        Err(BitstreamError::InvalidEnum { name, value })
    }
}

fn channels_refusal(channels: &[ExtraChannel]) -> Option<Refusal>
    ensures { result ≡ the_channels_refusal channels.now }
{
    for channel in channels {
        if channel.dim_shift > 3 {
            return Some(Refusal::ExtraSize);
        }
    }
    None
}

fn xyb_refusal(xyb: bool) -> Option<Refusal>
    ensures { result ≡ (if xyb then Some Xyb else None) }
{
    if xyb { Some(Refusal::Xyb) } else { None }
}

impl ImageHeader {
    /// The header that stands at the reader's position, from its signature on. What is not supported is read too, and
    /// `refused` names it. The reader is left where the profile begins, if there is one, or the bits up to the next byte.
    ///
    /// # Errors
    ///
    /// The first in the order of the bits: `UnexpectedEof` if the input is truncated, and `InvalidEnum` for a number
    /// that has no meaning, which names the field. `Buffer` if it is out of memory, at any extra channel.
    #[tactic(auto, unfolding(crate::specs::Images::image_header))]
    pub fn parse(alloc: Global, bits: &mut Bitstream<'_>) -> error::Result<ImageHeader>
        ensures { HasRead Parses image_of result bits.old bits.new image_header }
    {
        signature(bits)?;
        let size = read_size(bits, false)?;
        let follows = bundle_follows(bits, true)?;
        let more = flag_if(bits, follows, false)?;
        let orientation = number_if(bits, more, 3, 0)?;
        let intrinsic = size_if(bits, more, false)?;
        let preview = size_if(bits, more, true)?;
        let animation = Animation::optional_if(bits, more)?;
        let depth = BitDepth::parse_if(bits, follows)?;
        let narrow = flag_if(bits, follows, true)?;
        let extra = channels_if(alloc, bits, follows)?;
        let xyb = flag_if(bits, follows, true)?;
        let colour = ColourEncoding::parse_if(bits, follows)?;
        let tone = ToneMapping::parse_if(bits, more)?;
        let extensions = extensions_if(bits, follows)?;
        matrices(bits, xyb)?;
        Ok(ImageHeader {
            size,
            orientation: orientation + 1,
            intrinsic_size: intrinsic,
            preview,
            animation,
            bit_depth: depth,
            modular_16bit_buffers: narrow,
            ec_info: extra,
            xyb_encoded: xyb,
            colour_encoding: colour,
            tone_mapping: tone,
            extensions,
        })
    }

    /// What the image has that is not supported: the first in the order of the bits, or none.
    pub fn refused(&self) -> Option<Refusal>
        ensures { result ≡ image_refusal (image_of self.now) }
    {
        if self.preview.is_some() {
            Some(Refusal::Preview)
        } else if self.animation.is_some() {
            Some(Refusal::Animation)
        } else {
            channels_refusal(&self.ec_info).or(xyb_refusal(self.xyb_encoded))
        }
    }
}
