//! The place of a frame in the picture.

ghost use Rattle.std.specs.Prelude.{◌≡◌, ◌≤◌, ◌<◌, ◌^◌, ◌==◌, ◌&&◌, ◌||◌, not, is_some, IfOk, if◌then◌else◌, Some, None, false};
ghost use Rattle.std.specs.Option.{option_map_or};
ghost use Rattle.jxlm_bits.specs.Grammar.{Reads, u32, HasRead};
ghost use Rattle.jxlm_bits.specs.Numbers.{unpack};
ghost use Rattle.jxlm_bits.specs.declared.bits.U32Spec.TheVariants.{Const};
ghost use Rattle.jxl_image_header.specs.Fields.{optional, when};
ghost use Rattle.jxl_frame_header.specs.Places.{is_shown as the_is_shown, is_lf as the_is_lf, is_reference as the_is_reference, extent as the_extent, covers as the_covers, crop};
ghost use Rattle.jxl_frame_header.specs.declared.refusal.Refusal.TheVariants as refusals;

use crate::coding::FrameType;
use crate::fields::field_if;
use crate::refusal::Refusal;
use jxl_image_header::fields::{Result, field};
use jxl_image_header::size::Size;
use jxlm_bits::bits::{Bitstream, U32Spec};

/// A size and a place of a frame's own.
#[derive(Clone, Copy)]
pub struct Crop {
    /// The column of the picture where the frame's first column lies, and its row; 0 for a frame that is not shown.
    pub x0: i32,
    pub y0: i32,
    pub width: u32,
    pub height: u32,
    /// Whether a part of the picture lies outside the frame, and the frame is shown.
    pub partial: bool,
}

/// Where a frame lies.
#[derive(Clone, Copy)]
pub struct FrameArea {
    /// Of a frame of low frequencies, how many times the picture's sides are divided by 8; else 0.
    pub lf_level: u32,
    /// A size and a place of its own; else it covers the picture.
    pub crop: Option<Crop>,
}

impl FrameType {
    /// Whether it is shown.
    pub fn is_shown(&self) -> bool
        ensures { result ≡ the_is_shown self.now }
    {
        !(self.is_lf() || self.is_reference())
    }

    /// Whether it holds low frequencies of another.
    pub fn is_lf(&self) -> bool
        ensures { result ≡ the_is_lf self.now }
    {
        match self {
            FrameType::Regular => false,
            FrameType::LfFrame => true,
            FrameType::ReferenceOnly => false,
            FrameType::SkipProgressive => false,
        }
    }

    /// Whether it is only for use by others.
    pub fn is_reference(&self) -> bool
        ensures { result ≡ the_is_reference self.now }
    {
        match self {
            FrameType::Regular => false,
            FrameType::LfFrame => false,
            FrameType::ReferenceOnly => true,
            FrameType::SkipProgressive => false,
        }
    }
}

/// How often the low frequencies of a frame are low frequencies, if the header signals it.
pub(crate) fn lf_level(bits: &mut Bitstream<'_>, there: bool) -> Result<u32>
    ensures { HasRead Reads (λ v. v) result bits.old bits.new
        (when there (u32 (Const 1) (Const 2) (Const 3) (Const 4)) 0) }
{
    field_if(
        bits,
        there,
        U32Spec::Const(1),
        U32Spec::Const(2),
        U32Spec::Const(3),
        U32Spec::Const(4),
        0,
    )
}

#[tactic(auto, unfolding(crate::specs::Places::extent))]
fn extent(bits: &mut Bitstream<'_>) -> Result<u32>
    ensures reads { HasRead Reads (λ v. v) result bits.old bits.new the_extent }
    ensures most { IfOk result (λ v. v < 2 ^ 31) }
{
    field(
        bits,
        U32Spec::Offset(0, 8),
        U32Spec::Offset(256, 11),
        U32Spec::Offset(2304, 14),
        U32Spec::Offset(18688, 30),
    )
}

fn extent_if(bits: &mut Bitstream<'_>, there: bool) -> Result<u32>
    ensures reads { HasRead Reads (λ v. v) result bits.old bits.new (when there the_extent 0) }
    ensures most { IfOk result (λ v. v < 2 ^ 31) }
{
    if there { extent(bits) } else { Ok(0) }
}

fn unpacked(value: u32) -> i32
    requires { value < 2 ^ 31 }
    ensures { result ≡ unpack value }
{
    let half = (value / 2) as i32;
    if value % 2 == 0 { half } else { -half - 1 }
}

fn covers(corner: u32, side: u32, whole: u32) -> bool
    requires { corner < 2 ^ 31 }
    ensures { result ≡ the_covers corner side whole }
{
    (corner == 0 || corner % 2 == 1)
        && u64::from(side) >= u64::from(whole) + u64::from((corner + 1) / 2)
}

impl Crop {
    #[tactic(auto, unfolding(crate::specs::Places::crop))]
    fn parse(bits: &mut Bitstream<'_>, size: Size, shown: bool) -> Result<Crop>
        ensures { HasRead Reads (λ v. v) result bits.old bits.new (crop size shown) }
    {
        let x = extent_if(bits, shown)?;
        let y = extent_if(bits, shown)?;
        let width = extent(bits)?;
        let height = extent(bits)?;
        let whole = covers(x, width, size.width) && covers(y, height, size.height);
        Ok(Crop {
            x0: unpacked(x),
            y0: unpacked(y),
            width,
            height,
            partial: shown && !whole,
        })
    }

    fn optional(bits: &mut Bitstream<'_>, size: Size, shown: bool) -> Result<Option<Crop>>
        ensures { HasRead Reads (λ v. v) result bits.old bits.new (optional (crop size shown)) }
    {
        if !bits.read_bool()? {
            return Ok(None);
        }
        let crop = Crop::parse(bits, size, shown)?;
        Ok(Some(crop))
    }

    /// A size and a place of its own, where they may be told.
    pub(crate) fn optional_if(
        bits: &mut Bitstream<'_>,
        there: bool,
        size: Size,
        shown: bool,
    ) -> Result<Option<Crop>>
        ensures { HasRead Reads (λ v. v) result bits.old bits.new (when there (optional (crop size shown)) None) }
    {
        if there {
            Crop::optional(bits, size, shown)
        } else {
            Ok(None)
        }
    }

    fn refused(&self, frame_type: FrameType) -> Option<Refusal>
        ensures { result ≡ (if not (the_is_reference frame_type) then Some refusals.Crop else
            if (self.now.width == 0) || (self.now.height == 0) then Some refusals.EmptyFrame else None) }
    {
        if !frame_type.is_reference() {
            Some(Refusal::Crop)
        } else if self.width == 0 || self.height == 0 {
            Some(Refusal::EmptyFrame)
        } else {
            None
        }
    }
}

impl FrameArea {
    /// Whether it is shown, and leaves a part of the picture to the frame before.
    pub fn is_partial(&self) -> bool
        ensures { result ≡ option_map_or (λ c. c.partial) self.now.crop false }
    {
        match self.crop {
            Some(crop) => crop.partial,
            None => false,
        }
    }

    /// The sides of the frame, in a picture of this size.
    pub fn size(&self, picture: Size) -> Size
        ensures { result ≡ option_map_or (λ c. record { width = c.width; height = c.height })
            self.now.crop picture }
    {
        match self.crop {
            Some(crop) => Size {
                width: crop.width,
                height: crop.height,
            },
            None => picture,
        }
    }

    /// Whether it is not supported, of a frame of this type: one that is shown has a size and a place of its own, or
    /// another has no samples.
    pub fn refused(&self, frame_type: FrameType) -> Option<Refusal>
        ensures { result ≡ (if is_some self.now.crop && not (the_is_reference frame_type) then Some refusals.Crop else
            if option_map_or (λ c. (c.width == 0) || (c.height == 0)) self.now.crop false
            then Some refusals.EmptyFrame else None) }
    {
        match self.crop {
            Some(crop) => crop.refused(frame_type),
            None => None,
        }
    }
}
