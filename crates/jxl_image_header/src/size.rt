//! Sizes of pictures.

ghost use Rattle.std.specs.Prelude.{◌≡◌, ◌*◌, ◌^◌, ◌≤◌, ◌==◌, IfOk};
ghost use Rattle.jxlm_bits.specs.Grammar.{Reads, either, give, HasRead};
ghost use Rattle.jxl_image_header.specs.Inner.Sides.{image_side as the_image_side, preview_side as the_preview_side};
ghost use Rattle.jxl_image_header.specs.Sizes.{side as the_side, width_at, size as the_size};

use crate::fields::{Result, field, number};
use jxlm_bits::bits::{Bitstream, U32Spec};

/// The sides of a picture, in pixels.
#[derive(Clone, Copy)]
pub struct Size {
    /// From 1 to 2^31.
    pub width: u32,
    /// From 1 to 2^30.
    pub height: u32,
}

fn image_side(bits: &mut Bitstream<'_>, small: bool) -> Result<u32>
    ensures reads { HasRead Reads (λ v. v) result bits.old bits.new (the_image_side small) }
    ensures most { IfOk result (λ v. v ≤ 2 ^ 30) }
{
    if small {
        Ok(8 * (number(bits, 5)? + 1))
    } else {
        field(
            bits,
            U32Spec::Offset(1, 9),
            U32Spec::Offset(1, 13),
            U32Spec::Offset(1, 18),
            U32Spec::Offset(1, 30),
        )
    }
}

fn preview_side(bits: &mut Bitstream<'_>, eighths: bool) -> Result<u32>
    ensures reads { HasRead Reads (λ v. v) result bits.old bits.new (the_preview_side eighths) }
    ensures most { IfOk result (λ v. v ≤ 2 ^ 30) }
{
    if eighths {
        let eighth = field(
            bits,
            U32Spec::Const(16),
            U32Spec::Const(32),
            U32Spec::Offset(1, 5),
            U32Spec::Offset(33, 9),
        )?;
        Ok(8 * eighth)
    } else {
        field(
            bits,
            U32Spec::Offset(1, 6),
            U32Spec::Offset(65, 8),
            U32Spec::Offset(321, 10),
            U32Spec::Offset(1345, 12),
        )
    }
}

#[tactic(auto, unfolding(crate::specs::Sizes::side))]
fn side(bits: &mut Bitstream<'_>, preview: bool, short: bool) -> Result<u32>
    ensures reads { HasRead Reads (λ v. v) result bits.old bits.new (the_side preview short) }
    ensures most { IfOk result (λ v. v ≤ 2 ^ 30) }
{
    if preview {
        preview_side(bits, short)
    } else {
        image_side(bits, short)
    }
}

// The width at a ratio of this number, at most 7.
fn width(ratio: u32, height: u64) -> u64
    requires { height ≤ 2 ^ 30 }
    ensures value { result ≡ width_at ratio height }
    ensures most { result ≤ 2 ^ 31 }
{
    if ratio == 1 {
        height
    } else if ratio == 2 {
        height * 12 / 10
    } else if ratio == 3 {
        height * 4 / 3
    } else if ratio == 4 {
        height * 3 / 2
    } else if ratio == 5 {
        height * 16 / 9
    } else if ratio == 6 {
        height * 5 / 4
    } else {
        height * 2
    }
}

// The width by a ratio, or where there is none by itself.
fn read_width(
    bits: &mut Bitstream<'_>,
    preview: bool,
    short: bool,
    ratio: u32,
    height: u32,
) -> Result<u32>
    requires { height ≤ 2 ^ 30 }
    ensures { HasRead Reads (λ v. v) result bits.old bits.new
        (either (ratio == 0) (the_side preview short) (give (width_at ratio height))) }
{
    if ratio == 0 {
        return side(bits, preview, short);
    }
    Ok(width(ratio, u64::from(height)) as u32)
}

/// The size of the picture, or of a preview.
#[tactic(auto, unfolding(crate::specs::Sizes::size))]
pub fn read_size(bits: &mut Bitstream<'_>, preview: bool) -> Result<Size>
    ensures { HasRead Reads (λ v. v) result bits.old bits.new (the_size preview) }
{
    let short = bits.read_bool()?;
    let height = side(bits, preview, short)?;
    let ratio = number(bits, 3)?;
    let width = read_width(bits, preview, short, ratio, height)?;
    Ok(Size { width, height })
}
