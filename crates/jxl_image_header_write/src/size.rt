//! Sizes of pictures and of previews, written.

ghost use Rattle.std.specs.Prelude.{◌≡◌, ◌≢◌, ◌<◌, ◌≤◌, ◌^◌, ◌==◌, ◌&&◌, ◌||◌, ◌%◌, not, true, false, None, IfOk, Bool};
ghost use Rattle.std.specs.Option.{option_map_or};
ghost use Rattle.jxlm_bits.specs.Grammar.{either, give};
ghost use Rattle.jxlm_bit_writer.specs.Writes.{Spells};
ghost use Rattle.jxl_image_header.specs.Fields.{optional, when};
ghost use Rattle.jxl_image_header.specs.Sizes.{side as the_side, width_at, size as the_size};
ghost use Rattle.jxl_image_header_write.specs.Inner.Sides.{is_short_side as short_side, fits as the_fits};
ghost use Rattle.jxl_image_header_write.specs.Writable.{is_side as the_is_side, has_ratio, is_size as the_is_size};

use crate::fields::write_flag_if;
use jxl_image_header::size::Size;
use jxlm_bit_writer::spelled::{is_spelled, write_flag, write_number, write_u32};
use jxlm_bit_writer::writer::BitWriter;
use jxlm_bits::bits::U32Spec;
use std::alloc::AllocError;

// The width of this height at a ratio.
fn width_of(ratio: u32, height: u32) -> u64
    ensures { result ≡ width_at ratio height }
{
    let height = u64::from(height);
    match ratio {
        1 => height,
        2 => height * 12 / 10,
        3 => height * 4 / 3,
        4 => height * 3 / 2,
        5 => height * 16 / 9,
        6 => height * 5 / 4,
        _ => height * 2,
    }
}

fn is_at(ratio: u32, size: Size) -> bool
    ensures { result ≡ (width_at ratio size.height == size.width) }
{
    width_of(ratio, size.height) == u64::from(size.width)
}

// The first ratio at which the width is that of the height; 0 if there is none.
fn ratio_of(size: Size) -> u32
    ensures small { result < 8 }
    ensures exists { not (result == 0) ≡ has_ratio size }
    ensures found { result ≢ 0 → width_at result size.height ≡ size.width }
{
    if is_at(1, size) {
        1
    } else if is_at(2, size) {
        2
    } else if is_at(3, size) {
        3
    } else if is_at(4, size) {
        4
    } else if is_at(5, size) {
        5
    } else if is_at(6, size) {
        6
    } else if is_at(7, size) {
        7
    } else {
        0
    }
}

fn is_side(preview: bool, side: u32) -> bool
    ensures { result ≡ the_is_side preview side }
{
    if preview {
        return is_spelled(
            U32Spec::Offset(1, 6),
            U32Spec::Offset(65, 8),
            U32Spec::Offset(321, 10),
            U32Spec::Offset(1345, 12),
            side,
        );
    }
    is_spelled(
        U32Spec::Offset(1, 9),
        U32Spec::Offset(1, 13),
        U32Spec::Offset(1, 18),
        U32Spec::Offset(1, 30),
        side,
    )
}

/// Whether the writer spells the size of a picture, or of a preview.
pub fn is_size(preview: bool, size: Size) -> bool
    ensures { result ≡ the_is_size preview size }
{
    is_side(preview, size.height) && (is_side(preview, size.width) || ratio_of(size) != 0)
}

// Whether a side is spelled in short form.
fn is_short_side(preview: bool, side: u32) -> bool
    ensures { result ≡ short_side preview side }
{
    if side % 8 != 0 {
        return false;
    }
    if preview {
        return is_spelled(
            U32Spec::Const(16),
            U32Spec::Const(32),
            U32Spec::Offset(1, 5),
            U32Spec::Offset(33, 9),
            side / 8,
        );
    }
    8 <= side && side <= 256
}

// Whether both sides are spelled in short form; of a preview only if both are multiples of 8.
fn is_short(preview: bool, ratio: u32, size: Size) -> bool
    ensures { result ≡ (short_side preview size.height && (not (ratio == 0) && (not preview || (size.width % 8 == 0))
        || short_side preview size.width)) }
{
    let by_ratio = ratio != 0 && (!preview || size.width % 8 == 0);
    is_short_side(preview, size.height) && (by_ratio || is_short_side(preview, size.width))
}

fn write_image_side(bits: &mut BitWriter, short: bool, side: u32) -> Result<(), AllocError>
    requires { the_fits false short side ≡ true }
    ensures { IfOk result (λ _. Spells bits.old bits.new (the_side false short) side) }
{
    if short {
        write_number(bits, side / 8 - 1, 5)?;
        return Ok(());
    }
    write_u32(
        bits,
        side,
        U32Spec::Offset(1, 9),
        U32Spec::Offset(1, 13),
        U32Spec::Offset(1, 18),
        U32Spec::Offset(1, 30),
    )?;
    Ok(())
}

fn write_preview_side(bits: &mut BitWriter, short: bool, side: u32) -> Result<(), AllocError>
    requires { the_fits true short side ≡ true }
    ensures { IfOk result (λ _. Spells bits.old bits.new (the_side true short) side) }
{
    if short {
        write_u32(
            bits,
            side / 8,
            U32Spec::Const(16),
            U32Spec::Const(32),
            U32Spec::Offset(1, 5),
            U32Spec::Offset(33, 9),
        )?;
        return Ok(());
    }
    write_u32(
        bits,
        side,
        U32Spec::Offset(1, 6),
        U32Spec::Offset(65, 8),
        U32Spec::Offset(321, 10),
        U32Spec::Offset(1345, 12),
    )?;
    Ok(())
}

fn write_side(bits: &mut BitWriter, preview: bool, short: bool, side: u32) -> Result<(), AllocError>
    requires { the_fits preview short side ≡ true }
    ensures { IfOk result (λ _. Spells bits.old bits.new (the_side preview short) side) }
{
    if preview {
        write_preview_side(bits, short, side)
    } else {
        write_image_side(bits, short, side)
    }
}

// Adds the width by itself, unless it is at a ratio.
fn write_width(
    bits: &mut BitWriter,
    preview: bool,
    short: bool,
    ratio: u32,
    size: Size,
) -> Result<(), AllocError>
    requires alone { ratio ≡ 0 → the_fits preview short size.width ≡ true }
    requires ratio { ratio ≢ 0 → width_at ratio size.height ≡ size.width }
    ensures { IfOk result (λ _. Spells bits.old bits.new
        (either (ratio == 0) (the_side preview short) (give (width_at ratio size.height))) size.width) }
{
    if ratio != 0 {
        return Ok(());
    }
    write_side(bits, preview, short, size.width)?;
    Ok(())
}

/// Adds the size of a picture, or of a preview: the width by the first ratio that has it, and sides in short form if both
/// have one.
pub fn write_size(bits: &mut BitWriter, preview: bool, size: Size) -> Result<(), AllocError>
    requires { the_is_size preview size ≡ true }
    ensures { IfOk result (λ _. Spells bits.old bits.new (the_size preview) size) }
{
    let ratio = ratio_of(size);
    let short = is_short(preview, ratio, size);
    write_flag(bits, short)?;
    write_side(bits, preview, short, size.height)?;
    write_number(bits, ratio, 3)?;
    write_width(bits, preview, short, ratio, size)?;
    Ok(())
}

/// Adds whether there is a size, and the size, if they are present; else there is none.
pub fn write_size_if(
    bits: &mut BitWriter,
    present: bool,
    preview: bool,
    size: Option<Size>,
) -> Result<(), AllocError>
    requires spelled { option_map_or (the_is_size preview) size true ≡ true }
    requires usual { present ≡ false → size ≡ None }
    ensures { IfOk result (λ _. Spells bits.old bits.new (when present (optional (the_size preview)) None) size) }
{
    write_flag_if(bits, present, size.is_some(), false)?;
    match size {
        Some(size) => {
            write_size(bits, preview, size)?;
            Ok(())
        }
        None => Ok(()),
    }
}
