//! The place of a frame in the picture, written.

ghost use Rattle.std.specs.Prelude.{◌≡◌, ◌==◌, ◌&&◌, not, ◌≤◌, ◌<◌, true, false, if◌then◌else◌, None, is_some, IfOk};
ghost use Rattle.std.specs.Option.{option_map_or};
ghost use Rattle.jxlm_bits.specs.Grammar.{u32};
ghost use Rattle.jxlm_bits.specs.declared.bits.U32Spec.TheVariants.{Const};
ghost use Rattle.jxlm_bit_writer.specs.Writes.{Spells};
ghost use Rattle.jxl_image_header.specs.Fields.{optional, when};
ghost use Rattle.jxl_frame_header.specs.Places.{extent, covers as the_covers, crop as the_crop};
ghost use Rattle.jxl_frame_header_write.specs.Writable.{is_level as the_is_level, corner_number as the_corner_number, is_extent as the_is_extent, is_crop as the_is_crop, is_place as the_is_place};

use crate::fields::write_field_if;
use jxl_frame_header::place::Crop;
use jxl_image_header::size::Size;
use jxl_image_header_write::fields::write_flag_if;
use jxlm_bit_writer::spelled::is_spelled;
use jxlm_bit_writer::writer::BitWriter;
use jxlm_bits::bits::U32Spec;
use std::alloc::AllocError;

/// Whether a frame, of low frequencies or not, may have this level.
pub fn is_level(lf: bool, level: u32) -> bool
    ensures { result ≡ the_is_level lf level }
{
    if !lf {
        return level == 0;
    }
    is_spelled(
        U32Spec::Const(1),
        U32Spec::Const(2),
        U32Spec::Const(3),
        U32Spec::Const(4),
        level,
    )
}

/// Adds the level of a frame, if it is one of low frequencies.
pub fn write_level_if(bits: &mut BitWriter, lf: bool, level: u32) -> Result<(), AllocError>
    requires { the_is_level lf level ≡ true }
    ensures { IfOk result (λ _. Spells bits.old bits.new
        (when lf (u32 (Const 1) (Const 2) (Const 3) (Const 4)) 0) level) }
{
    write_field_if(
        bits,
        lf,
        level,
        U32Spec::Const(1),
        U32Spec::Const(2),
        U32Spec::Const(3),
        U32Spec::Const(4),
        0,
    )?;
    Ok(())
}

// The number of a corner's coordinate.
fn corner_number(coordinate: i32) -> u32
    ensures { result ≡ the_corner_number coordinate }
{
    if coordinate >= 0 {
        coordinate.cast_unsigned() * 2
    } else {
        (-1 - coordinate).cast_unsigned() * 2 + 1
    }
}

fn is_extent(value: u32) -> bool
    ensures { result ≡ the_is_extent value }
{
    is_spelled(
        U32Spec::Offset(0, 8),
        U32Spec::Offset(256, 11),
        U32Spec::Offset(2304, 14),
        U32Spec::Offset(18688, 30),
        value,
    )
}

// The numbers of the coordinates of a frame's corner.
fn corner_numbers(crop: Crop) -> (u32, u32)
    ensures x { result.0 ≡ the_corner_number crop.x0 }
    ensures y { result.1 ≡ the_corner_number crop.y0 }
{
    (corner_number(crop.x0), corner_number(crop.y0))
}

// Whether a corner may have a coordinate of this number.
fn is_corner(shown: bool, number: u32) -> bool
    ensures { result ≡ (if shown then the_is_extent number else number == 0) }
{
    if shown {
        is_extent(number)
    } else {
        number == 0
    }
}

// Whether a side from this corner on covers one of the picture.
fn covers(corner: u32, side: u32, whole: u32) -> bool
    ensures { result ≡ the_covers corner side whole }
{
    (corner == 0 || corner % 2 == 1)
        && u64::from(side) >= u64::from(whole) + (u64::from(corner) + 1) / 2
}

// Whether a frame with this place is shown, and leaves a part of a picture of this size to the frame before.
fn is_partial(size: Size, shown: bool, crop: Crop) -> bool
    ensures { result ≡ (shown && not (the_covers (the_corner_number crop.x0) crop.width size.width
        && the_covers (the_corner_number crop.y0) crop.height size.height)) }
{
    let (x, y) = corner_numbers(crop);
    let whole = covers(x, crop.width, size.width) & covers(y, crop.height, size.height);
    shown & !whole
}

// Whether a flag is as expected.
fn is_as(expected: bool, flag: bool) -> bool
    ensures { result ≡ (if expected then flag else not flag) }
{
    if expected { flag } else { !flag }
}

fn is_crop(size: Size, shown: bool, crop: Crop) -> bool
    ensures { result ≡ the_is_crop size shown crop }
{
    let (x, y) = corner_numbers(crop);
    is_corner(shown, x)
        && is_corner(shown, y)
        && is_extent(crop.width)
        && is_extent(crop.height)
        && is_as(is_partial(size, shown, crop), crop.partial)
}

/// Whether the writer spells the place of a frame, shown or not, in a picture of this size.
pub fn is_place(told: bool, size: Size, shown: bool, crop: Option<Crop>) -> bool
    ensures { result ≡ the_is_place told size shown crop }
{
    match crop {
        Some(crop) => told && is_crop(size, shown, crop),
        None => true,
    }
}

fn write_extent_if(bits: &mut BitWriter, present: bool, value: u32) -> Result<(), AllocError>
    requires spelled { present ≡ true → the_is_extent value ≡ true }
    requires usual { present ≡ false → value ≡ 0 }
    ensures { IfOk result (λ _. Spells bits.old bits.new (when present extent 0) value) }
{
    write_field_if(
        bits,
        present,
        value,
        U32Spec::Offset(0, 8),
        U32Spec::Offset(256, 11),
        U32Spec::Offset(2304, 14),
        U32Spec::Offset(18688, 30),
        0,
    )?;
    Ok(())
}

// Adds a frame's own place in a picture of this size.
fn write_crop(bits: &mut BitWriter, size: Size, shown: bool, crop: Crop) -> Result<(), AllocError>
    requires { the_is_crop size shown crop ≡ true }
    ensures { IfOk result (λ _. Spells bits.old bits.new (the_crop size shown) crop) }
{
    let (x, y) = corner_numbers(crop);
    write_extent_if(bits, shown, x)?;
    write_extent_if(bits, shown, y)?;
    write_extent_if(bits, true, crop.width)?;
    write_extent_if(bits, true, crop.height)?;
    Ok(())
}

/// Adds whether a frame has a place of its own, and the place, if that is present; else it covers the picture.
pub fn write_place_if(
    bits: &mut BitWriter,
    present: bool,
    size: Size,
    shown: bool,
    crop: Option<Crop>,
) -> Result<(), AllocError>
    requires { the_is_place present size shown crop ≡ true }
    ensures { IfOk result (λ _. Spells bits.old bits.new (when present (optional (the_crop size shown)) None) crop) }
{
    write_flag_if(bits, present, crop.is_some(), false)?;
    match crop {
        Some(crop) => {
            write_crop(bits, size, shown, crop)?;
            Ok(())
        }
        None => Ok(()),
    }
}
