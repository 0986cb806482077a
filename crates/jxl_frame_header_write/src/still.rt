//! The header of the only frame of a still picture, written.

ghost use Rattle.std.specs.Prelude.{◌≡◌, ◌<◌, ◌&&◌, not, length, replicate, true, false, None, IfOk};
ghost use Rattle.jxlm_bits.specs.Grammar.{repeated};
ghost use Rattle.jxlm_bit_writer.specs.Writes.{Spells, Writes};
ghost use Rattle.jxl_image_header.specs.Images.{image_of};
ghost use Rattle.jxl_frame_header.specs.Codings.{coding, factor};
ghost use Rattle.jxl_frame_header.specs.Passes.{passes};
ghost use Rattle.jxl_frame_header.specs.Blendings.{blending_info};
ghost use Rattle.jxl_frame_header.specs.Filters.{filter};
ghost use Rattle.jxl_frame_header.specs.Frames.{frame_header};
ghost use Rattle.jxl_frame_header_write.specs.Stills.{still_coding, one_pass, replaces, no_filter, still_frame};

use jxl_image_header::image::ImageHeader;
use jxl_image_header_write::fields::{
    write_bundle_if, write_flag_if, write_no_extensions_if, write_no_name,
};
use jxlm_bit_writer::spelled::{write_flag, write_number, write_u32};
use jxlm_bit_writer::writer::BitWriter;
use jxlm_bits::bits::U32Spec;
use std::alloc::AllocError;

// Adds the factor 1.
fn write_one(bits: &mut BitWriter) -> Result<(), AllocError>
    ensures { IfOk result (λ _. Spells bits.old bits.new factor 1) }
{
    write_u32(
        bits,
        1,
        U32Spec::Const(1),
        U32Spec::Const(2),
        U32Spec::Const(4),
        U32Spec::Const(8),
    )?;
    Ok(())
}

// Adds the factor 1, `count` times.
fn write_ones(bits: &mut BitWriter, count: usize) -> Result<(), AllocError>
    ensures { IfOk result (λ _. Spells bits.old bits.new (repeated count factor) (replicate count 1)) }
{
    for _ in 0..count {
        write_one(bits)?;
    }
    Ok(())
}

// Adds how a Modular frame is coded that is shown.
fn write_coding(bits: &mut BitWriter, xyb: bool) -> Result<(), AllocError>
    ensures { IfOk result (λ _. Spells bits.old bits.new (coding true xyb) still_coding) }
{
    write_number(bits, 0, 2)?;
    write_flag(bits, true)?;
    // No flags, and no YCbCr.
    write_number(bits, 0, 2)?;
    write_flag_if(bits, !xyb, false, false)?;
    write_one(bits)?;
    Ok(())
}

// Adds that there is one pass.
fn write_one_pass(bits: &mut BitWriter) -> Result<(), AllocError>
    ensures { IfOk result (λ _. Spells bits.old bits.new (passes true) one_pass) }
{
    write_u32(
        bits,
        1,
        U32Spec::Const(1),
        U32Spec::Const(2),
        U32Spec::Const(3),
        U32Spec::Offset(4, 3),
    )?;
    Ok(())
}

// Adds that a frame replaces what was there, in an image with `extra` extra channels.
fn write_replaces(bits: &mut BitWriter, extra: usize) -> Result<(), AllocError>
    ensures { IfOk result (λ _. Spells bits.old bits.new (blending_info true extra false) replaces) }
{
    write_u32(
        bits,
        0,
        U32Spec::Const(0),
        U32Spec::Const(1),
        U32Spec::Const(2),
        U32Spec::Offset(3, 2),
    )?;
    Ok(())
}

// Adds that each extra channel replaces what was there.
fn write_all_replace(bits: &mut BitWriter, extra: usize) -> Result<(), AllocError>
    ensures { IfOk result (λ _. Spells bits.old bits.new (repeated extra (blending_info true extra false))
        (replicate extra replaces)) }
{
    for _ in 0..extra {
        write_replaces(bits, extra)?;
    }
    Ok(())
}

// Adds that there is no filter.
fn write_no_filter(bits: &mut BitWriter) -> Result<(), AllocError>
    ensures { IfOk result (λ _. Spells bits.old bits.new (filter true true) no_filter) }
{
    write_bundle_if(bits, true, true)?;
    write_flag(bits, false)?;
    write_number(bits, 0, 2)?;
    write_no_extensions_if(bits, true)?;
    Ok(())
}

/// Adds the header of the only frame of a still picture, so that `FrameHeader::parse` returns it. The sides of groups are
/// 128 times 2 to the power of `shift`.
pub fn write_still_header(
    bits: &mut BitWriter,
    image: &ImageHeader,
    shift: u32,
) -> Result<(), AllocError>
    requires still { (image_of image.now).animation ≡ None }
    requires shift { shift < 4 }
    ensures { IfOk result (λ _. Writes bits.old bits.new (frame_header (image_of image.now)).read
        (still_frame (image_of image.now) shift)) }
{
    let extra = image.ec_info.len();
    write_bundle_if(bits, true, true)?;
    write_coding(bits, image.xyb_encoded)?;
    write_ones(bits, extra)?;
    write_number(bits, shift, 2)?;
    write_one_pass(bits)?;
    // The whole picture.
    write_flag(bits, false)?;
    write_replaces(bits, extra)?;
    write_all_replace(bits, extra)?;
    // The last frame.
    write_flag(bits, true)?;
    write_no_name(bits)?;
    write_no_filter(bits)?;
    write_no_extensions_if(bits, true)?;
    Ok(())
}
