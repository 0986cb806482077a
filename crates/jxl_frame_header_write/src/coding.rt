//! How a frame is coded, written.

ghost use Rattle.std.specs.Prelude.{◌≡◌, ◌≤◌, ◌<◌, ◌*◌, ◌^◌, ◌==◌, ◌||◌, ◌&&◌, not, length, [], true, false, if◌then◌else◌, IfOk};
ghost use Rattle.jxlm_bits.specs.Grammar.{repeated};
ghost use Rattle.jxlm_bit_writer.specs.Writes.{Spells};
ghost use Rattle.jxl_image_header.specs.Fields.{when};
ghost use Rattle.jxl_frame_header.specs.Codings.{coding as the_coding, factor};
ghost use Rattle.jxl_frame_header_write.specs.Inner.Numbers.{IsTypeNumber, if_set, flags_number as the_flags_number};
ghost use Rattle.jxl_frame_header_write.specs.Writable.{is_factor as the_is_factor, is_coding as the_is_coding, are_factors as the_are_factors, is_dim as the_is_dim};

use crate::fields::{are_spelled, write_field_if, write_fields, write_long};
use jxl_frame_header::coding::{FrameCoding, FrameFlags, FrameType};
use jxl_image_header_write::fields::write_flag_if;
use jxlm_bit_writer::spelled::{is_spelled, write_flag, write_number};
use jxlm_bit_writer::writer::BitWriter;
use jxlm_bits::bits::U32Spec;
use std::alloc::AllocError;

// The number of a type.
fn type_number(frame_type: FrameType) -> u32
    ensures { IsTypeNumber result frame_type }
{
    match frame_type {
        FrameType::Regular => 0,
        FrameType::LfFrame => 1,
        FrameType::ReferenceOnly => 2,
        FrameType::SkipProgressive => 3,
    }
}

// The number of a flag's bit if it is set, at most 128.
fn bit_if(set: bool, bit: u32) -> u32
    requires { bit ≤ 128 }
    ensures is { result ≡ if_set set bit }
    ensures small { result ≤ bit }
{
    if set { bit } else { 0 }
}

// The flags as one number.
fn flags_number(flags: FrameFlags) -> u32
    ensures is { result ≡ the_flags_number flags }
    ensures small { result < 273 }
{
    bit_if(flags.noise, 1)
        + bit_if(flags.patches, 2)
        + bit_if(flags.splines, 16)
        + bit_if(flags.use_lf_frame, 32)
        + bit_if(flags.skip_adaptive_lf_smoothing, 128)
}

fn is_factor(value: u32) -> bool
    ensures { result ≡ the_is_factor value }
{
    is_spelled(
        U32Spec::Const(1),
        U32Spec::Const(2),
        U32Spec::Const(4),
        U32Spec::Const(8),
        value,
    )
}

/// Whether the writer spells how a frame is coded.
pub fn is_coding(coding: FrameCoding) -> bool
    ensures { result ≡ the_is_coding coding }
{
    let factor = if coding.flags.use_lf_frame {
        coding.upsampling == 1
    } else {
        is_factor(coding.upsampling)
    };
    coding.encoding.is_modular() && !coding.do_ycbcr && factor
}

// Adds how much smaller than the picture something is coded, if it is present.
fn write_factor_if(bits: &mut BitWriter, present: bool, value: u32) -> Result<(), AllocError>
    requires spelled { present ≡ true → the_is_factor value ≡ true }
    requires usual { present ≡ false → value ≡ 1 }
    ensures { IfOk result (λ _. Spells bits.old bits.new (when present factor 1) value) }
{
    write_field_if(
        bits,
        present,
        value,
        U32Spec::Const(1),
        U32Spec::Const(2),
        U32Spec::Const(4),
        U32Spec::Const(8),
        1,
    )?;
    Ok(())
}

/// Adds how a Modular frame is coded, of an image whose colours are XYB or not.
pub fn write_coding(bits: &mut BitWriter, xyb: bool, coding: FrameCoding) -> Result<(), AllocError>
    requires { the_is_coding coding ≡ true }
    ensures { IfOk result (λ _. Spells bits.old bits.new (the_coding true xyb) coding) }
{
    let kind = type_number(coding.frame_type);
    let flags = flags_number(coding.flags);
    write_number(bits, kind, 2)?;
    write_flag(bits, true)?;
    write_long(bits, flags)?;
    // No YCbCr.
    write_flag_if(bits, !xyb, false, false)?;
    write_factor_if(bits, !coding.flags.use_lf_frame, coding.upsampling)?;
    Ok(())
}

/// Whether the writer spells the factors of extra channels, of which there are `extra`.
pub fn are_factors(told: bool, extra: usize, factors: &[u32]) -> bool
    ensures { result ≡ the_are_factors told extra factors.now }
{
    if !told {
        return factors.len() == 0;
    }
    factors.len() == extra
        && are_spelled(
            factors,
            U32Spec::Const(1),
            U32Spec::Const(2),
            U32Spec::Const(4),
            U32Spec::Const(8),
        )
}

/// Adds the factors of extra channels, of which there are `extra`, if they are present.
pub fn write_factors_if(
    bits: &mut BitWriter,
    present: bool,
    extra: usize,
    factors: &[u32],
) -> Result<(), AllocError>
    requires { the_are_factors present extra factors.now ≡ true }
    ensures { IfOk result (λ _. Spells bits.old bits.new (when present (repeated extra factor) []) factors.now) }
{
    if !present {
        return Ok(());
    }
    write_fields(
        bits,
        factors,
        U32Spec::Const(1),
        U32Spec::Const(2),
        U32Spec::Const(4),
        U32Spec::Const(8),
    )?;
    Ok(())
}

/// Whether a group may have this side.
pub fn is_dim(side: u32) -> bool
    ensures { result ≡ the_is_dim side }
{
    side == 128 || side == 256 || side == 512 || side == 1024
}

/// How often 128 is doubled to the side of a group.
pub fn dim_shift(side: u32) -> u32
    requires { the_is_dim side ≡ true }
    ensures small { result < 4 }
    ensures is { side ≡ 128 * 2 ^ result }
{
    if side == 128 {
        0
    } else if side == 256 {
        1
    } else if side == 512 {
        2
    } else {
        3
    }
}
