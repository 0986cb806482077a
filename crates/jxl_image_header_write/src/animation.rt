//! How pictures of an animation follow each other, written.

ghost use Rattle.std.specs.Prelude.{◌≡◌, true, false, None, IfOk};
ghost use Rattle.std.specs.Option.{option_map_or};
ghost use Rattle.jxlm_bit_writer.specs.Writes.{Spells};
ghost use Rattle.jxl_image_header.specs.Fields.{optional, when};
ghost use Rattle.jxl_image_header.specs.Images.{animation as the_animation};
ghost use Rattle.jxl_image_header_write.specs.Writable.{is_animation as the_is_animation};

use crate::fields::write_flag_if;
use jxl_image_header::image::Animation;
use jxlm_bit_writer::spelled::{is_spelled, write_flag, write_u32};
use jxlm_bit_writer::writer::BitWriter;
use jxlm_bits::bits::U32Spec;
use std::alloc::AllocError;

/// Whether the writer spells an animation.
pub fn is_animation(animation: Animation) -> bool
    ensures { result ≡ the_is_animation animation }
{
    let numerator = is_spelled(
        U32Spec::Const(100),
        U32Spec::Const(1000),
        U32Spec::Offset(1, 10),
        U32Spec::Offset(1, 30),
        animation.tps_numerator,
    );
    let denominator = is_spelled(
        U32Spec::Const(1),
        U32Spec::Const(1001),
        U32Spec::Offset(1, 8),
        U32Spec::Offset(1, 10),
        animation.tps_denominator,
    );
    let loops = is_spelled(
        U32Spec::Const(0),
        U32Spec::Offset(0, 3),
        U32Spec::Offset(0, 16),
        U32Spec::Offset(0, 32),
        animation.num_loops,
    );
    numerator && denominator && loops
}

/// Adds how pictures follow each other.
pub fn write_animation(bits: &mut BitWriter, animation: Animation) -> Result<(), AllocError>
    requires { the_is_animation animation ≡ true }
    ensures { IfOk result (λ _. Spells bits.old bits.new the_animation animation) }
{
    write_u32(
        bits,
        animation.tps_numerator,
        U32Spec::Const(100),
        U32Spec::Const(1000),
        U32Spec::Offset(1, 10),
        U32Spec::Offset(1, 30),
    )?;
    write_u32(
        bits,
        animation.tps_denominator,
        U32Spec::Const(1),
        U32Spec::Const(1001),
        U32Spec::Offset(1, 8),
        U32Spec::Offset(1, 10),
    )?;
    write_u32(
        bits,
        animation.num_loops,
        U32Spec::Const(0),
        U32Spec::Offset(0, 3),
        U32Spec::Offset(0, 16),
        U32Spec::Offset(0, 32),
    )?;
    write_flag(bits, animation.have_timecodes)?;
    Ok(())
}

/// Adds whether pictures follow each other, and how, if that is present; else there is one picture.
pub fn write_animation_if(
    bits: &mut BitWriter,
    present: bool,
    animation: Option<Animation>,
) -> Result<(), AllocError>
    requires spelled { option_map_or the_is_animation animation true ≡ true }
    requires usual { present ≡ false → animation ≡ None }
    ensures { IfOk result (λ _. Spells bits.old bits.new (when present (optional the_animation) None) animation) }
{
    write_flag_if(bits, present, animation.is_some(), false)?;
    match animation {
        Some(animation) => {
            write_animation(bits, animation)?;
            Ok(())
        }
        None => Ok(()),
    }
}
