//! Colour encodings and brightness, written.

ghost use Rattle.std.specs.Prelude.{◌≡◌, ◌||◌, ◌&&◌, not, true, false, IfOk, Some, None, codes};
ghost use Rattle.jxlm_bits.specs.declared.bits.U32Spec.TheVariants.{Const, Offset};
ghost use Rattle.jxlm_bit_writer.specs.Fields.{is_spelled as spelled};
ghost use Rattle.jxlm_bit_writer.specs.Writes.{Spells};
ghost use Rattle.jxl_image_header.specs.Colours.{coordinate, chromaticity, custom_primaries, white_point, primaries, transfer_function, space_of, intent_of, colour_encoding, tone_mapping};
ghost use Rattle.jxl_image_header.specs.Fields.{variant, when};
ghost use Rattle.jxl_image_header.specs.declared.colour.ColourSpace.TheVariants.{Rgb};
ghost use Rattle.jxl_image_header.specs.declared.colour.RenderingIntent.TheVariants.{Relative};
ghost use Rattle.jxl_image_header.specs.declared.colour.TransferFunction.TheVariants.{Gamma};
ghost use Rattle.jxl_image_header_write.specs.Inner.Numbers.{no_chromaticity, no_primaries, white_coordinates as coordinates_of_white, primaries_coordinates as coordinates_of_primaries, exponent_of as the_exponent_of, IsWhiteNumber, IsPrimariesNumber, IsCurveNumber};
ghost use Rattle.jxl_image_header_write.specs.Writable.{is_coordinate, is_chromaticity, is_white, are_primaries, is_function, is_usual_white, is_usual_primaries, is_usual_function, is_usual_intent, is_usual_space, is_unknown_space, is_colour, is_usual_colour as usual_colour, is_tone, is_usual_tone as usual_tone};

use crate::fields::{write_bundle_if, write_enum_if, write_flag_if, write_number_if};
use jxl_image_header::colour::{
    Chromaticity, ColourEncoding, ColourSpace, CustomPrimaries, Primaries, RenderingIntent,
    ToneMapping, TransferFunction, WhitePoint,
};
use jxlm_bit_writer::spelled::{write_flag, write_number, write_u32};
use jxlm_bit_writer::writer::BitWriter;
use jxlm_bits::bits::U32Spec;
use std::alloc::AllocError;

const NO_CHROMATICITY: Chromaticity = Chromaticity { x: 0, y: 0 };

const NO_PRIMARIES: CustomPrimaries = CustomPrimaries {
    red: NO_CHROMATICITY,
    green: NO_CHROMATICITY,
    blue: NO_CHROMATICITY,
};

// Adds a coordinate, if it is present; else it is 0.
fn write_coordinate_if(bits: &mut BitWriter, present: bool, value: u32) -> Result<(), AllocError>
    requires spelled { is_coordinate value ≡ true }
    requires usual { present ≡ false → value ≡ 0 }
    ensures { IfOk result (λ _. Spells bits.old bits.new (coordinate present) value) }
{
    if !present {
        return Ok(());
    }
    write_u32(
        bits,
        value,
        U32Spec::Offset(0, 19),
        U32Spec::Offset(524288, 19),
        U32Spec::Offset(1048576, 20),
        U32Spec::Offset(2097152, 21),
    )?;
    Ok(())
}

// Adds a colour by its coordinates, if they are present; else they are 0.
fn write_chromaticity_if(
    bits: &mut BitWriter,
    present: bool,
    point: Chromaticity,
) -> Result<(), AllocError>
    requires spelled { is_chromaticity point ≡ true }
    requires usual { present ≡ false → point ≡ no_chromaticity }
    ensures { IfOk result (λ _. Spells bits.old bits.new (chromaticity present) point) }
{
    write_coordinate_if(bits, present, point.x)?;
    write_coordinate_if(bits, present, point.y)?;
    Ok(())
}

// Adds three colours by their coordinates, if they are present; else these are 0.
fn write_custom_if(
    bits: &mut BitWriter,
    present: bool,
    mixed: CustomPrimaries,
) -> Result<(), AllocError>
    requires spelled { (is_chromaticity mixed.red && is_chromaticity mixed.green && is_chromaticity mixed.blue) ≡ true }
    requires usual { present ≡ false → mixed ≡ no_primaries }
    ensures { IfOk result (λ _. Spells bits.old bits.new (custom_primaries present) mixed) }
{
    write_chromaticity_if(bits, present, mixed.red)?;
    write_chromaticity_if(bits, present, mixed.green)?;
    write_chromaticity_if(bits, present, mixed.blue)?;
    Ok(())
}

// The number of a white point.
fn white_number(white: WhitePoint) -> u32
    ensures { IsWhiteNumber result white }
{
    match white {
        WhitePoint::D65 => 1,
        WhitePoint::Custom(_) => 2,
        WhitePoint::E => 10,
        WhitePoint::Dci => 11,
    }
}

// The coordinates of a white point; 0 if it has a number of its own.
fn white_coordinates(white: WhitePoint) -> Chromaticity
    ensures { result ≡ coordinates_of_white white }
{
    match white {
        WhitePoint::D65 => NO_CHROMATICITY,
        WhitePoint::Custom(point) => point,
        WhitePoint::E => NO_CHROMATICITY,
        WhitePoint::Dci => NO_CHROMATICITY,
    }
}

// Adds the colour of white, if it is present.
fn write_white_if(bits: &mut BitWriter, present: bool, white: WhitePoint) -> Result<(), AllocError>
    requires spelled { is_white white ≡ true }
    requires usual { present ≡ false → is_usual_white white ≡ true }
    ensures { IfOk result (λ _. Spells bits.old bits.new (white_point present) white) }
{
    let number = white_number(white);
    let point = white_coordinates(white);
    write_enum_if(bits, present, number, 1)?;
    write_chromaticity_if(bits, number == 2, point)?;
    Ok(())
}

// The number of primaries.
fn primaries_number(primaries: Primaries) -> u32
    ensures { IsPrimariesNumber result primaries }
{
    match primaries {
        Primaries::Srgb => 1,
        Primaries::Custom(_) => 2,
        Primaries::Bt2100 => 9,
        Primaries::P3 => 11,
    }
}

// The coordinates of primaries; 0 if they have a number of their own.
fn primaries_coordinates(primaries: Primaries) -> CustomPrimaries
    ensures { result ≡ coordinates_of_primaries primaries }
{
    match primaries {
        Primaries::Srgb => NO_PRIMARIES,
        Primaries::Custom(mixed) => mixed,
        Primaries::Bt2100 => NO_PRIMARIES,
        Primaries::P3 => NO_PRIMARIES,
    }
}

// Adds primaries, if they are present.
fn write_primaries_if(
    bits: &mut BitWriter,
    present: bool,
    mixed: Primaries,
) -> Result<(), AllocError>
    requires spelled { are_primaries mixed ≡ true }
    requires usual { present ≡ false → is_usual_primaries mixed ≡ true }
    ensures { IfOk result (λ _. Spells bits.old bits.new (primaries present) mixed) }
{
    let number = primaries_number(mixed);
    let custom = primaries_coordinates(mixed);
    write_enum_if(bits, present, number, 1)?;
    write_custom_if(bits, number == 2, custom)?;
    Ok(())
}

// The exponent of a transfer function, if it has one.
fn exponent_of(function: TransferFunction) -> Option<u32>
    ensures { result ≡ the_exponent_of function }
{
    match function {
        TransferFunction::Gamma(exponent) => Some(exponent),
        TransferFunction::Bt709 => None,
        TransferFunction::Linear => None,
        TransferFunction::Srgb => None,
        TransferFunction::Pq => None,
        TransferFunction::Dci => None,
        TransferFunction::Hlg => None,
    }
}

// Adds a transfer function by its exponent.
fn write_exponent(bits: &mut BitWriter, exponent: u32) -> Result<(), AllocError>
    requires { is_function (Gamma exponent) ≡ true }
    ensures { IfOk result (λ _. Spells bits.old bits.new (transfer_function true) (Gamma exponent)) }
{
    write_flag(bits, true)?;
    write_number(bits, exponent, 24)?;
    Ok(())
}

// The number of a curve.
fn curve_number(function: TransferFunction) -> u32
    requires { the_exponent_of function ≡ None }
    ensures { IsCurveNumber result function }
{
    match function {
        TransferFunction::Gamma(_) => 0,
        TransferFunction::Bt709 => 1,
        TransferFunction::Linear => 8,
        TransferFunction::Srgb => 13,
        TransferFunction::Pq => 16,
        TransferFunction::Dci => 17,
        TransferFunction::Hlg => 18,
    }
}

// Adds a transfer function, which is a curve, if it is present.
fn write_curve_if(
    bits: &mut BitWriter,
    present: bool,
    function: TransferFunction,
) -> Result<(), AllocError>
    requires curve { the_exponent_of function ≡ None }
    requires usual { present ≡ false → is_usual_function function ≡ true }
    ensures { IfOk result (λ _. Spells bits.old bits.new (transfer_function present) function) }
{
    let number = curve_number(function);
    write_flag_if(bits, present, false, false)?;
    write_enum_if(bits, present, number, 13)?;
    Ok(())
}

// Adds a transfer function, if it is present.
fn write_function_if(
    bits: &mut BitWriter,
    present: bool,
    function: TransferFunction,
) -> Result<(), AllocError>
    requires spelled { is_function function ≡ true }
    requires usual { present ≡ false → is_usual_function function ≡ true }
    ensures { IfOk result (λ _. Spells bits.old bits.new (transfer_function present) function) }
{
    match exponent_of(function) {
        Some(exponent) => write_exponent(bits, exponent),
        None => write_curve_if(bits, present, function),
    }
}

// The number of a rendering intent.
fn intent_number(intent: RenderingIntent) -> u32
    ensures meant { intent_of result ≡ Some intent }
    ensures spelled { spelled (Const 0) (Const 1) (Offset 2 4) (Offset 18 6) result ≡ true }
    ensures usual { is_usual_intent intent ≡ true → result ≡ 1 }
{
    match intent {
        RenderingIntent::Perceptual => 0,
        RenderingIntent::Relative => 1,
        RenderingIntent::Saturation => 2,
        RenderingIntent::Absolute => 3,
    }
}

// Adds how colours outside a range are shown, if it is present.
fn write_intent_if(
    bits: &mut BitWriter,
    present: bool,
    intent: RenderingIntent,
) -> Result<(), AllocError>
    requires usual { present ≡ false → is_usual_intent intent ≡ true }
    ensures { IfOk result (λ _. Spells bits.old bits.new
        (when present (variant (codes "RenderingIntent") intent_of) Relative) intent) }
{
    let number = intent_number(intent);
    write_enum_if(bits, present, number, 1)?;
    Ok(())
}

// The number of a colour space, which only a profile may leave unknown.
fn space_number(space: ColourSpace, profile: bool) -> u32
    requires { (profile || not (is_unknown_space space)) ≡ true }
    ensures meant { space_of profile result ≡ Some space }
    ensures spelled { spelled (Const 0) (Const 1) (Offset 2 4) (Offset 18 6) result ≡ true }
    ensures usual { is_usual_space space ≡ true → result ≡ 0 }
{
    match space {
        ColourSpace::Rgb => 0,
        ColourSpace::Grey => 1,
        ColourSpace::Xyb => 2,
        ColourSpace::Unknown => 3,
    }
}

// Adds the kind of colours, if it is present.
fn write_space_if(
    bits: &mut BitWriter,
    present: bool,
    space: ColourSpace,
    profile: bool,
) -> Result<(), AllocError>
    requires known { (profile || not (is_unknown_space space)) ≡ true }
    requires usual { present ≡ false → is_usual_space space ≡ true }
    ensures { IfOk result (λ _. Spells bits.old bits.new
        (when present (variant (codes "ColourSpace") (space_of profile)) Rgb) space) }
{
    let number = space_number(space, profile);
    write_enum_if(bits, present, number, 0)?;
    Ok(())
}

/// Whether colours are sRGB, as by default.
pub fn is_usual_colour(colour: ColourEncoding) -> bool
    ensures { result ≡ usual_colour colour }
{
    !colour.want_icc
        && matches!(colour.colour_space, ColourSpace::Rgb)
        && matches!(colour.white_point, WhitePoint::D65)
        && matches!(colour.primaries, Primaries::Srgb)
        && matches!(colour.transfer_function, TransferFunction::Srgb)
        && matches!(colour.rendering_intent, RenderingIntent::Relative)
}

/// Adds what colours mean, if it is present; else they are sRGB.
pub fn write_colour_if(
    bits: &mut BitWriter,
    present: bool,
    colour: ColourEncoding,
) -> Result<(), AllocError>
    requires spelled { is_colour colour ≡ true }
    requires usual { present ≡ false → usual_colour colour ≡ true }
    ensures { IfOk result (λ _. Spells bits.old bits.new (colour_encoding present) colour) }
{
    let follows = !is_usual_colour(colour);
    let profile = colour.want_icc;
    let explicit = follows & !profile;
    let grey = colour.colour_space.is_grey();
    let xyb = colour.colour_space.is_xyb();
    write_bundle_if(bits, present, follows)?;
    write_flag_if(bits, follows, profile, false)?;
    write_space_if(bits, follows, colour.colour_space, profile)?;
    write_white_if(bits, explicit & !xyb, colour.white_point)?;
    write_primaries_if(bits, explicit & !(grey | xyb), colour.primaries)?;
    write_function_if(bits, explicit & !xyb, colour.transfer_function)?;
    write_intent_if(bits, explicit, colour.rendering_intent)?;
    Ok(())
}

/// Whether brightness is as by default.
pub fn is_usual_tone(tone: ToneMapping) -> bool
    ensures { result ≡ usual_tone tone }
{
    tone.intensity_target == 0x5BF8
        && tone.min_nits == 0
        && !tone.relative_to_max_display
        && tone.linear_below == 0
}

/// Adds brightness, if it is present; else it is as by default.
pub fn write_tone_if(
    bits: &mut BitWriter,
    present: bool,
    tone: ToneMapping,
) -> Result<(), AllocError>
    requires spelled { is_tone tone ≡ true }
    requires usual { present ≡ false → usual_tone tone ≡ true }
    ensures { IfOk result (λ _. Spells bits.old bits.new (tone_mapping present) tone) }
{
    let follows = !is_usual_tone(tone);
    write_bundle_if(bits, present, follows)?;
    write_number_if(bits, follows, tone.intensity_target, 16, 0x5BF8)?;
    write_number_if(bits, follows, tone.min_nits, 16, 0)?;
    write_flag_if(bits, follows, tone.relative_to_max_display, false)?;
    write_number_if(bits, follows, tone.linear_below, 16, 0)?;
    Ok(())
}
