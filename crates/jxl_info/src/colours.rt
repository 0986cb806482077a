//! The line of colours.

ghost use Rattle.std.specs.Prelude.{◌≡◌, ◌++◌, ◌<◌, codes, OnOk, string_bytes};
ghost use Rattle.jxl_info.specs.Colours.{three_digits, millionths, coordinate_text, point_text, white_text, primaries_text, transfer_text, mixed_text, light_text, meaning_text, colour_text};

use crate::names::{intent_name, space_name};
use jxl_image_header::colour::{
    Chromaticity, ColourEncoding, Primaries, TransferFunction, WhitePoint,
};
use jxlm_base::grid::OutOfMemory;

// Three digits of a number below 1000.
#[tactic(auto, unfolding(crate::specs::Colours::three_digits))]
fn append_digits(text: &mut String, n: u32) -> Result<(), OutOfMemory>
    ensures { OnOk result (string_bytes text.new ≡ string_bytes text.old ++ three_digits n) }
{
    let (first, second, third) = (n / 100, n / 10 % 10, n % 10);
    write!(text, "{first}{second}{third}")?;
    Ok(())
}

// Millionths, with six digits after the point.
#[tactic(auto, unfolding(crate::specs::Colours::millionths))]
fn append_millionths(text: &mut String, n: u32) -> Result<(), OutOfMemory>
    ensures { OnOk result (string_bytes text.new ≡ string_bytes text.old ++ millionths n) }
{
    let (whole, part) = (n / 1_000_000, n % 1_000_000);
    write!(text, "{whole}.")?;
    append_digits(text, part / 1000)?;
    append_digits(text, part % 1000)
}

#[tactic(auto, unfolding(crate::specs::Colours::coordinate_text))]
fn append_coordinate(text: &mut String, v: u32) -> Result<(), OutOfMemory>
    ensures { OnOk result (string_bytes text.new ≡ string_bytes text.old ++ coordinate_text v) }
{
    if v % 2 == 0 {
        return append_millionths(text, v / 2);
    }
    write!(text, "-")?;
    append_millionths(text, v / 2 + 1)
}

#[tactic(auto, unfolding(crate::specs::Colours::point_text))]
fn append_point(text: &mut String, point: Chromaticity) -> Result<(), OutOfMemory>
    ensures { OnOk result (string_bytes text.new ≡ string_bytes text.old ++ point_text point) }
{
    write!(text, "(x=")?;
    append_coordinate(text, point.x)?;
    write!(text, ",y=")?;
    append_coordinate(text, point.y)?;
    write!(text, ")")?;
    Ok(())
}

#[tactic(auto, unfolding(crate::specs::Colours::white_text))]
fn append_white(text: &mut String, white: WhitePoint) -> Result<(), OutOfMemory>
    ensures { OnOk result (string_bytes text.new ≡ string_bytes text.old ++ white_text white) }
{
    match white {
        WhitePoint::D65 => write!(text, "D65")?,
        WhitePoint::Custom(point) => {
            write!(text, "Custom, white_point")?;
            append_point(text, point)?;
        }
        WhitePoint::E => write!(text, "E")?,
        WhitePoint::Dci => write!(text, "P3")?,
    }
    Ok(())
}

#[tactic(auto, unfolding(crate::specs::Colours::primaries_text))]
fn append_primaries(text: &mut String, primaries: Primaries) -> Result<(), OutOfMemory>
    ensures { OnOk result (string_bytes text.new ≡ string_bytes text.old ++ primaries_text primaries) }
{
    match primaries {
        Primaries::Srgb => write!(text, "sRGB primaries")?,
        Primaries::Custom(custom) => {
            write!(text, "Custom primaries: red")?;
            append_point(text, custom.red)?;
            write!(text, ", green")?;
            append_point(text, custom.green)?;
            write!(text, ", blue")?;
            append_point(text, custom.blue)?;
        }
        Primaries::Bt2100 => write!(text, "Rec.2100 primaries")?,
        Primaries::P3 => write!(text, "P3 primaries")?,
    }
    Ok(())
}

#[tactic(auto, unfolding(crate::specs::Colours::transfer_text))]
fn append_transfer(text: &mut String, transfer: TransferFunction) -> Result<(), OutOfMemory>
    ensures { OnOk result (string_bytes text.new ≡ string_bytes text.old ++ transfer_text transfer) }
{
    match transfer {
        TransferFunction::Gamma(exponent) => {
            let last = exponent % 10;
            write!(text, "gamma(")?;
            append_millionths(text, exponent / 10)?;
            write!(text, "{last})")?;
        }
        TransferFunction::Bt709 => write!(text, "709")?,
        TransferFunction::Linear => write!(text, "Linear")?,
        TransferFunction::Srgb => write!(text, "sRGB")?,
        TransferFunction::Pq => write!(text, "PQ")?,
        TransferFunction::Dci => write!(text, "DCI")?,
        TransferFunction::Hlg => write!(text, "HLG")?,
    }
    Ok(())
}

#[tactic(auto, unfolding(crate::specs::Colours::mixed_text))]
fn append_mixed(text: &mut String, colour: ColourEncoding) -> Result<(), OutOfMemory>
    ensures { OnOk result (string_bytes text.new ≡ string_bytes text.old ++ mixed_text colour) }
{
    if !colour.colour_space.is_grey() {
        write!(text, ", ")?;
        append_primaries(text, colour.primaries)?;
    }
    Ok(())
}

#[tactic(auto, unfolding(crate::specs::Colours::light_text))]
fn append_light(text: &mut String, colour: ColourEncoding) -> Result<(), OutOfMemory>
    ensures { OnOk result (string_bytes text.new ≡ string_bytes text.old ++ light_text colour) }
{
    if !colour.colour_space.is_xyb() {
        write!(text, ", ")?;
        append_white(text, colour.white_point)?;
        append_mixed(text, colour)?;
        write!(text, ", ")?;
        append_transfer(text, colour.transfer_function)?;
        write!(text, " transfer function")?;
    }
    Ok(())
}

#[tactic(auto, unfolding(crate::specs::Colours::meaning_text))]
fn append_meaning(text: &mut String, colour: ColourEncoding) -> Result<(), OutOfMemory>
    ensures { OnOk result (string_bytes text.new ≡ string_bytes text.old ++ meaning_text colour) }
{
    if colour.want_icc {
        write!(text, ", ICC profile")?;
    } else {
        let intent = intent_name(colour.rendering_intent);
        append_light(text, colour)?;
        write!(text, ", rendering intent: {intent}")?;
    }
    Ok(())
}

/// Adds what samples of colours mean.
#[tactic(auto, unfolding(crate::specs::Colours::colour_text))]
pub fn append_colour(text: &mut String, colour: ColourEncoding) -> Result<(), OutOfMemory>
    ensures { OnOk result (string_bytes text.new ≡ string_bytes text.old ++ colour_text colour) }
{
    let space = space_name(colour.colour_space);
    write!(text, "Color space: {space}")?;
    append_meaning(text, colour)
}
