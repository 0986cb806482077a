//! What `--info` prints of a file: lines of text.

ghost use Rattle.std.specs.Prelude.{◌≡◌, ◌++◌, IfErr, IfOk, OnOk, string_bytes};
ghost use Rattle.jxlm_bits.specs.Decoding.{Meaning};
ghost use Rattle.jxl_image_header.specs.Images.{image_of};
ghost use Rattle.jxl_info.specs.Texts.{container_line, size_text, image_kind as the_image_kind, loss as the_loss, image_line, preview_line, flag_text as the_flag_text, rate_lines, animation_lines, intrinsic_line, display_lines, reason_line, info_text as the_info_text};
ghost use Rattle.jxl_text.specs.Printing.{line};
ghost use Rattle.jxl_info.specs.Colours.{colour_text};

use crate::channels::{append_channels, append_depth, append_extras};
use crate::colours::append_colour;
use crate::names::orientation_name;
use crate::reasons::append_reason;
use jxl_codestream::error::FrontError;
use jxl_image_header::colour::ColourEncoding;
use jxl_image_header::image::{Animation, ImageHeader};
use jxl_image_header::size::Size;
use jxlm_base::grid::OutOfMemory;
use std::alloc::Global;

#[tactic(auto, unfolding(crate::specs::Texts::container_line))]
fn append_container(text: &mut String, boxed: bool) -> Result<(), OutOfMemory>
    ensures { OnOk result (string_bytes text.new ≡ string_bytes text.old ++ container_line boxed) }
{
    if boxed {
        writeln!(text, "JPEG XL file format container (ISO/IEC 18181-2)")?;
    }
    Ok(())
}

#[tactic(auto, unfolding(crate::specs::Texts::size_text))]
fn append_size(text: &mut String, size: Size) -> Result<(), OutOfMemory>
    ensures { OnOk result (string_bytes text.new ≡ string_bytes text.old ++ size_text size) }
{
    let (width, height) = (size.width, size.height);
    write!(text, "{width}x{height}")?;
    Ok(())
}

#[tactic(auto, unfolding(crate::specs::Texts::image_kind))]
fn image_kind(header: &ImageHeader) -> &'static str
    ensures { result.now ≡ the_image_kind (image_of header.now) }
{
    if header.animation.is_some() {
        "animation"
    } else {
        "image"
    }
}

#[tactic(auto, unfolding(crate::specs::Texts::loss))]
fn loss(header: &ImageHeader) -> &'static str
    ensures { result.now ≡ the_loss (image_of header.now) }
{
    if header.xyb_encoded {
        "lossy"
    } else {
        "(possibly) lossless"
    }
}

#[tactic(auto, unfolding(crate::specs::Texts::image_line))]
fn append_image(text: &mut String, header: &ImageHeader) -> Result<(), OutOfMemory>
    ensures { OnOk result (string_bytes text.new ≡ string_bytes text.old ++ image_line (image_of header.now)) }
{
    let (kind, loss) = (image_kind(header), loss(header));
    write!(text, "JPEG XL {kind}, ")?;
    append_size(text, header.size)?;
    write!(text, ", {loss}, ")?;
    append_depth(text, header.bit_depth)?;
    write!(text, " ")?;
    append_channels(text, header)?;
    writeln!(text)?;
    Ok(())
}

#[tactic(auto, unfolding(crate::specs::Texts::preview_line))]
fn append_preview(text: &mut String, preview: Option<Size>) -> Result<(), OutOfMemory>
    ensures { OnOk result (string_bytes text.new ≡ string_bytes text.old ++ preview_line preview) }
{
    if let Some(size) = preview {
        write!(text, "Preview image: ")?;
        append_size(text, size)?;
        writeln!(text)?;
    }
    Ok(())
}

#[tactic(auto, unfolding(crate::specs::Texts::intrinsic_line))]
fn append_intrinsic(text: &mut String, intrinsic: Option<Size>) -> Result<(), OutOfMemory>
    ensures { OnOk result (string_bytes text.new ≡ string_bytes text.old ++ intrinsic_line intrinsic) }
{
    if let Some(size) = intrinsic {
        write!(text, "Intrinsic dimensions: ")?;
        append_size(text, size)?;
        writeln!(text)?;
    }
    Ok(())
}

#[tactic(auto, unfolding(crate::specs::Texts::flag_text))]
fn flag_text(flag: bool) -> &'static str
    ensures { result.now ≡ the_flag_text flag }
{
    if flag { "1" } else { "0" }
}

#[tactic(auto, unfolding(crate::specs::Texts::rate_lines))]
fn append_rate(text: &mut String, animation: Animation) -> Result<(), OutOfMemory>
    ensures { OnOk result (string_bytes text.new ≡ string_bytes text.old ++ rate_lines animation) }
{
    let (ticks, second) = (animation.tps_numerator, animation.tps_denominator);
    let (loops, timecodes) = (animation.num_loops, flag_text(animation.have_timecodes));
    writeln!(
        text,
        "ticks per second (numerator / denominator): {ticks} / {second}"
    )?;
    writeln!(text, "num_loops: {loops}")?;
    writeln!(text, "have_timecodes: {timecodes}")?;
    Ok(())
}

#[tactic(auto, unfolding(crate::specs::Texts::animation_lines))]
fn append_animation(text: &mut String, animation: Option<Animation>) -> Result<(), OutOfMemory>
    ensures { OnOk result (string_bytes text.new ≡ string_bytes text.old ++ animation_lines animation) }
{
    if let Some(animation) = animation {
        append_rate(text, animation)?;
    }
    Ok(())
}

#[tactic(auto, unfolding(crate::specs::Texts::display_lines))]
fn append_display(text: &mut String, header: &ImageHeader) -> Result<(), OutOfMemory>
    ensures { OnOk result (string_bytes text.new ≡ string_bytes text.old ++ display_lines (image_of header.now)) }
{
    append_preview(text, header.preview)?;
    append_animation(text, header.animation)?;
    append_intrinsic(text, header.intrinsic_size)?;
    let orientation = header.orientation;
    let name = orientation_name(orientation);
    writeln!(text, "Orientation: {orientation} ({name})")?;
    Ok(())
}

// The line of colours, and that of the reason.
#[tactic(auto, unfolding(crate::specs::Texts::reason_line))]
fn append_end(
    text: &mut String,
    colour: ColourEncoding,
    reason: Option<FrontError>,
) -> Result<(), OutOfMemory>
    ensures { OnOk result (string_bytes text.new
        ≡ string_bytes text.old ++ line (colour_text colour) ++ reason_line reason) }
{
    append_colour(text, colour)?;
    writeln!(text)?;
    if let Some(error) = reason {
        append_reason(text, error)?;
        writeln!(text)?;
    }
    Ok(())
}

/// The lines that tell what a file is: whether its codestream stands in boxes, what its image header says, and why it
/// is not decoded, where there is a reason. Out of memory is the only error.
pub fn info_text(
    alloc: Global,
    boxed: bool,
    header: &ImageHeader,
    reason: Option<FrontError>,
) -> Result<String, OutOfMemory>
    ensures { IfOk result (λ text. string_bytes text ≡ the_info_text boxed (image_of header.now) reason) }
{
    let mut text = String::new(alloc);
    append_container(&mut text, boxed)?;
    append_image(&mut text, header)?;
    append_extras(&mut text, &header.ec_info)?;
    append_display(&mut text, header)?;
    append_end(&mut text, header.colour_encoding, reason)?;
    Ok(text)
}
