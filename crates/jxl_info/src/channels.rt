//! The channels of a picture.

ghost use Rattle.std.specs.Prelude.{◌≡◌, ◌++◌, OnOk, string_bytes};
ghost use Rattle.jxl_image_header.specs.Images.{image_of};
ghost use Rattle.jxl_info.specs.Channels.{depth_text, has_black as the_has_black, colours_name as the_colours_name, is_with_colours as the_is_with_colours, kinds_but, channels_text, shift_text, premultiplied_text, extra_line, extra_lines};

use crate::names::kind_name;
use jxl_image_header::channel::{BitDepth, ExtraChannel, ExtraChannelKind};
use jxl_image_header::image::ImageHeader;
use jxl_picture::picture::{has_alpha, is_grey};
use jxlm_base::grid::OutOfMemory;

/// Adds how samples are stored.
#[tactic(auto, unfolding(crate::specs::Channels::depth_text))]
pub fn append_depth(text: &mut String, depth: BitDepth) -> Result<(), OutOfMemory>
    ensures { OnOk result (string_bytes text.new ≡ string_bytes text.old ++ depth_text depth) }
{
    let (bits, exponent) = (depth.bits_per_sample, depth.exp_bits);
    write!(text, "{bits}-bit")?;
    if exponent != 0 {
        write!(text, " float ({exponent} exponent bits)")?;
    }
    Ok(())
}

fn has_black(header: &ImageHeader) -> bool
    ensures { result ≡ the_has_black (image_of header.now) }
{
    header.ec_info.iter().any(|channel| channel.kind.is_black())
}

#[tactic(auto, unfolding(crate::specs::Channels::colours_name))]
fn colours_name(header: &ImageHeader) -> &'static str
    ensures { result.now ≡ the_colours_name (image_of header.now) }
{
    if is_grey(header) {
        "Grayscale"
    } else if has_black(header) {
        "CMYK"
    } else if has_alpha(header) {
        "RGBA"
    } else {
        "RGB"
    }
}

// Whether the first extra channel of this kind is printed with the colours.
fn is_with_colours(grey: bool, black: bool, kind: ExtraChannelKind) -> bool
    ensures { result ≡ the_is_with_colours grey black kind }
{
    if grey {
        false
    } else if black {
        kind.is_black()
    } else {
        kind.is_alpha()
    }
}

// The kinds of extra channels but the first that is printed with the colours, each after a plus.
fn append_kinds(
    text: &mut String,
    grey: bool,
    black: bool,
    extra: &[ExtraChannel],
) -> Result<(), OutOfMemory>
    ensures { OnOk result (string_bytes text.new ≡ string_bytes text.old ++ kinds_but grey black extra.now) }
{
    let mut passed = false;
    for channel in extra {
        if !passed && is_with_colours(grey, black, channel.kind) {
            passed = true;
        } else {
            let name = kind_name(channel.kind);
            write!(text, "+{name}")?;
        }
    }
    Ok(())
}

/// Adds the names of all channels.
#[tactic(auto, unfolding(crate::specs::Channels::channels_text))]
pub fn append_channels(text: &mut String, header: &ImageHeader) -> Result<(), OutOfMemory>
    ensures { OnOk result (string_bytes text.new ≡ string_bytes text.old ++ channels_text (image_of header.now)) }
{
    let name = colours_name(header);
    write!(text, "{name}")?;
    append_kinds(text, is_grey(header), has_black(header), &header.ec_info)
}

#[tactic(auto, unfolding(crate::specs::Channels::shift_text))]
fn append_shift(text: &mut String, shift: u32) -> Result<(), OutOfMemory>
    ensures { OnOk result (string_bytes text.new ≡ string_bytes text.old ++ shift_text shift) }
{
    if shift != 0 {
        write!(text, ", dim_shift {shift}")?;
    }
    Ok(())
}

#[tactic(auto, unfolding(crate::specs::Channels::premultiplied_text))]
fn append_premultiplied(text: &mut String, premultiplied: bool) -> Result<(), OutOfMemory>
    ensures { OnOk result (string_bytes text.new ≡ string_bytes text.old ++ premultiplied_text premultiplied) }
{
    if premultiplied {
        write!(text, ", premultiplied")?;
    }
    Ok(())
}

#[tactic(auto, unfolding(crate::specs::Channels::extra_line))]
fn append_extra(text: &mut String, number: usize, channel: &ExtraChannel) -> Result<(), OutOfMemory>
    ensures { OnOk result (string_bytes text.new ≡ string_bytes text.old ++ extra_line number channel.now) }
{
    let name = kind_name(channel.kind);
    write!(text, "extra channel {number}: {name}, ")?;
    append_depth(text, channel.bit_depth)?;
    append_shift(text, channel.dim_shift)?;
    append_premultiplied(text, channel.alpha_associated)?;
    writeln!(text)?;
    Ok(())
}

/// Adds a line for each extra channel.
pub fn append_extras(text: &mut String, extra: &[ExtraChannel]) -> Result<(), OutOfMemory>
    ensures { OnOk result (string_bytes text.new ≡ string_bytes text.old ++ extra_lines extra.now) }
{
    for (number, channel) in extra.iter().enumerate() {
        append_extra(text, number, channel)?;
    }
    Ok(())
}
