//! Image headers, field by field.

use check_rows::bytes;
use jxl_image_header::channel::{BitDepth, ExtraChannel};
use jxl_image_header::colour::{ColourEncoding, Primaries, TransferFunction, WhitePoint};
use jxl_image_header::image::ImageHeader;
use jxlm_bits::bits::{Bitstream, BitstreamError};
use jxlm_bits::error::Error;
use std::alloc::Global;

/// Adds a depth, with its exponent's bits after a letter where it has one.
fn tell_depth(text: &mut String, depth: BitDepth) -> Option<()> {
    if depth.exp_bits == 0 {
        write!(text, "{}", depth.bits_per_sample).ok()
    } else {
        write!(text, "{}e{}", depth.bits_per_sample, depth.exp_bits).ok()
    }
}

/// Adds what the header says of how the image is shown, where that is not the usual.
fn tell_display(text: &mut String, header: &ImageHeader) -> Option<()> {
    if header.orientation != 1 {
        write!(text, " turned {}", header.orientation).ok()?;
    }
    if let Some(size) = header.intrinsic_size {
        write!(text, " shown {}x{}", size.width, size.height).ok()?;
    }
    if let Some(size) = header.preview {
        write!(text, " preview {}x{}", size.width, size.height).ok()?;
    }
    if let Some(moves) = header.animation {
        let (n, d) = (moves.tps_numerator, moves.tps_denominator);
        write!(
            text,
            " moves {n}/{d} {} {}",
            moves.num_loops, moves.have_timecodes
        )
        .ok()?;
    }
    Some(())
}

/// Adds the extra channels: of each its kind, depth, shift and the length of its name.
fn tell_channels(text: &mut String, channels: &[ExtraChannel]) -> Option<()> {
    for channel in channels {
        write!(text, " extra {} ", channel.kind as u32).ok()?;
        tell_depth(text, channel.bit_depth)?;
        write!(text, " {} {}", channel.dim_shift, channel.name_len).ok()?;
        if channel.alpha_associated {
            write!(text, " multiplied").ok()?;
        }
    }
    Some(())
}

/// The number of a white point.
fn white_number(white: WhitePoint) -> u32 {
    match white {
        WhitePoint::D65 => 1,
        WhitePoint::Custom(_) => 2,
        WhitePoint::E => 10,
        WhitePoint::Dci => 11,
    }
}

/// The number of primaries.
fn primaries_number(primaries: Primaries) -> u32 {
    match primaries {
        Primaries::Srgb => 1,
        Primaries::Custom(_) => 2,
        Primaries::Bt2100 => 9,
        Primaries::P3 => 11,
    }
}

/// The number of a transfer function, or 0, and its exponent.
fn function_number(function: TransferFunction) -> (u32, u32) {
    match function {
        TransferFunction::Gamma(exponent) => (0, exponent),
        TransferFunction::Bt709 => (1, 0),
        TransferFunction::Linear => (8, 0),
        TransferFunction::Srgb => (13, 0),
        TransferFunction::Pq => (16, 0),
        TransferFunction::Dci => (17, 0),
        TransferFunction::Hlg => (18, 0),
    }
}

/// Adds the numbers of a colour encoding.
fn tell_colour(text: &mut String, colour: ColourEncoding) -> Option<()> {
    let space = colour.colour_space as u32;
    if colour.want_icc {
        return write!(text, " profile {space}").ok();
    }
    let (white, primaries) = (
        white_number(colour.white_point),
        primaries_number(colour.primaries),
    );
    let (curve, gamma) = function_number(colour.transfer_function);
    let intent = colour.rendering_intent as u32;
    write!(
        text,
        " colour {space} {white} {primaries} {curve} {gamma} {intent}"
    )
    .ok()?;
    if let WhitePoint::Custom(point) = colour.white_point {
        write!(text, " white {},{}", point.x, point.y).ok()?;
    }
    if let Primaries::Custom(custom) = colour.primaries {
        let (red, green, blue) = (custom.red, custom.green, custom.blue);
        write!(text, " red {},{}", red.x, red.y).ok()?;
        write!(
            text,
            " green {},{} blue {},{}",
            green.x, green.y, blue.x, blue.y
        )
        .ok()?;
    }
    Some(())
}

/// Adds all of a header, and what it has that is not supported.
pub fn tell_image(text: &mut String, header: &ImageHeader) -> Option<()> {
    write!(text, "{}x{} ", header.size.width, header.size.height).ok()?;
    tell_depth(text, header.bit_depth)?;
    if header.modular_16bit_buffers {
        write!(text, " narrow").ok()?;
    }
    tell_display(text, header)?;
    tell_channels(text, &header.ec_info)?;
    if header.xyb_encoded {
        write!(text, " xyb").ok()?;
    }
    tell_colour(text, header.colour_encoding)?;
    let tone = header.tone_mapping;
    let (target, least, below) = (tone.intensity_target, tone.min_nits, tone.linear_below);
    write!(
        text,
        " tone {target} {least} {} {below}",
        tone.relative_to_max_display
    )
    .ok()?;
    if header.extensions != 0 {
        write!(text, " extensions {}", header.extensions).ok()?;
    }
    if let Some(refusal) = header.refused() {
        write!(text, " refused {refusal:?}").ok()?;
    }
    Some(())
}

/// Adds the name of an error: `Eof`, the name and the number of what has no meaning, or the text of a
/// limit.
pub fn tell_error(text: &mut String, error: Error) -> Option<()> {
    match error {
        Error::Bitstream(BitstreamError::UnexpectedEof) => write!(text, "Eof").ok(),
        Error::Bitstream(BitstreamError::InvalidEnum { name, value }) => {
            write!(text, "{name} {value}").ok()
        }
        Error::Bitstream(BitstreamError::ProfileConformance(limit)) => {
            write!(text, "{limit}").ok()
        }
        _ => None,
    }
}

/// Adds what the header in these bytes is, and where it ends.
fn tell_all(alloc: Global, text: &mut String, bytes: &[u8]) -> Option<()> {
    let mut bits = Bitstream::new(bytes);
    match ImageHeader::parse(alloc, &mut bits) {
        Ok(header) => tell_image(text, &header)?,
        Err(error) => tell_error(text, error)?,
    }
    write!(text, " @{}", bits.position()).ok()
}

/// A row asks with the bytes of a codestream. It gives its image header, field by field, or the name of the error; and
/// after an at sign where the reader is then.
pub fn seen(alloc: Global, asked: &str) -> Option<String> {
    let bytes = bytes(alloc, asked)?;
    let mut text = String::new(alloc);
    tell_all(alloc, &mut text, &bytes)?;
    Some(text)
}
