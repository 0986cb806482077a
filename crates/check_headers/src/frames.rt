//! Frame headers and tables of contents, field by field.

ghost use Rattle.std.specs.Prelude.{◌≡◌, ◌*◌, ◌^◌, ◌<◌, IfOk, length};
ghost use Rattle.jxlm_bits.specs.Bits.{bytes_of};

use crate::images::tell_error;
use check_rows::bytes;
use jxl_codestream::layout::Layout;
use jxl_codestream::profile::read_encoded;
use jxl_codestream::toc::Toc;
use jxl_coding::decoder::EntropyDecoder;
use jxl_frame_header::blending::{BlendingInfo, FrameBlending, FrameUse};
use jxl_frame_header::coding::FrameCoding;
use jxl_frame_header::frame::FrameHeader;
use jxl_frame_header::passes::Passes;
use jxl_frame_header::place::FrameArea;
use jxl_image_header::fields::align;
use jxl_image_header::image::ImageHeader;
use jxlm_bits::bits::Bitstream;
use jxlm_bits::error::{Error, Result};
use std::alloc::Global;

/// Adds numbers, with commas between.
fn tell_list(text: &mut String, numbers: &[u32]) -> Option<()> {
    let mut first = true;
    for number in numbers {
        if !first {
            write!(text, ",").ok()?;
        }
        write!(text, "{number}").ok()?;
        first = false;
    }
    Some(())
}

/// Adds the flags of a frame.
fn tell_flags(text: &mut String, coding: FrameCoding) -> Option<()> {
    if coding.flags.noise {
        write!(text, " noise").ok()?;
    }
    if coding.flags.patches {
        write!(text, " patches").ok()?;
    }
    if coding.flags.splines {
        write!(text, " splines").ok()?;
    }
    if coding.flags.use_lf_frame {
        write!(text, " uses-lf").ok()?;
    }
    if coding.flags.skip_adaptive_lf_smoothing {
        write!(text, " unsmoothed").ok()?;
    }
    Some(())
}

/// Adds how a frame is coded, and the sides of its groups.
fn tell_coding(text: &mut String, header: &FrameHeader) -> Option<()> {
    let coding = header.coding;
    write!(text, "{:?} {:?}", coding.frame_type, coding.encoding).ok()?;
    tell_flags(text, coding)?;
    if coding.do_ycbcr {
        write!(text, " ycbcr").ok()?;
    }
    if coding.upsampling != 1 {
        write!(text, " up {}", coding.upsampling).ok()?;
    }
    if header.ec_upsampling.len() > 0 {
        write!(text, " extra-up ").ok()?;
        tell_list(text, &header.ec_upsampling)?;
    }
    write!(text, " dim {}", header.group_dim).ok()
}

/// Adds passes, where there are several.
fn tell_passes(text: &mut String, passes: &Passes) -> Option<()> {
    if passes.num_passes == 1 {
        return Some(());
    }
    write!(text, " passes {} shifts ", passes.num_passes).ok()?;
    tell_list(text, &passes.shift)?;
    write!(text, " down ").ok()?;
    tell_list(text, &passes.downsample)?;
    write!(text, " last ").ok()?;
    tell_list(text, &passes.last_pass)
}

/// Adds where a frame lies.
fn tell_place(text: &mut String, place: FrameArea) -> Option<()> {
    if place.lf_level != 0 {
        write!(text, " level {}", place.lf_level).ok()?;
    }
    if let Some(crop) = place.crop {
        write!(text, " crop {},{}", crop.x0, crop.y0).ok()?;
        write!(text, " {}x{}", crop.width, crop.height).ok()?;
        if crop.partial {
            write!(text, " partial").ok()?;
        }
    }
    Some(())
}

/// Adds how some channels are blended.
fn tell_info(text: &mut String, info: BlendingInfo) -> Option<()> {
    write!(
        text,
        " {:?} {} {} {}",
        info.mode, info.alpha_channel, info.clamp, info.source
    )
    .ok()
}

/// Adds how a frame is blended, the colours first.
fn tell_blending(text: &mut String, blending: &FrameBlending) -> Option<()> {
    tell_info(text, blending.blending_info)?;
    for info in blending.ec_blending_info.iter() {
        tell_info(text, *info)?;
    }
    Some(())
}

/// Adds what becomes of a frame; in an animation of one that is shown, for how long, and its code.
fn tell_frame_use(text: &mut String, frame_use: FrameUse, timed: bool) -> Option<()> {
    if timed {
        write!(text, " for {} {}", frame_use.duration, frame_use.timecode).ok()?;
    }
    if frame_use.is_last {
        write!(text, " last").ok()?;
    }
    write!(text, " save {}", frame_use.save_as_reference).ok()?;
    if frame_use.save_before_ct {
        write!(text, " before").ok()?;
    }
    Some(())
}

/// Adds the rest of a header.
fn tell_closing(text: &mut String, header: &FrameHeader) -> Option<()> {
    write!(text, " name {}", header.name_len).ok()?;
    if header.restoration_filter.gab {
        write!(text, " gab").ok()?;
    }
    write!(text, " epf {}", header.restoration_filter.epf_iters).ok()?;
    if header.restoration_filter.extensions != 0 {
        write!(
            text,
            " filter-extensions {}",
            header.restoration_filter.extensions
        )
        .ok()?;
    }
    if header.extensions != 0 {
        write!(text, " extensions {}", header.extensions).ok()?;
    }
    Some(())
}

/// Adds all of a frame header.
pub fn tell_frame(text: &mut String, image: &ImageHeader, header: &FrameHeader) -> Option<()> {
    tell_coding(text, header)?;
    tell_passes(text, &header.passes)?;
    tell_place(text, header.place)?;
    tell_blending(text, &header.blending)?;
    let timed = image.animation.is_some() && header.coding.frame_type.is_shown();
    tell_frame_use(text, header.frame_use, timed)?;
    tell_closing(text, header)
}

/// Adds where the sections of a frame lie, by number: the first byte, and how many there are.
fn tell_toc(text: &mut String, toc: &Toc) -> Option<()> {
    write!(text, " toc").ok()?;
    let mut first = true;
    for entry in toc.entries.iter() {
        write!(
            text,
            "{} {}+{}",
            if first { "" } else { "," },
            entry.offset,
            entry.size
        )
        .ok()?;
        first = false;
    }
    Some(())
}

/// The header of the first frame, after the image header, its profile and the bits up to a byte.
pub fn first_frame(
    alloc: Global,
    bits: &mut Bitstream<'_>,
    image: &ImageHeader,
) -> Result<FrameHeader>
    requires { 8 * length (bytes_of bits.old) < 2 ^ 64 }
    ensures dim { IfOk result (λ h. 0 < h.group_dim) }
    ensures bytes { bytes_of bits.new ≡ bytes_of bits.old }
{
    if image.colour_encoding.want_icc {
        read_encoded::<EntropyDecoder>(alloc, bits, 1 << 20)?;
    }
    align(bits)?;
    FrameHeader::parse(alloc, bits, image)
}

/// Adds the table of contents of a frame that is supported, or what is not.
fn tell_sections(
    alloc: Global,
    text: &mut String,
    bits: &mut Bitstream<'_>,
    image: &ImageHeader,
    header: &FrameHeader,
) -> Option<()>
    requires bytes { 8 * length (bytes_of bits.old) < 2 ^ 64 }
    requires dim { 0 < header.now.group_dim }
{
    if let Some(refusal) = header.refused(image) {
        return write!(text, " refused {refusal:?}").ok();
    }
    let layout = Layout::new(header.size(image.size), header.group_dim, 1)?;
    match Toc::parse::<EntropyDecoder>(alloc, bits, layout.section_count()) {
        Ok(toc) => tell_toc(text, &toc),
        Err(error) => {
            write!(text, " ").ok()?;
            tell_error(text, error)
        }
    }
}

/// Adds what the first frame in these bytes is, and where the reader is then.
fn tell_all(alloc: Global, text: &mut String, bytes: &[u8]) -> Option<()> {
    if bytes.len() >= 1 << 32 {
        return None;
    }
    let mut bits = Bitstream::new(bytes);
    let image = ImageHeader::parse(alloc, &mut bits).ok()?;
    match first_frame(alloc, &mut bits, &image) {
        Ok(header) => {
            tell_frame(text, &image, &header)?;
            tell_sections(alloc, text, &mut bits, &image, &header)?;
        }
        // where a decoder's error leaves the reader is the decoder's own matter
        Err(Error::Decoder(error)) => return write!(text, "decoder {error:?}").ok(),
        Err(error) => tell_error(text, error)?,
    }
    write!(text, " @{}", bits.position()).ok()
}

/// A row asks with the bytes of a codestream whose image header is whole. It gives the header of the first frame, field
/// by field, and what of it is not supported, or else its table of contents; or the name of the error; and after an at
/// sign where the reader is then.
pub fn seen(alloc: Global, asked: &str) -> Option<String> {
    let bytes = bytes(alloc, asked)?;
    let mut text = String::new(alloc);
    tell_all(alloc, &mut text, &bytes)?;
    Some(text)
}
