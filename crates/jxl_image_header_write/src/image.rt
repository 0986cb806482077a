//! Image headers, written.

ghost use Rattle.std.specs.Prelude.{◌≡◌, ◌≤◌, true, false, IfOk, [], length};
ghost use Rattle.std.specs.List.{list_all};
ghost use Rattle.jxlm_bit_writer.specs.Writes.{Spells, Writes};
ghost use Rattle.jxl_image_header.specs.Fields.{when};
ghost use Rattle.jxl_image_header.specs.Images.{image_of, image_header};
ghost use Rattle.jxl_image_header_write.specs.Inner.Channels.{extra_channels};
ghost use Rattle.jxl_image_header_write.specs.Writable.{is_channel, has_more as more_fields, is_told as told_fields, is_writable as writable};

use crate::animation::write_animation_if;
use crate::channel::{is_usual_depth, write_channels, write_depth_if};
use crate::colour::{is_usual_colour, is_usual_tone, write_colour_if, write_tone_if};
use crate::fields::{write_bundle_if, write_flag_if, write_no_extensions_if, write_number_if};
use crate::size::{write_size, write_size_if};
use jxl_image_header::channel::ExtraChannel;
use jxl_image_header::image::ImageHeader;
use jxlm_bit_writer::spelled::{write_flag, write_number, write_u32};
use jxlm_bit_writer::writer::BitWriter;
use jxlm_bits::bits::U32Spec;
use std::alloc::AllocError;

// Whether the header signals how the image is shown.
fn has_more(header: &ImageHeader) -> bool
    ensures { result ≡ more_fields (image_of header.now) }
{
    header.orientation != 1
        || header.intrinsic_size.is_some()
        || header.preview.is_some()
        || header.animation.is_some()
        || !is_usual_tone(header.tone_mapping)
}

// Whether the header signals anything but the size.
fn is_told(header: &ImageHeader) -> bool
    ensures { result ≡ told_fields (image_of header.now) }
{
    has_more(header)
        || !is_usual_depth(header.bit_depth)
        || !header.modular_16bit_buffers
        || header.ec_info.len() != 0
        || !header.xyb_encoded
        || !is_usual_colour(header.colour_encoding)
}

// Adds the channels beside the colours, after their number, if they are present.
fn write_channels_if(
    bits: &mut BitWriter,
    present: bool,
    channels: &[ExtraChannel],
) -> Result<(), AllocError>
    requires few { length channels.now ≤ 256 }
    requires spelled { list_all is_channel channels.now ≡ true }
    requires usual { present ≡ false → channels.now ≡ [] }
    ensures { IfOk result (λ _. Spells bits.old bits.new
        (when present extra_channels []) channels.now) }
{
    if !present {
        return Ok(());
    }
    write_u32(
        bits,
        channels.len() as u32,
        U32Spec::Const(0),
        U32Spec::Const(1),
        U32Spec::Offset(2, 4),
        U32Spec::Offset(1, 12),
    )?;
    write_channels(bits, channels)?;
    Ok(())
}

/// Adds an image header, from its signature on, so that `ImageHeader::parse` returns it.
///
/// Bundles as by default take one bit, each `U32` is spelled by the first of its parts that has the value, and a width by
/// the first ratio that has it. Matrices of XYB and weights of upsampling, which a header does not keep, are those by
/// default.
pub fn write_image_header(bits: &mut BitWriter, header: &ImageHeader) -> Result<(), AllocError>
    requires { writable (image_of header.now) ≡ true }
    ensures { IfOk result (λ _. Writes bits.old bits.new image_header.read (image_of header.now)) }
{
    let more = has_more(header);
    let told = is_told(header);
    write_number(bits, 0x0AFF, 16)?;
    write_size(bits, false, header.size)?;
    write_bundle_if(bits, true, told)?;
    write_flag_if(bits, told, more, false)?;
    write_number_if(bits, more, header.orientation - 1, 3, 0)?;
    write_size_if(bits, more, false, header.intrinsic_size)?;
    write_size_if(bits, more, true, header.preview)?;
    write_animation_if(bits, more, header.animation)?;
    write_depth_if(bits, told, header.bit_depth)?;
    write_flag_if(bits, told, header.modular_16bit_buffers, true)?;
    write_channels_if(bits, told, &header.ec_info)?;
    write_flag_if(bits, told, header.xyb_encoded, true)?;
    write_colour_if(bits, told, header.colour_encoding)?;
    write_tone_if(bits, more, header.tone_mapping)?;
    write_no_extensions_if(bits, told)?;
    write_flag(bits, true)?;
    Ok(())
}
