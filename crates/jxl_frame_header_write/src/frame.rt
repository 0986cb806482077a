//! The header of a frame, written.

ghost use Rattle.std.specs.Prelude.{◌≡◌, true, IfOk};
ghost use Rattle.jxlm_bit_writer.specs.Writes.{Writes};
ghost use Rattle.jxl_image_header.specs.Images.{image_of};
ghost use Rattle.jxl_frame_header.specs.Frames.{frame_of, frame_header};
ghost use Rattle.jxl_frame_header_write.specs.Writable.{is_writable as the_is_writable};

use crate::blending::{
    are_blendings, is_blending, is_use, write_blending_if, write_blendings_if, write_use,
};
use crate::coding::{are_factors, dim_shift, is_coding, is_dim, write_coding, write_factors_if};
use crate::filter::{is_filter, write_filter};
use crate::passes::{are_passes, write_passes_if};
use crate::place::{is_level, is_place, write_level_if, write_place_if};
use jxl_frame_header::frame::FrameHeader;
use jxl_image_header::image::ImageHeader;
use jxl_image_header_write::fields::{write_bundle_if, write_no_extensions_if, write_no_name};
use jxlm_bit_writer::spelled::write_number;
use jxlm_bit_writer::writer::BitWriter;
use std::alloc::AllocError;

/// Whether the writer spells the header of a frame of this image.
pub fn is_writable(image: &ImageHeader, frame: &FrameHeader) -> bool
    ensures { result ≡ the_is_writable (image_of image.now) (frame_of frame.now) }
{
    let extra = image.ec_info.len();
    let frame_type = frame.coding.frame_type;
    let shown = frame_type.is_shown();
    let lf = frame_type.is_lf();
    let partial = frame.place.is_partial();
    let colours = frame.blending.blending_info;
    let replaces = colours.replaces() && !partial;
    is_coding(frame.coding)
        && are_factors(
            !frame.coding.flags.use_lf_frame,
            extra,
            &frame.ec_upsampling,
        )
        && is_dim(frame.group_dim)
        && are_passes(!frame_type.is_reference(), &frame.passes)
        && is_level(lf, frame.place.lf_level)
        && is_place(!lf, image.size, shown, frame.place.crop)
        && is_blending(shown, extra, partial, colours)
        && are_blendings(shown, extra, partial, &frame.blending.ec_blending_info)
        && is_use(
            shown,
            image.animation,
            frame_type,
            replaces,
            frame.frame_use,
        )
        && frame.name_len == 0
        && is_filter(frame.restoration_filter)
        && frame.extensions == 0
}

/// Adds the header of a frame of this image, so that `FrameHeader::parse` returns it.
///
/// Filters as by default take one bit, and each `U32` is spelled by the first of its parts that has the value. Floats
/// of filters, which a header does not keep, are those by default.
pub fn write_frame_header(
    bits: &mut BitWriter,
    image: &ImageHeader,
    frame: &FrameHeader,
) -> Result<(), AllocError>
    requires { the_is_writable (image_of image.now) (frame_of frame.now) ≡ true }
    ensures { IfOk result (λ _. Writes bits.old bits.new (frame_header (image_of image.now)).read
        (frame_of frame.now)) }
{
    let extra = image.ec_info.len();
    let coding = frame.coding;
    let frame_type = coding.frame_type;
    let shown = frame_type.is_shown();
    let lf = frame_type.is_lf();
    let partial = frame.place.is_partial();
    let colours = frame.blending.blending_info;
    let replaces = colours.replaces() & !partial;
    let shift = dim_shift(frame.group_dim);
    write_bundle_if(bits, true, true)?;
    write_coding(bits, image.xyb_encoded, coding)?;
    write_factors_if(
        bits,
        !coding.flags.use_lf_frame,
        extra,
        &frame.ec_upsampling,
    )?;
    write_number(bits, shift, 2)?;
    write_passes_if(bits, !frame_type.is_reference(), &frame.passes)?;
    write_level_if(bits, lf, frame.place.lf_level)?;
    write_place_if(bits, !lf, image.size, shown, frame.place.crop)?;
    write_blending_if(bits, shown, extra, partial, colours)?;
    write_blendings_if(
        bits,
        shown,
        extra,
        partial,
        &frame.blending.ec_blending_info,
    )?;
    write_use(
        bits,
        shown,
        image.animation,
        frame_type,
        replaces,
        frame.frame_use,
    )?;
    write_no_name(bits)?;
    write_filter(bits, frame.restoration_filter)?;
    write_no_extensions_if(bits, true)?;
    Ok(())
}
