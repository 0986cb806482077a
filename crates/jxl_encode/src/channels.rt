//! The channels of a picture, as an encoder of a frame is given them.

ghost use Rattle.std.specs.Prelude.{◌≡◌, ◌≤◌, ◌^◌, ◌++◌, IfOk, None, length, map, replicate};
ghost use Rattle.jxlm_transform.specs.Params.{channel_params, with_sums, with_tables};
ghost use Rattle.jxlm_transform.specs.declared.param.ChannelShift.TheVariants.{Shifts};
ghost use Rattle.jxlm_transform.specs.declared.param.GradientSums.TheVariants.{Clamped};
ghost use Rattle.jxlm_transform.specs.declared.param.PaletteTables.TheVariants.{OfDeltasToo};
ghost use Rattle.jxl_image_header.specs.Images.{image_of, image_refusal};
ghost use Rattle.jxl_encode.specs.Inner.Frames.{AreGiven, in_file};

use jxl_image_header::image::ImageHeader;
use jxl_image_header::size::Size;
use jxl_picture::picture::colours;
use jxlm_base::grid::OutOfMemory;
use jxlm_transform::param::{ChannelShift, GradientSums, ModularChannelParams, PaletteTables};
use std::alloc::Global;

/// A channel of this shift in a picture of this size, as files have it.
fn channel_of(size: Size, shift: u32) -> ModularChannelParams
    ensures { result ≡ in_file size shift }
{
    ModularChannelParams::with_shift(size.width, size.height, ChannelShift::from_shift(shift))
        .with_palette_tables(PaletteTables::OfDeltasToo)
        .with_gradient_sums(GradientSums::Clamped)
}

/// The channels of a picture with this header: those of colours, and the extra ones, each of its own shift.
pub(crate) fn channels_of(
    alloc: Global,
    header: &ImageHeader,
) -> Result<Vec<ModularChannelParams>, OutOfMemory>
    requires supported { image_refusal (image_of header.now) ≡ None }
    requires wide { header.now.size.width ≤ 2 ^ 30 }
    requires high { header.now.size.height ≤ 2 ^ 30 }
    requires few { length header.now.ec_info.items ≤ 4096 }
    ensures { IfOk result (λ v. AreGiven (image_of header.now) v.items) }
{
    let mut list = vec![in alloc; channel_of(header.size, 0); colours(header)]?;
    for channel in &header.ec_info {
        list.push(channel_of(header.size, channel.dim_shift))?;
    }
    Ok(list)
}
