//! The channels of a picture, of samples that follow one another.

ghost use Rattle.std.specs.Prelude.{◌≡◌, ◌^◌, ◌≤◌, IfOk, length};
ghost use Rattle.jxl_image_header.specs.Images.{image_of};
ghost use Rattle.jxl_picture.specs.Limits.{channel_count as the_channel_count};
ghost use Rattle.jxl_picture.specs.Pictures.{IsWhole};
ghost use Rattle.jxl_c_picture.specs.Cells.{cells_of_all};
ghost use Rattle.jxl_c_picture.specs.Channels.{sample_count as the_sample_count};

use crate::channels::{cells_in, channel_at, channel_count};
use jxl_image_header::image::ImageHeader;
use jxl_text::rows::grid_of;
use jxlm_base::grid::{AlignedGrid, OutOfMemory};
use std::alloc::Global;

/// The channels of an upright picture with this header, of samples that follow one another.
pub fn grids_of(
    alloc: Global,
    header: &ImageHeader,
    samples: &[i32],
) -> Result<Vec<AlignedGrid<i32>>, OutOfMemory>
    requires few { the_channel_count (image_of header.now) ≤ 2 ^ 20 }
    requires long { length samples.now ≡ the_sample_count (image_of header.now) }
    ensures whole { IfOk result (λ v. IsWhole (image_of header.now) v.items) }
    ensures samples { IfOk result (λ v. cells_of_all v.items ≡ samples.now) }
{
    let mut grids = Vec::new(alloc);
    let mut left = samples;
    for k in 0..channel_count(header) {
        let channel = channel_at(header, header.size, k);
        let (cells, after) = left.split_at(cells_in(&channel) as usize);
        grids.push(grid_of(
            alloc,
            channel.width as usize,
            channel.height as usize,
            cells,
        )?)?;
        left = after;
    }
    Ok(grids)
}
