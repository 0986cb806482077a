//! The samples of images, as rows have them.

use jxl_modular::Sample;
use jxl_modular::decoder::Decoder;
use jxl_modular::grid::AlignedGrid;
use jxl_modular::image::ModularImageDestination;
use std::alloc::{AllocError, Global};

/// All samples of these channels, channel by channel and row by row.
pub fn samples_of<S: Sample>(
    alloc: Global,
    channels: &[AlignedGrid<S>],
) -> Result<Vec<i32>, AllocError> {
    let mut samples = Vec::new(alloc);
    for grid in channels {
        for sample in grid.buf() {
            samples.push(sample.to_i32())?;
        }
    }
    Ok(samples)
}

/// All samples of an image.
pub fn samples<S: Sample, D: Decoder>(
    alloc: Global,
    image: &ModularImageDestination<S, D>,
) -> Result<Vec<i32>, AllocError> {
    samples_of(alloc, image.image_channels())
}
