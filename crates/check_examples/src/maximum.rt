//! The maximum sample of a picture.

use jxl_modular::bits::Bitstream;
use jxl_modular::flat::Steps;
use jxl_modular::plain::PlainDecoder;
use jxl_modular::{ModularChannelParams, ModularParams, Result, decode_picture};
use std::alloc::Global;

/// The maximum sample of the picture of these channels that stands in the bytes.
pub fn maximum(
    alloc: Global,
    bytes: &[u8],
    channels: Vec<ModularChannelParams>,
) -> Result<Option<i32>> {
    let params = ModularParams::with_channels(256, 8, channels, None);
    if !params.is_valid() {
        return Ok(None);
    }
    let mut bits = Bitstream::new(bytes);
    let mut steps = Steps::new();
    let picture = decode_picture::<i32, PlainDecoder>(alloc, &mut bits, params, 0, &mut steps)?;
    let Some(picture) = picture else {
        return Ok(None);
    };
    let mut maximum = None;
    for grid in picture.image_channels() {
        for sample in grid.buf() {
            maximum = maximum.max(Some(*sample));
        }
    }
    Ok(maximum)
}
