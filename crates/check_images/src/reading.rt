//! Images read by parameters as rows have them.

ghost use Rattle.std.specs.Prelude.{IfSome};
ghost use Rattle.jxlm_transform.specs.Params.{IsValidParams};

use crate::channel_words::channels;
use jxl_modular::bits::Bitstream;
use jxl_modular::decoder::Decoder;
use jxl_modular::error::Error;
use jxl_modular::{Modular, ModularParams, Sample};
use std::alloc::Global;

/// The parameters of an image of these channels; none where they are not valid.
fn params<'a, D: Decoder>(
    alloc: Global,
    limits: (u32, u32),
    channels_text: &str,
) -> Option<ModularParams<'a, D>>
    ensures { IfSome result IsValidParams }
{
    let channels = channels(alloc, channels_text)?;
    let params = ModularParams::with_channels(limits.0, limits.1, channels, None);
    if params.is_valid() {
        Some(params)
    } else {
        None
    }
}

/// The image of these channels that stands in the bits, or its error; none where it cannot be asked for. The limits are
/// the side of a group and the bit depth.
pub fn read<S: Sample, D: Decoder>(
    alloc: Global,
    bits: &mut Bitstream<'_>,
    limits: (u32, u32),
    channels_text: &str,
) -> Option<Result<Modular<S, D>, Error>> {
    let params = params::<D>(alloc, limits, channels_text)?;
    Some(Modular::parse(alloc, bits, params))
}
