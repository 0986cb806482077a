//! One image, decoded again and again between two readings of the clock.
ghost use Rattle.std.specs.Prelude.{IfOk, IfSome};
ghost use Rattle.jxl_modular.specs.Image.{image_grids};
ghost use Rattle.jxlbench.specs.Decoding.{IsAsked, IsChecksumOf};

use crate::checksum::checksum;
use crate::request::{Request, Source};
use crate::run::{Failure, Measured};
use jxl_modular::bits::Bitstream;
use jxl_modular::decoder::Decoder;
use jxl_modular::error::Result;
use jxl_modular::flat::Steps;
use jxl_modular::image::ModularImageDestination;
use jxl_modular::sample::Sample;
use jxl_modular::{ModularChannelParams, decode_picture};
use jxlm_section_split::decode_cut_picture;
use jxlmod_commands::picture::without_tree;
use std::alloc::Global;
use std::time::{Clock, Instant};

/// The side of a group of the images that are in one part.
const GROUP_DIM: u32 = 256;

/// The image at the start of the bytes, by the format of a decoder, or none where the library takes no such channels.
#[inline(never)]
pub fn image<S: Sample, D: Decoder>(
    alloc: Global,
    bytes: &[u8],
    request: Request,
) -> Result<Option<ModularImageDestination<S, D>>>
    ensures { IfOk result (λ made. IfSome made (λ image.
        IsAsked D.meaning S.width request bytes.now (image_grids S.to_int image))) }
{
    let channel = ModularChannelParams::new(request.width, request.height);
    let channels = vec![in alloc; channel; request.channels as usize]?;
    let group_dim = match request.source {
        Source::Picture => GROUP_DIM,
        Source::CutPicture { group_dim } => group_dim,
    };
    let params = without_tree(group_dim, request.bit_depth, channels);
    if !params.is_valid() {
        return Ok(None);
    }
    let mut steps = Steps::new();
    match request.source {
        Source::Picture => {
            decode_picture(alloc, &mut Bitstream::new(bytes), params, 0, &mut steps)
        }
        Source::CutPicture { .. } => decode_cut_picture(alloc, bytes, params, &mut steps),
    }
}

/// The same image, parsed, decoded and finished as often as the request says; the last one is returned.
fn image_again<S: Sample, D: Decoder>(
    alloc: Global,
    bytes: &[u8],
    request: Request,
) -> Result<Option<ModularImageDestination<S, D>>>
    ensures { IfOk result (λ made. IfSome made (λ image.
        IsAsked D.meaning S.width request bytes.now (image_grids S.to_int image))) }
{
    for _ in 1..request.repeat {
        image::<S, D>(alloc, bytes, request)?;
    }
    image(alloc, bytes, request)
}

/// How long the runs take. Between the two readings of the clock nothing is read, printed or summed.
///
/// # Errors
///
/// `WrongArguments` if the library takes no such channels, `ErrorAt` if the image has an error, `Unusable` if the clock
/// cannot be read.
pub fn measure_decoding<S: Sample, D: Decoder, C: Clock>(
    alloc: Global,
    clock: &C,
    bytes: &[u8],
    request: Request,
) -> std::result::Result<Measured, Failure>
    ensures { IfOk result (λ measured. IsChecksumOf D.meaning S.width request bytes.now measured.checksum) }
{
    let start = Instant::now(clock)?;
    let image = image_again::<S, D>(alloc, bytes, request)?;
    let passed = start.elapsed(clock)?;
    let Some(image) = image else {
        return Err(Failure::WrongArguments);
    };
    Ok(Measured {
        nanoseconds: passed.as_nanos(),
        checksum: checksum(image.image_channels()),
        bytes: 0,
    })
}
