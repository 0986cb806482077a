//! One image, encoded again and again between two readings of the clock.
ghost use Rattle.std.specs.Prelude.{◌≡◌, ◌≢◌, ◌<◌, ◌≤◌, ◌^◌, [], IfOk, IsTrue, length};
ghost use Rattle.std.specs.List.{All};
ghost use Rattle.jxlm_base.specs.Regions.{store_meanings};
ghost use Rattle.jxlm_encode.specs.Encoded.{IsSmall};
ghost use Rattle.jxlbench.specs.Encoding.{IsEncodedAs, IsOfEncoded};

use crate::checksum::checksum_of_bytes;
use crate::decoding::image;
use crate::request::Request;
use crate::run::{Failure, Measured};
use jxl_modular::encode::EncodeError;
use jxl_modular::grid::AlignedGrid;
use jxl_modular::plain::PlainDecoder;
use jxl_modular::sample::Sample;
use jxlmod_commands::arguments::Format;
use jxlmod_commands::encoding::encode_image;
use std::alloc::Global;
use std::time::{Clock, Instant};

/// Whether the encoder takes these channels: at most this number, and no side above 2^30.
fn are_small<S: Sample>(channels: &[AlignedGrid<S>]) -> bool
    ensures sides { IsTrue result → All IsSmall channels.now }
    ensures count { IsTrue result → length channels.now ≤ 2 ^ 20 }
{
    channels.len() <= 1 << 20
        && channels.iter().all(|channel| channel.width() <= 1 << 30 && channel.height() <= 1 << 30)
}

/// The bytes of the image in a format.
#[inline(never)]
fn encoded<S: Sample>(
    alloc: Global,
    channels: &[AlignedGrid<S>],
    format: Format,
) -> Result<Vec<u8>, EncodeError>
    requires sides { All IsSmall channels.now }
    requires count { length channels.now ≤ 2 ^ 20 }
    ensures { IfOk result (λ v. IsEncodedAs format S.width (store_meanings S.to_int channels.now) v.items) }
{
    encode_image(alloc, channels, format)
}

/// The same, repeated; the last bytes are returned.
fn encoded_again<S: Sample>(
    alloc: Global,
    channels: &[AlignedGrid<S>],
    format: Format,
    repeat: u32,
) -> Result<Vec<u8>, EncodeError>
    requires sides { All IsSmall channels.now }
    requires count { length channels.now ≤ 2 ^ 20 }
    ensures { IfOk result (λ v. IsEncodedAs format S.width (store_meanings S.to_int channels.now) v.items) }
{
    for _ in 1..repeat {
        encoded(alloc, channels, format)?;
    }
    encoded(alloc, channels, format)
}

/// How long it takes to encode the image that the request asks for, as often as it says, in its format. The image itself
/// stands in the bytes in the first format. Between the two readings of the
/// clock nothing is read, decoded, printed or summed.
///
/// # Errors
///
/// `WrongArguments` if the library takes no such channels, `ErrorAt` if the image has an error, `NotEncoded` if it is not
/// encoded, `Unusable` if the clock cannot be read.
pub fn measure_encoding<S: Sample, C: Clock>(
    alloc: Global,
    clock: &C,
    bytes: &[u8],
    request: Request,
) -> Result<Measured, Failure>
    ensures { IfOk result (λ measured. IsOfEncoded S.width request bytes.now measured.checksum measured.bytes) }
{
    let Some(image) = image::<S, PlainDecoder>(alloc, bytes, request)? else {
        return Err(Failure::WrongArguments);
    };
    let channels = image.image_channels();
    if !are_small(channels) {
        return Err(Failure::WrongArguments);
    }
    let start = Instant::now(clock)?;
    let made = encoded_again(alloc, channels, request.format, request.repeat)?;
    let passed = start.elapsed(clock)?;
    Ok(Measured {
        nanoseconds: passed.as_nanos(),
        checksum: checksum_of_bytes(&made),
        bytes: made.len(),
    })
}
