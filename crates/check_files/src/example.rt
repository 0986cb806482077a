//! A .jxl file, decoded as docs/USING.md shows it.

ghost use Rattle.jxl_lossless.specs.Pictures.{FileFails, IsPictureOfFile};
ghost use Rattle.std.specs.Prelude.{◌≡◌, ◌↔◌, IfErr, IfOk, IsTrue, length};

use jxl_lossless::{FileError, Limits, Picture, Steps, decode_lossless};
use std::alloc::Global;

/// Decodes a .jxl file, and returns its picture, and whether it is grey and nothing else: whether it has one channel.
pub fn picture_and_kind(
    alloc: Global,
    file: &[u8],
    limits: &Limits,
    steps: &mut Steps,
) -> Result<(Picture, bool), FileError>
    ensures ok { IfOk result (λ found. IsPictureOfFile limits.now file.now found.0 steps.old steps.new) }
    ensures grey { IfOk result (λ found. IsTrue found.1 ↔ (length found.0.channels.items ≡ 1)) }
    ensures err { IfErr result (FileFails limits.now file.now) }
{
    let picture = decode_lossless(alloc, file, limits, steps)?;
    let is_grey = picture.channels.len() == 1;
    Ok((picture, is_grey))
}

/// The maximum sample of a grey .jxl file of at most four million pixels; none if the picture has other channels.
pub fn maximum_of_grey(alloc: Global, file: &[u8]) -> Result<Option<i32>, FileError> {
    let mut limits = Limits::usual();
    limits.pixels = 4_000_000;
    let (picture, is_grey) = picture_and_kind(alloc, file, &limits, &mut Steps::new())?;
    let mut maximum = None;
    if is_grey {
        for channel in &picture.channels {
            for sample in channel.buf() {
                maximum = maximum.max(Some(*sample));
            }
        }
    }
    Ok(maximum)
}
