//! A file is decoded into pixels of the caller's.

ghost use Rattle.std.specs.Prelude.{◌≡◌, ◌≢◌, [], false, length, IsTrue};
ghost use Rattle.jxl_image_header.specs.Images.{image_of};
ghost use Rattle.jxl_netpbm.specs.Formats.{suits};
ghost use Rattle.jxl_netpbm.specs.declared.format.Format.TheVariants.{Pam};
ghost use Rattle.jxl_picture.specs.Pictures.{IsWhole};
ghost use Rattle.jxl_interleave.specs.Pixels.{interleaved, pixels_len as the_pixels_len};
ghost use Rattle.jxl_interleave.specs.declared.depth.Depth.TheVariants.{Eight, Sixteen};
ghost use Rattle.jxl_c.specs.Messages.{IsMessage, with_message};
ghost use Rattle.jxl_c.specs.Pixels.{ArePixelsOfFile, HasOtherPixels, PixelsFailBy, bytes_by};
ghost use Rattle.jxl_c.specs.Infos.{IsInfoOfFile};
ghost use Rattle.jxl_c_picture.specs.declared.info.CInfo.{CInfo as TheInfo};

use crate::cells::all_are_full;
use crate::limits::CLimits;
use crate::message::{fail, put_message};
use crate::open::open;
use crate::status::{DONE, UNSUPPORTED, WRONG_COUNT};
use jxl_interleave::depth::Depth;
use jxl_interleave::pixels::{can_interleave, interleave, pixels_len};
use jxl_lossless::Steps;
use jxl_picture::picture::Picture;
use std::alloc::Global;

// Writes the pixels of a picture, if these are as many and the picture can be written so.
fn put_pixels(picture: &Picture, depth: Depth, pixels: &mut [u8], message: &mut [u8]) -> u32
    requires whole { IsWhole (image_of picture.now.header) picture.now.channels.items }
    ensures done { result ≡ 0
        → pixels.new ≡ interleaved depth (image_of picture.now.header) picture.now.channels.items }
    ensures suits { result ≢ 4 → IsTrue (suits Pam (image_of picture.now.header)) }
    ensures empty { result ≡ 0 → message.new ≡ with_message message.old [] }
    ensures kept { result ≢ 0 → pixels.new ≡ pixels.old }
    ensures message { IsMessage message.old message.new }
    ensures count { result ≡ 7 → length pixels.old ≢ the_pixels_len depth (image_of picture.now.header) }
    ensures unsuited { result ≡ 4 → suits Pam (image_of picture.now.header) ≡ false }
    ensures other { result ≢ 0 → result ≢ 7 → result ≡ 4 }
{
    if !can_interleave(&picture.header) {
        put_message(
            message,
            b"not supported: pixels of floats, or of more than 16 bits",
        );
        return UNSUPPORTED;
    }
    if pixels_len(&picture.header, depth) != Some(pixels.len()) {
        put_message(message, b"the pixels have another number of bytes");
        return WRONG_COUNT;
    }
    interleave(picture, depth, pixels);
    put_message(message, b"");
    DONE
}

// Decodes a file into pixels.
#[tactic(auto, using(crate::proofs::Openings::error_fails, crate::proofs::Decodings::pixels_by, crate::proofs::Decodings::other_pixels, crate::proofs::Decodings::unsuited_by))]
fn decode_pixels(
    alloc: Global,
    file: &[u8],
    limits: &CLimits,
    depth: Depth,
    pixels: &mut [u8],
    message: &mut [u8],
) -> u32
    ensures done { result ≡ 0 → ArePixelsOfFile depth limits.now file.now pixels.new }
    ensures empty { result ≡ 0 → message.new ≡ with_message message.old [] }
    ensures kept { result ≢ 0 → pixels.new ≡ pixels.old }
    ensures message { IsMessage message.old message.new }
    ensures count { result ≡ 7 → HasOtherPixels depth limits.now file.now (length pixels.old) }
    ensures enough { (info : TheInfo) → IsInfoOfFile limits.now file.now info → length pixels.old ≡ bytes_by depth info
        → result ≢ 7 }
    ensures fails { result ≢ 0 → result ≢ 7 → PixelsFailBy limits.now file.now result }
{
    let read = match open(alloc, file, limits, message) {
        Ok(read) => read,
        Err(status) => return status,
    };
    let mut steps = Steps::new();
    match read.decode(alloc, &mut steps, &mut ()) {
        Ok(picture) => {
            all_are_full(&picture.channels);
            put_pixels(&picture, depth, pixels, message)
        }
        Err(error) => fail(alloc, message, error),
    }
}

/// Decodes a file: with status 0 `pixels` holds its picture, row by row, with numbers of 8 bits. With any other status
/// these are as they were, and `message` says why. With as many bytes as `jxl_lossless_read_info` says, the status is
/// never 7.
#[unsafe(no_mangle)]
pub extern "C" fn jxl_lossless_decode_8(
    alloc: Global,
    file: &[u8],
    limits: &CLimits,
    pixels: &mut [u8],
    message: &mut [u8],
) -> u32
    ensures done { result ≡ 0 → ArePixelsOfFile Eight limits.now file.now pixels.new }
    ensures empty { result ≡ 0 → message.new ≡ with_message message.old [] }
    ensures kept { result ≢ 0 → pixels.new ≡ pixels.old }
    ensures message { IsMessage message.old message.new }
    ensures count { result ≡ 7 → HasOtherPixels Eight limits.now file.now (length pixels.old) }
    ensures enough { (info : TheInfo) → IsInfoOfFile limits.now file.now info → length pixels.old ≡ bytes_by Eight info
        → result ≢ 7 }
    ensures fails { result ≢ 0 → result ≢ 7 → PixelsFailBy limits.now file.now result }
{
    decode_pixels(alloc, file, limits, Depth::Eight, pixels, message)
}

/// Decodes a file as [`jxl_lossless_decode_8`] does, with numbers of 16 bits, the least significant byte first.
#[unsafe(no_mangle)]
pub extern "C" fn jxl_lossless_decode_16(
    alloc: Global,
    file: &[u8],
    limits: &CLimits,
    pixels: &mut [u8],
    message: &mut [u8],
) -> u32
    ensures done { result ≡ 0 → ArePixelsOfFile Sixteen limits.now file.now pixels.new }
    ensures empty { result ≡ 0 → message.new ≡ with_message message.old [] }
    ensures kept { result ≢ 0 → pixels.new ≡ pixels.old }
    ensures message { IsMessage message.old message.new }
    ensures count { result ≡ 7 → HasOtherPixels Sixteen limits.now file.now (length pixels.old) }
    ensures enough { (info : TheInfo) → IsInfoOfFile limits.now file.now info
        → length pixels.old ≡ bytes_by Sixteen info → result ≢ 7 }
    ensures fails { result ≢ 0 → result ≢ 7 → PixelsFailBy limits.now file.now result }
{
    decode_pixels(alloc, file, limits, Depth::Sixteen, pixels, message)
}
