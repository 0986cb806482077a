//! What the headers of a file say of its picture, for C.

ghost use Rattle.std.specs.Prelude.{◌≡◌, ◌≢◌, ◌+◌, ◌^◌, ◌<◌, ◌≤◌, [], length};
ghost use Rattle.jxl_image_header.specs.Images.{image_of};
ghost use Rattle.jxl_lossless.specs.Files.{upright};
ghost use Rattle.jxl_picture.specs.Limits.{channel_count as the_channel_count};
ghost use Rattle.jxl_c_picture.specs.Channels.{sample_count as the_sample_count};
ghost use Rattle.jxl_c.specs.Infos.{IsInfoOf, IsInfoOfFile, alpha_among};
ghost use Rattle.jxl_c.specs.Headers.{FailsBy};
ghost use Rattle.jxl_c.specs.Messages.{IsMessage, with_message};

use crate::channels::{sample_count, shown_size};
use crate::limits::CLimits;
use crate::message::put_message;
use crate::open::{SMALL_STRUCT, icc_of, open};
use crate::status::{DONE, WRONG_STRUCT};
use jxl_c_picture::info::{CInfo, INFO_SIZE};
use jxl_c_picture::numbers::{
    gamma_of, intent_number, primaries_number, space_number, transfer_number, white_number,
};
use jxl_image_header::channel::ExtraChannel;
use jxl_image_header::image::ImageHeader;
use jxl_interleave::pixels::interleaved_count;
use jxl_picture::picture::{colours, is_full_alpha};
use std::alloc::Global;

// The number among all channels of the first alpha channel that is as large as the picture, or 0.
fn alpha_number(colours: usize, extra: &[ExtraChannel]) -> usize
    requires few { colours + length extra.now < 2 ^ 32 }
    ensures gives { result ≡ alpha_among colours extra.now }
    ensures small { result < 2 ^ 32 }
{
    for k in 0..extra.len() {
        if is_full_alpha(&extra[k]) {
            return colours + k;
        }
    }
    0
}

// What a header says of a picture with a profile of this number of bytes.
fn info_of(header: &ImageHeader, profile: u64, size: u64) -> CInfo
    requires few { the_channel_count (image_of header.now) ≤ 2 ^ 20 }
    requires small { the_sample_count (upright (image_of header.now)) < 2 ^ 64 }
    ensures is { IsInfoOf (upright (image_of header.now)) profile result }
    ensures size { result.size ≡ size }
{
    let shown = shown_size(header);
    let colours = colours(header);
    let encoding = header.colour_encoding;
    CInfo {
        size,
        width: shown.width,
        height: shown.height,
        colours: colours as u32,
        extra: header.ec_info.len() as u32,
        bits: header.bit_depth.bits_per_sample,
        exponent_bits: header.bit_depth.exp_bits,
        alpha: alpha_number(colours, &header.ec_info) as u32,
        space: space_number(encoding.colour_space),
        white: white_number(encoding.white_point),
        primaries: primaries_number(encoding.primaries),
        transfer: transfer_number(encoding.transfer_function),
        gamma: gamma_of(encoding.transfer_function),
        intent: intent_number(encoding.rendering_intent),
        interleaved: interleaved_count(header) as u32,
        profile,
        samples: sample_count(header),
    }
}

/// Reads the headers of a file, and decodes no sample. With status 0 `info` is filled, and all that comes before the
/// sections of samples is supported. With any other status it is as it was, and `message` says why.
#[tactic(auto, using(crate::proofs::Decodings::info_by))]
#[unsafe(no_mangle)]
pub extern "C" fn jxl_lossless_read_info(
    alloc: Global,
    file: &[u8],
    limits: &CLimits,
    info: &mut CInfo,
    message: &mut [u8],
) -> u32
    ensures done { result ≡ 0 → IsInfoOfFile limits.now file.now info.new }
    ensures size { info.new.size ≡ info.old.size }
    ensures empty { result ≡ 0 → message.new ≡ with_message message.old [] }
    ensures kept { result ≢ 0 → info.new ≡ info.old }
    ensures message { IsMessage message.old message.new }
    ensures small { info.old.size < 80 → result ≡ 8 }
    ensures fails { result ≢ 0 → 80 ≤ info.old.size → FailsBy limits.now file.now result }
{
    if info.size < INFO_SIZE {
        put_message(message, SMALL_STRUCT);
        return WRONG_STRUCT;
    }
    let read = match open(alloc, file, limits, message) {
        Ok(read) => read,
        Err(status) => return status,
    };
    let icc = icc_of(&read);
    *info = info_of(read.header(), icc.len() as u64, info.size);
    put_message(message, b"");
    DONE
}
