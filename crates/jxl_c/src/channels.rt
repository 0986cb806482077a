//! The channels of the picture of a file, for C.

ghost use Rattle.std.specs.Prelude.{◌≡◌, ◌≢◌, ◌^◌, ◌<◌, ◌≤◌, [], length};
ghost use Rattle.jxl_image_header.specs.Images.{image_of};
ghost use Rattle.jxl_lossless.specs.Files.{upright};
ghost use Rattle.jxl_picture.specs.Limits.{channel_count as the_channel_count};
ghost use Rattle.jxl_c_picture.specs.Channels.{sample_count as the_sample_count};
ghost use Rattle.jxl_c.specs.Channels.{AreChannelsOfFile};
ghost use Rattle.jxl_c.specs.Headers.{FailsBy, HasOther};
ghost use Rattle.jxl_c.specs.Messages.{IsMessage, with_message};

use crate::limits::CLimits;
use crate::message::put_message;
use crate::open::open;
use crate::status::{DONE, WRONG_COUNT};
use jxl_c_picture::channels::{CChannel, channel_count, put_channels, sample_count as samples_at};
use jxl_image_header::image::ImageHeader;
use jxl_image_header::size::Size;
use jxl_picture::orientation::is_turned;
use std::alloc::Global;

/// The size of the picture as it is shown.
pub fn shown_size(header: &ImageHeader) -> Size
    ensures { result ≡ (upright (image_of header.now)).size }
{
    if is_turned(header.orientation) {
        Size {
            width: header.size.height,
            height: header.size.width,
        }
    } else {
        header.size
    }
}

/// How many samples the picture has.
pub fn sample_count(header: &ImageHeader) -> u64
    requires few { the_channel_count (image_of header.now) ≤ 2 ^ 20 }
    requires small { the_sample_count (upright (image_of header.now)) < 2 ^ 64 }
    ensures { result ≡ the_sample_count (upright (image_of header.now)) }
{
    samples_at(header, shown_size(header))
}

/// Describes each channel of a file: those of colours, and the extra channels in the file's order. It decodes no sample.
#[tactic(auto, using(crate::proofs::Decodings::channels_by, crate::proofs::Decodings::other_channels))]
#[unsafe(no_mangle)]
pub extern "C" fn jxl_lossless_channels(
    alloc: Global,
    file: &[u8],
    limits: &CLimits,
    channels: &mut [CChannel],
    message: &mut [u8],
) -> u32
    ensures done { result ≡ 0 → AreChannelsOfFile limits.now file.now channels.new }
    ensures empty { result ≡ 0 → message.new ≡ with_message message.old [] }
    ensures kept { result ≢ 0 → channels.new ≡ channels.old }
    ensures message { IsMessage message.old message.new }
    ensures count { result ≡ 7 → HasOther limits.now file.now (λ image _. the_channel_count image) (length channels.old) }
    ensures fails { result ≢ 0 → result ≢ 7 → FailsBy limits.now file.now result }
{
    let read = match open(alloc, file, limits, message) {
        Ok(read) => read,
        Err(status) => return status,
    };
    let header = read.header();
    if channels.len() != channel_count(header) {
        put_message(message, b"the file has another number of channels");
        return WRONG_COUNT;
    }
    put_channels(header, shown_size(header), channels);
    put_message(message, b"");
    DONE
}
