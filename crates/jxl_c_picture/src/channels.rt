//! The channels of a picture, for C.

ghost use Rattle.std.specs.Prelude.{◌≡◌, ◌==◌, ◌+◌, ◌*◌, ◌^◌, ◌<◌, ◌≤◌, get_or, length};
ghost use Rattle.std.specs.Int.{div_ceil};
ghost use Rattle.jxl_image_header.specs.Images.{image_of};
ghost use Rattle.jxl_picture.specs.Limits.{channel_count as the_channel_count};
ghost use Rattle.jxl_c_picture.specs.Channels.{cell_count, channels_of, entries_of, entry as the_entry, sample_count as the_sample_count, shown_as};

use crate::numbers::kind_number;
use jxl_image_header::channel::{BitDepth, ExtraChannel};
use jxl_image_header::image::ImageHeader;
use jxl_image_header::size::Size;
use jxl_picture::picture::colours;

/// A channel, as C is told it.
#[repr(C)]
#[derive(Clone, Copy)]
pub struct CChannel {
    /// The number of its first sample among all samples.
    pub first: u64,
    /// 256 for colours, or the kind of an extra channel.
    pub kind: u32,
    pub width: u32,
    pub height: u32,
    /// Its sides are those of the picture by 2 to the power of this, rounded up.
    pub shift: u32,
    /// How many bits a sample has, and how many of these are a float's exponent.
    pub bits: u32,
    pub exponent_bits: u32,
    /// 1 where colours were multiplied by it, else 0.
    pub associated: u32,
    /// 0.
    pub reserved: u32,
}

/// The kind of a channel of colours.
const COLOUR: u32 = 256;

// A side of this number of samples in a channel of this shift.
fn shifted(shift: u32, side: u32) -> u32
    ensures { result ≡ div_ceil side (2 ^ shift) }
{
    if shift < 32 {
        (u64::from(side)).div_ceil(1 << shift) as u32
    } else {
        side.min(1)
    }
}

fn entry(size: Size, kind: u32, shift: u32, depth: BitDepth, associated: bool) -> CChannel
    ensures { result ≡ the_entry size kind shift depth associated }
{
    CChannel {
        first: 0,
        kind,
        width: shifted(shift, size.width),
        height: shifted(shift, size.height),
        shift,
        bits: depth.bits_per_sample,
        exponent_bits: depth.exp_bits,
        associated: if associated { 1 } else { 0 },
        reserved: 0,
    }
}

/// How many channels the picture has.
pub fn channel_count(header: &ImageHeader) -> usize
    requires { the_channel_count (image_of header.now) ≤ 2 ^ 20 }
    ensures { result ≡ the_channel_count (image_of header.now) }
{
    colours(header) + header.ec_info.len()
}

/// Channel k of the picture, which has this size as it is shown, without the number of its first sample.
#[tactic(auto, using(crate::proofs::Counts::colour_at, crate::proofs::Counts::extra_at))]
pub(crate) fn channel_at(header: &ImageHeader, size: Size, k: usize) -> CChannel
    requires { k < the_channel_count (image_of header.now) }
    ensures { result ≡ get_or (entries_of (shown_as size (image_of header.now))) k result }
{
    let colours = colours(header);
    if k < colours {
        entry(size, COLOUR, 0, header.bit_depth, false)
    } else {
        let extra = &header.ec_info[k - colours];
        entry(
            size,
            kind_number(extra.kind),
            extra.dim_shift,
            extra.bit_depth,
            extra.alpha_associated,
        )
    }
}

/// How many samples a channel has.
pub(crate) fn cells_in(channel: &CChannel) -> u64
    ensures { result ≡ cell_count channel.now }
{
    u64::from(channel.width) * u64::from(channel.height)
}

/// How many samples the picture has, which has this size as it is shown.
pub fn sample_count(header: &ImageHeader, size: Size) -> u64
    requires few { the_channel_count (image_of header.now) ≤ 2 ^ 20 }
    requires small { the_sample_count (shown_as size (image_of header.now)) < 2 ^ 64 }
    ensures { result ≡ the_sample_count (shown_as size (image_of header.now)) }
{
    let channels = channel_count(header);
    let mut count = 0;
    for k in 0..channels {
        let channel = channel_at(header, size, k);
        count += cells_in(&channel);
    }
    count
}

/// Whether the picture has this number of samples, whose size as it is shown is that of the header.
pub fn has_samples(header: &ImageHeader, count: usize) -> bool
    requires { the_channel_count (image_of header.now) ≤ 2 ^ 20 }
    ensures { result ≡ (the_sample_count (image_of header.now) == count) }
{
    let channels = channel_count(header);
    let mut left = count as u64;
    for k in 0..channels {
        let channel = channel_at(header, header.size, k);
        let cells = cells_in(&channel);
        if cells > left {
            return false;
        }
        left -= cells;
    }
    left == 0
}

/// Describes the channels of the picture, which has this size as it is shown. There are as many.
pub fn put_channels(header: &ImageHeader, size: Size, channels: &mut [CChannel])
    requires long { length channels.old ≡ the_channel_count (image_of header.now) }
    requires small { the_sample_count (shown_as size (image_of header.now)) < 2 ^ 64 }
    ensures { channels.new ≡ channels_of (shown_as size (image_of header.now)) }
{
    let mut first = 0;
    for k in 0..channels.len() {
        let channel = channel_at(header, size, k);
        channels[k] = CChannel { first, ..channel };
        first += cells_in(&channel);
    }
}
