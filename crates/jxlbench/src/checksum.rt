//! The checksum of an image's samples, or of bytes: FNV-1a of 64 bits.
ghost use Rattle.std.specs.Prelude.{◌≡◌, ◌∷◌, [], map};
ghost use Rattle.jxlm_base.specs.Grid.{meanings};
ghost use Rattle.jxlbench.specs.Checksum.{bytes_checksum, channel_samples, checksum, with_samples};

use jxl_modular::grid::AlignedGrid;
use jxl_modular::sample::Sample;

/// Where each sum starts.
const OFFSET_BASIS: u64 = 14695981039346656037;

/// What the sum is multiplied by after each byte.
const PRIME: u64 = 1099511628211;

/// The checksum of these channels: FNV-1a of 64 bits over their samples, each as the four bytes of an `i32`, the least
/// significant first; channel by channel, row by row.
pub fn checksum<S: Sample>(channels: &[AlignedGrid<S>]) -> u64
    ensures { result ≡ checksum (map (meanings S.to_int) channels.now) }
{
    let mut sum = OFFSET_BASIS;
    for channel in channels {
        sum = with_channel(sum, channel);
    }
    sum
}

fn with_channel<S: Sample>(before: u64, channel: &AlignedGrid<S>) -> u64
    ensures { result ≡ with_samples before (channel_samples (meanings S.to_int channel.now)) }
{
    let mut sum = before;
    for y in 0..channel.height() {
        sum = with_row(sum, channel.get_row(y));
    }
    sum
}

fn with_row<S: Sample>(before: u64, row: &[S]) -> u64
    ensures { result ≡ with_samples before (map S.to_int row.now) }
{
    let mut sum = before;
    for sample in row {
        sum = with_sample(sum, sample.to_i32());
    }
    sum
}

fn with_sample(before: u64, sample: i32) -> u64
    ensures { result ≡ with_samples before (sample ∷ []) }
{
    let mut sum = before;
    for byte in sample.to_le_bytes() {
        sum = (sum ^ u64::from(byte)).wrapping_mul(PRIME);
    }
    sum
}

/// The checksum of bytes.
pub fn checksum_of_bytes(bytes: &[u8]) -> u64
    ensures { result ≡ bytes_checksum bytes.now }
{
    let mut sum = OFFSET_BASIS;
    for byte in bytes {
        sum = (sum ^ u64::from(*byte)).wrapping_mul(PRIME);
    }
    sum
}
