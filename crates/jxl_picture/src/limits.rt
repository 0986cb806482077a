//! How large a picture may be.

ghost use Rattle.std.specs.Prelude.{◌≡◌, ◌^◌, ◌↔◌, IsTrue};
ghost use Rattle.jxl_image_header.specs.Images.{image_of};
ghost use Rattle.jxl_picture.specs.Limits.{Allow};

use crate::picture::colours;
use jxl_image_header::image::ImageHeader;

/// How large a picture may be. A picture of one colour needs no bits for its samples, so a short file may ask for any
/// size: a reader compares what the header says with these before it takes memory.
#[derive(Clone, Copy)]
pub struct Limits {
    /// The maximum number of pixels.
    pub pixels: u64,
    /// The maximum number of channels, of colours and others together; more than 2^20 are never read.
    pub channels: u32,
    /// The maximum number of bytes of all samples, of four bytes each; a channel that is smaller than the picture counts
    /// as one of its size.
    pub bytes: u64,
    /// The maximum number of bytes of a colour profile.
    pub profile: u64,
    /// The maximum number of decisions for a sample in the tree that sections of a frame share, which is its depth.
    /// Where the frame and those before it have fewer than 2^22 samples, a tree may be deeper: as many decisions for
    /// all of them as 2^22 samples may have.
    pub decisions: u32,
    /// The maximum number of codewords that the codes of sections' own trees may have, in a frame: a decoder compares it
    /// before it decodes the samples of the frame.
    pub codewords: u64,
}

/// The limits on the trees of a frame.
#[derive(Clone, Copy)]
pub struct TreeLimits {
    /// The maximum number of decisions for a sample: the depth of the tree that sections share, and of their own ones.
    pub depth: u64,
    /// The maximum number of codewords that the codes of sections' own trees may have.
    pub codewords: u64,
}

impl Limits {
    /// 2^28 pixels, 256 channels, 2^31 bytes of samples, 2^24 of a colour profile, 128 decisions for a sample, and 2^26
    /// codewords.
    pub fn usual() -> Limits
        ensures { result ≡ record {
          pixels = 2 ^ 28;
          channels = 256;
          bytes = 2 ^ 31;
          profile = 2 ^ 24;
          decisions = 128;
          codewords = 2 ^ 26;
        } }
    {
        Limits {
            pixels: 1 << 28,
            channels: 256,
            bytes: 1 << 31,
            profile: 1 << 24,
            decisions: 128,
            codewords: 1 << 26,
        }
    }

    /// Whether the picture is within these limits, its sides are at most 2^30 and its samples have at most 32 bits.
    pub fn allow(&self, header: &ImageHeader) -> bool
        ensures { IsTrue result ↔ Allow self.now (image_of header.now) }
    {
        let extra = header.ec_info.len();
        if extra > 1 << 20 {
            return false;
        }
        let channels = (colours(header) + extra) as u64;
        if channels > u64::from(self.channels) || channels > 1 << 20 {
            return false;
        }
        let size = header.size;
        if size.width > 1 << 30 || size.height > 1 << 30 || header.bit_depth.bits_per_sample > 32 {
            return false;
        }
        let pixels = u64::from(size.width) * u64::from(size.height);
        if pixels > self.pixels {
            return false;
        }
        match pixels.checked_mul(4 * channels) {
            Some(bytes) => bytes <= self.bytes,
            None => false,
        }
    }
}
