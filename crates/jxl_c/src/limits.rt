//! How large a picture may be, as a caller says it.

ghost use Rattle.std.specs.Prelude.{◌≡◌, ◌<◌, ◌≤◌, ◌^◌};
ghost use Rattle.jxl_c.specs.Kinds.{codewords_in, is_older_limits, is_small_limits, limits_of};

use crate::status::{DONE, WRONG_STRUCT};
use jxl_lossless::Limits;

/// How large a picture may be. The struct of an older program ends before `codewords`, which then is neither read nor
/// written: the limit is the default.
#[repr(C)]
#[derive(Clone, Copy)]
pub struct CLimits {
    /// How many bytes this struct has, as the caller knows it.
    pub size: u64,
    /// The maximum number of pixels.
    pub pixels: u64,
    /// The maximum number of bytes of all samples, of four bytes each.
    pub bytes: u64,
    /// The maximum number of bytes of a colour profile.
    pub profile: u64,
    /// The maximum number of channels.
    pub channels: u32,
    /// The maximum number of decisions for a sample, in the tree that sections share.
    pub decisions: u32,
    /// The maximum number of codewords that the codes of sections' own trees may have, in a frame.
    pub codewords: u64,
}

/// How many bytes the struct has here.
const LIMITS_SIZE: u64 = 48;

/// How many bytes it had at first, without `codewords`.
const FIRST_SIZE: u64 = 40;

/// The limit on codewords where the struct has none.
const USUAL_CODEWORDS: u64 = 1 << 26;

// Limits on bytes alone.
fn with_bytes(bytes: u64) -> Limits
    ensures bytes { result.bytes ≡ bytes }
    ensures small { result.bytes < 2 ^ 64 }
{
    Limits {
        pixels: 0,
        channels: 0,
        bytes,
        profile: 0,
        decisions: 0,
        codewords: 0,
    }
}

impl CLimits {
    /// Whether the struct is too small.
    pub fn is_small(&self) -> bool
        ensures { result ≡ is_small_limits self.now }
    {
        self.size < FIRST_SIZE
    }

    /// Whether the struct ends before `codewords`.
    fn is_older(&self) -> bool
        ensures { result ≡ is_older_limits self.now }
    {
        self.size < LIMITS_SIZE
    }

    /// The limit on codewords: the default, if the struct does not have it.
    fn most_codewords(&self) -> u64
        ensures { result ≡ codewords_in self.now }
    {
        if self.is_older() {
            USUAL_CODEWORDS
        } else {
            self.codewords
        }
    }

    /// These limits.
    pub fn limits(&self) -> Limits
        ensures are { result ≡ limits_of self.now }
        ensures bytes { result.bytes < 2 ^ 64 }
    {
        let mut limits = with_bytes(self.bytes);
        limits.pixels = self.pixels;
        limits.channels = self.channels;
        limits.profile = self.profile;
        limits.decisions = self.decisions;
        limits.codewords = self.most_codewords();
        limits
    }
}

/// Fills the limits with those that serve most: 2^28 pixels, 256 channels, 2^31 bytes of samples, 2^24 of a colour
/// profile, 128 decisions for a sample, and 2^26 codewords, if the struct has this field.
#[unsafe(no_mangle)]
pub extern "C" fn jxl_lossless_usual_limits(limits: &mut CLimits) -> u32
    ensures done { 40 ≤ limits.old.size → result ≡ 0 }
    ensures limits { 48 ≤ limits.old.size → limits.new ≡ record {
      size = limits.old.size;
      pixels = 2 ^ 28;
      bytes = 2 ^ 31;
      profile = 2 ^ 24;
      channels = 256;
      decisions = 128;
      codewords = 2 ^ 26;
    } }
    ensures older { 40 ≤ limits.old.size → limits.old.size < 48 → limits.new ≡ record {
      size = limits.old.size;
      pixels = 2 ^ 28;
      bytes = 2 ^ 31;
      profile = 2 ^ 24;
      channels = 256;
      decisions = 128;
      codewords = limits.old.codewords;
    } }
    ensures small { limits.old.size < 40 → result ≡ 8 }
    ensures kept { limits.old.size < 40 → limits.new ≡ limits.old }
{
    if limits.is_small() {
        return WRONG_STRUCT;
    }
    let usual = Limits::usual();
    limits.pixels = usual.pixels;
    limits.bytes = usual.bytes;
    limits.profile = usual.profile;
    limits.channels = usual.channels;
    limits.decisions = usual.decisions;
    if limits.is_older() {
        return DONE;
    }
    limits.codewords = usual.codewords;
    DONE
}
