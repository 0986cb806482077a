//! The headers of files.

ghost use Rattle.std.specs.Prelude.{◌≡◌, ◌≤◌, length, IfOk};
ghost use Rattle.jxl_netpbm_read.specs.Headers.{header_from, magic_of as the_magic_of};
ghost use Rattle.jxl_netpbm_read.specs.Parts.{IsHeader, channel_count as the_channel_count};

use crate::error::NetpbmError;
use crate::pam::pam_at;
use crate::plain::{float_at, plain_at};

/// How samples are stored.
#[derive(Clone, Copy, Debug, PartialEq, Eq)]
pub enum Storage {
    /// Whole numbers of this number of bits, from 1 to 16: one byte each if 8 bits are enough, else two, the most
    /// significant first. Rows go from top to bottom.
    Numbers(u32),
    /// Floats of 32 bits, with the least significant byte first if true, else last. Rows go from bottom to top.
    Floats(bool),
}

/// The header of a file.
#[derive(Clone, Copy)]
pub struct Header {
    /// From 1 to 2^30.
    pub width: u32,
    /// From 1 to 2^30.
    pub height: u32,
    /// Colours have one channel, and not three.
    pub grey: bool,
    /// A channel of alpha follows those of colours.
    pub alpha: bool,
    pub storage: Storage,
    /// The first byte of the samples.
    pub start: usize,
}

/// The format that a file begins with.
#[derive(Clone, Copy)]
pub enum Magic {
    /// PGM if grey, else PPM.
    Plain(bool),
    Pam,
    /// PFM, grey or not.
    Float(bool),
}

/// The scale of floats, and the byte after it.
#[derive(Clone, Copy)]
pub struct Scale {
    /// The least significant byte of a float comes first.
    pub little_endian: bool,
    pub after: usize,
}

/// The number of channels of pixels that are grey or not, with alpha or without.
pub(crate) fn channel_count(grey: bool, alpha: bool) -> u32
    ensures value { result ≡ the_channel_count grey alpha }
    ensures some { 1 ≤ result }
    ensures few { result ≤ 4 }
{
    match (grey, alpha) {
        (true, false) => 1,
        (true, true) => 2,
        (false, false) => 3,
        (false, true) => 4,
    }
}

// The format by the second byte; the first is `P`.
fn magic_of(byte: u8) -> Option<Magic>
    ensures { result ≡ the_magic_of byte }
{
    match byte {
        53 => Some(Magic::Plain(true)),
        54 => Some(Magic::Plain(false)),
        55 => Some(Magic::Pam),
        70 => Some(Magic::Float(false)),
        102 => Some(Magic::Float(true)),
        _ => None,
    }
}

/// The header that a file begins with.
///
/// # Errors
///
/// The first in the order of the bytes: `Magic`; at each word `Truncated`, `InvalidHeader`, `Size` or `Maximum`; in a PAM
/// file `Channels` at the type of tuples, and after the last line `MissingLine` or `Channels`.
#[tactic(auto, unfolding(crate::specs::Headers::header_from))]
pub fn read_header(file: &[u8]) -> Result<Header, NetpbmError>
    ensures value { result ≡ header_from file.now }
    ensures header { IfOk result IsHeader }
    ensures inside { IfOk result (λ h. h.start ≤ length file.now) }
{
    if file.len() < 2 || file[0] != 80 {
        return Err(NetpbmError::Magic);
    }
    match magic_of(file[1]) {
        Some(Magic::Plain(grey)) => plain_at(file, grey, 2),
        Some(Magic::Pam) => pam_at(file, 2),
        Some(Magic::Float(grey)) => float_at(file, grey, 2),
        None => Err(NetpbmError::Magic),
    }
}
