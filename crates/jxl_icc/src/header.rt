//! The first 128 bytes of a profile.

ghost use Rattle.std.specs.Prelude.{◌≡◌, ◌<◌, ◌≤◌, ◌+◌, ◌^◌, length, IfOk, MatchResult};
ghost use Rattle.jxl_icc.specs.Header.{predicted as the_predicted, platform as the_platform, header_byte};
ghost use Rattle.jxl_icc.specs.Growth.{extend};

use crate::error::ProfileError;

/// How many bytes the header of a profile has.
pub const HEADER: usize = 128;

// What is predicted for the bytes 41 to 43 of a header: the rest of the platform's name.
#[tactic(auto, unfolding(crate::specs::Header::platform))]
fn platform(header: &[u8], i: usize) -> u8
    requires low { 41 ≤ i }
    requires high { i < 44 }
    requires before { i ≤ length header.now }
    ensures { result ≡ the_platform header.now i }
{
    match header[40] {
        b'A' => b"APPL"[i - 40],
        b'M' => b"MSFT"[i - 40],
        b'S' if i > 41 && header[41] == b'G' => b"SGI "[i - 40],
        b'S' if i > 41 && header[41] == b'U' => b"SUNW"[i - 40],
        _ => 0,
    }
}

/// What is predicted for byte i of the header of a profile of this size, by the bytes before it.
#[tactic(auto, unfolding(crate::specs::Header::predicted))]
pub fn predicted(size: u32, header: &[u8], i: usize) -> u8
    requires { i ≤ length header.now }
    ensures { result ≡ the_predicted size header.now i }
{
    match i {
        0 => (size >> 24) as u8,
        1 => (size >> 16 & 255) as u8,
        2 => (size >> 8 & 255) as u8,
        3 => (size & 255) as u8,
        8 => 4,
        12..=23 => b"mntrRGB XYZ "[i - 12],
        36..=39 => b"acsp"[i - 36],
        41..=43 => platform(header, i),
        70 => 246,
        71 => 214,
        73 => 1,
        78 => 211,
        79 => 45,
        80..=83 => header[i - 76],
        _ => 0,
    }
}

/// Adds this many bytes of a header, each the sum of a byte of the data, from `start` on, and of what is predicted for it.
#[tactic(auto, using(crate::proofs::Growths::grown_none, crate::proofs::Growths::grown_next))]
pub(crate) fn decode_header(
    bytes: &[u8],
    start: usize,
    size: u32,
    count: usize,
    out: &mut Vec<u8>,
) -> Result<(), ProfileError>
    requires empty { length out.old.items ≡ 0 }
    requires room { start + count ≤ length bytes.now }
    ensures gives { MatchResult result
        (λ _. out.new.items ≡ extend (header_byte bytes.now start size) out.old.items count)
        (λ e. e ≡ ProfileError.OutOfMemory) }
    ensures long { IfOk result (λ _. length out.new.items ≡ count) }
{
    for i in 0..count {
        let byte = bytes[start + i].wrapping_add(predicted(size, out.as_slice(), i));
        if out.push(byte).is_err() {
            return Err(ProfileError::OutOfMemory);
        }
    }
    Ok(())
}
