//! The profile between the image header and the first frame.

ghost use Rattle.std.specs.Prelude.{◌≡◌, ◌<◌, List, [], ◌∷◌, Ok, Err, IfErr, IfOk, length, reverse, slice_index};
ghost use Rattle.jxl_icc.specs.Profiles.{icc_of};
ghost use Rattle.jxlm_bits.specs.Bits.{bytes_of, position_of};
ghost use Rattle.jxlm_bits.specs.ErrorKind.{UnlessMemory, kind_of as error_kind};
ghost use Rattle.jxlm_bits.specs.Grammar.{Reads, HasRead};
ghost use Rattle.jxl_codestream.specs.Reading.{Decodes};
ghost use Rattle.jxlm_bits.specs.Turns.{chain};
ghost use Rattle.jxl_codestream.specs.Profiles.{context_after, encoded_profile, icc_kind, icc_or_error, kind_of as the_kind_of, one_byte, profile};
ghost use Rattle.jxl_codestream.specs.Inner.Steps.{TokensRead, length_in};

use crate::order::{decoder, token};
use jxl_icc::decode::decode_profile;
use jxl_icc::error::ProfileError;
use jxl_image_header::fields::{self, long};
use jxlm_bits::bits::{Bitstream, BitstreamError};
use jxlm_bits::decoder::Decoder;
use jxlm_bits::error::{Error, OutOfMemory, Result};
use std::alloc::Global;

// The kind of a byte.
fn kind_of(byte: u32) -> u32
    ensures kind { result ≡ the_kind_of byte }
    ensures below { result < 8 }
{
    let letter = 97 <= byte && byte <= 122 || 65 <= byte && byte <= 90;
    let digit = 48 <= byte && byte <= 57 || byte == 46 || byte == 44;
    if letter {
        0
    } else if digit {
        1
    } else if byte == 0 {
        2
    } else if byte == 1 {
        3
    } else if byte < 16 {
        4
    } else if byte == 255 {
        6
    } else if byte > 240 {
        5
    } else {
        7
    }
}

// What the kind of the byte before the last one counts.
fn before_of(kind: u32) -> u32
    requires { kind < 8 }
    ensures counts { result ≡ slice_index (0 ∷ 1 ∷ 2 ∷ 2 ∷ 2 ∷ 3 ∷ 3 ∷ 4 ∷ []) kind }
    ensures below { result < 5 }
{
    match kind {
        0 => 0,
        1 => 1,
        2 | 3 | 4 => 2,
        5 | 6 => 3,
        _ => 4,
    }
}

/// The context of byte `i` of an encoded profile, by the last byte and the one before it.
pub fn context_of(i: u64, last: u32, before: u32) -> u32
    ensures context { result ≡ context_after i last before }
    ensures below { result < 41 }
{
    if i <= 128 {
        0
    } else {
        1 + kind_of(last) + 8 * before_of(kind_of(before))
    }
}

fn length_within(bits: &mut Bitstream<'_>, limit: u64) -> fields::Result<u64>
    ensures { HasRead Reads (λ v. v) result bits.old bits.new (length_in limit) }
{
    let length = long(bits)?;
    if length <= limit {
        Ok(length)
    } else {
        Err(BitstreamError::ProfileConformance("the profile is too long"))
    }
}

// This number of bytes.
fn read_bytes<D: Decoder>(
    alloc: Global,
    decoder: &mut D,
    bits: &mut Bitstream<'_>,
    count: u64,
) -> Result<Vec<u8>>
    requires { length (D.meaning.cluster_map decoder.old) ≡ 41 }
    ensures gives { TokensRead (λ v. reverse v.items) result decoder.new (position_of bits.new)
        ((chain (one_byte D.meaning) count [] decoder.old).read (bytes_of bits.old) (position_of bits.old)) }
    ensures bytes { bytes_of bits.new ≡ bytes_of bits.old }
{
    let mut encoded = Vec::new(alloc);
    let mut last = 0;
    let mut before = 0;
    for i in 0..count {
        let value = token(decoder, bits, context_of(i, last, before))?;
        before = last;
        last = value % 256;
        encoded.push(last as u8)?;
    }
    Ok(encoded)
}

/// The encoded profile that begins at the reader's position, of at most `limit` bytes. Its tokens are read and their end
/// is checked; it is not decoded.
///
/// # Errors
///
/// The first in the order of the bits: `UnexpectedEof` if its length is truncated; `ProfileConformance` if that is
/// above the limit, for a token may take no bits; the decoder's. Or it is out of memory.
pub fn read_encoded<D: Decoder>(
    alloc: Global,
    bits: &mut Bitstream<'_>,
    limit: u64,
) -> Result<Vec<u8>>
    ensures gives { Decodes (λ v. v.items) result (position_of bits.new)
        ((encoded_profile D.meaning limit).read (bytes_of bits.old) (position_of bits.old)) }
    ensures bytes { bytes_of bits.new ≡ bytes_of bits.old }
{
    let length = length_within(bits, limit)?;
    let mut decoder: D = decoder(alloc, bits, 41)?;
    let encoded = read_bytes(alloc, &mut decoder, bits, length)?;
    decoder.finalize()?;
    Ok(encoded)
}

// Why encoded bytes have no profile.
#[tactic(auto, unfolding(crate::specs::Profiles::icc_kind))]
fn icc_error(error: ProfileError) -> Error
    ensures { error_kind result ≡ icc_kind error }
{
    let text = match error {
        ProfileError::TooLong => "the profile is too long",
        ProfileError::Truncated => "a truncated command",
        ProfileError::NumberTooLong => "a number of more than nine bytes",
        ProfileError::DataTruncated => "truncated data",
        ProfileError::UnknownTag => "an unknown tag",
        ProfileError::TagTooLarge => "a number of a tag that is too large",
        ProfileError::UnknownCommand => "an unknown command",
        ProfileError::InvalidWidth => "a prediction of values of three bytes",
        ProfileError::InvalidOrder => "a prediction of order 3",
        ProfileError::InvalidStride => "a prediction with an invalid stride",
        ProfileError::PastSize => "a command that passes the end of the profile",
        ProfileError::UnusedBytes => "unused bytes after the profile",
        ProfileError::ShortOfSize => "commands that end before the profile does",
        ProfileError::OutOfMemory => return Error::from(OutOfMemory),
    };
    Error::from(BitstreamError::ProfileConformance(text))
}

// The profile that is encoded in these bytes, of at most `limit` bytes, and of one at least.
fn decode_icc(alloc: Global, encoded: &[u8], limit: u64) -> Result<Vec<u8>>
    ensures ok { IfOk result (λ v. icc_or_error (icc_of limit encoded.now) ≡ Ok v.items) }
    ensures err { IfErr result (λ e. UnlessMemory (error_kind e)
        (icc_or_error (icc_of limit encoded.now) ≡ Err (error_kind e))) }
{
    match decode_profile(alloc, encoded, limit) {
        Ok(profile) => {
            if profile.is_empty() {
                return Err(BitstreamError::ProfileConformance("an empty profile").into());
            }
            Ok(profile)
        }
        Err(error) => Err(icc_error(error)),
    }
}

/// The profile that begins at the reader's position: neither its encoded bytes nor its own are more than `limit`.
///
/// # Errors
///
/// Those of [`read_encoded`]; then `ProfileConformance` if the profile is not decoded, or empty: the text says why.
pub fn read_profile<D: Decoder>(
    alloc: Global,
    bits: &mut Bitstream<'_>,
    limit: u64,
) -> Result<Vec<u8>>
    ensures gives { Decodes (λ v. v.items) result (position_of bits.new)
        ((profile D.meaning limit).read (bytes_of bits.old) (position_of bits.old)) }
    ensures bytes { bytes_of bits.new ≡ bytes_of bits.old }
{
    let encoded = read_encoded::<D>(alloc, bits, limit)?;
    let icc = decode_icc(alloc, &encoded, limit)?;
    Ok(icc)
}
