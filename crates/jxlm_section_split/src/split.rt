//! Sections split off bytes.

ghost use Rattle.std.specs.Prelude.{◌≡◌, MatchResult};
ghost use Rattle.jxlm_bits.specs.declared.bits.BitstreamError.{BitstreamError};
ghost use Rattle.jxlm_bits.specs.declared.error.Error.{Error};
ghost use Rattle.jxlm_section_split.specs.CutErrors.{IsSplit, IsTruncated};

use jxlm_bits::bits::BitstreamError;
use jxlm_bits::error::Error;

/// The bytes of the section at the start, which come after their number in four bytes, the least significant first, and
/// the bytes after it.
///
/// # Errors
///
/// `UnexpectedEof` where the number or the section is truncated.
pub fn split_section(bytes: &[u8]) -> Result<(&[u8], &[u8]), Error>
    ensures { MatchResult result (λ both. IsSplit bytes.now both.0.now both.1.now)
        (λ e. (e ≡ Error.Bitstream BitstreamError.UnexpectedEof) × IsTruncated bytes.now) }
{
    let truncated = Error::Bitstream(BitstreamError::UnexpectedEof);
    let Some((length, rest)) = bytes.split_first_chunk::<4>() else {
        return Err(truncated);
    };
    let length = u32::from_le_bytes(*length) as usize;
    match rest.split_at_checked(length) {
        Some((section, rest)) => Ok((section, rest)),
        None => Err(truncated),
    }
}
