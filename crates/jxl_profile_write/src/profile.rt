//! The profile between the image header and the first frame, written.

ghost use Rattle.std.specs.Prelude.{◌≡◌, ◌<◌, ◌^◌, length, IfOk};
ghost use Rattle.jxlm_bit_writer.specs.Writes.{Adds};
ghost use Rattle.jxl_profile_write.specs.Profiles.{IsProfileAt};
ghost use Rattle.jxl_profile_write.specs.Inner.Tokens.{IsEncodedAt};

use crate::contexts::{clusters, count_of, tokens};
use crate::long::write_long;
use jxl_coding_build::streams::{write_all, writer_for};
use jxl_icc_write::encode::encode_profile;
use jxlm_bit_writer::writer::BitWriter;
use std::alloc::{AllocError, Global};

/// The number of bytes up to which all contexts have one code.
const SINGLE_CODE_BYTES: usize = 1024;

/// Adds a decoder of 41 contexts, which have several codes or one code, and the tokens of these bytes.
fn write_encoded(
    alloc: Global,
    bits: &mut BitWriter,
    encoded: &[u8],
    separate: bool,
) -> Result<(), AllocError>
    requires { length encoded.now < 2 ^ 31 }
    ensures { IfOk result (λ _. Adds bits.old bits.new (IsEncodedAt encoded.now)) }
{
    let tokens = tokens(alloc, encoded, separate)?;
    let clusters = clusters(alloc, separate)?;
    let writer = writer_for(alloc, clusters, count_of(separate), &tokens)?;
    write_all(alloc, bits, &writer, &tokens)?;
    Ok(())
}

/// Adds a profile, so that `read_profile` returns it under each limit of at least 16 bytes more than it has. The codes of
/// its tokens are a heuristic.
///
/// # Errors
///
/// Out of memory alone; then nothing is promised of the bits.
pub fn write_profile(alloc: Global, bits: &mut BitWriter, icc: &[u8]) -> Result<(), AllocError>
    requires some { 0 < length icc.now }
    requires fits { length icc.now < 2 ^ 30 }
    ensures { IfOk result (λ _. Adds bits.old bits.new (IsProfileAt icc.now)) }
{
    let encoded = encode_profile(alloc, icc)?;
    write_long(bits, encoded.len() as u64)?;
    write_encoded(alloc, bits, &encoded, encoded.len() > SINGLE_CODE_BYTES)?;
    Ok(())
}
