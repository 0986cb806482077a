//! A file that a call reads.

ghost use Rattle.std.specs.Prelude.{◌≡◌, ◌≢◌, IfErr, IfOk};
ghost use Rattle.jxl_lossless.specs.Files.{IsReadyFile, profile_of};
ghost use Rattle.jxl_c.specs.Headers.{FailsBy, profile_bytes};
ghost use Rattle.jxl_c.specs.Messages.{IsMessage};
ghost use Rattle.jxl_c.specs.Opened.{IsOpen};

use crate::limits::CLimits;
use crate::message::{fail, put_message};
use crate::status::WRONG_STRUCT;
use jxl_lossless::{FileError, JxlFile};
use std::alloc::Global;

/// The message where a struct is too small.
pub const SMALL_STRUCT: &[u8] = b"the size of a struct is too small";

/// Reads a file up to the sections of its frames. Where that fails, or something is not supported, it writes the message,
/// and returns the status.
#[tactic(auto, using(crate::proofs::Openings::is_open, crate::proofs::Openings::fails_by, crate::proofs::Openings::small_fails, crate::proofs::Openings::refused_by))]
pub fn open<'a>(
    alloc: Global,
    file: &'a [u8],
    limits: &CLimits,
    message: &mut [u8],
) -> Result<JxlFile<'a>, u32>
    ensures ok { IfOk result (IsOpen limits.now file.now) }
    ensures ready { IfOk result IsReadyFile }
    ensures quiet { IfOk result (λ _. message.new ≡ message.old) }
    ensures err { IfErr result (FailsBy limits.now file.now) }
    ensures failed { IfErr result (λ status. status ≢ 0) }
    ensures counted { IfErr result (λ status. status ≢ 7) }
    ensures reason { IfErr result (λ _. IsMessage message.old message.new) }
{
    if limits.is_small() {
        put_message(message, SMALL_STRUCT);
        return Err(WRONG_STRUCT);
    }
    match JxlFile::read(alloc, file, &limits.limits()) {
        Ok(read) => match read.reason() {
            None => Ok(read),
            Some(error) => Err(fail(alloc, message, FileError::Front(error))),
        },
        Err(error) => Err(fail(alloc, message, error)),
    }
}

/// The bytes of the profile of a file; none where there is no profile.
pub fn icc_of<'a>(read: &'a JxlFile<'_>) -> &'a [u8]
    ensures { result.now ≡ profile_bytes (profile_of read.now) }
{
    match read.profile() {
        Some(icc) => icc,
        None => b"",
    }
}
