//! The ICC profile of a file, for C.

ghost use Rattle.std.specs.Prelude.{◌≡◌, ◌≢◌, [], length};
ghost use Rattle.jxl_c.specs.Headers.{FailsBy, HasOther, profile_bytes};
ghost use Rattle.jxl_c.specs.Messages.{IsMessage, with_message};
ghost use Rattle.jxl_c.specs.Profiles.{IsProfileOfFile};

use crate::limits::CLimits;
use crate::message::put_message;
use crate::open::{icc_of, open};
use crate::status::{DONE, WRONG_COUNT};
use std::alloc::Global;

/// Copies the ICC profile of a file; where there is none, it has no byte. It decodes no sample.
#[tactic(auto, using(crate::proofs::Decodings::profile_by, crate::proofs::Decodings::other_profile))]
#[unsafe(no_mangle)]
pub extern "C" fn jxl_lossless_profile(
    alloc: Global,
    file: &[u8],
    limits: &CLimits,
    profile: &mut [u8],
    message: &mut [u8],
) -> u32
    ensures done { result ≡ 0 → IsProfileOfFile limits.now file.now profile.new }
    ensures empty { result ≡ 0 → message.new ≡ with_message message.old [] }
    ensures kept { result ≢ 0 → profile.new ≡ profile.old }
    ensures message { IsMessage message.old message.new }
    ensures count { result ≡ 7 → HasOther limits.now file.now (λ _ icc. length (profile_bytes icc)) (length profile.old) }
    ensures fails { result ≢ 0 → result ≢ 7 → FailsBy limits.now file.now result }
{
    let read = match open(alloc, file, limits, message) {
        Ok(read) => read,
        Err(status) => return status,
    };
    let icc = icc_of(&read);
    if profile.len() != icc.len() {
        put_message(message, b"the file has a profile of another size");
        return WRONG_COUNT;
    }
    profile.copy_from_slice(icc);
    put_message(message, b"");
    DONE
}
