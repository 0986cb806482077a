//! A file is decoded into samples of the caller's.

ghost use Rattle.std.specs.Prelude.{◌≡◌, ◌≢◌, [], length};
ghost use Rattle.jxl_c_picture.specs.Channels.{sample_count as the_sample_count};
ghost use Rattle.jxl_c.specs.Decoded.{AreSamplesOfFile};
ghost use Rattle.jxl_c.specs.Headers.{FailsBy, HasOther};
ghost use Rattle.jxl_c.specs.Infos.{IsInfoOfFile};
ghost use Rattle.jxl_c.specs.Messages.{IsMessage, with_message};
ghost use Rattle.jxl_c_picture.specs.declared.info.CInfo.{CInfo as TheInfo};

use crate::cells::{all_are_full, move_cells};
use crate::channels::sample_count;
use crate::limits::CLimits;
use crate::message::{fail, put_message};
use crate::open::open;
use crate::status::{DONE, WRONG_COUNT};
use jxl_lossless::Steps;
use std::alloc::Global;

/// Decodes a file: with status 0 `samples` holds its picture, one channel after another. With any other status these are
/// as they were, and `message` says why. With as many samples as `jxl_lossless_read_info` says, the status is never 7.
#[tactic(auto, using(crate::proofs::Openings::error_fails, crate::proofs::Decodings::other_samples, crate::proofs::Decodings::never_other, crate::proofs::Decodings::samples_fit, crate::proofs::Decodings::samples_by))]
#[unsafe(no_mangle)]
pub extern "C" fn jxl_lossless_decode(
    alloc: Global,
    file: &[u8],
    limits: &CLimits,
    samples: &mut [i32],
    message: &mut [u8],
) -> u32
    ensures done { result ≡ 0 → AreSamplesOfFile limits.now file.now samples.new }
    ensures empty { result ≡ 0 → message.new ≡ with_message message.old [] }
    ensures kept { result ≢ 0 → samples.new ≡ samples.old }
    ensures message { IsMessage message.old message.new }
    ensures count { result ≡ 7 → HasOther limits.now file.now (λ image _. the_sample_count image) (length samples.old) }
    ensures enough { (info : TheInfo) → IsInfoOfFile limits.now file.now info → length samples.old ≡ info.samples
        → result ≢ 7 }
    ensures fails { result ≢ 0 → result ≢ 7 → FailsBy limits.now file.now result }
{
    let read = match open(alloc, file, limits, message) {
        Ok(read) => read,
        Err(status) => return status,
    };
    if samples.len() as u64 != sample_count(read.header()) {
        put_message(message, b"the picture has another number of samples");
        return WRONG_COUNT;
    }
    let mut steps = Steps::new();
    match read.decode(alloc, &mut steps, &mut ()) {
        Ok(picture) => {
            all_are_full(&picture.channels);
            move_cells(picture.channels, samples);
            put_message(message, b"");
            DONE
        }
        Err(error) => fail(alloc, message, error),
    }
}
