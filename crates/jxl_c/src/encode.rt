//! A picture of the caller's is encoded.

ghost use Rattle.std.specs.Prelude.{◌≡◌, ◌≢◌, ◌<◌, ◌≤◌, ◌++◌, [], drop, length, nat_le, is_some, IfErr, IfOk, IfSome};
ghost use Rattle.jxl_c.specs.Encoded.{EncodeFails, EncodeFailsBy, HoldsFile, IsEncodedOf, NeedsRoom, effort_number};
ghost use Rattle.jxl_c.specs.Messages.{IsMessage, with_message};

use crate::message::put_message;
use crate::open::SMALL_STRUCT;
use crate::picture::{EncodeError, picture_of};
use crate::status::{DONE, NO_ROOM, WRONG_STRUCT};
use jxl_c_picture::channels::CChannel;
use jxl_c_picture::info::{CInfo, INFO_SIZE};
use jxl_encode::effort::Effort;
use jxl_encode::file::encode_lossless;
use std::alloc::Global;

fn effort_of(number: u32) -> Option<Effort>
    ensures names { IfSome result (λ effort. effort_number effort ≡ number) }
    ensures known { is_some result ≡ nat_le number 2 }
{
    match number {
        0 => Some(Effort::Fast),
        1 => Some(Effort::Usual),
        2 => Some(Effort::Best),
        _ => None,
    }
}

// The file of the picture that a caller describes.
fn encode(
    alloc: Global,
    info: &CInfo,
    extra: &[CChannel],
    samples: &[i32],
    profile: &[u8],
    effort: u32,
) -> Result<Vec<u8>, EncodeError>
    ensures ok { IfOk result (λ v. IsEncodedOf info.now extra.now samples.now profile.now v.items) }
    ensures err { IfErr result (EncodeFails info.now extra.now samples.now profile.now effort) }
{
    let Some(effort) = effort_of(effort) else {
        return Err(EncodeError::NotCodable);
    };
    if extra.len() as u64 != u64::from(info.extra) {
        return Err(EncodeError::WrongCount);
    }
    if profile.len() as u64 != info.profile {
        return Err(EncodeError::WrongCount);
    }
    let picture = picture_of(alloc, info, extra, samples, profile)?;
    let file = encode_lossless(alloc, &picture, effort)?;
    Ok(file)
}

// Copies the bytes to the start of a buffer that has room for them.
fn put_bytes(buffer: &mut [u8], bytes: &[u8])
    requires { length bytes.now ≤ length buffer.old }
    ensures { buffer.new ≡ bytes.now ++ drop (length bytes.now) buffer.old }
{
    buffer[..bytes.len()].copy_from_slice(bytes);
}

/// Encodes a picture: with status 0 the first `needed` bytes of `file` are a file that is decoded to it. With status 9
/// there is no room for these bytes, of which `needed` says how many they are. With any other status `needed` is as it
/// was. `file` changes only with status 0, and `message` says why it does not.
#[unsafe(no_mangle)]
pub extern "C" fn jxl_lossless_encode(
    alloc: Global,
    info: &CInfo,
    extra: &[CChannel],
    samples: &[i32],
    profile: &[u8],
    effort: u32,
    file: &mut [u8],
    needed: &mut u64,
    message: &mut [u8],
) -> u32
    ensures done { result ≡ 0
        → HoldsFile info.now extra.now samples.now profile.now file.old file.new needed.new }
    ensures room { result ≡ 9
        → NeedsRoom info.now extra.now samples.now profile.now (length file.old) needed.new }
    ensures kept { result ≢ 0 → file.new ≡ file.old }
    ensures same { result ≢ 0 → result ≢ 9 → needed.new ≡ needed.old }
    ensures empty { result ≡ 0 → message.new ≡ with_message message.old [] }
    ensures message { IsMessage message.old message.new }
    ensures small { info.now.size < 80 → result ≡ 8 }
    ensures fails { result ≢ 0 → result ≢ 9 → 80 ≤ info.now.size
        → EncodeFailsBy info.now extra.now samples.now profile.now effort result }
{
    if info.size < INFO_SIZE {
        put_message(message, SMALL_STRUCT);
        return WRONG_STRUCT;
    }
    let made = match encode(alloc, info, extra, samples, profile, effort) {
        Ok(made) => made,
        Err(error) => {
            put_message(message, error.message());
            return error.status();
        }
    };
    *needed = made.len() as u64;
    if file.len() < made.len() {
        put_message(message, b"the buffer is too small for the file");
        return NO_ROOM;
    }
    put_bytes(file, &made);
    put_message(message, b"");
    DONE
}
