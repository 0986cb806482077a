//! The encoded stream of a profile.

ghost use Rattle.std.specs.Prelude.{◌≡◌, ◌<◌, ◌≤◌, ◌+◌, ◌^◌, ℕ, Ok, IfOk, IsTrue, length};
ghost use Rattle.jxl_icc.specs.Profiles.{icc_of};
ghost use Rattle.jxl_icc_write.specs.Inner.Streams.{literal_commands};

use crate::header::{after_header, residuals};
use crate::numbers::{MORE, push_number};
use crate::stream::joined;
use crate::tags::encode_tags;
use jxl_icc::decode::decode_profile;
use jxl_icc::error::ProfileError;
use jxl_icc::header::HEADER;
use std::alloc::{AllocError, Global};

/// The commands of a profile of this size: no tag list, and all bytes after the header as they are.
fn commands_for(alloc: Global, size: u32) -> Result<Vec<u8>, AllocError>
    ensures { IfOk result (λ v. v.items ≡ literal_commands size) }
{
    let mut commands = Vec::new(alloc);
    if size as usize > HEADER {
        commands.push(0)?;
        commands.push(1)?;
        push_number(&mut commands, size - HEADER as u32, MORE)?;
    }
    Ok(commands)
}

/// The bytes that encode this profile, with literal bytes after the header.
fn encode_literally(alloc: Global, icc: &[u8]) -> Result<Vec<u8>, AllocError>
    requires { length icc.now < 2 ^ 32 }
    ensures gives { IfOk result (λ v. (max : ℕ) → length icc.now ≤ max → icc_of max v.items ≡ Ok icc.now) }
    ensures long { IfOk result (λ v. length v.items ≤ length icc.now + 16) }
{
    let size = icc.len() as u32;
    let commands = commands_for(alloc, size)?;
    let header = residuals(alloc, icc)?;
    let encoded = joined(alloc, size, &commands, &header, after_header(icc))?;
    Ok(encoded)
}

/// Whether these bytes are decoded to this profile.
fn gives(alloc: Global, encoded: &[u8], icc: &[u8]) -> Result<bool, AllocError>
    ensures { IfOk result (λ same. IsTrue same → icc_of (length icc.now) encoded.now ≡ Ok icc.now) }
{
    match decode_profile(alloc, encoded, icc.len() as u64) {
        Ok(profile) => Ok(profile.as_slice() == icc),
        Err(ProfileError::OutOfMemory) => Err(AllocError),
        Err(_) => Ok(false),
    }
}

/// The bytes that encode this profile: `decode_profile` returns it, under each limit that it is within. They are at most
/// 16 bytes longer. The commands are a heuristic.
pub fn encode_profile(alloc: Global, icc: &[u8]) -> Result<Vec<u8>, AllocError>
    requires { length icc.now < 2 ^ 32 }
    ensures gives { IfOk result (λ v. (max : ℕ) → length icc.now ≤ max → icc_of max v.items ≡ Ok icc.now) }
    ensures long { IfOk result (λ v. length v.items ≤ length icc.now + 16) }
{
    let literal = encode_literally(alloc, icc)?;
    if let Some(short) = encode_tags(alloc, icc)? {
        if short.len() < literal.len() && gives(alloc, &short, icc)? {
            return Ok(short);
        }
    }
    Ok(literal)
}
