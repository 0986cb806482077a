//! The parts of an encoded stream.

ghost use Rattle.std.specs.Prelude.{◌≡◌, ◌<◌, ◌^◌, ◌++◌, IfOk, length};
ghost use Rattle.jxl_icc_write.specs.Inner.Streams.{number_bytes};

use crate::numbers::{MORE, push_number};
use std::alloc::{AllocError, Global};

/// A stream of a profile of this size: its commands, the data of the header, and the other data.
pub fn joined(
    alloc: Global,
    size: u32,
    commands: &[u8],
    header: &[u8],
    others: &[u8],
) -> Result<Vec<u8>, AllocError>
    requires { length commands.now < 2 ^ 32 }
    ensures { IfOk result (λ v. v.items ≡ number_bytes 4 size
        ++ (number_bytes 4 (length commands.now) ++ (commands.now ++ (header.now ++ others.now)))) }
{
    let mut encoded = Vec::new(alloc);
    push_number(&mut encoded, size, MORE)?;
    push_number(&mut encoded, commands.len() as u32, MORE)?;
    encoded.extend_from_slice(commands)?;
    encoded.extend_from_slice(header)?;
    encoded.extend_from_slice(others)?;
    Ok(encoded)
}
