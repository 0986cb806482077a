//! Numbers of the stream, written: seven bits in each byte.

ghost use Rattle.std.specs.Prelude.{◌≡◌, ◌+◌, ◌<◌, ◌^◌, ◌++◌, IfOk};
ghost use Rattle.jxl_icc_write.specs.Inner.Streams.{number_bytes};

use std::alloc::AllocError;

/// The maximum number of bytes before the last one of a number of 32 bits.
pub const MORE: u32 = 4;

/// Adds a number of at most `more` bytes and one.
pub fn push_number(out: &mut Vec<u8>, value: u32, more: u32) -> Result<(), AllocError>
    requires few { more < 5 }
    requires fits { value < 128 ^ (more + 1) }
    ensures { IfOk result (λ _. out.new.items ≡ out.old.items ++ number_bytes more value) }
{
    if value < 128 {
        out.push(value as u8)?;
        return Ok(());
    }
    out.push((128 + value % 128) as u8)?;
    push_number(out, value / 128, more - 1)?;
    Ok(())
}
