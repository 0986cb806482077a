//! Numbers of up to 64 bits, written (ISO/IEC 18181-1, field types: U64).

ghost use Rattle.std.specs.Prelude.{◌≡◌, ◌*◌, ◌<◌, ◌≤◌, ◌^◌, IfOk};
ghost use Rattle.jxlm_bit_writer.specs.Writes.{Spells};
ghost use Rattle.jxl_image_header.specs.Fields.{groups, long};

use jxlm_bit_writer::spelled::{write_flag, write_number};
use jxlm_bit_writer::writer::BitWriter;
use std::alloc::AllocError;

/// Adds at most `n` groups of 8 bits and one of 4, the first the least significant.
fn write_groups(bits: &mut BitWriter, value: u64, n: u32) -> Result<(), AllocError>
    requires few { n ≤ 6 }
    requires fits { value < 16 * 256 ^ n }
    ensures { IfOk result (λ _. Spells bits.old bits.new (groups n) value) }
{
    if value == 0 {
        write_flag(bits, false)?;
        return Ok(());
    }
    write_flag(bits, true)?;
    if n == 0 {
        write_number(bits, value as u32, 4)?;
        return Ok(());
    }
    write_number(bits, (value % 256) as u32, 8)?;
    write_groups(bits, value / 256, n - 1)?;
    Ok(())
}

/// Adds a number in the shortest of its spellings.
pub fn write_long(bits: &mut BitWriter, value: u64) -> Result<(), AllocError>
    ensures { IfOk result (λ _. Spells bits.old bits.new long value) }
{
    if value == 0 {
        write_number(bits, 0, 2)?;
        return Ok(());
    }
    if value <= 16 {
        write_number(bits, 1, 2)?;
        write_number(bits, (value - 1) as u32, 4)?;
        return Ok(());
    }
    if value <= 272 {
        write_number(bits, 2, 2)?;
        write_number(bits, (value - 17) as u32, 8)?;
        return Ok(());
    }
    write_number(bits, 3, 2)?;
    write_number(bits, (value % 4096) as u32, 12)?;
    write_groups(bits, value / 4096, 6)?;
    Ok(())
}
