//! Fields written so that the reader reads them (ISO/IEC 18181-1, field types).

ghost use Rattle.std.specs.Prelude.{◌≡◌, ◌<◌, ◌≤◌, ◌^◌, true, IfOk};
ghost use Rattle.jxlm_bits.specs.Grammar.{FitsU32, number, flag as the_flag, u32 as the_u32};
ghost use Rattle.jxlm_bit_writer.specs.Fields.{is_spelled as the_is_spelled};
ghost use Rattle.jxlm_bit_writer.specs.Writes.{Spells};

use crate::fields::holds;
use crate::writer::BitWriter;
use jxlm_bits::bits::U32Spec;
use std::alloc::AllocError;

/// Adds a number of `n` bits, at most 32: `u(n)`.
pub fn write_number(bits: &mut BitWriter, value: u32, n: u32) -> Result<(), AllocError>
    requires few { n ≤ 32 }
    requires fits { value < 2 ^ n }
    ensures { IfOk result (λ _. Spells bits.old bits.new (number n) value) }
{
    bits.put(value, n)?;
    Ok(())
}

/// Adds a `Bool`.
pub fn write_flag(bits: &mut BitWriter, flag: bool) -> Result<(), AllocError>
    ensures { IfOk result (λ _. Spells bits.old bits.new the_flag flag) }
{
    bits.put_flag(flag)?;
    Ok(())
}

/// Adds a `U32` by the first of its four parts that has the value; one of them has.
pub fn write_u32(
    bits: &mut BitWriter,
    value: u32,
    d0: U32Spec,
    d1: U32Spec,
    d2: U32Spec,
    d3: U32Spec,
) -> Result<(), AllocError>
    requires fits { FitsU32 d0 × FitsU32 d1 × FitsU32 d2 × FitsU32 d3 }
    requires spelled { the_is_spelled d0 d1 d2 d3 value ≡ true }
    ensures { IfOk result (λ _. Spells bits.old bits.new (the_u32 d0 d1 d2 d3) value) }
{
    bits.put_u32(value, d0, d1, d2, d3)?;
    Ok(())
}

/// Whether one of the four parts of a `U32` has this value.
pub fn is_spelled(d0: U32Spec, d1: U32Spec, d2: U32Spec, d3: U32Spec, value: u32) -> bool
    requires fits { FitsU32 d0 × FitsU32 d1 × FitsU32 d2 × FitsU32 d3 }
    ensures { result ≡ the_is_spelled d0 d1 d2 d3 value }
{
    holds(d0, value) || holds(d1, value) || holds(d2, value) || holds(d3, value)
}
