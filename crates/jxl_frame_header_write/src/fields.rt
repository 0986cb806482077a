//! Fields of frame headers, written.

ghost use Rattle.std.specs.Prelude.{◌≡◌, ◌<◌, ◌≤◌, length, true, false, IfOk};
ghost use Rattle.std.specs.List.{list_all};
ghost use Rattle.jxlm_bits.specs.Grammar.{FitsU32, repeated, u32 as the_u32};
ghost use Rattle.jxlm_bit_writer.specs.Fields.{is_spelled as the_is_spelled};
ghost use Rattle.jxlm_bit_writer.specs.Writes.{Spells};
ghost use Rattle.jxl_image_header.specs.Fields.{long, when};

use jxlm_bit_writer::spelled::{is_spelled, write_number, write_u32};
use jxlm_bit_writer::writer::BitWriter;
use jxlm_bits::bits::U32Spec;
use std::alloc::AllocError;

/// Adds a `U32` field if it is present; else it has its usual value.
pub fn write_field_if(
    bits: &mut BitWriter,
    present: bool,
    value: u32,
    d0: U32Spec,
    d1: U32Spec,
    d2: U32Spec,
    d3: U32Spec,
    usual: u32,
) -> Result<(), AllocError>
    requires fits { FitsU32 d0 × FitsU32 d1 × FitsU32 d2 × FitsU32 d3 }
    requires spelled { present ≡ true → the_is_spelled d0 d1 d2 d3 value ≡ true }
    requires usual { present ≡ false → value ≡ usual }
    ensures { IfOk result (λ _. Spells bits.old bits.new (when present (the_u32 d0 d1 d2 d3) usual) value) }
{
    if !present {
        return Ok(());
    }
    write_u32(bits, value, d0, d1, d2, d3)?;
    Ok(())
}

/// Adds `U32` fields of one kind, one after another.
pub fn write_fields(
    bits: &mut BitWriter,
    values: &[u32],
    d0: U32Spec,
    d1: U32Spec,
    d2: U32Spec,
    d3: U32Spec,
) -> Result<(), AllocError>
    requires fits { FitsU32 d0 × FitsU32 d1 × FitsU32 d2 × FitsU32 d3 }
    requires spelled { list_all (the_is_spelled d0 d1 d2 d3) values.now ≡ true }
    ensures { IfOk result (λ _. Spells bits.old bits.new
        (repeated (length values.now) (the_u32 d0 d1 d2 d3)) values.now) }
{
    for value in values {
        write_u32(bits, *value, d0, d1, d2, d3)?;
    }
    Ok(())
}

/// Whether each of some values is one of these `U32` fields.
pub fn are_spelled(values: &[u32], d0: U32Spec, d1: U32Spec, d2: U32Spec, d3: U32Spec) -> bool
    requires fits { FitsU32 d0 × FitsU32 d1 × FitsU32 d2 × FitsU32 d3 }
    ensures { result ≡ list_all (the_is_spelled d0 d1 d2 d3) values.now }
{
    for value in values {
        if !is_spelled(d0, d1, d2, d3, *value) {
            return false;
        }
    }
    true
}

/// Adds a `U64` below 273, in its shortest spelling.
pub fn write_long(bits: &mut BitWriter, value: u32) -> Result<(), AllocError>
    requires { value < 273 }
    ensures { IfOk result (λ _. Spells bits.old bits.new long value) }
{
    if value == 0 {
        write_number(bits, 0, 2)?;
        return Ok(());
    }
    if value <= 16 {
        write_number(bits, 1, 2)?;
        write_number(bits, value - 1, 4)?;
        return Ok(());
    }
    write_number(bits, 2, 2)?;
    write_number(bits, value - 17, 8)?;
    Ok(())
}
