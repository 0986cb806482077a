//! Fields that may be absent and enumerations, written.

ghost use Rattle.std.specs.Prelude.{◌≡◌, ◌≤◌, ◌<◌, ◌^◌, true, false, IfOk};
ghost use Rattle.jxlm_bits.specs.Grammar.{flag as the_flag, number};
ghost use Rattle.jxlm_bits.specs.declared.bits.U32Spec.TheVariants.{Const, Offset};
ghost use Rattle.jxlm_bit_writer.specs.Fields.{is_spelled};
ghost use Rattle.jxlm_bit_writer.specs.Writes.{Spells};
ghost use Rattle.jxl_image_header.specs.Fields.{when, bundle_follows, enum_number, extensions, name};

use jxlm_bit_writer::spelled::{write_flag, write_number, write_u32};
use jxlm_bit_writer::writer::BitWriter;
use jxlm_bits::bits::U32Spec;
use std::alloc::AllocError;

/// Adds a flag if it is present; else it has its usual value.
pub fn write_flag_if(
    bits: &mut BitWriter,
    present: bool,
    flag: bool,
    usual: bool,
) -> Result<(), AllocError>
    requires usual { present ≡ false → flag ≡ usual }
    ensures { IfOk result (λ _. Spells bits.old bits.new (when present the_flag usual) flag) }
{
    if !present {
        return Ok(());
    }
    write_flag(bits, flag)?;
    Ok(())
}

/// Adds a number of `n` bits, at most 32, if it is present; else it has its usual value.
pub fn write_number_if(
    bits: &mut BitWriter,
    present: bool,
    value: u32,
    n: u32,
    usual: u32,
) -> Result<(), AllocError>
    requires few { n ≤ 32 }
    requires fits { value < 2 ^ n }
    requires usual { present ≡ false → value ≡ usual }
    ensures { IfOk result (λ _. Spells bits.old bits.new (when present (number n) usual) value) }
{
    if !present {
        return Ok(());
    }
    write_number(bits, value, n)?;
    Ok(())
}

/// Adds the flag of a bundle that may be present: whether all of it is as by default.
pub fn write_bundle_if(bits: &mut BitWriter, present: bool, follows: bool) -> Result<(), AllocError>
    requires usual { present ≡ false → follows ≡ false }
    ensures { IfOk result (λ _. Spells bits.old bits.new (bundle_follows present) follows) }
{
    if !present {
        return Ok(());
    }
    write_flag(bits, !follows)?;
    Ok(())
}

/// Adds the number of an enumeration, at most 81, if it is present; else it has its usual value.
pub fn write_enum_if(
    bits: &mut BitWriter,
    present: bool,
    value: u32,
    usual: u32,
) -> Result<(), AllocError>
    requires fits { is_spelled (Const 0) (Const 1) (Offset 2 4) (Offset 18 6) value ≡ true }
    requires usual { present ≡ false → value ≡ usual }
    ensures { IfOk result (λ _. Spells bits.old bits.new (when present enum_number usual) value) }
{
    if !present {
        return Ok(());
    }
    write_u32(
        bits,
        value,
        U32Spec::Const(0),
        U32Spec::Const(1),
        U32Spec::Offset(2, 4),
        U32Spec::Offset(18, 6),
    )?;
    Ok(())
}

/// Adds extensions, of which there are none.
pub fn write_no_extensions_if(bits: &mut BitWriter, present: bool) -> Result<(), AllocError>
    ensures { IfOk result (λ _. Spells bits.old bits.new (when present extensions 0) 0) }
{
    if !present {
        return Ok(());
    }
    write_number(bits, 0, 2)?;
    write_number(bits, 0, 0)?;
    Ok(())
}

/// Adds a name of no bytes.
pub fn write_no_name(bits: &mut BitWriter) -> Result<(), AllocError>
    ensures { IfOk result (λ _. Spells bits.old bits.new name 0) }
{
    write_u32(
        bits,
        0,
        U32Spec::Const(0),
        U32Spec::Offset(0, 4),
        U32Spec::Offset(16, 5),
        U32Spec::Offset(48, 10),
    )?;
    write_number(bits, 0, 0)?;
    Ok(())
}
