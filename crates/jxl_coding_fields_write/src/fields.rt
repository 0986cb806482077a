//! Writes numbers.

ghost use Rattle.std.specs.Prelude.{◌≡◌, ◌<◌, ◌≤◌, ◌^◌, false, IfOk};
ghost use Rattle.jxl_coding_codes.specs.Fields.{number_at, var_len_at};
ghost use Rattle.jxlm_bit_writer.specs.Writes.{Writes};

use jxl_coding_codes::fields::power;
use jxlm_bit_writer::writer::BitWriter;
use std::alloc::AllocError;

/// Adds a number of `n` bits.
pub fn write_number(bits: &mut BitWriter, value: u32, n: u32) -> Result<(), AllocError>
    requires few { n ≤ 31 }
    requires fits { value < 2 ^ n }
    ensures { IfOk result (λ _. Writes bits.old bits.new (λ bytes p. number_at bytes p n) value) }
{
    bits.put(value, n)?;
    Ok(())
}

/// Adds a number from 1 to 255, after its width of three bits.
fn write_some(bits: &mut BitWriter, value: u32) -> Result<(), AllocError>
    requires some { 0 < value }
    requires few { value < 2 ^ 8 }
    ensures { IfOk result (λ _. Writes bits.old bits.new (λ bytes p. var_len_at bytes p false) value) }
{
    let width = 31 - value.leading_zeros();
    bits.put(1, 1)?;
    bits.put(width, 3)?;
    bits.put(value - power(width), width)?;
    Ok(())
}

/// Adds a number below 256, after a bit that is 0 if the number is 0.
pub fn write_var_len(bits: &mut BitWriter, value: u32) -> Result<(), AllocError>
    requires { value < 2 ^ 8 }
    ensures { IfOk result (λ _. Writes bits.old bits.new (λ bytes p. var_len_at bytes p false) value) }
{
    if value > 0 {
        return write_some(bits, value);
    }
    bits.put(0, 1)?;
    Ok(())
}
