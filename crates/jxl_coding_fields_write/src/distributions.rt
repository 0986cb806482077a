//! Writes distributions of one symbol, and even ones.

ghost use Rattle.std.specs.Prelude.{◌≡◌, ◌<◌, ◌≤◌, ◌^◌, IfOk};
ghost use Rattle.jxl_coding_codes.specs.Distributions.{distribution_at, even_first, one_symbol};
ghost use Rattle.jxlm_bit_writer.specs.Writes.{Writes};

use crate::fields::write_var_len;
use jxlm_bit_writer::writer::BitWriter;
use std::alloc::AllocError;

/// Adds the distribution of this many symbols, all of the same count as far as 4096 allows.
pub fn write_even(bits: &mut BitWriter, symbols: u32) -> Result<(), AllocError>
    requires some { 1 ≤ symbols }
    requires few { symbols ≤ 256 }
    ensures { IfOk result (λ _. Writes bits.old bits.new distribution_at (even_first symbols symbols)) }
{
    bits.put(0, 1)?;
    bits.put(1, 1)?;
    write_var_len(bits, symbols - 1)?;
    Ok(())
}

/// Adds the distribution of one symbol.
pub fn write_only(bits: &mut BitWriter, symbol: u32) -> Result<(), AllocError>
    requires { symbol < 256 }
    ensures { IfOk result (λ _. Writes bits.old bits.new distribution_at (one_symbol symbol)) }
{
    bits.put(1, 1)?;
    bits.put(0, 1)?;
    write_var_len(bits, symbol)?;
    Ok(())
}
