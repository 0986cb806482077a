//! The passes of a frame, written.

ghost use Rattle.std.specs.Prelude.{◌≡◌, ◌-◌, ◌==◌, ◌&&◌, nat_lt, nat_le, not, length, true, false, if◌then◌else◌, IfOk};
ghost use Rattle.std.specs.List.{list_all};
ghost use Rattle.jxlm_bits.specs.declared.bits.U32Spec.TheVariants.{Const, Offset};
ghost use Rattle.jxlm_bit_writer.specs.Fields.{is_spelled as the_is_spelled};
ghost use Rattle.jxlm_bit_writer.specs.Writes.{Spells};
ghost use Rattle.jxl_frame_header.specs.Passes.{passes as the_passes, passes_of};
ghost use Rattle.jxl_frame_header_write.specs.Writable.{is_factor, is_falling as the_is_falling, is_rising as the_is_rising, are_passes as the_are_passes};

use crate::fields::{are_spelled, write_field_if, write_fields};
use jxl_frame_header::passes::Passes;
use jxlm_bit_writer::spelled::is_spelled;
use jxlm_bit_writer::writer::BitWriter;
use jxlm_bits::bits::U32Spec::{self, Const, Offset};
use std::alloc::AllocError;

// Whether each value is less than the one before it.
fn is_falling(values: &[u32]) -> bool
    ensures { result ≡ the_is_falling values.now }
{
    let pairs = values.len().saturating_sub(1);
    for place in 0..pairs {
        if values[place + 1] >= values[place] {
            return false;
        }
    }
    true
}

// Whether each value is greater than the one before it.
fn is_rising(values: &[u32]) -> bool
    ensures { result ≡ the_is_rising values.now }
{
    let pairs = values.len().saturating_sub(1);
    for place in 0..pairs {
        if values[place] >= values[place + 1] {
            return false;
        }
    }
    true
}

// Whether each value is below a limit.
fn are_below(limit: u32, values: &[u32]) -> bool
    ensures { result ≡ list_all (λ v. nat_lt v limit) values.now }
{
    for value in values {
        if *value >= limit {
            return false;
        }
    }
    true
}

// Whether there may be this number of passes.
fn is_count(told: bool, count: u32) -> bool
    ensures { result ≡ (if told then the_is_spelled (Const 1) (Const 2) (Const 3) (Offset 4 3) count else count == 1) }
{
    if !told {
        return count == 1;
    }
    is_spelled(
        U32Spec::Const(1),
        U32Spec::Const(2),
        U32Spec::Const(3),
        U32Spec::Offset(4, 3),
        count,
    )
}

// Whether passes of this number may end this number of resolutions.
fn is_resolutions(count: u32, n: usize) -> bool
    ensures { result ≡ (if count == 1 then n == 0 else
        the_is_spelled (Const 0) (Const 1) (Const 2) (Offset 3 1) n && nat_le n count) }
{
    if count == 1 {
        return n == 0;
    }
    n <= 4 && n <= count as usize
}

// Whether resolutions are factors, each finer than the one before.
fn are_finer(factors: &[u32]) -> bool
    ensures { result ≡ (list_all is_factor factors.now && the_is_falling factors.now) }
{
    let spelled = are_spelled(
        factors,
        U32Spec::Const(1),
        U32Spec::Const(2),
        U32Spec::Const(4),
        U32Spec::Const(8),
    );
    spelled && is_falling(factors)
}

// Whether resolutions end with passes, each with a later one, of which there are `count`.
fn are_later(count: u32, passes: &[u32]) -> bool
    ensures { result ≡ (list_all (λ v. the_is_spelled (Const 0) (Const 1) (Const 2) (Offset 0 3) v) passes.now
        && list_all (λ v. nat_lt v count) passes.now && the_is_rising passes.now) }
{
    let spelled = are_spelled(
        passes,
        U32Spec::Const(0),
        U32Spec::Const(1),
        U32Spec::Const(2),
        U32Spec::Offset(0, 3),
    );
    spelled && are_below(count, passes) && is_rising(passes)
}

fn are_shifts(count: u32, shifts: &[u32]) -> bool
    ensures { result ≡ ((length shifts.now == count - 1)
        && list_all (the_is_spelled (Const 0) (Const 1) (Const 2) (Const 3)) shifts.now) }
{
    shifts.len() == count.saturating_sub(1) as usize
        && are_spelled(
            shifts,
            U32Spec::Const(0),
            U32Spec::Const(1),
            U32Spec::Const(2),
            U32Spec::Const(3),
        )
}

/// Whether the writer spells passes; there is one if they are not told.
pub fn are_passes(told: bool, passes: &Passes) -> bool
    ensures { result ≡ the_are_passes told (passes_of passes.now) }
{
    let count = passes.num_passes;
    is_count(told, count)
        && are_shifts(count, &passes.shift)
        && is_resolutions(count, passes.downsample.len())
        && are_finer(&passes.downsample)
        && passes.last_pass.len() == passes.downsample.len()
        && are_later(count, &passes.last_pass)
}

/// Adds passes if they are present; else there is one.
pub fn write_passes_if(
    bits: &mut BitWriter,
    present: bool,
    passes: &Passes,
) -> Result<(), AllocError>
    requires { the_are_passes present (passes_of passes.now) ≡ true }
    ensures { IfOk result (λ _. Spells bits.old bits.new (the_passes present) (passes_of passes.now)) }
{
    let count = passes.num_passes;
    let resolutions = passes.downsample.len() as u32;
    write_field_if(
        bits,
        present,
        count,
        Const(1),
        Const(2),
        Const(3),
        Offset(4, 3),
        1,
    )?;
    write_field_if(
        bits,
        count != 1,
        resolutions,
        Const(0),
        Const(1),
        Const(2),
        Offset(3, 1),
        0,
    )?;
    write_fields(bits, &passes.shift, Const(0), Const(1), Const(2), Const(3))?;
    write_fields(
        bits,
        &passes.downsample,
        Const(1),
        Const(2),
        Const(4),
        Const(8),
    )?;
    write_fields(
        bits,
        &passes.last_pass,
        Const(0),
        Const(1),
        Const(2),
        Offset(0, 3),
    )?;
    Ok(())
}
