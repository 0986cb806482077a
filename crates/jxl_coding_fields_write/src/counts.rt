//! Writes distributions of three symbols and more, by the widths of their counts.

ghost use Rattle.std.specs.Prelude.{◌≡◌, ◌+◌, ◌<◌, ◌≤◌, [], nat_le, if◌then◌else◌, length, take, sum, slice_set, IfOk};
ghost use Rattle.std.specs.List.{All};
ghost use Rattle.jxl_coding_codes.specs.Distributions.{signalled_at, distribution_at, widths_step, count_at, counts_step, no_widths};
ghost use Rattle.jxl_coding_codes.specs.Reading.{steps};
ghost use Rattle.jxlm_bit_writer.specs.Writes.{Writes};
ghost use Rattle.jxlm_bit_writer.specs.Written.{digits};
ghost use Rattle.jxl_coding_fields_write.specs.CountWidths.{digit_count, count_widths};

use crate::fields::write_var_len;
use jxl_coding_codes::fields::power;
use jxlm_bit_writer::writer::BitWriter;
use std::alloc::AllocError;

/// The number of binary digits of a count.
fn width_of(count: u32) -> u32
    requires { count < 4096 }
    ensures width { result ≡ digit_count count }
    ensures few { result ≤ 12 }
{
    32 - count.leading_zeros()
}

/// The code of the width of a count: its bits as a number, and their number.
fn code_of(width: u32) -> (u32, u32)
    requires { width ≤ 12 }
    ensures stands { Writes [] (digits result.1 result.0) signalled_at width }
    ensures few { result.1 ≤ 7 }
{
    match width {
        0 => (17, 5),
        1 => (11, 4),
        2 => (15, 4),
        3 => (3, 4),
        4 => (9, 4),
        5 => (7, 4),
        6 => (4, 3),
        7 => (2, 3),
        8 => (5, 3),
        9 => (6, 3),
        10 => (0, 3),
        11 => (33, 6),
        _ => (1, 7),
    }
}

/// Adds the width of a count, in its code of three to seven bits.
fn write_width(bits: &mut BitWriter, width: u32) -> Result<(), AllocError>
    requires { width ≤ 12 }
    ensures { IfOk result (λ _. Writes bits.old bits.new signalled_at width) }
{
    let (value, n) = code_of(width);
    bits.put(value, n)?;
    Ok(())
}

/// Adds the widths of counts.
fn write_widths(bits: &mut BitWriter, counts: &[u32]) -> Result<(), AllocError>
    requires { All (λ count. count < 4096) counts.now }
    ensures { IfOk result (λ _. Writes bits.old bits.new (steps (widths_step (length counts.now)) (length counts.now)
        no_widths) (count_widths counts.now)) }
{
    for count in counts {
        write_width(bits, width_of(*count))?;
    }
    Ok(())
}

/// The index of the widest count so far: the next one if it is as wide as any before.
fn wider(most: u32, width: u32, widest: usize, next: usize) -> usize
    ensures { result ≡ (if nat_le most width then next else widest) }
{
    if most <= width { next } else { widest }
}

/// The first symbol whose count is the widest.
fn widest_of(counts: &[u32]) -> usize
    requires { All (λ count. count < 4096) counts.now }
    ensures { result ≡ (count_widths counts.now).widest }
{
    let mut most = 0;
    let mut widest = 0;
    for (i, count) in counts.iter().enumerate() {
        let width = width_of(*count);
        widest = wider(most, width, widest, i);
        most = most.max(width + 1);
    }
    widest
}

/// Adds the bits of a count below its leading one.
fn write_rest(bits: &mut BitWriter, count: u32) -> Result<(), AllocError>
    requires { count < 4096 }
    ensures { IfOk result (λ _. Writes bits.old bits.new (λ bytes p. count_at 13 (digit_count count) bytes p) count) }
{
    if count < 2 {
        return Ok(());
    }
    let width = width_of(count);
    bits.put(count - power(width - 1), width - 1)?;
    Ok(())
}

/// Adds a count, unless it is that of the widest symbol: that one follows from the others.
fn write_other(
    bits: &mut BitWriter,
    counts: &[u32],
    widest: usize,
    i: usize,
) -> Result<(), AllocError>
    requires counts { All (λ count. count < 4096) counts.now }
    requires widest { widest ≡ (count_widths counts.now).widest }
    requires inside { i < length counts.now }
    ensures { IfOk result (λ _. Writes bits.old bits.new (counts_step 13 (count_widths counts.now)
        (take i (slice_set counts.now widest 0))) (take (i + 1) (slice_set counts.now widest 0))) }
{
    if i == widest {
        return Ok(());
    }
    write_rest(bits, counts[i])?;
    Ok(())
}

/// Adds all counts but that of the widest symbol.
fn write_others(bits: &mut BitWriter, counts: &[u32], widest: usize) -> Result<(), AllocError>
    requires counts { All (λ count. count < 4096) counts.now }
    requires widest { widest ≡ (count_widths counts.now).widest }
    ensures { IfOk result (λ _. Writes bits.old bits.new
        (steps (counts_step 13 (count_widths counts.now)) (length counts.now) []) (slice_set counts.now widest 0)) }
{
    let n = counts.len();
    for i in 0..n {
        write_other(bits, counts, widest, i)?;
    }
    Ok(())
}

/// Adds the distribution of these counts.
pub fn write_counts(bits: &mut BitWriter, counts: &[u32]) -> Result<(), AllocError>
    requires many { 3 ≤ length counts.now }
    requires few { length counts.now ≤ 256 }
    requires counts { All (λ count. count < 4096) counts.now }
    requires whole { sum counts.now ≡ 4096 }
    ensures { IfOk result (λ _. Writes bits.old bits.new distribution_at counts.now) }
{
    bits.put(0, 2)?;
    bits.put(55, 6)?;
    write_var_len(bits, counts.len() as u32 - 3)?;
    write_widths(bits, counts)?;
    write_others(bits, counts, widest_of(counts))?;
    Ok(())
}
