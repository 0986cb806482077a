//! Distributions of symbols: how often of 4096 times each comes.

ghost use Rattle.std.specs.Prelude.{◌≡◌, min, Ok, Err, slice_index, slice_index_or, ◌+◌, ◌-◌, ◌*◌, ◌<◌, ◌≤◌, ◌^◌, [], sum, IfOk, IfErr, OnOk};
ghost use Rattle.std.specs.List.{All};
ghost use Rattle.jxlm_bits.specs.Bits.{bytes_of, position_of};
ghost use Rattle.jxlm_bits.specs.Decoding.{Gives};
ghost use Rattle.jxlm_bits.specs.declared.decoder.DecoderError.{DecoderError};
ghost use Rattle.jxl_coding_codes.specs.Reading.{steps};
ghost use Rattle.jxl_coding_codes.specs.Distributions.{one_symbol as only_one, two_symbols as only_two, few_at, even_at, even_first, signalled_at, no_widths, one_width as with_one, same_widths as with_same, widths_step, signalled_bits as bits_signalled, count_at, next_count_at, counts_step, with_rest as rest_to, ones_at, precision_at, are_widths, many_at, distribution_at};
ghost use Rattle.jxl_coding_codes.specs.Reading.{Exactly, StepGives};
ghost use Rattle.jxl_coding_codes.specs.Inner.Seen.{widths_seen};

use crate::fields::{number, power, var_len};
use crate::refusal::Refusal;
use crate::widths::Widths;
use jxlm_bits::bits::Bitstream;
use jxlm_bits::decoder::DecoderError;
use std::alloc::Global;

/// The sum of each distribution.
const WHOLE: u32 = 4096;

/// The distribution of one symbol.
fn one_symbol(alloc: Global, symbol: u32) -> Result<Vec<u32>, DecoderError>
    requires { symbol < 2 ^ 16 }
    ensures ok { IfOk result (λ v. v.items ≡ only_one symbol) }
    ensures err { IfErr result (λ e. e ≡ DecoderError.OutOfMemory) }
{
    let mut counts = vec![in alloc; 0u32; symbol as usize + 1]?;
    counts[symbol as usize] = WHOLE;
    Ok(counts)
}

/// The distribution of two symbols, of which the first comes so often.
fn two_symbols(alloc: Global, first: u32, second: u32, count: u32) -> Result<Vec<u32>, DecoderError>
    requires first { first < 2 ^ 16 }
    requires second { second < 2 ^ 16 }
    requires count { count ≤ 4096 }
    ensures ok { IfOk result (λ v. v.items ≡ only_two first second count) }
    ensures err { IfErr result (λ e. e ≡ DecoderError.OutOfMemory) }
{
    let mut counts = vec![in alloc; 0u32; first.max(second) as usize + 1]?;
    counts[first as usize] = count;
    counts[second as usize] = WHOLE - count;
    Ok(counts)
}

/// One symbol or two, which are signalled.
#[tactic(auto, unfolding(crate::specs::Distributions::few_at))]
fn few(alloc: Global, bits: &mut Bitstream<'_>) -> Result<Vec<u32>, DecoderError>
    ensures gives { Gives (λ v. v.items) result (position_of bits.new)
        (few_at (bytes_of bits.old) (position_of bits.old)) }
    ensures bytes { bytes_of bits.new ≡ bytes_of bits.old }
{
    let two = number(bits, 1)?;
    let first = var_len(bits, false)?;
    if two == 0 {
        return one_symbol(alloc, first);
    }
    let second = var_len(bits, false)?;
    if first == second {
        return Err(DecoderError::from(Refusal::SymbolsEqual));
    }
    let count = number(bits, 12)?;
    two_symbols(alloc, first, second, count)
}

/// How often a symbol comes of a number of symbols that come as often as each other.
fn even_count(symbol: u32, all: u32) -> u32
    requires { 0 < all }
    ensures { result ≡ even_at symbol all }
{
    if symbol < WHOLE % all {
        WHOLE / all + 1
    } else {
        WHOLE / all
    }
}

/// The first `all` symbols, each as often as the others; some once more.
fn even(alloc: Global, all: u32) -> Result<Vec<u32>, DecoderError>
    requires some { 0 < all }
    ensures ok { IfOk result (λ v. v.items ≡ even_first all all) }
    ensures err { IfErr result (λ e. e ≡ DecoderError.OutOfMemory) }
{
    let mut counts = Vec::new(alloc);
    for symbol in 0..all {
        counts.push(even_count(symbol, all))?;
    }
    Ok(counts)
}

/// What is signalled of a symbol at first.
#[tactic(auto, unfolding(crate::specs::Distributions::signalled_at))]
fn signalled(bits: &mut Bitstream<'_>) -> Result<u32, DecoderError>
    ensures gives { Exactly result (position_of bits.new)
        (signalled_at (bytes_of bits.old) (position_of bits.old)) }
    ensures most { IfOk result (λ w. w ≤ 13) }
    ensures bytes { bytes_of bits.new ≡ bytes_of bits.old }
{
    let three = number(bits, 3)?;
    if three == 0 {
        return Ok(10);
    }
    if three == 2 {
        return Ok(7);
    }
    if three == 4 {
        return Ok(6);
    }
    if three == 5 {
        return Ok(8);
    }
    if three == 6 {
        return Ok(9);
    }
    let fourth = number(bits, 1)?;
    if three == 3 {
        return Ok(if fourth == 1 { 1 } else { 3 });
    }
    if three == 7 {
        return Ok(if fourth == 1 { 2 } else { 5 });
    }
    if fourth == 1 {
        return Ok(4);
    }
    if number(bits, 1)? == 1 {
        return Ok(0);
    }
    if number(bits, 1)? == 1 {
        return Ok(11);
    }
    let seventh = number(bits, 1)?;
    Ok(if seventh == 1 { 13 } else { 12 })
}

/// One width more.
fn one_width(s: &mut Widths, width: u32) -> Result<(), DecoderError>
    requires { width ≤ 12 }
    ensures ok { OnOk result (widths_seen s.new ≡ with_one (widths_seen s.old) width) }
    ensures err { IfErr result (λ e. e ≡ DecoderError.OutOfMemory) }
{
    let place = s.widths.len();
    s.widths.push(width)?;
    if s.most <= width {
        s.most = width + 1;
        s.widest = place;
    }
    Ok(())
}

/// More that come as often as the one before.
fn same_widths(s: &mut Widths, all: u32, more: u32) -> Result<(), DecoderError>
    ensures ok { OnOk result (widths_seen s.new ≡ with_same all (widths_seen s.old) more) }
    ensures err { IfErr result (λ e. e ≡ DecoderError.OutOfMemory) }
{
    let here = s.widths.len();
    let left = (all as usize).saturating_sub(here);
    let many = (more as usize).min(left);
    s.widths.resize(here + many, 13)?;
    Ok(())
}

/// More widths, where not all are signalled.
#[tactic(auto, unfolding(crate::specs::Distributions::widths_step))]
fn push_widths(s: &mut Widths, all: u32, bits: &mut Bitstream<'_>) -> Result<(), DecoderError>
    ensures gives { StepGives result (widths_seen s.new) (position_of bits.new)
        (widths_step all (widths_seen s.old) (bytes_of bits.old) (position_of bits.old)) }
    ensures bytes { bytes_of bits.new ≡ bytes_of bits.old }
{
    if all as usize <= s.widths.len() {
        return Ok(());
    }
    let signalled = signalled(bits)?;
    if signalled == 13 {
        let more = var_len(bits, false)?;
        same_widths(s, all, more + 4)
    } else {
        one_width(s, signalled)
    }
}

/// The widths of the counts of all symbols.
fn widths(alloc: Global, bits: &mut Bitstream<'_>, all: u32) -> Result<Widths, DecoderError>
    ensures gives { Gives widths_seen result (position_of bits.new)
        (steps (widths_step all) all no_widths (bytes_of bits.old) (position_of bits.old)) }
    ensures bytes { bytes_of bits.new ≡ bytes_of bits.old }
{
    let mut s = Widths {
        widths: Vec::new(alloc),
        most: 0,
        widest: 0,
    };
    for _ in 0..all {
        push_widths(&mut s, all, bits)?;
    }
    Ok(s)
}

/// How many bits of a count follow its leading one.
fn signalled_bits(width: u32, precision: u32) -> u32
    requires { width ≤ 13 }
    ensures value { result ≡ bits_signalled width precision }
    ensures most { result ≤ width - 1 }
{
    let after = width.saturating_sub(1);
    after.min(precision.saturating_sub((12 - after) / 2))
}

/// A count by its width.
#[tactic(auto, unfolding(crate::specs::Distributions::count_at))]
fn count(bits: &mut Bitstream<'_>, precision: u32, width: u32) -> Result<u32, DecoderError>
    requires { width ≤ 13 }
    ensures gives { Exactly result (position_of bits.new)
        (count_at precision width (bytes_of bits.old) (position_of bits.old)) }
    ensures bytes { bytes_of bits.new ≡ bytes_of bits.old }
{
    if width < 2 {
        return Ok(width);
    }
    let signalled = signalled_bits(width, precision);
    let rest = number(bits, signalled)?;
    Ok(power(width - 1) + rest * power(width - 1 - signalled))
}

/// A number of a list, and 0 past its end.
#[inline]
fn at(numbers: &[u32], place: usize) -> u32
    ensures { result ≡ slice_index_or numbers.now place 0 }
{
    match numbers.get(place) {
        Some(number) => *number,
        None => 0,
    }
}

/// The width of a symbol's count.
fn width_at(signalled: &Widths, place: usize) -> u32
    ensures width { result ≡ slice_index signalled.now.widths.items place }
    ensures most { result ≤ 13 }
{
    match signalled.widths.get(place) {
        Some(width) => *width,
        None => 0,
    }
}

/// The count of the next symbol.
#[tactic(auto, unfolding(crate::specs::Distributions::next_count_at))]
fn next_count(
    bits: &mut Bitstream<'_>,
    precision: u32,
    signalled: &Widths,
    counts: &[u32],
) -> Result<u32, DecoderError>
    ensures gives { Exactly result (position_of bits.new)
        (next_count_at precision (widths_seen signalled.now) counts.now (bytes_of bits.old) (position_of bits.old)) }
    ensures bytes { bytes_of bits.new ≡ bytes_of bits.old }
{
    let place = counts.len();
    let width = width_at(signalled, place);
    if width == 13 {
        return Ok(at(counts, place.saturating_sub(1)));
    }
    if place == signalled.widest {
        return Ok(0);
    }
    count(bits, precision, width)
}

/// The counts with that of the next symbol.
fn push_count(
    counts: &mut Vec<u32>,
    precision: u32,
    signalled: &Widths,
    bits: &mut Bitstream<'_>,
) -> Result<(), DecoderError>
    ensures gives { StepGives result counts.new.items (position_of bits.new)
        (counts_step precision (widths_seen signalled.now) counts.old.items (bytes_of bits.old)
        (position_of bits.old)) }
    ensures bytes { bytes_of bits.new ≡ bytes_of bits.old }
{
    let count = next_count(bits, precision, signalled, counts)?;
    counts.push(count)?;
    Ok(())
}

/// The counts of all symbols, of which the widest has none yet.
fn all_counts(
    alloc: Global,
    bits: &mut Bitstream<'_>,
    precision: u32,
    signalled: &Widths,
    all: u32,
) -> Result<Vec<u32>, DecoderError>
    ensures gives { Gives (λ v. v.items) result (position_of bits.new)
        (steps (counts_step precision (widths_seen signalled.now)) all [] (bytes_of bits.old) (position_of bits.old)) }
    ensures bytes { bytes_of bits.new ≡ bytes_of bits.old }
{
    let mut counts = Vec::new(alloc);
    for _ in 0..all {
        push_count(&mut counts, precision, signalled, bits)?;
    }
    Ok(counts)
}

/// The sum, or 4096 where that is less.
fn total(counts: &[u32]) -> u32
    ensures sum { result ≡ min (sum counts.now) 4096 }
    ensures most { result ≤ 4096 }
{
    let mut total = 0u32;
    for count in counts {
        total = total.saturating_add(*count).min(WHOLE);
    }
    total
}

/// The counts, where the widest symbol has what the others leave.
fn with_rest(counts: Vec<u32>, widest: usize) -> Result<Vec<u32>, DecoderError>
    ensures ok { IfOk result (λ v. rest_to counts.items widest ≡ Ok v.items) }
    ensures err { IfErr result (λ e. rest_to counts.items widest ≡ Err e) }
{
    let total = total(&counts);
    if WHOLE <= total {
        return Err(DecoderError::from(Refusal::CountsOverfull));
    }
    let mut all = counts;
    if widest < all.len() {
        all[widest] = WHOLE - total;
    }
    Ok(all)
}

/// The width of the precision.
#[tactic(auto, unfolding(crate::specs::Distributions::ones_at))]
fn ones(bits: &mut Bitstream<'_>) -> Result<u32, DecoderError>
    ensures gives { Exactly result (position_of bits.new)
        (ones_at (bytes_of bits.old) (position_of bits.old)) }
    ensures most { IfOk result (λ n. n ≤ 3) }
    ensures bytes { bytes_of bits.new ≡ bytes_of bits.old }
{
    if number(bits, 1)? == 0 {
        return Ok(0);
    }
    if number(bits, 1)? == 0 {
        return Ok(1);
    }
    if number(bits, 1)? == 0 { Ok(2) } else { Ok(3) }
}

/// The precision of counts.
#[tactic(auto, unfolding(crate::specs::Distributions::precision_at))]
fn precision(bits: &mut Bitstream<'_>) -> Result<u32, DecoderError>
    ensures gives { Exactly result (position_of bits.new)
        (precision_at (bytes_of bits.old) (position_of bits.old)) }
    ensures bytes { bytes_of bits.new ≡ bytes_of bits.old }
{
    let ones = ones(bits)?;
    let rest = number(bits, ones)?;
    let more = power(ones) + rest;
    if 14 < more {
        return Err(DecoderError::from(Refusal::CountPrecision));
    }
    Ok(more - 1)
}

/// Whether counts can be read by widths.
fn can_count(signalled: &Widths) -> bool
    ensures { result ≡ are_widths (widths_seen signalled.now) }
{
    0 < signalled.most && width_at(signalled, signalled.widest + 1) != 13
}

/// Many symbols.
#[tactic(auto, unfolding(crate::specs::Distributions::many_at))]
fn many(alloc: Global, bits: &mut Bitstream<'_>) -> Result<Vec<u32>, DecoderError>
    ensures gives { Gives (λ v. v.items) result (position_of bits.new)
        (many_at (bytes_of bits.old) (position_of bits.old)) }
    ensures bytes { bytes_of bits.new ≡ bytes_of bits.old }
{
    let precision = precision(bits)?;
    let more = var_len(bits, false)?;
    let signalled = widths(alloc, bits, more + 3)?;
    if !can_count(&signalled) {
        return Err(DecoderError::from(Refusal::CountWidths));
    }
    let counts = all_counts(alloc, bits, precision, &signalled, more + 3)?;
    with_rest(counts, signalled.widest)
}

/// The counts of a distribution.
#[tactic(auto, unfolding(crate::specs::Distributions::distribution_at))]
fn counts(alloc: Global, bits: &mut Bitstream<'_>) -> Result<Vec<u32>, DecoderError>
    ensures gives { Gives (λ v. v.items) result (position_of bits.new)
        (distribution_at (bytes_of bits.old) (position_of bits.old)) }
    ensures bytes { bytes_of bits.new ≡ bytes_of bits.old }
{
    if number(bits, 1)? == 1 {
        return few(alloc, bits);
    }
    if number(bits, 1)? == 1 {
        let more = var_len(bits, false)?;
        even(alloc, more + 1)
    } else {
        many(alloc, bits)
    }
}

/// A distribution: how often each symbol comes of 4096 times.
pub fn distribution(alloc: Global, bits: &mut Bitstream<'_>) -> Result<Vec<u32>, DecoderError>
    ensures gives { Gives (λ v. v.items) result (position_of bits.new)
        (distribution_at (bytes_of bits.old) (position_of bits.old)) }
    ensures counts { IfOk result (λ v. All (λ count. count ≤ 4096) v.items) }
    ensures bytes { bytes_of bits.new ≡ bytes_of bits.old }
{
    counts(alloc, bits)
}
