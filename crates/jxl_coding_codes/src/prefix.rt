//! Prefix codes, as they stand in the input.

ghost use Rattle.std.specs.Prelude.{◌≡◌, [], ◌+◌, ◌-◌, ◌<◌, ◌≤◌, ◌^◌, length, IfOk, IfErr, OnOk, All};
ghost use Rattle.jxlm_bits.specs.Bits.{bytes_of, position_of};
ghost use Rattle.jxlm_bits.specs.Decoding.{Gives};
ghost use Rattle.jxlm_bits.specs.declared.decoder.DecoderError.{DecoderError};
ghost use Rattle.jxl_coding_codes.specs.PrefixCodes.{long_code_at, symbols_step, set_first, lengths_of_few, few_code as code_of_few, deep_at, few_code_at, prefix_at};
ghost use Rattle.jxl_coding_codes.specs.Reading.{steps};
ghost use Rattle.jxl_coding_codes.specs.Reading.{Exactly, StepGives};
ghost use Rattle.jxl_coding_codes.specs.PrefixCodes.{code_seen};

use crate::fields::{number, width};
use crate::lengths::{PrefixCode, all_lengths, length_code_lengths};
use crate::refusal::Refusal;
use jxlm_bits::bits::Bitstream;
use jxlm_bits::decoder::DecoderError;
use std::alloc::Global;

/// The order in which the lengths of the lengths' own code are signalled.
const ORDER: [usize; 18] = [1, 2, 3, 4, 0, 5, 17, 6, 16, 7, 8, 9, 10, 11, 12, 13, 14, 15];

/// A code by its lengths, of which the first places of their own code are skipped.
#[tactic(auto, unfolding(crate::specs::PrefixCodes::long_code_at))]
fn long_code(
    alloc: Global,
    bits: &mut Bitstream<'_>,
    skipped: u32,
    alphabet: u32,
) -> Result<PrefixCode, DecoderError>
    requires skipped { skipped ≤ 3 }
    requires alphabet { alphabet ≤ 2 ^ 15 }
    ensures gives { Gives code_seen result (position_of bits.new)
        (long_code_at skipped alphabet (bytes_of bits.old) (position_of bits.old)) }
    ensures bytes { bytes_of bits.new ≡ bytes_of bits.old }
{
    let signalled = length_code_lengths(bits, &ORDER[skipped as usize..], [0; 18], 32, 0)?;
    let length_code = PrefixCode::from_lengths(alloc, &signalled)?;
    let lengths = all_lengths(alloc, bits, &length_code, alphabet)?;
    PrefixCode::from_lengths(alloc, &lengths)
}

/// One symbol more, signalled by its number.
#[tactic(auto, unfolding(crate::specs::PrefixCodes::symbols_step))]
fn push_symbol(
    symbols: &mut Vec<u32>,
    alphabet: u32,
    bits: &mut Bitstream<'_>,
) -> Result<(), DecoderError>
    requires alphabet { 0 < alphabet }
    requires each { All (λ s. s < alphabet) symbols.old.items }
    ensures gives { StepGives result symbols.new.items (position_of bits.new)
        (symbols_step alphabet symbols.old.items (bytes_of bits.old) (position_of bits.old)) }
    ensures each { OnOk result (All (λ s. s < alphabet) symbols.new.items) }
    ensures many { OnOk result (length symbols.new.items ≡ length symbols.old.items + 1) }
    ensures bytes { bytes_of bits.new ≡ bytes_of bits.old }
{
    let symbol = number(bits, width(alphabet - 1))?;
    if alphabet <= symbol {
        return Err(DecoderError::from(Refusal::SymbolOutside));
    }
    if symbols.contains(&symbol) {
        return Err(DecoderError::from(Refusal::SymbolTwice));
    }
    symbols.push(symbol)?;
    Ok(())
}

/// `n` symbols, each signalled by its number.
fn signalled_symbols(
    alloc: Global,
    bits: &mut Bitstream<'_>,
    alphabet: u32,
    n: u32,
) -> Result<Vec<u32>, DecoderError>
    requires { 0 < alphabet }
    ensures gives { Gives (λ v. v.items) result (position_of bits.new)
        (steps (symbols_step alphabet) n [] (bytes_of bits.old) (position_of bits.old)) }
    ensures each { IfOk result (λ v. All (λ s. s < alphabet) v.items) }
    ensures many { IfOk result (λ v. length v.items ≡ n) }
    ensures bytes { bytes_of bits.new ≡ bytes_of bits.old }
{
    let mut symbols = Vec::new(alloc);
    for _ in 0..n {
        push_symbol(&mut symbols, alphabet, bits)?;
    }
    Ok(symbols)
}

/// Sets the lengths of these symbols.
fn set_lengths(lengths: &mut [u32], symbols: &[u32], each: &[u32])
    requires symbols { All (λ s. s < length lengths.old) symbols.now }
    requires each { length symbols.now ≤ length each.now }
    ensures lengths { lengths.new ≡ set_first (length symbols.now) lengths.old symbols.now each.now }
{
    for i in 0..symbols.len() {
        lengths[symbols[i] as usize] = each[i];
    }
}

/// The lengths of two to four symbols that are signalled.
fn few_lengths(n: usize, deep: bool) -> [u32; 4]
    ensures { result ≡ lengths_of_few n deep }
{
    if n == 2 {
        [1, 1, 0, 0]
    } else if n == 3 {
        [1, 2, 2, 0]
    } else if deep {
        [1, 2, 3, 3]
    } else {
        [2, 2, 2, 2]
    }
}

/// The code of one to four symbols that were signalled.
fn few_code(
    alloc: Global,
    alphabet: u32,
    symbols: &[u32],
    deep: bool,
) -> Result<PrefixCode, DecoderError>
    requires alphabet { alphabet ≤ 2 ^ 15 }
    requires each { All (λ s. s < alphabet) symbols.now }
    requires few { length symbols.now ≤ 4 }
    ensures ok { IfOk result (λ c. code_seen c ≡ code_of_few alphabet symbols.now deep) }
    ensures err { IfErr result (λ e. e ≡ DecoderError.OutOfMemory) }
{
    if symbols.len() == 1 {
        return PrefixCode::single(alloc, symbols[0]);
    }
    let each = few_lengths(symbols.len(), deep);
    let mut lengths = vec![in alloc; 0u32; alphabet as usize]?;
    set_lengths(&mut lengths, symbols, &each);
    PrefixCode::from_lengths(alloc, &lengths)
}

/// Whether four symbols have the deeper of their two codes.
fn deep_bit(bits: &mut Bitstream<'_>, n: u32) -> Result<u32, DecoderError>
    ensures gives { Exactly result (position_of bits.new)
        (deep_at n (bytes_of bits.old) (position_of bits.old)) }
    ensures bytes { bytes_of bits.new ≡ bytes_of bits.old }
{
    if n == 4 { number(bits, 1) } else { Ok(0) }
}

/// A code of one to four symbols.
#[tactic(auto, unfolding(crate::specs::PrefixCodes::few_code_at))]
fn few(alloc: Global, bits: &mut Bitstream<'_>, alphabet: u32) -> Result<PrefixCode, DecoderError>
    requires some { 0 < alphabet }
    requires alphabet { alphabet ≤ 2 ^ 15 }
    ensures gives { Gives code_seen result (position_of bits.new)
        (few_code_at alphabet (bytes_of bits.old) (position_of bits.old)) }
    ensures bytes { bytes_of bits.new ≡ bytes_of bits.old }
{
    let more = number(bits, 2)?;
    let symbols = signalled_symbols(alloc, bits, alphabet, more + 1)?;
    let deep = deep_bit(bits, more + 1)?;
    few_code(alloc, alphabet, &symbols, deep == 1)
}

/// A prefix code of an alphabet.
#[tactic(auto, unfolding(crate::specs::PrefixCodes::prefix_at))]
pub fn prefix_code(
    alloc: Global,
    bits: &mut Bitstream<'_>,
    alphabet: u32,
) -> Result<PrefixCode, DecoderError>
    requires some { 0 < alphabet }
    requires alphabet { alphabet ≤ 2 ^ 15 }
    ensures gives { Gives code_seen result (position_of bits.new)
        (prefix_at alphabet (bytes_of bits.old) (position_of bits.old)) }
    ensures bytes { bytes_of bits.new ≡ bytes_of bits.old }
{
    if alphabet == 1 {
        return PrefixCode::single(alloc, 0);
    }
    let form = number(bits, 2)?;
    if form == 1 {
        few(alloc, bits, alphabet)
    } else {
        long_code(alloc, bits, form, alphabet)
    }
}
