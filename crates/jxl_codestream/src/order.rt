//! The order of sections in the file.

ghost use Rattle.std.specs.Prelude.{◌≡◌, ℕ, ◌+◌, ◌-◌, ◌*◌, ◌<◌, ◌≤◌, ◌^◌, List, [], ◌∷◌, ◌++◌, false, length, slice_index_or, IfOk, IfErr};
ghost use Rattle.jxlm_bits.specs.Bits.{bytes_of, position_of};
ghost use Rattle.jxlm_bits.specs.ErrorKind.{NoMemory, kind_of};
ghost use Rattle.jxlm_bits.specs.Tokens.{token_value as the_told};
ghost use Rattle.jxlm_bits.specs.Turns.{chain};
ghost use Rattle.jxl_codestream.specs.Reading.{Decodes};
ghost use Rattle.jxl_codestream.specs.Orders.{IsOrder, context_of as the_context_of, one_more, lehmer_code as the_lehmer_code};
ghost use Rattle.jxl_codestream.specs.Inner.Free.{IsNext, free_below, is_taken};
ghost use Rattle.jxl_codestream.specs.Inner.Counts.{AreDigits, IsCounted};
ghost use Rattle.jxl_codestream.specs.Inner.Steps.{TokensRead, decoder as the_decoder, told_digits as the_told_digits};

use jxlm_bits::bits::{Bitstream, BitstreamError};
use jxlm_bits::decoder::Decoder;
use jxlm_bits::error::Result;
use std::alloc::Global;

fn context_of(v: u32) -> u32
    ensures context { result ≡ the_context_of v }
    ensures below { result < 8 }
{
    let few = u32::from(v >= 1) + u32::from(v >= 2) + u32::from(v >= 4);
    let more = u32::from(v >= 8) + u32::from(v >= 16) + u32::from(v >= 32);
    few + more + u32::from(v >= 64)
}

/// A decoder of this number of contexts, at the begin of its tokens.
pub fn decoder<D: Decoder>(alloc: Global, bits: &mut Bitstream<'_>, contexts: u32) -> Result<D>
    ensures gives { Decodes (λ v. v) result (position_of bits.new)
        ((the_decoder D.meaning contexts).read (bytes_of bits.old) (position_of bits.old)) }
    ensures clusters { IfOk result (λ d. length (D.meaning.cluster_map d) ≡ contexts) }
    ensures bytes { bytes_of bits.new ≡ bytes_of bits.old }
{
    let mut decoder = D::parse(alloc, bits, contexts)?;
    decoder.begin(bits)?;
    Ok(decoder)
}

/// The next token of a context.
pub fn token<D: Decoder>(decoder: &mut D, bits: &mut Bitstream<'_>, context: u32) -> Result<u32>
    requires { context < length (D.meaning.cluster_map decoder.old) }
    ensures gives { TokensRead (λ v. v) result decoder.new (position_of bits.new)
        ((the_told D.meaning context decoder.old).read (bytes_of bits.old) (position_of bits.old)) }
    ensures clusters { IfOk result (λ _. D.meaning.cluster_map decoder.new ≡ D.meaning.cluster_map decoder.old) }
    ensures bytes { bytes_of bits.new ≡ bytes_of bits.old }
{
    Ok(decoder.read_varint(bits, context)?)
}

// The last digit of a code, 0 where it has none.
fn last_of(code: &[u32]) -> u32
    ensures { result ≡ slice_index_or code.now (length code.now - 1) 0 }
{
    if code.is_empty() {
        0
    } else {
        code[code.len() - 1]
    }
}

fn digit<D: Decoder>(
    decoder: &mut D,
    bits: &mut Bitstream<'_>,
    code: &[u32],
    count: u32,
) -> Result<u32>
    requires { length (D.meaning.cluster_map decoder.old) ≡ 8 }
    ensures gives { TokensRead (λ v. code.now ++ v ∷ []) result decoder.new (position_of bits.new)
        ((one_more D.meaning count code.now decoder.old).read (bytes_of bits.old) (position_of bits.old)) }
    ensures below { IfOk result (λ v. v + length code.now < count) }
    ensures clusters { IfOk result (λ _. D.meaning.cluster_map decoder.new ≡ D.meaning.cluster_map decoder.old) }
    ensures bytes { bytes_of bits.new ≡ bytes_of bits.old }
{
    let value = token(decoder, bits, context_of(last_of(code)))?;
    let done = code.len() as u64;
    if u64::from(value) + done < u64::from(count) {
        Ok(value)
    } else {
        let name = "permutation";
        Err(BitstreamError::InvalidEnum { name, value }.into())
    }
}

fn told_digits<D: Decoder>(decoder: &mut D, bits: &mut Bitstream<'_>, count: u32) -> Result<u32>
    requires { length (D.meaning.cluster_map decoder.old) ≡ 8 }
    ensures gives { TokensRead (λ v. v) result decoder.new (position_of bits.new)
        ((the_told_digits D.meaning count decoder.old).read (bytes_of bits.old) (position_of bits.old)) }
    ensures clusters { IfOk result (λ _. D.meaning.cluster_map decoder.new ≡ D.meaning.cluster_map decoder.old) }
    ensures bytes { bytes_of bits.new ≡ bytes_of bits.old }
{
    let value = token(decoder, bits, context_of(count))?;
    if value <= count {
        Ok(value)
    } else {
        let name = "permutation";
        Err(BitstreamError::InvalidEnum { name, value }.into())
    }
}

fn digits<D: Decoder>(
    alloc: Global,
    decoder: &mut D,
    bits: &mut Bitstream<'_>,
    told: u32,
    count: u32,
) -> Result<Vec<u32>>
    requires { length (D.meaning.cluster_map decoder.old) ≡ 8 }
    ensures gives { TokensRead (λ v. v.items) result decoder.new (position_of bits.new)
        ((chain (one_more D.meaning count) told [] decoder.old).read (bytes_of bits.old) (position_of bits.old)) }
    ensures digits { IfOk result (λ code. AreDigits code.items count) }
    ensures bytes { bytes_of bits.new ≡ bytes_of bits.old }
{
    let mut code = Vec::new(alloc);
    for _ in 0..told {
        let value = digit(decoder, bits, &code, count)?;
        code.push(value)?;
    }
    Ok(code)
}

/// The Lehmer code of an order of this number of numbers, by a decoder that comes first.
pub fn lehmer_code<D: Decoder>(
    alloc: Global,
    bits: &mut Bitstream<'_>,
    count: u32,
) -> Result<Vec<u32>>
    ensures gives { Decodes (λ v. v.items) result (position_of bits.new)
        ((the_lehmer_code D.meaning count).read (bytes_of bits.old) (position_of bits.old)) }
    ensures digits { IfOk result (λ code. AreDigits code.items count) }
    ensures bytes { bytes_of bits.new ≡ bytes_of bits.old }
{
    let mut decoder: D = decoder(alloc, bits, 8)?;
    let told = told_digits(&mut decoder, bits, count)?;
    let code = digits(alloc, &mut decoder, bits, told, count)?;
    decoder.finalize()?;
    Ok(code)
}

// The numbers below 2 to the power of `levels` that were not taken are counted by a full binary tree: node 1 counts all
// of them, and nodes 2k and 2k + 1 the lower and the higher half of those of node k.

fn levels_of(count: u32) -> u32
    requires { count ≤ 2 ^ 24 }
    ensures enough { count ≤ 2 ^ result }
    ensures most { result ≤ 24 }
{
    let mut levels = 0;
    for _ in 0..24u32 {
        if 1u32 << levels < count {
            levels += 1;
        }
    }
    levels
}

fn all_free(alloc: Global, levels: u32) -> Result<Vec<u32>>
    requires { levels ≤ 24 }
    ensures counted { IfOk result (λ counts. IsCounted counts.items levels []) }
    ensures nodes { IfOk result (λ counts. length counts.items ≡ 2 * 2 ^ levels) }
    ensures memory { IfErr result (λ e. kind_of e ≡ NoMemory) }
{
    let mut counts = vec![in alloc; 1u32 << levels; 2]?;
    for k in 2..2usize << levels {
        let half = counts[k / 2] / 2;
        counts.push(half)?;
    }
    Ok(counts)
}

// The number that was not taken, where this number before it were not.
fn find(counts: &[u32], levels: u32, digit: u32) -> u32
    requires small { levels ≤ 24 }
    requires nodes { length counts.now ≡ 2 * 2 ^ levels }
    ensures below { result < 2 ^ levels }
    ensures found { (taken : List ℕ) → IsCounted counts.now levels taken → digit < free_below taken (2 ^ levels)
        → IsNext (2 ^ levels) taken digit result }
{
    let mut first = 1usize;
    let mut place = 0usize;
    let mut rest = digit;
    for _ in 0..levels {
        first *= 2;
        place *= 2;
        let left = counts[first + place];
        if rest >= left {
            rest -= left;
            place += 1;
        }
    }
    place as u32
}

// One more number is taken.
fn take(counts: &mut [u32], levels: u32, number: u32)
    requires small { levels ≤ 24 }
    requires nodes { length counts.old ≡ 2 * 2 ^ levels }
    requires number { number < 2 ^ levels }
    ensures counted { (taken : List ℕ) → IsCounted counts.old levels taken → is_taken taken number ≡ false
        → IsCounted counts.new levels (taken ++ number ∷ []) }
    ensures nodes { length counts.new ≡ length counts.old }
{
    let mut first = 1usize << levels;
    let mut place = number as usize;
    for _ in 0..levels + 1 {
        counts[first + place] = counts[first + place].saturating_sub(1);
        first /= 2;
        place /= 2;
    }
}

// A digit of a code; those that it does not have are 0.
fn digit_at(code: &[u32], i: usize) -> u32
    ensures { result ≡ slice_index_or code.now i 0 }
{
    if i < code.len() { code[i] } else { 0 }
}

fn turns(
    alloc: Global,
    counts: &mut [u32],
    levels: u32,
    code: &[u32],
    count: u32,
) -> Result<Vec<u32>>
    requires small { levels ≤ 24 }
    requires nodes { length counts.old ≡ 2 * 2 ^ levels }
    requires counted { IsCounted counts.old levels [] }
    requires enough { count ≤ 2 ^ levels }
    requires digits { AreDigits code.now count }
    ensures order { IfOk result (λ order. IsOrder code.now count order.items) }
    ensures memory { IfErr result (λ e. kind_of e ≡ NoMemory) }
{
    let mut order = Vec::new(alloc);
    for i in 0..count as usize {
        let number = find(counts, levels, digit_at(code, i));
        take(counts, levels, number);
        order.push(number)?;
    }
    Ok(order)
}

/// The order of this number of numbers that a Lehmer code tells.
pub fn taken_in_turn(alloc: Global, code: &[u32], count: u32) -> Result<Vec<u32>>
    requires few { count ≤ 2 ^ 24 }
    requires digits { AreDigits code.now count }
    ensures order { IfOk result (λ order. IsOrder code.now count order.items) }
    ensures memory { IfErr result (λ e. kind_of e ≡ NoMemory) }
{
    let levels = levels_of(count);
    let mut counts = all_free(alloc, levels)?;
    turns(alloc, &mut counts, levels, code, count)
}
