//! Bits written from the last to the first.

ghost use Rattle.std.specs.Prelude.{◌≡◌, ◌<◌, ◌≤◌, ◌/◌, ◌%◌, ◌^◌, ◌++◌, IfOk};
ghost use Rattle.std.specs.List.{flat_map};
ghost use Rattle.jxlm_bit_writer.specs.Written.{digits, words_back};
ghost use Rattle.jxl_coding_stream_write.specs.Inner.Backward.{bits_back};

use crate::first_bits::FirstBits;
use jxl_coding_write::piece::BitPiece;
use jxlm_bit_writer::writer::BitWriter;
use std::alloc::{AllocError, Global};
use std::mem;

/// Writes the lowest bits of a number before the other bits. If there are 64 bits and more, the last of them are a word.
///
/// The rotated number has these bits highest, so one shift of two words moves them; the remainder tells the compiler so.
#[inline(always)]
pub(crate) fn prepend_lowest(
    words: &mut Vec<u64>,
    first: FirstBits,
    number: u64,
    width: u32,
) -> Result<FirstBits, AllocError>
    requires { width < 64 }
    ensures { IfOk result (λ f. bits_back f words.new.items
        ≡ digits width (number % 2 ^ width) ++ bits_back first words.old.items) }
{
    let piece = number.rotate_right(width);
    let count = first.count + width;
    if count < 64 {
        let by = width % 64;
        let value = (first.value << by).wrapping_add((piece >> 1) >> (63 - by));
        return Ok(FirstBits { value, count });
    }
    let rest = count % 64;
    let upper = width - rest;
    let word = (first.value << upper).wrapping_add(piece >> (64 - upper));
    words.push(word)?;
    Ok(FirstBits {
        value: number,
        count: rest,
    })
}

/// Writes a piece before the other bits, whose last are in words.
#[inline(always)]
pub(crate) fn prepend(
    words: &mut Vec<u64>,
    first: FirstBits,
    piece: BitPiece,
) -> Result<FirstBits, AllocError>
    ensures { IfOk result (λ f. bits_back f words.new.items
        ≡ digits piece.count piece.value ++ bits_back first words.old.items) }
{
    if piece.count == 0 {
        return Ok(first);
    }
    let first = prepend_lowest(words, first, u64::from(piece.value), piece.count)?;
    Ok(first)
}

/// Adds the bits of blocks of words, the last word first.
fn put_blocks(bits: &mut BitWriter, blocks: &[[u64; 8]]) -> Result<(), AllocError>
    ensures { IfOk result (λ _. bits.new ≡ bits.old ++ words_back (flat_map (λ x. x) blocks.now)) }
{
    let n = blocks.len();
    for i in 0..n {
        bits.put_block(&blocks[n - 1 - i])?;
    }
    Ok(())
}

/// Adds the bits of words one by one, the last word first.
fn put_each(bits: &mut BitWriter, words: &[u64]) -> Result<(), AllocError>
    ensures { IfOk result (λ _. bits.new ≡ bits.old ++ words_back words.now) }
{
    let n = words.len();
    for i in 0..n {
        bits.put_word(words[n - 1 - i])?;
    }
    Ok(())
}

/// Adds the bits of words, the last word first. The writer is a local value while they are added, so it is in registers.
#[inline(never)]
fn put_words(alloc: Global, bits: &mut BitWriter, words: &[u64]) -> Result<(), AllocError>
    ensures { IfOk result (λ _. bits.new ≡ bits.old ++ words_back words.now) }
{
    let mut writer = mem::replace(bits, BitWriter::new(alloc));
    let (first, blocks) = words.as_rchunks::<8>();
    put_blocks(&mut writer, blocks)?;
    put_each(&mut writer, first)?;
    *bits = writer;
    Ok(())
}

/// Adds the first bits.
fn put_first(bits: &mut BitWriter, first: FirstBits) -> Result<(), AllocError>
    ensures { IfOk result (λ _. bits.new ≡ bits.old ++ digits first.count first.value) }
{
    let low = (first.value % 4294967296) as u32;
    if first.count <= 32 {
        bits.put(low, first.count)?;
        return Ok(());
    }
    bits.put(low, 32)?;
    bits.put(((first.value >> 32) % 4294967296) as u32, first.count - 32)?;
    Ok(())
}

/// Adds all bits.
pub(crate) fn put_back(
    alloc: Global,
    bits: &mut BitWriter,
    first: FirstBits,
    words: &[u64],
) -> Result<(), AllocError>
    ensures { IfOk result (λ _. bits.new ≡ bits.old ++ bits_back first words.now) }
{
    put_first(bits, first)?;
    put_words(alloc, bits, words)?;
    Ok(())
}
