//! The table of contents of a frame.

ghost use Rattle.std.specs.Prelude.{◌≡◌, ℕ, ◌+◌, ◌*◌, ◌<◌, ◌≤◌, ◌^◌, [], length, take, drop, get_or, slice_index, IfOk, IfErr, IfSome, IfNone, is_some, true};
ghost use Rattle.std.specs.List.{list_all};
ghost use Rattle.jxlm_bits.specs.Bits.{bytes_of, position_of};
ghost use Rattle.jxlm_bits.specs.ErrorKind.{NoMemory, kind_of};
ghost use Rattle.jxlm_bits.specs.Grammar.{Reads, repeated, Parses};
ghost use Rattle.jxl_codestream.specs.Reading.{Decodes};
ghost use Rattle.jxl_codestream.specs.Inner.Counts.{AreDigits};
ghost use Rattle.jxl_codestream.specs.Tocs.{IsToc, TocReads, room as the_room, toc, is_within as the_is_within, IsFirstTruncated};
ghost use Rattle.jxl_codestream.specs.Inner.Entries.{AreEntries, entry_size, sizes as the_sizes, table_of};
ghost use Rattle.jxl_image_header.specs.Fields.{when};
ghost use Rattle.jxl_codestream.specs.Orders.{lehmer_code as the_lehmer_code};
ghost use Rattle.jxl_codestream.specs.declared.toc.TocEntry.{TocEntry as TheEntry};

use crate::order::{lehmer_code, taken_in_turn};
use jxl_image_header::fields::{self, align};
use jxlm_bits::bits::{Bitstream, BitstreamError, U32Spec};
use jxlm_bits::decoder::Decoder;
use jxlm_bits::error::Result;
use std::alloc::Global;

/// Where a section lies.
#[derive(Clone, Copy)]
pub struct TocEntry {
    /// The byte of the codestream where it begins.
    pub offset: u64,
    /// How many bytes it has.
    pub size: u32,
}

/// Where the sections of a frame lie, by their numbers.
#[derive(Drop)]
pub struct Toc {
    pub entries: Vec<TocEntry>,
}

// What the table says.
#[derive(Drop)]
struct Table {
    code: Vec<u32>,
    sizes: Vec<u32>,
    start: u64,
}

// Whether this number of sizes can be there.
fn room(bits: &Bitstream<'_>, count: u32) -> fields::Result<()>
    ensures { Reads (λ v. v) result (position_of bits.now)
        ((the_room (12 * count)).read (bytes_of bits.now) (position_of bits.now)) }
{
    let mut after = *bits;
    for _ in 0..count {
        after.read_bits(12)?;
    }
    Ok(())
}

fn code_if<D: Decoder>(
    alloc: Global,
    bits: &mut Bitstream<'_>,
    permuted: bool,
    count: u32,
) -> Result<Vec<u32>>
    ensures gives { Decodes (λ v. v.items) result (position_of bits.new)
        ((when permuted (the_lehmer_code D.meaning count) []).read (bytes_of bits.old) (position_of bits.old)) }
    ensures digits { IfOk result (λ code. AreDigits code.items count) }
    ensures bytes { bytes_of bits.new ≡ bytes_of bits.old }
{
    if permuted {
        lehmer_code::<D>(alloc, bits, count)
    } else {
        Ok(Vec::new(alloc))
    }
}

fn entry_sizes(alloc: Global, bits: &mut Bitstream<'_>, count: u32) -> Result<Vec<u32>>
    ensures gives { Parses (λ v. v.items) result (position_of bits.new)
        ((repeated count entry_size).read (bytes_of bits.old) (position_of bits.old)) }
    ensures count { IfOk result (λ v. length v.items ≡ count) }
    ensures bytes { bytes_of bits.new ≡ bytes_of bits.old }
{
    let mut sizes = Vec::new(alloc);
    for _ in 0..count {
        let size = bits.read_u32(
            U32Spec::Offset(0, 10),
            U32Spec::Offset(1024, 14),
            U32Spec::Offset(17408, 22),
            U32Spec::Offset(4211712, 30),
        )?;
        sizes.push(size)?;
    }
    Ok(sizes)
}

fn sizes(alloc: Global, bits: &mut Bitstream<'_>, code: Vec<u32>, count: u32) -> Result<Table>
    requires { 8 * length (bytes_of bits.old) < 2 ^ 64 }
    ensures gives { Parses table_of result (position_of bits.new)
        ((the_sizes code.items count).read (bytes_of bits.old) (position_of bits.old)) }
    ensures count { IfOk result (λ t. length t.sizes.items ≡ count) }
    ensures code { IfOk result (λ t. t.code.items ≡ code.items) }
    ensures start { IfOk result (λ t. t.start < 2 ^ 61) }
    ensures bytes { bytes_of bits.new ≡ bytes_of bits.old }
{
    align(bits)?;
    let sizes = entry_sizes(alloc, bits, count)?;
    align(bits)?;
    let start = bits.position() / 8;
    Ok(Table { code, sizes, start })
}

fn read_table<D: Decoder>(alloc: Global, bits: &mut Bitstream<'_>, count: u32) -> Result<Table>
    requires { 8 * length (bytes_of bits.old) < 2 ^ 64 }
    ensures gives { Decodes table_of result (position_of bits.new)
        ((toc D.meaning count).read (bytes_of bits.old) (position_of bits.old)) }
    ensures count { IfOk result (λ t. length t.sizes.items ≡ count) }
    ensures digits { IfOk result (λ t. AreDigits t.code.items count) }
    ensures start { IfOk result (λ t. t.start < 2 ^ 61) }
    ensures bytes { bytes_of bits.new ≡ bytes_of bits.old }
{
    room(bits, count)?;
    let permuted = bits.read_bool()?;
    let code = code_if::<D>(alloc, bits, permuted, count)?;
    sizes(alloc, bits, code, count)
}

// The sections as they stand in the file.
fn as_they_stand(alloc: Global, start: u64, sizes: &[u32]) -> Result<Vec<TocEntry>>
    requires start { start < 2 ^ 61 }
    requires few { length sizes.now ≤ 2 ^ 24 }
    ensures entries { IfOk result (λ v. AreEntries start sizes.now v.items) }
    ensures memory { IfErr result (λ e. kind_of e ≡ NoMemory) }
{
    let mut entries = Vec::new(alloc);
    let mut offset = start;
    for size in sizes {
        let entry = TocEntry {
            offset,
            size: *size,
        };
        entries.push(entry)?;
        offset += u64::from(*size);
    }
    Ok(entries)
}

// The sections by their numbers.
fn by_number(alloc: Global, order: &[u32], stand: &[TocEntry]) -> Result<Vec<TocEntry>>
    requires { (i : ℕ) → i < length order.now → slice_index order.now i < length stand.now }
    ensures count { IfOk result (λ v. length v.items ≡ length order.now) }
    ensures entries { IfOk result (λ v. (i : ℕ) (entry : TheEntry) → i < length order.now
        → get_or v.items i entry ≡ get_or stand.now (slice_index order.now i) entry) }
    ensures memory { IfErr result (λ e. kind_of e ≡ NoMemory) }
{
    let mut entries = Vec::new(alloc);
    for place in order {
        entries.push(stand[*place as usize])?;
    }
    Ok(entries)
}

fn placed(alloc: Global, table: &Table) -> Result<Vec<TocEntry>>
    requires few { length table.now.sizes.items ≤ 2 ^ 24 }
    requires digits { AreDigits table.now.code.items (length table.now.sizes.items) }
    requires start { table.now.start < 2 ^ 61 }
    ensures toc { IfOk result (λ v. IsToc (table_of table.now) v.items) }
    ensures memory { IfErr result (λ e. kind_of e ≡ NoMemory) }
{
    let stand = as_they_stand(alloc, table.start, &table.sizes)?;
    let order = taken_in_turn(alloc, &table.code, table.sizes.len() as u32)?;
    let entries = by_number(alloc, &order, &stand)?;
    Ok(entries)
}

impl Toc {
    /// The table of contents of a frame of this number of sections that stands at the reader's position. The reader is
    /// left where the first section in the file begins. Whether the sections are there is not looked at; `truncated`
    /// tells.
    ///
    /// Where the table is permuted, the decoder reads its order.
    ///
    /// # Errors
    ///
    /// The first in the order of the bits: `UnexpectedEof` if the table is truncated, also where there are not 12 bits
    /// for each section; `InvalidEnum` of `permutation` for a digit, or a number of digits, that no order has; the
    /// decoder's; `InvalidEnum` of `padding` for bits up to the next byte that are not 0. Or it is out of memory.
    pub fn parse<D: Decoder>(alloc: Global, bits: &mut Bitstream<'_>, count: u32) -> Result<Toc>
        requires bytes { 8 * length (bytes_of bits.old) < 2 ^ 64 }
        requires few { count ≤ 2 ^ 24 }
        ensures gives { TocReads result (position_of bits.new)
            ((toc D.meaning count).read (bytes_of bits.old) (position_of bits.old)) }
        ensures count { IfOk result (λ t. length t.entries.items ≡ count) }
        ensures bytes { bytes_of bits.new ≡ bytes_of bits.old }
    {
        let table = read_table::<D>(alloc, bits, count)?;
        let entries = placed(alloc, &table)?;
        Ok(Toc { entries })
    }
}

impl TocEntry {
    /// Whether the section ends within this number of bytes.
    pub fn is_within(&self, length: u64) -> bool
        ensures { result ≡ the_is_within length self.now }
    {
        self.offset <= length && u64::from(self.size) <= length - self.offset
    }

    /// The bytes of the section; none where it passes their end.
    pub fn bytes<'a>(&self, bytes: &'a [u8]) -> Option<&'a [u8]>
        ensures some { IfSome result (λ s. s.now ≡ take self.now.size (drop self.now.offset bytes.now)) }
        ensures within { is_some result ≡ the_is_within (length bytes.now) self.now }
    {
        let rest = bytes.get(self.offset as usize..)?;
        rest.get(..self.size as usize)
    }
}

impl Toc {
    /// The first section, by number, that does not end within this number of bytes; none where all do.
    pub fn truncated(&self, length: u64) -> Option<usize>
        ensures some { IfSome result (λ k. IsFirstTruncated length self.now.entries.items k) }
        ensures none { IfNone result (list_all (the_is_within length) self.now.entries.items ≡ true) }
    {
        let mut k = 0;
        for entry in &self.entries {
            if !entry.is_within(length) {
                return Some(k);
            }
            k += 1;
        }
        None
    }
}
