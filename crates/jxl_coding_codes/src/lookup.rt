//! Codewords by a table of the bits that come next.

ghost use Rattle.std.specs.Prelude.{◌≤◌};
ghost use Rattle.std.specs.List.{All};

use crate::codeword::codeword;
use crate::fields::{number, power};
use jxlm_bits::bits::Bitstream;
use jxlm_bits::decoder::DecoderError;
use std::alloc::Global;

/// What the next bits tell: the symbol of a codeword, and how many bits that has; 0 bits where they tell none.
#[derive(Clone, Copy)]
pub struct Entry {
    pub symbol: u16,
    pub length: u16,
}

/// The codewords of at most nine bits, each at all places whose last bits it is.
#[derive(Drop)]
pub struct Lookup {
    entries: Vec<Entry>,
    // how many of the next bits are looked up
    width: u32,
    ghost narrow: { width ≤ 9 },
    ghost short: { All (λ entry. entry.length ≤ width) entries.items },
}

impl Lookup {
    ghost use Rattle.std.specs.Prelude.{◌≡◌, ℕ, List, ◌+◌, ◌*◌, ◌<◌, ◌^◌, length, Ok, IfOk, IfErr, OnOk, IfSome, IfNone};
    ghost use Rattle.jxlm_bits.specs.Bits.{bytes_of, position_of, bits_at};
    ghost use Rattle.jxlm_bits.specs.declared.decoder.DecoderError.{DecoderError};
    ghost use Rattle.jxl_coding_codes.specs.PrefixCodes.{codeword_at};
    ghost use Rattle.jxl_coding_codes.specs.Reading.{Exactly};
    ghost use Rattle.jxl_coding_codes.specs.Lookups.{Tells, AllTell, IsLookupOf};

    /// How many bits are to be looked up: as many as the longest codeword has, and at most nine.
    fn width_of(counts: &[u32]) -> u32
        ensures { result ≤ 9 }
    {
        let mut width = 0;
        for (shorter, count) in counts.iter().enumerate() {
            if *count > 0 {
                width = shorter.min(8) as u32 + 1;
            }
        }
        width
    }

    /// The entry of a number, whose bits are read; one of more bits than `most` tells nothing.
    fn read_entry(counts: &[u32], symbols: &[u32], start: u32, most: u32, bits: u32) -> Entry
        requires bits { bits < 2 ^ 9 }
        requires most { most ≤ 9 }
        ensures tells { Tells counts.now symbols.now start bits result }
        ensures short { result.length ≤ most }
    {
        let mut bytes = [0u8; 16];
        bytes[0] = (bits % 256) as u8;
        bytes[1] = (bits / 256) as u8;
        let mut reader = Bitstream::new(&bytes);
        match codeword(&mut reader, counts, symbols, start) {
            Ok(symbol) => {
                let length = reader.position();
                if length <= u64::from(most) && symbol < 65536 {
                    Entry {
                        symbol: symbol as u16,
                        length: length as u16,
                    }
                } else {
                    Entry {
                        symbol: 0,
                        length: 0,
                    }
                }
            }
            Err(_) => Entry {
                symbol: 0,
                length: 0,
            },
        }
    }

    /// The entry of a number: that of another one, where their last bits are the same codeword.
    fn entry(
        counts: &[u32],
        symbols: &[u32],
        start: u32,
        most: u32,
        bits: u32,
        other: u32,
        same: Entry,
    ) -> Entry
        requires bits { bits < 2 ^ 9 }
        requires most { most ≤ 9 }
        requires same { Tells counts.now symbols.now start other same }
        requires short { same.length ≤ most }
        ensures tells { Tells counts.now symbols.now start bits result }
        ensures short { result.length ≤ most }
    {
        let length = u32::from(same.length);
        if bits % power(length) == other % power(length) {
            same
        } else {
            Lookup::read_entry(counts, symbols, start, most, bits)
        }
    }

    /// One entry more, for which that of another number is tried.
    fn push_entry(
        entries: &mut Vec<Entry>,
        counts: &[u32],
        symbols: &[u32],
        start: u32,
        most: u32,
        other: usize,
    ) -> Result<(), DecoderError>
        requires few { length entries.old.items < 2 ^ 9 }
        requires most { most ≤ 9 }
        requires other { other < length entries.old.items }
        requires tell { AllTell counts.now symbols.now start entries.old.items }
        requires short { All (λ entry. entry.length ≤ most) entries.old.items }
        ensures tell { OnOk result (AllTell counts.now symbols.now start entries.new.items) }
        ensures short { OnOk result (All (λ entry. entry.length ≤ most) entries.new.items) }
        ensures many { OnOk result (length entries.new.items ≡ length entries.old.items + 1) }
        ensures err { IfErr result (λ e. e ≡ DecoderError.OutOfMemory) }
    {
        let bits = entries.len() as u32;
        let entry = Lookup::entry(
            counts,
            symbols,
            start,
            most,
            bits,
            other as u32,
            entries[other],
        );
        entries.push(entry)?;
        Ok(())
    }

    /// Once more as many entries, whose numbers have one bit more.
    fn double(
        entries: &mut Vec<Entry>,
        counts: &[u32],
        symbols: &[u32],
        start: u32,
        most: u32,
    ) -> Result<(), DecoderError>
        requires few { length entries.old.items ≤ 2 ^ 8 }
        requires most { most ≤ 9 }
        requires tell { AllTell counts.now symbols.now start entries.old.items }
        requires short { All (λ entry. entry.length ≤ most) entries.old.items }
        ensures tell { OnOk result (AllTell counts.now symbols.now start entries.new.items) }
        ensures short { OnOk result (All (λ entry. entry.length ≤ most) entries.new.items) }
        ensures err { IfErr result (λ e. e ≡ DecoderError.OutOfMemory) }
    {
        for other in 0..entries.len() {
            Lookup::push_entry(entries, counts, symbols, start, most, other)?;
        }
        Ok(())
    }

    /// The table of a code, where this number of codewords have the lengths from 1 on, and their symbols begin at
    /// `start`.
    pub fn new(
        alloc: Global,
        counts: &[u32],
        symbols: &[u32],
        start: u32,
    ) -> Result<Lookup, DecoderError>
        ensures ok { IfOk result (λ lookup. IsLookupOf counts.now symbols.now start lookup) }
        ensures err { IfErr result (λ e. e ≡ DecoderError.OutOfMemory) }
    {
        let width = Lookup::width_of(counts);
        let mut entries = Vec::new(alloc);
        entries.push(Lookup::read_entry(counts, symbols, start, width, 0))?;
        for _ in 0..width {
            if entries.len() <= 256 {
                Lookup::double(&mut entries, counts, symbols, start, width)?;
            }
        }
        Ok(Lookup { entries, width })
    }

    /// The entry of the next bits; none near the end of the input.
    #[inline(always)]
    fn next(&self, bits: &Bitstream<'_>) -> Option<Entry>
        ensures tells { (counts symbols : List ℕ) (start : ℕ) → IsLookupOf counts symbols start self.now
            → IfSome result (Tells counts symbols start
            (bits_at (bytes_of bits.now) (position_of bits.now) self.now.width)) }
        ensures short { IfSome result (λ entry. entry.length ≤ self.now.width) }
        ensures room { IfSome result (λ _. position_of bits.now + self.now.width ≤ 8 * length (bytes_of bits.now)) }
    {
        let mut ahead = *bits;
        match number(&mut ahead, self.width) {
            Ok(next) => {
                if (next as usize) < self.entries.len() {
                    Some(self.entries[next as usize])
                } else {
                    None
                }
            }
            Err(_) => None,
        }
    }

    /// The symbol of the codeword at the reader's position, where the table has it. Else the reader is left.
    #[inline(always)]
    pub fn symbol(&self, bits: &mut Bitstream<'_>) -> Option<u32>
        ensures some { (counts symbols : List ℕ) (start : ℕ) → IsLookupOf counts symbols start self.now
            → IfSome result (λ symbol. codeword_at counts symbols 0 start (bytes_of bits.old) (position_of bits.old)
            ≡ Ok (record { value = symbol; position = position_of bits.new })) }
        ensures none { IfNone result (bits.new ≡ bits.old) }
        ensures bytes { bytes_of bits.new ≡ bytes_of bits.old }
    {
        let entry = self.next(bits)?;
        if entry.length == 0 {
            return None;
        }
        bits.skip(u64::from(entry.length));
        Some(u32::from(entry.symbol))
    }
}
