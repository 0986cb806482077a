//! Bits written, least significant first (ISO/IEC 18181-1, bit packing).

ghost use Rattle.std.specs.Prelude.{◌≡◌, ◌+◌, ◌*◌, ◌/◌, ◌%◌, ◌^◌, ◌<◌, ◌≤◌, [], ◌++◌, IfOk};
ghost use Rattle.std.specs.Int.{to_le_bytes, w64};
ghost use Rattle.jxlm_bit_writer.specs.Written.{digits, words_back, AreFilled};

use std::alloc::{AllocError, Global};
use std::marker::Model;

/// Bits that were written, one after another. Contracts see the list of them, each 0 or 1.
///
/// A call that is out of memory promises nothing of the bits.
#[derive(Drop)]
pub struct BitWriter {
    bytes: Vec<u8>,
    // The bits after these bytes, fewer than 32, as a number.
    held: u64,
    count: u32,
}

impl Model for BitWriter {
    ghost use Rattle.std.specs.Prelude.{ℕ, ◌<◌, ◌^◌, ◌++◌, List};
    ghost use Rattle.jxlm_bit_writer.specs.Written.{bits_of, digits};

    ghost Value = { List ℕ };

    ghost view = { λ w. bits_of w.bytes.items ++ digits w.count w.held };

    ghost invariant = { λ w. (w.count < 32) × (w.held < 2 ^ w.count) };
}

/// Moves a number by fewer than 32 bits. It is not inlined: by shifts, its products would take more instructions.
#[inline(never)]
fn scale_of(count: u32) -> u64
    requires { count < 32 }
    ensures { result ≡ 2 ^ count }
{
    1 << count
}

/// The bytes of a word after the bits that are held, and the bits that are held then, where the scale moves it above them.
#[inline(always)]
fn put_after(held: u64, scale: u64, word: u64) -> ([u8; 8], u64)
    ensures bytes { result.0 ≡ to_le_bytes w64 ((held + word * scale) % 18446744073709551616) }
    ensures held { result.1 ≡ (held + word * scale) / 18446744073709551616 }
{
    let all = u128::from(held) + u128::from(word) * u128::from(scale);
    let low = (all % 18446744073709551616) as u64;
    (low.to_le_bytes(), (all >> 64) as u64)
}

impl BitWriter {
    /// No bits.
    pub fn new(alloc: Global) -> BitWriter
        ensures { result ≡ [] }
    {
        BitWriter {
            bytes: Vec::new(alloc),
            held: 0,
            count: 0,
        }
    }

    /// Adds the `n` least significant bits of a number, at most 32, the least significant first: `u(n)`.
    #[inline]
    pub fn put(&mut self, value: u32, n: u32) -> Result<(), AllocError>
        requires { n ≤ 32 }
        ensures { IfOk result (λ _. self.new ≡ self.old ++ digits n value) }
    {
        let low = u64::from(value) % (1u64 << n);
        let held = self.held + (low << self.count);
        let count = self.count + n;
        if count < 32 {
            self.held = held;
            self.count = count;
        } else {
            let word = (held % 4294967296) as u32;
            self.bytes.extend_from_slice(&word.to_le_bytes())?;
            self.held = held >> 32;
            self.count = count - 32;
        }
        Ok(())
    }

    /// Adds the 64 bits of a number, the least significant first.
    #[inline]
    pub fn put_word(&mut self, word: u64) -> Result<(), AllocError>
        ensures { IfOk result (λ _. self.new ≡ self.old ++ digits 64 word) }
    {
        let low = self.held.wrapping_add(word << self.count);
        self.bytes.extend_from_slice(&low.to_le_bytes())?;
        self.held = (word >> 32) >> (32 - self.count);
        Ok(())
    }

    /// Adds the bits of eight words, the last word first.
    #[inline]
    pub fn put_block(&mut self, words: &[u64; 8]) -> Result<(), AllocError>
        ensures { IfOk result (λ _. self.new ≡ self.old ++ words_back words.now) }
    {
        let scale = scale_of(self.count);
        let (a, held) = put_after(self.held, scale, words[7]);
        let (b, held) = put_after(held, scale, words[6]);
        let (c, held) = put_after(held, scale, words[5]);
        let (d, held) = put_after(held, scale, words[4]);
        let (e, held) = put_after(held, scale, words[3]);
        let (f, held) = put_after(held, scale, words[2]);
        let (g, held) = put_after(held, scale, words[1]);
        let (h, held) = put_after(held, scale, words[0]);
        let rows = [a, b, c, d, e, f, g, h];
        self.bytes.extend_from_slice(rows.as_flattened())?;
        self.held = held;
        Ok(())
    }

    /// The bytes, the first bit the least significant of the first byte; zero bits fill the last byte.
    pub fn into_bytes(self) -> Result<Vec<u8>, AllocError>
        ensures { IfOk result (λ v. AreFilled v.items self) }
    {
        let BitWriter {
            mut bytes,
            held,
            count,
        } = self;
        let last = held.to_le_bytes();
        bytes.extend_from_slice(&last[..count.div_ceil(8) as usize])?;
        Ok(bytes)
    }
}
