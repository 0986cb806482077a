//! Bits of the input, least significant first, and the numbers that they make (ISO/IEC 18181-1, bit packing).

ghost use Rattle.std.specs.Prelude.{◌≡◌, ℕ, ◌+◌, ◌*◌, ◌/◌, ◌%◌, ◌^◌, ◌-◌, ◌<◌, ◌≤◌, ◌↔◌, min, length, slice_index, IfOk, IfErr, IsTrue, Bool, true, if◌then◌else◌};

use thiserror::Error;

/// Why a read of the input returns no value.
#[derive(Clone, Copy, Debug, PartialEq, Eq, Error)]
pub enum BitstreamError {
    /// The input ends before the field does.
    #[error("unexpected end of input")]
    UnexpectedEof,
    /// A number that was read whole names nothing: what it should name, and the number.
    #[error("invalid enum value {value} for {name}")]
    InvalidEnum { name: &'static str, value: u32 },
    /// A limit of the profile is passed; the text says which.
    #[error("{0}")]
    ProfileConformance(&'static str),
}

impl BitstreamError {
    ghost use Rattle.jxlm_bits.specs.declared.bits.BitstreamError.TheVariants.{UnexpectedEof};

    /// Whether the input ended too early: true for `UnexpectedEof`, and for nothing else.
    pub fn unexpected_eof(&self) -> bool
        ensures { IsTrue result ↔ self.now ≡ UnexpectedEof }
    {
        matches!(self, BitstreamError::UnexpectedEof)
    }
}

/// A part of a `U32` field: a constant, or a number of n bits above a minimum.
///
/// `Offset(minimum, n)` stands for `n` bits whose number is added to `minimum`. `Bitstream::read_u32` asks that `n`
/// is at most 32 and that the maximum, `minimum + 2^n - 1`, is a `u32`.
#[derive(Clone, Copy, Debug, PartialEq, Eq)]
pub enum U32Spec {
    /// This number, which takes no bits.
    Const(u32),
    /// The first number plus the number of n bits, where n is the second.
    Offset(u32, u32),
}

// Eight bytes from byte i on.
#[inline(always)]
fn eight_at(b: &[u8], i: usize) -> [u8; 8]
    requires { i + 8 ≤ length b.now }
    ensures { (j : ℕ) → j < 8 → slice_index result j ≡ slice_index b.now (i + j) }
{
    [
        b[i],
        b[i + 1],
        b[i + 2],
        b[i + 3],
        b[i + 4],
        b[i + 5],
        b[i + 6],
        b[i + 7],
    ]
}

// The fewer than eight bytes from byte i on, and zeros after them.
fn last_at(b: &[u8], i: usize) -> [u8; 8]
    requires here { i ≤ length b.now }
    requires few { length b.now < i + 8 }
    ensures { (j : ℕ) → j < 8 → slice_index result j ≡ slice_index b.now (i + j) }
{
    let rest = &b[i..];
    let mut eight = [0; 8];
    eight[..rest.len()].copy_from_slice(rest);
    eight
}

// The width of a number that comes after a bit.
#[inline(always)]
fn width_by(bit: bool, zero: u32, one: u32) -> u32
    requires zero { zero ≤ 32 }
    requires one { one ≤ 32 }
    ensures is { result ≡ (if bit then one else zero) }
    ensures narrow { result ≤ 32 }
{
    if bit { one } else { zero }
}

/// A reader of the input: its bytes, and a bit position in it.
///
/// Bit i of the input is bit i mod 8, least significant first, of byte i div 8. A copy reads on by itself from the
/// same position. Each read takes bits from the position on, and leaves the reader after them; one that would pass
/// the end returns `UnexpectedEof`, and leaves the reader as it was.
#[derive(Clone, Copy)]
pub struct Bitstream<'a> {
    bytes: &'a [u8],
    byte: usize,
    bit: u32,
    ghost in_byte: { bit < 8 },
    ghost within: { 8 * byte + bit ≤ 8 * length bytes.now },
}

impl<'a> Bitstream<'a> {
    ghost use Rattle.jxlm_bits.specs.Bits.{bytes_of, position_of, bits_at, ReadsNumbers, IsEither, EndsEither};
    ghost use Rattle.jxlm_bits.specs.Grammar.{flag, part, selected, u32 as the_u32, FitsU32, Reads, HasRead};

    /// A reader at the start of these bytes, at bit 0.
    pub fn new(bytes: &'a [u8]) -> Self
        ensures bytes { bytes_of result ≡ bytes.now }
        ensures position { position_of result ≡ 0 }
    {
        Bitstream {
            bytes,
            byte: 0,
            bit: 0,
        }
    }

    /// The bit position: how many bits of the input are before it, or `u64::MAX` where they are more than that.
    pub fn position(&self) -> u64
        ensures { result ≡ min (position_of self.now) (2 ^ 64 - 1) }
    {
        if self.byte as u64 <= u64::MAX / 8 {
            8 * self.byte as u64 + u64::from(self.bit)
        } else {
            u64::MAX
        }
    }

    // The 64 bits from the start of byte i on, where eight bytes are left.
    #[inline(always)]
    fn word_at(bytes: &[u8], i: usize) -> u64
        requires { i + 8 ≤ length bytes.now }
        ensures { (b n : ℕ) → b + n ≤ 64 → result / 2 ^ b % 2 ^ n ≡ bits_at bytes.now (8 * i + b) n }
    {
        u64::from_le_bytes(eight_at(bytes, i))
    }

    // The 64 bits from the start of the reader's byte on, where fewer are left; bits after the end are 0.
    fn last_word(&self) -> u64
        requires { length self.now.bytes.now < self.now.byte + 8 }
        ensures { (b n : ℕ) → b + n ≤ 64
            → result / 2 ^ b % 2 ^ n ≡ bits_at self.now.bytes.now (8 * self.now.byte + b) n }
    {
        u64::from_le_bytes(last_at(self.bytes, self.byte))
    }

    // `read_bits` where fewer than eight bytes are left.
    #[cold]
    #[inline(never)]
    fn read_near_end(&mut self, n: u32) -> Result<u32, BitstreamError>
        requires narrow { n ≤ 32 }
        requires few { length self.old.bytes.now < self.old.byte + 8 }
        ensures ok { IfOk result (λ v. (position_of self.old + n ≤ 8 * length (bytes_of self.old))
            × (v ≡ bits_at (bytes_of self.old) (position_of self.old) n)
            × (position_of self.new ≡ position_of self.old + n)) }
        ensures below { IfOk result (λ v. v < 2 ^ n) }
        ensures err { IfErr result (λ e. (8 * length (bytes_of self.old) < position_of self.old + n)
            × (e ≡ BitstreamError.UnexpectedEof) × (self.new ≡ self.old)) }
        ensures bytes { bytes_of self.new ≡ bytes_of self.old }
    {
        let end = self.bit + n;
        if end.div_ceil(8) as usize > self.bytes.len() - self.byte {
            return Err(BitstreamError::UnexpectedEof);
        }
        let value = (self.last_word() >> self.bit) % (1 << n);
        self.byte += (end / 8) as usize;
        self.bit = end % 8;
        Ok(value as u32)
    }

    /// The next `n` bits, at most 32, as a number: `u(n)` (ISO/IEC 18181-1, field types). The first bit is the least
    /// significant. For `n` = 0 the number is 0, also at the end.
    ///
    /// `UnexpectedEof` if fewer than `n` bits are left: the reader is then unchanged.
    #[inline(always)]
    pub fn read_bits(&mut self, n: u32) -> Result<u32, BitstreamError>
        requires { n ≤ 32 }
        ensures ok { IfOk result (λ v. (position_of self.old + n ≤ 8 * length (bytes_of self.old))
            × (v ≡ bits_at (bytes_of self.old) (position_of self.old) n)
            × (position_of self.new ≡ position_of self.old + n)) }
        ensures below { IfOk result (λ v. v < 2 ^ n) }
        ensures err { IfErr result (λ e. (8 * length (bytes_of self.old) < position_of self.old + n)
            × (e ≡ BitstreamError.UnexpectedEof) × (self.new ≡ self.old)) }
        ensures bytes { bytes_of self.new ≡ bytes_of self.old }
    {
        if self.bytes.len() - self.byte < 8 {
            if n == 0 {
                return Ok(0);
            }
            // a copy, so that a reader in a local variable may stay in registers
            let mut after = *self;
            let value = after.read_near_end(n)?;
            *self = after;
            return Ok(value);
        }
        let end = self.bit + n;
        let value = (Self::word_at(self.bytes, self.byte) >> self.bit) % (1 << n);
        self.byte += (end / 8) as usize;
        self.bit = end % 8;
        Ok(value as u32)
    }

    // `read_either` where fewer than eight bytes are left; an error may leave the reader after the bit.
    #[cold]
    #[inline(never)]
    fn either_near_end(&mut self, zero: u32, one: u32) -> Result<(bool, u32), BitstreamError>
        requires zero { zero ≤ 32 }
        requires one { one ≤ 32 }
        ensures ok { IfOk result (λ r. IsEither zero one (bytes_of self.old) (position_of self.old) r.0 r.1
            (position_of self.new)) }
        ensures err { IfErr result (λ _. EndsEither zero one (bytes_of self.old) (position_of self.old)) }
        ensures bytes { bytes_of self.new ≡ bytes_of self.old }
    {
        let flag = self.read_bits(1)? == 1;
        let value = self.read_bits(width_by(flag, zero, one))?;
        Ok((flag, value))
    }

    /// The next bit, and the number after it: of `zero` bits where the bit is 0, of `one` bits where it is 1, either at
    /// most 32.
    ///
    /// `UnexpectedEof` if the bit, or the number, passes the end: the reader is then unchanged.
    #[inline(always)]
    pub fn read_either(&mut self, zero: u32, one: u32) -> Result<(bool, u32), BitstreamError>
        requires zero { zero ≤ 32 }
        requires one { one ≤ 32 }
        ensures ok { IfOk result (λ r. IsEither zero one (bytes_of self.old) (position_of self.old) r.0 r.1
            (position_of self.new)) }
        ensures err { IfErr result (λ e. EndsEither zero one (bytes_of self.old) (position_of self.old)
            × (e ≡ BitstreamError.UnexpectedEof) × (self.new ≡ self.old)) }
        ensures bytes { bytes_of self.new ≡ bytes_of self.old }
    {
        if self.bytes.len() - self.byte < 8 {
            let mut after = *self;
            return match after.either_near_end(zero, one) {
                Ok(either) => {
                    *self = after;
                    Ok(either)
                }
                Err(_) => Err(BitstreamError::UnexpectedEof),
            };
        }
        let word = Self::word_at(self.bytes, self.byte) >> self.bit;
        let flag = word % 2 == 1;
        let n = width_by(flag, zero, one);
        let end = self.bit + 1 + n;
        let value = (word / 2) % (1 << n);
        self.byte += (end / 8) as usize;
        self.bit = end % 8;
        Ok((flag, value as u32))
    }

    /// Whether the next n bits are followed by eight bytes: what `ahead` asks for, at each of them.
    #[inline(always)]
    pub fn has_ahead(&self, n: u64) -> bool
        requires { n < 2 ^ 63 }
        ensures { result ≡ true → (position_of self.now + n) / 8 + 8 ≤ length (bytes_of self.now) }
    {
        let left = self.bytes.len() - self.byte;
        left >= 8 && (u64::from(self.bit) + n) / 8 <= (left - 8) as u64
    }

    /// The bits from this number after the reader's position on, as a number: the first is the least significant, and
    /// at least 57 are there. The reader stays where it is.
    #[inline(always)]
    pub fn ahead(&self, at: u64) -> u64
        requires few { at < 2 ^ 63 }
        requires room { (position_of self.now + at) / 8 + 8 ≤ length (bytes_of self.now) }
        ensures { (b n : ℕ) → b + n ≤ 57
            → result / 2 ^ b % 2 ^ n ≡ bits_at (bytes_of self.now) (position_of self.now + at + b) n }
    {
        let from = u64::from(self.bit) + at;
        Self::word_at(self.bytes, self.byte + (from / 8) as usize) >> (from % 8)
    }

    /// Passes n bits, all of which are there.
    #[inline(always)]
    pub fn skip(&mut self, n: u64)
        requires few { n < 2 ^ 63 }
        requires room { position_of self.old + n ≤ 8 * length (bytes_of self.old) }
        ensures position { position_of self.new ≡ position_of self.old + n }
        ensures bytes { bytes_of self.new ≡ bytes_of self.old }
    {
        let end = u64::from(self.bit) + n;
        self.byte += (end / 8) as usize;
        self.bit = (end % 8) as u32;
    }

    // Whether this number of numbers of n bits are followed by eight bytes. They are taken for less where they are 2^32
    // or more.
    #[inline(always)]
    fn has_many(&self, n: u32, count: usize) -> bool
        requires { n ≤ 32 }
        ensures few { result ≡ true → count < 2 ^ 32 }
        ensures room { result ≡ true
            → self.now.byte + (self.now.bit + n * count) / 8 + 8 ≤ length self.now.bytes.now }
    {
        count <= u32::MAX as usize && self.has_ahead(u64::from(n) * count as u64)
    }

    // Numbers of n bits, with no test for the end.
    #[inline(always)]
    fn take_many(&mut self, n: u32, numbers: &mut [u32])
        requires narrow { n ≤ 32 }
        requires few { length numbers.old < 2 ^ 32 }
        requires room { self.old.byte + (self.old.bit + n * length numbers.old) / 8 + 8 ≤ length self.old.bytes.now }
        ensures values { (k : ℕ) → k < length numbers.new
            → slice_index numbers.new k ≡ bits_at (bytes_of self.old) (position_of self.old + n * k) n }
        ensures position { position_of self.new ≡ position_of self.old + n * length numbers.new }
        ensures bytes { bytes_of self.new ≡ bytes_of self.old }
    {
        let bytes = self.bytes;
        let start = self.byte;
        let size = 1u64 << n;
        let mut at = u64::from(self.bit);
        for k in 0..numbers.len() {
            numbers[k] = ((Self::word_at(bytes, start + (at / 8) as usize) >> (at % 8))
                % size) as u32;
            at += u64::from(n);
        }
        self.byte = start + (at / 8) as usize;
        self.bit = (at % 8) as u32;
    }

    // Numbers of n bits, each with a test for the end.
    #[cold]
    #[inline(never)]
    fn take_some(&mut self, n: u32, numbers: &mut [u32]) -> usize
        requires { n ≤ 32 }
        ensures { ReadsNumbers n numbers.old numbers.new self.old self.new result }
    {
        for k in 0..numbers.len() {
            match self.read_bits(n) {
                Ok(value) => numbers[k] = value,
                Err(_) => return k,
            }
        }
        numbers.len()
    }

    /// The next numbers of `n` bits each, at most 32, one after another: as many as the slice holds, or as are whole
    /// before the end. The result says how many there are. The reader is after them then, and the rest of the slice is
    /// as it was.
    #[inline(always)]
    pub fn read_numbers(&mut self, n: u32, numbers: &mut [u32]) -> usize
        requires { n ≤ 32 }
        ensures { ReadsNumbers n numbers.old numbers.new self.old self.new result }
    {
        if self.has_many(n, numbers.len()) {
            // numbers of a byte have a loop of their own, with no shift by their width
            if n == 8 {
                self.take_many(8, numbers);
            } else {
                self.take_many(n, numbers);
            }
            return numbers.len();
        }
        // a copy, so that a reader in a local variable may stay in registers
        let mut after = *self;
        let count = after.take_some(n, numbers);
        *self = after;
        count
    }

    /// The next bit as a truth value: a `Bool` (ISO/IEC 18181-1, field types).
    ///
    /// `UnexpectedEof` at the end of the input: the reader is then unchanged.
    pub fn read_bool(&mut self) -> Result<bool, BitstreamError>
        ensures { HasRead Reads (λ v. v) result self.old self.new flag }
    {
        Ok(self.read_bits(1)? == 1)
    }

    fn read_part(&mut self, d: U32Spec) -> Result<u32, BitstreamError>
        requires fits { FitsU32 d }
        ensures { HasRead Reads (λ v. v) result self.old self.new (part d) }
    {
        match d {
            U32Spec::Const(value) => Ok(value),
            U32Spec::Offset(least, n) => {
                let value = self.read_bits(n)?;
                Ok(least + value)
            }
        }
    }

    fn read_selected(
        &mut self,
        d0: U32Spec,
        d1: U32Spec,
        d2: U32Spec,
        d3: U32Spec,
    ) -> Result<u32, BitstreamError>
        requires fits { FitsU32 d0 × FitsU32 d1 × FitsU32 d2 × FitsU32 d3 }
        ensures { HasRead Reads (λ v. v) result self.old self.new (selected d0 d1 d2 d3) }
    {
        let selector = self.read_bits(2)?;
        if selector == 0 {
            self.read_part(d0)
        } else if selector == 1 {
            self.read_part(d1)
        } else if selector == 2 {
            self.read_part(d2)
        } else {
            self.read_part(d3)
        }
    }

    /// A `U32` field (ISO/IEC 18181-1, field types): two bits, as a number, choose one of the four parts, and its
    /// value is read.
    ///
    /// `UnexpectedEof` if the two bits, or those of the chosen part, pass the end: the reader is then before the two
    /// bits, as before the call.
    pub fn read_u32(
        &mut self,
        d0: U32Spec,
        d1: U32Spec,
        d2: U32Spec,
        d3: U32Spec,
    ) -> Result<u32, BitstreamError>
        requires fits { FitsU32 d0 × FitsU32 d1 × FitsU32 d2 × FitsU32 d3 }
        ensures { HasRead Reads (λ v. v) result self.old self.new (the_u32 d0 d1 d2 d3) }
    {
        let mut after = *self;
        let value = after.read_selected(d0, d1, d2, d3)?;
        *self = after;
        Ok(value)
    }
}
