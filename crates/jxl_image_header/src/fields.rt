//! Fields of headers.

ghost use Rattle.std.specs.Prelude.{ℕ, ◌+◌, ◌-◌, ◌*◌, ◌%◌, ◌^◌, ◌<◌, ◌≤◌, IfOk, length};
ghost use Rattle.jxlm_bits.specs.Bits.{bytes_of};
ghost use Rattle.jxlm_bits.specs.Grammar.{FitsU32, Reads, flag, number as the_number, u32 as the_u32, HasRead};
ghost use Rattle.jxl_image_header.specs.Fields.{groups as the_groups, long as the_long, enum_number as the_enum_number, ignored_bytes, extensions as the_extensions, name as the_name, zero_pad_to_byte, bundle_follows as the_bundle_follows, when};
ghost use Rattle.jxlm_bits.specs.FieldRanges.{max_of};
ghost use Rattle.jxl_image_header.specs.Inner.Groups.{group_bound, grouped as the_grouped, extension_bits as the_extension_bits, ignored_bits};

use jxlm_bits::bits::{Bitstream, BitstreamError, U32Spec};

/// What reading a field returns: its value, or the first error in the order of the bits. Where a field is truncated
/// (`UnexpectedEof`), the reader is left before it; after a number without a meaning (`InvalidEnum`) behind it.
pub type Result<T> = std::result::Result<T, BitstreamError>;

/// A number of n bits, at most 32.
pub fn number(bits: &mut Bitstream<'_>, n: u32) -> Result<u32>
    requires { n ≤ 32 }
    ensures reads { HasRead Reads (λ v. v) result bits.old bits.new (the_number n) }
    ensures below { IfOk result (λ v. v < 2 ^ n) }
{
    bits.read_bits(n)
}

/// A `U32`, with its maximum.
pub fn field(
    bits: &mut Bitstream<'_>,
    d0: U32Spec,
    d1: U32Spec,
    d2: U32Spec,
    d3: U32Spec,
) -> Result<u32>
    requires fits { FitsU32 d0 × FitsU32 d1 × FitsU32 d2 × FitsU32 d3 }
    ensures reads { HasRead Reads (λ v. v) result bits.old bits.new (the_u32 d0 d1 d2 d3) }
    ensures maximum { IfOk result (λ v. v ≤ max_of d0 d1 d2 d3) }
{
    bits.read_u32(d0, d1, d2, d3)
}

/// A flag where it is there, and else `usual`.
pub fn flag_if(bits: &mut Bitstream<'_>, there: bool, usual: bool) -> Result<bool>
    ensures { HasRead Reads (λ v. v) result bits.old bits.new (when there flag usual) }
{
    if there { bits.read_bool() } else { Ok(usual) }
}

/// The number of `n` bits, at most 32, where it is there, and else `usual`, which has no more bits.
pub fn number_if(bits: &mut Bitstream<'_>, there: bool, n: u32, usual: u32) -> Result<u32>
    requires n { n ≤ 32 }
    requires usual { usual < 2 ^ n }
    ensures reads { HasRead Reads (λ v. v) result bits.old bits.new (when there (the_number n) usual) }
    ensures below { IfOk result (λ v. v < 2 ^ n) }
{
    if there { number(bits, n) } else { Ok(usual) }
}

/// Whether a bundle is coded: it may be there, and its first bit does not say that all of it is as by default.
pub fn bundle_follows(bits: &mut Bitstream<'_>, there: bool) -> Result<bool>
    ensures { HasRead Reads (λ v. v) result bits.old bits.new (the_bundle_follows there) }
{
    if !there {
        return Ok(false);
    }
    let all_default = bits.read_bool()?;
    Ok(!all_default)
}

// `n` groups of a `U64` and its last one.
fn groups(bits: &mut Bitstream<'_>, n: u32) -> Result<u64>
    requires { n ≤ 6 }
    ensures reads { HasRead Reads (λ v. v) result bits.old bits.new (the_groups n) }
    ensures below { IfOk result (λ v. v < group_bound n) }
{
    let more = bits.read_bool()?;
    if more {
        if n == 0 {
            return Ok(u64::from(number(bits, 4)?));
        }
        let value = number(bits, 8)?;
        let rest = groups(bits, n - 1)?;
        return Ok(u64::from(value) + 256 * rest);
    }
    Ok(0)
}

// A `U64` that has groups, after the two bits that say so.
fn grouped(bits: &mut Bitstream<'_>) -> Result<u64>
    ensures { HasRead Reads (λ v. v) result bits.old bits.new the_grouped }
{
    let value = number(bits, 12)?;
    let rest = groups(bits, 6)?;
    Ok(u64::from(value) + 4096 * rest)
}

/// A `U64`.
#[tactic(auto, unfolding(crate::specs::Fields::long))]
pub fn long(bits: &mut Bitstream<'_>) -> Result<u64>
    ensures { HasRead Reads (λ v. v) result bits.old bits.new the_long }
{
    let selector = number(bits, 2)?;
    if selector == 0 {
        return Ok(0);
    }
    if selector == 1 {
        return Ok(1 + u64::from(number(bits, 4)?));
    }
    if selector == 2 {
        return Ok(17 + u64::from(number(bits, 8)?));
    }
    grouped(bits)
}

/// A `U64` where it is there, and else 0.
pub fn long_if(bits: &mut Bitstream<'_>, there: bool) -> Result<u64>
    ensures { HasRead Reads (λ v. v) result bits.old bits.new (when there the_long 0) }
{
    if there { long(bits) } else { Ok(0) }
}

/// The number of an enumeration, at most 81, before it is known to mean something.
#[tactic(auto, unfolding(crate::specs::Fields::enum_number))]
pub fn enum_number(bits: &mut Bitstream<'_>) -> Result<u32>
    ensures { HasRead Reads (λ v. v) result bits.old bits.new the_enum_number }
{
    bits.read_u32(
        U32Spec::Const(0),
        U32Spec::Const(1),
        U32Spec::Offset(2, 4),
        U32Spec::Offset(18, 6),
    )
}

// Passes `count` bits; where there are fewer, the reader stays.
fn skip_bits(bits: &mut Bitstream<'_>, count: u128) -> Result<()>
    ensures { HasRead Reads (λ v. v) result bits.old bits.new (ignored_bits count) }
{
    let mut after = *bits;
    let mut left = count;
    while left > 32 {
        after.read_bits(32)?;
        left -= 32;
    }
    after.read_bits(left as u32)?;
    *bits = after;
    Ok(())
}

/// Passes `count` bytes, from any bit on; where there are fewer, the reader stays.
pub fn skip(bits: &mut Bitstream<'_>, count: u32) -> Result<()>
    ensures { HasRead Reads (λ v. v) result bits.old bits.new (ignored_bytes count) }
{
    skip_bits(bits, 8 * u128::from(count))
}

/// Passes `count` bytes where they are there, as [`skip`] does.
pub fn skip_if(bits: &mut Bitstream<'_>, there: bool, count: u32) -> Result<()>
    ensures { HasRead Reads (λ v. v) result bits.old bits.new (when there (ignored_bytes count) tt) }
{
    if there { skip(bits, count) } else { Ok(()) }
}

// How many bits `count` extensions have.
fn extension_bits(bits: &mut Bitstream<'_>, count: u32) -> Result<u128>
    requires few { count ≤ 64 }
    ensures { HasRead Reads (λ v. v) result bits.old bits.new (the_extension_bits count) }
{
    let mut total = 0u128;
    for _ in 0..count {
        let size = long(bits)?;
        total += u128::from(size);
    }
    Ok(total)
}

/// Passes extensions: a bit for each that there is.
#[tactic(auto, unfolding(crate::specs::Fields::extensions))]
pub fn extensions(bits: &mut Bitstream<'_>) -> Result<u64>
    ensures { HasRead Reads (λ v. v) result bits.old bits.new the_extensions }
{
    let mask = long(bits)?;
    let count = extension_bits(bits, mask.count_ones())?;
    skip_bits(bits, count)?;
    Ok(mask)
}

/// Passes extensions where they are there; else there are none, and it returns 0.
pub fn extensions_if(bits: &mut Bitstream<'_>, there: bool) -> Result<u64>
    ensures { HasRead Reads (λ v. v) result bits.old bits.new (when there the_extensions 0) }
{
    if there { extensions(bits) } else { Ok(0) }
}

/// Passes a name: how many bytes it has, at most 1071.
#[tactic(auto, unfolding(crate::specs::Fields::name))]
pub fn name(bits: &mut Bitstream<'_>) -> Result<u32>
    ensures { HasRead Reads (λ v. v) result bits.old bits.new the_name }
{
    let count = bits.read_u32(
        U32Spec::Const(0),
        U32Spec::Offset(0, 4),
        U32Spec::Offset(16, 5),
        U32Spec::Offset(48, 10),
    )?;
    skip(bits, count)?;
    Ok(count)
}

/// Passes a name where it is there; else it has no bytes.
pub fn name_if(bits: &mut Bitstream<'_>, there: bool) -> Result<u32>
    ensures { HasRead Reads (λ v. v) result bits.old bits.new (when there the_name 0) }
{
    if there { name(bits) } else { Ok(0) }
}

/// Passes the bits up to the next byte. `InvalidEnum` if one of them is not 0.
#[tactic(auto, unfolding(crate::specs::Fields::zero_pad_to_byte))]
pub fn align(bits: &mut Bitstream<'_>) -> Result<u32>
    requires { 8 * length (bytes_of bits.old) < 2 ^ 64 }
    ensures { HasRead Reads (λ v. v) result bits.old bits.new zero_pad_to_byte }
{
    let within = (bits.position() % 8) as u32;
    let value = bits.read_bits((8 - within) % 8)?;
    if value == 0 {
        Ok(value)
    } else {
        let name = "padding";
        Err(BitstreamError::InvalidEnum { name, value })
    }
}
