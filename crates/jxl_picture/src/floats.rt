//! Floats of fewer than 32 bits.

ghost use Rattle.std.specs.Prelude.{◌≡◌, ◌^◌, ◌<◌, ◌≤◌, ◌-◌, IsTrue};
ghost use Rattle.std.specs.Int.{w32, cast_unsigned};
ghost use Rattle.jxl_image_header.specs.Channels.{fits_float};
ghost use Rattle.jxl_picture.specs.Floats.{AreExact, bias as the_bias, magnitude as the_magnitude, single_bits as the_single_bits, subnormal_magnitude as the_subnormal_magnitude, wide_magnitude as the_wide_magnitude};

use jxl_image_header::channel::BitDepth;

// What is taken off an exponent of this number of bits.
fn bias(exp_bits: u32) -> u32
    requires some { 1 ≤ exp_bits }
    requires few { exp_bits ≤ 8 }
    ensures gives { result ≡ the_bias exp_bits }
    ensures most { result ≤ 127 }
    ensures less { exp_bits < 8 → result ≤ 63 }
{
    (1 << (exp_bits - 1)) - 1
}

// The bits of an exponent of 8 bits, and of a mantissa of 23.
fn magnitude(exponent: u32, mantissa: u32) -> u32
    requires exponent { exponent < 2 ^ 8 }
    requires mantissa { mantissa < 2 ^ 23 }
    ensures gives { result ≡ the_magnitude exponent mantissa }
    ensures small { result < 2 ^ 31 }
{
    exponent * (1 << 23) + mantissa
}

// The bits of a float with the exponent 0: the mantissa, of 23 bits, is shifted until it begins with a one, which is not
// stored.
fn subnormal_magnitude(exp_bits: u32, mantissa: u32) -> u32
    requires some { 2 ≤ exp_bits }
    requires few { exp_bits < 8 }
    requires positive { 0 < mantissa }
    requires small { mantissa < 2 ^ 23 }
    ensures gives { result ≡ the_subnormal_magnitude exp_bits mantissa }
    ensures small { result < 2 ^ 31 }
{
    let shift = mantissa.leading_zeros() - 8;
    magnitude(
        128 - bias(exp_bits) - shift,
        (mantissa << shift) - (1 << 23),
    )
}

// The bits of a float with an exponent of this number of bits, and a mantissa that was shifted to 23.
fn wide_magnitude(exp_bits: u32, exponent: u32, mantissa: u32) -> u32
    requires some { 2 ≤ exp_bits }
    requires few { exp_bits ≤ 8 }
    requires exponent { exponent < 2 ^ exp_bits }
    requires mantissa { mantissa < 2 ^ 23 }
    ensures gives { result ≡ the_wide_magnitude exp_bits exponent mantissa }
    ensures small { result < 2 ^ 31 }
{
    if exponent == (1 << exp_bits) - 1 {
        magnitude(255, mantissa)
    } else if exponent != 0 {
        magnitude(exponent + (127 - bias(exp_bits)), mantissa)
    } else if exp_bits == 8 || mantissa == 0 {
        magnitude(0, mantissa)
    } else {
        subnormal_magnitude(exp_bits, mantissa)
    }
}

// The same of a float with these bits.
fn narrow_bits(depth: BitDepth, bits: u32) -> u32
    requires float { IsTrue (fits_float depth.bits_per_sample depth.exp_bits) }
    ensures { result ≡ the_single_bits depth bits }
{
    let mantissa_bits = depth.bits_per_sample - 1 - depth.exp_bits;
    let exponent = (bits >> mantissa_bits) % (1 << depth.exp_bits);
    let mantissa = (bits % (1 << mantissa_bits)) << (23 - mantissa_bits);
    let magnitude = wide_magnitude(depth.exp_bits, exponent, mantissa);
    if bits >> (depth.bits_per_sample - 1) == 0 {
        magnitude
    } else {
        (1 << 31) + magnitude
    }
}

/// The bits of a float of 32 bits: of the same sign and the same value as the float of this depth
/// ([`BitDepth::is_float`]) whose bits are this sample. Infinities and NaN keep their mantissas.
#[inline(always)]
pub fn single_bits(depth: BitDepth, sample: i32) -> u32
    requires float { IsTrue (fits_float depth.bits_per_sample depth.exp_bits) }
    ensures { result ≡ the_single_bits depth (cast_unsigned w32 sample) }
{
    let bits = sample.cast_unsigned();
    if depth.bits_per_sample == 32 {
        bits
    } else {
        narrow_bits(depth, bits)
    }
}

/// A float of any depth is the same float of 32 bits.
pub fn floats_are_exact()
    ensures { AreExact }
{}
