//! What the samples of a channel stand for.

ghost use Rattle.std.specs.Prelude.{◌≡◌};
ghost use Rattle.jxl_blending.specs.Scales.{coarse_scale as the_coarse_scale, loaded, nearest_part, nearest_sample, nearest_single, shown};

use std::num::{
    f32_from_bits_with_nan, f32_to_bits_with_nan, nearest_f64_to_f32_with_nan, nearest_i64_to_f32,
    nearest_u64_to_f32, saturating_f64_to_i32,
};

/// What the samples of a channel stand for.
#[derive(Clone, Copy)]
pub enum Scale {
    /// For the float of 32 bits that has their bits.
    Floats,
    /// For parts of this sample, each the same part of 1.
    Coarse(u32, f32),
    /// For parts of this sample, which are rounded only once.
    Fine(u32),
}

// The float of 32 bits that is nearest to a whole number.
fn nearest_single(number: i32) -> f32
    ensures { result ≡ nearest_single number }
{
    if number.unsigned_abs() <= 1 << 24 {
        number as f32
    } else {
        nearest_i64_to_f32(i64::from(number))
    }
}

// The same of a number of parts of `one`.
fn nearest_part(number: i32, one: u32) -> f32
    ensures { result ≡ nearest_part number one }
{
    nearest_f64_to_f32_with_nan(f64::from(number) * (1.0 / f64::from(one)))
}

// The whole number of parts of `one` that is nearest.
fn nearest_sample(value: f32, one: u32) -> i32
    ensures { result ≡ nearest_sample value one }
{
    let exact = f64::from(value) * f64::from(one);
    saturating_f64_to_i32(exact.round_ties_even())
}

impl Scale {
    /// Parts of this sample, each the part of 1 that a float of 32 bits holds.
    pub fn coarse(one: u32) -> Scale
        ensures { result ≡ the_coarse_scale one }
    {
        Scale::Coarse(one, 1.0 / nearest_u64_to_f32(u64::from(one)))
    }

    /// What a sample stands for.
    pub fn load(self, sample: i32) -> f32
        ensures { result ≡ loaded self sample }
    {
        match self {
            Scale::Floats => f32_from_bits_with_nan(sample.cast_unsigned()),
            Scale::Coarse(_one, part) => nearest_single(sample) * part,
            Scale::Fine(one) => nearest_part(sample, one),
        }
    }

    /// The sample that stands for a value, or is nearest to it.
    pub fn show(self, value: f32) -> i32
        ensures { result ≡ shown self value }
    {
        match self {
            Scale::Floats => f32_to_bits_with_nan(value).cast_signed(),
            Scale::Coarse(one, _part) => nearest_sample(value, one),
            Scale::Fine(one) => nearest_sample(value, one),
        }
    }
}
