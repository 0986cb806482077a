//! The token of a sample: the number from which a decoder makes it again.

ghost use Rattle.std.specs.Prelude.{◌≡◌, ◌*◌, ◌%◌, ◌^◌, ◌-ℤ◌, ◌*ℤ◌};
ghost use Rattle.std.specs.Int.{cast_signed, int_wrap, w32};
ghost use Rattle.jxlm_samples.specs.Token.{IsTokenOf};
ghost use Rattle.jxlm_encode_tokens.specs.Tokens.{IsSampleToken, MultipliesByOne};
ghost use Rattle.jxlm_encode_tokens.specs.Inner.Forms.{IsLeafToken};

use crate::form::TokenForm;
use jxlm_base::sample::{Sample, Sealed};
use jxlm_encode_write::tree::pack;
use jxlm_tree::flat::Leaf;

/// By what an odd number is to be multiplied to give 1, modulo 2^32: found bit by bit.
fn inverse(odd: u32) -> u32
    requires { odd % 2 ≡ 1 }
    ensures { result * odd % 2 ^ 32 ≡ 1 }
{
    let mut by: u32 = 1;
    for k in 1u32..32 {
        let product = u64::from(by) * u64::from(odd);
        if (product >> k) % 2 == 1 {
            by += 1 << k;
        }
    }
    by
}

/// What is left of a sample without offset and prediction, reduced to 32 bits.
#[inline(always)]
#[tactic(auto, using(std::proofs::lemmas::Int::wraps))]
fn residual(sample: i32, offset: i32, prediction: i32) -> i32
    ensures { result ≡ int_wrap w32 (sample -ℤ offset -ℤ prediction) }
{
    sample.wrapping_sub(offset).wrapping_sub(prediction)
}

/// The product with a number of 32 bits, reduced to 32 bits.
#[tactic(auto, using(std::proofs::lemmas::Int::wraps))]
fn product(number: i32, by: u32) -> i32
    ensures { result ≡ int_wrap w32 (number *ℤ cast_signed w32 by) }
{
    number.wrapping_mul(by.cast_signed())
}

/// The only token that stands for a sample of 32 bits at this leaf, over this prediction (ISO/IEC 18181-1, Modular:
/// decoding of samples). The leaf's multiplier is odd.
pub fn token_of(leaf: &Leaf, sample: i32, prediction: i32) -> u32
    requires { leaf.now.multiplier % 2 ≡ 1 }
    ensures { IsTokenOf leaf.now prediction sample result }
{
    let rest = residual(sample, leaf.offset, prediction);
    pack(product(rest, inverse(leaf.multiplier)))
}

/// The token of a sample at a leaf whose multiplier is 1, over this prediction: the only one whose signed number is one
/// of the sample's width.
#[inline(always)]
pub fn sample_token<S: Sample>(leaf: &Leaf, sample: S, prediction: i32) -> u32
    requires { MultipliesByOne leaf.now }
    ensures { IsSampleToken S.width leaf.now prediction (S.to_int sample) result }
{
    let rest = residual(sample.to_i32(), leaf.offset, prediction);
    pack(S::from_i32(rest).to_i32())
}

/// What is kept of the token of a sample at a leaf whose multiplier is 1, over this prediction.
#[inline(always)]
pub(crate) fn kept_token<S: Sample, T: TokenForm>(leaf: &Leaf, sample: S, prediction: i32) -> T
    requires { MultipliesByOne leaf.now }
    ensures { IsLeafToken T.form S.width leaf.now prediction (S.to_int sample) result }
{
    T::new(leaf.cluster, sample_token(leaf, sample, prediction))
}
