//! The plain decoder of the second format: a version, and gamma codes.

ghost use Rattle.std.specs.Prelude.{◌≡◌};
ghost use Rattle.jxlm_bits.specs.Bits.{bytes_of, position_of};
ghost use Rattle.jxlm_bits.specs.Decoding.{Gives};
ghost use Rattle.jxlm_plain.specs.GammaCodes.{EachHasOneCode, GammaTokensAreCodes};
ghost use Rattle.jxlm_plain.specs.Plain.{PlainState, code2_at, fields_at, plain2_parse, plain2};

use crate::plain::{Format, Machine, number};
use jxlm_bits::bits::Bitstream;
use jxlm_bits::decoder::{Decoder, DecoderError, RleToken, TokensError};
use std::alloc::Global;
use std::marker::Model;

/// A decoder of the second plain format, which adds gamma codes to the first (`PlainDecoder`).
///
/// What `parse` reads, where u(n) is a number of n bits, the first the least significant:
/// - a version u(4), which is 2; another is `Invalid(5)`.
/// - `runs`, `sealed`, the number of clusters and the cluster of each context, as in the first format.
/// - For each cluster a kind u(2): 0 is fixed and 1 a constant, which go on as in the first format, with its errors; 2
///   is a gamma code, which has no further field; 3 is `Invalid(6)`.
///
/// A gamma token is n zero bits, a one bit and u(n): 2^n + u(n) is the token and one more, so each number from 0 to
/// 2^32 - 1 has one. A 33rd zero bit, or after 32 zeros and the one a bit that is not 0, is `Invalid(7)` as soon as it is
/// seen. It has no single token. All else is as in the first format; an error of a read changes nothing.
#[derive(Drop)]
pub struct PlainDecoder2 {
    machine: Machine,
}

impl Model for PlainDecoder2 {
    ghost Value = { PlainState };

    ghost view = { λ d. d.machine };
}

/// The decoder behind its version.
#[tactic(auto, unfolding(crate::specs::Plain::fields_at, crate::specs::Inner::PlainFormats::machine_at))]
fn behind_version(
    alloc: Global,
    bits: &mut Bitstream<'_>,
    contexts: u32,
) -> Result<PlainDecoder2, DecoderError>
    ensures gives { Gives (λ d. d) result (position_of bits.new)
        (fields_at code2_at (bytes_of bits.old) (position_of bits.old) contexts) }
    ensures bytes { bytes_of bits.new ≡ bytes_of bits.old }
{
    let machine = Machine::parse(alloc, bits, Format::Second, contexts)?;
    Ok(PlainDecoder2 { machine })
}

/// The decoder at the reader's position.
#[tactic(auto, unfolding(crate::specs::Plain::plain2_parse))]
fn plain2_of(
    alloc: Global,
    bits: &mut Bitstream<'_>,
    contexts: u32,
) -> Result<PlainDecoder2, DecoderError>
    ensures gives { Gives (λ d. d) result (position_of bits.new)
        (plain2_parse (bytes_of bits.old) (position_of bits.old) contexts) }
    ensures bytes { bytes_of bits.new ≡ bytes_of bits.old }
{
    if number(bits, 4)? != 2 {
        return Err(DecoderError::Invalid(5));
    }
    behind_version(alloc, bits, contexts)
}

impl Decoder for PlainDecoder2 {
    ghost use Rattle.jxlm_plain.specs.Inner.PlainLaws.{plain2_lawful};

    ghost meaning = { plain2 };

    ghost lawful = { plain2_lawful };

    fn parse(alloc: Global, bits: &mut Bitstream<'_>, contexts: u32) -> Result<Self, DecoderError> {
        plain2_of(alloc, bits, contexts)
    }

    fn try_clone(&self, alloc: Global) -> Result<Self, DecoderError> {
        let machine = self.machine.try_clone(alloc)?;
        Ok(PlainDecoder2 { machine })
    }

    #[tactic(auto, using(crate::specs::Inner::PlainLaws::keeps2))]
    fn begin(&mut self, bits: &mut Bitstream<'_>) -> Result<(), DecoderError> {
        self.machine.begin(bits)
    }

    #[inline(always)]
    fn read_varint_with_multiplier_clustered(
        &mut self,
        bits: &mut Bitstream<'_>,
        cluster: u8,
        _multiplier: u32,
    ) -> Result<u32, DecoderError> {
        self.machine.read(bits, cluster)
    }

    #[inline(always)]
    fn read_varints_with_multiplier_clustered(
        &mut self,
        bits: &mut Bitstream<'_>,
        cluster: u8,
        _multiplier: u32,
        tokens: &mut [u32],
    ) -> Result<(), TokensError> {
        self.machine.read_some(bits, cluster, tokens)
    }

    #[tactic(auto, using(crate::specs::Inner::PlainLaws::runs2))]
    #[inline(always)]
    fn read_varint_clustered(
        &mut self,
        bits: &mut Bitstream<'_>,
        cluster: u8,
    ) -> Result<RleToken, DecoderError> {
        self.machine.read_run(bits, cluster)
    }

    fn single_token(&self, cluster: u8) -> Option<u32> {
        self.machine.single_token(cluster)
    }

    fn cluster_map(&self) -> &[u8] {
        self.machine.cluster_map()
    }

    fn as_rle(&self) -> bool {
        self.machine.as_rle()
    }

    fn finalize(&self) -> Result<(), DecoderError> {
        self.machine.finalize()
    }
}

/// Each number has one gamma code.
///
/// The call does nothing; what it ensures is a law of gamma codes, as with the one below.
#[tactic(auto, using(crate::proofs::GammaCodes::each_has_one_code))]
pub fn each_has_one_code()
    ensures { EachHasOneCode }
{}

/// Without runs, a token of a gamma cluster is read exactly where its code stands, so what was written is read.
pub fn gamma_tokens_are_codes()
    ensures { GammaTokensAreCodes }
{}
