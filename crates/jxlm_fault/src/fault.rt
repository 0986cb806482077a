//! A decoder that has an error where its input says so: what stands after an error is tested by it.

ghost use Rattle.std.specs.Prelude.{◌≡◌, ℕ, ◌≤◌, List, Contains};
ghost use Rattle.jxlm_bits.specs.Bits.{bytes_of, position_of};
ghost use Rattle.jxlm_bits.specs.Decoding.{Gives, RunGives};
ghost use Rattle.jxlm_plain.specs.Plain.{number_at};
ghost use Rattle.jxlm_fault.specs.Fault.{FaultState, fault_parse, one_more, faulty};
ghost use Rattle.jxlm_fault.specs.FaultTokens.{TokensBeforeTheError, ErrorAtItsRead, ErrorAtItsEnd};

use jxlm_bits::bits::Bitstream;
use jxlm_bits::decoder::{Decoder, DecoderError, RleToken};
use jxlm_plain::plain::PlainDecoder;
use std::alloc::Global;
use std::marker::Model;

/// A plain decoder that has the error `Invalid(77)` at one of its calls. No call with an error changes anything.
///
/// What `parse` reads, where u(n) is a number of n bits, the first the least significant:
/// - where the error is, as u(3): 0 to 3 at that read since `begin`, 4 at `begin`, 5 at `finalize`, and else nowhere;
/// - the plain decoder. It may have no runs: if the bit for them is 1, this is `Invalid(3)`, at that bit.
///
/// No cluster has a single token: a constant is read as any token is. `begin` counts reads from 0 again.
#[derive(Drop)]
pub struct FaultDecoder {
    fault: u32,
    /// How many tokens were read since `begin`; 4 stands for 4 and more.
    reads: u32,
    plain: PlainDecoder,
}

impl Model for FaultDecoder {
    ghost Value = { FaultState };

    ghost view = { λ d. record { fault = d.fault; reads = d.reads; plain = d.plain } };
}

/// The next number of `n` bits.
#[tactic(auto, unfolding(jxlm_plain::specs::Plain::number_at))]
fn number(bits: &mut Bitstream<'_>, n: u32) -> Result<u32, DecoderError>
    requires { n ≤ 32 }
    ensures gives { Gives (λ v. v) result (position_of bits.new)
        (number_at (bytes_of bits.old) (position_of bits.old) n) }
    ensures bytes { bytes_of bits.new ≡ bytes_of bits.old }
{
    bits.read_bits(n).map_err(|_| DecoderError::UnexpectedEof)
}

/// The decoder at the reader's position.
#[tactic(auto, unfolding(crate::specs::Fault::fault_parse))]
fn fault_of(
    alloc: Global,
    bits: &mut Bitstream<'_>,
    contexts: u32,
) -> Result<FaultDecoder, DecoderError>
    ensures gives { Gives (λ d. d) result (position_of bits.new)
        (fault_parse (bytes_of bits.old) (position_of bits.old) contexts) }
    ensures bytes { bytes_of bits.new ≡ bytes_of bits.old }
{
    let fault = number(bits, 3)?;
    let mut ahead = *bits;
    if number(&mut ahead, 1)? == 1 {
        return Err(DecoderError::Invalid(3));
    }
    let plain = PlainDecoder::parse(alloc, bits, contexts)?;
    Ok(FaultDecoder {
        fault,
        reads: 0,
        plain,
    })
}

/// One read more.
fn counted(reads: u32) -> u32
    ensures { result ≡ one_more reads }
{
    if reads < 4 { reads + 1 } else { reads }
}

impl Decoder for FaultDecoder {
    ghost use Rattle.jxlm_fault.specs.Inner.FaultLaws.{fault_lawful};

    ghost meaning = { faulty };

    ghost lawful = { fault_lawful };

    fn parse(alloc: Global, bits: &mut Bitstream<'_>, contexts: u32) -> Result<Self, DecoderError> {
        fault_of(alloc, bits, contexts)
    }

    fn try_clone(&self, alloc: Global) -> Result<Self, DecoderError> {
        let plain = self.plain.try_clone(alloc)?;
        Ok(FaultDecoder {
            fault: self.fault,
            reads: self.reads,
            plain,
        })
    }

    #[tactic(auto, unfolding(crate::specs::Fault::fault_begin))]
    fn begin(&mut self, bits: &mut Bitstream<'_>) -> Result<(), DecoderError> {
        if self.fault == 4 {
            return Err(DecoderError::Invalid(77));
        }
        self.plain.begin(bits)?;
        self.reads = 0;
        Ok(())
    }

    #[tactic(auto, unfolding(crate::specs::Fault::fault_read))]
    fn read_varint_with_multiplier_clustered(
        &mut self,
        bits: &mut Bitstream<'_>,
        cluster: u8,
        multiplier: u32,
    ) -> Result<u32, DecoderError> {
        if self.fault < 4 && self.reads == self.fault {
            return Err(DecoderError::Invalid(77));
        }
        let token = self
            .plain
            .read_varint_with_multiplier_clustered(bits, cluster, multiplier)?;
        self.reads = counted(self.reads);
        Ok(token)
    }

    // There are no runs, so nobody can meet what the trait requires here; this requires less.
    fn read_varint_clustered(
        &mut self,
        bits: &mut Bitstream<'_>,
        cluster: u8,
    ) -> Result<RleToken, DecoderError>
        requires { Contains (faulty.cluster_map self.old) cluster }
        ensures gives { (m : ℕ) → RunGives faulty result self.old self.new (position_of bits.old)
            (position_of bits.new) (faulty.read self.old (bytes_of bits.old) (position_of bits.old) cluster m) }
        ensures bytes { bytes_of bits.new ≡ bytes_of bits.old }
    {
        match self.read_varint_with_multiplier_clustered(bits, cluster, 0) {
            Ok(token) => Ok(RleToken::Value(token)),
            Err(e) => Err(e),
        }
    }

    fn single_token(&self, _: u8) -> Option<u32> {
        None
    }

    fn cluster_map(&self) -> &[u8] {
        self.plain.cluster_map()
    }

    fn as_rle(&self) -> bool {
        false
    }

    fn finalize(&self) -> Result<(), DecoderError> {
        if self.fault == 5 {
            return Err(DecoderError::Invalid(77));
        }
        self.plain.finalize()
    }
}

/// Before its error, and where it has none among its reads, the decoder gives what its plain decoder gives.
///
/// The call does nothing; what it ensures is a law of the decoder's meaning, as with the one below.
#[tactic(auto, using(crate::proofs::FaultTokens::tokens_before_the_error))]
pub fn tokens_before_the_error()
    ensures { TokensBeforeTheError }
{}

/// An error at a read comes at that read, and at each further one, however often it is tried; one at `begin` and one at
/// `finalize` come whatever was read.
#[tactic(auto, using(crate::proofs::FaultTokens::error_at_its_read, crate::proofs::FaultTokens::error_at_its_end))]
pub fn errors_come_as_told()
    ensures reads { ErrorAtItsRead }
    ensures ends { ErrorAtItsEnd }
{}
