//! The entropy decoder.

ghost use Rattle.std.specs.Prelude.{◌≡◌, ℕ, None, Contains, IfOk, IfErr};
ghost use Rattle.jxlm_bits.specs.Bits.{bytes_of, position_of};
ghost use Rattle.jxlm_bits.specs.Decoding.{RunGives};
ghost use Rattle.jxlm_bits.specs.declared.decoder.DecoderError.{DecoderError};
ghost use Rattle.jxl_coding.specs.Tokens.{entropy};
ghost use Rattle.jxl_coding.specs.Parse.{decoder_at};

use crate::parse::decoder_codes;
use crate::state::State;
use crate::tables::Tables;
use crate::tokens::{begin, copy_state, finalize, only_token, read_token, read_tokens};
use jxlm_bits::bits::Bitstream;
use jxlm_bits::decoder::{Decoder, DecoderError, RleToken, TokensError};
use std::alloc::Global;
use std::marker::Model;
use std::rc::Rc;

/// The entropy decoder of JPEG XL.
#[derive(Drop)]
pub struct EntropyDecoder {
    tables: Rc<Tables>,
    state: State,
}

impl Model for EntropyDecoder {
    ghost use Rattle.std.specs.Prelude.{IsSome};
    ghost use Rattle.std.specs.Rc.{rc_value};
    ghost use Rattle.jxl_coding.specs.Tokens.{Entropy};
    ghost use Rattle.jxl_coding.specs.Inner.Seen.{seen};

    ghost Value = { Entropy };

    ghost view = { λ d. seen d.tables.value d.state };

    ghost invariant = { λ d. IsSome d.tables.value.lz77 → IsSome d.state.window };
}

impl EntropyDecoder {
    /// How many codewords the codes may have: the sum of the sizes of their alphabets.
    pub fn codewords(&self) -> u64
        ensures { result ≡ self.now.codes.alphabets }
    {
        self.tables.alphabets
    }
}

impl Decoder for EntropyDecoder {
    ghost use Rattle.jxl_coding.specs.Inner.ParseLaws.{decoder_lawful};

    ghost meaning = { entropy decoder_at };

    ghost lawful = { decoder_lawful };

    fn parse(alloc: Global, bits: &mut Bitstream<'_>, contexts: u32) -> Result<Self, DecoderError> {
        let tables = decoder_codes(alloc, bits, contexts)?;
        let state = State::start(alloc, tables.lz77.is_some())?;
        let tables = Rc::new(alloc, tables).map_err(|_| DecoderError::OutOfMemory)?;
        Ok(EntropyDecoder { tables, state })
    }

    fn try_clone(&self, alloc: Global) -> Result<Self, DecoderError> {
        let state = copy_state(alloc, &self.state)?;
        let tables = self.tables.clone().map_err(|_| DecoderError::OutOfMemory)?;
        Ok(EntropyDecoder { tables, state })
    }

    fn begin(&mut self, bits: &mut Bitstream<'_>) -> Result<(), DecoderError> {
        begin(&self.tables, &mut self.state, bits)
    }

    #[inline(always)]
    fn read_varint_with_multiplier_clustered(
        &mut self,
        bits: &mut Bitstream<'_>,
        cluster: u8,
        multiplier: u32,
    ) -> Result<u32, DecoderError> {
        read_token(&self.tables, &mut self.state, bits, cluster, multiplier)
    }

    fn read_varints_with_multiplier_clustered(
        &mut self,
        bits: &mut Bitstream<'_>,
        cluster: u8,
        multiplier: u32,
        tokens: &mut [u32],
    ) -> Result<(), TokensError> {
        read_tokens(
            &self.tables,
            &mut self.state,
            bits,
            cluster,
            multiplier,
            tokens,
        )
    }

    fn read_varint_clustered(
        &mut self,
        bits: &mut Bitstream<'_>,
        cluster: u8,
    ) -> Result<RleToken, DecoderError>
        requires cluster { Contains ((entropy decoder_at).cluster_map self.old) cluster }
        requires plain { self.old.codes.lz77 ≡ None }
        ensures gives { (m : ℕ) → RunGives (entropy decoder_at) result self.old self.new (position_of bits.old)
            (position_of bits.new)
            ((entropy decoder_at).read self.old (bytes_of bits.old) (position_of bits.old) cluster m) }
        ensures bytes { bytes_of bits.new ≡ bytes_of bits.old }
    {
        match self.read_varint_with_multiplier_clustered(bits, cluster, 0) {
            Ok(token) => Ok(RleToken::Value(token)),
            Err(error) => Err(error),
        }
    }

    fn single_token(&self, cluster: u8) -> Option<u32> {
        only_token(&self.tables, cluster)
    }

    fn cluster_map(&self) -> &[u8] {
        self.tables.clusters.as_slice()
    }

    fn as_rle(&self) -> bool {
        false
    }

    fn finalize(&self) -> Result<(), DecoderError> {
        finalize(self.tables.coder, self.state.ans_state)
    }
}
