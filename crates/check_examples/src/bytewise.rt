//! A decoder whose tokens are bytes.

ghost use Rattle.std.specs.Prelude.{◌≡◌, ℕ, List, Contains};
ghost use Rattle.jxl_modular.specs.Bits.{bytes_of, position_of};
ghost use Rattle.jxl_modular.specs.Decoding.{RunGives};
ghost use Rattle.check_examples.specs.Bytewise.{bytewise};

use jxl_modular::bits::Bitstream;
use jxl_modular::decoder::{Decoder, DecoderError, RleToken};
use std::alloc::Global;
use std::marker::Model;

/// Each token is the next eight bits, whatever its context.
#[derive(Drop)]
pub struct Bytewise {
    clusters: Vec<u8>,
}

impl Model for Bytewise {
    ghost Value = { List ℕ };

    ghost view = { λ d. d.clusters.items };
}

impl Decoder for Bytewise {
    ghost use Rattle.check_examples.specs.BytewiseLaws.{bytewise_lawful};

    ghost meaning = { bytewise };

    ghost lawful = { bytewise_lawful };

    fn parse(alloc: Global, _: &mut Bitstream<'_>, contexts: u32) -> Result<Self, DecoderError> {
        let clusters = vec![in alloc; 0; contexts as usize].map_err(|_| DecoderError::OutOfMemory)?;
        Ok(Bytewise { clusters })
    }

    fn try_clone(&self, alloc: Global) -> Result<Self, DecoderError> {
        let clusters = Vec::from_slice(alloc, &self.clusters).map_err(
            |_| DecoderError::OutOfMemory,
        )?;
        Ok(Bytewise { clusters })
    }

    fn begin(&mut self, _: &mut Bitstream<'_>) -> Result<(), DecoderError> {
        Ok(())
    }

    fn read_varint_with_multiplier_clustered(
        &mut self,
        bits: &mut Bitstream<'_>,
        _: u8,
        _: u32,
    ) -> Result<u32, DecoderError> {
        bits.read_bits(8).map_err(|_| DecoderError::UnexpectedEof)
    }

    // There are no runs, so nobody can meet what the trait asks for here; this asks for less.
    fn read_varint_clustered(
        &mut self,
        bits: &mut Bitstream<'_>,
        cluster: u8,
    ) -> Result<RleToken, DecoderError>
        requires { Contains (bytewise.cluster_map self.old) cluster }
        ensures gives { (m : ℕ) → RunGives bytewise result self.old self.new (position_of bits.old)
            (position_of bits.new) (bytewise.read self.old (bytes_of bits.old) (position_of bits.old) cluster m) }
        ensures bytes { bytes_of bits.new ≡ bytes_of bits.old }
    {
        match self.read_varint_with_multiplier_clustered(bits, cluster, 0) {
            Ok(token) => Ok(RleToken::Value(token)),
            Err(e) => Err(e),
        }
    }

    fn single_token(&self, _: u8) -> Option<u32> {
        None
    }

    fn cluster_map(&self) -> &[u8] {
        self.clusters.as_slice()
    }

    fn as_rle(&self) -> bool {
        false
    }

    fn finalize(&self) -> Result<(), DecoderError> {
        Ok(())
    }
}
