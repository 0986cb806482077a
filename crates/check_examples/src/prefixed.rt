//! A decoder whose tokens have two fields, and a picture by it.

ghost use Rattle.std.specs.Prelude.{◌≡◌, ℕ, List, Contains};
ghost use Rattle.jxl_modular.specs.Bits.{bytes_of, position_of};
ghost use Rattle.jxl_modular.specs.Decoding.{RunGives};
ghost use Rattle.check_examples.specs.Prefixed.{prefixed};

use jxl_modular::bits::Bitstream;
use jxl_modular::decoder::{Decoder, DecoderError, RleToken};
use jxl_modular::flat::Steps;
use jxl_modular::image::ModularImageDestination;
use jxl_modular::{ModularChannelParams, ModularParams, Result as ModularResult, decode_picture};
use std::alloc::Global;
use std::marker::Model;

/// Each token is a width of four bits, and then a number of that many bits, whatever its context.
#[derive(Drop)]
pub struct Prefixed {
    clusters: Vec<u8>,
}

impl Model for Prefixed {
    ghost Value = { List ℕ };

    ghost view = { λ d. d.clusters.items };
}

impl Decoder for Prefixed {
    ghost use Rattle.check_examples.specs.PrefixedLaws.{prefixed_lawful};

    ghost meaning = { prefixed };

    ghost lawful = { prefixed_lawful };

    fn parse(alloc: Global, _: &mut Bitstream<'_>, contexts: u32) -> Result<Self, DecoderError> {
        let clusters = vec![in alloc; 0; contexts as usize].map_err(|_| DecoderError::OutOfMemory)?;
        Ok(Prefixed { clusters })
    }

    fn try_clone(&self, alloc: Global) -> Result<Self, DecoderError> {
        let clusters = Vec::from_slice(alloc, &self.clusters).map_err(
            |_| DecoderError::OutOfMemory,
        )?;
        Ok(Prefixed { clusters })
    }

    fn begin(&mut self, _: &mut Bitstream<'_>) -> Result<(), DecoderError> {
        Ok(())
    }

    // The number may be missing after a width: so the reader is moved once both are read.
    fn read_varint_with_multiplier_clustered(
        &mut self,
        bits: &mut Bitstream<'_>,
        _: u8,
        _: u32,
    ) -> Result<u32, DecoderError> {
        let mut after = *bits;
        let width = after.read_bits(4).map_err(|_| DecoderError::UnexpectedEof)?;
        let token = after
            .read_bits(width)
            .map_err(|_| DecoderError::UnexpectedEof)?;
        *bits = after;
        Ok(token)
    }

    // There are no runs, so nobody can meet what the trait asks for here; this asks for less.
    fn read_varint_clustered(
        &mut self,
        bits: &mut Bitstream<'_>,
        cluster: u8,
    ) -> Result<RleToken, DecoderError>
        requires { Contains (prefixed.cluster_map self.old) cluster }
        ensures gives { (m : ℕ) → RunGives prefixed result self.old self.new (position_of bits.old)
            (position_of bits.new) (prefixed.read self.old (bytes_of bits.old) (position_of bits.old) cluster m) }
        ensures bytes { bytes_of bits.new ≡ bytes_of bits.old }
    {
        match self.read_varint_with_multiplier_clustered(bits, cluster, 0) {
            Ok(token) => Ok(RleToken::Value(token)),
            Err(e) => Err(e),
        }
    }

    fn single_token(&self, _: u8) -> Option<u32> {
        None
    }

    fn cluster_map(&self) -> &[u8] {
        self.clusters.as_slice()
    }

    fn as_rle(&self) -> bool {
        false
    }

    fn finalize(&self) -> Result<(), DecoderError> {
        Ok(())
    }
}

/// The picture of these channels that stands in the bytes.
pub fn picture(
    alloc: Global,
    bytes: &[u8],
    channels: Vec<ModularChannelParams>,
) -> ModularResult<Option<ModularImageDestination<i32, Prefixed>>> {
    let params = ModularParams::with_channels(256, 8, channels, None);
    if !params.is_valid() {
        return Ok(None);
    }
    let mut bits = Bitstream::new(bytes);
    decode_picture(alloc, &mut bits, params, 0, &mut Steps::new())
}
