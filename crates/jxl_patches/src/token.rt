//! Tokens of a decoder.

ghost use Rattle.std.specs.Prelude.{◌≡◌, ◌<◌, length, IfOk};
ghost use Rattle.jxlm_bits.specs.Bits.{bytes_of, position_of};
ghost use Rattle.jxlm_bits.specs.Tokens.{token_value};
ghost use Rattle.jxl_patches.specs.Errors.{patch_kind};
ghost use Rattle.jxlm_bits.specs.Grammar.{ParsesBy};
ghost use Rattle.jxl_patches.specs.Inner.Steps.{TokenRead, decoder as the_decoder};

use crate::error::Result;
use jxlm_bits::bits::Bitstream;
use jxlm_bits::decoder::Decoder;
use std::alloc::Global;

/// A decoder of this number of contexts, at the begin of its tokens.
pub fn decoder<D: Decoder>(alloc: Global, bits: &mut Bitstream<'_>, contexts: u32) -> Result<D>
    ensures gives { ParsesBy patch_kind (λ v. v) result (position_of bits.new)
        ((the_decoder D.meaning contexts).read (bytes_of bits.old) (position_of bits.old)) }
    ensures clusters { IfOk result (λ d. length (D.meaning.cluster_map d) ≡ contexts) }
    ensures bytes { bytes_of bits.new ≡ bytes_of bits.old }
{
    let mut decoder = D::parse(alloc, bits, contexts)?;
    decoder.begin(bits)?;
    Ok(decoder)
}

/// The next token of a context.
pub fn token<D: Decoder>(decoder: &mut D, bits: &mut Bitstream<'_>, context: u32) -> Result<u32>
    requires { context < length (D.meaning.cluster_map decoder.old) }
    ensures gives { TokenRead (λ v. v) result decoder.new (position_of bits.new)
        ((token_value D.meaning context decoder.old).read (bytes_of bits.old) (position_of bits.old)) }
    ensures clusters { IfOk result (λ _. D.meaning.cluster_map decoder.new ≡ D.meaning.cluster_map decoder.old) }
    ensures bytes { bytes_of bits.new ≡ bytes_of bits.old }
{
    Ok(decoder.read_varint(bits, context)?)
}
