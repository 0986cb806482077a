//! The samples of a part, written as a stream of tokens.

ghost use Rattle.std.specs.Prelude.{IfOk};
ghost use Rattle.jxlm_bit_writer.specs.Writes.{Adds};
ghost use Rattle.jxl_coding_build.specs.AnyWriters.{HaveSlots, codes_in};
ghost use Rattle.jxl_encode_tree.specs.Samples.{AreCoded};

use jxl_coding_build::any::AnyWriter;
use jxl_coding_stream_write::copies::TokenCopy;
use jxlm_bit_writer::token::Token;
use jxlm_bit_writer::writer::BitWriter;
use std::alloc::{AllocError, Global};

/// Adds the samples of a part by their tokens, each of which has a slot in these codes. A decoder of the codes reads the
/// samples of each part that has these tokens. Copies of tokens are a heuristic: codes without copies, and copies that do not
/// fit, leave them out.
///
/// # Errors
///
/// Out of memory alone; then nothing is promised of the bits.
pub fn write_samples(
    alloc: Global,
    bits: &mut BitWriter,
    codes: &AnyWriter,
    tokens: &[Token],
    copies: &[TokenCopy],
) -> Result<(), AllocError>
    requires { HaveSlots codes.now tokens.now }
    ensures { IfOk result (λ _. Adds bits.old bits.new (AreCoded (codes_in codes.now) tokens.now)) }
{
    codes.write_tokens(alloc, bits, tokens, copies)?;
    Ok(())
}
