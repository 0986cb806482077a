//! Codes by which tokens are written, without copies or with.

ghost use Rattle.std.specs.Prelude.{◌≡◌, ℕ, ◌<◌, ◌^◌, ◌++◌, List, Some, length, IfOk, IsTrue};
ghost use Rattle.jxl_coding.specs.Parse.{decoder_at, start_of};
ghost use Rattle.jxl_coding_stream_write.specs.CopiedStreams.{IsCopiedStream};
ghost use Rattle.jxl_coding_stream_write.specs.Heads.{IsCopyHead};
ghost use Rattle.jxl_coding_stream_write.specs.Codes.{codes_with};
ghost use Rattle.jxlm_bit_writer.specs.Writes.{Writes};

use crate::streams::{is_plain, map_writer, write_any_head};
use jxl_coding_stream_write::copies::{CopyWriter, TokenCopy};
use jxl_coding_stream_write::copy_head::{with_cluster, write_copy_head, write_mapped_copy_head};
use jxl_coding_stream_write::laws::streams_are_read;
use jxl_coding_stream_write::stream::StreamWriter;
use jxlm_bit_writer::token::Token;
use jxlm_bit_writer::writer::BitWriter;
use std::alloc::{AllocError, Global};

/// The codes of a decoder, by which tokens are written.
#[derive(Drop)]
pub enum AnyWriter {
    /// Those of one that copies no tokens.
    Plain(StreamWriter),
    /// Those of one that copies tokens of the past.
    Copying(CopyWriter),
}

/// Adds the head of a decoder that copies tokens, with the clusters of its contexts as numbers or as tokens.
fn write_any_copy_head(
    alloc: Global,
    bits: &mut BitWriter,
    writer: &CopyWriter,
) -> Result<(), AllocError>
    requires head { IsCopyHead writer.now }
    requires some { 0 < length writer.now.codes.clusters.items }
    requires contexts { length writer.now.codes.clusters.items < 2 ^ 30 }
    ensures { IfOk result (λ _. Writes bits.old bits.new
        (λ bytes p. decoder_at bytes p (length writer.now.codes.clusters.items))
        (start_of (codes_with (Some writer.now.rule) writer.now.codes))) }
{
    let clusters = with_cluster(alloc, &writer.codes.clusters, writer.rule.cluster)?;
    if is_plain(&clusters) {
        write_copy_head(alloc, bits, writer)?;
        return Ok(());
    }
    let own = map_writer(alloc, &clusters)?;
    write_mapped_copy_head(alloc, bits, writer, &own)?;
    Ok(())
}

impl AnyWriter {
    ghost use Rattle.jxl_coding_build.specs.AnyWriters.{HasHead, HaveSlots, codes_in};

    /// Whether each token has a slot.
    pub fn has_slots(&self, tokens: &[Token]) -> bool
        ensures { IsTrue result → HaveSlots self.now tokens.now }
    {
        match self {
            AnyWriter::Plain(writer) => writer.has_slots(tokens),
            AnyWriter::Copying(writer) => writer.has_slots(tokens),
        }
    }

    /// Adds the head of their decoder.
    ///
    /// # Errors
    ///
    /// Out of memory alone; then nothing is promised of the bits.
    pub fn write_head(&self, alloc: Global, bits: &mut BitWriter) -> Result<(), AllocError>
        requires head { HasHead self.now }
        requires contexts { length (codes_in self.now).clusters < 2 ^ 30 }
        ensures { IfOk result (λ _. Writes bits.old bits.new
            (λ bytes p. decoder_at bytes p (length (codes_in self.now).clusters)) (start_of (codes_in self.now))) }
    {
        match self {
            AnyWriter::Plain(writer) => write_any_head(alloc, bits, writer),
            AnyWriter::Copying(writer) => write_any_copy_head(alloc, bits, writer),
        }
    }

    /// Adds a stream of these tokens, each of which has a slot. Only codes that copy tokens use the copies, and only those that
    /// fit.
    ///
    /// # Errors
    ///
    /// Out of memory alone; then nothing is promised of the bits.
    pub fn write_tokens(
        &self,
        alloc: Global,
        bits: &mut BitWriter,
        tokens: &[Token],
        copies: &[TokenCopy],
    ) -> Result<(), AllocError>
        requires { HaveSlots self.now tokens.now }
        ensures { IfOk result (λ _. (b : List ℕ) × (bits.new ≡ bits.old ++ b)
            × IsCopiedStream (codes_in self.now) tokens.now b) }
    {
        streams_are_read();
        match self {
            AnyWriter::Plain(writer) => writer.write_tokens(alloc, bits, tokens),
            AnyWriter::Copying(writer) => writer.write_tokens(alloc, bits, tokens, copies),
        }
    }
}
