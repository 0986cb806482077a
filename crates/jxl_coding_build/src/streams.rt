//! Decoders and streams, written for given tokens.

ghost use Rattle.std.specs.Prelude.{◌≡◌, ℕ, ◌<◌, ◌≤◌, ◌^◌, [], ◌∷◌, ◌++◌, List, Ok, length, map, IfOk, IsTrue};
ghost use Rattle.std.specs.List.{All};
ghost use Rattle.jxl_coding.specs.Clusters.{count_of};
ghost use Rattle.jxl_coding.specs.Parse.{decoder_at, start_of};
ghost use Rattle.jxlm_bit_writer.specs.Writes.{Writes};
ghost use Rattle.jxl_coding_stream_write.specs.Codes.{codes_of};
ghost use Rattle.jxl_coding_stream_write.specs.Heads.{IsHead, map_token};
ghost use Rattle.jxl_coding_stream_write.specs.Streams.{IsStream};
ghost use Rattle.jxl_coding_stream_write.specs.Tokens.{HasSlot};

use crate::configs::{Values, config_for};
use crate::histogram::cluster_for;
use jxl_coding_stream_write::cluster::ClusterWriter;
use jxl_coding_stream_write::head::{are_below, map_tokens, write_head, write_mapped_head};
use jxl_coding_stream_write::stream::StreamWriter;
use jxlm_bit_writer::token::Token;
use jxlm_bit_writer::writer::BitWriter;
use std::alloc::{AllocError, Global};

/// Adds a code.
pub(crate) fn push_code(
    codes: &mut Vec<ClusterWriter>,
    code: ClusterWriter,
) -> Result<(), AllocError>
    ensures { IfOk result (λ _. codes.new.items ≡ codes.old.items ++ code ∷ []) }
{
    codes.push(code)?;
    Ok(())
}

/// Makes codes for tokens of at most 256 clusters, each of which has a context. A head can signal them, and each
/// token has a slot.
///
/// # Errors
///
/// Out of memory alone.
pub fn writer_for(
    alloc: Global,
    clusters: Vec<u8>,
    many: u32,
    tokens: &[Token],
) -> Result<StreamWriter, AllocError>
    requires few { many ≤ 256 }
    requires used { count_of clusters.items ≡ Ok many }
    requires tokens { All (λ t. t.cluster < many) tokens.now }
    requires fits { length tokens.now < 2 ^ 31 }
    ensures clusters { IfOk result (λ w. w.clusters.items ≡ clusters.items) }
    ensures head { IfOk result (λ w. IsHead w) }
    ensures slots { IfOk result (λ w. All (HasSlot w.codes.items) tokens.now) }
{
    let mut codes: Vec<ClusterWriter> = Vec::new(alloc);
    let mut values = Values::of(alloc, many, tokens)?;
    for cluster in 0..many {
        let config = config_for(&mut values, cluster as u8, tokens);
        let code = cluster_for(alloc, config, cluster as u8, tokens)?;
        push_code(&mut codes, code)?;
    }
    Ok(StreamWriter {
        clusters,
        log: 8,
        codes,
    })
}

/// The cluster of one context.
fn one_context(alloc: Global) -> Result<Vec<u8>, AllocError>
    ensures { IfOk result (λ v. v.items ≡ 0 ∷ []) }
{
    let mut clusters = Vec::new(alloc);
    clusters.push(0)?;
    Ok(clusters)
}

/// Makes the codes for a map of clusters.
pub(crate) fn map_writer(alloc: Global, clusters: &[u8]) -> Result<StreamWriter, AllocError>
    requires { length clusters.now < 2 ^ 31 }
    ensures head { IfOk result (λ w. IsHead w) }
    ensures one { IfOk result (λ w. w.clusters.items ≡ 0 ∷ []) }
    ensures slots { IfOk result (λ w. All (HasSlot w.codes.items) (map map_token clusters.now)) }
{
    let tokens = map_tokens(alloc, clusters)?;
    let one = one_context(alloc)?;
    let own = writer_for(alloc, one, 1, &tokens)?;
    Ok(own)
}

/// Whether the clusters are written as numbers of at most 3 bits: if there is one cluster, or at most 32 contexts.
pub(crate) fn is_plain(clusters: &[u8]) -> bool
    ensures few { IsTrue result → All (λ c. c < 8) clusters.now }
    ensures one { All (λ c. c < 1) clusters.now → IsTrue result }
{
    are_below(clusters, 1) || clusters.len() <= 32 && are_below(clusters, 8)
}

/// Adds the head of a decoder, with the clusters of its contexts as numbers or as tokens.
///
/// # Errors
///
/// Out of memory alone; then nothing is promised of the bits.
pub fn write_any_head(
    alloc: Global,
    bits: &mut BitWriter,
    writer: &StreamWriter,
) -> Result<(), AllocError>
    requires head { IsHead writer.now }
    requires contexts { length writer.now.clusters.items < 2 ^ 31 }
    ensures { IfOk result (λ _. Writes bits.old bits.new
        (λ bytes p. decoder_at bytes p (length writer.now.clusters.items)) (start_of (codes_of writer.now))) }
{
    if is_plain(&writer.clusters) {
        write_head(bits, writer)?;
        return Ok(());
    }
    let own = map_writer(alloc, &writer.clusters)?;
    write_mapped_head(alloc, bits, writer, &own)?;
    Ok(())
}

/// Adds a decoder and a stream of these tokens.
///
/// # Errors
///
/// Out of memory alone; then nothing is promised of the bits.
pub fn write_all(
    alloc: Global,
    bits: &mut BitWriter,
    writer: &StreamWriter,
    tokens: &[Token],
) -> Result<(), AllocError>
    requires head { IsHead writer.now }
    requires contexts { length writer.now.clusters.items < 2 ^ 31 }
    requires slots { All (HasSlot writer.now.codes.items) tokens.now }
    ensures { IfOk result (λ _. (middle : List ℕ) × (stream : List ℕ)
        × Writes bits.old middle (λ bytes p. decoder_at bytes p (length writer.now.clusters.items))
        (start_of (codes_of writer.now))
        × (bits.new ≡ middle ++ stream) × IsStream (codes_of writer.now) tokens.now stream) }
{
    write_any_head(alloc, bits, writer)?;
    writer.write_tokens(alloc, bits, tokens)?;
    Ok(())
}
