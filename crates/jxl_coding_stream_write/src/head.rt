//! The head of a decoder, written: the clusters of contexts and their codes.

ghost use Rattle.std.specs.Prelude.{◌≡◌, ◌<◌, ◌≤◌, ◌^◌, ◌↔◌, [], ◌∷◌, List, Option, None, length, map, IfOk, IsTrue};
ghost use Rattle.std.specs.List.{All};
ghost use Rattle.jxl_coding_codes.specs.Fields.{number_at};
ghost use Rattle.jxl_coding_codes.specs.IntegerConfigs.{config_at};
ghost use Rattle.jxl_coding_codes.specs.Reading.{steps, list_and_one};
ghost use Rattle.jxl_coding.specs.Parse.{codes_at, clusters_codes_at, clusters_or_one, clusters_at, decoder_at, distribution_step, nothing_coded, start_of};
ghost use Rattle.jxlm_bit_writer.specs.Writes.{Writes};
ghost use Rattle.jxl_coding_codes.specs.Distributions.{distribution_at};
ghost use Rattle.jxl_coding_stream_write.specs.Codes.{coded_after, codes_among, codes_of};
ghost use Rattle.jxl_coding_stream_write.specs.Tokens.{HasSlot};
ghost use Rattle.jxl_coding_stream_write.specs.Heads.{IsHead, FitsCluster, FitsCounts, map_token};

use crate::cluster::ClusterWriter;
use crate::stream::StreamWriter;
use jxl_coding_fields_write::configs::write_config;
use jxl_coding_fields_write::counts::write_counts;
use jxl_coding_fields_write::distributions::write_only;
use jxlm_bit_writer::token::Token;
use jxlm_bit_writer::writer::BitWriter;
use std::alloc::{AllocError, Global};

/// Whether all clusters are below a limit.
pub fn are_below(clusters: &[u8], limit: u8) -> bool
    ensures { IsTrue result ↔ All (λ c. c < limit) clusters.now }
{
    clusters.iter().all(|cluster| *cluster < limit)
}

/// The width in which clusters below 8 are written: 0 bits if all are 0, and at most 3.
fn width_of(clusters: &[u8]) -> u32
    requires { All (λ c. c < 8) clusters.now }
    ensures most { result ≤ 3 }
    ensures fits { All (λ c. c < 2 ^ result) clusters.now }
{
    if are_below(clusters, 1) {
        0
    } else if are_below(clusters, 2) {
        1
    } else if are_below(clusters, 4) {
        2
    } else {
        3
    }
}

/// Adds numbers of a width.
fn write_numbers(bits: &mut BitWriter, clusters: &[u8], width: u32) -> Result<(), AllocError>
    requires width { width ≤ 3 }
    requires fits { All (λ c. c < 2 ^ width) clusters.now }
    ensures { IfOk result (λ _. Writes bits.old bits.new
        (steps (list_and_one (λ all q. number_at all q width)) (length clusters.now) []) clusters.now) }
{
    for cluster in clusters {
        bits.put(u32::from(*cluster), width)?;
    }
    Ok(())
}

/// Adds the cluster of each context; one context alone has cluster 0.
pub(crate) fn write_clusters(bits: &mut BitWriter, clusters: &[u8]) -> Result<(), AllocError>
    requires few { All (λ c. c < 8) clusters.now }
    requires one { length clusters.now ≤ 1 → All (λ c. c ≡ 0) clusters.now }
    ensures { IfOk result (λ _. Writes bits.old bits.new (clusters_or_one (clusters_at (length clusters.now))
        (length clusters.now)) clusters.now) }
{
    if clusters.len() <= 1 {
        return Ok(());
    }
    let width = width_of(clusters);
    bits.put(1, 1)?;
    bits.put(width, 2)?;
    write_numbers(bits, clusters, width)?;
    Ok(())
}

/// Adds the configurations of clusters.
fn write_configs(bits: &mut BitWriter, codes: &[ClusterWriter], log: u32) -> Result<(), AllocError>
    requires log { log ≤ 8 }
    requires fit { All (FitsCluster log) codes.now }
    ensures { IfOk result (λ _. Writes bits.old bits.new
        (steps (list_and_one (λ all q. config_at all log q)) (length codes.now) []) (map (λ c. c.config) codes.now)) }
{
    for code in codes {
        write_config(bits, &code.config, log)?;
    }
    Ok(())
}

/// Adds the distribution of a cluster.
fn write_distribution(bits: &mut BitWriter, code: &ClusterWriter) -> Result<(), AllocError>
    requires { FitsCounts code.now.only code.now.slots.counts.items }
    ensures { IfOk result (λ _. Writes bits.old bits.new distribution_at code.now.slots.counts.items) }
{
    match code.only {
        Some(symbol) => write_only(bits, symbol),
        None => write_counts(bits, &code.slots.counts),
    }
}

/// Adds the distributions of clusters.
fn write_distributions(
    bits: &mut BitWriter,
    codes: &[ClusterWriter],
    log: u32,
) -> Result<(), AllocError>
    requires fit { All (FitsCluster log) codes.now }
    requires logs { All (λ c. c.slots.log ≡ log) codes.now }
    ensures { IfOk result (λ _. Writes bits.old bits.new
        (steps (distribution_step (map (λ c. c.config) codes.now) log) (length codes.now) nothing_coded)
        (coded_after log nothing_coded codes.now)) }
{
    for code in codes {
        write_distribution(bits, code)?;
    }
    Ok(())
}

/// Adds the codes of clusters: ANS, with a configuration and a distribution for each.
pub(crate) fn write_codes(bits: &mut BitWriter, writer: &StreamWriter) -> Result<(), AllocError>
    requires log { 5 ≤ writer.now.log }
    requires each { All (FitsCluster writer.now.log) writer.now.codes.items }
    ensures { IfOk result (λ _. (clusters : List _) (copies : Option _) → Writes bits.old bits.new
        (clusters_codes_at clusters copies (length writer.now.codes.items)) (codes_among clusters copies writer.now)) }
{
    bits.put(0, 1)?;
    bits.put(writer.log - 5, 2)?;
    write_configs(bits, &writer.codes, writer.log)?;
    write_distributions(bits, &writer.codes, writer.log)?;
    Ok(())
}

/// Adds the codes of clusters, without copies.
fn write_own_codes(bits: &mut BitWriter, writer: &StreamWriter) -> Result<(), AllocError>
    requires { IsHead writer.now }
    ensures { IfOk result (λ _. Writes bits.old bits.new (codes_at None writer.now.clusters.items)
        (codes_of writer.now)) }
{
    write_codes(bits, writer)?;
    Ok(())
}

/// Adds the head of a decoder of at most eight clusters, without copies. The cluster of each context takes 0 to 3 bits.
///
/// # Errors
///
/// Out of memory alone; then nothing is promised of the bits.
pub fn write_head(bits: &mut BitWriter, writer: &StreamWriter) -> Result<(), AllocError>
    requires head { IsHead writer.now }
    requires few { All (λ c. c < 8) writer.now.clusters.items }
    ensures { IfOk result (λ _. Writes bits.old bits.new
        (λ bytes p. decoder_at bytes p (length writer.now.clusters.items)) (start_of (codes_of writer.now))) }
{
    bits.put(0, 1)?;
    write_clusters(bits, &writer.clusters)?;
    write_own_codes(bits, writer)?;
    Ok(())
}

/// The clusters as tokens of one context.
pub fn map_tokens(alloc: Global, clusters: &[u8]) -> Result<Vec<Token>, AllocError>
    ensures { IfOk result (λ v. v.items ≡ map map_token clusters.now) }
{
    let mut tokens = Vec::new(alloc);
    for cluster in clusters {
        tokens.push(Token {
            cluster: 0,
            value: u32::from(*cluster),
        })?;
    }
    Ok(tokens)
}

/// Adds the cluster of each of two contexts and more, as tokens of a decoder of its own.
pub(crate) fn write_coded_clusters(
    alloc: Global,
    bits: &mut BitWriter,
    clusters: &[u8],
    own: &StreamWriter,
) -> Result<(), AllocError>
    requires many { 1 < length clusters.now }
    requires own { IsHead own.now }
    requires one { own.now.clusters.items ≡ 0 ∷ [] }
    requires slots { All (HasSlot own.now.codes.items) (map map_token clusters.now) }
    ensures { IfOk result (λ _. Writes bits.old bits.new (clusters_or_one (clusters_at (length clusters.now))
        (length clusters.now)) clusters.now) }
{
    bits.put(0, 3)?;
    write_own_codes(bits, own)?;
    let tokens = map_tokens(alloc, clusters)?;
    own.write_tokens(alloc, bits, &tokens)?;
    Ok(())
}

/// Adds the head of a decoder of two contexts and more, and at most 256 clusters, without copies. The cluster of each
/// context is a token of `own`.
///
/// # Errors
///
/// Out of memory alone; then nothing is promised of the bits.
pub fn write_mapped_head(
    alloc: Global,
    bits: &mut BitWriter,
    writer: &StreamWriter,
    own: &StreamWriter,
) -> Result<(), AllocError>
    requires head { IsHead writer.now }
    requires many { 1 < length writer.now.clusters.items }
    requires own { IsHead own.now }
    requires one { own.now.clusters.items ≡ 0 ∷ [] }
    requires slots { All (HasSlot own.now.codes.items) (map map_token writer.now.clusters.items) }
    ensures { IfOk result (λ _. Writes bits.old bits.new
        (λ bytes p. decoder_at bytes p (length writer.now.clusters.items)) (start_of (codes_of writer.now))) }
{
    bits.put(0, 1)?;
    write_coded_clusters(alloc, bits, &writer.clusters, own)?;
    write_own_codes(bits, writer)?;
    Ok(())
}
