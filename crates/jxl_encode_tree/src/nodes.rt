//! The nodes of a tree: their tokens, each in the cluster of its context, and their stream.

ghost use Rattle.std.specs.Prelude.{◌≡◌, ◌<◌, ◌≤◌, ◌*◌, ◌^◌, ◌++◌, true, map, length, IfOk};
ghost use Rattle.std.specs.List.{All};
ghost use Rattle.jxlm_bit_writer.specs.Writes.{Adds};
ghost use Rattle.jxlm_encode_write.specs.Nodes.{has_token, tree_tokens};
ghost use Rattle.jxlm_encode_streams.specs.TreeStreams.{node_contexts, tree_contexts};
ghost use Rattle.jxl_encode_tree.specs.Inner.Contexts.{AreNodesRead, cluster_count, cluster_in};

use jxl_coding_build::streams::{write_all, writer_for};
use jxlm_bit_writer::token::Token;
use jxlm_bit_writer::writer::BitWriter;
use jxlm_encode_write::tree::{EncodeNode, tokens_of};
use std::alloc::{AllocError, Global};

/// Adds the contexts of the tokens of a node.
fn push_contexts(contexts: &mut Vec<u8>, node: &EncodeNode) -> Result<(), AllocError>
    ensures { IfOk result (λ _. contexts.new.items ≡ contexts.old.items ++ node_contexts node.now) }
{
    match node {
        EncodeNode::Decision { .. } => {
            contexts.push(1)?;
            contexts.push(0)?;
        }
        EncodeNode::Leaf { .. } => {
            contexts.push(1)?;
            contexts.push(2)?;
            contexts.push(3)?;
            contexts.push(4)?;
            contexts.push(5)?;
        }
    }
    Ok(())
}

/// The contexts of the tokens of nodes.
fn contexts_of(alloc: Global, nodes: &[EncodeNode]) -> Result<Vec<u8>, AllocError>
    ensures { IfOk result (λ v. v.items ≡ tree_contexts nodes.now) }
{
    let mut contexts = Vec::new(alloc);
    for node in nodes {
        push_contexts(&mut contexts, node)?;
    }
    Ok(contexts)
}

/// The cluster of a context: its own if contexts have codes of their own, and else the only one.
fn cluster_of(separate: bool, context: u8) -> u8
    ensures { result ≡ cluster_in separate context }
{
    if separate { context } else { 0 }
}

/// How many clusters there are.
fn count_of(separate: bool) -> u32
    ensures { result ≡ cluster_count separate }
{
    if separate { 6 } else { 1 }
}

/// The clusters of contexts.
fn clusters_of(alloc: Global, contexts: &[u8], separate: bool) -> Result<Vec<u8>, AllocError>
    ensures { IfOk result (λ v. v.items ≡ map (cluster_in separate) contexts.now) }
{
    let mut clusters = Vec::new(alloc);
    for context in contexts {
        clusters.push(cluster_of(separate, *context))?;
    }
    Ok(clusters)
}

/// Tokens of these clusters and values.
fn tokens_in(alloc: Global, clusters: &[u8], values: &[u32]) -> Result<Vec<Token>, AllocError>
    requires same { length clusters.now ≡ length values.now }
    ensures values { IfOk result (λ v. map (λ t. t.value) v.items ≡ values.now) }
    ensures clusters { IfOk result (λ v. map (λ t. t.cluster) v.items ≡ clusters.now) }
{
    let mut tokens = Vec::new(alloc);
    for i in 0..values.len() {
        tokens.push(Token {
            cluster: clusters[i],
            value: values[i],
        })?;
    }
    Ok(tokens)
}

/// The tokens of nodes, each in the cluster of its context.
fn node_tokens(
    alloc: Global,
    nodes: &[EncodeNode],
    separate: bool,
) -> Result<Vec<Token>, AllocError>
    requires properties { All (λ n. has_token n ≡ true) nodes.now }
    ensures values { IfOk result (λ v. map (λ t. t.value) v.items ≡ tree_tokens nodes.now) }
    ensures clusters { IfOk result (λ v. map (λ t. t.cluster) v.items
        ≡ map (cluster_in separate) (tree_contexts nodes.now)) }
    ensures below { IfOk result (λ v. All (λ t. t.cluster < cluster_count separate) v.items) }
    ensures few { IfOk result (λ v. length v.items ≤ 5 * length nodes.now) }
{
    let values = tokens_of(alloc, nodes)?;
    let contexts = contexts_of(alloc, nodes)?;
    let clusters = clusters_of(alloc, &contexts, separate)?;
    let tokens = tokens_in(alloc, &clusters, &values)?;
    Ok(tokens)
}

/// Adds a decoder of six contexts, which have codes of their own or one code, and the stream of the nodes' tokens.
pub(crate) fn write_nodes(
    alloc: Global,
    bits: &mut BitWriter,
    nodes: &[EncodeNode],
    separate: bool,
) -> Result<(), AllocError>
    requires properties { All (λ n. has_token n ≡ true) nodes.now }
    requires few { length nodes.now ≤ 2 ^ 26 }
    ensures { IfOk result (λ _. Adds bits.old bits.new (AreNodesRead nodes.now)) }
{
    let tokens = node_tokens(alloc, nodes, separate)?;
    let clusters = clusters_of(alloc, &[0, 1, 2, 3, 4, 5], separate)?;
    let writer = writer_for(alloc, clusters, count_of(separate), &tokens)?;
    write_all(alloc, bits, &writer, &tokens)?;
    Ok(())
}
