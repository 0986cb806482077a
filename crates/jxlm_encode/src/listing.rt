//! The tree that an encoder is given, looked at, written, and read as a reader reads it.

ghost use Rattle.std.specs.Prelude.{◌≡◌, ◌+◌, ◌<◌, ◌≤◌, ◌^◌, ◌++◌, ◌↔◌, IfOk, IfErr, IsTrue, length};
ghost use Rattle.jxlm_encode_write.specs.Nodes.{tree_tokens};
ghost use Rattle.jxlm_encode_write.specs.Trees.{gamma_tree_bits, tree_bits};
ghost use Rattle.jxlm_transform.specs.Channels.{infos};
ghost use Rattle.jxlm_encode.specs.Encoded.{IsTreeGiven};
ghost use Rattle.jxlm_encode.specs.Inner.Listing.{IsNotGiven, IsNotRead, IsTreeRead, left_after};
ghost use Rattle.jxlm_encode.specs.Listing.{ListsOneTree};

use crate::error::{EncodeError, unless_memory};
use jxlm_bit_writer::writer::BitWriter;
use jxlm_bits::bits::Bitstream;
use jxlm_encode_write::plain::{
    width_of, write_decoder, write_gamma_decoder, write_gamma_tokens, write_tokens,
};
use jxlm_encode_write::tree::{EncodeNode, has_tokens, tokens_of};
use jxlm_header::opening::{DEPTH_LIMIT, node_limit};
use jxlm_plain::plain::PlainDecoder;
use jxlm_transform::channels::PlacedChannel;
use jxlm_tree::ma::{MaConfig, MaConfigParams, each_tree_is_read_exactly};
use std::alloc::{AllocError, Global};

/// How many nodes are missing after a node, of some that were.
fn missing_after(node: EncodeNode, missing: usize) -> usize
    requires some { 1 ≤ missing }
    requires room { missing < 2 ^ 32 }
    ensures { result ≡ left_after node missing }
{
    match node {
        EncodeNode::Decision { .. } => missing + 1,
        EncodeNode::Leaf { .. } => missing - 1,
    }
}

/// Whether the nodes are those of exactly one tree, level by level.
pub fn lists_one_tree(nodes: &[EncodeNode]) -> bool
    requires { length nodes.now ≤ 2 ^ 26 }
    ensures { IsTrue result ↔ ListsOneTree nodes.now }
{
    let mut missing = 1;
    for node in nodes {
        if missing == 0 {
            return false;
        }
        missing = missing_after(*node, missing);
    }
    missing == 0
}

/// Adds the tree of these nodes, which are those of one tree, by their tokens, each of the width `own`, at most 32; and
/// a decoder of its leaves, one more than there are decisions, whose tokens have this width.
#[tactic(auto, using(crate::proofs::Listings::half_are_leaves))]
pub(crate) fn write_tree(
    bits: &mut BitWriter,
    nodes: &[EncodeNode],
    tokens: &[u32],
    own: u32,
    width: u32,
) -> Result<(), AllocError>
    requires lists { ListsOneTree nodes.now }
    requires own { own ≤ 32 }
    requires tokens { tokens.now ≡ tree_tokens nodes.now }
    ensures { IfOk result (λ _. bits.new ≡ bits.old ++ tree_bits nodes.now own width) }
{
    write_decoder(bits, 6, own)?;
    write_tokens(bits, tokens, own)?;
    write_decoder(bits, nodes.len() / 2 + 1, width)
}

/// Adds the tree of these nodes, which are those of one tree, by their tokens, and a decoder of its leaves: both of the
/// second format, with gamma codes.
#[tactic(auto, using(crate::proofs::Listings::half_are_leaves))]
pub(crate) fn write_gamma_tree(
    bits: &mut BitWriter,
    nodes: &[EncodeNode],
    tokens: &[u32],
) -> Result<(), AllocError>
    requires lists { ListsOneTree nodes.now }
    requires tokens { tokens.now ≡ tree_tokens nodes.now }
    ensures { IfOk result (λ _. bits.new ≡ bits.old ++ gamma_tree_bits nodes.now) }
{
    write_gamma_decoder(bits, 6)?;
    write_gamma_tokens(bits, tokens)?;
    write_gamma_decoder(bits, nodes.len() / 2 + 1)
}

/// The tree of these nodes, which are those of one tree, by their tokens, as a reader reads it.
fn read_back(
    alloc: Global,
    nodes: &[EncodeNode],
    tokens: &[u32],
    limit: usize,
) -> Result<MaConfig<PlainDecoder>, EncodeError>
    requires lists { ListsOneTree nodes.now }
    requires tokens { tokens.now ≡ tree_tokens nodes.now }
    requires few { length nodes.now ≤ limit + 1 }
    requires limit { limit ≤ 2 ^ 20 }
    ensures ok { IfOk result (λ c. IsTreeRead nodes.now limit c.tree) }
    ensures err { IfErr result (λ e. IsNotRead nodes.now e) }
{
    let mut bits = BitWriter::new(alloc);
    write_tree(&mut bits, nodes, tokens, width_of(tokens), 0)?;
    let bytes = bits.into_bytes()?;
    let mut reader = Bitstream::new(&bytes);
    each_tree_is_read_exactly::<PlainDecoder>();
    let params = MaConfigParams {
        node_limit: limit,
        depth_limit: DEPTH_LIMIT,
    };
    match MaConfig::parse(alloc, &mut reader, params) {
        Ok(config) => Ok(config),
        Err(error) => Err(unless_memory(error, EncodeError::InvalidTree)),
    }
}

/// The tokens of the tree that the nodes list, and the tree, as a reader reads it; it is within the limits of an image
/// with these coded channels.
pub(crate) fn tree_of(
    alloc: Global,
    channels: &[PlacedChannel],
    nodes: &[EncodeNode],
) -> Result<(Vec<u32>, MaConfig<PlainDecoder>), EncodeError>
    ensures tokens { IfOk result (λ r. r.0.items ≡ tree_tokens nodes.now) }
    ensures tree { IfOk result (λ r. IsTreeGiven nodes.now (infos channels.now) r.1.tree) }
    ensures err { IfErr result (λ e. IsNotGiven nodes.now (infos channels.now) e) }
{
    let limit = node_limit(channels);
    if nodes.len() > limit + 1 {
        return Err(EncodeError::InvalidTree);
    }
    if !has_tokens(nodes) {
        return Err(EncodeError::InvalidTree);
    }
    if !lists_one_tree(nodes) {
        return Err(EncodeError::InvalidTree);
    }
    let tokens = tokens_of(alloc, nodes)?;
    let config = read_back(alloc, nodes, &tokens, limit)?;
    Ok((tokens, config))
}
