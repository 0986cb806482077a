//! How a tree and the decoder of its leaves are read.

ghost use Rattle.std.specs.Prelude.{◌≡◌, ◌≢◌, ◌≤◌, ◌^◌, length, map, IfOk, IfErr, IsOk};
ghost use Rattle.jxlm_bits.specs.Bits.{bytes_of, position_of};
ghost use Rattle.jxlm_bits.specs.ErrorKind.{NoMemory, kind_of};
ghost use Rattle.jxlm_ma_tree.specs.Inner.DraftReading.{DecoderGives, ListsTrees, node_of};
ghost use Rattle.jxlm_ma_tree.specs.Parsing.{ParsedGives};
ghost use Rattle.jxlm_ma_tree.specs.Tree.{AllLeaves, Shape, levels, node_count};
ghost use Rattle.jxlm_ma_tree.specs.TreeReading.{IsLeafOf, MemoryGives, leaf_count, listing_at};
ghost use Rattle.jxlm_ma_tree.specs.TreeShape.{shape_of};
ghost use Rattle.jxlm_ma_tree.specs.TreeStands.{EachListingIsOfATree, OneTreeStands, TreesAreReadExactly};
ghost use Rattle.jxlm_ma_tree.specs.declared.leaf.Leaf.{Leaf};

use crate::build::build;
use crate::nodes::{DraftNode, read_tree};
use crate::tree::MaTree;
use jxlm_bits::bits::Bitstream;
use jxlm_bits::decoder::Decoder;
use jxlm_bits::error::Result;
use std::alloc::Global;

/// A tree as it was read, and the decoder of its leaves' clusters.
#[derive(Drop)]
pub struct ParsedTree<D: Decoder> {
    pub tree: MaTree,
    pub decoder: D,
    /// How many nodes the tree has, leaves and decisions together.
    pub num_nodes: usize,
}

/// Reads the tree at the reader's position, and the decoder of its leaves after it (ISO/IEC 18181-1, Modular: decoding
/// of meta-adaptive trees). The tree has at most `node_limit + 1` nodes, and at most 2^26.
///
/// # Errors
///
/// That of the first check that fails. `Decoder`: a decoder's own error. `InvalidMaTree`: the tree would have no
/// end, more than 2^26 nodes, or a multiplier of 2^31 and more. `InvalidEnum`: a number that no predictor has.
/// `ProfileConformance`: more than `node_limit + 1` nodes or, once the decoder of the leaves is read, a depth
/// above `depth_limit`. The reader is then after the last token that was read; after an error of a decoder's
/// `parse` its position is that decoder's own matter.
///
/// Out of memory is `Buffer` where the tree itself needs it, which is only after the decoder of its nodes was read, and
/// `Decoder(OutOfMemory)` where a decoder does. No tree deeper than the limit is ever held.
#[tactic(auto, unfolding(crate::specs::TreeReading::listing_at))]
pub fn parse_tree<D: Decoder>(
    alloc: Global,
    bits: &mut Bitstream<'_>,
    node_limit: usize,
    depth_limit: usize,
) -> Result<ParsedTree<D>>
    requires nodes { node_limit ≤ 2 ^ 26 }
    ensures gives { ParsedGives D.meaning (bytes_of bits.old) node_limit depth_limit (position_of bits.old) result
        (position_of bits.new) }
    ensures depth { IfOk result (λ t. t.tree.depth ≤ depth_limit) }
    ensures leaves { IfOk result (λ t. AllLeaves (IsLeafOf (D.meaning.cluster_map t.decoder)) (shape_of t.tree.root)) }
    ensures count { IfOk result (λ t. t.num_nodes ≡ node_count (shape_of t.tree.root)) }
    ensures few { IfOk result (λ t. t.num_nodes ≤ 2 ^ 26) }
    ensures begun { IfOk result (λ _. IsOk (D.meaning.parse (bytes_of bits.old) (position_of bits.old) 6)) }
    ensures memory { MemoryGives D.meaning (bytes_of bits.old) (position_of bits.old) result }
    ensures bytes { bytes_of bits.new ≡ bytes_of bits.old }
{
    let mut first: D = parse_decoder(alloc, bits, 6)?;
    let nodes = read_tree(alloc, &mut first, bits, node_limit)?;
    let num_nodes = nodes.len();
    let decoder: D = parse_decoder(alloc, bits, count_leaves(&nodes))?;
    let tree = build(alloc, nodes, decoder.cluster_map(), depth_limit)?;
    Ok(ParsedTree {
        tree,
        decoder,
        num_nodes,
    })
}

fn parse_decoder<D: Decoder>(alloc: Global, bits: &mut Bitstream<'_>, contexts: u32) -> Result<D>
    ensures gives { DecoderGives D.meaning contexts result bits.old bits.new }
    ensures contexts { IfOk result (λ d. length (D.meaning.cluster_map d) ≡ contexts) }
    ensures memory { IfErr result (λ e. kind_of e ≢ NoMemory) }
    ensures bytes { bytes_of bits.new ≡ bytes_of bits.old }
{
    Ok(D::parse(alloc, bits, contexts)?)
}

// There is one leaf more than there are decisions.
fn count_leaves(nodes: &[DraftNode]) -> u32
    requires listing { ListsTrees 1 (map node_of nodes.now) }
    requires count { length nodes.now ≤ 2 ^ 26 }
    ensures { result ≡ leaf_count (map node_of nodes.now) }
{
    nodes.len() as u32 / 2 + 1
}

/// What is read as the nodes of a tree is the listing of a tree.
pub fn each_listing_is_of_a_tree<D: Decoder>()
    ensures { EachListingIsOfATree D.meaning }
{}

/// No two trees have one listing.
pub fn no_two_trees_share_a_listing()
    ensures { (t u : Shape Leaf) → levels t ≡ levels u → t ≡ u }
{}

/// A tree that is read stands in the bits token after token, a tree whose bits are at the reader's position is read,
/// and no two trees stand at one bit position.
pub fn each_tree_is_read_exactly<D: Decoder>()
    ensures exactly { TreesAreReadExactly D.meaning }
    ensures one { OneTreeStands D.meaning }
{}
