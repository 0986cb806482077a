//! Meta-adaptive trees with the decoders of their leaves.

ghost use Rattle.std.specs.Prelude.{◌≡◌, ◌≤◌, ◌^◌, ℕ, IfOk, IfErr, IfSome};
ghost use Rattle.jxlm_bits.specs.Bits.{bytes_of, position_of};
ghost use Rattle.jxlm_bits.specs.ErrorKind.{NoMemory, kind_of};
ghost use Rattle.jxlm_tree.specs.FlatTree.{ClustersStandIn, flat_tree};
ghost use Rattle.jxlm_tree.specs.Inner.Compiled.{IsCompiledFor};
ghost use Rattle.jxlm_ma_tree.specs.Tree.{AllLeaves, node_count, depth};
ghost use Rattle.jxlm_ma_tree.specs.TreeReading.{IsLeafOf, IsOutOfMemory, MemoryGives, TreeGives};

use crate::flat::{CompiledTree, FlatMaTree};
use crate::streams::StreamNodes;
use jxlm_base::grid::OutOfMemory;
use jxlm_bits::bits::Bitstream;
use jxlm_bits::decoder::Decoder;
use jxlm_bits::error::Result;
pub use jxlm_ma_tree::read::{
    each_listing_is_of_a_tree, each_tree_is_read_exactly, no_two_trees_share_a_listing,
};
use jxlm_ma_tree::read::{ParsedTree, parse_tree};
use jxlm_ma_tree::tree::MaTree;
use std::alloc::Global;
use std::marker::Model;
use std::rc::Rc;

/// How large a tree may be.
#[derive(Clone, Copy)]
pub struct MaConfigParams {
    /// A tree may have one node more than this; at most 2^26.
    pub node_limit: usize,
    /// The maximum depth that a tree may have; at most 2048.
    pub depth_limit: usize,
}

/// A meta-adaptive tree, and the entropy decoder of its leaves' clusters.
///
/// Contracts see it as the tree and the decoder.
#[derive(Drop)]
pub struct MaConfig<D: Decoder> {
    tree: Rc<MaTree>,
    // Its nodes, where they are the same for every channel and stream.
    anywhere: Option<Rc<CompiledTree>>,
    // Its nodes for two runs of channels, where they are the same for every stream.
    by_channel: Option<Rc<StreamNodes>>,
    decoder: D,
    num_tree_nodes: usize,
}

impl<D: Decoder> Model for MaConfig<D> {
    ghost use Rattle.std.specs.Rc.{rc_value};
    ghost use Rattle.jxlm_ma_tree.specs.Tree.{Config, config_of};
    ghost use Rattle.jxlm_ma_tree.specs.TreeCode.{coded_config};
    ghost use Rattle.jxlm_tree.specs.Inner.Kept.{IsKept};
    ghost use Rattle.jxlm_ma_tree.specs.TreeShape.{shape_of};
    ghost use Rattle.jxlm_ma_tree.specs.contracts.leaf.Leaf as leaves;

    ghost Value = { Config D };

    ghost coded = { coded_config leaves.the_row.coded D.code };

    ghost view = { λ c. config_of (shape_of c.tree.value.root) c.decoder };

    ghost invariant = { λ c. IsKept (D.meaning.cluster_map c.decoder) c.tree.value rc_value c.anywhere
        rc_value c.by_channel c.num_tree_nodes };
}

impl<D: Decoder> MaConfig<D> {
    /// Reads the tree at the reader's position, and the decoder of its leaves after it (ISO/IEC 18181-1, Modular:
    /// decoding of meta-adaptive trees).
    ///
    /// # Errors
    ///
    /// That of the first check that fails. `Decoder`: a decoder's own error. `InvalidMaTree`: the tree would have no
    /// end, more than 2^26 nodes, or a multiplier of 2^31 and more. `InvalidEnum`: a number that no predictor has.
    /// `ProfileConformance`: more than `node_limit + 1` nodes or, once the decoder of the leaves is read, a depth
    /// above `depth_limit`. The reader is then after the last token that was read; after an error of a decoder's
    /// `parse` its position is that decoder's own matter.
    ///
    /// Out of memory is `Buffer` where the tree itself or its compiled nodes need it, which is only after the decoder
    /// of its nodes was read, and `Decoder(OutOfMemory)` where a decoder does. No tree deeper than the limit is ever
    /// held.
    pub fn parse(alloc: Global, bits: &mut Bitstream<'_>, params: MaConfigParams) -> Result<Self>
        requires nodes { params.node_limit ≤ 2 ^ 26 }
        requires depth { params.depth_limit ≤ 2048 }
        ensures gives { TreeGives D.meaning (bytes_of bits.old) params.node_limit params.depth_limit
            (position_of bits.old) result (position_of bits.new) }
        ensures memory { MemoryGives D.meaning (bytes_of bits.old) (position_of bits.old) result }
        ensures bytes { bytes_of bits.new ≡ bytes_of bits.old }
    {
        let parsed = parse_tree(alloc, bits, params.node_limit, params.depth_limit)?;
        let ParsedTree {
            tree,
            decoder,
            num_nodes,
        } = parsed;
        let anywhere = CompiledTree::anywhere(alloc, &tree)?;
        let by_channel = StreamNodes::of(alloc, &tree, num_nodes)?;
        let tree = Rc::new(alloc, tree)?;
        Ok(MaConfig {
            tree,
            anywhere,
            by_channel,
            decoder,
            num_tree_nodes: num_nodes,
        })
    }

    /// The same tree, shared, with a decoder of its own in the same state.
    ///
    /// # Errors
    ///
    /// Out of memory alone: `Decoder(OutOfMemory)` from the decoder, or `Buffer`.
    pub fn try_clone(&self, alloc: Global) -> Result<Self>
        ensures ok { IfOk result (λ c. c ≡ self.now) }
        ensures err { IfErr result (λ e. IsOutOfMemory (kind_of e)) }
    {
        let decoder = self.decoder.try_clone(alloc)?;
        let tree = self.tree.clone()?;
        let anywhere = match &self.anywhere {
            Some(shared) => Some(shared.clone()?),
            None => None,
        };
        let by_channel = match &self.by_channel {
            Some(shared) => Some(shared.clone()?),
            None => None,
        };
        Ok(MaConfig {
            tree,
            anywhere,
            by_channel,
            decoder,
            num_tree_nodes: self.num_tree_nodes,
        })
    }

    /// The tree as the samples of one channel walk it: `channel` is its index in its part, `stream_idx` the index of
    /// the stream, and `prev_channels` the number of earlier channels that it may ask for.
    ///
    /// The tree is shared. So are its compiled nodes where it asks for neither channel nor stream, and no earlier
    /// channel that it names is missing. With 1,024 nodes or more, a tree that asks for the channel and not for the
    /// stream is compiled once for two runs of channels, each of which has all channels before it as earlier ones.
    ///
    /// # Errors
    ///
    /// `Buffer` if it is out of memory, and no other.
    pub fn make_flat_tree(
        &self,
        alloc: Global,
        channel: u32,
        stream_idx: u32,
        prev_channels: u32,
    ) -> Result<FlatMaTree>
        ensures tree { IfOk result (λ t. t ≡ flat_tree self.now.tree channel stream_idx prev_channels) }
        ensures leaves { IfOk result (λ t. AllLeaves (IsLeafOf (D.meaning.cluster_map self.now.decoder)) t.tree) }
        ensures clusters { IfOk result (λ t. ClustersStandIn (D.meaning.cluster_map self.now.decoder) t.tree) }
        ensures err { IfErr result (λ e. kind_of e ≡ NoMemory) }
    {
        let tree = self.tree.clone()?;
        let compiled = self.compiled_for(alloc, channel, stream_idx, prev_channels)?;
        Ok(FlatMaTree {
            tree,
            compiled,
            channel,
            stream_idx,
            prev_channels,
        })
    }

    // The nodes for the samples of a channel of whatever stream, where they are kept for it.
    fn kept_nodes(&self, channel: u32, prev_channels: u32) -> Result<Option<Rc<CompiledTree>>>
        ensures serves { (stream : ℕ) → IfOk result (λ o. IfSome o (λ c.
            IsCompiledFor self.now.tree channel stream prev_channels c.value)) }
        ensures err { IfErr result (λ e. kind_of e ≡ NoMemory) }
    {
        if channel != prev_channels {
            return Ok(None);
        }
        match &self.by_channel {
            Some(kept) => kept.for_channel(channel),
            None => Ok(None),
        }
    }

    // The nodes for the samples of a channel: those that are shared, where they serve it.
    fn compiled_for(
        &self,
        alloc: Global,
        channel: u32,
        stream_idx: u32,
        prev_channels: u32,
    ) -> Result<Rc<CompiledTree>>
        ensures compiled { IfOk result (λ c. IsCompiledFor self.now.tree channel stream_idx prev_channels c.value) }
        ensures err { IfErr result (λ e. kind_of e ≡ NoMemory) }
    {
        if let Some(shared) = &self.anywhere {
            if self.tree.prev_channels_named <= prev_channels {
                return Ok(shared.clone()?);
            }
        }
        if let Some(kept) = self.kept_nodes(channel, prev_channels)? {
            return Ok(kept);
        }
        let compiled = CompiledTree::new(alloc, &self.tree, channel, stream_idx, prev_channels)?;
        Ok(Rc::new(alloc, compiled)?)
    }

    /// The decoder of the leaves' clusters.
    pub fn decoder(&self) -> &D
        ensures decoder { result.now ≡ self.now.decoder }
        ensures clusters { ClustersStandIn (D.meaning.cluster_map result.now) self.now.tree }
    {
        &self.decoder
    }

    /// How many nodes the tree has, leaves and decisions together: at most 2^26.
    pub fn num_tree_nodes(&self) -> usize
        ensures nodes { result ≡ node_count self.now.tree }
        ensures most { result ≤ 2 ^ 26 }
    {
        self.num_tree_nodes
    }

    /// The maximum number of decisions from the root to a leaf: at most 2048.
    pub fn tree_depth(&self) -> usize
        ensures depth { result ≡ depth self.now.tree }
        ensures most { result ≤ 2048 }
    {
        self.tree.depth
    }
}
