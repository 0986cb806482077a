//! Trees as the samples of one channel walk them.

ghost use Rattle.std.specs.Prelude.{◌≡◌, ◌≢◌, ◌≤◌, ◌<◌, ◌+◌, ◌^◌, ℕ, ℤ, pos, false, length, true, ◌/◌, ◌⊎◌, IfOk, IfErr, IfSome, None, if◌then◌else◌};
ghost use Rattle.std.proofs.Common.{reverse};
ghost use Rattle.std.specs.Int.{w32, int_wrap};
ghost use Rattle.jxlm_bits.specs.Bits.{bytes_of};
ghost use Rattle.jxlm_tree.specs.DecodingSamples.{SampleGives};
ghost use Rattle.jxlm_tree.specs.CompiledNodes.{AsksKnown, flat_nodes, prune};
ghost use Rattle.jxlm_tree.specs.NextChannel.{next_alike};
ghost use Rattle.jxlm_tree.specs.FlatTree.{PropertiesAre, ClustersStandIn, FlatTree, GoesWithoutWeights, HasMultiplier, NamesEarlier, ReadsEarlierBelow, flat_tree, leaf_reached, needs_weights, residual_of};
ghost use Rattle.jxlm_predictor.specs.Properties.{Surroundings, place_property, property};
ghost use Rattle.jxlm_tree.specs.ClusterTables.{LeavesAgree};
ghost use Rattle.jxlm_tree.specs.Paths.{IsLeafOf, IsPlainGradient};
ghost use Rattle.jxlm_tree.specs.Steps.{most_steps};
ghost use Rattle.jxlm_ma_tree.specs.Tree.{AllLeaves, Shape, StandsAtLeaf, depth, leaf, node_count, walk};
ghost use Rattle.jxlm_ma_tree.specs.declared.leaf.Leaf.{Leaf};
ghost use Rattle.jxlm_predictor.specs.declared.predictor.Predictor.TheVariants.{Zero};
ghost use Rattle.jxlm_tree.specs.ShortTrees.{CutsWithin, MeetsOnce, Reaches, TestsOnly};
ghost use Rattle.jxlm_tree.specs.Inner.FlatNodes.{IsSound, channels_of, node_channels, sees_error, slot};
ghost use Rattle.jxlm_tree.specs.Inner.Compiled.{IsCompiledFor, ServesAnywhere};
ghost use Rattle.jxlm_ma_tree.specs.Pruned.{tests_place};
ghost use Rattle.jxlm_tree.specs.Inner.Walking.{Ended, EndsAt};
ghost use Rattle.jxlm_bits.specs.ErrorKind.{NoMemory, kind_of};
ghost use Rattle.jxlm_ma_tree.specs.TreeShape.{shape_of};

use crate::compile::compile;
use crate::paths::ClusterTable;
pub use crate::steps::Steps;
use jxlm_base::sample::Sealed;
use jxlm_bits::bits::Bitstream;
use jxlm_bits::decoder::Decoder;
use jxlm_bits::error::Result;
use jxlm_ma_tree::alike::channels_alike;
pub use jxlm_ma_tree::leaf::Leaf;
use jxlm_ma_tree::marks::{Known, mark};
use jxlm_ma_tree::tree::MaTree;
pub use jxlm_predictor::place::{AskedProperty, PlaceProperties};
use jxlm_predictor::predictor::Predictor;
use jxlm_weighted::reduced::read_as_signed;
use std::alloc::Global;
use std::marker::Model;
use std::rc::Rc;

/// One side of a fused node: the test of a property, and where the walk goes on.
#[derive(Drop)]
pub struct Side {
    /// The property, from 2 on.
    pub property: AskedProperty,
    /// What the property is compared with.
    pub value: i32,
    /// The place of the next node where the property is greater than the value.
    pub above: u32,
    /// The place of the next node where it is not.
    pub rest: u32,
}

/// A node of a compiled tree.
#[derive(Drop)]
pub enum FlatNode {
    /// The walk ends here.
    Leaf(Leaf),
    /// The walk goes on at the entry of a property's value: the first entry serves all values up to `base`, each
    /// other one the next greater value, and the last one all values from its own on.
    Table {
        property: AskedProperty,
        base: i32,
        entries: Vec<u32>,
    },
    /// Two tests at once: that of the left side follows where the property is greater than the value.
    Fused {
        property: AskedProperty,
        value: i32,
        left: Side,
        right: Side,
    },
}

/// The nodes of a compiled tree, and what its walks may ask for.
#[derive(Drop)]
pub(crate) struct CompiledTree {
    pub(crate) nodes: Vec<FlatNode>,
    pub(crate) root: u32,
    pub(crate) need_self_correcting: bool,
    pub(crate) prev_channels_named: u32,
    pub(crate) table: Option<Rc<ClusterTable>>,
    /// The last channel that it serves, if each channel after the first has one earlier channel more.
    pub(crate) last_alike: u32,
}

/// A tree, compiled for the samples of one channel of one stream (ISO/IEC 18181-1, Modular:
/// meta-adaptive trees).
///
/// What is known beforehand is decided: tests of the channel, of the stream, and of earlier channels that are not
/// there. Tests of one property that hang together become a table where their cuts are near to one another, and
/// others are taken two at a time. The nodes are shared where nothing is known beforehand. Contracts see it as the
/// tree, the channel's index in its part, the stream's index, and the number of earlier channels.
#[derive(Drop)]
pub struct FlatMaTree {
    pub(crate) tree: Rc<MaTree>,
    pub(crate) compiled: Rc<CompiledTree>,
    pub(crate) channel: u32,
    pub(crate) stream_idx: u32,
    pub(crate) prev_channels: u32,
}

impl Model for FlatMaTree {
    ghost use Rattle.jxlm_tree.specs.FlatTree.{FlatTree, flat_tree};
    ghost use Rattle.jxlm_tree.specs.Inner.Compiled.{IsCompiledFor};
    ghost use Rattle.jxlm_tree.specs.FlatCode.{coded_flat};
    ghost use Rattle.jxlm_ma_tree.specs.TreeShape.{shape_of};
    ghost use Rattle.jxlm_ma_tree.specs.contracts.leaf.Leaf as leaves;

    ghost Value = { FlatTree };

    ghost coded = { coded_flat leaves.the_row.coded };

    ghost view = { λ t. flat_tree (shape_of t.tree.value.root) t.channel t.stream_idx t.prev_channels };

    ghost invariant = { λ t. IsCompiledFor (shape_of t.tree.value.root) t.channel t.stream_idx t.prev_channels
        t.compiled.value };
}

// The sample that a token stands for at a leaf, before its prediction, in 32 bits.
fn residual(leaf: &Leaf, token: u32) -> i32
    requires { leaf.now.multiplier < 2 ^ 31 }
    ensures { result ≡ residual_of leaf.now token }
{
    i32::unpack_signed_u32(token).wrapping_muladd_i32(leaf.multiplier as i32, leaf.offset)
}

// The entry of a table that serves a value.
#[inline(always)]
pub(crate) fn entry_of(base: i32, last: usize, value: i32) -> usize
    ensures { result ≡ slot base last value }
{
    if value <= base {
        return 0;
    }
    let above = (i64::from(value) - i64::from(base)) as usize;
    above.min(last)
}

impl Side {
    // The place at which the walk goes on.
    #[inline(always)]
    fn end<P: PlaceProperties>(&self, properties: &P) -> u32
        requires { P.IsCurrent properties.now }
        ensures { EndsAt P.gives properties.now self.now result }
    {
        if properties.property(&self.property) > self.value {
            self.above
        } else {
            self.rest
        }
    }
}

// The place at which the walk goes on, at the left side or the right one. Both are asked, so that neither question
// waits for the answer that chooses between them.
#[inline(always)]
fn end_of<P: PlaceProperties>(goes_left: bool, left: &Side, right: &Side, properties: &P) -> u32
    requires { P.IsCurrent properties.now }
    ensures { EndsAt P.gives properties.now (if goes_left then left.now else right.now) result }
{
    let left_end = left.end(properties);
    let right_end = right.end(properties);
    if goes_left { left_end } else { right_end }
}

// Of which earlier channel a property is, from 1 on, each with four from property 16 on; 0 where it is of none.
fn earlier_of(property: u32) -> u32
    ensures { result ≡ channels_of property }
{
    property.saturating_sub(12) / 4
}

impl FlatNode {
    // Whether the node tests property 15, or is a leaf that predicts by the weighted predictor.
    fn needs_weights(&self) -> bool
        ensures { result ≡ sees_error self.now }
    {
        match self {
            FlatNode::Leaf(leaf) => leaf.predictor == Predictor::SelfCorrecting,
            FlatNode::Table { property, .. } => property.number() == 15,
            FlatNode::Fused {
                property,
                left,
                right,
                ..
            } => property.number() == 15
                || left.property.number() == 15
                || right.property.number() == 15,
        }
    }

    // How many earlier channels the node asks for.
    fn earlier_named(&self) -> u32
        ensures { result ≡ node_channels self.now }
    {
        match self {
            FlatNode::Leaf(_) => 0,
            FlatNode::Table { property, .. } => earlier_of(property.number()),
            FlatNode::Fused {
                property,
                left,
                right,
                ..
            } => earlier_of(property.number())
                .max(earlier_of(left.property.number()))
                .max(earlier_of(right.property.number())),
        }
    }
}

// The channel that comes this number after another, or the last one whose number decisions do not read as negative.
fn last_channel(channel: u32, more: u32) -> u32
    ensures within { result ≤ channel + more }
    ensures signed { result < 2 ^ 31 }
    ensures far { result + 1 < 2 ^ 31 → result ≡ channel + more }
    ensures reaches { channel < 2 ^ 31 → channel ≤ result }
{
    channel.saturating_add(more).min(i32::MAX as u32)
}

impl CompiledTree {
    /// The tree, compiled for the samples of a channel.
    pub(crate) fn new(
        alloc: Global,
        tree: &MaTree,
        channel: u32,
        stream_idx: u32,
        prev_channels: u32,
    ) -> Result<CompiledTree>
        requires multipliers { AllLeaves HasMultiplier (shape_of tree.now.root) }
        requires few { node_count (shape_of tree.now.root) ≤ 2 ^ 26 }
        ensures compiled { IfOk result (IsCompiledFor (shape_of tree.now.root) channel stream_idx prev_channels) }
        ensures err { IfErr result (λ e. kind_of e ≡ NoMemory) }
    {
        let known = Known {
            channel: read_as_signed(channel),
            stream: read_as_signed(stream_idx),
            prev_channels,
        };
        let mut nodes = Vec::new(alloc);
        let marks = mark(alloc, &tree.root, &known)?;
        let root = compile(alloc, &marks.tree, &mut nodes)?;
        let need_self_correcting = nodes.iter().any(|node| node.needs_weights());
        let prev_channels_named = nodes
            .iter()
            .fold(0, |most: u32, node| most.max(node.earlier_named()));
        let found = ClusterTable::of(alloc, &nodes, root)?;
        let table = ClusterTable::share(alloc, found)?;
        let last_alike = last_channel(channel, channels_alike(&tree.root, &known));
        Ok(CompiledTree {
            nodes,
            root,
            need_self_correcting,
            prev_channels_named,
            table,
            last_alike,
        })
    }

    /// The tree, compiled once for all channels and streams with all earlier channels that it names, where no
    /// decision asks for the channel or the stream.
    pub(crate) fn anywhere(alloc: Global, tree: &MaTree) -> Result<Option<Rc<CompiledTree>>>
        requires multipliers { AllLeaves HasMultiplier (shape_of tree.now.root) }
        requires few { node_count (shape_of tree.now.root) ≤ 2 ^ 26 }
        ensures serves { IfOk result (λ o. IfSome o (λ c. ServesAnywhere (shape_of tree.now.root) c.value)) }
        ensures none { IfOk result (λ o. o ≡ None → tests_place (shape_of tree.now.root) ≡ true) }
        ensures err { IfErr result (λ e. kind_of e ≡ NoMemory) }
    {
        if tree.tests_place {
            return Ok(None);
        }
        let compiled = CompiledTree::new(alloc, tree, 0, 0, tree.prev_channels_named)?;
        let shared = Rc::new(alloc, compiled)?;
        Ok(Some(shared))
    }

    // The walk from the root to a leaf, by these properties.
    #[inline(always)]
    fn leaf<P: PlaceProperties>(&self, properties: &P, steps: &mut Steps) -> &Leaf
        requires current { P.IsCurrent properties.now }
        requires sound { IsSound (reverse self.now.nodes.items) }
        requires rooted { self.now.root < length self.now.nodes.items }
        ensures { Ended P.gives properties.now (reverse self.now.nodes.items) self.now.root steps.old steps.new
            result.now }
    {
        let mut place = self.root as usize;
        loop {
            steps.tick();
            match &self.nodes[place] {
                FlatNode::Leaf(leaf) => return leaf,
                FlatNode::Table {
                    property,
                    base,
                    entries,
                } => {
                    let value = properties.property(property);
                    place = entries[entry_of(*base, entries.len() - 1, value)] as usize;
                }
                FlatNode::Fused {
                    property,
                    value,
                    left,
                    right,
                } => {
                    let goes_left = properties.property(property) > *value;
                    place = end_of(goes_left, left, right, properties) as usize;
                }
            }
        }
    }
}

impl FlatMaTree {
    /// The same tree as the samples of the next channel walk it, which has one earlier channel more. It shares the
    /// nodes of this one, where each decision that is known beforehand is taken alike for both channels; it is none
    /// only where one is not, or where the next channel's number is 2^31 or more, or has 2^32 earlier channels.
    ///
    /// # Errors
    ///
    /// `Buffer` if it is out of memory, and no other.
    pub fn for_next_channel(&self) -> Result<Option<FlatMaTree>>
        ensures next { IfOk result (λ o. IfSome o (λ t. t
            ≡ flat_tree self.now.tree (self.now.channel + 1) self.now.stream_idx (self.now.prev_channels + 1))) }
        ensures shared { self.now.channel + 1 < 2 ^ 31 → self.now.prev_channels + 1 < 2 ^ 32
            → next_alike self.now ≡ true → IfOk result (λ o. o ≢ None) }
        ensures err { IfErr result (λ e. kind_of e ≡ NoMemory) }
    {
        if self.channel >= self.compiled.last_alike || self.prev_channels == u32::MAX {
            return Ok(None);
        }
        let tree = self.tree.clone()?;
        let compiled = self.compiled.clone()?;
        Ok(Some(FlatMaTree {
            tree,
            compiled,
            channel: self.channel + 1,
            stream_idx: self.stream_idx,
            prev_channels: self.prev_channels + 1,
        }))
    }

    /// How many nodes the compiled tree has, tables among them: 1 where no decision is left.
    pub fn num_nodes(&self) -> usize
        ensures count { result ≡ flat_nodes self.now }
        ensures some { 0 < result }
        ensures most { result ≤ node_count self.now.tree }
    {
        self.compiled.nodes.len()
    }

    /// Whether a walk can ask for the weighted (self-correcting) predictor: true only where property 15 or
    /// `SelfCorrecting` is somewhere in the tree.
    ///
    /// Where it is false, property 15 does not matter, and no leaf that is reached predicts so.
    pub fn need_self_correcting(&self) -> bool
        ensures need { result ≡ true → needs_weights self.now.tree ≡ true }
        ensures without { result ≡ false → GoesWithoutWeights self.now }
    {
        self.compiled.need_self_correcting
    }

    /// How many of the earlier channels a walk may ask for, the nearest first: at most those that are there, and
    /// the tree has a decision on the last of them.
    pub fn max_prev_channel_depth(&self) -> usize
        ensures there { result ≤ self.now.prev_channels }
        ensures named { 0 < result → NamesEarlier result self.now.tree }
        ensures below { ReadsEarlierBelow self.now result }
    {
        self.compiled.prev_channels_named as usize
    }

    /// The leaf to which every walk leads, where no decision is left once those that are known beforehand are taken.
    #[inline(always)]
    pub fn only_leaf(&self) -> Option<Leaf>
        ensures some { IfSome result (IsLeafOf self.now) }
        ensures none { result ≡ None → 0 < depth self.now.tree }
    {
        match &self.compiled.nodes[self.compiled.root as usize] {
            FlatNode::Leaf(only) => Some(*only),
            _ => None,
        }
    }

    /// The leaf to which these properties lead, from the root on (ISO/IEC 18181-1, Modular:
    /// meta-adaptive trees): to the left where a decision's property is greater than its value.
    ///
    /// Property 0 is the channel and 1 the stream, both read as signed numbers of 32 bits; those of
    /// earlier channels that are not there are 0. Each compiled node that is looked at, the leaf among them, is a
    /// step: at most as many as the tree's depth and one more, about half as many where no path tests a property
    /// twice, and two where a table serves the whole tree.
    #[inline(always)]
    pub fn leaf<P: PlaceProperties>(&self, properties: &P, steps: &mut Steps) -> &Leaf
        requires { P.IsCurrent properties.now }
        ensures leaf { (f : ℕ → ℤ) → PropertiesAre P.gives properties.now f → result.now ≡ leaf_reached self.now f }
        ensures stands { StandsAtLeaf self.now.tree result.now }
        ensures multiplier { HasMultiplier result.now }
        ensures cost { steps.new ≤ steps.old + depth self.now.tree + 1 }
        ensures more { steps.old ≤ steps.new }
        ensures half { MeetsOnce self.now.tree → steps.new ≤ steps.old + (depth self.now.tree + 1) / 2 + 1 }
        ensures two { (p : ℕ) → 2 ≤ p → p ≤ 15 → TestsOnly p self.now.tree → CutsWithin 1022 self.now.tree
            → Reaches 4 self.now.tree → steps.new ≡ steps.old + 2 }
    {
        self.compiled.leaf(properties, steps)
    }

    /// Reads the token of the leaf to which these properties lead, from the leaf's cluster and with
    /// this multiplier of distances: the sample before its prediction, in 32 bits, and how it is
    /// predicted.
    ///
    /// The clusters of the tree's leaves are those of the decoder.
    ///
    /// # Errors
    ///
    /// `Decoder`, and no other; it leaves decoder and reader as they were.
    pub fn decode_sample<D: Decoder, P: PlaceProperties>(
        &self,
        bits: &mut Bitstream<'_>,
        decoder: &mut D,
        properties: &P,
        dist_multiplier: u32,
    ) -> Result<(i32, Predictor)>
        requires clusters { ClustersStandIn (D.meaning.cluster_map decoder.old) self.now.tree }
        requires current { P.IsCurrent properties.now }
        ensures gives { (f : ℕ → ℤ) → PropertiesAre P.gives properties.now f → SampleGives D.meaning dist_multiplier
            (leaf_reached self.now f) result decoder.old decoder.new bits.old bits.new }
        ensures clusters { IfOk result (λ _. D.meaning.cluster_map decoder.new ≡ D.meaning.cluster_map decoder.old) }
        ensures bytes { bytes_of bits.new ≡ bytes_of bits.old }
    {
        let leaf = self.leaf(properties, &mut Steps::new());
        let token = decoder.read_varint_with_multiplier_clustered(
            bits,
            leaf.cluster,
            dist_multiplier,
        )?;
        Ok((residual(leaf, token), leaf.predictor))
    }
}

/// The walk of a flat tree is that of the whole tree by the properties of the cell, where the
/// earlier channels are not more than those that it may ask for.
pub fn a_flat_tree_walks_by_properties()
    ensures { (t : FlatTree) (s : Surroundings) → length s.earlier ≤ t.prev_channels → leaf_reached t
        (place_property s) ≡ walk t.tree (property t.channel t.stream_idx s) }
{}

/// The steps of a sample are at most those of a walk of the whole tree; there are none for one leaf that predicts by
/// `Zero`, or by `Gradient` with offset 0 and multiplier 1, and there is one where one property has near cuts and the
/// leaves agree in all but the cluster.
pub fn a_sample_takes_few_steps()
    ensures most { (t : Shape Leaf) → most_steps t ≤ depth t + 1 }
    ensures none { (l : Leaf) → (l.predictor ≡ Zero) ⊎ IsPlainGradient l → most_steps (leaf l) ≡ 0 }
    ensures one { (t : Shape Leaf) (p : ℕ) → 2 ≤ p → p ≤ 15 → TestsOnly p t → CutsWithin 1022 t → Reaches 4 t
        → LeavesAgree t → most_steps t ≡ 1 }
{}

/// Where no decision is left once those that are known beforehand are taken, there is one flat node; so also where all
/// decisions ask for what is known: the channel, the stream, or an earlier channel that there is none of.
pub fn a_decided_tree_is_one_node()
    ensures left { (t : FlatTree) (l : Leaf) → prune t t.tree ≡ leaf l → flat_nodes t ≡ 1 }
    ensures known { (t : FlatTree) → AsksKnown t t.tree → flat_nodes t ≡ 1 }
{}
