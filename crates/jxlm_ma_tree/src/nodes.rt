//! How the nodes of a tree are read, level by level.

ghost use Rattle.std.specs.Prelude.{◌≡◌, ◌≤◌, ◌<◌, ◌^◌, length, map, IfOk, IfErr};
ghost use Rattle.jxlm_bits.specs.Bits.{bytes_of};
ghost use Rattle.jxlm_bits.specs.ErrorKind.{kind_of};
ghost use Rattle.jxlm_ma_tree.specs.Inner.DraftReading.{AllDrafts, IsDraft, IsDraftNode, ListGives, ListsTrees, StepGives, StepsGive, draft_of, is_endless as has_no_end, node_of};
ghost use Rattle.jxlm_ma_tree.specs.TreeReading.{children as children_of, drafts_at, leaf_at, limit_error, max_nodes, multiplier_at, node_at, nodes_at, predictor_at, read_context as token_of};

use crate::leaf::Leaf;
use jxlm_base::sample::Sealed;
use jxlm_bits::bits::{Bitstream, BitstreamError};
use jxlm_bits::decoder::Decoder;
use jxlm_bits::error::{Error, Result};
use jxlm_predictor::predictor::Predictor;
use std::alloc::Global;

// No tree has more nodes.
const MAX_NODES: usize = 1 << 26;

// A leaf without its cluster, which comes from the leaves' decoder.
#[derive(Clone, Copy)]
pub struct Draft {
    pub predictor: Predictor,
    pub offset: i32,
    pub multiplier: u32,
}

impl Draft {
    /// The leaf, with this cluster.
    pub fn in_cluster(self, cluster: u8) -> Leaf
        ensures { result ≡ record (draft_of self) { cluster = cluster } }
    {
        Leaf {
            cluster,
            predictor: self.predictor,
            offset: self.offset,
            multiplier: self.multiplier,
        }
    }
}

// A node as it is read.
#[derive(Clone, Copy)]
pub enum DraftNode {
    Leaf(Draft),
    Decision { property: u32, value: i32 },
}

impl DraftNode {
    // How many nodes are below it, side by side.
    fn children(&self) -> usize
        ensures { result ≡ children_of (node_of self.now) }
    {
        match self {
            DraftNode::Leaf(_) => 0,
            DraftNode::Decision { .. } => 2,
        }
    }
}

fn is_endless<D: Decoder>(decoder: &D) -> bool
    requires { length (D.meaning.cluster_map decoder.now) ≡ 6 }
    ensures { result ≡ has_no_end D.meaning decoder.now }
{
    let cluster = decoder.cluster_map()[1];
    decoder.single_token(cluster).unwrap_or(0) > 0
}

#[tactic(auto, unfolding(crate::specs::TreeReading::drafts_at))]
pub fn read_tree<D: Decoder>(
    alloc: Global,
    decoder: &mut D,
    bits: &mut Bitstream<'_>,
    node_limit: usize,
) -> Result<Vec<DraftNode>>
    requires contexts { length (D.meaning.cluster_map decoder.old) ≡ 6 }
    requires nodes { node_limit ≤ 2 ^ 26 }
    ensures gives { ListGives (λ x. map node_of x.items) result decoder.old bits.old bits.new
        (λ bytes. drafts_at D.meaning bytes node_limit) }
    ensures within { IfOk result (λ x. AllDrafts (map node_of x.items)) }
    ensures listing { IfOk result (λ x. ListsTrees 1 (map node_of x.items)) }
    ensures count { IfOk result (λ x. length x.items ≤ 2 ^ 26) }
    ensures bytes { bytes_of bits.new ≡ bytes_of bits.old }
{
    if is_endless(decoder) {
        return Err(Error::InvalidMaTree);
    }
    decoder.begin(bits)?;
    let nodes = read_nodes(alloc, decoder, bits, node_limit)?;
    decoder.finalize()?;
    Ok(nodes)
}

fn read_nodes<D: Decoder>(
    alloc: Global,
    decoder: &mut D,
    bits: &mut Bitstream<'_>,
    node_limit: usize,
) -> Result<Vec<DraftNode>>
    requires contexts { length (D.meaning.cluster_map decoder.old) ≡ 6 }
    requires nodes { node_limit ≤ 2 ^ 26 }
    ensures gives { StepsGive (λ x. map node_of x.items) result decoder.old decoder.new bits.old bits.new
        (λ bytes. nodes_at D.meaning bytes (limit_error node_limit) (max_nodes node_limit) 1) }
    ensures within { IfOk result (λ x. AllDrafts (map node_of x.items)) }
    ensures count { IfOk result (λ x. length x.items ≤ 2 ^ 26) }
    ensures bytes { bytes_of bits.new ≡ bytes_of bits.old }
{
    let mut nodes = Vec::new(alloc);
    let mut missing = 1usize;
    while missing > 0 {
        check_room(nodes.len(), node_limit)?;
        let node = read_node(decoder, bits)?;
        missing = missing - 1 + node.children();
        nodes.push(node)?;
    }
    Ok(nodes)
}

fn check_room(read: usize, node_limit: usize) -> Result<()>
    requires { read ≤ max_nodes node_limit }
    ensures ok { IfOk result (λ _. read < max_nodes node_limit) }
    ensures err { IfErr result (λ e. (read ≡ max_nodes node_limit) × (kind_of e ≡ limit_error node_limit)) }
{
    if read >= MAX_NODES {
        return Err(Error::InvalidMaTree);
    }
    if read > node_limit {
        return Err(BitstreamError::ProfileConformance("MA tree limit exceeded").into());
    }
    Ok(())
}

#[tactic(auto, unfolding(crate::specs::TreeReading::node_at))]
fn read_node<D: Decoder>(decoder: &mut D, bits: &mut Bitstream<'_>) -> Result<DraftNode>
    requires { length (D.meaning.cluster_map decoder.old) ≡ 6 }
    ensures gives { StepGives node_of result decoder.old decoder.new bits.old bits.new (node_at D.meaning) }
    ensures within { IfOk result (λ x. IsDraftNode (node_of x)) }
    ensures clusters { IfOk result (λ _. D.meaning.cluster_map decoder.new ≡ D.meaning.cluster_map decoder.old) }
    ensures bytes { bytes_of bits.new ≡ bytes_of bits.old }
{
    let kind = read_context(decoder, bits, 1)?;
    if kind == 0 {
        let leaf = read_leaf(decoder, bits)?;
        return Ok(DraftNode::Leaf(leaf));
    }
    let value = i32::unpack_signed_u32(read_context(decoder, bits, 0)?);
    Ok(DraftNode::Decision {
        property: kind - 1,
        value,
    })
}

#[tactic(auto, unfolding(crate::specs::TreeReading::leaf_at))]
fn read_leaf<D: Decoder>(decoder: &mut D, bits: &mut Bitstream<'_>) -> Result<Draft>
    requires { length (D.meaning.cluster_map decoder.old) ≡ 6 }
    ensures gives { StepGives draft_of result decoder.old decoder.new bits.old bits.new (leaf_at D.meaning) }
    ensures within { IfOk result (λ x. IsDraft (draft_of x)) }
    ensures clusters { IfOk result (λ _. D.meaning.cluster_map decoder.new ≡ D.meaning.cluster_map decoder.old) }
    ensures bytes { bytes_of bits.new ≡ bytes_of bits.old }
{
    let predictor = read_predictor(decoder, bits)?;
    let offset = i32::unpack_signed_u32(read_context(decoder, bits, 3)?);
    let multiplier = read_multiplier(decoder, bits)?;
    Ok(Draft {
        predictor,
        offset,
        multiplier,
    })
}

#[tactic(auto, unfolding(crate::specs::TreeReading::predictor_at))]
fn read_predictor<D: Decoder>(decoder: &mut D, bits: &mut Bitstream<'_>) -> Result<Predictor>
    requires { length (D.meaning.cluster_map decoder.old) ≡ 6 }
    ensures gives { StepGives (λ x. x) result decoder.old decoder.new bits.old bits.new (predictor_at D.meaning) }
    ensures clusters { IfOk result (λ _. D.meaning.cluster_map decoder.new ≡ D.meaning.cluster_map decoder.old) }
    ensures bytes { bytes_of bits.new ≡ bytes_of bits.old }
{
    let number = read_context(decoder, bits, 2)?;
    Ok(Predictor::try_from(number)?)
}

#[tactic(auto, unfolding(crate::specs::TreeReading::multiplier_at))]
fn read_multiplier<D: Decoder>(decoder: &mut D, bits: &mut Bitstream<'_>) -> Result<u32>
    requires { length (D.meaning.cluster_map decoder.old) ≡ 6 }
    ensures gives { StepGives (λ x. x) result decoder.old decoder.new bits.old bits.new (multiplier_at D.meaning) }
    ensures range { IfOk result (λ x. (1 ≤ x) × (x < 2 ^ 31)) }
    ensures clusters { IfOk result (λ _. D.meaning.cluster_map decoder.new ≡ D.meaning.cluster_map decoder.old) }
    ensures bytes { bytes_of bits.new ≡ bytes_of bits.old }
{
    let log = read_context(decoder, bits, 4)?;
    if log > 30 {
        return Err(Error::InvalidMaTree);
    }
    let factor = read_context(decoder, bits, 5)?;
    if factor > (1 << (31 - log)) - 2 {
        return Err(Error::InvalidMaTree);
    }
    Ok((factor + 1) << log)
}

fn read_context<D: Decoder>(decoder: &mut D, bits: &mut Bitstream<'_>, context: u32) -> Result<u32>
    requires { context < length (D.meaning.cluster_map decoder.old) }
    ensures gives { StepGives (λ x. x) result decoder.old decoder.new bits.old bits.new
        (λ bytes. token_of D.meaning bytes context) }
    ensures clusters { IfOk result (λ _. D.meaning.cluster_map decoder.new ≡ D.meaning.cluster_map decoder.old) }
    ensures bytes { bytes_of bits.new ≡ bytes_of bits.old }
{
    Ok(decoder.read_varint(bits, context)?)
}
