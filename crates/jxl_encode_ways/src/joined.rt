//! Two trees joined under a decision. What a tree is like is a heuristic: no sample depends on it.

use jxlm_base::grid::OutOfMemory;
use jxlm_encode_write::tree::EncodeNode;
use std::alloc::Global;

/// The most levels of a tree that is joined.
const MOST_LEVELS: usize = 128;

/// The property that is the number of the channel.
pub(crate) const CHANNEL: u32 = 0;

/// A tree that is read level by level.
#[derive(Clone, Copy)]
pub(crate) struct Levels<'a> {
    nodes: &'a [EncodeNode],
    clusters: &'a [u8],
    // The next node and the next leaf, and how many nodes the next level has.
    node: usize,
    leaf: usize,
    width: usize,
    // What is added to clusters, and to the numbers of channels.
    shift: u8,
    channels: i32,
}

impl Levels<'_> {
    /// A tree from its root on, whose clusters and channels come after others of these numbers.
    pub(crate) fn new<'a>(
        nodes: &'a [EncodeNode],
        clusters: &'a [u8],
        shift: u8,
        channels: i32,
    ) -> Levels<'a> {
        Levels {
            nodes,
            clusters,
            node: 0,
            leaf: 0,
            width: 1,
            shift,
            channels,
        }
    }

    /// Adds the nodes and clusters of the next level.
    fn add_level(&mut self, tree: &mut JoinedTree) -> Result<(), OutOfMemory> {
        let mut decisions: usize = 0;
        for _ in 0..self.width {
            let Some(node) = self.nodes.get(self.node).copied() else {
                break;
            };
            self.node = self.node.saturating_add(1);
            match node {
                EncodeNode::Decision { property, value } => {
                    let behind = if property == CHANNEL {
                        self.channels
                    } else {
                        0
                    };
                    let value = value.saturating_add(behind);
                    tree.nodes.push(EncodeNode::Decision { property, value })?;
                    decisions = decisions.saturating_add(1);
                }
                leaf => {
                    tree.nodes.push(leaf)?;
                    let cluster = self.clusters.get(self.leaf).copied().unwrap_or(0);
                    self.leaf = self.leaf.saturating_add(1);
                    tree.clusters.push(cluster.saturating_add(self.shift))?;
                }
            }
        }
        self.width = decisions.saturating_mul(2);
        Ok(())
    }
}

/// A tree, level by level, with the clusters of its leaves.
#[derive(Drop)]
pub(crate) struct JoinedTree {
    pub(crate) nodes: Vec<EncodeNode>,
    pub(crate) clusters: Vec<u8>,
}

/// The tree whose samples go on to the first tree where the property is greater than the value, and to the second
/// elsewhere.
pub(crate) fn joined(
    alloc: Global,
    property: u32,
    value: i32,
    greater: Levels<'_>,
    others: Levels<'_>,
) -> Result<JoinedTree, OutOfMemory> {
    let mut tree = JoinedTree {
        nodes: Vec::new(alloc),
        clusters: Vec::new(alloc),
    };
    tree.nodes.push(EncodeNode::Decision { property, value })?;
    let mut greater = greater;
    let mut others = others;
    for _ in 0..MOST_LEVELS {
        greater.add_level(&mut tree)?;
        others.add_level(&mut tree)?;
    }
    Ok(tree)
}
