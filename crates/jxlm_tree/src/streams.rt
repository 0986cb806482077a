//! Compiled nodes that all streams share, of large trees that ask for the channel, but not for the stream.

ghost use Rattle.std.specs.Prelude.{◌≡◌, ◌≢◌, ◌≤◌, ◌<◌, ◌^◌, ℕ, false, true, IfOk, IfErr, IfSome, None};
ghost use Rattle.jxlm_bits.specs.ErrorKind.{NoMemory, kind_of};
ghost use Rattle.jxlm_tree.specs.FlatTree.{HasMultiplier};
ghost use Rattle.jxlm_tree.specs.Inner.Compiled.{IsCompiledFor};
ghost use Rattle.jxlm_tree.specs.Inner.Streams.{ServesStreams, asks_stream as tests_stream};
ghost use Rattle.jxlm_ma_tree.specs.Pruned.{tests_place};
ghost use Rattle.jxlm_ma_tree.specs.Tree.{AllLeaves, Shape, node_count};
ghost use Rattle.jxlm_ma_tree.specs.TreeShape.{shape_of};
ghost use Rattle.jxlm_ma_tree.specs.declared.leaf.Leaf.{Leaf};

use crate::flat::CompiledTree;
use jxlm_bits::error::Result;
use jxlm_ma_tree::tree::{MaTree, MaTreeNode};
use std::alloc::Global;
use std::rc::Rc;

/// The minimum number of nodes of a tree whose compiled nodes are kept for all streams.
const MANY_NODES: usize = 1024;

/// The compiled nodes of a tree for two runs of channels of every stream, with all earlier channels: those from channel 0
/// on, and those from the channel after them on.
#[derive(Drop)]
pub(crate) struct StreamNodes {
    first: Rc<CompiledTree>,
    /// The first channel of the second run.
    start: u32,
    second: Rc<CompiledTree>,
}

// Whether a decision of the tree asks for the stream.
fn asks_stream(tree: &MaTreeNode) -> bool
    ensures { result ≡ tests_stream (shape_of tree.now) }
{
    match tree {
        MaTreeNode::Leaf(_) => false,
        MaTreeNode::Decision {
            property,
            left,
            right,
            ..
        } => *property == 1 || asks_stream(left) || asks_stream(right),
    }
}

impl StreamNodes {
    /// The nodes of a tree that has 1,024 nodes or more, asks for the channel, and not for the stream; none of others.
    pub(crate) fn of(
        alloc: Global,
        tree: &MaTree,
        num_nodes: usize,
    ) -> Result<Option<Rc<StreamNodes>>>
        requires multipliers { AllLeaves HasMultiplier (shape_of tree.now.root) }
        requires few { node_count (shape_of tree.now.root) ≤ 2 ^ 26 }
        ensures serves { IfOk result (λ o. IfSome o (λ s. ServesStreams (shape_of tree.now.root) s.value)) }
        ensures none { 1024 ≤ num_nodes → tests_place (shape_of tree.now.root) ≡ true
            → tests_stream (shape_of tree.now.root) ≡ false → IfOk result (λ o. o ≢ None) }
        ensures err { IfErr result (λ e. kind_of e ≡ NoMemory) }
    {
        if num_nodes < MANY_NODES || !tree.tests_place || asks_stream(&tree.root) {
            return Ok(None);
        }
        let first = CompiledTree::new(alloc, tree, 0, 0, 0)?;
        let start = first.last_alike.saturating_add(1);
        let second = CompiledTree::new(alloc, tree, start, 0, start)?;
        let first = Rc::new(alloc, first)?;
        let second = Rc::new(alloc, second)?;
        let nodes = Rc::new(
            alloc,
            StreamNodes {
                first,
                start,
                second,
            },
        )?;
        Ok(Some(nodes))
    }

    /// The nodes for the samples of a channel of whatever stream, with all earlier channels.
    pub(crate) fn for_channel(&self, channel: u32) -> Result<Option<Rc<CompiledTree>>>
        ensures serves { (t : Shape Leaf) (stream : ℕ) → ServesStreams t self.now
            → IfOk result (λ o. IfSome o (λ c. IsCompiledFor t channel stream channel c.value)) }
        ensures none { IfOk result (λ o. o ≡ None → self.now.first.value.last_alike < channel) }
        ensures err { IfErr result (λ e. kind_of e ≡ NoMemory) }
    {
        if channel <= self.first.last_alike {
            let first = self.first.clone()?;
            return Ok(Some(first));
        }
        if self.start <= channel && channel <= self.second.last_alike {
            let second = self.second.clone()?;
            return Ok(Some(second));
        }
        Ok(None)
    }
}
