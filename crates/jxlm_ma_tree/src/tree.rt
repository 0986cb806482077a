//! The nodes of a tree.

ghost use Rattle.std.specs.Prelude.{◌≡◌, ◌≤◌, IfOk, IfErr};
ghost use Rattle.jxlm_bits.specs.ErrorKind.{kind_of};
ghost use Rattle.jxlm_ma_tree.specs.EarlierChannels.{earlier_of};
ghost use Rattle.jxlm_ma_tree.specs.EarlierChannels.{earlier_named};
ghost use Rattle.jxlm_ma_tree.specs.Pruned.{tests_place as tests_place_of};
ghost use Rattle.jxlm_ma_tree.specs.Inner.Queue.{IsTooDeepAt};
ghost use Rattle.jxlm_ma_tree.specs.Tree.{depth as depth_of, leaf as leaf_shape};
ghost use Rattle.jxlm_ma_tree.specs.TreeShape.{shape_of};

use crate::leaf::Leaf;
use jxlm_bits::bits::BitstreamError;
use jxlm_bits::error::Result;
use std::alloc::Global;

/// A node of a meta-adaptive tree, with all that is below it.
#[derive(Drop)]
pub enum MaTreeNode {
    /// What is done with the samples that come here.
    Leaf(Leaf),
    /// Samples whose property is greater than `value` go to the left, the others to the right.
    Decision {
        property: u32,
        value: i32,
        left: Box<MaTreeNode>,
        right: Box<MaTreeNode>,
    },
}

// Of which earlier channel a property is, from 1 on, each with four from property 16 on; 0 where it is of none.
fn earlier_of(property: u32) -> u32
    ensures { result ≡ earlier_of property }
{
    property.saturating_sub(12) / 4
}

/// A tree, whole or a part of one, with what is known of all its nodes.
#[derive(Drop)]
pub struct MaTree {
    pub root: MaTreeNode,
    /// The maximum number of decisions from the root to a leaf.
    pub depth: usize,
    /// Whether the channel or the stream, property 0 or 1, is asked for.
    pub tests_place: bool,
    /// How many earlier channels can be asked for: the farthest of which a property is in it.
    pub prev_channels_named: u32,
    pub ghost depth_is: { depth ≡ depth_of (shape_of root) },
    pub ghost place_is: { tests_place ≡ tests_place_of (shape_of root) },
    pub ghost named_is: { prev_channels_named ≡ earlier_named (shape_of root) },
}

impl MaTree {
    ghost use Rattle.jxlm_ma_tree.specs.Inner.Building.{decision_of};

    /// A tree of one leaf.
    pub(crate) fn leaf(leaf: Leaf) -> MaTree
        ensures tree { shape_of result.root ≡ leaf_shape leaf }
        ensures depth { result.depth ≡ 0 }
    {
        MaTree {
            root: MaTreeNode::Leaf(leaf),
            depth: 0,
            tests_place: false,
            prev_channels_named: 0,
        }
    }

    /// A decision over two trees. Nothing deeper than the limit is ever put together.
    pub(crate) fn decision(
        alloc: Global,
        property: u32,
        value: i32,
        left: MaTree,
        right: MaTree,
        depth_limit: usize,
    ) -> Result<MaTree>
        ensures tree { IfOk result (λ t. shape_of t.root ≡ decision_of property value left right) }
        ensures depth { IfOk result (λ t. t.depth ≤ depth_limit) }
        ensures err { IfErr result (λ e. IsTooDeepAt depth_limit (decision_of property value left right) (kind_of e)) }
    {
        let below = left.depth.max(right.depth);
        if below >= depth_limit {
            return Err(BitstreamError::ProfileConformance("decoded MA tree is too deep").into());
        }
        let tests_place = property < 2 || left.tests_place || right.tests_place;
        let named = left.prev_channels_named.max(right.prev_channels_named);
        let left = Box::new(alloc, left.root)?;
        let right = Box::new(alloc, right.root)?;
        Ok(MaTree {
            root: MaTreeNode::Decision {
                property,
                value,
                left,
                right,
            },
            depth: below + 1,
            tests_place,
            prev_channels_named: named.max(earlier_of(property)),
        })
    }
}
