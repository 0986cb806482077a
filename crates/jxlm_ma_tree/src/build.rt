//! How a tree is put together from the end of its listing.

ghost use Rattle.std.specs.Prelude.{◌≡◌, ◌+◌, ◌≤◌, ◌∷◌, List, length, map, IfOk, IfErr, IsSome, Some};
ghost use Rattle.jxlm_bits.specs.ErrorKind.{kind_of};
ghost use Rattle.jxlm_ma_tree.specs.Inner.Building.{leaves_in, listed_of, listing_with, queue_with, trees_in};
ghost use Rattle.jxlm_ma_tree.specs.Inner.DraftReading.{AllDrafts, ListsTrees, node_of};
ghost use Rattle.jxlm_ma_tree.specs.Inner.Queue.{IsErrorInQueue, IsTooDeepListing, deepest};
ghost use Rattle.jxlm_ma_tree.specs.Tree.{AllLeaves, Node, levels, node_count};
ghost use Rattle.jxlm_ma_tree.specs.TreeReading.{IsLeafOf, leaf_count, with_clusters};
ghost use Rattle.jxlm_ma_tree.specs.TreeShape.{shape_of};
ghost use Rattle.jxlm_ma_tree.specs.declared.leaf.Leaf.{Leaf};

use crate::leaf::Leaf;
use crate::nodes::DraftNode;
use crate::tree::MaTree;
use jxlm_bits::error::Result;
use std::alloc::Global;
use std::collections::VecDeque;

// A node of a listing whose leaves have their clusters.
#[derive(Clone, Copy)]
pub enum ListedNode {
    Leaf(Leaf),
    Decision { property: u32, value: i32 },
}

// The last of the leaves that have no cluster yet gets the last of their clusters.
fn numbered(node: DraftNode, clusters: &[u8], unnumbered: &mut usize) -> ListedNode
    requires some { leaves_in (node_of node) ≤ unnumbered.old }
    requires within { unnumbered.old ≤ length clusters.now }
    ensures node { (ns : List (Node Leaf)) → with_clusters clusters.now unnumbered.new (node_of node ∷ ns)
        ≡ listed_of result ∷ with_clusters clusters.now unnumbered.old ns }
    ensures left { unnumbered.old ≡ unnumbered.new + leaves_in (node_of node) }
{
    match node {
        DraftNode::Leaf(draft) => {
            *unnumbered -= 1;
            ListedNode::Leaf(draft.in_cluster(clusters[*unnumbered]))
        }
        DraftNode::Decision { property, value } => ListedNode::Decision { property, value },
    }
}

// A leaf goes to the back of the queue; a decision takes its right and then its left tree from the
// front, and goes to the back.
fn take_up(
    alloc: Global,
    queue: &mut VecDeque<MaTree>,
    node: ListedNode,
    depth_limit: usize,
) -> Result<()>
    requires enough { IsSome (queue_with node queue.old.items) }
    requires shallow { deepest (trees_in queue.old.items) ≤ depth_limit }
    ensures queue { IfOk result (λ _. queue_with node queue.old.items ≡ Some (trees_in queue.new.items)) }
    ensures shallow { IfOk result (λ _. deepest (trees_in queue.new.items) ≤ depth_limit) }
    ensures err { IfErr result (λ e. IsErrorInQueue depth_limit (queue_with node queue.old.items) (kind_of e)) }
{
    let tree = match node {
        ListedNode::Leaf(leaf) => MaTree::leaf(leaf),
        ListedNode::Decision { property, value } => {
            let right = queue.pop_front().unwrap();
            let left = queue.pop_front().unwrap();
            MaTree::decision(alloc, property, value, left, right, depth_limit)?
        }
    };
    queue.push_back(tree)?;
    Ok(())
}

/// The tree of these nodes, whose leaves have these clusters in their order.
pub fn build(
    alloc: Global,
    mut nodes: Vec<DraftNode>,
    clusters: &[u8],
    depth_limit: usize,
) -> Result<MaTree>
    requires listing { ListsTrees 1 (map node_of nodes.items) }
    requires clusters { length clusters.now ≡ leaf_count (map node_of nodes.items) }
    requires drafts { AllDrafts (map node_of nodes.items) }
    ensures levels { IfOk result (λ t. levels (shape_of t.root) ≡ listing_with clusters.now nodes.items) }
    ensures depth { IfOk result (λ t. t.depth ≤ depth_limit) }
    ensures count { IfOk result (λ t. node_count (shape_of t.root) ≡ length nodes.items) }
    ensures leaves { IfOk result (λ t. AllLeaves (IsLeafOf clusters.now) (shape_of t.root)) }
    ensures err { IfErr result (λ e. IsTooDeepListing depth_limit (listing_with clusters.now nodes.items) (kind_of e)) }
{
    let mut queue: VecDeque<MaTree> = VecDeque::new(alloc);
    let mut unnumbered = clusters.len();
    while let Some(node) = nodes.pop() {
        let node = numbered(node, clusters, &mut unnumbered);
        take_up(alloc, &mut queue, node, depth_limit)?;
    }
    Ok(queue.pop_front().unwrap())
}
