//! Which trees ask for property 9 alone, so that it can be clamped.

ghost use Rattle.std.specs.Prelude.{◌≡◌, ◌||◌, ℤ, false, true};
ghost use Rattle.jxlm_tree.specs.SumTrees.{GoesBySum, KeepsSums, is_sum_cut as sum_cut, is_sum_leaf as sum_leaf, takes_sums as sums_taken, takes_sums_at};
ghost use Rattle.jxlm_ma_tree.specs.TreeShape.{shape_of};

use crate::flat::{FlatMaTree, Leaf};
use jxlm_ma_tree::tree::MaTreeNode;
use jxlm_predictor::predictor::Predictor;
use jxlm_weighted::reduced::read_as_signed;

// Whether a leaf predicts by the gradient: with an offset and a multiplier of 8 bits where cuts are near, with offset 0 and
// multiplier 1 where they are wide.
fn is_sum_leaf(wide: bool, leaf: &Leaf) -> bool
    ensures { result ≡ sum_leaf wide leaf.now }
{
    if wide {
        leaf.predictor == Predictor::Gradient && leaf.offset == 0 && leaf.multiplier == 1
    } else {
        leaf.predictor == Predictor::Gradient
            && leaf.offset >= -128
            && leaf.offset <= 127
            && leaf.multiplier <= 127
    }
}

// Whether a cut is near, or wide.
fn is_sum_cut(wide: bool, value: i32) -> bool
    ensures { result ≡ sum_cut wide value }
{
    if wide {
        value >= -8193 && value <= 8190
    } else {
        value >= -513 && value <= 510
    }
}

// Whether the tree asks for property 9 alone, with such cuts and leaves, for the samples of a channel and a stream with these
// properties 0 and 1.
fn takes_sums(tree: &MaTreeNode, wide: bool, channel: i32, stream: i32) -> bool
    ensures { result ≡ sums_taken wide channel stream (shape_of tree.now) }
{
    match tree {
        MaTreeNode::Leaf(leaf) => is_sum_leaf(wide, leaf),
        MaTreeNode::Decision {
            property,
            value,
            left,
            right,
        } => {
            if *property < 2 {
                let known = if *property == 0 { channel } else { stream };
                if known > *value {
                    takes_sums(left, wide, channel, stream)
                } else {
                    takes_sums(right, wide, channel, stream)
                }
            } else {
                *property == 9
                    && is_sum_cut(wide, *value)
                    && takes_sums(left, wide, channel, stream)
                    && takes_sums(right, wide, channel, stream)
            }
        }
    }
}

// The same with near cuts or with wide ones.
fn takes_some_sums(tree: &MaTreeNode, channel: i32, stream: i32) -> bool
    ensures { result ≡ (sums_taken false channel stream (shape_of tree.now)
        || sums_taken true channel stream (shape_of tree.now)) }
{
    takes_sums(tree, false, channel, stream) || takes_sums(tree, true, channel, stream)
}

impl FlatMaTree {
    /// Whether the tree asks for property 9 alone, once the decisions on the channel and the stream are taken, and all its
    /// leaves predict by the gradient: with cuts from -513 to 510 and leaves with an offset and a multiplier of 8 bits, or
    /// with cuts from -8193 to 8190 and leaves with offset 0 and multiplier 1.
    pub fn takes_sums(&self) -> bool
        ensures value { result ≡ takes_sums_at self.now.channel self.now.stream_idx self.now.tree }
        ensures goes { result ≡ true → GoesBySum self.now }
        ensures keeps { result ≡ true → KeepsSums self.now }
    {
        let channel = read_as_signed(self.channel);
        let stream = read_as_signed(self.stream_idx);
        takes_some_sums(&self.tree.root, channel, stream)
    }
}
