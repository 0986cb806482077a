//! For how many channels after one the decisions that are known beforehand are taken alike.

ghost use Rattle.std.specs.Prelude.{◌≡◌, ◌≤◌, ◌<◌, ◌+◌, ◌^◌, ℕ, Bool, false};
ghost use Rattle.jxlm_ma_tree.specs.TakenAlike.{goes_alike};
ghost use Rattle.jxlm_ma_tree.specs.Pruned.{EndsAt, known as known_of, known_side, later, pruned, taken};
ghost use Rattle.jxlm_ma_tree.specs.TreeShape.{shape_of};
ghost use Rattle.jxlm_ma_tree.specs.Tree.{Shape};
ghost use Rattle.jxlm_ma_tree.specs.declared.leaf.Leaf.{Leaf};

use crate::marks::{Known, known_value};
use crate::tree::MaTreeNode;

// For how many channels after this one, each with one earlier channel more, one decision is taken alike, or stays
// open; for the one after these it is taken otherwise, unless it is `u32::MAX`.
fn decision_alike(known: &Known, property: u32, value: i32) -> u32
    ensures taken { (k : ℕ) → k ≤ result → (left right : Shape Leaf) →
        taken (known_of (later known.now k) property) property value left right
        ≡ taken (known_of known.now property) property value left right }
    ensures steady { (k : ℕ) → k ≤ result
        → known_side (later known.now k) property value ≡ known_side known.now property value }
    ensures ends { result + 1 < 2 ^ 32 → (left right : Bool) → goes_alike
        (known_side (later known.now result) property value)
        (known_side (later known.now (result + 1)) property value) left right ≡ false }
{
    if property == 0 {
        return if known.channel > value {
            u32::MAX
        } else {
            (i64::from(value) - i64::from(known.channel)) as u32
        };
    }
    let named = property.saturating_sub(16) / 4;
    if property < 16 || named < known.prev_channels {
        return u32::MAX;
    }
    named - known.prev_channels
}

/// For how many channels after this one, each with one earlier channel more, the same is left of a tree once known
/// decisions are taken; for the one after these, one of them is taken otherwise, unless it is `u32::MAX`.
pub fn channels_alike(tree: &MaTreeNode, known: &Known) -> u32
    ensures same { (k : ℕ) → k ≤ result → pruned (later known.now k) (shape_of tree.now)
        ≡ pruned known.now (shape_of tree.now) }
    ensures ends { EndsAt known.now (shape_of tree.now) result }
{
    match tree {
        MaTreeNode::Leaf(_) => u32::MAX,
        MaTreeNode::Decision {
            property,
            value,
            left,
            right,
        } => {
            let here = decision_alike(known, *property, *value);
            let below = match known_value(known, *property) {
                None => channels_alike(left, known).min(channels_alike(right, known)),
                Some(x) => {
                    if x > *value {
                        channels_alike(left, known)
                    } else {
                        channels_alike(right, known)
                    }
                }
            };
            here.min(below)
        }
    }
}
