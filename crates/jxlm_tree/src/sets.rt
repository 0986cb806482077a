//! How small trees are made into sets of leaves.
//!
//! The leaves have numbers, from left to right. A decision that is answered to the right rules out the leaves of its
//! left side, so the leaf that is reached is the first one that no decision rules out.

ghost use Rattle.std.specs.Prelude.{◌≡◌, ℕ, ℤ, ◌+◌, ◌<◌, ◌≤◌, ◌++◌, ◌&&◌, not, int_lt, true, length, min, None, slice_index, IfOk, IfErr, IfSome, OnOk};
ghost use Rattle.jxlm_bits.specs.ErrorKind.{NoMemory, kind_of};
ghost use Rattle.jxlm_tree.specs.LeafSets.{AreSetsOf};
ghost use Rattle.jxlm_tree.specs.SmallTrees.{FitsSets, TakesSets, has_table, is_in_range, is_served, leaves_of};
ghost use Rattle.jxlm_tree.specs.SetTables.{has, stays};
ghost use Rattle.jxlm_tree.specs.Inner.LeafSets.{AreOf, is_within, rules_out};
ghost use Rattle.jxlm_ma_tree.specs.Pruned.{pruned};
ghost use Rattle.jxlm_ma_tree.specs.TreeShape.{shape_of};

use crate::flat::{FlatMaTree, Leaf, entry_of};
use crate::leaf_sets::LeafSets;
use crate::steps::Steps;
use jxlm_bits::error::Result;
use jxlm_ma_tree::marks::{Known, known_value};
use jxlm_ma_tree::tree::MaTreeNode;
use jxlm_weighted::reduced::read_as_signed;
use std::alloc::{AllocError, Global};

/// The maximum value that the first set of a table serves.
pub(crate) const BASE: i32 = -1024;

/// How many sets a table has.
pub(crate) const ENTRIES: usize = 2048;

/// The property of the first table.
const FIRST_PROPERTY: u32 = 9;

/// How many properties have a table, from the first one on.
const TABLES: usize = 7;

/// The maximum number of leaves: a set has a bit for each.
const MOST_LEAVES: usize = 64;

// The set of the leaves from `first` to before `end`.
fn leaves_between(first: usize, end: usize) -> u64
    requires order { first ≤ end }
    requires few { end < 64 }
    ensures { (i : ℕ) → has result i ≡ is_within first end i }
{
    (1u64 << end) - (1u64 << first)
}

// Takes these leaves out of the sets from `from` to before `end`.
fn take_out(sets: &mut [u64], from: usize, end: usize, leaves: u64)
    requires order { from ≤ end }
    requires inside { end ≤ length sets.old }
    ensures { (e i : ℕ) → e < length sets.old → i < 64 → has (slice_index sets.new e) i
        ≡ (has (slice_index sets.old e) i && not (is_within from end e && has leaves i)) }
{
    for entry in from..end {
        sets[entry] &= !leaves;
    }
}

// Rules out the leaves from `first` to before `end` where this property is not greater than `value`.
fn rule_out(sets: &mut [u64], property: u32, value: i32, first: usize, end: usize)
    requires sized { length sets.old ≡ 14336 }
    requires table { has_table property ≡ true }
    requires range { is_in_range value ≡ true }
    requires order { first ≤ end }
    requires few { end < 64 }
    ensures { (f : ℕ → ℤ) (i : ℕ) → i < 64 → stays sets.new f i
        ≡ (stays sets.old f i && not (not (int_lt value (f property)) && is_within first end i)) }
{
    let leaves = leaves_between(first, end);
    let from = (property - FIRST_PROPERTY) as usize * ENTRIES;
    let last = entry_of(BASE, ENTRIES - 1, value);
    take_out(sets, from, from + last + 1, leaves);
}

// How many leaves are left of a tree once known decisions are taken, up to this number: leaves after these are not
// looked at.
fn count_leaves(tree: &MaTreeNode, known: &Known, most: usize) -> usize
    ensures { result ≡ min (length (leaves_of (pruned known.now (shape_of tree.now)))) most }
{
    if most == 0 {
        return 0;
    }
    match tree {
        MaTreeNode::Leaf(_) => 1,
        MaTreeNode::Decision {
            property,
            value,
            left,
            right,
        } => match known_value(known, *property) {
            None => {
                let first = count_leaves(left, known, most);
                first + count_leaves(right, known, most - first)
            }
            Some(x) => {
                if x > *value {
                    count_leaves(left, known, most)
                } else {
                    count_leaves(right, known, most)
                }
            }
        },
    }
}

// Whether this property has a table, whose entries tell the values up to this one from all others.
fn is_cut_served(property: u32, value: i32) -> bool
    ensures { result ≡ (has_table property && is_in_range value) }
{
    9 <= property && property < 16 && BASE <= value && value < BASE + ENTRIES as i32 - 1
}

// Whether all decisions of a tree are on properties that have tables and cut in their range, once known decisions are
// taken.
fn is_served(tree: &MaTreeNode, known: &Known) -> bool
    ensures { result ≡ is_served (pruned known.now (shape_of tree.now)) }
{
    match tree {
        MaTreeNode::Leaf(_) => true,
        MaTreeNode::Decision {
            property,
            value,
            left,
            right,
        } => match known_value(known, *property) {
            None => is_cut_served(*property, *value)
                && is_served(left, known)
                && is_served(right, known),
            Some(x) => {
                if x > *value {
                    is_served(left, known)
                } else {
                    is_served(right, known)
                }
            }
        },
    }
}

// Adds the leaves of a tree, without those of known decisions, and what its decisions rule out.
fn add(
    tree: &MaTreeNode,
    known: &Known,
    sets: &mut [u64],
    leaves: &mut Vec<Leaf>,
) -> std::result::Result<(), AllocError>
    requires sized { length sets.old ≡ 14336 }
    requires served { is_served (pruned known.now (shape_of tree.now)) ≡ true }
    requires few { length leaves.old.items + length (leaves_of (pruned known.now (shape_of tree.now))) ≤ 64 }
    ensures leaves { OnOk result (leaves.new.items ≡ leaves.old.items
        ++ leaves_of (pruned known.now (shape_of tree.now))) }
    ensures stays { OnOk result ((f : ℕ → ℤ) (i : ℕ) → i < 64 → stays sets.new f i
        ≡ (stays sets.old f i
        && not (rules_out (length leaves.old.items) (pruned known.now (shape_of tree.now)) f i))) }
{
    match tree {
        MaTreeNode::Leaf(leaf) => leaves.push(*leaf)?,
        MaTreeNode::Decision {
            property,
            value,
            left,
            right,
        } => match known_value(known, *property) {
            None => {
                let first = leaves.len();
                add(left, known, sets, leaves)?;
                rule_out(sets, *property, *value, first, leaves.len());
                add(right, known, sets, leaves)?;
            }
            Some(x) => {
                if x > *value {
                    add(left, known, sets, leaves)?;
                } else {
                    add(right, known, sets, leaves)?;
                }
            }
        },
    }
    Ok(())
}

impl LeafSets {
    // The sets of what is left of a tree once known decisions are taken, where it is small and of this depth.
    fn of(
        alloc: Global,
        tree: &MaTreeNode,
        known: &Known,
        deep: usize,
    ) -> std::result::Result<Option<LeafSets>, AllocError>
        ensures sets { IfOk result (λ o. IfSome o (AreOf (pruned known.now (shape_of tree.now)) deep)) }
        ensures none { IfOk result (λ o. o ≡ None → FitsSets (pruned known.now (shape_of tree.now)) deep → ⊥) }
    {
        let count = count_leaves(tree, known, MOST_LEAVES + 1);
        if deep < TABLES || count > MOST_LEAVES || !is_served(tree, known) {
            return Ok(None);
        }
        let mut sets = vec![in alloc; u64::MAX; TABLES * ENTRIES]?;
        let mut leaves = Vec::new(alloc);
        add(tree, known, &mut sets, &mut leaves)?;
        Ok(Some(LeafSets { sets, leaves }))
    }
}

impl FlatMaTree {
    /// The tree as sets of leaves, by which a leaf is found with no chain of look-ups, where the tree is small. It is
    /// small if it has at most 64 leaves and a depth of at least seven, and all its decisions are on properties 9 to 15
    /// with values in -1024 to 1022.
    ///
    /// # Errors
    ///
    /// `Buffer` if it is out of memory, and no other.
    pub fn leaf_sets(&self, alloc: Global) -> Result<Option<LeafSets>>
        ensures sets { IfOk result (λ o. IfSome o (AreSetsOf self.now)) }
        ensures none { IfOk result (λ o. o ≡ None → TakesSets self.now → ⊥) }
        ensures err { IfErr result (λ e. kind_of e ≡ NoMemory) }
    {
        let known = Known {
            channel: read_as_signed(self.channel),
            stream: read_as_signed(self.stream_idx),
            prev_channels: self.prev_channels,
        };
        Ok(LeafSets::of(alloc, &self.tree.root, &known, self.tree.depth)?)
    }
}
