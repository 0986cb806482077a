//! What a small tree is as sets of leaves.

ghost use Rattle.std.specs.Prelude.{◌≡◌, ℕ, ℤ, ◌-◌, ◌<◌, ◌≤◌, true, length};
ghost use Rattle.jxlm_tree.specs.SetTables.{stays};

use crate::flat::Leaf;

/// A tree as sets of leaves. Its leaves have numbers from left to right, and a set has a bit for each. For each of
/// properties 9 to 15 there is a table of sets: the set of a value has the leaves that no decision on the property
/// rules out at that value. The leaf to which the tree leads is the first one that is in the sets of all seven
/// properties.
#[derive(Drop)]
pub struct LeafSets {
    // The tables, one after another, of 2,048 sets each: the first set of a table serves all values up to -1024, each
    // other one the next greater value, and the last one all values from its own on.
    pub(crate) sets: Vec<u64>,
    // The leaves from left to right.
    pub(crate) leaves: Vec<Leaf>,
    pub(crate) ghost sized: { length sets.items ≡ 14336 },
    pub(crate) ghost some: { 0 < length leaves.items },
    pub(crate) ghost few: { length leaves.items ≤ 64 },
    pub(crate) ghost last: { (f : ℕ → ℤ) → stays sets.items f (length leaves.items - 1) ≡ true },
}
