//! The leaf that the sets of leaves of a small tree leave over.

ghost use Rattle.std.specs.Prelude.{◌≡◌, ◌↔◌, ℕ, ℤ, ◌+◌, ◌*◌, ◌<◌, ◌≤◌, IsTrue, true, List, [], ◌∷◌, slice_index, slice_index_or, pos, neg_ℤ};
ghost use Rattle.jxlm_tree.specs.FlatTree.{FlatTree, HasMultiplier, leaf_reached};
ghost use Rattle.jxlm_tree.specs.LeafSets.{AreOwnOf, AreSetsOf, IsFirst, IsListed};
ghost use Rattle.jxlm_tree.specs.SetTables.{has, stays};
ghost use Rattle.jxlm_tree.specs.ClusterTables.{slot};
ghost use Rattle.jxlm_tree.specs.Inner.LeafSets.{AreEntriesOf, AreValuesOf, is_near};
ghost use Rattle.jxlm_ma_tree.specs.Tree.{StandsAtLeaf, depth};

use crate::flat::{Leaf, entry_of};
use crate::leaf_sets::LeafSets;
use crate::sets::{BASE, ENTRIES};
use crate::steps::Steps;

// Whether each of these values has an entry of its own.
#[inline(always)]
fn are_near(values: &[i32; 7]) -> bool
    ensures { IsTrue result ↔ ((k : ℕ) → k < 7 → is_near (slice_index_or values.now k (pos 0)) ≡ true) }
{
    is_near(values[0])
        & is_near(values[1])
        & is_near(values[2])
        & is_near(values[3])
        & is_near(values[4])
        & is_near(values[5])
        & is_near(values[6])
}

// Whether this value has an entry of its own.
#[inline(always)]
fn is_near(value: i32) -> bool
    ensures { result ≡ is_near value }
{
    BASE <= value && value < BASE + ENTRIES as i32
}

// The entry of a value that has its own.
#[inline(always)]
fn near_entry(value: i32) -> usize
    requires { is_near value ≡ true }
    ensures { result ≡ slot (neg_ℤ (pos 1024)) 2047 value }
{
    (value - BASE) as usize
}

// The entry of any value.
fn far_entry(value: i32) -> usize
    ensures { result ≡ slot (neg_ℤ (pos 1024)) 2047 value }
{
    entry_of(BASE, ENTRIES - 1, value)
}

// Properties 9 to 15, of properties 0 to 15.
#[inline(always)]
fn values_of(own: &[i32; 16]) -> [i32; 7]
    ensures { (f : ℕ → ℤ) → AreOwnOf own.now f → AreValuesOf result f }
{
    [own[9], own[10], own[11], own[12], own[13], own[14], own[15]]
}

impl LeafSets {
    // The set of this entry of a table.
    #[inline(always)]
    fn set(&self, table: usize, entry: usize, steps: &mut Steps) -> u64
        requires table { table < 7 }
        requires entry { entry < 2048 }
        ensures set { result ≡ slice_index self.now.sets.items (table * 2048 + entry) }
        ensures cost { steps.new ≡ steps.old + 1 }
    {
        steps.tick();
        self.sets[table * ENTRIES + entry]
    }

    // The leaves that are in the sets of these entries, one of each table.
    #[inline(always)]
    fn left_at(&self, entries: &[usize; 7], steps: &mut Steps) -> u64
        requires { (k : ℕ) → k < 7 → slice_index entries.now k < 2048 }
        ensures left { (f : ℕ → ℤ) → AreEntriesOf entries.now f → (i : ℕ) → has result i
            ≡ stays self.now.sets.items f i }
        ensures cost { steps.new ≡ steps.old + 7 }
    {
        self.set(0, entries[0], steps)
            & self.set(1, entries[1], steps)
            & self.set(2, entries[2], steps)
            & self.set(3, entries[3], steps)
            & self.set(4, entries[4], steps)
            & self.set(5, entries[5], steps)
            & self.set(6, entries[6], steps)
    }

    // The leaves that are left over by these values of properties 9 to 15.
    #[cold]
    #[inline(never)]
    fn left_by(
        &self,
        p9: i32,
        p10: i32,
        p11: i32,
        p12: i32,
        p13: i32,
        p14: i32,
        p15: i32,
        steps: &mut Steps,
    ) -> u64
        ensures left { (f : ℕ → ℤ) → AreValuesOf (p9 ∷ p10 ∷ p11 ∷ p12 ∷ p13 ∷ p14 ∷ p15 ∷ []) f → (i : ℕ) →
            has result i ≡ stays self.now.sets.items f i }
        ensures cost { steps.new ≡ steps.old + 7 }
    {
        let entries = [
            far_entry(p9),
            far_entry(p10),
            far_entry(p11),
            far_entry(p12),
            far_entry(p13),
            far_entry(p14),
            far_entry(p15),
        ];
        self.left_at(&entries, steps)
    }

    // The same where each of these values has an entry of its own.
    #[inline(always)]
    fn left_near(&self, values: &[i32; 7], steps: &mut Steps) -> u64
        requires { (k : ℕ) → k < 7 → is_near (slice_index_or values.now k (pos 0)) ≡ true }
        ensures left { (f : ℕ → ℤ) → AreValuesOf values.now f → (i : ℕ) → has result i ≡ stays self.now.sets.items f i }
        ensures cost { steps.new ≡ steps.old + 7 }
    {
        let entries = [
            near_entry(values[0]),
            near_entry(values[1]),
            near_entry(values[2]),
            near_entry(values[3]),
            near_entry(values[4]),
            near_entry(values[5]),
            near_entry(values[6]),
        ];
        self.left_at(&entries, steps)
    }

    // The leaves that are left over by these values of properties 9 to 15.
    #[inline(always)]
    fn left(&self, values: &[i32; 7], steps: &mut Steps) -> u64
        ensures left { (f : ℕ → ℤ) → AreValuesOf values.now f → (i : ℕ) → has result i ≡ stays self.now.sets.items f i }
        ensures cost { steps.new ≡ steps.old + 7 }
    {
        if are_near(values) {
            self.left_near(values, steps)
        } else {
            let [p9, p10, p11, p12, p13, p14, p15] = *values;
            self.left_by(p9, p10, p11, p12, p13, p14, p15, steps)
        }
    }

    // The first leaf that no table rules out by these properties.
    #[inline(always)]
    fn first_left(&self, own: &[i32; 16], steps: &mut Steps) -> Leaf
        ensures first { (f : ℕ → ℤ) → AreOwnOf own.now f → IsFirst self.now.sets.items self.now.leaves.items f result }
        ensures listed { IsListed self.now.leaves.items result }
        ensures cost { steps.new ≡ steps.old + 8 }
    {
        let values = values_of(own);
        let left = self.left(&values, steps);
        steps.tick();
        self.leaves[left.trailing_zeros() as usize]
    }

    /// The leaf to which these properties, 0 to 15, lead in the trees that these are the sets of. Each table is looked
    /// up in one step, and the leaf in one more.
    #[inline(always)]
    pub fn leaf_by(&self, own: &[i32; 16], steps: &mut Steps) -> Leaf
        ensures leaf { (t : FlatTree) (f : ℕ → ℤ) → AreSetsOf t self.now → AreOwnOf own.now f →
            result ≡ leaf_reached t f }
        ensures stands { (t : FlatTree) → AreSetsOf t self.now → StandsAtLeaf t.tree result }
        ensures multiplier { (t : FlatTree) → AreSetsOf t self.now → HasMultiplier result }
        ensures cost { (t : FlatTree) → AreSetsOf t self.now → steps.new ≤ steps.old + depth t.tree + 1 }
        ensures more { steps.old ≤ steps.new }
    {
        self.first_left(own, steps)
    }
}
