//! Which decisions of a tree become tables, found in one pass from its leaves.

ghost use Rattle.std.specs.Prelude.{◌≡◌, ◌++◌, ◌∷◌, pos, ◌+ℤ◌, ◌<ℤ◌, ◌≤ℤ◌, ℕ, ℤ, List, [], length, if◌then◌else◌, IfOk, OnOk, Option};
ghost use Rattle.jxlm_ma_tree.specs.Marked.{marked_shape, asks_for, AreMarks, root_cuts};
ghost use Rattle.jxlm_ma_tree.specs.Inner.Ascending.{Ascends, LeavesAbove, LeavesBelow};
ghost use Rattle.jxlm_ma_tree.specs.Cuts.{cuts as cuts_of, greatest, least, surveyed, unsurveyed, worth as worth_of};
ghost use Rattle.jxlm_ma_tree.specs.Pruned.{known as known_of, pruned};
ghost use Rattle.jxlm_ma_tree.specs.TreeShape.{shape_of};
ghost use Rattle.jxlm_ma_tree.specs.Tree.{decision as decision_shape, leaf as leaf_shape};

use crate::leaf::Leaf;
use crate::tree::MaTreeNode;
use std::alloc::{AllocError, Global};
use std::collections::VecDeque;

/// What is known of the properties when a tree is compiled: the channel and the stream as decisions read them, and
/// how many earlier channels there are.
#[derive(Clone, Copy)]
pub struct Known {
    pub channel: i32,
    pub stream: i32,
    pub prev_channels: u32,
}

/// The value of a property, where it is known.
pub fn known_value(known: &Known, property: u32) -> Option<i32>
    ensures { result ≡ known_of known.now property }
{
    if property == 0 {
        return Some(known.channel);
    }
    if property == 1 {
        return Some(known.stream);
    }
    if u64::from(property) < 16 + 4 * u64::from(known.prev_channels) {
        return None;
    }
    Some(0)
}

/// The cuts of a table: how many, the least and the greatest.
#[derive(Clone, Copy)]
pub struct Survey {
    pub cuts: usize,
    pub least: i32,
    pub greatest: i32,
}

/// A tree without the decisions that are known, each with the cuts of its table, where one serves it.
#[derive(Drop)]
pub enum Marked {
    Leaf(Leaf),
    Decision {
        property: u32,
        value: i32,
        table: Option<Survey>,
        left: Box<Marked>,
        right: Box<Marked>,
    },
}

impl Marked {
    // Whether the root asks for this property.
    fn asks_for(&self, asked: u32) -> bool
        ensures { result ≡ asks_for asked (marked_shape self.now) }
    {
        match self {
            Marked::Leaf(_) => false,
            Marked::Decision { property, .. } => *property == asked,
        }
    }
}

// Whether these cuts, in ascending order, make a table: four ranges or more, and at most 1,024 entries.
fn worth(cuts: &VecDeque<i32>) -> Option<Survey>
    requires { Ascends cuts.now.items }
    ensures { result ≡ worth_of (surveyed unsurveyed cuts.now.items) }
{
    let least = *cuts.front()?;
    let greatest = *cuts.back()?;
    if cuts.len() < 3 || i64::from(least) + 1022 < i64::from(greatest) {
        return None;
    }
    Some(Survey {
        cuts: cuts.len(),
        least,
        greatest,
    })
}

// Takes away the cuts from `value` on, which are the last.
fn keep_below(cuts: &mut VecDeque<i32>, value: i32)
    ensures { LeavesBelow value cuts.old.items cuts.new.items }
{
    while let Some(last) = cuts.back() {
        if *last < value {
            return;
        }
        cuts.pop_back();
    }
}

// Takes away the cuts up to `value`, which are the first.
fn keep_above(cuts: &mut VecDeque<i32>, value: i32)
    ensures { LeavesAbove value cuts.old.items cuts.new.items }
{
    while let Some(first) = cuts.front() {
        if *first > value {
            return;
        }
        cuts.pop_front();
    }
}

// Puts the cuts `below` before the others, one by one.
fn prepend(mut below: VecDeque<i32>, cuts: &mut VecDeque<i32>) -> Result<(), AllocError>
    ensures { OnOk result (cuts.new.items ≡ below.items ++ cuts.old.items) }
{
    while let Some(cut) = below.pop_back() {
        cuts.push_front(cut)?;
    }
    Ok(())
}

// The cuts below, this one and those above in one list; those of the shorter list move.
fn joined(
    mut below: VecDeque<i32>,
    value: i32,
    mut above: VecDeque<i32>,
) -> Result<VecDeque<i32>, AllocError>
    ensures { IfOk result (λ cuts. cuts.items ≡ below.items ++ value ∷ above.items) }
{
    if below.len() < above.len() {
        above.push_front(value)?;
        prepend(below, &mut above)?;
        return Ok(above);
    }
    below.push_back(value)?;
    below.append(&mut above)?;
    Ok(below)
}

// Of all cuts of a tree's root those below `value`, where the root asks for this property.
fn below_on(tree: &Marked, mut cuts: VecDeque<i32>, property: u32, value: i32) -> VecDeque<i32>
    requires { cuts.items ≡ root_cuts (marked_shape tree.now) }
    ensures { result.items ≡ cuts_of property least value (marked_shape tree.now) }
{
    if !tree.asks_for(property) {
        cuts.clear();
    }
    keep_below(&mut cuts, value);
    cuts
}

// Of all cuts of a tree's root those above `value`, where the root asks for this property.
fn above_on(tree: &Marked, mut cuts: VecDeque<i32>, property: u32, value: i32) -> VecDeque<i32>
    requires { cuts.items ≡ root_cuts (marked_shape tree.now) }
    ensures { value <ℤ greatest → result.items ≡ cuts_of property (value +ℤ pos 1) greatest (marked_shape tree.now) }
{
    if !tree.asks_for(property) {
        cuts.clear();
    }
    keep_above(&mut cuts, value);
    cuts
}

/// A marked tree, and the cuts of the decisions that hang together from its root on one property, ascending.
#[derive(Drop)]
pub struct Marks {
    pub tree: Marked,
    pub cuts: VecDeque<i32>,
}

impl Marks {
    // A tree of one leaf.
    fn leaf(alloc: Global, leaf: Leaf) -> Marks
        ensures marks { AreMarks result }
        ensures tree { marked_shape result.tree ≡ leaf_shape leaf }
    {
        Marks {
            tree: Marked::Leaf(leaf),
            cuts: VecDeque::new(alloc),
        }
    }

    // A decision over two trees.
    fn decision(
        alloc: Global,
        property: u32,
        value: i32,
        left: Marks,
        right: Marks,
    ) -> Result<Marks, AllocError>
        requires left { AreMarks left }
        requires right { AreMarks right }
        ensures marks { IfOk result AreMarks }
        ensures tree { IfOk result (λ m. marked_shape m.tree
            ≡ decision_shape property value (marked_shape left.tree) (marked_shape right.tree)) }
    {
        let Marks { tree: left, cuts } = left;
        let above = above_on(&left, cuts, property, value);
        let Marks { tree: right, cuts } = right;
        let below = below_on(&right, cuts, property, value);
        let cuts = if value < i32::MAX {
            joined(below, value, above)?
        } else {
            below
        };
        let table = worth(&cuts);
        let left = Box::new(alloc, left)?;
        let right = Box::new(alloc, right)?;
        let tree = Marked::Decision {
            property,
            value,
            table,
            left,
            right,
        };
        Ok(Marks { tree, cuts })
    }
}

// The marks of a tree of one leaf, in a box.
#[inline(never)]
fn boxed_leaf(alloc: Global, leaf: Leaf) -> Result<Box<Marks>, AllocError>
    ensures marks { IfOk result (λ b. AreMarks b.value) }
    ensures tree { IfOk result (λ b. marked_shape b.value.tree ≡ leaf_shape leaf) }
{
    Ok(Box::new(alloc, Marks::leaf(alloc, leaf))?)
}

// The marks of a decision over two trees, in boxes.
#[inline(never)]
fn boxed_decision(
    alloc: Global,
    property: u32,
    value: i32,
    left: Box<Marks>,
    right: Box<Marks>,
) -> Result<Box<Marks>, AllocError>
    requires left { AreMarks left.value }
    requires right { AreMarks right.value }
    ensures marks { IfOk result (λ b. AreMarks b.value) }
    ensures tree { IfOk result (λ b. marked_shape b.value.tree
        ≡ decision_shape property value (marked_shape left.value.tree) (marked_shape right.value.tree)) }
{
    let left = Box::into_inner(left);
    let right = Box::into_inner(right);
    let marks = Marks::decision(alloc, property, value, left, right)?;
    Ok(Box::new(alloc, marks)?)
}

// What `mark` returns, in a box: trees are up to 2,048 decisions deep, so that the frame of each is kept small.
fn boxed_marks(alloc: Global, tree: &MaTreeNode, known: &Known) -> Result<Box<Marks>, AllocError>
    ensures marks { IfOk result (λ b. AreMarks b.value) }
    ensures tree { IfOk result (λ b. marked_shape b.value.tree ≡ pruned known.now (shape_of tree.now)) }
{
    match tree {
        MaTreeNode::Leaf(leaf) => boxed_leaf(alloc, *leaf),
        MaTreeNode::Decision {
            property,
            value,
            left,
            right,
        } => match known_value(known, *property) {
            None => {
                let left = boxed_marks(alloc, left, known)?;
                let right = boxed_marks(alloc, right, known)?;
                boxed_decision(alloc, *property, *value, left, right)
            }
            Some(x) => {
                if x > *value {
                    boxed_marks(alloc, left, known)
                } else {
                    boxed_marks(alloc, right, known)
                }
            }
        },
    }
}

/// The tree once known decisions are taken, with the tables of the others.
pub fn mark(alloc: Global, tree: &MaTreeNode, known: &Known) -> Result<Marks, AllocError>
    ensures marks { IfOk result AreMarks }
    ensures tree { IfOk result (λ m. marked_shape m.tree ≡ pruned known.now (shape_of tree.now)) }
{
    Ok(Box::into_inner(boxed_marks(alloc, tree, known)?))
}
