//! The leaf to which a tree leads at a cell.

ghost use Rattle.std.specs.Prelude.{◌≡◌, ◌+◌, true, false, IfSome};
ghost use Rattle.jxlm_tree.specs.FlatTree.{FlatTree};
ghost use Rattle.jxlm_tree.specs.LeafSets.{AreSetsOf};
ghost use Rattle.jxlm_tree.specs.Paths.{Gives};
ghost use Rattle.jxlm_tree.specs.SumTrees.{GoesBySum};
ghost use Rattle.jxlm_tree.specs.Tree.{depth};
ghost use Rattle.jxlm_predictor.specs.Holding.{IsCurrent};
ghost use Rattle.jxlm_samples.specs.CellLeaves.{IsFound, IsFoundBy, steps_walked};
ghost use Rattle.jxlm_samples.specs.Inner.Paths.{HasSets};

use crate::coding::ChannelTree;
use crate::number::Number;
use jxlm_base::sample::Sample;
use jxlm_predictor::predictor::Properties;
use jxlm_tree::flat::{FlatMaTree, Leaf, Steps};
use jxlm_tree::leaf_sets::LeafSets;
use jxlm_tree::paths::Path;

/// The leaf to which these properties lead by the walk of this tree; where it has one leaf, nothing is walked.
#[inline(always)]
fn walked_leaf<S: Sample>(
    flat: &FlatMaTree,
    properties: &Properties<'_, S>,
    steps: &mut Steps,
) -> Leaf
    requires { IsCurrent properties.now }
    ensures { IsFound false flat.now S.to_int properties.now steps.old steps.new (depth flat.now.tree + 1) result }
{
    match flat.only_leaf() {
        Some(leaf) => leaf,
        None => {
            let own = properties.own();
            *flat.leaf(&properties.listed(&own), steps)
        }
    }
}

/// The leaf to which this tree leads where each property is this number: by the path's table, where it has one.
#[inline(never)]
fn leaf_by_number(flat: &FlatMaTree, path: Path<'_>, number: i32, steps: &mut Steps) -> Leaf
    requires { Gives flat.now path }
    ensures { IsFoundBy flat.now number steps.old steps.new (steps_walked path.entry flat.now.tree) result }
{
    let place = Number { value: number };
    match path {
        Path::Clusters(table) => table.leaf_by(&place, steps),
        _ => *flat.leaf(&place, steps),
    }
}

/// The leaf to which these properties lead in this tree: by the path's table, where it has one. With `clamped` the tree
/// asks for property 9 alone, which is clamped.
#[inline(always)]
pub fn leaf_of<S: Sample>(
    flat: &FlatMaTree,
    path: Path<'_>,
    clamped: bool,
    properties: &Properties<'_, S>,
    steps: &mut Steps,
) -> Leaf
    requires current { IsCurrent properties.now }
    requires gives { Gives flat.now path }
    requires sums { clamped ≡ true → GoesBySum flat.now }
    ensures { IsFound clamped flat.now S.to_int properties.now steps.old steps.new
        (steps_walked path.entry flat.now.tree) result }
{
    if clamped {
        return leaf_by_number(flat, path, properties.clamped_sum(), steps);
    }
    match path {
        Path::Clusters(table) => table.leaf_by(properties, steps),
        _ => walked_leaf(flat, properties, steps),
    }
}

/// The leaf to which these properties lead in the trees that these are the sets of.
#[inline(always)]
fn leaf_by_sets<S: Sample>(
    sets: &LeafSets,
    properties: &Properties<'_, S>,
    steps: &mut Steps,
) -> Leaf
    requires { IsCurrent properties.now }
    ensures { (t : FlatTree) → AreSetsOf t sets.now
        → IsFound false t S.to_int properties.now steps.old steps.new (depth t.tree + 1) result }
{
    let own = properties.own();
    sets.leaf_by(&own, steps)
}

/// The leaf to which these properties lead in the tree of a channel: with `SETS` by its sets of leaves, and else by the
/// path's table, where it has one. With `clamped` the tree asks for property 9 alone, which is clamped.
#[inline(always)]
pub(crate) fn leaf_in<S: Sample, const SETS: bool>(
    tree: &ChannelTree,
    path: Path<'_>,
    clamped: bool,
    properties: &Properties<'_, S>,
    steps: &mut Steps,
) -> Leaf
    requires current { IsCurrent properties.now }
    requires gives { Gives tree.now.flat path }
    requires sums { clamped ≡ true → GoesBySum tree.now.flat }
    requires are { IfSome tree.now.sets (AreSetsOf tree.now.flat) }
    requires made { SETS ≡ true → HasSets tree.now clamped path }
    ensures { IsFound clamped tree.now.flat S.to_int properties.now steps.old steps.new
        (steps_walked path.entry tree.now.flat.tree) result }
{
    if SETS {
        match &tree.sets {
            Some(sets) => return leaf_by_sets(sets, properties, steps),
            None => unreachable!(),
        }
    }
    leaf_of(&tree.flat, path, clamped, properties, steps)
}
