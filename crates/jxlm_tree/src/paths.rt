//! What the samples of one channel are decoded by, where that is less than a walk of the tree.

ghost use Rattle.std.specs.Prelude.{◌≡◌, ◌≤◌, ◌<◌, ◌+◌, ◌↔◌, ℕ, ℤ, length, slice_index, Contains, IfErr, IfOk, IfSome, IsTrue, None};
ghost use Rattle.std.specs.Option.{option_map};
ghost use Rattle.std.specs.Rc.{rc_value};
ghost use Rattle.jxlm_tree.specs.ClusterTables.{in_cluster};
ghost use Rattle.jxlm_tree.specs.Paths.{IsNamed, IsPlainGradient};
ghost use Rattle.jxlm_tree.specs.Inner.Tables.{IsPathOfLeaf};

use crate::flat::{FlatMaTree, FlatNode, Leaf, entry_of};
use crate::steps::Steps;
use jxlm_base::grid::OutOfMemory;
use jxlm_bits::decoder::Decoder;
use jxlm_bits::error::Error;
use jxlm_predictor::place::{AskedProperty, PlaceProperties};
use jxlm_predictor::predictor::Predictor;
use std::alloc::{AllocError, Global};
use std::marker::Model;
use std::rc::Rc;

/// The leaves of a tree that agree in all but the cluster, where one property tells which of them is reached.
#[derive(Drop)]
pub struct ClusterTable {
    property: AskedProperty,
    // The first cluster serves all values up to this one, each other one the next greater value, and the last one
    // all values from its own on.
    base: i32,
    clusters: Vec<u8>,
    // One of the leaves.
    leaf: Leaf,
}

impl Model for ClusterTable {
    ghost use Rattle.std.specs.Prelude.{◌<◌, length};
    ghost use Rattle.jxlm_tree.specs.ClusterTables.{Clusters, clusters_of, coded_clusters};
    ghost use Rattle.jxlm_ma_tree.specs.contracts.leaf.Leaf as leaves;

    ghost Value = { Clusters };

    ghost coded = { coded_clusters leaves.the_row.coded };

    ghost view = { λ t. clusters_of t.property t.base t.clusters.items t.leaf };

    ghost invariant = { λ t. 0 < length t.clusters.items };
}

/// What a loop keeps of a table of clusters in local variables.
#[derive(Clone, Copy)]
pub struct ClusterEntries<'t> {
    clusters: &'t [u8],
    base: i32,
    first: u8,
    last: u8,
}

/// What the samples of one channel are decoded by.
#[derive(Clone, Copy)]
pub enum Path<'t> {
    /// One leaf that predicts by `Zero`, from a cluster that has one token only.
    Constant(Leaf),
    /// One leaf that predicts by `Zero`.
    Zero(Leaf),
    /// One leaf that predicts by `Gradient`, with offset 0 and multiplier 1.
    Gradient(Leaf),
    /// The same under a decoder whose tokens may come in runs.
    Runs(Leaf),
    /// A table of clusters.
    Clusters(&'t ClusterTable),
    /// A table of clusters on property 9, for `Gradient` with offset 0 and multiplier 1.
    GradientClusters(&'t ClusterTable),
    /// The walk of the tree.
    Tree,
}

// Whether two leaves agree in all but the cluster.
fn agree(leaf: &Leaf, other: &Leaf) -> bool
    ensures { IsTrue result ↔ other.now ≡ in_cluster other.now.cluster leaf.now }
{
    leaf.predictor == other.predictor
        && leaf.offset == other.offset
        && leaf.multiplier == other.multiplier
}

// Whether a leaf predicts by the gradient, with nothing to add and nothing to multiply by.
fn is_plain_gradient(leaf: &Leaf) -> bool
    ensures { IsTrue result ↔ IsPlainGradient leaf.now }
{
    leaf.predictor == Predictor::Gradient && leaf.offset == 0 && leaf.multiplier == 1
}

// The path of a channel that has this leaf only.
fn path_of_leaf<'t, D: Decoder>(leaf: Leaf, decoder: &D) -> Path<'t>
    requires cluster { Contains (D.meaning.cluster_map decoder.now) leaf.cluster }
    ensures leaf { IsPathOfLeaf leaf result }
    ensures named { IsNamed D.meaning decoder.now result }
{
    if leaf.predictor == Predictor::Zero {
        match decoder.single_token(leaf.cluster) {
            Some(_) => Path::Constant(leaf),
            None => Path::Zero(leaf),
        }
    } else if !is_plain_gradient(&leaf) {
        Path::Tree
    } else if decoder.as_rle() {
        Path::Runs(leaf)
    } else {
        Path::Gradient(leaf)
    }
}

impl ClusterTable {
    ghost use Rattle.std.proofs.Common.{reverse};
    ghost use Rattle.jxlm_tree.specs.FlatTree.{FlatTree, HasMultiplier, PropertiesAre, leaf_reached};
    ghost use Rattle.jxlm_tree.specs.ClusterTables.{IsTableOf, table_leaf};
    ghost use Rattle.jxlm_tree.specs.Paths.{IsNamed, IsOnGradient};
    ghost use Rattle.jxlm_ma_tree.specs.Tree.{StandsAtLeaf};
    ghost use Rattle.jxlm_tree.specs.Inner.FlatNodes.{IsSound};
    ghost use Rattle.jxlm_tree.specs.EntriesOf.{AreEntriesOf};
    ghost use Rattle.jxlm_tree.specs.Inner.Tables.{AreClusters, IsPathOfTable, TableAt};

    // The clusters of the leaves to which the entries of a table lead, where they all agree with this one.
    fn shared_clusters(
        alloc: Global,
        nodes: &[FlatNode],
        entries: &[u32],
        first: &Leaf,
    ) -> Result<Option<Vec<u8>>, AllocError>
        requires within { (j : ℕ) → j < length entries.now → slice_index entries.now j < length nodes.now }
        ensures { IfOk result (AreClusters nodes.now entries.now first.now) }
    {
        let mut clusters = Vec::new(alloc);
        for place in entries {
            match &nodes[*place as usize] {
                FlatNode::Leaf(leaf) if agree(first, leaf) => clusters.push(leaf.cluster)?,
                _ => return Ok(None),
            }
        }
        Ok(Some(clusters))
    }

    // The table of a node, where it is a table of leaves that agree.
    pub(crate) fn of(
        alloc: Global,
        nodes: &[FlatNode],
        root: u32,
    ) -> Result<Option<ClusterTable>, AllocError>
        requires sound { IsSound (reverse nodes.now) }
        requires rooted { root < length nodes.now }
        ensures { IfOk result (TableAt nodes.now root) }
    {
        let FlatNode::Table {
            property,
            base,
            entries,
        } = &nodes[root as usize]
        else {
            return Ok(None);
        };
        let FlatNode::Leaf(leaf) = &nodes[entries[0] as usize] else {
            return Ok(None);
        };
        let Some(clusters) = ClusterTable::shared_clusters(alloc, nodes, entries, leaf)? else {
            return Ok(None);
        };
        Ok(Some(ClusterTable {
            property: AskedProperty::new(property.number()),
            base: *base,
            clusters,
            leaf: *leaf,
        }))
    }

    // Puts the table into memory that is shared.
    pub(crate) fn share(
        alloc: Global,
        table: Option<ClusterTable>,
    ) -> Result<Option<Rc<ClusterTable>>, OutOfMemory>
        ensures { IfOk result (λ o. option_map rc_value o ≡ table) }
    {
        match table {
            Some(table) => Ok(Some(Rc::new(alloc, table)?)),
            None => Ok(None),
        }
    }

    // Whether it is on property 9, with leaves that predict by the gradient and add nothing more.
    fn is_on_gradient(&self) -> bool
        ensures { IsTrue result ↔ IsOnGradient self.now }
    {
        self.property.number() == 9 && is_plain_gradient(&self.leaf)
    }

    /// The property that tells which leaf is reached.
    pub fn property(&self) -> u32
        ensures { result ≡ self.now.property }
    {
        self.property.number()
    }

    /// What the leaves agree in: one of them, whose cluster says nothing.
    pub fn leaf(&self) -> Leaf
        ensures { result ≡ self.now.leaf }
    {
        self.leaf
    }

    /// The cluster of the leaf that is reached where the property has this value, looked up in one step.
    #[inline(always)]
    pub fn cluster(&self, value: i32, steps: &mut Steps) -> u8
        ensures cluster { result ≡ (table_leaf self.now value).cluster }
        ensures cost { steps.new ≡ steps.old + 1 }
    {
        steps.tick();
        self.clusters[entry_of(self.base, self.clusters.len() - 1, value)]
    }

    /// What a loop keeps of the table.
    #[inline(always)]
    pub fn entries(&self) -> ClusterEntries<'_>
        ensures { AreEntriesOf self.now result }
    {
        let clusters = self.clusters.as_slice();
        ClusterEntries {
            clusters,
            base: self.base,
            first: clusters[0],
            last: clusters[clusters.len() - 1],
        }
    }

    /// The leaf to which these properties lead in the trees that this table is of, looked up in one step.
    #[inline(always)]
    pub fn leaf_by<P: PlaceProperties>(&self, properties: &P, steps: &mut Steps) -> Leaf
        requires { P.IsCurrent properties.now }
        ensures leaf { (t : FlatTree) (f : ℕ → ℤ) → IsTableOf t self.now → PropertiesAre P.gives properties.now f
            → result ≡ leaf_reached t f }
        ensures stands { (t : FlatTree) → IsTableOf t self.now → StandsAtLeaf t.tree result }
        ensures multiplier { (t : FlatTree) → IsTableOf t self.now → HasMultiplier result }
        ensures cost { steps.new ≡ steps.old + 1 }
    {
        let value = properties.property(&self.property);
        Leaf {
            cluster: self.cluster(value, steps),
            ..self.leaf
        }
    }

    // The path of a channel that has this table.
    fn path<D: Decoder>(&self, _decoder: &D) -> Path<'_>
        ensures table { IsPathOfTable self.now result }
        ensures named { IsNamed D.meaning _decoder.now result }
    {
        if self.is_on_gradient() {
            Path::GradientClusters(self)
        } else {
            Path::Clusters(self)
        }
    }
}

impl ClusterEntries<'_> {
    ghost use Rattle.jxlm_tree.specs.ClusterTables.{Clusters, table_leaf};
    ghost use Rattle.jxlm_tree.specs.EntriesOf.{AreEntriesOf};

    /// The cluster of the leaf that is reached where the property has this value, looked up in one step. It branches on
    /// the value, so that what follows need not wait for it.
    #[inline(always)]
    pub fn cluster(&self, value: i32, steps: &mut Steps) -> u8
        ensures cluster { (t : Clusters) → AreEntriesOf t self.now → result ≡ (table_leaf t value).cluster }
        ensures cost { steps.new ≡ steps.old + 1 }
    {
        steps.tick();
        if value <= self.base {
            return self.first;
        }
        let above = (i64::from(value) - i64::from(self.base)) as usize;
        if above < self.clusters.len() {
            self.clusters[above]
        } else {
            self.last
        }
    }
}

impl FlatMaTree {
    ghost use Rattle.jxlm_tree.specs.FlatTree.{ClustersStandIn};
    ghost use Rattle.jxlm_bits.specs.ErrorKind.{NoMemory, kind_of};
    ghost use Rattle.jxlm_tree.specs.Paths.{Gives, IsGradientTable, IsNamed, TakesGradientTable, steps_on};
    ghost use Rattle.jxlm_tree.specs.Steps.{most_steps};

    /// The table that all samples of the channel are decoded by, where it is one on property 9 whose leaves predict by
    /// `Gradient`, with offset 0 and multiplier 1. The tree shares it.
    ///
    /// # Errors
    ///
    /// `Buffer` if it is out of memory, and no other.
    pub fn gradient_table(&self) -> Result<Option<Rc<ClusterTable>>, Error>
        ensures some { IfOk result (λ o. IfSome o (λ c. IsGradientTable self.now c.value)) }
        ensures none { IfOk result (λ o. o ≡ None → TakesGradientTable self.now.tree → ⊥) }
        ensures err { IfErr result (λ e. kind_of e ≡ NoMemory) }
    {
        let Some(table) = &self.compiled.table else {
            return Ok(None);
        };
        if !table.is_on_gradient() {
            return Ok(None);
        }
        let shared = table.clone()?;
        Ok(Some(shared))
    }

    /// How the samples of the channel are decoded: by one leaf or by a table where that gives what `leaf` gives.
    ///
    /// It is a leaf or a table wherever the steps of a sample are bounded so.
    pub fn path_of<D: Decoder>(&self, decoder: &D) -> Path<'_>
        requires clusters { ClustersStandIn (D.meaning.cluster_map decoder.now) self.now.tree }
        ensures gives { Gives self.now result }
        ensures named { IsNamed D.meaning decoder.now result }
        ensures steps { steps_on result self.now.tree ≤ most_steps self.now.tree }
    {
        if let FlatNode::Leaf(only) = &self.compiled.nodes[self.compiled.root as usize] {
            return path_of_leaf(*only, decoder);
        }
        match &self.compiled.table {
            Some(table) => table.path(decoder),
            None => Path::Tree,
        }
    }
}
