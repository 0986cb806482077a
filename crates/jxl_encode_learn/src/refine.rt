//! A learnt tree made better: each leaf goes to the cluster and has the predictor by which all cost least, and decisions that
//! then save less than they cost are taken back.

use crate::clusters::Clusters;
use crate::learn::{Learner, Learnt, Span};
use jxlm_base::grid::OutOfMemory;
use std::alloc::Global;

/// A node of a tree.
#[derive(Clone, Copy)]
struct Knot {
    node: Learnt,
    // Where the first child of a decision is; the other is behind it.
    child: usize,
    // The cluster of a leaf.
    cluster: usize,
    // Whether it was taken back, with the decision that it was a child of.
    gone: bool,
}

/// A leaf: its classes with their predictor, and its cluster.
#[derive(Clone, Copy)]
struct Leaf {
    span: Span,
    cluster: usize,
}

/// A predictor and a cluster, and by how much more all clusters cost if samples are put there.
#[derive(Clone, Copy)]
struct Place {
    kind: usize,
    cluster: usize,
    more: u64,
}

/// A tree whose leaves are in clusters.
#[derive(Drop)]
pub(crate) struct Refiner<'a> {
    learner: Learner<'a>,
    knots: Vec<Knot>,
    pub(crate) clusters: Clusters<'a>,
}

impl Refiner<'_> {
    /// The tree of these nodes, each leaf of which is put into one of these clusters.
    pub(crate) fn new<'a>(
        alloc: Global,
        learner: Learner<'a>,
        nodes: &[Learnt],
        clusters: Clusters<'a>,
    ) -> Result<Refiner<'a>, OutOfMemory> {
        let mut knots = Vec::new(alloc);
        let mut child: usize = 1;
        for node in nodes {
            knots.push(Knot {
                node: *node,
                child,
                cluster: 0,
                gone: false,
            })?;
            if matches!(*node, Learnt::Decision { .. }) {
                child = child.saturating_add(2);
            }
        }
        let mut refiner = Refiner {
            learner,
            knots,
            clusters,
        };
        refiner.put_all()?;
        Ok(refiner)
    }

    /// The leaf at a place, if there is one.
    fn leaf(&self, at: usize) -> Option<Leaf> {
        let knot = self.knots.get(at)?;
        match knot.node {
            Learnt::Leaf(span) if !knot.gone => Some(Leaf {
                span,
                cluster: knot.cluster,
            }),
            _ => None,
        }
    }

    /// The best cluster for the samples of a span by a predictor.
    fn place_by(&self, span: Span, kind: usize) -> Place {
        let (cluster, more) = self.clusters.best(&self.learner.counts(span, kind));
        Place {
            kind,
            cluster,
            more,
        }
    }

    /// The predictor of two and the cluster by which the samples of a span cost least.
    fn best_place(&self, span: Span) -> Place {
        let best = self.place_by(span, span.kind);
        if span.second == span.kind {
            return best;
        }
        let other = self.place_by(span, span.second);
        if other.more < best.more { other } else { best }
    }

    /// Makes a node a leaf, of which samples are put at a place.
    fn put(&mut self, at: usize, span: Span, place: Place) -> Result<(), OutOfMemory> {
        let counts = self.learner.counts(span, place.kind);
        self.clusters.put_in(place.cluster, &counts)?;
        if let Some(knot) = self.knots.get_mut(at) {
            knot.node = Learnt::Leaf(span.by(place.kind));
            knot.cluster = place.cluster;
        }
        Ok(())
    }

    /// Puts each leaf into a cluster.
    fn put_all(&mut self) -> Result<(), OutOfMemory> {
        for at in 0..self.knots.len() {
            if let Some(Leaf { span, .. }) = self.leaf(at) {
                let place = self.place_by(span, span.kind);
                self.put(at, span, place)?;
            }
        }
        Ok(())
    }

    /// Moves each leaf to where its samples cost least.
    fn move_all(&mut self) -> Result<(), OutOfMemory> {
        for at in 0..self.knots.len() {
            if let Some(leaf) = self.leaf(at) {
                let counts = self.learner.counts(leaf.span, leaf.span.kind);
                self.clusters.take_out(leaf.cluster, &counts);
                let place = self.best_place(leaf.span);
                self.put(at, leaf.span, place)?;
            }
        }
        Ok(())
    }

    /// Takes a decision between two leaves back, if it saves less than it costs.
    fn take_back(&mut self, at: usize, child: usize) -> Result<(), OutOfMemory> {
        let other = child.saturating_add(1);
        let Some(left) = self.leaf(child) else {
            return Ok(());
        };
        let Some(right) = self.leaf(other) else {
            return Ok(());
        };
        let whole = left.span.with(right.span);
        let counts = self.learner.counts(left.span, left.span.kind);
        let others = self.learner.counts(right.span, right.span.kind);
        let saved = self.clusters.take_out(left.cluster, &counts);
        let saved = saved.saturating_add(self.clusters.take_out(right.cluster, &others));
        let place = self.best_place(whole);
        if place.more > saved.saturating_add(self.learner.price(whole)) {
            self.clusters.put_in(left.cluster, &counts)?;
            return self.clusters.put_in(right.cluster, &others);
        }
        for at in child..child.saturating_add(2) {
            if let Some(knot) = self.knots.get_mut(at) {
                knot.gone = true;
            }
        }
        self.put(at, whole, place)
    }

    /// Takes decisions back that save less than they cost, the last first.
    fn prune(&mut self) -> Result<(), OutOfMemory> {
        let count = self.knots.len();
        for back in 0..count {
            let at = count.saturating_sub(back).saturating_sub(1);
            if let Some(knot) = self.knots.get(at) {
                let knot = *knot;
                if matches!(knot.node, Learnt::Decision { .. }) {
                    self.take_back(at, knot.child)?;
                }
            }
        }
        Ok(())
    }

    /// Makes leaves of a cluster those of another.
    fn rename(&mut self, from: usize, to: usize) {
        for knot in self.knots.iter_mut() {
            if knot.cluster == from {
                knot.cluster = to;
            }
        }
    }

    /// Unites this cluster with later ones, where both cost less as one.
    fn unite_with(&mut self, first: usize) {
        for second in first.saturating_add(1)..self.clusters.list.len() {
            if self.clusters.unite(first, second) {
                self.rename(second, first);
            }
        }
    }

    /// Unites clusters that cost less as one.
    fn unite_all(&mut self) {
        for first in 0..self.clusters.list.len() {
            self.unite_with(first);
        }
    }

    /// Makes the tree better, this number of times.
    pub(crate) fn refine(&mut self, rounds: usize) -> Result<(), OutOfMemory> {
        for _ in 0..rounds {
            self.move_all()?;
            self.prune()?;
            self.unite_all();
        }
        Ok(())
    }

    /// The nodes, level by level, with the clusters of leaves.
    pub(crate) fn nodes(&self, alloc: Global) -> Result<Vec<(Learnt, usize)>, OutOfMemory> {
        let mut places: Vec<usize> = Vec::new(alloc);
        let mut nodes = Vec::new(alloc);
        places.push(0)?;
        for at in 0..self.knots.len() {
            let Some(place) = places.get(at) else { break };
            let Some(knot) = self.knots.get(*place) else {
                break;
            };
            let knot = *knot;
            if matches!(knot.node, Learnt::Decision { .. }) {
                places.push(knot.child)?;
                places.push(knot.child.saturating_add(1))?;
            }
            nodes.push((knot.node, knot.cluster))?;
        }
        Ok(nodes)
    }
}
