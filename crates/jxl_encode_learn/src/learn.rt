//! A tree learnt from counted samples: a decision stands where it saves more bits than it costs.

use crate::axis::Axis;
use crate::costs::{BIT, Bits, Prices};
use crate::counted::{Class, Counted, list_at};
use crate::counts::{Counts, NONE, symbols_in};
use crate::symbols::SYMBOLS;
use jxlm_base::grid::OutOfMemory;
use jxlm_predictor::predictor::Predictor;
use std::alloc::Global;

/// How much of a tree is searched.
#[derive(Clone, Copy)]
pub struct Bounds {
    /// The most nodes of a tree, without the last two.
    pub nodes: usize,
    /// By how many predictors a cut is tried, at most two: the cheapest of them, of which each side may have another.
    pub predictors: usize,
    /// The price of a decision for each sample that it is made for, in bits divided by 65,536.
    pub step: u64,
    /// Whether the first decision is between the first class on the first axis and the others.
    pub apart: bool,
    /// How often leaves are moved between clusters, and decisions taken back.
    pub rounds: usize,
}

/// Classes that a node does not tell apart, one behind another, and their predictor.
#[derive(Clone, Copy)]
pub(crate) struct Span {
    start: usize,
    end: usize,
    /// The predictor.
    pub(crate) kind: usize,
    /// The next best predictor.
    pub(crate) second: usize,
    cost: u64,
}

impl Span {
    /// The same by a predictor; the next best is the one before.
    pub(crate) fn by(self, kind: usize) -> Span {
        Span {
            start: self.start,
            end: self.end,
            kind,
            second: if kind == self.kind {
                self.second
            } else {
                self.kind
            },
            cost: self.cost,
        }
    }

    /// The classes of both, of which the second ones are behind the first.
    pub(crate) fn with(self, other: Span) -> Span {
        Span {
            start: self.start,
            end: other.end,
            kind: self.kind,
            second: if other.kind == self.kind {
                self.second
            } else {
                other.kind
            },
            cost: self.cost.saturating_add(other.cost),
        }
    }
}

/// A decision: the classes behind a place on an axis go to the left child.
#[derive(Clone, Copy)]
struct Cut {
    axis: usize,
    place: usize,
    cost: u64,
}

/// The cut between the first class on the first axis and the others.
const FIRST_CUT: Cut = Cut {
    axis: 0,
    place: 0,
    cost: 0,
};

/// The costs of samples on both sides of a cut that was not tried.
const UNKNOWN: [u64; 2] = [u64::MAX; 2];

/// The most counts of a list.
const MAX_COUNTS: usize = 1 << 22;

/// A node of the tree: a decision, or a leaf with its classes.
#[derive(Clone, Copy)]
pub(crate) enum Learnt {
    /// A decision on this property.
    Decision { property: u32, value: i32 },
    /// A leaf.
    Leaf(Span),
}

/// A tree that is being learnt.
#[derive(Drop)]
pub(crate) struct Learner<'a> {
    counted: &'a Counted,
    prices: Prices,
    bounds: Bounds,
    classes: Vec<Class>,
    bits: &'a Bits,
    // The counts of the classes at each place of an axis, which are 0 between counts.
    places: Vec<u32>,
    // What the samples on both sides of each cut cost, by the cheapest of the predictors that are tried.
    costs: Vec<[u64; 2]>,
    // How far apart the cuts of two axes are.
    stride: usize,
}

/// The most classes on an axis.
fn widest(axes: &[Axis]) -> usize {
    let mut most: usize = 1;
    for axis in axes {
        most = most.max(axis.size());
    }
    most
}

/// Takes counts from those above a cut and adds them to those below; then they are 0. Returns whether one was not 0.
fn move_counts(above: &mut [u32], below: &mut [u32], counts: &mut [u32]) -> bool {
    let mut any = 0;
    for symbol in 0..counts.len().min(below.len()).min(above.len()) {
        let count = counts[symbol];
        counts[symbol] = 0;
        any |= count;
        below[symbol] = below[symbol].wrapping_add(count);
        above[symbol] = above[symbol].wrapping_sub(count);
    }
    any != 0
}

/// The classes of a span.
fn classes_of(classes: &[Class], span: Span) -> &[Class] {
    classes.get(span.start..span.end).unwrap_or(&[])
}

impl Learner<'_> {
    /// Nothing learnt of these samples.
    pub(crate) fn new<'a>(
        alloc: Global,
        counted: &'a Counted,
        bits: &'a Bits,
        prices: Prices,
        bounds: Bounds,
    ) -> Result<Learner<'a>, OutOfMemory> {
        let stride = widest(&counted.axes);
        let counts = stride.saturating_mul(SYMBOLS).min(MAX_COUNTS);
        let cuts = counted.axes.len().saturating_mul(stride).min(MAX_COUNTS);
        Ok(Learner {
            counted,
            prices,
            bounds,
            bits,
            classes: counted.classes(alloc)?,
            places: vec![in alloc; 0; counts]?,
            costs: vec![in alloc; UNKNOWN; cuts]?,
            stride,
        })
    }

    /// The number of classes on an axis.
    fn size(&self, axis: usize) -> usize {
        match self.counted.axes.get(axis) {
            Some(axis) => axis.size(),
            None => 1,
        }
    }

    /// How often each symbol occurs among the samples of a span by a predictor.
    pub(crate) fn counts(&self, span: Span, kind: usize) -> Counts {
        self.counted.counts(classes_of(&self.classes, span), kind)
    }

    /// The classes of a list from one to another, by their best predictor, and the next best.
    fn span(&self, start: usize, end: usize) -> Span {
        let mut best = Span {
            start,
            end,
            kind: 0,
            second: 0,
            cost: u64::MAX,
        };
        let mut next = u64::MAX;
        for kind in 0..self.counted.predictors.len() {
            let cost = self.bits.cost(self.prices, &self.counts(best, kind));
            if cost < best.cost {
                next = best.cost;
                best.second = best.kind;
                best.kind = kind;
                best.cost = cost;
            } else if cost < next {
                next = cost;
                best.second = kind;
            }
        }
        best
    }

    /// Puts what the samples on both sides of each cut on an axis cost by a predictor, by which these are the counts of all, in
    /// the place of what they cost by another, where that is more.
    fn put_axis(&mut self, span: Span, kind: usize, axis: usize, whole: &Counts) {
        let classes = classes_of(&self.classes, span);
        self.counted
            .add_places(&mut self.places, classes, kind, axis);
        let symbols = symbols_in(whole).min(SYMBOLS);
        let mut below = NONE;
        let mut above = *whole;
        let first = axis.wrapping_mul(self.stride);
        let last = self.size(axis).saturating_sub(1);
        for place in 0..last.saturating_add(1) {
            let from = place.wrapping_mul(SYMBOLS);
            let Some(counts) = self
                .places
                .as_mut_slice()
                .get_mut(from..from.saturating_add(symbols))
            else {
                break;
            };
            if move_counts(&mut above, &mut below, counts) && place < last {
                let lower = self.bits.cost(self.prices, &below[..symbols]);
                let upper = self.bits.cost(self.prices, &above[..symbols]);
                if let Some(costs) = self.costs.get_mut(first.wrapping_add(place)) {
                    *costs = [costs[0].min(lower), costs[1].min(upper)];
                }
            }
        }
    }

    /// Puts what the samples on both sides of each cut cost by a predictor in its place.
    fn put_all(&mut self, span: Span, kind: usize) {
        let whole = self.counts(span, kind);
        for axis in 0..self.counted.axes.len() {
            self.put_axis(span, kind, axis, &whole);
        }
    }

    /// The best cut of a span.
    fn best_cut(&mut self, span: Span) -> Option<Cut> {
        self.costs.fill(UNKNOWN);
        self.put_all(span, span.kind);
        if self.bounds.predictors > 1 && self.counted.predictors.len() > 1 {
            self.put_all(span, span.second);
        }
        let mut best = None;
        let mut least = u64::MAX;
        for at in 0..self.costs.len() {
            let [lower, upper] = self.costs[at];
            let cost = lower.saturating_add(upper);
            if cost < least {
                least = cost;
                let axis = at / self.stride.max(1);
                let place = at % self.stride.max(1);
                best = Some(Cut { axis, place, cost });
            }
        }
        best
    }

    /// The price of a decision for the samples of a span, in bits times 65,536.
    pub(crate) fn price(&self, span: Span) -> u64 {
        let decision = self.prices.decision.saturating_mul(BIT);
        if self.bounds.step == 0 {
            return decision;
        }
        let mut samples: u64 = 0;
        for class in classes_of(&self.classes, span) {
            samples = samples.saturating_add(u64::from(class.weight));
        }
        self.bounds
            .step
            .saturating_mul(self.prices.scale)
            .saturating_mul(samples)
            .saturating_add(decision)
    }

    /// The best cut of a span, if it saves enough. One that may be taken back has to save half of its price, since others may
    /// follow it that save more.
    fn worth(&mut self, span: Span) -> Option<Cut> {
        let price = self.price(span);
        let least = if self.bounds.rounds > 0 {
            price / 2
        } else {
            price
        };
        if span.cost <= least {
            return None;
        }
        let cut = self.best_cut(span)?;
        if cut.cost.saturating_add(least) < span.cost {
            Some(cut)
        } else {
            None
        }
    }

    /// Puts the classes behind the cut before the others; returns where the others begin.
    fn part(&mut self, span: Span, cut: Cut) -> usize {
        let places = list_at(&self.counted.places, cut.axis);
        let mut next = span.start;
        for at in span.start..span.end {
            let class = match self.classes.get(at) {
                Some(class) => *class,
                None => break,
            };
            let place = places.get(class.number as usize).copied().unwrap_or(0);
            if place as usize > cut.place {
                if at < self.classes.len() && next < self.classes.len() {
                    self.classes.swap(next, at);
                }
                next = next.saturating_add(1);
            }
        }
        next
    }

    /// Learns one node more; its children are to be learnt later.
    fn grow(&mut self, spans: &mut Vec<Span>, span: Span) -> Result<Learnt, OutOfMemory> {
        if spans.len() > self.bounds.nodes {
            return Ok(Learnt::Leaf(span));
        }
        let first = spans.len() == 1 && self.bounds.apart && self.size(0) > 1;
        let found = if first {
            Some(FIRST_CUT)
        } else {
            self.worth(span)
        };
        let Some(cut) = found else {
            return Ok(Learnt::Leaf(span));
        };
        let middle = self.part(span, cut);
        let above = self.span(span.start, middle);
        let below = self.span(middle, span.end);
        spans.push(above)?;
        spans.push(below)?;
        let (property, value) = match self.counted.axes.get(cut.axis) {
            Some(axis) => (
                axis.property,
                axis.cuts.get(cut.place).copied().unwrap_or(0),
            ),
            None => (0, 0),
        };
        Ok(Learnt::Decision { property, value })
    }

    /// Learns the tree, level by level.
    pub(crate) fn learn(&mut self, alloc: Global) -> Result<Vec<Learnt>, OutOfMemory> {
        let mut nodes = Vec::new(alloc);
        let mut spans = Vec::new(alloc);
        spans.push(self.span(0, self.classes.len()))?;
        for at in 0..self.bounds.nodes.saturating_add(3) {
            let span = match spans.get(at) {
                Some(span) => *span,
                None => break,
            };
            let node = self.grow(&mut spans, span)?;
            nodes.push(node)?;
        }
        Ok(nodes)
    }
}
