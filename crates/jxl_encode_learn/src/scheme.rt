//! A tree with the clusters of its leaves.

use crate::clusters::Clusters;
use crate::costs::{BIT, Bits, Prices};
use crate::counted::Counted;
pub use crate::learn::Bounds;
use crate::learn::{Learner, Learnt};
use crate::refine::Refiner;
use jxlm_base::grid::OutOfMemory;
use jxlm_encode_write::tree::EncodeNode;
use std::alloc::Global;

/// A tree, level by level, with the clusters of its leaves in their order, and what samples cost by it.
#[derive(Drop)]
pub struct Scheme {
    /// Its nodes.
    pub nodes: Vec<EncodeNode>,
    /// The clusters of its leaves.
    pub clusters: Vec<u8>,
    /// What samples, codes and tree cost, nearly, in bits times 65,536.
    pub cost: u64,
}

/// The number of a cluster among those that have leaves.
fn number_of(numbers: &mut Vec<usize>, cluster: usize) -> Result<u8, OutOfMemory> {
    for number in 0..numbers.len() {
        if numbers[number] == cluster {
            return Ok(number.min(255) as u8);
        }
    }
    numbers.push(cluster)?;
    Ok(numbers.len().saturating_sub(1).min(255) as u8)
}

/// The scheme of these nodes with the clusters of their leaves, which cost this.
fn scheme_from(
    alloc: Global,
    counted: &Counted,
    nodes: &[(Learnt, usize)],
    cost: u64,
) -> Result<Scheme, OutOfMemory> {
    let mut numbers = Vec::new(alloc);
    let mut scheme = Scheme {
        nodes: Vec::new(alloc),
        clusters: Vec::new(alloc),
        cost,
    };
    for node in nodes {
        let own = match node.0 {
            Learnt::Decision { property, value } => EncodeNode::Decision { property, value },
            Learnt::Leaf(span) => {
                let number = number_of(&mut numbers, node.1)?;
                scheme.clusters.push(number)?;
                let predictor = counted.predictor(span.kind);
                EncodeNode::Leaf {
                    predictor,
                    offset: 0,
                }
            }
        };
        scheme.nodes.push(own)?;
    }
    Ok(scheme)
}

/// The scheme that is learnt within these bounds from what was counted of residuals, with at most this number of clusters,
/// and made better.
pub fn scheme_within(
    alloc: Global,
    counted: &Counted,
    prices: Prices,
    bounds: Bounds,
    most: usize,
) -> Result<Scheme, OutOfMemory> {
    let bits = Bits::new(alloc)?;
    let mut learner = Learner::new(alloc, counted, &bits, prices, bounds)?;
    let learnt = learner.learn(alloc)?;
    let clusters = Clusters::new(alloc, &bits, prices.scale, most);
    let mut refiner = Refiner::new(alloc, learner, &learnt, clusters)?;
    refiner.refine(bounds.rounds)?;
    let nodes = refiner.nodes(alloc)?;
    let tree = (nodes.len() as u64 / 2)
        .saturating_mul(prices.decision)
        .saturating_mul(BIT);
    let cost = refiner.clusters.cost().saturating_add(tree);
    scheme_from(alloc, counted, &nodes, cost)
}
