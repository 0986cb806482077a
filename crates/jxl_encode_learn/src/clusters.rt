//! Leaves of which samples are alike have one code.

use crate::costs::Bits;
use crate::counts::{Counts, NONE, rest_of, sum_of, symbols_in};
use jxlm_base::grid::OutOfMemory;
use std::alloc::Global;

/// A cluster: how often its symbols occur, and what it costs.
#[derive(Clone, Copy)]
pub(crate) struct Cluster {
    counts: Counts,
    cost: u64,
}

/// The clusters of leaves.
#[derive(Drop)]
pub(crate) struct Clusters<'a> {
    scale: u64,
    most: usize,
    /// All of them, with those that have no symbols any more.
    pub(crate) list: Vec<Cluster>,
    bits: &'a Bits,
}

impl Clusters<'_> {
    /// No clusters, of which there are to be at most this number.
    pub(crate) fn new<'a>(alloc: Global, bits: &'a Bits, scale: u64, most: usize) -> Clusters<'a> {
        Clusters {
            scale,
            most: most.min(255),
            list: Vec::new(alloc),
            bits,
        }
    }

    /// What all clusters cost.
    pub(crate) fn cost(&self) -> u64 {
        let mut sum: u64 = 0;
        for cluster in &self.list {
            sum = sum.saturating_add(cluster.cost);
        }
        sum
    }

    /// The cluster that these symbols make dearer by the least, or the number of a new one if that costs less; and by how
    /// much more all clusters cost.
    pub(crate) fn best(&self, counts: &Counts) -> (usize, u64) {
        let mut best = self.list.len();
        let mut least = if best < self.most {
            self.bits.cost_with_head(self.scale, counts)
        } else {
            u64::MAX
        };
        for number in 0..self.list.len() {
            let old = &self.list[number];
            let sums = sum_of(counts, &old.counts);
            let cost = self.bits.cost_with_head(self.scale, &sums);
            let more = cost.saturating_sub(old.cost);
            if more < least {
                least = more;
                best = number;
            }
        }
        (best, least)
    }

    /// Sets the symbols of a cluster, which costs nothing if it has none; returns how much less it costs.
    fn set(&mut self, number: usize, counts: Counts) -> u64 {
        let cost = if symbols_in(&counts) > 0 {
            self.bits.cost_with_head(self.scale, &counts)
        } else {
            0
        };
        match self.list.get_mut(number) {
            Some(cluster) => {
                let saved = cluster.cost.saturating_sub(cost);
                *cluster = Cluster { counts, cost };
                saved
            }
            None => 0,
        }
    }

    /// Adds symbols to a cluster, or to a new one if there is none of this number.
    pub(crate) fn put_in(&mut self, number: usize, counts: &Counts) -> Result<(), OutOfMemory> {
        match self.list.get(number) {
            Some(cluster) => {
                let sums = sum_of(counts, &cluster.counts);
                self.set(number, sums);
            }
            None => self.list.push(Cluster {
                counts: *counts,
                cost: self.bits.cost_with_head(self.scale, counts),
            })?,
        }
        Ok(())
    }

    /// Takes symbols out of a cluster; returns by how much less all clusters cost.
    pub(crate) fn take_out(&mut self, number: usize, counts: &Counts) -> u64 {
        match self.list.get(number) {
            Some(cluster) => {
                let rest = rest_of(&cluster.counts, counts);
                self.set(number, rest)
            }
            None => 0,
        }
    }

    /// Moves the symbols of the second cluster to the first if both then cost less. Returns whether it did.
    pub(crate) fn unite(&mut self, first: usize, second: usize) -> bool {
        let (Some(one), Some(other)) = (self.list.get(first), self.list.get(second)) else {
            return false;
        };
        if one.cost == 0 || other.cost == 0 {
            return false;
        }
        let sums = sum_of(&one.counts, &other.counts);
        let cost = self.bits.cost_with_head(self.scale, &sums);
        if cost >= one.cost.saturating_add(other.cost) {
            return false;
        }
        self.set(first, sums);
        self.set(second, NONE);
        true
    }
}
