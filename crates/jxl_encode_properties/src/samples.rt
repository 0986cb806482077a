//! Samples with their properties.

use crate::kept::{Weights, hash_of_both};
use jxl_encode_learn::axis::Axis;
use jxl_encode_learn::counted::Counted;
use jxl_encode_learn::symbols::symbol_of;
use jxlm_base::grid::OutOfMemory;
use jxlm_predictor::predictor::Predictor;
use std::alloc::Global;

/// Samples: where each is on the axes, and its symbols by the predictors. Samples that are alike are mostly counted together.
#[derive(Drop)]
pub(crate) struct Samples {
    axes: Vec<Axis>,
    predictors: &'static [Predictor],
    // For each axis the places of all samples.
    places: Vec<Vec<u8>>,
    // For each predictor the symbols of all samples.
    symbols: Vec<Vec<u8>>,
    /// How many samples each stands for.
    pub(crate) weights: Weights,
}

/// Adds one number to each of the first lists.
fn add_each(lists: &mut [Vec<u8>], numbers: &[usize]) -> Result<(), OutOfMemory> {
    for at in 0..numbers.len() {
        if let Some(list) = lists.get_mut(at) {
            list.push(numbers[at].min(255) as u8)?;
        }
    }
    Ok(())
}

/// The number of cuts below a value, which are in rising order.
fn cuts_below(cuts: &[i32], value: i32) -> usize {
    let mut low: usize = 0;
    let mut high = cuts.len();
    for _ in 0..9 {
        if low < high {
            let middle = low.saturating_add(high) / 2;
            if value > cuts.get(middle).copied().unwrap_or(i32::MAX) {
                low = middle.saturating_add(1);
            } else {
                high = middle;
            }
        }
    }
    low
}

/// This number of empty lists.
fn empty_lists(alloc: Global, count: usize) -> Result<Vec<Vec<u8>>, OutOfMemory> {
    let mut lists = Vec::new(alloc);
    for _ in 0..count {
        lists.push(Vec::new(alloc))?;
    }
    Ok(lists)
}

impl Samples {
    /// No samples, on these axes, by these predictors.
    pub(crate) fn new(
        alloc: Global,
        axes: Vec<Axis>,
        predictors: &'static [Predictor],
    ) -> Result<Samples, OutOfMemory> {
        let places = empty_lists(alloc, axes.len())?;
        let symbols = empty_lists(alloc, predictors.len())?;
        Ok(Samples {
            axes,
            predictors,
            places,
            symbols,
            weights: Weights::new(alloc)?,
        })
    }

    /// Adds a sample with its places and symbols.
    pub(crate) fn add(&mut self, places: &[usize], symbols: &[usize]) -> Result<(), OutOfMemory> {
        let hash = hash_of_both(places, symbols);
        if self.weights.count(hash)? {
            return Ok(());
        }
        add_each(&mut self.places, places)?;
        add_each(&mut self.symbols, symbols)
    }

    /// Adds the symbols of a sample by what the predictors make of it.
    pub(crate) fn add_symbols(
        &mut self,
        predicted: &[i32],
        sample: i32,
    ) -> Result<(), OutOfMemory> {
        for kind in 0..predicted.len() {
            if let Some(list) = self.symbols.get_mut(kind) {
                let symbol = symbol_of(sample.wrapping_sub(predicted[kind]));
                list.push(symbol.min(255) as u8)?;
            }
        }
        Ok(())
    }

    /// Adds an axis, on which the samples have these values.
    pub(crate) fn add_axis(
        &mut self,
        alloc: Global,
        axis: Axis,
        values: &[i32],
    ) -> Result<(), OutOfMemory> {
        let mut places = Vec::new(alloc);
        for value in values {
            places.push(cuts_below(&axis.cuts, *value).min(255) as u8)?;
        }
        self.axes.push(axis)?;
        self.places.push(places)?;
        Ok(())
    }

    /// What a tree is learnt from.
    pub(crate) fn counted(self) -> Counted {
        Counted {
            axes: self.axes,
            predictors: self.predictors,
            places: self.places,
            symbols: self.symbols,
            weights: self.weights.list,
        }
    }
}
