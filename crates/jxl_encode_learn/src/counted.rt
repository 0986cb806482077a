//! What a tree is learnt from.

use crate::axis::Axis;
use crate::counts::{Counts, NONE};
use crate::symbols::SYMBOLS;
use jxlm_base::grid::OutOfMemory;
use jxlm_predictor::predictor::Predictor;
use std::alloc::Global;

/// A class of samples that are alike and were counted as one.
#[derive(Clone, Copy)]
pub(crate) struct Class {
    /// Its number.
    pub(crate) number: u32,
    /// How many samples it has.
    pub(crate) weight: u32,
}

/// Samples that were counted in classes.
#[derive(Drop)]
pub struct Counted {
    /// What the classes are told apart by.
    pub axes: Vec<Axis>,
    /// The predictors by which residuals were counted.
    pub predictors: &'static [Predictor],
    /// For each axis the places of all classes.
    pub places: Vec<Vec<u8>>,
    /// For each predictor the symbols of all classes.
    pub symbols: Vec<Vec<u8>>,
    /// How many samples each class has.
    pub weights: Vec<u32>,
}

/// The list of this number.
pub(crate) fn list_at(lists: &[Vec<u8>], number: usize) -> &[u8] {
    match lists.get(number) {
        Some(list) => list,
        None => &[],
    }
}

impl Counted {
    /// The predictor of this number.
    pub(crate) fn predictor(&self, kind: usize) -> Predictor {
        self.predictors
            .get(kind)
            .copied()
            .unwrap_or(Predictor::Gradient)
    }

    /// All classes.
    pub(crate) fn classes(&self, alloc: Global) -> Result<Vec<Class>, OutOfMemory> {
        let mut classes = Vec::new(alloc);
        let mut number: u32 = 0;
        for weight in &self.weights {
            classes.push(Class {
                number,
                weight: *weight,
            })?;
            number = number.saturating_add(1);
        }
        Ok(classes)
    }

    /// How often each symbol occurs among the samples of these classes by a predictor.
    pub(crate) fn counts(&self, classes: &[Class], kind: usize) -> Counts {
        let symbols = list_at(&self.symbols, kind);
        let mut counts = NONE;
        for class in classes {
            let symbol = symbols.get(class.number as usize).copied().unwrap_or(0);
            if let Some(count) = counts.get_mut(symbol as usize) {
                *count = count.wrapping_add(class.weight);
            }
        }
        counts
    }

    /// Adds the counts of the symbols of these classes by a predictor, those at each place of an axis apart.
    pub(crate) fn add_places(&self, sums: &mut [u32], classes: &[Class], kind: usize, axis: usize) {
        let symbols = list_at(&self.symbols, kind);
        let places = list_at(&self.places, axis);
        for class in classes {
            let number = class.number as usize;
            let place = places.get(number).copied().unwrap_or(0) as usize;
            let symbol = symbols.get(number).copied().unwrap_or(0) as usize;
            let at = place.wrapping_mul(SYMBOLS).wrapping_add(symbol);
            if let Some(sum) = sums.get_mut(at) {
                *sum = sum.wrapping_add(class.weight);
            }
        }
    }
}
