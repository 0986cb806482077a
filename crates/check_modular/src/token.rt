//! Tokens of single samples.
//!
//! A row asks with the leaf's multiplier, which is odd, and its offset, the sample and the prediction. It gives the
//! token.

use check_rows::{number, word};
use jxl_modular::encode::token_of;
use jxl_modular::flat::Leaf;
use jxl_modular::predictor::Predictor;
use std::alloc::Global;

fn next(text: &str) -> Option<(i32, &str)> {
    let (first, rest) = word(text);
    Some((first.parse::<i32>().ok()?, rest))
}

/// The token that a row asks for.
pub fn seen(alloc: Global, asked: &str) -> Option<String> {
    let (first, rest) = word(asked);
    let multiplier = number(first)?;
    let (offset, rest) = next(rest)?;
    let (sample, rest) = next(rest)?;
    let (prediction, _) = next(rest)?;
    if multiplier % 2 == 0 {
        return None;
    }
    let leaf = Leaf {
        cluster: 0,
        predictor: Predictor::Zero,
        offset,
        multiplier,
    };
    format!(in alloc; "{}", token_of(&leaf, sample, prediction)).ok()
}
