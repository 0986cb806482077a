//! Predictors, properties, and the state between two samples.
#![tactic(auto)]

pub mod clamping;
pub mod earlier;
pub mod eighths;
pub mod place;
mod predictions;
pub mod predictor;
mod properties;
mod state;
