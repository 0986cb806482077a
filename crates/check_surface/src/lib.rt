//! Tests of the public surface, by its names.
#![tactic(auto)]

#[cfg(test)]
mod compared;
#[cfg(test)]
mod surface;

#[cfg(test)]
use compared::compare;
