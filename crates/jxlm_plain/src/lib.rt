//! Plain entropy decoders: tokens of fixed width, constants, gamma codes, runs, and a sum that seals them.
#![tactic(auto)]

mod gamma;
pub mod plain;
pub mod plain2;
mod runs;
