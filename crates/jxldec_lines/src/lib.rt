//! The lines that `jxldec` prints on standard error: why the output does not get what is asked for, and what it leaves
//! out of a file in the format that it has.
#![tactic(auto)]

mod cause;
mod codes;
pub mod ending;
pub mod failures;
pub mod format;
pub mod loss;
mod reason;
pub mod refusals;
pub mod warning;
