//! Rows of tables as the programs that check them read them: files of rows, the words of a row, and how samples are
//! written.
#![tactic(auto)]

mod row;
mod samples;
mod table;
mod text;

pub use row::Row;
pub use samples::listed;
pub use table::{Kinds, check_arguments};
pub use text::{bytes, number, numbers, repeated, signed, text_sum, word};
