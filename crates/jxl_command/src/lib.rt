//! What the programs for .jxl files share: the input, the output, standard error, the data beside a picture, the progress
//! line, and how they end.
#![tactic(auto)]

pub mod end;
pub mod errors;
pub mod extra;
pub mod files;
pub mod input;
pub mod meter;
pub mod output;
pub mod shown;
pub mod words;
