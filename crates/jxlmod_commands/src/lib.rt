//! What a program that prints and encodes Modular images is made of: its arguments, the text of a picture, the bytes of a
//! text, and its run over a reader and two writers.
#![tactic(auto)]

pub mod arguments;
pub mod encoding;
pub mod picture;
pub mod printer;
pub mod refusal;
pub mod run;
