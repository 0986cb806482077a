//! Laws of lossless .jxl files: a file has one picture, and one that has a picture is decoded.
#![tactic(auto)]

pub mod laws;
