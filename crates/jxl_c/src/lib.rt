//! Lossless JPEG XL pictures for C: `include/jxl_lossless.h` declares these functions.
//!
//! A file that lies in memory is decoded into samples or pixels of the caller's, and samples are encoded into a file.
//! Nothing is kept between calls: a call gives back the memory that it takes before it returns.
#![tactic(auto)]

mod cells;
mod channels;
mod decode;
mod encode;
mod info;
mod limits;
mod message;
mod open;
mod picture;
mod pixels;
mod profile;
mod status;
