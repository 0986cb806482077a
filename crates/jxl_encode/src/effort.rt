//! How much time an encoder takes.

pub use jxl_encode_ways::effort::Effort;
