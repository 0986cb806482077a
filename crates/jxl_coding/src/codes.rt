//! What an entropy decoder is made of: clusters, and the code of each.

use jxl_coding_codes::config::IntegerConfig;

/// How tokens of the past are copied.
#[derive(Clone, Copy)]
pub struct Lz77 {
    /// From this symbol on a symbol tells how many are copied.
    pub min_symbol: u32,
    /// The minimum of them.
    pub min_length: u32,
    /// How a symbol becomes a number of tokens.
    pub length_config: IntegerConfig,
    /// The cluster of the distances.
    pub cluster: u8,
}

/// What the symbols of a cluster are.
#[derive(Clone, Copy)]
pub struct ClusterCode {
    /// How a symbol becomes a token.
    pub config: IntegerConfig,
    /// The only symbol, if there is but one; it takes no bits.
    pub only: Option<u32>,
    /// Where the cluster's symbols, or its buckets, begin in the list of all.
    pub start: u32,
    /// How many codewords have each length, from 1 on.
    pub counts: [u32; 15],
}

/// How symbols are coded.
#[derive(Clone, Copy)]
pub enum Coder {
    /// By codewords.
    Prefix,
    /// By 4096 slots.
    Ans,
}
