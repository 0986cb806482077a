//! The codes of clusters, as they are read.

ghost use Rattle.std.specs.List.{All};
ghost use Rattle.jxl_coding_codes.specs.IntegerConfigs.{IsConfig};

use crate::codes::ClusterCode;
use jxl_coding_codes::ans::Bucket;

/// The codes of clusters that were read, and the symbols and buckets of them all.
#[derive(Drop)]
pub struct Coded {
    pub cluster_codes: Vec<ClusterCode>,
    pub symbols: Vec<u32>,
    pub buckets: Vec<Bucket>,
    /// The sum of the sizes of their alphabets.
    pub alphabets: u64,
    ghost rules: { All (λ code. IsConfig code.config) cluster_codes.items },
}
