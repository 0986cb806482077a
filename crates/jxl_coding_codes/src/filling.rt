//! Buckets, as they are filled.

ghost use Rattle.std.specs.Prelude.{◌<◌, ◌≤◌, ◌^◌, length};
ghost use Rattle.std.specs.List.{All};

use crate::ans::Bucket;

/// Buckets, as they are filled.
#[derive(Drop)]
pub struct Filling {
    pub buckets: Vec<Bucket>,
    /// Those that have more slots than a bucket holds, the next last.
    pub overfull: Vec<usize>,
    /// Those that have fewer, the next last.
    pub underfull: Vec<usize>,
    ghost few: { length buckets.items ≤ 2 ^ 8 },
    ghost overfull_within: { All (λ i. i < length buckets.items) overfull.items },
    ghost underfull_within: { All (λ i. i < length buckets.items) underfull.items },
}
