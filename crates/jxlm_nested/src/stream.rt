//! The stream of a part's samples, as its caller names it.

/// Which stream a part's samples are read from, and whether it may be truncated.
#[derive(Clone, Copy)]
pub struct Stream {
    /// The index of the stream, which is property 1 of its samples.
    pub index: u32,
    /// Whether the input may end before all samples are decoded.
    pub allow_partial: bool,
}
