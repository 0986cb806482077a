//! Positions in the stream.

/// The positions of the next command and of the next byte of the data.
#[derive(Clone, Copy)]
pub struct Walk {
    /// How many bytes of the stream are before the next command.
    pub place: usize,
    /// How many bytes of the stream are before the next byte of the data.
    pub data: usize,
}
