//! How a program ends.

/// How a program ends.
#[derive(Clone, Copy)]
pub struct End {
    /// The status.
    pub status: u8,
    /// Whether standard error got all lines that there are.
    pub reported: bool,
}
