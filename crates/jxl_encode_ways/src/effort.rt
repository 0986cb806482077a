//! How much time an encoder takes.

/// How much time an encoder takes for a shorter file.
#[derive(Clone, Copy, Debug, PartialEq, Eq)]
pub enum Effort {
    /// As little as it can.
    Fast,
    /// More, where it pays.
    Usual,
    /// All that it has a use for.
    Best,
}
