//! What a codestream may have that is not supported, by name.

/// What a codestream has that is not supported.
#[derive(Clone, Copy, Debug, PartialEq, Eq, thiserror::Error)]
pub enum Refusal {
    /// A smaller picture comes first.
    #[error("a preview")]
    Preview,
    /// The picture is animated.
    #[error("an animation")]
    Animation,
    /// An extra channel has sides that are less than an eighth of the picture's.
    #[error("an extra channel with a shift above 3")]
    ExtraSize,
    /// Colours are XYB.
    #[error("XYB")]
    Xyb,
}
