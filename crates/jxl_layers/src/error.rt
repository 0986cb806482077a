//! Why a frame is not composed.

/// Why a frame is not composed with what the slots hold.
#[derive(Clone, Copy, Debug, PartialEq, Eq, thiserror::Error)]
pub enum LayerError {
    /// Samples that are floats of fewer than 32 bits are blended.
    #[error("not supported: blended floats")]
    BlendedFloats,
    /// A frame that does not replace the whole picture has an extra channel of another size.
    #[error("not supported: layers beside an extra channel of another size")]
    ShiftedChannels,
    /// A frame is blended with a saved frame that is not as large as the picture, in this slot.
    #[error("a frame blended with one of another size, in slot {0}")]
    Background(u32),
}
