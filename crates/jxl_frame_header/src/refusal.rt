//! What a frame may have that is not supported, by name.

/// What a frame has that is not supported.
#[derive(Clone, Copy, Debug, PartialEq, Eq, thiserror::Error)]
pub enum Refusal {
    /// The frame is coded as VarDCT.
    #[error("VarDCT")]
    VarDct,
    /// The frame holds the low frequencies of another.
    #[error("a frame of low frequencies")]
    LfFrame,
    /// The frame is not shown while the image is loaded.
    #[error("a frame that is skipped")]
    SkippedFrame,
    /// Noise is added.
    #[error("noise")]
    Noise,
    /// Parts of other frames are put into it, and samples of colours or of an extra channel are floats.
    #[error("patches on floats")]
    FloatPatches,
    /// Parts of other frames are put into it, and an extra channel has a size of its own.
    #[error("patches beside an extra channel of another size")]
    ShiftedPatches,
    /// Curves are drawn.
    #[error("splines")]
    Splines,
    /// Another frame holds its low frequencies.
    #[error("low frequencies of another frame")]
    UseLfFrame,
    /// Colours are YCbCr.
    #[error("YCbCr")]
    YCbCr,
    /// Colours have a lower resolution.
    #[error("upsampling")]
    Upsampling,
    /// An extra channel has a lower resolution.
    #[error("upsampling of an extra channel")]
    ExtraUpsampling,
    /// It is shown, and has a size and a place of its own.
    #[error("a cropped frame")]
    Crop,
    /// It has a side of 0.
    #[error("a frame without samples")]
    EmptyFrame,
    /// Its colours are blended with those of another frame.
    #[error("blending")]
    Blending,
    /// An extra channel is blended with that of another frame.
    #[error("blending of an extra channel")]
    ExtraBlending,
    /// It is shown, and others follow it.
    #[error("several frames")]
    Frames,
    /// It is saved for others after its colours were transformed.
    #[error("a frame saved after its colours were changed")]
    SavedAfter,
    /// A filter is applied to what was decoded.
    #[error("a loop filter")]
    LoopFilter,
}
