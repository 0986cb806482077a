//! Why the frames of a codestream are not decoded.

use jxl_frame_header::refusal::Refusal as FrameRefusal;
use jxl_image_header::refusal::Refusal as ImageRefusal;
use jxlm_bits::error::Error;

/// Why the frames of a codestream are not decoded: the first reason in the order of its bits.
#[derive(Clone, Copy, Debug, PartialEq, Eq, thiserror::Error)]
pub enum FrontError {
    /// The codestream has 2^61 bytes or more.
    #[error("a codestream that is too long")]
    TooLong,
    /// The image header has this error.
    #[error("image header: {0}")]
    ImageHeader(Error),
    /// The image header says what is not supported.
    #[error("not supported: {0}")]
    Image(ImageRefusal),
    /// The picture is larger than the limits allow.
    #[error("a picture above the limits")]
    TooLarge,
    /// The colour profile, or the bits between it and the frame, have this error.
    #[error("colour profile: {0}")]
    Profile(Error),
    /// The header of a frame has this error.
    #[error("frame header: {0}")]
    FrameHeader(Error),
    /// The header of a frame says what is not supported.
    #[error("not supported: {0}")]
    Frame(FrameRefusal),
    /// The frames up to this one are together larger than the limits allow a picture to be.
    #[error("frames above the limits")]
    FramesTooLarge,
    /// A frame has more than 2^24 sections.
    #[error("not supported: more than 16777216 sections")]
    TooManySections,
    /// The table of contents of a frame has this error.
    #[error("table of contents: {0}")]
    Contents(Error),
    /// The section of this number, of a frame, passes the end of the codestream.
    #[error("section {0} is truncated")]
    TruncatedSection(usize),
}
