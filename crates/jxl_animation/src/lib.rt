//! The frames of a JPEG XL file, one after another: the pictures of an animation, or the layers of a picture.
#![tactic(auto)]

pub mod error;
pub mod frames;

pub use error::AnimationError;
pub use frames::{FrameDecoder, ShownFrame, ShownPicture, decode_frame};
