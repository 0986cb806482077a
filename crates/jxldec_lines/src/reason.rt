//! Why a file is not decoded, in words.

ghost use Rattle.std.specs.Prelude.{◌≡◌, Some};
ghost use Rattle.jxldec_lines.specs.Reasons.{animation_text, box_text as the_box_text, front_text, layer_text, patch_text, frame_text, file_text};

use crate::cause::Cause;
use crate::codes::decoder_text;
use jxl_animation::AnimationError;
use jxl_codestream::error::FrontError;
use jxl_container::error::FileError as BoxError;
use jxl_info::reasons::{frame_reason, image_reason};
use jxl_layers::error::LayerError;
use jxl_lossless::{FileError, FrameError};
use jxl_patches::error::PatchError;
use std::fmt;

/// Why a file has no codestream that is read, or what is wrong after it.
#[tactic(auto, unfolding(crate::specs::Reasons::box_text))]
pub fn box_text(error: BoxError) -> &'static str
    ensures { result.now ≡ the_box_text error }
{
    match error {
        BoxError::NotJpegXl => "not a JPEG XL file",
        BoxError::TruncatedBox => "a box that passes the end of the file",
        BoxError::BoxTooSmall => "a box that is too small",
        BoxError::FileType => "a file type box that is missing, repeated or of another brand",
        BoxError::SecondCodestream => "a second codestream",
        BoxError::PartAfterLast => "a part of the codestream after its last part",
        BoxError::PartOutOfOrder => "a part of the codestream out of order",
        BoxError::NoLastPart => "a codestream without its last part",
        BoxError::NoCodestream => "no codestream",
        BoxError::JpegReconstruction => "not supported: a JPEG file to be rebuilt",
        BoxError::CompressedCodestream => "not supported: a compressed box of the codestream",
        BoxError::OutOfMemory => "out of memory",
    }
}

// What is wrong before the sections of frames, or not supported.
#[derive(Clone, Copy)]
struct FrontReason(FrontError);

impl fmt::Display for FrontReason {
    ghost output = { λ reason. Some (front_text reason.0) };

    #[tactic(auto, unfolding(crate::specs::Reasons::front_text))]
    fn fmt<W: fmt::Write>(&self, f: &mut fmt::Formatter<W>) -> fmt::Result {
        match self.0 {
            FrontError::TooLong => f.write_str("a codestream that is too long"),
            FrontError::ImageHeader(error) => {
                let cause = Cause(error);
                write!(f, "image header: {cause}")
            }
            FrontError::Image(refusal) => {
                let reason = image_reason(refusal);
                write!(f, "not supported: {reason}")
            }
            FrontError::TooLarge => f.write_str("a picture above the limits"),
            FrontError::Profile(error) => {
                let cause = Cause(error);
                write!(f, "colour profile: {cause}")
            }
            FrontError::FrameHeader(error) => {
                let cause = Cause(error);
                write!(f, "frame header: {cause}")
            }
            FrontError::Frame(refusal) => {
                let reason = frame_reason(refusal);
                write!(f, "not supported: {reason}")
            }
            FrontError::FramesTooLarge => f.write_str("frames above the limits"),
            FrontError::TooManySections => {
                f.write_str("not supported: more than 16777216 sections")
            }
            FrontError::Contents(error) => {
                let cause = Cause(error);
                write!(f, "table of contents: {cause}")
            }
            FrontError::TruncatedSection(number) => write!(f, "section {number} is truncated"),
        }
    }
}

// What is wrong with the patches of a frame, or not supported.
#[derive(Clone, Copy)]
struct PatchReason(PatchError);

impl fmt::Display for PatchReason {
    ghost output = { λ reason. Some (patch_text reason.0) };

    #[tactic(auto, unfolding(crate::specs::Reasons::patch_text))]
    fn fmt<W: fmt::Write>(&self, f: &mut fmt::Formatter<W>) -> fmt::Result {
        match self.0 {
            PatchError::Invalid { name, value } => write!(f, "invalid value {value} for {name}"),
            PatchError::Decoder(error) => {
                let text = decoder_text(error);
                write!(f, "entropy decoder error: {text}")
            }
            PatchError::TooLarge => f.write_str("patches of too many cells"),
            PatchError::OutOfMemory => f.write_str("out of memory"),
        }
    }
}

// What is wrong with the samples of a frame, or not supported.
#[derive(Clone, Copy)]
struct FrameReason(FrameError);

impl fmt::Display for FrameReason {
    ghost output = { λ reason. Some (frame_text reason.0) };

    #[tactic(auto, unfolding(crate::specs::Reasons::frame_text))]
    fn fmt<W: fmt::Write>(&self, f: &mut fmt::Formatter<W>) -> fmt::Result {
        match self.0 {
            FrameError::Header(error) => {
                let cause = Cause(error);
                write!(f, "image: {cause}")
            }
            FrameError::WeightedPalette => {
                f.write_str("not supported: a palette with weighted deltas")
            }
            FrameError::NoGroups => f.write_str("a group of no columns or rows"),
            FrameError::NoSection => f.write_str("a group without a section"),
            FrameError::GroupWeightedPalette => {
                f.write_str("not supported: a palette with weighted deltas in a group")
            }
            FrameError::TooManyCodewords => {
                f.write_str("codes of sections: more codewords than the limit")
            }
            FrameError::TooManyDecisions => {
                f.write_str("tree of a section: more decisions than the limit")
            }
            FrameError::Samples(error) => {
                let cause = Cause(error);
                write!(f, "samples: {cause}")
            }
            FrameError::OutOfMemory => f.write_str("out of memory"),
        }
    }
}

/// Why a file is not decoded, with words for what the entropy decoder refuses.
#[derive(Clone, Copy)]
pub struct Reason(pub FileError);

impl fmt::Display for Reason {
    ghost output = { λ reason. Some (file_text reason.0) };

    #[tactic(auto, unfolding(crate::specs::Reasons::file_text))]
    fn fmt<W: fmt::Write>(&self, f: &mut fmt::Formatter<W>) -> fmt::Result {
        match self.0 {
            FileError::File(error) => f.write_str(box_text(error)),
            FileError::Front(error) => {
                let reason = FrontReason(error);
                write!(f, "{reason}")
            }
            FileError::Patches(error) => {
                let reason = PatchReason(error);
                write!(f, "patches: {reason}")
            }
            FileError::Start(error) => {
                let cause = Cause(error);
                write!(f, "first section: {cause}")
            }
            FileError::Tree(error) => {
                let cause = Cause(error);
                write!(f, "global tree: {cause}")
            }
            FileError::TooManyDecisions => {
                f.write_str("global tree: more decisions than the limit")
            }
            FileError::Samples(error) => {
                let reason = FrameReason(error);
                write!(f, "{reason}")
            }
            FileError::OutOfMemory => f.write_str("out of memory"),
        }
    }
}

// Why a frame is not composed with others.
#[derive(Clone, Copy)]
struct LayerReason(LayerError);

impl fmt::Display for LayerReason {
    ghost output = { λ reason. Some (layer_text reason.0) };

    #[tactic(auto, unfolding(crate::specs::Reasons::layer_text))]
    fn fmt<W: fmt::Write>(&self, f: &mut fmt::Formatter<W>) -> fmt::Result {
        match self.0 {
            LayerError::BlendedFloats => f.write_str("not supported: blended floats"),
            LayerError::ShiftedChannels => {
                f.write_str("not supported: layers beside an extra channel of another size")
            }
            LayerError::Background(slot) => {
                write!(
                    f,
                    "a frame blended with one of another size, in slot {slot}"
                )
            }
        }
    }
}

/// Why the frames of a file are not decoded.
#[derive(Clone, Copy)]
pub struct AnimationReason(pub AnimationError);

impl fmt::Display for AnimationReason {
    ghost output = { λ reason. Some (animation_text reason.0) };

    #[tactic(auto, unfolding(crate::specs::Reasons::animation_text))]
    fn fmt<W: fmt::Write>(&self, f: &mut fmt::Formatter<W>) -> fmt::Result {
        match self.0 {
            AnimationError::File(error) => {
                let reason = Reason(error);
                write!(f, "{reason}")
            }
            AnimationError::Layer(error) => {
                let reason = LayerReason(error);
                write!(f, "{reason}")
            }
        }
    }
}
