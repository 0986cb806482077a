//! Why a codestream is not decoded whose headers stand, in words.

ghost use Rattle.std.specs.Prelude.{◌≡◌, ◌++◌, OnOk, IsTrue, string_bytes};
ghost use Rattle.jxl_info.specs.Reasons.{image_reason as the_image_reason, frame_reason as the_frame_reason, is_refusal as the_is_refusal, reason_text};

use jxl_codestream::error::FrontError;
use jxl_frame_header::refusal::Refusal as FrameRefusal;
use jxl_image_header::refusal::Refusal as ImageRefusal;
use jxlm_base::grid::OutOfMemory;

/// What of an image header is not supported.
#[tactic(auto, unfolding(crate::specs::Reasons::image_reason))]
pub fn image_reason(refusal: ImageRefusal) -> &'static str
    ensures { result.now ≡ the_image_reason refusal }
{
    match refusal {
        ImageRefusal::Preview => "a preview",
        ImageRefusal::Animation => "an animation",
        ImageRefusal::ExtraSize => "an extra channel with a shift above 3",
        ImageRefusal::Xyb => "a lossy picture (XYB)",
    }
}

/// What of a frame header is not supported.
#[tactic(auto, unfolding(crate::specs::Reasons::frame_reason))]
pub fn frame_reason(refusal: FrameRefusal) -> &'static str
    ensures { result.now ≡ the_frame_reason refusal }
{
    match refusal {
        FrameRefusal::VarDct => "VarDCT",
        FrameRefusal::LfFrame => "a frame of low frequencies",
        FrameRefusal::SkippedFrame => "a frame that is skipped",
        FrameRefusal::Noise => "noise",
        FrameRefusal::FloatPatches => "patches on floats",
        FrameRefusal::ShiftedPatches => "patches beside an extra channel of another size",
        FrameRefusal::Splines => "splines",
        FrameRefusal::UseLfFrame => "low frequencies of another frame",
        FrameRefusal::YCbCr => "YCbCr",
        FrameRefusal::Upsampling => "upsampling",
        FrameRefusal::ExtraUpsampling => "upsampling of an extra channel",
        FrameRefusal::Crop => "a cropped frame",
        FrameRefusal::EmptyFrame => "a frame without samples",
        FrameRefusal::Blending => "blending",
        FrameRefusal::ExtraBlending => "blending of an extra channel",
        FrameRefusal::Frames => "several frames",
        FrameRefusal::SavedAfter => "a frame saved after its colours were changed",
        FrameRefusal::LoopFilter => "a loop filter",
    }
}

/// Whether the headers stand, and yet the codestream is not decoded.
pub fn is_refusal(error: FrontError) -> bool
    ensures { result ≡ the_is_refusal error }
{
    match error {
        FrontError::Image(_) | FrontError::Frame(_) => true,
        FrontError::TooLarge | FrontError::FramesTooLarge => true,
        FrontError::TooManySections => true,
        FrontError::TruncatedSection(_) => true,
        _ => false,
    }
}

/// Adds the reason, as the error prints it; of an error that is no refusal, nothing.
#[tactic(auto, unfolding(crate::specs::Reasons::reason_text))]
pub fn append_reason(text: &mut String, error: FrontError) -> Result<(), OutOfMemory>
    ensures { OnOk result (string_bytes text.new ≡ string_bytes text.old ++ reason_text error) }
{
    match error {
        FrontError::Image(refusal) => {
            let reason = image_reason(refusal);
            write!(text, "not supported: {reason}")?;
        }
        FrontError::Frame(refusal) => {
            let reason = frame_reason(refusal);
            write!(text, "not supported: {reason}")?;
        }
        FrontError::TooLarge => write!(text, "a picture above the limits")?,
        FrontError::FramesTooLarge => write!(text, "frames above the limits")?,
        FrontError::TooManySections => {
            write!(text, "not supported: more than 16777216 sections")?;
        }
        FrontError::TruncatedSection(number) => write!(text, "section {number} is truncated")?,
        _ => {}
    }
    Ok(())
}
