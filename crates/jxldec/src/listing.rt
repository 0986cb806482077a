//! What `--info` prints of a file that has several pictures, or layers.

ghost use Rattle.std.specs.Prelude.{◌≡◌, ◌++◌, ℕ, IfErr, IfOk, MatchBool, None, OnOk, Option, string_bytes};
ghost use Rattle.jxl_frame_info.specs.Lines.{timeline_lines};
ghost use Rattle.jxl_image_header.specs.Images.{image_of};
ghost use Rattle.jxl_info.specs.Headers.{is_boxed as the_is_boxed};
ghost use Rattle.jxl_info.specs.Texts.{info_text as the_info_text, reason_line};
ghost use Rattle.jxldec.specs.Layers.{lists_frames as the_lists_frames};
ghost use Rattle.jxldec.specs.Texts.{AreListed, FrameTextFails, IsInfoOfFrames, IsPrinted, ListFails};
ghost use Rattle.jxldec_lines.specs.declared.format.OutputFormat.{OutputFormat as TheFormat};

use crate::layers::lists_frames;
use jxl_animation::AnimationError;
use jxl_codestream::error::FrontError;
use jxl_container::codestream::find_codestream;
use jxl_frame_info::text::append_timeline;
use jxl_frame_info::timeline::{Timeline, TimelineError};
use jxl_image_header::image::ImageHeader;
use jxl_info::headers::{Headers, is_boxed};
use jxl_info::reasons::{append_reason, is_refusal};
use jxl_info::text::info_text;
use jxl_lossless::{FileError, Limits};
use jxldec_lines::failures::Failure;
use jxlm_base::grid::OutOfMemory;
use std::alloc::Global;

// Adds why frames are not decoded, if there is a reason.
#[tactic(auto, unfolding(jxl_info::specs::Texts::reason_line))]
fn append_reason_line(text: &mut String, reason: Option<FrontError>) -> Result<(), OutOfMemory>
    ensures { OnOk result (string_bytes text.new ≡ string_bytes text.old ++ reason_line reason) }
{
    if let Some(error) = reason {
        append_reason(text, error)?;
        writeln!(text)?;
    }
    Ok(())
}

// The lines on a file with this image header and these frames.
fn listing_text(
    alloc: Global,
    boxed: bool,
    image: &ImageHeader,
    timeline: &Timeline,
) -> Result<String, OutOfMemory>
    ensures { IfOk result (λ t. string_bytes t ≡ the_info_text boxed (image_of image.now) None
        ++ timeline_lines image.now.animation timeline.now.durations.items ++ reason_line timeline.now.reason) }
{
    let mut text = info_text(alloc, boxed, image, None)?;
    append_timeline(&mut text, image.animation, &timeline.durations)?;
    append_reason_line(&mut text, timeline.reason)?;
    Ok(text)
}

/// For how long the pictures of a file are shown.
pub fn timeline_of_file(alloc: Global, file: &[u8], limits: &Limits) -> Result<Timeline, Failure>
    ensures ok { IfOk result (AreListed limits.now file.now) }
    ensures err { IfErr result (ListFails limits.now file.now) }
    ensures err_of_frames { (number : ℕ) (asked : Option TheFormat) → IfErr result (FrameTextFails limits.now file.now
        number asked) }
{
    let stream = match find_codestream(alloc, file) {
        Ok(found) => found.codestream,
        Err(error) => return Err(Failure::File(FileError::File(error))),
    };
    match Timeline::read(alloc, stream.bytes(), limits) {
        Ok(timeline) => Ok(timeline),
        Err(TimelineError::Front(error)) => Err(Failure::of_frames(error)),
        Err(TimelineError::OutOfMemory) => Err(Failure::OutOfMemory),
    }
}

// For how long the pictures of a file are shown; if a header of its frames is malformed, the error.
fn printed_timeline(alloc: Global, file: &[u8], limits: &Limits) -> Result<Timeline, Failure>
    ensures ok { IfOk result (AreListed limits.now file.now) }
    ensures printed { IfOk result (λ t. IsPrinted t.reason) }
    ensures err { IfErr result (ListFails limits.now file.now) }
{
    let timeline = timeline_of_file(alloc, file, limits)?;
    match timeline.reason {
        Some(error) => {
            if is_refusal(error) {
                Ok(timeline)
            } else {
                Err(Failure::of_frames(error))
            }
        }
        None => Ok(timeline),
    }
}

// The lines on a file with this image header.
fn text_of_frames(
    alloc: Global,
    file: &[u8],
    image: &ImageHeader,
    limits: &Limits,
) -> Result<String, Failure>
    ensures text { IfOk result (λ t. IsInfoOfFrames limits.now file.now (image_of image.now) (string_bytes t)) }
    ensures err { IfErr result (ListFails limits.now file.now) }
{
    let timeline = printed_timeline(alloc, file, limits)?;
    match listing_text(alloc, is_boxed(file), image, &timeline) {
        Ok(text) => Ok(text),
        Err(_) => Err(Failure::OutOfMemory),
    }
}

/// What is printed of a file with these headers: of one that has several pictures, or layers, also for how long each is
/// shown.
pub fn text_of_headers(
    alloc: Global,
    file: &[u8],
    headers: &Headers,
    limits: &Limits,
) -> Result<String, Failure>
    ensures text { IfOk result (λ t. MatchBool (the_lists_frames headers.now.reason)
        (IsInfoOfFrames limits.now file.now (image_of headers.now.image) (string_bytes t))
        (string_bytes t ≡ the_info_text (the_is_boxed file.now) (image_of headers.now.image) headers.now.reason)) }
    ensures err { IfErr result (ListFails limits.now file.now) }
{
    if lists_frames(headers.reason) {
        return text_of_frames(alloc, file, &headers.image, limits);
    }
    match info_text(alloc, is_boxed(file), &headers.image, headers.reason) {
        Ok(text) => Ok(text),
        Err(_) => Err(Failure::OutOfMemory),
    }
}
