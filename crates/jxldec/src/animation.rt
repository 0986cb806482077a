//! The animation of a file, as an APNG file.

ghost use Rattle.std.specs.Prelude.{◌≡◌, ◌<◌, ◌+◌, ◌⊎◌, [], ℕ, List, Option, IfErr, IfOk, OnOk, Some, string_bytes, true};
ghost use Rattle.jxl_animation.specs.Decoders.{HasShown, IsReadyDecoder};
ghost use Rattle.jxl_animation.specs.Files.{HasFewerFrames, IsShownOfFile};
ghost use Rattle.jxl_apng_write.specs.Animations.{Frame};
ghost use Rattle.jxl_apng_write.specs.Writers.{IsWriterOf};
ghost use Rattle.jxl_container.specs.Files.{HasLaterError};
ghost use Rattle.jxl_image_header.specs.Images.{image_of};
ghost use Rattle.jxl_picture.specs.Pictures.{IsWhole};
ghost use Rattle.jxl_picture.specs.declared.limits.Limits.{Limits as TheLimits};
ghost use Rattle.jxl_png_write.specs.Headers.{png_header, suits_png};
ghost use Rattle.jxldec.specs.Animations.{IsApngText};
ghost use Rattle.jxldec.specs.Contents.{IsWritable, content_text};
ghost use Rattle.jxldec.specs.Inner.Animated.{BeginsWith, GoesOnWith};
ghost use Rattle.jxldec.specs.Sources.{IsSourceOf};
ghost use Rattle.jxldec.specs.Texts.{AnimationFails, CountsMore, IsAnimationText, IsFirstPng, LayersFail};
ghost use Rattle.jxldec_lines.specs.Warnings.{one_frame};

use crate::content::{Beside, Content, Output};
use crate::frames::{FrameSource, open_frames};
use crate::layers::is_layered;
use crate::listing::timeline_of_file;
use crate::run::{first_of_file, picture_of_file};
use jxl_animation::{FrameDecoder, ShownPicture};
use jxl_apng_write::control::AnimationControl;
use jxl_apng_write::delay::Delay;
use jxl_apng_write::writer::ApngWriter;
use jxl_command::meter::Line;
use jxl_image_header::image::Animation;
use jxl_lossless::{Limits, Progress, Steps};
use jxldec_lines::failures::Failure;
use jxldec_lines::format::OutputFormat;
use std::alloc::Global;

// The picture with this number, which is the next one: the first, or one that the headers of frames count.
fn next_shown(
    alloc: Global,
    decoder: &mut FrameDecoder<'_>,
    steps: &mut Steps,
    number: u32,
) -> Result<ShownPicture, Failure>
    requires ready { IsReadyDecoder decoder.old }
    ensures ready { IsReadyDecoder decoder.new }
    ensures whole { IfOk result (λ p. IsWhole (image_of p.picture.header) p.picture.channels.items) }
    ensures ok { (limits : TheLimits) (file : List ℕ) → HasShown limits file number steps.old decoder.old
        → IfOk result (λ p. IsShownOfFile limits file number p
        × HasShown limits file (number + 1) steps.new decoder.new) }
    ensures err { (limits : TheLimits) (file : List ℕ) → HasShown limits file number steps.old decoder.old
        → (number ≡ 0) ⊎ CountsMore limits file number → IfErr result (LayersFail limits file) }
{
    match decoder.next_picture(alloc, steps) {
        Ok(Some(shown)) => Ok(shown),
        Ok(None) => Err(Failure::NoFrame(number)),
        Err(error) => Err(Failure::Frames(error)),
    }
}

// Whether no picture is left. One more than the headers of frames count has no room, as if out of memory.
fn check_end(
    alloc: Global,
    decoder: &mut FrameDecoder<'_>,
    steps: &mut Steps,
) -> Result<(), Failure>
    requires ready { IsReadyDecoder decoder.old }
    ensures ok { (limits : TheLimits) (file : List ℕ) (number : ℕ) → HasShown limits file number steps.old decoder.old
        → OnOk result (HasFewerFrames limits file number) }
    ensures err { (limits : TheLimits) (file : List ℕ) (number : ℕ)
        → HasShown limits file number steps.old decoder.old → IfErr result (LayersFail limits file) }
{
    match decoder.next_picture(alloc, steps) {
        Ok(None) => Ok(()),
        Ok(Some(_)) => Err(Failure::OutOfMemory),
        Err(error) => Err(Failure::Frames(error)),
    }
}

// The file of an animation with its first picture, and with what comes beside it.
fn begin_apng(
    alloc: Global,
    first: &ShownPicture,
    animation: Animation,
    control: AnimationControl,
    beside: Beside<'_>,
) -> Result<ApngWriter, Failure>
    requires whole { IsWhole (image_of first.now.picture.header) first.now.picture.channels.items }
    requires suits { suits_png (image_of first.now.picture.header) ≡ true }
    ensures ok { IfOk result (BeginsWith animation beside.entry control.plays first.now) }
    ensures count { IfOk result (λ w. w.count ≡ control.frames) }
    ensures err { IfErr result (λ failure. failure ≡ Failure.OutOfMemory) }
{
    let delay = Delay::of(animation, first.duration);
    match ApngWriter::begin(
        alloc,
        &first.picture,
        delay,
        control,
        beside.exif,
        beside.xmp,
    ) {
        Ok(writer) => Ok(writer),
        Err(_) => Err(Failure::OutOfMemory),
    }
}

// The same file with one picture more.
fn add_picture(
    alloc: Global,
    writer: ApngWriter,
    shown: &ShownPicture,
    animation: Animation,
) -> Result<ApngWriter, Failure>
    requires whole { IsWhole (image_of shown.now.picture.header) shown.now.picture.channels.items }
    requires suits { suits_png (image_of shown.now.picture.header) ≡ true }
    requires same { writer.header ≡ png_header (image_of shown.now.picture.header) }
    requires room { writer.done < writer.count }
    ensures ok { (profile exif xmp : Option (List ℕ)) (plays : ℕ) (first : Frame) (others : List Frame)
        → IsWriterOf profile exif xmp plays first others writer
        → IfOk result (GoesOnWith animation profile exif xmp plays first others shown.now) }
    ensures count { IfOk result (λ w. w.count ≡ writer.count) }
    ensures err { IfErr result (λ failure. failure ≡ Failure.OutOfMemory) }
{
    let delay = Delay::of(animation, shown.duration);
    match writer.add(alloc, &shown.picture, delay) {
        Ok(writer) => Ok(writer),
        Err(_) => Err(Failure::OutOfMemory),
    }
}

// The APNG file of the pictures that a source has, which change as `animation` says. The headers of frames count them.
fn apng_of(
    alloc: Global,
    file: &[u8],
    limits: &Limits,
    source: FrameSource<'_>,
    animation: Animation,
) -> Result<Output, Failure>
    requires source { IsSourceOf limits.now file.now (Some (OutputFormat.Png)) source }
    requires moving { source.animation ≡ Some animation }
    ensures text { IfOk result (λ o. IsApngText limits.now file.now (content_text o.content)
        (string_bytes o.left_out.channels) o.left_out.loss) }
    ensures frames { IfOk result (λ o. o.left_out.frames ≡ one_frame) }
    ensures writable { IfOk result (λ o. IsWritable o.content) }
    ensures later { IfOk result (λ o. HasLaterError file.now o.left_out.later_error) }
    ensures err { IfErr result (LayersFail limits.now file.now) }
{
    let FrameSource {
        mut decoder,
        beside,
        left_out,
        ..
    } = source;
    let timeline = timeline_of_file(alloc, file, limits)?;
    let count = timeline.durations.len();
    let mut steps = Steps::new();
    let first = next_shown(alloc, &mut decoder, &mut steps, 0)?;
    let Some(control) = AnimationControl::new(count, animation.num_loops) else {
        return Err(Failure::OutOfMemory);
    };
    let mut writer = begin_apng(alloc, &first, animation, control, beside)?;
    for number in 1..control.frames() {
        let shown = next_shown(alloc, &mut decoder, &mut steps, number)?;
        writer = add_picture(alloc, writer, &shown, animation)?;
    }
    check_end(alloc, &mut decoder, &mut steps)?;
    match writer.finish() {
        Ok(text) => Ok(Output {
            content: Content::Png(text),
            left_out,
        }),
        Err(_) => Err(Failure::OutOfMemory),
    }
}

// The animation of a file that has several pictures, or layers; the first picture, if it is none.
fn animation_of_layers(alloc: Global, file: &[u8], limits: &Limits) -> Result<Output, Failure>
    ensures text { IfOk result (λ o. (IsApngText limits.now file.now (content_text o.content)
        (string_bytes o.left_out.channels) o.left_out.loss × (o.left_out.frames ≡ one_frame))
        ⊎ IsFirstPng limits.now file.now (content_text o.content) (string_bytes o.left_out.channels) o.left_out.loss
        o.left_out.frames) }
    ensures writable { IfOk result (λ o. IsWritable o.content) }
    ensures later { IfOk result (λ o. HasLaterError file.now o.left_out.later_error) }
    ensures err { IfErr result (LayersFail limits.now file.now) }
{
    let asked = Some(OutputFormat::Png);
    let source = open_frames(alloc, file, asked, limits)?;
    match source.animation {
        Some(animation) => apng_of(alloc, file, limits, source, animation),
        None => first_of_file(alloc, file, asked, limits),
    }
}

/// The animation of a file, as an APNG file; or the picture of a file that is none, as a PNG file.
pub fn animation_of_file<P: Progress + Line>(
    alloc: Global,
    file: &[u8],
    limits: &Limits,
    progress: &mut P,
) -> Result<Output, Failure>
    ensures text { IfOk result (λ o. IsAnimationText limits.now file.now (content_text o.content)
        (string_bytes o.left_out.channels) o.left_out.loss o.left_out.frames) }
    ensures writable { IfOk result (λ o. IsWritable o.content) }
    ensures later { IfOk result (λ o. HasLaterError file.now o.left_out.later_error) }
    ensures err { IfErr result (AnimationFails limits.now file.now) }
{
    match picture_of_file(alloc, file, Some(OutputFormat::Png), limits, progress) {
        Ok(output) => Ok(output),
        Err(failure) => {
            if is_layered(failure) {
                animation_of_layers(alloc, file, limits)
            } else {
                Err(failure)
            }
        }
    }
}
