//! The program over a reader and two writers.

ghost use Rattle.std.specs.Prelude.{◌≡◌, ◌≤◌, ◌⊎◌, ◌||◌, ℕ, List, [], Option, length, true, false, is_some, IfErr, IfOk, IfSome, IsTrue, None, OnErr, OnOk, Some, string_bytes};
ghost use Rattle.std.specs.Option.{option_copied};
ghost use Rattle.std.specs.Io.KnownBytes.{Appends, Consumes, IsAtEnd};
ghost use Rattle.jxl_codestream.specs.FrontParts.{bytes_if};
ghost use Rattle.jxl_command.specs.Streams.{IsReadWhole, IsReported, IsReportedLine};
ghost use Rattle.jxl_container.specs.Files.{HasLaterError, has_signature, is_bare};
ghost use Rattle.jxl_image_header.specs.Images.{image_of};
ghost use Rattle.jxl_lossless.specs.Files.{IsReadOf, IsReadyFile, header_of, reason_of};
ghost use Rattle.jxl_netpbm.specs.Output.{AppendsBeginning};
ghost use Rattle.jxl_picture.specs.Pictures.{IsWhole};
ghost use Rattle.jxl_picture.specs.declared.limits.Limits.{Limits as TheLimits};
ghost use Rattle.jxldec.specs.Contents.{IsWritable, content_text};
ghost use Rattle.jxldec_lines.specs.Failures.{is_of_output};
ghost use Rattle.jxldec_lines.specs.Formats.{IsWrittenAs, chosen, suits_output};
ghost use Rattle.jxldec.specs.Layers.{has_frames, lists_frames as the_lists_frames};
ghost use Rattle.jxldec_lines.specs.Losses.{has_loss, loss_in};
ghost use Rattle.jxldec.specs.Texts.{AskedFails, CountsFrames, FrameTextFails, HasProfile, InfoFails, InputFails, IsAsked, AreLookedFor, AreSaved, IsDone, IsFailed, IsInfo, IsLacking, IsPictureText, IsTextOfFile, IsTextOfFrame, IsWritten, ListFails, ProfileFails, PictureFails, ReadingFails, TextFails, no_lacks};
ghost use Rattle.jxldec_lines.specs.Warnings.{has_more, kinds_left_out, one_frame, warnings};
ghost use Rattle.jxldec_lines.specs.declared.format.OutputFormat.{OutputFormat as TheFormat};
ghost use Rattle.jxldec_lines.specs.declared.loss.Loss.TheVariants.{Nothing as NoLoss};

use crate::animation::animation_of_file;
use crate::content::{Beside, Content, Output, pass_on};
use crate::layers::{is_layered, lists_frames};
use crate::listing::{text_of_headers, timeline_of_file};
use crate::metadata::{Metadata, metadata_asked, save_all};
use jxl_animation::decode_frame;
use jxl_codestream::error::FrontError;
use jxl_coding::decoder::EntropyDecoder;
use jxl_command::end::End;
use jxl_command::errors::ErrorStream;
use jxl_command::extra::Extras;
use jxl_command::input::InputStream;
use jxl_command::meter::Line;
use jxl_command::output::Flush;
use jxl_image_header::image::ImageHeader;
use jxl_info::headers::{Headers, HeadersError};
use jxl_lossless::{FileError, JxlFile, Limits, Progress, Steps};
use jxldec_lines::ending::{end_lacking, report, succeed};
use jxldec_lines::failures::{Failure, Lacks};
use jxldec_lines::format::{OutputFormat, format_for};
use jxldec_lines::warning::{FrameCount, LeftOut};
use jxldec_options::options::{Options, Task};
use std::alloc::Global;

// What the headers of a file tell.
fn info_of_file(alloc: Global, file: &[u8], limits: &Limits) -> Result<Output, Failure>
    ensures text { IfOk result (λ o. IsInfo limits.now file.now (content_text o.content)
        (string_bytes o.left_out.channels) o.left_out.loss) }
    ensures frames { IfOk result (λ o. o.left_out.frames ≡ one_frame) }
    ensures writable { IfOk result (λ o. IsWritable o.content) }
    ensures later { IfOk result (λ o. HasLaterError file.now o.left_out.later_error) }
    ensures err { IfErr result (ListFails limits.now file.now) }
{
    match Headers::read::<EntropyDecoder>(alloc, file, limits) {
        Ok(headers) => {
            let text = text_of_headers(alloc, file, &headers, limits)?;
            Ok(Output {
                content: Content::Headers(text.into_bytes()),
                left_out: LeftOut::boxes(alloc, headers.later_error),
            })
        }
        Err(HeadersError::File(error)) => Err(Failure::File(FileError::File(error))),
        Err(HeadersError::Front(error)) => Err(Failure::File(FileError::Front(error))),
    }
}

/// Reads a file up to the sections of its frames.
pub fn read_file<'a>(alloc: Global, file: &'a [u8], limits: &Limits) -> Result<JxlFile<'a>, Failure>
    ensures ok { IfOk result (IsReadOf limits.now file.now) }
    ensures ready { IfOk result IsReadyFile }
    ensures err { IfErr result (InfoFails limits.now file.now) }
    ensures of_list { IfErr result (ListFails limits.now file.now) }
    ensures of_text { (asked : Option TheFormat) → IfErr result (TextFails limits.now file.now asked) }
    ensures of_frame { (number : ℕ) (asked : Option TheFormat) → IfErr result (FrameTextFails limits.now file.now number
        asked) }
{
    match JxlFile::read(alloc, file, limits) {
        Ok(read) => Ok(read),
        Err(error) => Err(Failure::File(error)),
    }
}

// How far a picture is above the limits.
fn above(limits: &Limits, header: &ImageHeader) -> Failure
    ensures { result ≡ Failure.TooLarge (image_of header.now).size (length (image_of header.now).ec_info) limits.now }
{
    Failure::TooLarge {
        size: header.size,
        extra: header.ec_info.len(),
        limits: *limits,
    }
}

/// Whether a file that was read by these limits, and does not have several pictures, or layers, is supported, up to the
/// sections of its frames, and within the limits.
pub fn support(read: &JxlFile<'_>, limits: &Limits) -> Result<(), Failure>
    ensures ok { OnOk result (reason_of read.now ≡ None) }
    ensures err { (file : List ℕ) → IsReadOf limits.now file read.now → the_lists_frames (reason_of read.now) ≡ false
        → IfErr result (InfoFails limits.now file) }
{
    match read.reason() {
        None => Ok(()),
        Some(FrontError::TooLarge) => Err(above(limits, read.header())),
        Some(error) => Err(Failure::File(FileError::Front(error))),
    }
}

// The format in which the picture of a file is written that was read by these limits. If the file is not decoded, or
// the picture has no such format, the error comes before any sample is decoded.
fn format_of_file(
    read: &JxlFile<'_>,
    asked: Option<OutputFormat>,
    limits: &Limits,
) -> Result<OutputFormat, Failure>
    ensures ok { IfOk result (λ format. chosen asked (image_of (header_of read.now)) ≡ Some format) }
    ensures err { (file : List ℕ) → IsReadOf limits.now file read.now
        → IfErr result (TextFails limits.now file asked) }
{
    match read.reason() {
        None => match format_for(asked, read.header()) {
            Some(format) => Ok(format),
            None => Err(Failure::NoFormat),
        },
        Some(FrontError::TooLarge) => Err(above(limits, read.header())),
        Some(error) => Err(Failure::File(FileError::Front(error))),
    }
}

/// The picture of a file, with the format that is asked for, or that of its kind. If the headers stand and there is no
/// such format, or the picture is above the limits, no sample is decoded.
pub fn picture_of_file<P: Progress + Line>(
    alloc: Global,
    file: &[u8],
    asked: Option<OutputFormat>,
    limits: &Limits,
    progress: &mut P,
) -> Result<Output, Failure>
    ensures text { IfOk result (λ o. IsTextOfFile limits.now file.now asked (content_text o.content)
        (string_bytes o.left_out.channels) o.left_out.loss) }
    ensures frames { IfOk result (λ o. o.left_out.frames ≡ one_frame) }
    ensures writable { IfOk result (λ o. IsWritable o.content) }
    ensures later { IfOk result (λ o. HasLaterError file.now o.left_out.later_error) }
    ensures err { IfErr result (TextFails limits.now file.now asked) }
{
    let read = read_file(alloc, file, limits)?;
    let format = format_of_file(&read, asked, limits)?;
    let beside = Beside::of(&read);
    let mut steps = Steps::new();
    match read.decode(alloc, &mut steps, progress) {
        Ok(picture) => Output::of(alloc, picture, format, beside),
        Err(error) => Err(Failure::File(error)),
    }
}

/// Whether the frames of a file that was read by these limits can be decoded, as far as the reason tells why it is not
/// decoded as a still picture.
pub fn support_frames(read: &JxlFile<'_>, limits: &Limits) -> Result<(), Failure>
    ensures ok { OnOk result (has_frames (reason_of read.now) ≡ true) }
    ensures err { (file : List ℕ) → IsReadOf limits.now file read.now
        → IfErr result (InfoFails limits.now file) }
{
    if lists_frames(read.reason()) {
        return Ok(());
    }
    support(read, limits)
}

/// The picture with this number among those that a file shows, from 0 on, with the format that is asked for, or that of
/// its kind. If there is no such format, no sample is decoded.
pub fn frame_of_file(
    alloc: Global,
    file: &[u8],
    number: u32,
    asked: Option<OutputFormat>,
    limits: &Limits,
) -> Result<Output, Failure>
    ensures text { IfOk result (λ o. IsTextOfFrame limits.now file.now number asked (content_text o.content)
        (string_bytes o.left_out.channels) o.left_out.loss) }
    ensures frames { IfOk result (λ o. o.left_out.frames ≡ one_frame) }
    ensures writable { IfOk result (λ o. IsWritable o.content) }
    ensures later { IfOk result (λ o. HasLaterError file.now o.left_out.later_error) }
    ensures err { IfErr result (FrameTextFails limits.now file.now number asked) }
{
    let read = read_file(alloc, file, limits)?;
    support_frames(&read, limits)?;
    let Some(format) = format_for(asked, read.header()) else {
        return Err(Failure::NoFormat);
    };
    let beside = Beside::of(&read);
    let decoded = match decode_frame(alloc, file, number, limits) {
        Ok(decoded) => decoded,
        Err(error) => return Err(Failure::Frames(error)),
    };
    let Some(picture) = decoded else {
        return Err(Failure::NoFrame(number));
    };
    Output::of(alloc, picture, format, beside)
}

// How many pictures a file shows, as far as its headers tell.
fn count_of_file(alloc: Global, file: &[u8], limits: &Limits) -> Result<FrameCount, Failure>
    ensures ok { IfOk result (CountsFrames limits.now file.now) }
    ensures err { (number : ℕ) (asked : Option TheFormat)
        → IfErr result (FrameTextFails limits.now file.now number asked) }
{
    let timeline = timeline_of_file(alloc, file, limits)?;
    Ok(FrameCount {
        count: timeline.durations.len(),
        is_all: timeline.reason.is_none(),
    })
}

/// The first picture of a file that has several, or layers.
pub fn first_of_file(
    alloc: Global,
    file: &[u8],
    asked: Option<OutputFormat>,
    limits: &Limits,
) -> Result<Output, Failure>
    ensures text { IfOk result (λ o. IsTextOfFrame limits.now file.now 0 asked (content_text o.content)
        (string_bytes o.left_out.channels) o.left_out.loss) }
    ensures frames { IfOk result (λ o. CountsFrames limits.now file.now o.left_out.frames) }
    ensures writable { IfOk result (λ o. IsWritable o.content) }
    ensures later { IfOk result (λ o. HasLaterError file.now o.left_out.later_error) }
    ensures err { IfErr result (FrameTextFails limits.now file.now 0 asked) }
{
    let frames = count_of_file(alloc, file, limits)?;
    let Output { content, left_out } = frame_of_file(alloc, file, 0, asked, limits)?;
    let left_out = left_out.of_first(frames);
    Ok(Output { content, left_out })
}

// The picture of a file; or its first one, if it has several, or layers.
fn shown_of_file<P: Progress + Line>(
    alloc: Global,
    file: &[u8],
    asked: Option<OutputFormat>,
    limits: &Limits,
    progress: &mut P,
) -> Result<Output, Failure>
    ensures text { IfOk result (λ o. IsPictureText limits.now file.now asked (content_text o.content)
        (string_bytes o.left_out.channels) o.left_out.loss o.left_out.frames) }
    ensures writable { IfOk result (λ o. IsWritable o.content) }
    ensures later { IfOk result (λ o. HasLaterError file.now o.left_out.later_error) }
    ensures err { IfErr result (PictureFails limits.now file.now asked) }
{
    match picture_of_file(alloc, file, asked, limits, progress) {
        Ok(output) => Ok(output),
        Err(failure) => {
            if is_layered(failure) {
                first_of_file(alloc, file, asked, limits)
            } else {
                Err(failure)
            }
        }
    }
}

// Nothing of a file, which is one of JPEG XL.
fn nothing_of_file(alloc: Global, file: &[u8], limits: &Limits) -> Result<Output, Failure>
    ensures text { IfOk result (λ o. content_text o.content ≡ []) }
    ensures channels { IfOk result (λ o. string_bytes o.left_out.channels ≡ []) }
    ensures loss { IfOk result (λ o. o.left_out.loss ≡ NoLoss) }
    ensures frames { IfOk result (λ o. o.left_out.frames ≡ one_frame) }
    ensures writable { IfOk result (λ o. IsWritable o.content) }
    ensures later { IfOk result (λ o. HasLaterError file.now o.left_out.later_error) }
    ensures err { IfErr result (InfoFails limits.now file.now) }
{
    let read = read_file(alloc, file, limits)?;
    Ok(Output {
        content: Content::Nothing,
        left_out: LeftOut::boxes(alloc, read.later_error()),
    })
}

// What is asked of the file for the output: what its headers tell, its picture, or nothing.
fn output_asked<P: Progress + Line>(
    alloc: Global,
    file: &[u8],
    options: &Options<'_>,
    progress: &mut P,
) -> Result<Output, Failure>
    ensures ok { IfOk result (λ o. IsAsked options.now.task options.now.limits options.now.format file.now
        (content_text o.content) (string_bytes o.left_out.channels) o.left_out.loss o.left_out.frames) }
    ensures writable { IfOk result (λ o. IsWritable o.content) }
    ensures later { IfOk result (λ o. HasLaterError file.now o.left_out.later_error) }
    ensures err { IfErr result (AskedFails options.now.task options.now.limits options.now.format file.now) }
{
    match options.task {
        Task::Headers => info_of_file(alloc, file, &options.limits),
        Task::Picture => { shown_of_file(alloc, file, options.format, &options.limits, progress) }
        Task::Animation => animation_of_file(alloc, file, &options.limits, progress),
        Task::Frame(number) => frame_of_file(alloc, file, number, options.format, &options.limits),
        Task::Nothing => nothing_of_file(alloc, file, &options.limits),
    }
}

// What is asked of a file that was read: the output, and what is asked for beside it.
#[derive(Drop)]
struct Asked<'a> {
    output: Output,
    metadata: Metadata<'a>,
}

// What is asked of the file, before anything is written.
fn asked_of_file<'a, P: Progress + Line>(
    alloc: Global,
    file: &'a [u8],
    options: &Options<'_>,
    progress: &mut P,
) -> Result<Asked<'a>, Failure>
    ensures ok { IfOk result (λ a. IsAsked options.now.task options.now.limits options.now.format file.now
        (content_text a.output.content) (string_bytes a.output.left_out.channels) a.output.left_out.loss
        a.output.left_out.frames) }
    ensures writable { IfOk result (λ a. IsWritable a.output.content) }
    ensures later { IfOk result (λ a. HasLaterError file.now a.output.left_out.later_error) }
    ensures metadata { IfOk result (λ a. AreLookedFor options.now file.now a.metadata) }
    ensures err { IfErr result (λ failure. AskedFails options.now.task options.now.limits options.now.format file.now
        failure ⊎ ((is_some options.now.paths.icc ≡ true) × ProfileFails options.now.limits file.now failure)) }
{
    let metadata = metadata_asked(alloc, file, options)?;
    let made = output_asked(alloc, file, options, progress);
    progress.clear();
    let output = made?;
    Ok(Asked { output, metadata })
}

// How many bytes the longest beginning of a file has by which it is known.
const SIGNATURE: usize = 12;

// Whether a JPEG XL file may begin so: as a codestream, or as boxes.
fn begins_file(start: &[u8]) -> bool
    ensures { result ≡ (is_bare start.now || has_signature start.now) }
{
    start.starts_with(&[255, 10])
        || start.starts_with(&[0, 0, 0, 12, 74, 88, 76, 32, 13, 10, 135, 10])
}

/// Reads all bytes of the input. If it begins as no JPEG XL file, no more than its first bytes are read.
pub fn read_input<R: InputStream>(alloc: Global, input: &mut R) -> Result<Vec<u8>, Failure>
    ensures read { IfOk result (λ v. Consumes (R.remaining input.old) (R.remaining input.new) v.items) }
    ensures ended { OnOk result (IsAtEnd (R.remaining input.new)) }
    ensures err { IfErr result (ReadingFails (R.remaining input.old) (R.remaining input.new) (R.fails_by input.new)) }
{
    let start = match input.read_start(alloc, SIGNATURE) {
        Ok(start) => start,
        Err(error) => return Err(Failure::Unreadable(error)),
    };
    if !begins_file(&start) {
        return Err(Failure::Foreign);
    }
    match input.read_on(start) {
        Ok(file) => Ok(file),
        Err(error) => Err(Failure::Unreadable(error)),
    }
}

// What was written of a file leaves out, and what of the data that are asked for the file lacks.
#[derive(Drop)]
struct Written {
    left_out: LeftOut,
    lacks: Lacks,
}

// Reads the file, and writes what is asked of it. It returns what the output leaves out, and what the file lacks.
fn carry_out<R: InputStream, W: Flush, F: Flush, P: Progress + Line>(
    alloc: Global,
    options: &Options<'_>,
    input: &mut R,
    output: &mut W,
    extras: &mut Extras<F>,
    progress: &mut P,
) -> Result<Written, Failure>
    ensures done { IfOk result (λ w. IsWritten options.now.task options.now.limits options.now.format
        (R.remaining input.old) (R.remaining input.new) (W.contents output.old) (W.contents output.new)
        (string_bytes w.left_out.channels) w.left_out.loss w.left_out.frames w.left_out.later_error) }
    ensures saved { IfOk result (λ w. IsReadWhole (R.remaining input.old) (R.remaining input.new) (λ file.
        AreSaved F.contents F.is_flushed options.now file w.lacks extras.old extras.new)) }
    ensures failed { IfErr result (InputFails options.now.task options.now.limits options.now.format
        (is_some options.now.paths.icc) (R.remaining input.old) (R.remaining input.new) (R.fails_by input.new)
        (W.contents output.old) (W.contents output.new)) }
    ensures flushed { OnOk result (W.is_flushed output.new) }
    ensures kept { IfErr result (λ failure. is_of_output failure ≡ false → output.new ≡ output.old) }
    ensures extras { IfErr result (λ failure. is_of_output failure ≡ false → extras.new ≡ extras.old) }
{
    let file = read_input(alloc, input)?;
    let Asked {
        output: made,
        metadata,
    } = asked_of_file(alloc, &file, options, progress)?;
    pass_on(alloc, output, &made.content)?;
    save_all(extras, &metadata)?;
    let lacks = metadata.lacks;
    Ok(Written {
        left_out: made.left_out,
        lacks,
    })
}

/// Reads a file from `input`, and writes to `output` what its headers tell, or its picture in PNG, a netpbm format or
/// decimal numbers, or nothing; and to `extras` its profile, its Exif data and its XMP data, those that are asked for.
/// It returns the status to end with: 0 where each got that, alone and whole; else 1, and `errors` got the line of a
/// failure that holds of the input or of the file, unless the output is a pipe that was closed. It also
/// returns whether `errors` got its lines, or a write to it failed. Nothing is written unless the whole
/// picture was decoded; after a failed write the output holds a beginning of its text. If the file lacks some of the data
/// that are asked for, all else is done, and the status is 1. With status 0 `errors` got nothing but the lines that warn of
/// what is left out, and of the error of the boxes after the codestream; a profile that is saved is not left out.
/// `progress` is called after each section.
pub fn run<R: InputStream, W: Flush, F: Flush, E: ErrorStream, P: Progress + Line>(
    alloc: Global,
    options: Options<'_>,
    input: &mut R,
    output: &mut W,
    extras: &mut Extras<F>,
    errors: &mut E,
    progress: &mut P,
) -> End
    ensures status { result.status ≤ 1 }
    ensures done { result.status ≡ 0 → IsDone options.entry.task options.entry.quiet (is_some options.entry.paths.icc)
        options.entry.limits options.entry.format options.entry.input.now (R.remaining input.old)
        (R.remaining input.new) (W.contents output.old) (W.contents output.new)
        (IsReported result.reported (E.contents errors.old) (E.contents errors.new) (E.has_failed errors.new))
        (errors.new ≡ errors.old) }
    ensures saved { result.status ≡ 0 → IsReadWhole (R.remaining input.old) (R.remaining input.new) (λ file.
        AreSaved F.contents F.is_flushed options.entry file no_lacks extras.old extras.new) }
    ensures flushed { result.status ≡ 0 → W.is_flushed output.new }
    ensures failed { result.status ≡ 1 → IsFailed options.entry (R.remaining input.old) (R.remaining input.new)
        (R.fails_by input.new) (W.contents output.old) (W.contents output.new)
        ((output.new ≡ output.old) × (extras.new ≡ extras.old)) (errors.new ≡ errors.old)
        (IsReportedLine result.reported (E.contents errors.old) (E.contents errors.new) (E.has_failed errors.new))
        ⊎ IsLacking options.entry (R.remaining input.old) (R.remaining input.new) (W.contents output.old)
        (W.contents output.new) (W.is_flushed output.new)
        (λ file lacks. AreSaved F.contents F.is_flushed options.entry file lacks extras.old extras.new)
        (IsReportedLine result.reported (E.contents errors.old) (E.contents errors.new) (E.has_failed errors.new)
        None) }
{
    let Written { left_out, lacks } = match carry_out(
        alloc, &options, input, output, extras, progress,
    ) {
        Ok(written) => written,
        Err(failure) => return report(errors, options.name_of(failure), failure),
    };
    let warned = left_out.but_saved(options.paths.icc.is_some());
    if lacks.has_some() {
        return end_lacking(errors, options.quiet, options.input, &warned, lacks);
    }
    succeed(errors, options.quiet, options.input, &warned)
}
