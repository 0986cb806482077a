//! All pictures of a file, each to an output of its own.

ghost use Rattle.std.specs.Prelude.{◌≡◌, ◌≤◌, ◌∷◌, ◌⊎◌, [], ℕ, IfErr, IfOk, None, OnErr, OnOk, string_bytes};
ghost use Rattle.jxl_command.specs.Streams.{IsReadWhole, IsReported, IsReportedLine};
ghost use Rattle.jxl_container.specs.Files.{HasLaterError};
ghost use Rattle.jxl_frame_names.specs.Names.{name_of};
ghost use Rattle.jxldec.specs.Contents.{IsWritable, content_text};
ghost use Rattle.jxldec.specs.Frames.{AddsAllPages, PageFails, AddsPagesBefore, WritesAllFrames, WritesNoFrame, WritesSomeFrames, frames_line, pattern_line, subject_at, ReportsAt};
ghost use Rattle.jxldec.specs.Inner.Failures.{page_failure};
ghost use Rattle.jxldec.specs.Pages.{AppendsPages, page_of};
ghost use Rattle.jxldec.specs.Sources.{IsSourceOf};
ghost use Rattle.jxldec.specs.Texts.{FrameTextFails};
ghost use Rattle.jxldec_lines.specs.Failures.{cause_of};
ghost use Rattle.jxldec_lines.specs.Warnings.{one_frame};

use crate::content::{Beside, Content, content_of};
use crate::outputs::Outputs;
use crate::run::{read_file, read_input, support_frames};
use jxl_animation::FrameDecoder;
use jxl_command::end::End;
use jxl_command::errors::{ErrorStream, put_line};
use jxl_command::input::InputStream;
use jxl_command::shown::Shown;
use jxl_frame_names::pattern::NamePattern;
use jxl_image_header::image::Animation;
use jxl_lossless::{Limits, Steps};
use jxldec_lines::ending::{report, succeed};
use jxldec_lines::failures::Failure;
use jxldec_lines::format::{OutputFormat, format_for};
use jxldec_lines::warning::LeftOut;
use jxldec_options::options::Options;
use std::alloc::Global;
use std::fmt;

/// What a failure is about.
#[derive(Drop)]
pub enum At {
    /// The file, before its pictures.
    File,
    /// The picture with this number.
    Frame(u32),
    /// The output of this name.
    Output(String),
}

/// Why not all pictures of a file were written.
#[derive(Drop)]
pub struct FramesFailure {
    /// What the failure is about.
    pub at: At,
    /// The failure.
    pub failure: Failure,
}

impl FramesFailure {
    /// A failure of the file, before its pictures.
    fn of_file(failure: Failure) -> FramesFailure
        ensures { result ≡ record { at = At.File; failure = failure } }
    {
        FramesFailure {
            at: At::File,
            failure,
        }
    }

    /// A failure of the picture with this number.
    fn of_frame(number: u32, failure: Failure) -> FramesFailure
        ensures { result ≡ record { at = At.Frame number; failure = failure } }
    {
        FramesFailure {
            at: At::Frame(number),
            failure,
        }
    }

    /// A failure of the output of this name, to which the picture with this number is written.
    fn of_page(number: u32, name: String, failure: Failure) -> FramesFailure
        ensures { result ≡ page_failure number name failure }
    {
        match failure {
            Failure::OutOfMemory => FramesFailure::of_frame(number, failure),
            _ => FramesFailure {
                at: At::Output(name),
                failure,
            },
        }
    }
}

/// The pictures of a file, before the first, with the format in which they are written and what that leaves out.
#[derive(Drop)]
pub struct FrameSource<'a> {
    pub decoder: FrameDecoder<'a>,
    /// When the pictures change; none where the file is no animation.
    pub animation: Option<Animation>,
    pub format: OutputFormat,
    pub beside: Beside<'a>,
    pub left_out: LeftOut,
}

/// The pictures of a file, with the format that is asked for, or that of their kind. If there is no such format, no sample
/// is decoded.
pub fn open_frames<'a>(
    alloc: Global,
    file: &'a [u8],
    asked: Option<OutputFormat>,
    limits: &Limits,
) -> Result<FrameSource<'a>, Failure>
    ensures ok { IfOk result (IsSourceOf limits.now file.now asked) }
    ensures err { (number : ℕ) → IfErr result (FrameTextFails limits.now file.now number asked) }
{
    let read = read_file(alloc, file, limits)?;
    support_frames(&read, limits)?;
    let Some(format) = format_for(asked, read.header()) else {
        return Err(Failure::NoFormat);
    };
    let beside = Beside::of(&read);
    let Ok(left_out) = LeftOut::of(alloc, format, read.header(), beside.later_error) else {
        return Err(Failure::OutOfMemory);
    };
    let animation = read.header().animation;
    match FrameDecoder::new(alloc, file, limits) {
        Ok(decoder) => Ok(FrameSource {
            decoder,
            animation,
            format,
            beside,
            left_out,
        }),
        Err(error) => Err(Failure::Frames(error)),
    }
}

// Writes the picture with this number to the output of its name.
fn write_page<S: Outputs>(
    alloc: Global,
    outputs: &mut S,
    pattern: &NamePattern<'_>,
    number: u32,
    content: &Content,
) -> Result<(), FramesFailure>
    requires { IsWritable content.now }
    ensures ok { OnOk result (AppendsPages (S.pages outputs.old) (S.pages outputs.new)
        (page_of (name_of pattern.now number) (content_text content.now) ∷ [])) }
    ensures kept { OnErr result (AppendsPages (S.pages outputs.old) (S.pages outputs.new) []) }
    ensures err { IfErr result (PageFails pattern.now number) }
{
    let Ok(name) = pattern.name(alloc, number) else {
        return Err(FramesFailure::of_frame(number, Failure::OutOfMemory));
    };
    match outputs.write(alloc, &name, content) {
        Ok(()) => Ok(()),
        Err(failure) => Err(FramesFailure::of_page(number, name, failure)),
    }
}

/// Writes each picture that a file shows to an output of its own, in the format that is asked for, or that of their kind.
/// It returns what that leaves out.
pub fn write_frames<S: Outputs>(
    alloc: Global,
    file: &[u8],
    pattern: &NamePattern<'_>,
    asked: Option<OutputFormat>,
    limits: &Limits,
    outputs: &mut S,
) -> Result<LeftOut, FramesFailure>
    ensures written { IfOk result (λ l. AddsAllPages limits.now file.now asked pattern.now (S.pages outputs.old)
        (S.pages outputs.new) (string_bytes l.channels) l.loss) }
    ensures frames { IfOk result (λ l. l.frames ≡ one_frame) }
    ensures later { IfOk result (λ l. HasLaterError file.now l.later_error) }
    ensures err { IfErr result (AddsPagesBefore limits.now file.now asked pattern.now (S.pages outputs.old)
        (S.pages outputs.new)) }
{
    let source = match open_frames(alloc, file, asked, limits) {
        Ok(source) => source,
        Err(failure) => return Err(FramesFailure::of_file(failure)),
    };
    let FrameSource {
        mut decoder,
        format,
        beside,
        left_out,
        ..
    } = source;
    let mut steps = Steps::new();
    for number in 0..u32::MAX {
        let next = match decoder.next_picture(alloc, &mut steps) {
            Ok(next) => next,
            Err(error) => return Err(FramesFailure::of_frame(number, Failure::Frames(error))),
        };
        let Some(shown) = next else {
            return Ok(left_out);
        };
        let content = match content_of(alloc, shown.picture, format, beside.exif, beside.xmp) {
            Ok(content) => content,
            Err(failure) => return Err(FramesFailure::of_frame(number, failure)),
        };
        write_page(alloc, outputs, pattern, number, &content)?;
    }
    Err(FramesFailure::of_frame(u32::MAX, Failure::OutOfMemory))
}

// What a failure is about, of a file of this name.
#[derive(Clone, Copy)]
struct Subject<'a> {
    name: &'a str,
    at: &'a At,
}

impl fmt::Display for Subject<'_> {
    ghost use Rattle.std.specs.Prelude.{Some};

    ghost output = { λ s. Some (subject_at s.name.now s.at.now) };

    #[tactic(auto, unfolding(crate::specs::Frames::subject_at))]
    fn fmt<W: fmt::Write>(&self, f: &mut fmt::Formatter<W>) -> fmt::Result {
        let name = Shown(self.name);
        match self.at {
            At::File => write!(f, "{name}"),
            At::Frame(number) => write!(f, "{name}: frame {number}"),
            At::Output(output) => {
                let output = Shown(output);
                write!(f, "{output}")
            }
        }
    }
}

// Writes the line of a failure. It returns whether all of it was written.
fn put_failure<E: ErrorStream>(errors: &mut E, subject: Subject<'_>, failure: Failure) -> bool
    ensures { IsReportedLine result (E.contents errors.old) (E.contents errors.new) (E.has_failed errors.new)
        (cause_of failure) (frames_line subject.entry.name.now subject.entry.at.now failure) }
{
    let cause = failure.cause();
    put_line(errors, format_args!("jxldec: {subject}: {failure}"), cause)
}

// Writes the line of a failure, and ends with status 1. Of a closed pipe nothing is written.
fn report_frames<E: ErrorStream>(errors: &mut E, name: &str, failed: &FramesFailure) -> End
    ensures status { result.status ≡ 1 }
    ensures line { ReportsAt name.now failed.now.at failed.now.failure (errors.new ≡ errors.old)
        (IsReportedLine result.reported (E.contents errors.old) (E.contents errors.new) (E.has_failed errors.new)) }
{
    if failed.failure.is_silent() {
        return End {
            status: 1,
            reported: true,
        };
    }
    let subject = Subject {
        name,
        at: &failed.at,
    };
    let reported = put_failure(errors, subject, failed.failure);
    End {
        status: 1,
        reported,
    }
}

/// Reads a file from `input`, and writes each picture that it shows to an output of its own: to the one of the pattern's
/// name with the number of the picture, from 0 on. It returns the status to end with: 0 where all pictures were written;
/// else 1, and `errors` got the line of a failure that holds of the input, of the file, of a picture or of its output, and
/// the pictures before that were written. With status 0 `errors` got nothing but the lines that warn of what is left out.
pub fn run_frames<R: InputStream, S: Outputs, E: ErrorStream>(
    alloc: Global,
    options: &Options<'_>,
    pattern: &NamePattern<'_>,
    input: &mut R,
    outputs: &mut S,
    errors: &mut E,
) -> End
    ensures status { result.status ≤ 1 }
    ensures done { result.status ≡ 0 → IsReadWhole (R.remaining input.old) (R.remaining input.new) (λ file.
        WritesAllFrames options.now pattern.now file (S.pages outputs.old) (S.pages outputs.new)
        (IsReported result.reported (E.contents errors.old) (E.contents errors.new) (E.has_failed errors.new))
        (errors.new ≡ errors.old)) }
    ensures failed { result.status ≡ 1 → WritesNoFrame options.now (R.remaining input.old) (R.remaining input.new)
        (R.fails_by input.new) (outputs.new ≡ outputs.old) (errors.new ≡ errors.old)
        (IsReportedLine result.reported (E.contents errors.old) (E.contents errors.new) (E.has_failed errors.new))
        ⊎ IsReadWhole (R.remaining input.old) (R.remaining input.new) (WritesSomeFrames options.now pattern.now
        (S.pages outputs.old) (S.pages outputs.new) (errors.new ≡ errors.old)
        (IsReportedLine result.reported (E.contents errors.old) (E.contents errors.new) (E.has_failed errors.new))) }
{
    let file = match read_input(alloc, input) {
        Ok(file) => file,
        Err(failure) => return report(errors, options.input, failure),
    };
    match write_frames(
        alloc,
        &file,
        pattern,
        options.format,
        &options.limits,
        outputs,
    ) {
        Ok(left_out) => succeed(errors, options.quiet, options.input, &left_out),
        Err(failed) => report_frames(errors, options.input, &failed),
    }
}

/// Writes the line that a name has no place for the number of a frame, or several, and ends with status 2.
#[tactic(auto, unfolding(crate::specs::Frames::pattern_line))]
pub fn refuse_pattern<E: ErrorStream>(errors: &mut E, name: &str) -> End
    ensures status { result.status ≡ 2 }
    ensures line { IsReportedLine result.reported (E.contents errors.old) (E.contents errors.new)
        (E.has_failed errors.new) None (pattern_line name.now) }
{
    let name = Shown(name);
    let reported = put_line(
        errors,
        format_args!(
            "error: invalid value '{name}' for '--frames <PATTERN>': it needs one %d, or one %0Nd with N from 1 to 9"
        ),
        None,
    );
    End {
        status: 2,
        reported,
    }
}
