//! What the output leaves out of a file.

ghost use Rattle.std.specs.Prelude.{◌≡◌, ◌++◌, IfOk, None, OnOk, false, [], string_bytes};
ghost use Rattle.jxl_command.specs.Streams.{IsReported};
ghost use Rattle.jxl_image_header.specs.Images.{image_of};
ghost use Rattle.jxl_picture.specs.Pictures.{is_full_alpha as the_full_alpha};
ghost use Rattle.jxldec_lines.specs.Losses.{has_loss, loss_in, unless_saved as the_unless_saved};
ghost use Rattle.jxldec_lines.specs.Warnings.{frames_line, has_more as the_has_more, kinds_left_out, later_line, left_out_lines, one_frame, or_more as the_or_more, warning_lines};
ghost use Rattle.jxldec_lines.specs.Inner.Kinds.{rest_kinds};

use crate::format::OutputFormat;
use crate::loss::{Loss, LossLines};
use crate::reason::box_text;
use jxl_command::errors::ErrorStream;
use jxl_command::shown::Shown;
use jxl_container::error::FileError as BoxError;
use jxl_image_header::channel::ExtraChannel;
use jxl_image_header::image::ImageHeader;
use jxl_info::names::kind_name;
use jxl_netpbm::format::Format;
use jxlm_base::grid::OutOfMemory;
use std::alloc::Global;
use std::fmt;

/// How many pictures a file shows, as far as its headers tell.
#[derive(Clone, Copy)]
pub struct FrameCount {
    pub count: usize,
    /// Whether no more can follow.
    pub is_all: bool,
}

impl FrameCount {
    /// One picture.
    pub fn one() -> FrameCount
        ensures { result ≡ one_frame }
    {
        FrameCount {
            count: 1,
            is_all: true,
        }
    }

    /// Whether there are more, or may be.
    pub fn has_more(self) -> bool
        ensures { result ≡ the_has_more self }
    {
        self.count > 1 || !self.is_all
    }
}

/// What the output leaves out of a file: of the picture, and of the boxes after the codestream.
#[derive(Drop)]
pub struct LeftOut {
    /// The kinds of the channels that are left out, each after a space.
    pub channels: String,
    /// What the format does not hold of what its samples mean.
    pub loss: Loss,
    /// How many pictures the file shows, of which the first is written.
    pub frames: FrameCount,
    /// The first error of the boxes after the codestream, if there is one: from there on they are left out.
    pub later_error: Option<BoxError>,
}

// Whether a channel is alpha that is as large as the picture.
fn is_full_alpha(channel: &ExtraChannel) -> bool
    ensures { result ≡ the_full_alpha channel.now }
{
    channel.kind.is_alpha() && channel.dim_shift == 0
}

// Adds the kinds of channels, each after a space; unless `all` is set, but the first alpha of the picture's size.
fn append_kinds(text: &mut String, all: bool, extra: &[ExtraChannel]) -> Result<(), OutOfMemory>
    ensures { OnOk result (string_bytes text.new ≡ string_bytes text.old ++ rest_kinds all extra.now) }
{
    let mut passed = all;
    for channel in extra {
        if !passed && is_full_alpha(channel) {
            passed = true;
        } else {
            let name = kind_name(channel.kind);
            write!(text, " {name}")?;
        }
    }
    Ok(())
}

impl LeftOut {
    /// What the text of a picture leaves out in this format, and the boxes from this error on.
    pub fn of(
        alloc: Global,
        format: OutputFormat,
        header: &ImageHeader,
        later_error: Option<BoxError>,
    ) -> Result<LeftOut, OutOfMemory>
        ensures channels { IfOk result (λ l. string_bytes l.channels
            ≡ kinds_left_out format (image_of header.now).ec_info) }
        ensures loss { IfOk result (λ l. l.loss ≡ loss_in format (image_of header.now)) }
        ensures frames { IfOk result (λ l. l.frames ≡ one_frame) }
        ensures later { IfOk result (λ l. l.later_error ≡ later_error) }
    {
        let mut channels = String::new(alloc);
        match format {
            OutputFormat::Netpbm(Format::Text) => {}
            OutputFormat::Netpbm(Format::Pam) | OutputFormat::Png => {
                append_kinds(&mut channels, false, &header.ec_info)?
            }
            _ => append_kinds(&mut channels, true, &header.ec_info)?,
        }
        Ok(LeftOut {
            channels,
            loss: Loss::of(format, header),
            frames: FrameCount::one(),
            later_error,
        })
    }

    /// The same, but for the profile if that is saved.
    pub fn but_saved(self, saved: bool) -> LeftOut
        ensures channels { string_bytes result.channels ≡ string_bytes self.channels }
        ensures loss { result.loss ≡ the_unless_saved saved self.loss }
        ensures frames { result.frames ≡ self.frames }
        ensures later { result.later_error ≡ self.later_error }
    {
        LeftOut {
            channels: self.channels,
            loss: self.loss.unless_saved(saved),
            frames: self.frames,
            later_error: self.later_error,
        }
    }

    /// The same, of the first of these frames.
    pub fn of_first(self, frames: FrameCount) -> LeftOut
        ensures channels { string_bytes result.channels ≡ string_bytes self.channels }
        ensures loss { result.loss ≡ self.loss }
        ensures frames { result.frames ≡ frames }
        ensures later { result.later_error ≡ self.later_error }
    {
        LeftOut {
            channels: self.channels,
            loss: self.loss,
            frames,
            later_error: self.later_error,
        }
    }

    /// Nothing of a picture, and the boxes from this error on.
    pub fn boxes(alloc: Global, later_error: Option<BoxError>) -> LeftOut
        ensures channels { string_bytes result.channels ≡ [] }
        ensures loss { result.loss ≡ Loss.Nothing }
        ensures frames { result.frames ≡ one_frame }
        ensures later { result.later_error ≡ later_error }
    {
        LeftOut {
            channels: String::new(alloc),
            loss: Loss::Nothing,
            frames: FrameCount::one(),
            later_error,
        }
    }
}

// The lines that warn of what is left out of the picture of a file of this name.
#[derive(Clone, Copy)]
struct Warnings<'a> {
    name: &'a str,
    channels: &'a str,
    loss: Loss,
}

impl fmt::Display for Warnings<'_> {
    ghost use Rattle.std.specs.Prelude.{Some};

    ghost output = { λ w. Some (left_out_lines w.name.now w.channels.now w.loss) };

    #[tactic(auto, unfolding(crate::specs::Warnings::left_out_lines, crate::specs::Warnings::channel_line))]
    fn fmt<W: fmt::Write>(&self, f: &mut fmt::Formatter<W>) -> fmt::Result {
        let (name, channels) = (self.name, self.channels);
        if !channels.is_empty() {
            let name = Shown(name);
            writeln!(f, "jxldec: {name}: channels left out:{channels}")?;
        }
        let lines = LossLines {
            name,
            loss: self.loss,
        };
        write!(f, "{lines}")
    }
}

// The end of a count: nothing if it is that of all.
fn or_more(is_all: bool) -> &'static str
    ensures { result.now ≡ the_or_more is_all }
{
    if is_all { "" } else { " or more" }
}

// The line on the pictures of a file of this name that are left out, if there are any.
#[derive(Clone, Copy)]
struct FramesLine<'a> {
    name: &'a str,
    frames: FrameCount,
}

impl fmt::Display for FramesLine<'_> {
    ghost use Rattle.std.specs.Prelude.{Some};

    ghost output = { λ l. Some (frames_line l.name.now l.frames) };

    #[tactic(auto, unfolding(crate::specs::Warnings::frames_line))]
    fn fmt<W: fmt::Write>(&self, f: &mut fmt::Formatter<W>) -> fmt::Result {
        let (name, count, more) = (
            Shown(self.name),
            self.frames.count,
            or_more(self.frames.is_all),
        );
        if self.frames.has_more() {
            writeln!(
                f,
                "jxldec: {name}: frame 0 of {count}{more}; --frame N writes another"
            )?;
        }
        Ok(())
    }
}

// The line on the error of the boxes after the codestream of a file of this name, if they have one.
#[derive(Clone, Copy)]
struct LaterError<'a> {
    name: &'a str,
    error: Option<BoxError>,
}

impl fmt::Display for LaterError<'_> {
    ghost use Rattle.std.specs.Prelude.{Some};

    ghost output = { λ later. Some (later_line later.name.now later.error) };

    #[tactic(auto, unfolding(crate::specs::Warnings::later_line))]
    fn fmt<W: fmt::Write>(&self, f: &mut fmt::Formatter<W>) -> fmt::Result {
        let name = Shown(self.name);
        if let Some(error) = self.error {
            let reason = box_text(error);
            writeln!(f, "jxldec: {name}: ignored after the codestream: {reason}")?;
        }
        Ok(())
    }
}

/// The lines that warn of what is left out of a file of this name.
#[derive(Clone, Copy)]
pub struct AllWarnings<'a> {
    pub name: &'a str,
    pub left_out: &'a LeftOut,
}

impl fmt::Display for AllWarnings<'_> {
    ghost use Rattle.std.specs.Prelude.{Some};

    ghost output = { λ w. Some (warning_lines w.name.now (string_bytes w.left_out.now.channels) w.left_out.now.loss
        w.left_out.now.frames w.left_out.now.later_error) };

    fn fmt<W: fmt::Write>(&self, f: &mut fmt::Formatter<W>) -> fmt::Result {
        let (name, left_out) = (self.name, self.left_out);
        let warnings = Warnings {
            name,
            channels: left_out.channels.as_str(),
            loss: left_out.loss,
        };
        let others = FramesLine {
            name,
            frames: left_out.frames,
        };
        let later = LaterError {
            name,
            error: left_out.later_error,
        };
        write!(f, "{warnings}{others}{later}")
    }
}

/// Writes a line on channels that were left out, if there are any, those on what the format does not hold of the
/// meaning of samples, one on the pictures that were left out, and one on the error of the boxes after the codestream.
/// It returns whether all that there are were written.
pub fn warn<E: ErrorStream>(errors: &mut E, name: &str, left_out: &LeftOut) -> bool
    ensures lines { IsReported result (E.contents errors.old) (E.contents errors.new) (E.has_failed errors.new)
        (warning_lines name.now (string_bytes left_out.now.channels) left_out.now.loss left_out.now.frames
        left_out.now.later_error) }
    ensures none { string_bytes left_out.now.channels ≡ [] → has_loss left_out.now.loss ≡ false
        → the_has_more left_out.now.frames ≡ false → left_out.now.later_error ≡ None → errors.new ≡ errors.old }
{
    let (channels, loss) = (left_out.channels.as_str(), left_out.loss);
    let (frames, later_error) = (left_out.frames, left_out.later_error);
    if channels.is_empty() && !loss.has_line() && !frames.has_more() && later_error.is_none() {
        return true;
    }
    let lines = AllWarnings { name, left_out };
    errors.put(lines)
}
