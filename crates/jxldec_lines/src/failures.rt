//! Why the output does not get what is asked for.

ghost use Rattle.std.specs.Prelude.{◌≡◌};
ghost use Rattle.jxldec_lines.specs.Failures.{IsOfWriting, cause_of, failure_of_write, failure_text, has_lack, is_silent as the_silent, limits_text, missing_text as the_missing_text};

use crate::reason::{AnimationReason, Reason};
use jxl_animation::AnimationError;
use jxl_codestream::error::FrontError;
use jxl_command::errors::is_closed;
use jxl_command::extra::Extra;
use jxl_image_header::size::Size;
use jxl_lossless::{FileError, Limits};
use std::{fmt, io};

/// Which of the data that are asked for a file does not have.
#[derive(Clone, Copy)]
pub struct Lacks {
    pub profile: bool,
    pub exif: bool,
    pub xmp: bool,
}

impl Lacks {
    /// Whether it lacks any.
    pub fn has_some(self) -> bool
        ensures { result ≡ has_lack self }
    {
        self.profile || (self.exif || self.xmp)
    }
}

/// Why the output does not get what is asked for.
#[derive(Clone, Copy)]
pub enum Failure {
    /// The file cannot be read, for this reason, or it is out of memory for it.
    Unreadable(io::Error),
    /// It begins as no JPEG XL file, and is not read further.
    Foreign,
    /// It is not decoded, or its headers do not stand, by this error.
    File(FileError),
    /// The picture is above the limits: its size, how many channels it has beside the colours, and the limits.
    TooLarge {
        size: Size,
        extra: usize,
        limits: Limits,
    },
    /// The frames of the file are not decoded, by this error.
    Frames(AnimationError),
    /// The file shows no picture with this number, which is asked for.
    NoFrame(u32),
    /// The picture cannot be written in the format that is asked for, or in any.
    NoFormat,
    /// The file does not have these data, which are asked for.
    Missing(Lacks),
    /// Out of memory for the text.
    OutOfMemory,
    /// The ending of the output's name is that of no format.
    Ending,
    /// The output cannot be written, for this reason.
    Unwritable(io::Error),
    /// The output is a pipe that was closed.
    Closed,
    /// These data cannot be written, for this reason.
    Unsaved(Extra, io::Error),
}

impl Failure {
    /// Why the output cannot be written, by the error of a write.
    pub fn of_write(error: io::Error) -> Failure
        ensures value { result ≡ failure_of_write error }
        ensures of_writing { IsOfWriting result }
    {
        if is_closed(&error) {
            Failure::Closed
        } else {
            Failure::Unwritable(error)
        }
    }

    /// The error of the system that is its cause, if one is.
    pub fn cause(&self) -> Option<io::Error>
        ensures { result ≡ cause_of self.now }
    {
        match *self {
            Failure::Unreadable(error) | Failure::Unwritable(error) | Failure::Unsaved(_, error) =>
                Some(error),
            _ => None,
        }
    }

    /// Whether the output is a closed pipe, of which nothing is said.
    pub fn is_silent(&self) -> bool
        ensures { result ≡ the_silent self.now }
    {
        match *self {
            Failure::Closed => true,
            _ => false,
        }
    }

    /// Why frames are not decoded, by an error before their sections.
    pub fn of_frames(error: FrontError) -> Failure
        ensures { result ≡ Failure.Frames (AnimationError.File (FileError.Front error)) }
    {
        Failure::Frames(AnimationError::File(FileError::Front(error)))
    }
}

// Which data a file does not have.
#[tactic(auto, unfolding(crate::specs::Failures::missing_text))]
fn missing_text(lacks: Lacks) -> &'static str
    ensures { result.now ≡ the_missing_text lacks }
{
    match (lacks.profile, lacks.exif, lacks.xmp) {
        (true, true, true) => "no colour profile, no Exif data, no XMP data",
        (true, true, false) => "no colour profile, no Exif data",
        (true, false, true) => "no colour profile, no XMP data",
        (true, false, false) => "no colour profile",
        (false, true, true) => "no Exif data, no XMP data",
        (false, true, false) => "no Exif data",
        (false, false, true) => "no XMP data",
        (false, false, false) => "",
    }
}

// The limits of a picture.
#[derive(Clone, Copy)]
struct Maximum(Limits);

impl fmt::Display for Maximum {
    ghost use Rattle.std.specs.Prelude.{Some};

    ghost output = { λ maximum. Some (limits_text maximum.0) };

    #[tactic(auto, unfolding(crate::specs::Failures::limits_text))]
    fn fmt<W: fmt::Write>(&self, f: &mut fmt::Formatter<W>) -> fmt::Result {
        let (pixels, channels, bytes) = (self.0.pixels, self.0.channels, self.0.bytes);
        write!(
            f,
            "(maximum: {pixels} pixels, {channels} channels, {bytes} bytes of samples)"
        )
    }
}

/// Why the output does not get what is asked for, without what the system says of its cause.
impl fmt::Display for Failure {
    ghost use Rattle.std.specs.Prelude.{Some};

    ghost output = { λ failure. Some (failure_text failure) };

    #[tactic(auto, unfolding(crate::specs::Failures::failure_text))]
    fn fmt<W: fmt::Write>(&self, f: &mut fmt::Formatter<W>) -> fmt::Result {
        match *self {
            Failure::Unreadable(_) => f.write_str("cannot read"),
            Failure::Foreign => f.write_str("not a JPEG XL file"),
            Failure::File(error) => {
                let reason = Reason(error);
                write!(f, "{reason}")
            }
            Failure::TooLarge {
                size,
                extra,
                limits,
            } => {
                let (width, height, maximum) = (size.width, size.height, Maximum(limits));
                write!(
                    f,
                    "a picture above the limits: {width}x{height} with {extra} extra channels {maximum}"
                )
            }
            Failure::Frames(error) => {
                let reason = AnimationReason(error);
                write!(f, "{reason}")
            }
            Failure::NoFrame(number) => {
                write!(f, "no frame {number}; frames are numbered from 0")
            }
            Failure::NoFormat => {
                f.write_str("this format cannot hold the picture; --format text can")
            }
            Failure::Missing(lacks) => f.write_str(missing_text(lacks)),
            Failure::OutOfMemory => f.write_str("out of memory"),
            Failure::Ending => f.write_str(
                "no format has this ending; there are .png, .apng, .pgm, .ppm, .pnm, .pam, .pfm and .text",
            ),
            Failure::Unwritable(_) | Failure::Unsaved(..) => f.write_str("cannot write"),
            Failure::Closed => f.write_str("a pipe that was closed"),
        }
    }
}
