//! Why the output does not get the encoded picture.

ghost use Rattle.std.specs.Prelude.{◌≡◌};
ghost use Rattle.jxlenc.specs.Failures.{IsOfWriting, cause_of, failure_of_write, failure_text, is_silent as the_silent, picture_text as the_picture_text, profile_text as the_profile_text};

use crate::profile::ProfileError;
use crate::reason::png_text;
use jxl_command::errors::is_closed;
use jxl_command::extra::Extra;
use jxl_command::output::terminal_text;
use jxl_netpbm_read::error::NetpbmError;
use jxl_png_read::error::ReadError;
use std::{fmt, io};

/// Why the output does not get the encoded picture.
#[derive(Clone, Copy)]
pub enum Failure {
    /// The input cannot be read, for this reason, or it is out of memory for it.
    Unreadable(io::Error),
    /// The input is no netpbm file that is read, by this error, and no PNG file.
    Picture(NetpbmError),
    /// The input is a PNG file that is read as no picture, by this error.
    Png(ReadError),
    /// These data cannot be read, for this reason, or it is out of memory for them.
    ExtraUnreadable(Extra, io::Error),
    /// The profile is not stored, by this error.
    Profile(ProfileError),
    /// The picture is too large for one frame.
    TooLarge,
    /// Out of memory for the file.
    OutOfMemory,
    /// The output is a terminal that was not asked for.
    Terminal,
    /// The output is a file that is read.
    Overwritten,
    /// The output cannot be written, for this reason.
    Unwritable(io::Error),
    /// The output is a pipe that was closed.
    Closed,
}

impl Failure {
    /// Why the output cannot be written, by the error of a write.
    pub fn of_write(error: io::Error) -> Failure
        ensures value { result ≡ failure_of_write error }
        ensures of_writing { IsOfWriting result }
    {
        if is_closed(&error) {
            Failure::Closed
        } else {
            Failure::Unwritable(error)
        }
    }

    /// The error of the system that is its cause, if one is.
    pub fn cause(&self) -> Option<io::Error>
        ensures { result ≡ cause_of self.now }
    {
        match *self {
            Failure::Unreadable(error)
            | Failure::ExtraUnreadable(_, error)
            | Failure::Unwritable(error) => Some(error),
            _ => None,
        }
    }

    /// Whether the output is a closed pipe, of which nothing is said.
    pub fn is_silent(&self) -> bool
        ensures { result ≡ the_silent self.now }
    {
        match *self {
            Failure::Closed => true,
            _ => false,
        }
    }
}

// Why a file is read as no picture.
#[tactic(auto, unfolding(crate::specs::Failures::picture_text))]
fn picture_text(error: NetpbmError) -> &'static str
    ensures { result.now ≡ the_picture_text error }
{
    match error {
        NetpbmError::Magic => "not a PNG, PGM, PPM, PAM or PFM file",
        NetpbmError::Truncated => "truncated",
        NetpbmError::InvalidHeader => "invalid header",
        NetpbmError::MissingLine => "invalid header: a line is missing",
        NetpbmError::Size => "a width or height of 0 or above 1073741824",
        NetpbmError::Maximum => "not supported: a maximum that is not 2^n - 1 with n from 1 to 16",
        NetpbmError::Channels => "not supported: channels of this type or number",
        NetpbmError::Sample => "a sample above the maximum",
        NetpbmError::OutOfMemory => "out of memory",
    }
}

// Why a profile is not stored.
#[tactic(auto, unfolding(crate::specs::Failures::profile_text))]
fn profile_text(error: ProfileError) -> &'static str
    ensures { result.now ≡ the_profile_text error }
{
    match error {
        ProfileError::Length => "a profile of 0 bytes or above 268435456",
        ProfileError::Header => "not an ICC profile",
        ProfileError::Size => "a profile whose header says another size",
        ProfileError::Space => "a profile of another colour space than the picture's",
    }
}

/// Why the output does not get the encoded picture, without what the system says of its cause.
impl fmt::Display for Failure {
    ghost use Rattle.std.specs.Prelude.{Some};

    ghost output = { λ failure. Some (failure_text failure) };

    #[tactic(auto, unfolding(crate::specs::Failures::failure_text))]
    fn fmt<W: fmt::Write>(&self, f: &mut fmt::Formatter<W>) -> fmt::Result {
        match *self {
            Failure::Unreadable(_) | Failure::ExtraUnreadable(..) => f.write_str("cannot read"),
            Failure::Picture(error) => f.write_str(picture_text(error)),
            Failure::Png(error) => f.write_str(png_text(error)),
            Failure::Profile(error) => f.write_str(profile_text(error)),
            Failure::TooLarge => f.write_str("a picture too large for one frame"),
            Failure::OutOfMemory => f.write_str("out of memory"),
            Failure::Terminal => f.write_str(terminal_text()),
            Failure::Overwritten => f.write_str("an input and this output are one file"),
            Failure::Unwritable(_) => f.write_str("cannot write"),
            Failure::Closed => f.write_str("a pipe that was closed"),
        }
    }
}
