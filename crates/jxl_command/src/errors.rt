//! What a program writes lines to, standard error, and what the errors of writes mean.

ghost use Rattle.std.specs.Prelude.{◌≡◌, [], IfSome, MatchBool, Some};
ghost use Rattle.jxl_command.specs.Streams.{IsPut, IsReportedLine, is_closed as the_closed};

use std::fmt::Display;
use std::io::{Error, ErrorKind, Stderr, Write};

/// A writer of lines that says whether a write to it failed.
pub trait ErrorStream: Write {
    /// A write to it failed.
    ghost has_failed: { Self → Type 0 };

    /// Writes a text. It returns whether all of it was written.
    fn put<D: Display + Drop>(&mut self, text: D) -> bool
        ensures { MatchBool result (IsPut (D.output text) (Self.contents self.old) (Self.contents self.new))
            (has_failed self.new) };
}

impl ErrorStream for Stderr {
    ghost use Rattle.std.specs.Prelude.{⊤};

    ghost has_failed = { λ _. ⊤ };

    fn put<D: Display + Drop>(&mut self, text: D) -> bool {
        self.write_fmt(text).is_ok()
    }
}

// Writes what the system says of an error, after a colon, and ends the line.
fn put_error<E: ErrorStream>(errors: &mut E, error: Error) -> bool
    ensures { IsReportedLine result (E.contents errors.old) (E.contents errors.new) (E.has_failed errors.new)
        (Some error) [] }
{
    errors.put(": ") && (errors.put(error) && errors.put("\n"))
}

// Ends a line, with what the system says of its cause, if present.
fn put_cause<E: ErrorStream>(errors: &mut E, cause: Option<Error>) -> bool
    ensures { IsReportedLine result (E.contents errors.old) (E.contents errors.new) (E.has_failed errors.new) cause [] }
{
    match cause {
        Some(error) => put_error(errors, error),
        None => errors.put("\n"),
    }
}

/// Writes a line: these words, and after a colon what the system says of the error that is their cause, if present. It
/// returns whether all of it was written.
pub fn put_line<E: ErrorStream, D: Display + Drop>(
    errors: &mut E,
    words: D,
    cause: Option<Error>,
) -> bool
    ensures { IfSome (D.output words) (IsReportedLine result (E.contents errors.old) (E.contents errors.new)
        (E.has_failed errors.new) cause) }
{
    errors.put(words) && put_cause(errors, cause)
}

/// Whether a write failed by this error because the output is a pipe that was closed.
pub fn is_closed(error: &Error) -> bool
    ensures { result ≡ the_closed error.now }
{
    match error.kind() {
        ErrorKind::BrokenPipe => true,
        _ => false,
    }
}
