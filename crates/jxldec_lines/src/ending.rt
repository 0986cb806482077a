//! How the program ends, with the lines that it writes on standard error.

ghost use Rattle.std.specs.Prelude.{◌≡◌, [], None, false, string_bytes, true};
ghost use Rattle.jxl_command.specs.Streams.{IsReported, IsReportedLine};
ghost use Rattle.jxldec_lines.specs.Failures.{Reports, cause_of, failure_line};
ghost use Rattle.jxldec_lines.specs.Losses.{has_loss};
ghost use Rattle.jxldec_lines.specs.Warnings.{has_more, lacking_lines, warnings};

use crate::failures::{Failure, Lacks};
use crate::warning::{AllWarnings, LeftOut, warn};
use jxl_command::end::End;
use jxl_command::errors::{ErrorStream, put_line};
use jxl_command::shown::Shown;

// Writes the line of a failure about what has this name. It returns whether all of it was written.
fn put_failure<E: ErrorStream>(errors: &mut E, name: &str, failure: Failure) -> bool
    ensures { IsReportedLine result (E.contents errors.old) (E.contents errors.new) (E.has_failed errors.new)
        (cause_of failure) (failure_line name.now failure) }
{
    let (name, cause) = (Shown(name), failure.cause());
    put_line(errors, format_args!("jxldec: {name}: {failure}"), cause)
}

/// Writes the line of a failure about what has this name, and ends with status 1. Of a closed pipe nothing is written.
pub fn report<E: ErrorStream>(errors: &mut E, name: &str, failure: Failure) -> End
    ensures status { result.status ≡ 1 }
    ensures reports { Reports name.now failure (errors.new ≡ errors.old) (IsReportedLine result.reported
        (E.contents errors.old) (E.contents errors.new) (E.has_failed errors.new)) }
{
    if failure.is_silent() {
        return End {
            status: 1,
            reported: true,
        };
    }
    let reported = put_failure(errors, name, failure);
    End {
        status: 1,
        reported,
    }
}

/// Writes the lines that warn of what is left out of the file of this name, unless nothing but errors is to be printed,
/// and ends with status 0.
pub fn succeed<E: ErrorStream>(errors: &mut E, quiet: bool, name: &str, left_out: &LeftOut) -> End
    ensures status { result.status ≡ 0 }
    ensures lines { IsReported result.reported (E.contents errors.old) (E.contents errors.new)
        (E.has_failed errors.new) (warnings quiet name.now (string_bytes left_out.now.channels) left_out.now.loss
        left_out.now.frames left_out.now.later_error) }
    ensures quiet { quiet ≡ true → errors.new ≡ errors.old }
    ensures none { string_bytes left_out.now.channels ≡ [] → has_loss left_out.now.loss ≡ false
        → has_more left_out.now.frames ≡ false → left_out.now.later_error ≡ None → errors.new ≡ errors.old }
{
    if quiet {
        return End {
            status: 0,
            reported: true,
        };
    }
    let reported = warn(errors, name, left_out);
    End {
        status: 0,
        reported,
    }
}

/// Writes the lines that warn of what is left out of the file of this name, unless nothing but errors is to be printed, and
/// that it does not have these data, and ends with status 1.
pub fn end_lacking<E: ErrorStream>(
    errors: &mut E,
    quiet: bool,
    name: &str,
    left_out: &LeftOut,
    lacks: Lacks,
) -> End
    ensures status { result.status ≡ 1 }
    ensures line { IsReportedLine result.reported (E.contents errors.old) (E.contents errors.new)
        (E.has_failed errors.new) None (lacking_lines quiet name.now (string_bytes left_out.now.channels)
        left_out.now.loss left_out.now.frames left_out.now.later_error lacks) }
{
    if quiet {
        return report(errors, name, Failure::Missing(lacks));
    }
    let warnings = AllWarnings { name, left_out };
    let (name, missing) = (Shown(name), Failure::Missing(lacks));
    let reported = put_line(
        errors,
        format_args!("{warnings}jxldec: {name}: {missing}"),
        None,
    );
    End {
        status: 1,
        reported,
    }
}
