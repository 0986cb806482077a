//! Why the program does not begin.

ghost use Rattle.std.specs.Prelude.{◌≡◌, None};
ghost use Rattle.jxl_command.specs.Streams.{IsReportedLine};
ghost use Rattle.jxldec_lines.specs.Failures.{refusal_line, refusal_text};

use jxl_command::end::End;
use jxl_command::errors::{ErrorStream, put_line};
use jxl_command::output::terminal_text;
use jxl_command::shown::Shown;

/// Why the program does not begin.
#[derive(Clone, Copy)]
pub enum Refusal {
    /// The output is a terminal that was not asked for.
    Terminal,
    /// The output is the input.
    Input,
    /// The output is another output.
    Outputs,
}

impl Refusal {
    // The same in words.
    fn text(self) -> &'static str
        ensures { result.now ≡ refusal_text self }
    {
        match self {
            Refusal::Terminal => terminal_text(),
            Refusal::Input => "the input and this output are one file",
            Refusal::Outputs => "two outputs are one file",
        }
    }
}

/// Writes the line of a refusal about what has this name, and ends with status 1.
#[tactic(auto, unfolding(crate::specs::Failures::refusal_line))]
pub fn refuse<E: ErrorStream>(errors: &mut E, name: &str, refusal: Refusal) -> End
    ensures status { result.status ≡ 1 }
    ensures line { IsReportedLine result.reported (E.contents errors.old) (E.contents errors.new)
        (E.has_failed errors.new) None (refusal_line name.now refusal) }
{
    let (name, text) = (Shown(name), refusal.text());
    let reported = put_line(errors, format_args!("jxldec: {name}: {text}"), None);
    End {
        status: 1,
        reported,
    }
}
