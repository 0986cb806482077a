//! A name in a line of text.

ghost use Rattle.std.specs.Fmt.{WritesOnOk};
ghost use Rattle.jxl_command.specs.Shown.{letter_text, shown_text};

use std::fmt;

/// A name in a line of text: a control character of it is written by its code, as `\x1b`, so that a terminal does not
/// obey it, and the line has no other end.
#[derive(Clone, Copy)]
pub struct Shown<'a>(pub &'a str);

// A character of a name.
#[derive(Clone, Copy)]
struct Letter(char);

impl fmt::Display for Letter {
    ghost use Rattle.std.specs.Prelude.{Some};

    ghost output = { λ letter. Some (letter_text letter.0) };

    #[tactic(auto, unfolding(crate::specs::Shown::letter_text))]
    fn fmt<W: fmt::Write>(&self, f: &mut fmt::Formatter<W>) -> fmt::Result {
        if self.0.is_control() {
            let code = u32::from(self.0);
            let (high, low) = (code / 16, code % 16);
            write!(f, "\\x{high:x}{low:x}")
        } else {
            f.write_char(self.0)
        }
    }
}

// Writes a name.
#[tactic(auto, unfolding(crate::specs::Shown::shown_text))]
fn write_shown<W: fmt::Write>(f: &mut fmt::Formatter<W>, name: &str) -> fmt::Result
    ensures { WritesOnOk W.write_str_gives f.old result (shown_text name.now) f.new }
{
    for c in name.chars() {
        let letter = Letter(c);
        write!(f, "{letter}")?;
    }
    Ok(())
}

impl fmt::Display for Shown<'_> {
    ghost use Rattle.std.specs.Prelude.{Some};

    ghost output = { λ shown. Some (shown_text shown.0.now) };

    fn fmt<W: fmt::Write>(&self, f: &mut fmt::Formatter<W>) -> fmt::Result {
        write_shown(f, self.0)
    }
}
