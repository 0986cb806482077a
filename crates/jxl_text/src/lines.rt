//! The lines of a text.
ghost use Rattle.std.specs.Prelude.{◌≡◌, ◌+◌, ◌<◌, ◌^◌, ◌↔◌, [], length, IfOk, IfErr, IsTrue};

use crate::cut::cut;
use crate::reading::TextError;

/// What is left of a text, and how many lines were taken from it.
#[derive(Drop)]
pub(crate) struct Lines<'a> {
    pub(crate) rest: &'a [u8],
    pub(crate) taken: usize,
    ghost counted: { taken + length rest.now < 2 ^ 63 },
}

impl<'a> Lines<'a> {
    ghost use Rattle.jxl_text.specs.Inner.Cuts.{Lacks, IsCut};
    ghost use Rattle.jxl_text.specs.declared.reading.TextError.TheVariants.{Line};

    /// The lines of the text.
    pub(crate) fn new(text: &'a [u8]) -> Lines<'a>
        ensures rest { result.rest.now ≡ text.now }
        ensures taken { result.taken ≡ 0 }
    {
        Lines {
            rest: text,
            taken: 0,
        }
    }

    /// Whether nothing is left.
    pub(crate) fn is_empty(&self) -> bool
        ensures { IsTrue result ↔ (self.now.rest.now ≡ []) }
    {
        self.rest.is_empty()
    }

    /// The error that the line last taken is wrong.
    pub(crate) fn wrong(&self) -> TextError
        ensures { result ≡ Line self.now.taken }
    {
        TextError::Line(self.taken)
    }

    /// The next line, without its end. A line that is not ended is wrong.
    pub(crate) fn next(&mut self) -> Result<&'a [u8], TextError>
        ensures ok { IfOk result (λ line. IsCut 10 self.old.rest.now line.now self.new.rest.now) }
        ensures taken { IfOk result (λ _. self.new.taken ≡ self.old.taken + 1) }
        ensures err { IfErr result (λ e. (e ≡ Line (self.old.taken + 1)) × Lacks 10 self.old.rest.now) }
    {
        let Some((line, rest)) = cut(self.rest, b'\n') else {
            return Err(TextError::Line(self.taken + 1));
        };
        self.rest = rest;
        self.taken += 1;
        Ok(line)
    }
}
