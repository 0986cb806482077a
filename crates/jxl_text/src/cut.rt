//! What stands before and after a byte.
ghost use Rattle.std.specs.Prelude.{MatchOption};
ghost use Rattle.jxl_text.specs.Inner.Cuts.{Lacks, IsCut};

/// What stands before the first byte of this value, and what after it; none where there is no such byte.
pub(crate) fn cut(text: &[u8], byte: u8) -> Option<(&[u8], &[u8])>
    ensures { MatchOption result (Lacks byte text.now) (λ p. IsCut byte text.now p.0.now p.1.now) }
{
    for (i, x) in text.iter().enumerate() {
        if *x == byte {
            return Some((&text[..i], &text[i + 1..]));
        }
    }
    None
}
