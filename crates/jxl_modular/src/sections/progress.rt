//! How far sections have come.

ghost use Rattle.std.specs.Prelude.{ℕ, ⊤};

/// Receives how far sections have come while they are decoded. Nothing of them depends on what it does.
pub trait Progress {
    /// What a call leaves of a value, by the number of sections; nothing, where an `impl` does not say it.
    ghost section_decoded_gives: { Self → ℕ → Self → Type 0 } = { λ _ _ _. ⊤ };

    /// One more section was decoded, of `count`.
    fn section_decoded(&mut self, count: usize)
        ensures { section_decoded_gives self.old count self.new };
}

/// Receives nothing.
impl Progress for () {
    fn section_decoded(&mut self, _count: usize) {}
}
