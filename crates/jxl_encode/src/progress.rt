//! How far an encoder has come.

ghost use Rattle.std.specs.Prelude.{⊤, ℕ};

/// Receives how far an encoder has come. Nothing of the file depends on what it does.
pub trait Progress {
    /// What a call leaves of a value, by the number of bytes; nothing, where an `impl` does not say it.
    ghost way_tried_gives: { Self → ℕ → Self → Type 0 } = { λ _ _ _. ⊤ };

    /// The picture was coded in one more way, of `count`, by a codestream of this number of bytes: the shortest is kept.
    fn way_tried(&mut self, count: usize, bytes: usize)
        ensures { way_tried_gives self.old bytes self.new };
}

/// Receives nothing.
impl Progress for () {
    fn way_tried(&mut self, _count: usize, _bytes: usize) {}
}
