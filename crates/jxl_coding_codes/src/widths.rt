//! Widths of counts, as they are signalled.

ghost use Rattle.std.specs.Prelude.{◌≤◌, length};
ghost use Rattle.std.specs.List.{All};

/// Widths of counts, as they are signalled.
#[derive(Drop)]
pub struct Widths {
    /// A width each; 13 says that the symbol comes as often as the one before.
    pub widths: Vec<u32>,
    /// How wide the widest is, plus one; 0 where there is none.
    pub most: u32,
    /// The first symbol that is so wide.
    pub widest: usize,
    ghost within: { widest ≤ length widths.items },
    ghost small: { All (λ width. width ≤ 13) widths.items },
}
