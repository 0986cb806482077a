//! A number in place of each property of a cell.

use jxlm_tree::flat::{AskedProperty, PlaceProperties};

/// A number that a walk finds for each property that it asks for.
#[derive(Drop)]
pub(crate) struct Number {
    /// The number.
    pub(crate) value: i32,
}

impl PlaceProperties for Number {
    ghost use Rattle.std.specs.Prelude.{◌≡◌};

    ghost IsCurrent = { λ p. Unit {0} };

    ghost gives = { λ p k v. v ≡ p.value };

    #[inline(always)]
    fn property(&self, _asked: &AskedProperty) -> i32 {
        self.value
    }
}
