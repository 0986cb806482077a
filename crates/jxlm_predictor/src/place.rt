//! What a walk of a tree asks of a cell.

ghost use Rattle.std.specs.Prelude.{◌≡◌, ℕ, ℤ};

use std::marker::Model;

/// The number of a property that a walk asks for.
#[derive(Drop)]
pub struct AskedProperty {
    number: u32,
}

impl Model for AskedProperty {
    ghost use Rattle.std.specs.Prelude.{ℕ, ◌<◌, ◌^◌};

    ghost Value = { ℕ };

    ghost view = { λ a. a.number };

    ghost invariant = { λ a. a.number < 2 ^ 32 };
}

impl AskedProperty {
    /// The property of this number.
    pub fn new(number: u32) -> AskedProperty
        ensures { result ≡ number }
    {
        AskedProperty { number }
    }

    /// Its number.
    #[inline(always)]
    pub fn number(&self) -> u32
        ensures { result ≡ self.now }
    {
        self.number
    }
}

/// What returns the properties of a cell, from property 2 on.
pub trait PlaceProperties {
    // What must hold of it before it is asked.
    ghost IsCurrent: { Self → Type 0 };

    // Which numbers it may return for a property.
    ghost gives: { Self → ℕ → ℤ → Type 0 };

    /// This property, in 32 bits; that of a channel or a stream is 0.
    fn property(&self, asked: &AskedProperty) -> i32
        requires { IsCurrent self.now }
        ensures { gives self.now asked.now result };
}
