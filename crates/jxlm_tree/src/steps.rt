//! A count that only proofs see.

ghost use Rattle.std.specs.Prelude.{◌≡◌, ℕ, ◌+◌};
ghost use Rattle.std.specs.Borrow.{ftrue};

use std::marker::Model;

// A number that only proofs read. It has no bytes and owns nothing.
#[derive(Drop)]
struct Count {
    pub ghost number: { ℕ },
}

impl Model for Count {
    ghost also_owns = { λ _. ftrue };
}

impl Count {
    fn zero() -> Count
        ensures { result.number ≡ 0 }
    {
        Count {}
    }

    fn after(_before: &Count) -> Count
        ensures { result.number ≡ _before.now.number + 1 }
    {
        Count {}
    }
}

/// How many nodes of trees were looked at. It takes no bytes, and only `tick` changes it.
///
/// Contracts see it as the number, by which they bound the work of a walk.
#[derive(Drop)]
pub struct Steps {
    count: Count,
}

impl Model for Steps {
    ghost Value = { ℕ };

    ghost view = { λ s. s.count.number };
}

impl Steps {
    /// No step.
    pub fn new() -> Steps
        ensures { result ≡ 0 }
    {
        Steps {
            count: Count::zero(),
        }
    }

    /// One step more.
    pub fn tick(&mut self)
        ensures { self.new ≡ self.old + 1 }
    {
        self.count = Count::after(&self.count);
    }
}

const _: () = prove!(size_of::<Steps>() == 0);
