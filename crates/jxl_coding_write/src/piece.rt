//! Bits to be written later.

ghost use Rattle.std.specs.Prelude.{◌≤◌, ◌<◌, ◌^◌};

/// At most 32 bits as a number: the least significant is the first.
#[derive(Clone, Copy)]
pub struct BitPiece {
    pub value: u32,
    pub count: u32,
    ghost few: { count ≤ 32 },
    ghost small: { value < 2 ^ count },
}
