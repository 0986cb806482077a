//! The first bits of a stream that is written from its end to its beginning.

ghost use Rattle.std.specs.Prelude.{◌<◌};

/// The first bits of those that were written, fewer than 64: the lowest of a number, the least significant first.
#[derive(Clone, Copy)]
pub(crate) struct FirstBits {
    pub(crate) value: u64,
    pub(crate) count: u32,
    ghost few: { count < 64 },
}
