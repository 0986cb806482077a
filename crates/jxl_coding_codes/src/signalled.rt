//! Lengths of codewords, as they are signalled.

ghost use Rattle.std.specs.Prelude.{◌≤◌, ◌^◌, length};

/// Lengths as they are signalled.
#[derive(Drop)]
pub struct Lengths {
    pub lengths: Vec<u32>,
    /// The shares that are left.
    pub space: u32,
    /// The last length that is not 0.
    pub last: u32,
    /// How many the run has that may go on.
    pub run: u32,
    /// The length that it is of.
    pub of: u32,
    ghost few: { length lengths.items ≤ 2 ^ 15 },
    ghost short: { last ≤ 15 },
    ghost among: { run ≤ length lengths.items },
}
