//! The commands of the main content.

ghost use Rattle.std.specs.Prelude.{◌≡◌, ◌<◌, ◌≤◌, ◌^◌, length, IfOk};
ghost use Rattle.jxl_icc.specs.Commands.{command_at as the_command, prediction_at as the_prediction, by_count as the_by_count, IsPossible, is_early, needs as the_needs, makes as the_makes, misfit as the_misfit};

use crate::error::ProfileError;
use crate::linear::Linear;
use crate::numbers::{number_at, number_or};

/// A command of the main content.
#[derive(Clone, Copy)]
pub enum Command {
    /// This many bytes of the data.
    Literal(u64),
    /// A table of this many rows whose columns become rows, and how many bytes it has.
    Transposed(usize, u64),
    /// Bytes that are transposed and added to a prediction, and how many they are.
    Predicted(Linear, u64),
    /// A type `XYZ ` and twelve bytes of the data.
    Xyz,
    /// The type of this number.
    Kind(u8),
}

/// A command, and the position after it.
#[derive(Clone, Copy)]
pub struct Parsed {
    /// The command.
    pub command: Command,
    /// How many bytes of the stream are before what follows it.
    pub after: usize,
}

// The command of this code that has a count.
fn by_count(code: u8, count: u64) -> Command
    requires { code < 4 }
    ensures { result ≡ the_by_count code count }
{
    match code {
        2 => Command::Transposed(2, count),
        3 => Command::Transposed(4, count),
        _ => Command::Literal(count),
    }
}

// The prediction whose flags are at `start`, and its count.
#[tactic(auto, unfolding(crate::specs::Commands::prediction_at))]
fn prediction_at(bytes: &[u8], end: usize, start: usize) -> Result<Parsed, ProfileError>
    requires inside { end ≤ length bytes.now }
    requires here { start ≤ end }
    ensures gives { result ≡ the_prediction bytes.now end start }
    ensures after { IfOk result (λ p. (start < p.after) × (p.after ≤ end)) }
    ensures possible { IfOk result (λ p. IsPossible p.command) }
{
    if start >= end {
        return Err(ProfileError::Truncated);
    }
    let flags = bytes[start];
    let width = flags % 4 + 1;
    let order = flags / 4 % 4;
    if width == 3 {
        return Err(ProfileError::InvalidWidth);
    }
    if order == 3 {
        return Err(ProfileError::InvalidOrder);
    }
    let strided = flags / 16 % 2 == 1;
    let stride = number_or(bytes, end, strided, u64::from(width), start + 1)?;
    if stride.value < u64::from(width) {
        return Err(ProfileError::InvalidStride);
    }
    let count = number_at(bytes, end, stride.after)?;
    let by = Linear {
        width: width as usize,
        order,
        stride: stride.value,
    };
    Ok(Parsed {
        command: Command::Predicted(by, count.value),
        after: count.after,
    })
}

/// The command that begins at `start`.
#[tactic(auto, unfolding(crate::specs::Commands::command_at))]
pub fn command_at(bytes: &[u8], end: usize, start: usize) -> Result<Parsed, ProfileError>
    requires inside { end ≤ length bytes.now }
    requires here { start < end }
    ensures gives { result ≡ the_command bytes.now end start }
    ensures after { IfOk result (λ p. (start < p.after) × (p.after ≤ end)) }
    ensures possible { IfOk result (λ p. IsPossible p.command) }
{
    let after = start + 1;
    match bytes[start] {
        code @ 1..=3 => {
            let count = number_at(bytes, end, after)?;
            Ok(Parsed {
                command: by_count(code, count.value),
                after: count.after,
            })
        }
        4 => prediction_at(bytes, end, after),
        10 => Ok(Parsed {
            command: Command::Xyz,
            after,
        }),
        code @ 16..=23 => Ok(Parsed {
            command: Command::Kind(code - 16),
            after,
        }),
        _ => Err(ProfileError::UnknownCommand),
    }
}

/// How many bytes of the data the command takes.
pub fn needs(command: Command) -> u64
    ensures { result ≡ the_needs command }
{
    match command {
        Command::Literal(count) | Command::Transposed(_, count) | Command::Predicted(_, count) =>
            count,
        Command::Xyz => 12,
        Command::Kind(_) => 0,
    }
}

/// How many bytes the command adds to the profile.
pub fn makes(command: Command) -> u64
    ensures { result ≡ the_makes command }
{
    match command {
        Command::Xyz => 20,
        Command::Kind(_) => 8,
        _ => needs(command),
    }
}

// Whether a prediction begins before four values are known.
fn early(command: Command, count: usize) -> bool
    requires { count < 2 ^ 32 }
    ensures { result ≡ is_early command count }
{
    match command {
        Command::Predicted(by, _) => by.stride >= (count as u64 + 3) / 4,
        _ => false,
    }
}

/// Why a command may not come after `count` bytes of a profile of `size` bytes, with `left` bytes of the data left.
pub fn misfit(command: Command, left: usize, count: usize, size: usize) -> Option<ProfileError>
    requires within { count ≤ size }
    requires small { size < 2 ^ 32 }
    ensures { result ≡ the_misfit command left count size }
{
    if early(command, count) {
        return Some(ProfileError::InvalidStride);
    }
    if needs(command) > left as u64 {
        return Some(ProfileError::DataTruncated);
    }
    if makes(command) > (size - count) as u64 {
        return Some(ProfileError::PastSize);
    }
    None
}
