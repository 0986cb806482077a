//! The bytes that commands make.

ghost use Rattle.std.specs.Prelude.{◌≡◌, ◌<◌, ◌≤◌, ◌+◌, ◌++◌, ◌*◌, ◌^◌, ◌⊎◌, false, length, codes, slice_range, MatchResult, IfOk};
ghost use Rattle.jxl_icc.specs.Commands.{IsPossible, is_early, output_after, makes as the_makes, needs as the_needs, typed};
ghost use Rattle.jxl_icc.specs.Growth.{extend};
ghost use Rattle.jxl_icc.specs.Linear.{transposed_byte, predicted_byte};

use crate::commands::{Command, needs};
use crate::error::ProfileError;
use crate::linear::{Linear, predict, source};

/// Adds these bytes.
pub fn append(out: &mut Vec<u8>, bytes: &[u8]) -> Result<(), ProfileError>
    ensures { MatchResult result (λ _. out.new.items ≡ out.old.items ++ bytes.now)
        (λ e. e ≡ ProfileError.OutOfMemory) }
{
    if out.extend_from_slice(bytes).is_err() {
        return Err(ProfileError::OutOfMemory);
    }
    Ok(())
}

// Adds the columns of a table whose rows are `count` bytes of the data.
#[tactic(auto, using(crate::proofs::Growths::grown_none, crate::proofs::Growths::grown_next))]
fn transposed(
    out: &mut Vec<u8>,
    bytes: &[u8],
    from: usize,
    count: usize,
    width: usize,
) -> Result<(), ProfileError>
    requires width { (width ≡ 2) ⊎ (width ≡ 4) }
    requires small { count < 2 ^ 32 }
    requires room { from + count ≤ length bytes.now }
    ensures { MatchResult result
        (λ _. out.new.items ≡ extend (transposed_byte bytes.now from count width) out.old.items count)
        (λ e. e ≡ ProfileError.OutOfMemory) }
{
    for i in 0..count {
        let byte = bytes[from + source(count, width, i)];
        if out.push(byte).is_err() {
            return Err(ProfileError::OutOfMemory);
        }
    }
    Ok(())
}

// Adds the columns of a table whose rows are `count` bytes of the data, each byte with its prediction.
#[tactic(auto, using(crate::proofs::Growths::grown_none, crate::proofs::Growths::grown_next))]
fn predicted(
    out: &mut Vec<u8>,
    bytes: &[u8],
    from: usize,
    count: usize,
    by: Linear,
) -> Result<(), ProfileError>
    requires width { (by.width ≡ 1) ⊎ ((by.width ≡ 2) ⊎ (by.width ≡ 4)) }
    requires stride { by.width ≤ by.stride }
    requires before { 4 * by.stride < length out.old.items }
    requires small { count < 2 ^ 32 }
    requires room { from + count ≤ length bytes.now }
    ensures { MatchResult result
        (λ _. out.new.items ≡ extend (predicted_byte bytes.now from count by (length out.old.items)) out.old.items count)
        (λ e. e ≡ ProfileError.OutOfMemory) }
{
    let start = out.len();
    for i in 0..count {
        let residual = bytes[from + source(count, by.width, i)];
        let byte = residual.wrapping_add(predict(out.as_slice(), start, by, i));
        if out.push(byte).is_err() {
            return Err(ProfileError::OutOfMemory);
        }
    }
    Ok(())
}

// The name of a type.
fn type_name(kind: u8) -> &'static [u8]
    requires { kind < 8 }
    ensures { result.now ≡ slice_range (codes "XYZ desctextmlucparacurvsf32gbd ") (4 * kind) (4 * kind + 4) }
{
    let k = 4 * kind as usize;
    let names: &'static [u8] = b"XYZ desctextmlucparacurvsf32gbd ";
    &names[k..k + 4]
}

// Adds a type: its name and four zeros.
fn type_of(out: &mut Vec<u8>, kind: u8) -> Result<(), ProfileError>
    requires { kind < 8 }
    ensures { MatchResult result (λ _. out.new.items ≡ out.old.items ++ typed kind)
        (λ e. e ≡ ProfileError.OutOfMemory) }
{
    append(out, type_name(kind))?;
    append(out, &[0; 4])
}

/// Adds what the command makes of the data from this position on.
#[tactic(auto, using(crate::proofs::Growths::grown_length))]
pub fn make(
    out: &mut Vec<u8>,
    bytes: &[u8],
    from: usize,
    command: Command,
) -> Result<(), ProfileError>
    requires possible { IsPossible command }
    requires early { is_early command (length out.old.items) ≡ false }
    requires small { the_needs command < 2 ^ 32 }
    requires room { from + the_needs command ≤ length bytes.now }
    ensures gives { MatchResult result (λ _. out.new.items ≡ output_after bytes.now from out.old.items command)
        (λ e. e ≡ ProfileError.OutOfMemory) }
    ensures long { IfOk result (λ _. length out.new.items ≡ length out.old.items + the_makes command) }
{
    let count = needs(command) as usize;
    match command {
        Command::Literal(_) => append(out, &bytes[from..from + count]),
        Command::Transposed(width, _) => transposed(out, bytes, from, count, width),
        Command::Predicted(by, _) => predicted(out, bytes, from, count, by),
        Command::Xyz => {
            type_of(out, 0)?;
            append(out, &bytes[from..from + count])
        }
        Command::Kind(kind) => type_of(out, kind),
    }
}
