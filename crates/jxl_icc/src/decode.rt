//! The profile of an encoded stream.

ghost use Rattle.std.specs.Prelude.{◌≡◌, ◌<◌, ◌≤◌, ◌-◌, ◌^◌, Ok, Err, IfOk, IfErr, length, MatchResult};
ghost use Rattle.jxl_icc.specs.Errors.{UnlessMemory};
ghost use Rattle.jxl_icc.specs.Profiles.{body as the_body, contents as the_contents, finished as the_finished, icc_of, step as the_step};
ghost use Rattle.jxl_icc.specs.Inner.States.{Gives, so_far};

use crate::commands::{command_at, misfit, needs};
use crate::error::ProfileError;
use crate::header::{HEADER, decode_header};
use crate::numbers::number_at;
use crate::pieces::make;
use crate::tags::list;
use crate::walk::Walk;
use std::alloc::Global;

// One command of the main content.
#[tactic(auto, unfolding(crate::specs::Profiles::step))]
fn step(
    bytes: &[u8],
    end: usize,
    size: usize,
    walk: Walk,
    out: &mut Vec<u8>,
) -> Result<Walk, ProfileError>
    requires inside { end ≤ length bytes.now }
    requires here { walk.place < end }
    requires data { walk.data ≤ length bytes.now }
    requires room { length out.old.items ≤ size }
    requires size { size < 2 ^ 32 }
    ensures gives { Gives result out.new.items (the_step bytes.now end size (so_far walk out.old.items)) }
    ensures place { IfOk result (λ w. (walk.place < w.place) × (w.place ≤ end)) }
    ensures data { IfOk result (λ w. w.data ≤ length bytes.now) }
    ensures room { IfOk result (λ w. length out.new.items ≤ size) }
{
    let parsed = command_at(bytes, end, walk.place)?;
    let left = bytes.len() - walk.data;
    if let Some(error) = misfit(parsed.command, left, out.len(), size) {
        return Err(error);
    }
    let data = walk.data + needs(parsed.command) as usize;
    make(out, bytes, walk.data, parsed.command)?;
    Ok(Walk {
        place: parsed.after,
        data,
    })
}

// The commands of the main content.
#[tactic(auto, using(crate::proofs::Runs::contents_next, crate::proofs::Runs::contents_fails, crate::proofs::Runs::contents_here, crate::proofs::Runs::contents_ends))]
fn contents(
    bytes: &[u8],
    end: usize,
    size: usize,
    first: Walk,
    out: &mut Vec<u8>,
) -> Result<Walk, ProfileError>
    requires inside { end ≤ length bytes.now }
    requires here { first.place ≤ end }
    requires data { first.data ≤ length bytes.now }
    requires room { length out.old.items ≤ size }
    requires size { size < 2 ^ 32 }
    ensures gives { Gives result out.new.items
        (the_contents bytes.now end size (end - first.place) (so_far first out.old.items)) }
{
    let mut walk = first;
    for done in 0..end - first.place {
        if walk.place == end {
            return Ok(walk);
        }
        match step(bytes, end, size, walk, out) {
            Ok(next) => walk = next,
            Err(error) => return Err(error),
        }
    }
    Ok(walk)
}

// The profile, if all commands and data are used and it has its size.
fn finished(
    bytes: &[u8],
    end: usize,
    size: usize,
    walk: Walk,
    out: Vec<u8>,
) -> Result<Vec<u8>, ProfileError>
    ensures { MatchResult result (λ v. the_finished bytes.now end size (so_far walk out.items) ≡ Ok v.items)
        (λ e. the_finished bytes.now end size (so_far walk out.items) ≡ Err e) }
{
    if walk.place != end || walk.data != bytes.len() {
        return Err(ProfileError::UnusedBytes);
    }
    if out.len() != size {
        return Err(ProfileError::ShortOfSize);
    }
    Ok(out)
}

// The profile of this size, by commands from `start` up to `end`, and by the data from there on.
#[tactic(auto, unfolding(crate::specs::Profiles::body))]
fn body(
    alloc: Global,
    bytes: &[u8],
    start: usize,
    end: usize,
    size: u32,
) -> Result<Vec<u8>, ProfileError>
    requires here { start ≤ end }
    requires inside { end ≤ length bytes.now }
    ensures { MatchResult result (λ v. the_body bytes.now start end size ≡ Ok v.items)
        (λ e. UnlessMemory e (the_body bytes.now start end size ≡ Err e)) }
{
    let count = HEADER.min(size as usize);
    if bytes.len() - end < count {
        return Err(ProfileError::DataTruncated);
    }
    let mut out = Vec::new(alloc);
    decode_header(bytes, end, size, count, &mut out)?;
    let mut walk = Walk {
        place: start,
        data: end + count,
    };
    let size = size as usize;
    if size > HEADER {
        walk = list(bytes, end, size, walk, &mut out)?;
        walk = contents(bytes, end, size, walk, &mut out)?;
    }
    finished(bytes, end, size, walk, out)
}

/// The profile that these bytes encode, of at most `max` bytes, and of fewer than 2^32.
///
/// Takes memory for the profile alone, in proportion to what has been decoded of it; time in proportion to the encoded
/// bytes and to the profile.
///
/// # Errors
///
/// The first in this order: those of its size, `TooLong` if that is above `max`, those of the size of the commands;
/// `DataTruncated` in the header; those of the tag list and of each command in their order; `UnusedBytes`,
/// `ShortOfSize`. `OutOfMemory` at any time.
#[tactic(auto, unfolding(crate::specs::Profiles::icc_of))]
pub fn decode_profile(alloc: Global, encoded: &[u8], max: u64) -> Result<Vec<u8>, ProfileError>
    ensures ok { IfOk result (λ profile. icc_of max encoded.now ≡ Ok profile.items) }
    ensures err { IfErr result (λ e. UnlessMemory e (icc_of max encoded.now ≡ Err e)) }
{
    let size = number_at(encoded, encoded.len(), 0)?;
    if size.value > max || size.value >= 1 << 32 {
        return Err(ProfileError::TooLong);
    }
    let commands = number_at(encoded, encoded.len(), size.after)?;
    let start = commands.after;
    if commands.value > (encoded.len() - start) as u64 {
        return Err(ProfileError::Truncated);
    }
    let end = start + commands.value as usize;
    body(alloc, encoded, start, end, size.value as u32)
}
