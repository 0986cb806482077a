//! The tag list of a profile as commands. The caller decodes what is made, so no clause says what it means.

ghost use Rattle.std.specs.Prelude.{◌≡◌, ◌+◌, ◌*◌, ◌≤◌, ◌<◌, ◌^◌, IfOk, length};

use crate::header::residuals;
use crate::numbers::{MORE, push_number};
use crate::stream::joined;
use std::alloc::{AllocError, Global};

/// How many bytes an entry of the list has.
const ENTRY: usize = 12;

/// Where the contents of a tag begin, and how many bytes they have.
#[derive(Clone, Copy)]
struct Extent {
    start: u32,
    size: u32,
}

/// The code of a command, and how many bytes of the list it makes.
#[derive(Clone, Copy)]
struct Command {
    code: u8,
    makes: usize,
}

/// The commands of a list, and their data: the names that have no code.
#[derive(Drop)]
struct Tags {
    commands: Vec<u8>,
    names: Vec<u8>,
}

/// The number of the four bytes from `at` on.
fn word(bytes: &[u8], at: usize) -> u32
    requires { at + 4 ≤ length bytes.now }
{
    u32::from_be_bytes([bytes[at], bytes[at + 1], bytes[at + 2], bytes[at + 3]])
}

/// The extent of the entry from `at` on.
fn extent_at(entries: &[u8], at: usize) -> Extent
    requires { at + 12 ≤ length entries.now }
{
    Extent {
        start: word(entries, at + 4),
        size: word(entries, at + 8),
    }
}

/// Whether the entry from `at` on has this name, this size, and contents that begin there.
fn is_entry(entries: &[u8], at: usize, name: &[u8], start: u64, size: u32) -> bool
    requires { at + 12 ≤ length entries.now }
{
    let extent = extent_at(entries, at);
    &entries[at..at + 4] == name && u64::from(extent.start) == start && extent.size == size
}

/// Whether three entries are those of the curves of red, green and blue, of the same contents.
fn are_curves(entries: &[u8]) -> bool {
    if entries.len() < 36 {
        return false;
    }
    let first = extent_at(entries, 0);
    let start = u64::from(first.start);
    is_entry(entries, 0, b"rTRC", start, first.size)
        && is_entry(entries, 12, b"gTRC", start, first.size)
        && is_entry(entries, 24, b"bTRC", start, first.size)
}

/// Whether three entries are those of red, green and blue, whose contents follow one another.
fn are_colours(entries: &[u8]) -> bool {
    if entries.len() < 36 {
        return false;
    }
    let first = extent_at(entries, 0);
    let start = u64::from(first.start);
    let size = u64::from(first.size);
    is_entry(entries, 0, b"rXYZ", start, first.size)
        && is_entry(entries, 12, b"gXYZ", start + size, first.size)
        && is_entry(entries, 24, b"bXYZ", start + 2 * size, first.size)
}

/// The code of a name, which is 1 if it has none.
fn code_of(name: &[u8]) -> u8
    ensures { result ≤ 20 }
{
    match name {
        b"cprt" => 4,
        b"wtpt" => 5,
        b"bkpt" => 6,
        b"rXYZ" => 7,
        b"gXYZ" => 8,
        b"bXYZ" => 9,
        b"kXYZ" => 10,
        b"rTRC" => 11,
        b"gTRC" => 12,
        b"bTRC" => 13,
        b"kTRC" => 14,
        b"chad" => 15,
        b"desc" => 16,
        b"chrm" => 17,
        b"dmnd" => 18,
        b"dmdd" => 19,
        b"lumi" => 20,
        _ => 1,
    }
}

/// The command of the first of these entries.
fn command_for(entries: &[u8]) -> Command
    requires { 12 ≤ length entries.now }
    ensures code { result.code ≤ 20 }
    ensures makes { result.makes ≤ length entries.now }
{
    if entries.len() >= 36 && are_curves(entries) {
        return Command { code: 2, makes: 36 };
    }
    if entries.len() >= 36 && are_colours(entries) {
        return Command { code: 3, makes: 36 };
    }
    Command {
        code: code_of(&entries[..4]),
        makes: ENTRY,
    }
}

/// This bit of a command, or 0.
fn bit_if(set: bool, bit: u8) -> u8
    ensures { result ≤ bit }
{
    if set { bit } else { 0 }
}

/// Adds a command, with its numbers where they are not those that are predicted.
fn push_command(
    commands: &mut Vec<u8>,
    code: u8,
    extent: Extent,
    before: Extent,
) -> Result<(), AllocError>
    requires { code ≤ 20 }
{
    let usual = match code {
        3 | 5..=10 | 20 => 20,
        _ => before.size,
    };
    let moved = u64::from(extent.start) != u64::from(before.start) + u64::from(before.size);
    let sized = extent.size != usual;
    commands.push(code + bit_if(moved, 64) + bit_if(sized, 128))?;
    if moved {
        push_number(commands, extent.start, MORE)?;
    }
    if sized {
        push_number(commands, extent.size, MORE)?;
    }
    Ok(())
}

/// Adds the first of these entries; returns how many bytes of the list its command makes.
fn push_entry(tags: &mut Tags, entries: &[u8], before: Extent) -> Result<usize, AllocError>
    requires { 12 ≤ length entries.now }
    ensures { IfOk result (λ n. n ≤ length entries.now) }
{
    let command = command_for(entries);
    push_command(
        &mut tags.commands,
        command.code,
        extent_at(entries, 0),
        before,
    )?;
    if command.code == 1 {
        tags.names.extend_from_slice(&entries[..4])?;
    }
    Ok(command.makes)
}

/// The commands of these entries, of which there are `count`.
fn tags_for(alloc: Global, entries: &[u8], count: u32) -> Result<Tags, AllocError>
    requires { 132 + 12 * count < 2 ^ 32 }
{
    let mut tags = Tags {
        commands: Vec::new(alloc),
        names: Vec::new(alloc),
    };
    push_number(&mut tags.commands, count + 1, MORE)?;
    let mut before = Extent {
        start: 128 + 12 * count,
        size: 0,
    };
    let mut rest = entries;
    for _ in 0..count {
        if rest.len() < ENTRY {
            break;
        }
        let made = push_entry(&mut tags, rest, before)?;
        before = extent_at(rest, 0);
        rest = &rest[made..];
    }
    Ok(tags)
}

/// Adds the end of the tag list, and this number of literal bytes.
fn push_literal(commands: &mut Vec<u8>, count: u32) -> Result<(), AllocError> {
    if count > 0 {
        commands.push(0)?;
        commands.push(1)?;
        push_number(commands, count, MORE)?;
    }
    Ok(())
}

/// A stream of this profile with a tag list; none if the profile has no such list.
pub fn encode_tags(alloc: Global, icc: &[u8]) -> Result<Option<Vec<u8>>, AllocError>
    requires { length icc.now < 2 ^ 32 }
{
    if icc.len() < 132 {
        return Ok(None);
    }
    let count = word(icc, 128) as usize;
    if count > (icc.len() - 132) / ENTRY {
        return Ok(None);
    }
    let end = 132 + ENTRY * count;
    let mut tags = tags_for(alloc, &icc[132..end], count as u32)?;
    push_literal(&mut tags.commands, (icc.len() - end) as u32)?;
    if tags.commands.len() >= 1 << 32 {
        return Ok(None);
    }
    tags.names.extend_from_slice(&icc[end..])?;
    let header = residuals(alloc, icc)?;
    let encoded = joined(
        alloc,
        icc.len() as u32,
        &tags.commands,
        &header,
        &tags.names,
    )?;
    Ok(Some(encoded))
}
