//! The tag list.

ghost use Rattle.std.specs.Prelude.{◌≡◌, ◌<◌, ◌≤◌, ◌+◌, ◌++◌, ◌-◌, ◌*◌, ◌^◌, ◌%◌, false, length, slice_index, MatchResult, IfOk};
ghost use Rattle.jxl_icc.specs.Tags.{extent_at as the_extent, is_large, entry as the_entry, entries as the_entries, is_short, known, name as the_name};
ghost use Rattle.jxl_icc.specs.Profiles.{list as the_list, tag as the_tag, tags as the_tags};
ghost use Rattle.jxl_icc.specs.Inner.States.{Gives, GivesTag, listed, so_far};

use crate::error::ProfileError;
use crate::numbers::{number_at, number_or, word};
use crate::pieces::append;
use crate::walk::Walk;

/// The positions of the commands and of the data, and the tag before.
#[derive(Clone, Copy)]
pub struct Tags {
    /// How many bytes of the stream are before the next command.
    pub place: usize,
    /// How many bytes of the stream are before the next byte of the data.
    pub data: usize,
    /// Where the contents of the tag before begin in the profile.
    pub start: u64,
    /// How many bytes they have.
    pub size: u64,
}

/// Where the contents of a tag are in the profile, and the position after its command.
#[derive(Clone, Copy)]
pub struct Extent {
    /// Where they begin.
    pub start: u64,
    /// How many bytes they have.
    pub size: u64,
    /// How many bytes of the stream are before what follows the command.
    pub after: usize,
}

// The name of a tag that has a code.
fn known_name(code: u8) -> &'static [u8]
    requires some { 1 < code }
    requires small { code ≤ 20 }
    ensures is { result.now ≡ known code }
    ensures four { length result.now ≡ 4 }
{
    let number = match code {
        2 => 7,
        3 => 3,
        _ => code as usize - 4,
    };
    let names: &'static [u8] =
        b"cprtwtptbkptrXYZgXYZbXYZkXYZrTRCgTRCbTRCkTRCchaddescchrmdmnddmddlumi";
    &names[4 * number..4 * number + 4]
}

// The name of a tag, which for code 1 is the next bytes of the data.
fn name(bytes: &[u8], from: usize, code: u8) -> &[u8]
    requires some { 0 < code }
    requires known { code ≤ 20 }
    requires room { code ≡ 1 → from + 4 ≤ length bytes.now }
    ensures is { result.now ≡ the_name bytes.now from code }
    ensures four { length result.now ≡ 4 }
{
    if code == 1 {
        &bytes[from..from + 4]
    } else {
        known_name(code)
    }
}

// Whether the contents of a tag of this name have 20 bytes unless its command says more.
fn short(name: &[u8]) -> bool
    ensures { result ≡ is_short name.now }
{
    name.starts_with(b"rXYZ")
        || name.starts_with(b"gXYZ")
        || name.starts_with(b"bXYZ")
        || name.starts_with(b"kXYZ")
        || name.starts_with(b"wtpt")
        || name.starts_with(b"bkpt")
        || name.starts_with(b"lumi")
}

// Where the contents of a tag are, by its command at `place`, or by these values.
#[tactic(auto, unfolding(crate::specs::Tags::extent_at))]
fn extent_at(
    bytes: &[u8],
    end: usize,
    place: usize,
    start: u64,
    size: u64,
) -> Result<Extent, ProfileError>
    requires inside { end ≤ length bytes.now }
    requires here { place < end }
    requires start { start < 2 ^ 63 }
    requires size { size < 2 ^ 63 }
    ensures gives { result ≡ the_extent bytes.now end place start size }
    ensures after { IfOk result (λ e. (place < e.after) × (e.after ≤ end)) }
    ensures small { IfOk result (λ e. (e.start < 2 ^ 63) × (e.size < 2 ^ 63)) }
{
    let head = bytes[place];
    let first = number_or(bytes, end, head / 64 % 2 == 1, start, place + 1)?;
    let second = number_or(bytes, end, head >= 128, size, first.after)?;
    Ok(Extent {
        start: first.value,
        size: second.value,
        after: second.after,
    })
}

// Adds an entry.
fn entry(out: &mut Vec<u8>, name: &[u8], start: u64, size: u64) -> Result<(), ProfileError>
    requires start { start < 2 ^ 32 }
    requires size { size < 2 ^ 32 }
    ensures { MatchResult result (λ _. out.new.items ≡ out.old.items ++ the_entry name.now start size)
        (λ e. e ≡ ProfileError.OutOfMemory) }
{
    append(out, name)?;
    append(out, &word(start as u32))?;
    append(out, &word(size as u32))
}

// Adds the entries of a command.
fn entries(
    out: &mut Vec<u8>,
    code: u8,
    name: &[u8],
    start: u64,
    size: u64,
) -> Result<(), ProfileError>
    requires start { start < 2 ^ 32 }
    requires size { size < 2 ^ 32 }
    requires last { code ≡ 3 → start + 2 * size < 2 ^ 32 }
    ensures { MatchResult result (λ _. out.new.items ≡ the_entries out.old.items code name.now start size)
        (λ e. e ≡ ProfileError.OutOfMemory) }
{
    entry(out, name, start, size)?;
    if code == 2 {
        entry(out, b"gTRC", start, size)?;
        entry(out, b"bTRC", start, size)?;
    }
    if code == 3 {
        entry(out, b"gXYZ", start + size, size)?;
        entry(out, b"bXYZ", start + 2 * size, size)?;
    }
    Ok(())
}

// Whether a number that the command of this code writes is not below 2^32.
fn too_large(code: u8, extent: Extent) -> bool
    requires start { extent.start < 2 ^ 63 }
    requires size { extent.size < 2 ^ 63 }
    ensures is { result ≡ is_large code extent }
    ensures start { result ≡ false → extent.start < 2 ^ 32 }
    ensures size { result ≡ false → extent.size < 2 ^ 32 }
    ensures last { result ≡ false → code ≡ 3 → extent.start + 2 * extent.size < 2 ^ 32 }
{
    if extent.size >= 1 << 32 {
        return true;
    }
    if code == 3 {
        extent.start + 2 * extent.size >= 1 << 32
    } else {
        extent.start >= 1 << 32
    }
}

// One tag.
#[tactic(auto, unfolding(crate::specs::Profiles::tag))]
fn tag(
    bytes: &[u8],
    end: usize,
    size: usize,
    before: Tags,
    out: &mut Vec<u8>,
) -> Result<Tags, ProfileError>
    requires inside { end ≤ length bytes.now }
    requires here { before.place < end }
    requires code { 0 < slice_index bytes.now before.place % 64 }
    requires data { before.data ≤ length bytes.now }
    requires room { length out.old.items ≤ size }
    requires start { before.start < 2 ^ 60 }
    requires size { before.size < 2 ^ 32 }
    ensures gives { GivesTag result out.new.items (the_tag bytes.now end size (listed before out.old.items)) }
    ensures place { IfOk result (λ t. (before.place < t.place) × (t.place ≤ end)) }
    ensures data { IfOk result (λ t. t.data ≤ length bytes.now) }
    ensures room { IfOk result (λ t. length out.new.items ≤ size) }
    ensures start { IfOk result (λ t. t.start < 2 ^ 60) }
    ensures size { IfOk result (λ t. t.size < 2 ^ 32) }
{
    let code = bytes[before.place] % 64;
    if code > 20 {
        return Err(ProfileError::UnknownTag);
    }
    let taken = if code == 1 { 4 } else { 0 };
    if bytes.len() - before.data < taken {
        return Err(ProfileError::DataTruncated);
    }
    let named = name(bytes, before.data, code);
    let length = if short(named) { 20 } else { before.size };
    let extent = extent_at(bytes, end, before.place, before.start + before.size, length)?;
    if too_large(code, extent) {
        return Err(ProfileError::TagTooLarge);
    }
    let more = if code == 2 || code == 3 { 36 } else { 12 };
    if more > size - out.len() {
        return Err(ProfileError::PastSize);
    }
    entries(out, code, named, extent.start, extent.size)?;
    Ok(Tags {
        place: extent.after,
        data: before.data + taken,
        start: extent.start,
        size: extent.size,
    })
}

// The tags after their number, up to a command 0 or the end of the commands.
#[tactic(auto, using(crate::proofs::Runs::tags_next, crate::proofs::Runs::tags_fails, crate::proofs::Runs::tags_here, crate::proofs::Runs::tags_closed, crate::proofs::Runs::tags_ends))]
fn several(
    bytes: &[u8],
    end: usize,
    size: usize,
    first: Tags,
    out: &mut Vec<u8>,
) -> Result<Walk, ProfileError>
    requires inside { end ≤ length bytes.now }
    requires here { first.place ≤ end }
    requires data { first.data ≤ length bytes.now }
    requires room { length out.old.items ≤ size }
    requires start { first.start < 2 ^ 60 }
    requires size { first.size < 2 ^ 32 }
    ensures gives { Gives result out.new.items
        (the_tags bytes.now end size (end - first.place) (listed first out.old.items)) }
    ensures place { IfOk result (λ w. w.place ≤ end) }
    ensures data { IfOk result (λ w. w.data ≤ length bytes.now) }
    ensures room { IfOk result (λ w. length out.new.items ≤ size) }
{
    let mut before = first;
    for done in 0..end - first.place {
        if before.place == end {
            return Ok(Walk {
                place: end,
                data: before.data,
            });
        }
        if bytes[before.place] % 64 == 0 {
            return Ok(Walk {
                place: before.place + 1,
                data: before.data,
            });
        }
        match tag(bytes, end, size, before, out) {
            Ok(next) => before = next,
            Err(error) => return Err(error),
        }
    }
    Ok(Walk {
        place: before.place,
        data: before.data,
    })
}

/// Adds the tag list to a profile of this size, by the commands and data from these positions on; and the positions
/// after it.
#[tactic(auto, unfolding(crate::specs::Profiles::list))]
pub fn list(
    bytes: &[u8],
    end: usize,
    size: usize,
    walk: Walk,
    out: &mut Vec<u8>,
) -> Result<Walk, ProfileError>
    requires inside { end ≤ length bytes.now }
    requires data { walk.data ≤ length bytes.now }
    requires room { length out.old.items ≤ size }
    ensures gives { Gives result out.new.items (the_list bytes.now end size (so_far walk out.old.items)) }
    ensures place { IfOk result (λ w. w.place ≤ end) }
    ensures data { IfOk result (λ w. w.data ≤ length bytes.now) }
    ensures room { IfOk result (λ w. length out.new.items ≤ size) }
{
    let count = number_at(bytes, end, walk.place)?;
    let place = count.after;
    if count.value == 0 {
        return Ok(Walk {
            place,
            data: walk.data,
        });
    }
    let last = count.value - 1;
    if last >= 1 << 32 {
        return Err(ProfileError::TagTooLarge);
    }
    if size - out.len() < 4 {
        return Err(ProfileError::PastSize);
    }
    append(out, &word(last as u32))?;
    let first = Tags {
        place,
        data: walk.data,
        start: 128 + 12 * last,
        size: 0,
    };
    several(bytes, end, size, first, out)
}
