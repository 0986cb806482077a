//! Which boxes may follow those before them.

ghost use Rattle.std.specs.Prelude.{◌≡◌, ◌≤◌, ◌<◌, ◌+◌, ◌^◌, MatchResult, IfOk, IfSome, Some, None, length};
ghost use Rattle.jxl_container.specs.Files.{is_whole, is_part, is_last};
ghost use Rattle.jxl_container.specs.Inner.Walks.{with_box, first_fault as the_first_fault, part_fault as the_part_fault, compressed_fault as the_compressed_fault, later_fault as the_later_fault, fault_by_kind};
ghost use Rattle.jxl_container.specs.declared.boxes.FileBox.{FileBox};

use crate::boxes::{FileBox, word};
use crate::error::FileError;
use crate::seen::Seen;

/// `ftyp`, which comes after the signature and names the kind of file.
const FILE_TYPE: u32 = 0x6674_7970;
/// The brand of JPEG XL files: `jxl `.
const BRAND: u32 = 0x6a78_6c20;
/// `jxlc`: a codestream.
const WHOLE: u32 = 0x6a78_6c63;
/// `jxlp`: a part of a codestream.
const PART: u32 = 0x6a78_6c70;
/// `brob`: a compressed box.
pub const COMPRESSED: u32 = 0x6272_6f62;
/// `jbrd`: what rebuilds a JPEG file.
const JPEG: u32 = 0x6a62_7264;
/// What is added to the number of the last part.
const LAST: u32 = 0x8000_0000;

/// Whether the box has a whole codestream.
fn whole(found: FileBox) -> bool
    ensures { result ≡ is_whole found }
{
    found.kind == WHOLE
}

/// Whether the box has a part of a codestream.
pub fn part(found: FileBox) -> bool
    ensures { result ≡ is_part found }
{
    found.kind == PART
}

// Whether the box is the last part.
fn last(file: &[u8], found: FileBox) -> bool
    requires within { found.end ≤ length file.now }
    requires room { found.kind ≡ 0x6A786C70 → found.body + 4 ≤ found.end }
    ensures { result ≡ is_last file.now found }
{
    found.kind == PART && word(file, found.body) >= LAST
}

fn first_fault(file: &[u8], found: FileBox) -> Option<FileError>
    requires within { found.end ≤ length file.now }
    requires ordered { found.body ≤ found.end }
    ensures gives { result ≡ the_first_fault file.now found }
    ensures kind { result ≡ None → found.kind ≡ 0x66747970 }
{
    let fits = found.kind == FILE_TYPE
        && found.end - found.body >= 4
        && word(file, found.body) == BRAND;
    if fits {
        None
    } else {
        Some(FileError::FileType)
    }
}

fn part_fault(file: &[u8], seen: Seen, found: FileBox) -> Option<FileError>
    requires within { found.end ≤ length file.now }
    requires ordered { found.body ≤ found.end }
    ensures gives { result ≡ the_part_fault file.now seen found }
    ensures few { result ≡ None → seen.parts < 2 ^ 31 }
    ensures room { result ≡ None → found.body + 4 ≤ found.end }
{
    if seen.whole.is_some() {
        return Some(FileError::SecondCodestream);
    }
    if found.end - found.body < 4 {
        return Some(FileError::BoxTooSmall);
    }
    if seen.last {
        return Some(FileError::PartAfterLast);
    }
    if word(file, found.body) % LAST == seen.parts {
        None
    } else {
        Some(FileError::PartOutOfOrder)
    }
}

fn compressed_fault(file: &[u8], found: FileBox) -> Option<FileError>
    requires within { found.end ≤ length file.now }
    requires ordered { found.body ≤ found.end }
    ensures { result ≡ the_compressed_fault file.now found }
{
    if found.end - found.body < 4 {
        return Some(FileError::BoxTooSmall);
    }
    let kind = word(file, found.body);
    if kind == WHOLE || kind == PART {
        Some(FileError::CompressedCodestream)
    } else {
        None
    }
}

fn later_fault(file: &[u8], seen: Seen, found: FileBox) -> Option<FileError>
    requires within { found.end ≤ length file.now }
    requires ordered { found.body ≤ found.end }
    ensures gives { result ≡ the_later_fault file.now seen found }
    ensures few { result ≡ None → found.kind ≡ 0x6A786C70 → seen.parts < 2 ^ 31 }
    ensures room { result ≡ None → found.kind ≡ 0x6A786C70 → found.body + 4 ≤ found.end }
{
    if found.kind == WHOLE {
        return if seen.whole.is_some() || seen.parts != 0 {
            Some(FileError::SecondCodestream)
        } else {
            None
        };
    }
    if found.kind == PART {
        return part_fault(file, seen, found);
    }
    if found.kind == COMPRESSED {
        return compressed_fault(file, found);
    }
    if found.kind == JPEG {
        return Some(FileError::JpegReconstruction);
    }
    if found.kind == FILE_TYPE {
        return Some(FileError::FileType);
    }
    None
}

#[tactic(auto, unfolding(crate::specs::Inner::Walks::fault_by_kind))]
fn fault(file: &[u8], seen: Seen, found: FileBox) -> Option<FileError>
    requires within { found.end ≤ length file.now }
    requires ordered { found.body ≤ found.end }
    ensures gives { result ≡ fault_by_kind file.now seen found }
    ensures few { result ≡ None → found.kind ≡ 0x6A786C70 → seen.parts < 2 ^ 31 }
    ensures room { result ≡ None → found.kind ≡ 0x6A786C70 → found.body + 4 ≤ found.end }
{
    if seen.first {
        first_fault(file, found)
    } else {
        later_fault(file, seen, found)
    }
}

/// What there is with one more box, or why it is not allowed there.
pub fn with(file: &[u8], seen: Seen, found: FileBox) -> Result<Seen, FileError>
    requires within { found.end ≤ length file.now }
    requires ordered { found.body ≤ found.end }
    requires whole { IfSome seen.whole (λ b. (b.body ≤ b.end) × (b.end ≤ length file.now)) }
    ensures gives { MatchResult result
        (λ s. (fault_by_kind file.now seen found ≡ None) × (s ≡ with_box file.now seen found))
        (λ e. fault_by_kind file.now seen found ≡ Some e) }
    ensures whole { IfOk result (λ s. IfSome s.whole (λ b. (b.body ≤ b.end) × (b.end ≤ length file.now))) }
    ensures room { IfOk result (λ s. found.kind ≡ 0x6A786C70 → found.body + 4 ≤ found.end) }
{
    if let Some(error) = fault(file, seen, found) {
        return Err(error);
    }
    let this = if whole(found) { Some(found) } else { None };
    let parts = if part(found) {
        seen.parts + 1
    } else {
        seen.parts
    };
    Ok(Seen {
        first: false,
        whole: seen.whole.or(this),
        parts,
        last: seen.last || last(file, found),
    })
}
