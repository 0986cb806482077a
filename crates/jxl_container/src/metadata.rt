//! Exif and XMP data of a file.

ghost use Rattle.std.specs.Prelude.{◌≡◌, ◌≤◌, ◌+◌, List, [], Option, Some, None, length, nat_le, slice_range, true, if◌then◌else◌};
ghost use Rattle.std.specs.Option.{option_copied, option_map, option_or};
ghost use Rattle.jxl_container.specs.Files.{Follow, has_signature};
ghost use Rattle.jxl_container.specs.Metadata.{HasCompressedExif, HasCompressedXmp, HasDamagedExif, HasExif, HasXmp, exif_start, is_compressed as the_is_compressed};
ghost use Rattle.jxl_container.specs.Inner.Searches.{HasFirst, IsInside, is_sought as the_is_sought};
ghost use Rattle.jxl_container.specs.declared.boxes.FileBox.{FileBox};
ghost use Rattle.jxl_container.specs.declared.error.FileError.{FileError};
ghost use Rattle.jxl_container.specs.declared.metadata.Sought.TheVariants.{Exif as TheExif, Xmp as TheXmp};

use crate::boxes::{FileBox, word};
use crate::codestream::{SIGNATURE, next};
use crate::rules::COMPRESSED;
use crate::seen::Seen;

/// `Exif`: after an offset of four bytes, TIFF data.
const EXIF: u32 = 0x4578_6966;

/// `xml `: XMP data.
const XML: u32 = 0x786d_6c20;

/// The boxes that a search looks for.
#[derive(Clone, Copy)]
enum Sought {
    /// Exif data whose offset is within their box.
    Exif,
    /// Exif data whose offset is not.
    DamagedExif,
    /// XMP data.
    Xmp,
    /// Compressed boxes of this type.
    Compressed(u32),
}

// Whether the offset in an `Exif` box is within it.
fn has_header(file: &[u8], found: FileBox) -> bool
    requires within { found.end ≤ length file.now }
    requires ordered { found.body ≤ found.end }
    ensures { result ≡ nat_le (exif_start file.now found) found.end }
{
    let held = found.end - found.body;
    held >= 4 && word(file, found.body) as usize <= held - 4
}

// Whether it is a compressed box of this type.
fn is_compressed(file: &[u8], kind: u32, found: FileBox) -> bool
    requires within { found.end ≤ length file.now }
    requires ordered { found.body ≤ found.end }
    ensures { result ≡ the_is_compressed kind file.now found }
{
    found.kind == COMPRESSED && found.end - found.body >= 4 && word(file, found.body) == kind
}

// Whether a search looks for this box.
fn is_sought(file: &[u8], sought: Sought, found: FileBox) -> bool
    requires within { found.end ≤ length file.now }
    requires ordered { found.body ≤ found.end }
    ensures { result ≡ the_is_sought sought file.now found }
{
    match sought {
        Sought::Exif => found.kind == EXIF && has_header(file, found),
        Sought::DamagedExif => found.kind == EXIF && !has_header(file, found),
        Sought::Xmp => found.kind == XML,
        Sought::Compressed(kind) => is_compressed(file, kind, found),
    }
}

// The first box that is searched for, after those before this one had this first.
fn first_with(
    file: &[u8],
    sought: Sought,
    first: Option<FileBox>,
    found: FileBox,
) -> Option<FileBox>
    requires within { found.end ≤ length file.now }
    requires ordered { found.body ≤ found.end }
    ensures { result ≡ option_or first (if the_is_sought sought file.now found then Some found else None) }
{
    if first.is_some() {
        return first;
    }
    if is_sought(file, sought, found) {
        Some(found)
    } else {
        None
    }
}

// The first box that is searched for, of the boxes from the second on.
fn first_of_boxes(file: &[u8], sought: Sought) -> Option<FileBox>
    requires boxed { has_signature file.now ≡ true }
    requires long { 12 ≤ length file.now }
    ensures first { HasFirst sought file.now result }
    ensures inside { IsInside sought file.now result }
{
    let mut seen = Seen {
        first: true,
        whole: None,
        parts: 0,
        last: false,
    };
    let mut first = None;
    let mut place = 12;
    while place < file.len() {
        match next(file, seen, place) {
            Ok((found, more)) => {
                first = first_with(file, sought, first, found);
                seen = more;
                place = found.end;
            }
            Err(_) => return first,
        }
    }
    first
}

// The first box of a file that is searched for; none if the file is no boxes.
fn first_box(file: &[u8], sought: Sought) -> Option<FileBox>
    ensures first { HasFirst sought file.now result }
    ensures inside { IsInside sought file.now result }
{
    if !file.starts_with(&SIGNATURE) {
        return None;
    }
    first_of_boxes(file, sought)
}

// The Exif data of a box.
fn exif_of(file: &[u8], first: Option<FileBox>) -> Option<&[u8]>
    requires { IsInside TheExif file.now first }
    ensures { option_copied result
        ≡ option_map (λ b. slice_range file.now (exif_start file.now b) b.end) first }
{
    match first {
        Some(found) => {
            let header = found.body + 4 + word(file, found.body) as usize;
            Some(&file[header..found.end])
        }
        None => None,
    }
}

// The contents of a box.
fn contents_of(file: &[u8], first: Option<FileBox>) -> Option<&[u8]>
    requires { IsInside TheXmp file.now first }
    ensures { option_copied result ≡ option_map (λ b. slice_range file.now b.body b.end) first }
{
    match first {
        Some(found) => Some(&file[found.body..found.end]),
        None => None,
    }
}

/// The Exif data of a file, as bytes of the file: of its first `Exif` box the contents from the TIFF header on, whose
/// offset is the number of the first four bytes. A box whose offset is not within it is skipped. None if there is no
/// other before the first error of the boxes. A compressed one is not found.
pub fn find_exif(file: &[u8]) -> Option<&[u8]>
    ensures { HasExif file.now (option_copied result) }
{
    exif_of(file, first_box(file, Sought::Exif))
}

/// The XMP data of a file: the contents of its first `xml ` box, as bytes of the file. None if there is no such box before
/// the first error of the boxes. A compressed one is not found.
pub fn find_xmp(file: &[u8]) -> Option<&[u8]>
    ensures { HasXmp file.now (option_copied result) }
{
    contents_of(file, first_box(file, Sought::Xmp))
}

/// Whether a file has, before the first error of its boxes, an `Exif` box that [`find_exif`] skips: its offset is not
/// within it.
pub fn has_damaged_exif(file: &[u8]) -> bool
    ensures { HasDamagedExif file.now result }
{
    first_box(file, Sought::DamagedExif).is_some()
}

/// Whether a file has, before the first error of its boxes, Exif data in a box that is compressed by Brotli (`brob`).
pub fn has_compressed_exif(file: &[u8]) -> bool
    ensures { HasCompressedExif file.now result }
{
    first_box(file, Sought::Compressed(EXIF)).is_some()
}

/// Whether a file has, before the first error of its boxes, XMP data in a box that is compressed by Brotli (`brob`).
pub fn has_compressed_xmp(file: &[u8]) -> bool
    ensures { HasCompressedXmp file.now result }
{
    first_box(file, Sought::Compressed(XML)).is_some()
}
