//! The codestream of a file.

ghost use Rattle.std.specs.Prelude.{◌≡◌, ◌≤◌, ◌+◌, ◌++◌, ℕ, List, Ok, Err, Option, Some, None, length, IfErr, IfOk, IfSome};
ghost use Rattle.jxl_container.specs.Boxes.{box_from};
ghost use Rattle.jxl_container.specs.Files.{HasCodestream, HasLaterError, UnlessMemory, fault, stream_of};
ghost use Rattle.jxl_container.specs.Inner.Walks.{Boxed, Finishes, contents_of, part_of, seen_in, with_box};
ghost use Rattle.jxl_container.specs.declared.boxes.FileBox.{FileBox};

use crate::boxes::{FileBox, box_at};
use crate::error::FileError;
use crate::rules::{part, with};
use crate::seen::Seen;
use std::alloc::Global;

/// The bytes of a codestream.
#[derive(Drop)]
pub enum Codestream<'a> {
    /// They are bytes of the file one after another.
    Slice(&'a [u8]),
    /// They were joined from the parts that the file has.
    Joined(Vec<u8>),
}

impl Codestream<'_> {
    /// The bytes.
    pub fn bytes(&self) -> &[u8]
        ensures { result.now ≡ stream_of self.now }
    {
        match self {
            Codestream::Slice(bytes) => bytes,
            Codestream::Joined(bytes) => bytes,
        }
    }
}

/// The codestream of a file, and the error of the boxes after it.
#[derive(Drop)]
pub struct Found<'a> {
    /// The codestream.
    pub codestream: Codestream<'a>,
    /// The first error of the boxes after the codestream, if there is one. The boxes after that error are not read.
    pub later_error: Option<FileError>,
}

/// The first box of each file in boxes.
pub(crate) const SIGNATURE: [u8; 12] = [0, 0, 0, 12, 74, 88, 76, 32, 13, 10, 135, 10];

// Adds the bytes of a part, where the box is one.
fn append(joined: &mut Vec<u8>, file: &[u8], found: FileBox) -> Result<(), FileError>
    requires within { found.end ≤ length file.now }
    requires room { found.kind ≡ 0x6A786C70 → found.body + 4 ≤ found.end }
    ensures ok { IfOk result (λ u. joined.new.items ≡ joined.old.items ++ part_of file.now found) }
    ensures err { IfErr result (λ e. e ≡ FileError.OutOfMemory) }
{
    if part(found) {
        let bytes = &file[found.body + 4..found.end];
        if joined.extend_from_slice(bytes).is_err() {
            return Err(FileError::OutOfMemory);
        }
    }
    Ok(())
}

// The box that stands next, and what there is with it; or why it may not stand there.
pub(crate) fn next(file: &[u8], seen: Seen, place: usize) -> Result<(FileBox, Seen), FileError>
    requires within { place ≤ length file.now }
    requires whole { IfSome seen.whole (λ b. (b.body ≤ b.end) × (b.end ≤ length file.now)) }
    ensures stands { IfOk result (λ n. n.0 ≡ box_from file.now place) }
    ensures inside { IfOk result (λ n. (place + 8 ≤ n.0.end) × (n.0.end ≤ length file.now)) }
    ensures contents { IfOk result (λ n. n.0.body ≤ n.0.end) }
    ensures room { IfOk result (λ n. n.0.kind ≡ 0x6A786C70 → n.0.body + 4 ≤ n.0.end) }
    ensures fits { IfOk result (λ n. (boxes : List FileBox) → seen ≡ seen_in file.now boxes
        → fault file.now boxes n.0 ≡ None) }
    ensures seen { IfOk result (λ n. n.1 ≡ with_box file.now seen n.0) }
    ensures whole { IfOk result (λ n. IfSome n.1.whole (λ b. (b.body ≤ b.end) × (b.end ≤ length file.now))) }
    ensures err { IfErr result (λ e. (boxes : List FileBox) → seen ≡ seen_in file.now boxes
        → fault file.now boxes (box_from file.now place) ≡ Some e) }
{
    let found = box_at(file, place)?;
    let seen = with(file, seen, found)?;
    Ok((found, seen))
}

// The codestream of all boxes, by what they have and the joined parts, after which comes this error.
#[tactic(auto, unfolding(crate::specs::Inner::Walks::contents_of))]
fn finish(
    file: &[u8],
    seen: Seen,
    joined: Vec<u8>,
    error: Option<FileError>,
) -> Result<Found<'_>, FileError>
    requires whole { IfSome seen.whole (λ b. (b.body ≤ b.end) × (b.end ≤ length file.now)) }
    ensures { Finishes (contents_of file.now seen joined.items error) error result }
{
    let codestream = if let Some(whole) = seen.whole {
        Codestream::Slice(&file[whole.body..whole.end])
    } else if seen.last {
        Codestream::Joined(joined)
    } else if let Some(error) = error {
        return Err(error);
    } else if seen.parts == 0 {
        return Err(FileError::NoCodestream);
    } else {
        return Err(FileError::NoLastPart);
    };
    Ok(Found {
        codestream,
        later_error: error,
    })
}

// The codestream of a file in boxes, from the second box on.
fn boxed(alloc: Global, file: &[u8]) -> Result<Found<'_>, FileError>
    requires { 12 ≤ length file.now }
    ensures ok { IfOk result (λ found. Boxed file.now found.later_error (Ok (stream_of found.codestream))) }
    ensures err { IfErr result (λ e. UnlessMemory e
        ((error : Option FileError) × Boxed file.now error (Err e))) }
{
    let mut seen = Seen {
        first: true,
        whole: None,
        parts: 0,
        last: false,
    };
    let mut joined = Vec::new(alloc);
    let mut place = 12;
    while place < file.len() {
        match next(file, seen, place) {
            Ok((found, more)) => {
                append(&mut joined, file, found)?;
                seen = more;
                place = found.end;
            }
            Err(error) => return finish(file, seen, joined, Some(error)),
        }
    }
    finish(file, seen, joined, None)
}

/// The codestream of a file: the file itself, where it begins as a codestream; else the contents of its boxes. The
/// codestream itself is not looked at.
///
/// After the signature come boxes up to the end of the file: `ftyp` with the brand `jxl `; among the others `jxlc`
/// once, whose contents are the codestream, or parts of it, each a `jxlp` with its number from 0 on, the last of
/// them marked, whose contents after their numbers are joined. Other boxes are skipped. Memory is taken for
/// the joined parts alone.
///
/// # Errors
///
/// The first in the order of the boxes: `TruncatedBox` or `BoxTooSmall` where none stands; `FileType` where the first
/// is no `ftyp` of this brand, or a later one is; `SecondCodestream`, `PartAfterLast`, `PartOutOfOrder`;
/// `JpegReconstruction` at `jbrd`, `CompressedCodestream` at a `brob` that stands for a codestream. At the end of the
/// file `NoLastPart`, or `NoCodestream`. `NotJpegXl` if the file begins in neither way; `OutOfMemory`. After the
/// `jxlc`, or the last `jxlp`, the first error comes with the codestream: it is [`Found::later_error`].
pub fn find_codestream(alloc: Global, file: &[u8]) -> Result<Found<'_>, FileError>
    ensures ok { IfOk result (λ found. HasCodestream file.now (Ok (stream_of found.codestream))) }
    ensures later { IfOk result (λ found. HasLaterError file.now found.later_error) }
    ensures err { IfErr result (λ e. UnlessMemory e (HasCodestream file.now (Err e))) }
{
    if file.starts_with(&[255, 10]) {
        return Ok(Found {
            codestream: Codestream::Slice(file),
            later_error: None,
        });
    }
    if !file.starts_with(&SIGNATURE) {
        return Err(FileError::NotJpegXl);
    }
    boxed(alloc, file)
}
