//! Boxes: where they stand in a file.

ghost use Rattle.std.specs.Prelude.{◌≡◌, ◌+◌, ◌<◌, ◌≤◌, ◌^◌, length, IfOk};
ghost use Rattle.std.specs.Option.{option_map_or};
ghost use Rattle.jxl_container.specs.Boxes.{word_at, box_from, first_of, outside};
ghost use Rattle.jxl_container.specs.Inner.Walks.{sized_box, long_box, box_by_size};

use crate::error::FileError;

/// A box: its type, and which bytes of the file its contents are.
#[derive(Clone, Copy, Debug, PartialEq, Eq)]
pub struct FileBox {
    /// The number of the four bytes of its type, the first the most significant.
    pub kind: u32,
    /// Where its contents begin: how many bytes of the file are before them.
    pub body: usize,
    /// Where it ends, and its contents with it.
    pub end: usize,
}

/// The number of the four bytes from `start` on, the first the most significant.
#[tactic(auto, unfolding(crate::specs::Boxes::word_at))]
pub fn word(bytes: &[u8], start: usize) -> u32
    requires { start + 4 ≤ length bytes.now }
    ensures { result ≡ word_at bytes.now start }
{
    let high = u32::from(bytes[start]) * 256 + u32::from(bytes[start + 1]);
    let low = u32::from(bytes[start + 2]) * 256 + u32::from(bytes[start + 3]);
    high * 65536 + low
}

// The box from `start` on whose size is this, and whose contents begin at `body`.
#[tactic(auto, unfolding(crate::specs::Inner::Walks::sized_box))]
fn sized(file: &[u8], start: usize, kind: u32, body: usize, size: u64) -> Result<FileBox, FileError>
    requires here { start ≤ body }
    requires within { body ≤ length file.now }
    ensures gives { result ≡ sized_box file.now start kind body size }
    ensures whole { IfOk result (λ b. (b.body ≡ body) × (body ≤ b.end) × (b.end ≤ length file.now)) }
{
    let header = body - start;
    if size < header as u64 {
        return Err(FileError::BoxTooSmall);
    }
    let left = file.len() - start;
    if size > left as u64 {
        return Err(FileError::TruncatedBox);
    }
    let end = start + size as usize;
    Ok(FileBox { kind, body, end })
}

// The box from `start` on whose size stands in eight bytes after its type.
#[tactic(auto, unfolding(crate::specs::Inner::Walks::long_box))]
fn long(file: &[u8], start: usize, kind: u32) -> Result<FileBox, FileError>
    requires { start ≤ length file.now }
    ensures gives { result ≡ long_box file.now start kind }
    ensures whole { IfOk result (λ b. (start + 8 ≤ b.body) × (b.body ≤ b.end) × (b.end ≤ length file.now)) }
{
    if file.len() - start < 16 {
        return Err(FileError::TruncatedBox);
    }
    let size = u64::from(word(file, start + 8)) * 4294967296 + u64::from(word(file, start + 12));
    sized(file, start, kind, start + 16, size)
}

/// The box that stands from `start` on: four bytes of its size, four of its type, its contents. A size of 0 reaches to
/// the end of the file; one of 1 stands for that in the eight bytes after the type.
///
/// # Errors
///
/// `TruncatedBox` if the file ends before the header or the box does; `BoxTooSmall` if its size is below its header's.
pub fn box_at(file: &[u8], start: usize) -> Result<FileBox, FileError>
    requires { start ≤ length file.now }
    ensures gives { let b = box_from file.now start in
        result ≡ option_map_or Err (first_of (outside file.now b)) (Ok b) }
    ensures whole { IfOk result (λ b. (start + 8 ≤ b.body) × (b.body ≤ b.end) × (b.end ≤ length file.now)) }
{
    by_size(file, start)
}

// The same, case by case.
#[tactic(auto, unfolding(crate::specs::Inner::Walks::box_by_size))]
fn by_size(file: &[u8], start: usize) -> Result<FileBox, FileError>
    requires { start ≤ length file.now }
    ensures gives { result ≡ box_by_size file.now start }
    ensures whole { IfOk result (λ b. (start + 8 ≤ b.body) × (b.body ≤ b.end) × (b.end ≤ length file.now)) }
{
    if file.len() - start < 8 {
        return Err(FileError::TruncatedBox);
    }
    let size = word(file, start);
    let kind = word(file, start + 4);
    let body = start + 8;
    if size == 0 {
        let end = file.len();
        return Ok(FileBox { kind, body, end });
    }
    if size == 1 {
        return long(file, start, kind);
    }
    sized(file, start, kind, body, u64::from(size))
}
