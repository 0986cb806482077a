//! Files, and the codestreams that lie in them.

use check_rows::bytes;
use jxl_container::codestream::{Codestream, Found, find_codestream};
use std::alloc::Global;

/// Adds the digits of bytes, two for each.
pub fn digits(text: &mut String, bytes: &[u8]) -> Option<()> {
    for byte in bytes {
        write!(text, "{byte:02x}").ok()?;
    }
    Some(())
}

/// Adds where the codestream lies, `slice` or `joined`, and its bytes; and after them the name of the error of the boxes
/// after it, if they have one.
fn tell_found(text: &mut String, found: &Found<'_>) -> Option<()> {
    match &found.codestream {
        Codestream::Slice(_) => write!(text, "slice ").ok()?,
        Codestream::Joined(_) => write!(text, "joined ").ok()?,
    }
    digits(text, found.codestream.bytes())?;
    match found.later_error {
        Some(error) => write!(text, " then {error:?}").ok(),
        None => Some(()),
    }
}

/// Adds where the codestream lies, or the name of the error.
fn tell(alloc: Global, text: &mut String, file: &[u8]) -> Option<()> {
    match find_codestream(alloc, file) {
        Ok(found) => tell_found(text, &found),
        Err(error) => write!(text, "{error:?}").ok(),
    }
}

/// A row asks with the bytes of a file. It gives where its codestream lies, and its bytes, and after `then` the name of the
/// error of the boxes after it, if they have one; or the name of the error.
pub fn seen(alloc: Global, asked: &str) -> Option<String> {
    let file = bytes(alloc, asked)?;
    let mut text = String::new(alloc);
    tell(alloc, &mut text, &file)?;
    Some(text)
}

/// A row asks with the bytes of a file. It gives what each of its beginnings gives, from none on, with commas between.
pub fn seen_of_cuts(alloc: Global, asked: &str) -> Option<String> {
    let file = bytes(alloc, asked)?;
    let mut text = String::new(alloc);
    for n in 0..file.len() {
        tell(alloc, &mut text, &file[..n])?;
        write!(text, ", ").ok()?;
    }
    Some(text)
}
