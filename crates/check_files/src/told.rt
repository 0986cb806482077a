//! What the headers of files tell.

use check_rows::bytes;
use jxl_coding::decoder::EntropyDecoder;
use jxl_info::headers::{Headers, HeadersError, is_boxed};
use jxl_info::text::info_text;
use jxl_lossless::Limits;
use std::alloc::Global;

/// Adds the lines that tell what a file is, each with a bar after it; and after `then` what the error of the boxes after its
/// codestream prints, if they have one.
fn tell(alloc: Global, text: &mut String, file: &[u8], headers: &Headers) -> Option<()> {
    let info = info_text(alloc, is_boxed(file), &headers.image, headers.reason).ok()?;
    for line in info.as_str().lines() {
        write!(text, "{line}|").ok()?;
    }
    if let Some(error) = headers.later_error {
        write!(text, " then {error}").ok()?;
    }
    Some(())
}

/// A row asks with the bytes of a file. It gives the lines that tell what it is, each with a bar after it, and after `then`
/// what the error of the boxes after its codestream prints, if they have one; or what the error prints.
pub fn seen(alloc: Global, asked: &str) -> Option<String> {
    let file = bytes(alloc, asked)?;
    let mut text = String::new(alloc);
    match Headers::read::<EntropyDecoder>(alloc, &file, &Limits::usual()) {
        Ok(headers) => tell(alloc, &mut text, &file, &headers)?,
        Err(HeadersError::File(error)) => write!(text, "{error}").ok()?,
        Err(HeadersError::Front(error)) => write!(text, "{error}").ok()?,
    }
    Some(text)
}
