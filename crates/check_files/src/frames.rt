//! Files, decoded to the pictures that they show, one by one.

use crate::pictures::tell;
use check_rows::repeated;
use jxl_animation::decode_frame;
use jxl_lossless::Limits;
use std::alloc::Global;

/// A row asks with the bytes of a file, with a star and a number after those that are repeated. It gives of each picture
/// that it shows what `decoded` gives with a #, with a comma between two pictures; and after the last one what the error
/// prints, if there is one.
pub fn seen(alloc: Global, asked: &str) -> Option<String> {
    let file = repeated(alloc, asked)?;
    let mut text = String::new(alloc);
    let mut before = "";
    for number in 0..u32::MAX {
        match decode_frame(alloc, &file, number, &Limits::usual()) {
            Ok(Some(picture)) => {
                write!(text, "{before}").ok()?;
                tell(alloc, &mut text, &picture, true)?;
            }
            Ok(None) => break,
            Err(error) => {
                write!(text, "{before}{error}").ok()?;
                break;
            }
        }
        before = ", ";
    }
    Some(text)
}
