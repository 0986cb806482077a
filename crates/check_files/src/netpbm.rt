//! Netpbm files, read as pictures: `netpbm BYTES -> HEADER | SAMPLES | ..`, or what the error prints. The header is that of
//! the picture, field by field as of an image header, and after each bar are the samples of a channel, row by row.

use check_headers::images::tell_image;
use check_rows::{bytes, listed};
use jxl_netpbm_read::picture::read_netpbm;
use jxl_picture::picture::Picture;
use std::alloc::Global;

/// Adds the header of a picture and the samples of its channels.
fn tell(alloc: Global, text: &mut String, picture: &Picture) -> Option<()> {
    tell_image(text, &picture.header)?;
    for channel in picture.channels.iter() {
        let samples = listed(alloc, channel.buf(), false).ok()?;
        write!(text, " | {samples}").ok()?;
    }
    Some(())
}

/// The picture of the file that a row asks for; none if it has a profile, or channels that are not all of its header's.
pub fn seen(alloc: Global, asked: &str) -> Option<String> {
    let file = bytes(alloc, asked)?;
    let mut text = String::new(alloc);
    match read_netpbm(alloc, &file) {
        Ok(picture) => {
            if picture.profile.is_some() || !picture.is_whole() {
                return None;
            }
            tell(alloc, &mut text, &picture)?;
        }
        Err(error) => write!(text, "{error}").ok()?,
    }
    Some(text)
}
