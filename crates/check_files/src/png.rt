//! PNG files, read as pictures: `png BYTES -> HEADER | SAMPLES | ..`, or what the error prints. The header is that of the
//! picture, and `icc`, `exif` and `xmp` follow it, each with its bytes, if present. After each bar are the samples of a channel.

use check_headers::images::tell_image;
use check_rows::{bytes, listed};
use jxl_picture::limits::Limits;
use jxl_png_read::file::{PngImage, read_png};
use std::alloc::Global;

/// Adds bytes under a name, if present.
fn tell_bytes(text: &mut String, name: &str, held: &Option<Vec<u8>>) -> Option<()> {
    if let Some(held) = held {
        write!(text, " {name} ").ok()?;
        for byte in held.iter() {
            write!(text, "{byte:02x}").ok()?;
        }
    }
    Some(())
}

/// Adds the header of a picture, what its file has beside it, and the samples of its channels.
fn tell(alloc: Global, text: &mut String, image: &PngImage) -> Option<()> {
    tell_image(text, &image.picture.header)?;
    tell_bytes(text, "icc", &image.picture.profile)?;
    tell_bytes(text, "exif", &image.exif)?;
    tell_bytes(text, "xmp", &image.xmp)?;
    for channel in image.picture.channels.iter() {
        let samples = listed(alloc, channel.buf(), false).ok()?;
        write!(text, " | {samples}").ok()?;
    }
    Some(())
}

/// The picture of the file that a row asks for; none if it has channels that are not all of its header's.
pub fn seen(alloc: Global, asked: &str) -> Option<String> {
    let file = bytes(alloc, asked)?;
    let mut text = String::new(alloc);
    match read_png(alloc, &file, &Limits::usual()) {
        Ok(image) => {
            if !image.picture.is_whole() {
                return None;
            }
            tell(alloc, &mut text, &image)?;
        }
        Err(error) => write!(text, "{error}").ok()?,
    }
    Some(text)
}
