//! Headers that are read, and written again.

use crate::frames::{first_frame, tell_frame};
use crate::images::tell_image;
use check_rows::bytes;
use jxl_frame_header::frame::FrameHeader;
use jxl_frame_header_write::frame::{is_writable as is_writable_frame, write_frame_header};
use jxl_image_header::image::ImageHeader;
use jxl_image_header_write::image::write_image_header;
use jxl_image_header_write::writable::is_writable;
use jxlm_bit_writer::writer::BitWriter;
use jxlm_bits::bits::Bitstream;
use std::alloc::Global;

/// Bytes as two digits each.
fn digits(alloc: Global, bytes: &[u8]) -> Option<String> {
    let mut text = String::new(alloc);
    for byte in bytes {
        write!(text, "{byte:02x}").ok()?;
    }
    Some(text)
}

/// The bytes of an image header that is written; none if the writer does not spell it.
fn written_image(alloc: Global, image: &ImageHeader) -> Option<Vec<u8>> {
    if !is_writable(image) {
        return None;
    }
    let mut bits = BitWriter::new(alloc);
    write_image_header(&mut bits, image).ok()?;
    bits.into_bytes().ok()
}

/// The bytes of the header of a frame that is written; none if the writer does not spell it.
fn written_frame(alloc: Global, image: &ImageHeader, frame: &FrameHeader) -> Option<Vec<u8>> {
    if !is_writable_frame(image, frame) {
        return None;
    }
    let mut bits = BitWriter::new(alloc);
    write_frame_header(&mut bits, image, frame).ok()?;
    bits.into_bytes().ok()
}

/// A row asks with the bytes of a codestream. It gives the bytes of its image header as they are written, with zeros up
/// to a byte, or a dash if the writer does not spell it.
pub fn seen_of_image(alloc: Global, asked: &str) -> Option<String> {
    let bytes = bytes(alloc, asked)?;
    let mut bits = Bitstream::new(&bytes);
    let image = ImageHeader::parse(alloc, &mut bits).ok()?;
    match written_image(alloc, &image) {
        Some(written) => digits(alloc, &written),
        None => format!(in alloc; "-").ok(),
    }
}

/// A row asks with the bytes of a codestream. It gives the image header that is read from the one that is written, field
/// by field, or a dash if the writer does not spell it.
pub fn seen_of_image_again(alloc: Global, asked: &str) -> Option<String> {
    let bytes = bytes(alloc, asked)?;
    let mut bits = Bitstream::new(&bytes);
    let image = ImageHeader::parse(alloc, &mut bits).ok()?;
    let Some(written) = written_image(alloc, &image) else {
        return format!(in alloc; "-").ok();
    };
    let mut again = Bitstream::new(&written);
    let read = ImageHeader::parse(alloc, &mut again).ok()?;
    let mut text = String::new(alloc);
    tell_image(&mut text, &read)?;
    Some(text)
}

/// A row asks with the bytes of a codestream. It gives the bytes of the header of its first frame as they are written,
/// with zeros up to a byte, or a dash if the writer does not spell it.
pub fn seen_of_frame(alloc: Global, asked: &str) -> Option<String> {
    let bytes = bytes(alloc, asked)?;
    if bytes.len() >= 1 << 32 {
        return None;
    }
    let mut bits = Bitstream::new(&bytes);
    let image = ImageHeader::parse(alloc, &mut bits).ok()?;
    let frame = first_frame(alloc, &mut bits, &image).ok()?;
    match written_frame(alloc, &image, &frame) {
        Some(written) => digits(alloc, &written),
        None => format!(in alloc; "-").ok(),
    }
}

/// A row asks with the bytes of a codestream. It gives the header of the first frame that is read from the one that is
/// written, field by field, or a dash if the writer does not spell it.
pub fn seen_of_frame_again(alloc: Global, asked: &str) -> Option<String> {
    let bytes = bytes(alloc, asked)?;
    if bytes.len() >= 1 << 32 {
        return None;
    }
    let mut bits = Bitstream::new(&bytes);
    let image = ImageHeader::parse(alloc, &mut bits).ok()?;
    let frame = first_frame(alloc, &mut bits, &image).ok()?;
    let Some(written) = written_frame(alloc, &image, &frame) else {
        return format!(in alloc; "-").ok();
    };
    let mut again = Bitstream::new(&written);
    let read = FrameHeader::parse(alloc, &mut again, &image).ok()?;
    let mut text = String::new(alloc);
    tell_frame(&mut text, &image, &read)?;
    Some(text)
}
