//! The profile, the Exif data and the XMP data of files.

use crate::files::digits;
use check_rows::bytes;
use jxl_codestream::profile::read_profile;
use jxl_coding::decoder::EntropyDecoder;
use jxl_lossless::{JxlFile, Limits, Steps, decode_lossless};
use jxl_profile_write::profile::write_profile;
use jxlm_bit_writer::writer::BitWriter;
use jxlm_bits::bits::Bitstream;
use std::alloc::Global;

/// Adds the digits of bytes, if there are some, or `none`.
fn tell(text: &mut String, held: Option<&[u8]>) -> Option<()> {
    match held {
        Some(bytes) => digits(text, bytes),
        None => write!(text, "none").ok(),
    }
}

/// A row asks with the bytes of a file. It gives the profile of its picture, or `none`; or what the error prints.
pub fn seen(alloc: Global, asked: &str) -> Option<String> {
    let file = bytes(alloc, asked)?;
    let mut text = String::new(alloc);
    match decode_lossless(alloc, &file, &Limits::usual(), &mut Steps::new()) {
        Ok(picture) => match &picture.profile {
            Some(profile) => digits(&mut text, profile)?,
            None => write!(text, "none").ok()?,
        },
        Err(error) => write!(text, "{error}").ok()?,
    }
    Some(text)
}

/// A row asks with the bytes of a file. It gives its profile, its Exif data and its XMP data, each after its name, or
/// `none`; or after `error:` why the file is not read.
pub fn seen_of_metadata(alloc: Global, asked: &str) -> Option<String> {
    let file = bytes(alloc, asked)?;
    let mut text = String::new(alloc);
    match JxlFile::read(alloc, &file, &Limits::usual()) {
        Ok(read) => {
            write!(text, "profile ").ok()?;
            tell(&mut text, read.profile())?;
            write!(text, " exif ").ok()?;
            tell(&mut text, read.exif())?;
            write!(text, " xmp ").ok()?;
            tell(&mut text, read.xmp())?;
        }
        Err(error) => write!(text, "error: {error}").ok()?,
    }
    Some(text)
}

/// The profile that is read from the bits of the one that is written.
fn again(alloc: Global, icc: &[u8]) -> Option<Vec<u8>> {
    if icc.is_empty() || icc.len() >= 1 << 30 {
        return None;
    }
    let mut bits = BitWriter::new(alloc);
    write_profile(alloc, &mut bits, icc).ok()?;
    let written = bits.into_bytes().ok()?;
    let mut reader = Bitstream::new(&written);
    read_profile::<EntropyDecoder>(alloc, &mut reader, icc.len() as u64 + 16).ok()
}

/// A row asks with the bytes of a profile. It gives `same` if the profile that is read from the one that is written is
/// the same, and else the bytes of that.
pub fn seen_again(alloc: Global, asked: &str) -> Option<String> {
    let icc = bytes(alloc, asked)?;
    let read = again(alloc, &icc)?;
    let mut text = String::new(alloc);
    if read.as_slice() == icc.as_slice() {
        write!(text, "same").ok()?;
    } else {
        digits(&mut text, &read)?;
    }
    Some(text)
}
