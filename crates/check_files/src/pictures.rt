//! Files, decoded to pictures.

use crate::example::maximum_of_grey;
use check_rows::{bytes, listed, number, repeated};
use jxl_image_header::size::Size;
use jxl_lossless::{JxlFile, Limits, Progress, Steps, decode_lossless, decode_lossless_with};
use jxl_picture::picture::Picture;
use jxlm_base::grid::AlignedGrid;
use std::alloc::Global;

/// Adds the sides of a channel, where they are not those of its picture.
fn tell_sides(text: &mut String, size: Size, channel: &AlignedGrid<i32>) -> Option<()> {
    let (width, height) = (channel.width(), channel.height());
    if width != size.width as usize || height != size.height as usize {
        write!(text, " {width}x{height}").ok()?;
    }
    Some(())
}

/// Adds the sides and the depth of a picture, and after bars the samples of each channel, or their checksum; before them
/// the sides of a channel that has others.
pub fn tell(alloc: Global, text: &mut String, picture: &Picture, summed: bool) -> Option<()> {
    let size = picture.header.size;
    let bits = picture.header.bit_depth.bits_per_sample;
    write!(text, "{}x{} {bits}", size.width, size.height).ok()?;
    for channel in picture.channels.iter() {
        let samples = listed(alloc, channel.buf(), summed).ok()?;
        write!(text, " |").ok()?;
        tell_sides(text, size, channel)?;
        write!(text, " {samples}").ok()?;
    }
    Some(())
}

/// A row asks with the bytes of a file, with a star and a number after those that are repeated, and before them a # where
/// checksums are asked for. It gives the sides and the depth of its picture, and after bars the samples of each channel,
/// row by row, or their checksum, with the sides of a channel that has others than the picture; or what the error prints.
pub fn seen(alloc: Global, asked: &str) -> Option<String> {
    seen_within(alloc, asked, &Limits::usual())
}

/// What `decoded` gives, within these limits.
fn seen_within(alloc: Global, asked: &str, limits: &Limits) -> Option<String> {
    let (digits, summed) = match asked.strip_prefix("# ") {
        Some(digits) => (digits, true),
        None => (asked, false),
    };
    let file = repeated(alloc, digits)?;
    let mut text = String::new(alloc);
    match decode_lossless(alloc, &file, limits, &mut Steps::new()) {
        Ok(picture) => tell(alloc, &mut text, &picture, summed)?,
        Err(error) => write!(text, "{error}").ok()?,
    }
    Some(text)
}

/// A row asks with the bytes of a file. It gives what the error of the boxes after its codestream prints, or `none`; or
/// after `error:` why the file is not read.
pub fn seen_of_later_error(alloc: Global, asked: &str) -> Option<String> {
    let file = bytes(alloc, asked)?;
    match JxlFile::read(alloc, &file, &Limits::usual()) {
        Ok(read) => match read.later_error() {
            Some(error) => format!(in alloc; "{error}").ok(),
            None => format!(in alloc; "none").ok(),
        },
        Err(error) => format!(in alloc; "error: {error}").ok(),
    }
}

/// A row asks with the maximum number of decisions for a sample and, after a bar, what `decoded` asks with. It gives what
/// `decoded` gives.
pub fn seen_of_decisions(alloc: Global, asked: &str) -> Option<String> {
    let (most, asked) = asked.split_once(" | ")?;
    let mut limits = Limits::usual();
    limits.decisions = number(most)?;
    seen_within(alloc, asked, &limits)
}

/// A row asks with the maximum number of codewords of sections' own codes and, after a bar, what `decoded` asks with. It
/// gives what `decoded` gives.
pub fn seen_of_codewords(alloc: Global, asked: &str) -> Option<String> {
    let (most, asked) = asked.split_once(" | ")?;
    let mut limits = Limits::usual();
    limits.codewords = u64::from(number(most)?);
    seen_within(alloc, asked, &limits)
}

/// A row asks with the bytes of a file. It gives how many beginnings it has that are not the whole, and how many of them
/// have a picture.
pub fn seen_of_beginnings(alloc: Global, asked: &str) -> Option<String> {
    let file = bytes(alloc, asked)?;
    let mut decoded = 0u32;
    for n in 0..file.len() {
        let mut steps = Steps::new();
        if decode_lossless(alloc, &file[..n], &Limits::usual(), &mut steps).is_ok() {
            decoded = decoded.saturating_add(1);
        }
    }
    let mut text = String::new(alloc);
    write!(text, "{decoded} of {}", file.len()).ok()?;
    Some(text)
}

/// For how many sections a `Progress` was called, and of how many the last of them was one.
#[derive(Drop)]
struct Told {
    sections: u64,
    of: usize,
}

impl Progress for Told {
    fn section_decoded(&mut self, count: usize) {
        self.sections = self.sections.saturating_add(1);
        self.of = count;
    }
}

/// A row asks with the bytes of a file. It gives how many sections of its frames a `Progress` was called for while it
/// was decoded, and how many sections with samples the last of these frames has.
pub fn seen_of_sections(alloc: Global, asked: &str) -> Option<String> {
    let file = bytes(alloc, asked)?;
    let mut told = Told { sections: 0, of: 0 };
    let mut steps = Steps::new();
    let limits = Limits::usual();
    let _ = decode_lossless_with(alloc, &file, &limits, &mut steps, &mut told);
    format!(in alloc; "{} of {}", told.sections, told.of).ok()
}

/// A row asks with the bytes of a file. It gives the maximum sample of its picture, or `none` where that is not grey; or
/// what the error prints.
pub fn seen_of_maximum(alloc: Global, asked: &str) -> Option<String> {
    let file = bytes(alloc, asked)?;
    match maximum_of_grey(alloc, &file) {
        Ok(Some(maximum)) => format!(in alloc; "{maximum}").ok(),
        Ok(None) => format!(in alloc; "none").ok(),
        Err(error) => format!(in alloc; "{error}").ok(),
    }
}
