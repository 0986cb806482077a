//! Pictures, and their text in the formats in which they are written.

ghost use Rattle.std.specs.Prelude.{IsTrue};
ghost use Rattle.jxl_image_header.specs.Images.{image_of};
ghost use Rattle.jxl_netpbm.specs.Formats.{suits};
ghost use Rattle.jxl_picture.specs.Pictures.{IsWhole};

use crate::files::digits;
use crate::streams::SmallWriter;
use check_rows::{bytes, number, signed, word};
use jxl_image_header::image::ImageHeader;
use jxl_image_header::size::Size;
use jxl_netpbm::format::Format;
use jxl_netpbm::output::WriteError;
use jxl_picture::picture::{Picture, colours};
use jxlm_base::grid::AlignedGrid;
use jxlm_bits::bits::Bitstream;
use std::alloc::Global;

fn format(name: &str) -> Option<Format> {
    match name {
        "pgm" => Some(Format::Pgm),
        "ppm" => Some(Format::Ppm),
        "pam" => Some(Format::Pam),
        "pfm" => Some(Format::Pfm),
        "text" => Some(Format::Text),
        _ => None,
    }
}

/// A grid of these samples, row by row; none where there are too few.
fn grid(alloc: Global, width: usize, height: usize, samples: &[i32]) -> Option<AlignedGrid<i32>> {
    let mut grid = AlignedGrid::new(alloc, width, height).ok()?;
    let mut next = samples.iter();
    for y in 0..height {
        if y >= grid.height() {
            return None;
        }
        for cell in grid.get_row_mut(y) {
            *cell = *next.next()?;
        }
    }
    Some(grid)
}

/// Adds a channel of this shift to those of a picture of this size, with the first of these samples; the others are
/// left.
fn push_channel<'a>(
    alloc: Global,
    channels: &mut Vec<AlignedGrid<i32>>,
    size: Size,
    shift: u32,
    samples: &'a [i32],
) -> Option<&'a [i32]> {
    if shift > 3 {
        return None;
    }
    let width = (size.width as usize).div_ceil(1 << shift);
    let height = (size.height as usize).div_ceil(1 << shift);
    let area = width.checked_mul(height)?;
    if area > samples.len() {
        return None;
    }
    let (own, rest) = samples.split_at(area);
    channels.push(grid(alloc, width, height, own)?).ok()?;
    Some(rest)
}

/// The channels of a picture of this header, with these samples, channel by channel; none where they are not as many.
fn channels(alloc: Global, header: &ImageHeader, samples: &[i32]) -> Option<Vec<AlignedGrid<i32>>> {
    let mut channels = Vec::new(alloc);
    let mut rest = samples;
    for _ in 0..colours(header) {
        rest = push_channel(alloc, &mut channels, header.size, 0, rest)?;
    }
    for channel in header.ec_info.iter() {
        rest = push_channel(alloc, &mut channels, header.size, channel.dim_shift, rest)?;
    }
    if rest.is_empty() {
        Some(channels)
    } else {
        None
    }
}

/// The picture of a header, with these samples, channel by channel.
fn picture(alloc: Global, header: &[u8], samples: &[i32]) -> Option<Picture> {
    let mut bits = Bitstream::new(header);
    let header = ImageHeader::parse(alloc, &mut bits).ok()?;
    let channels = channels(alloc, &header, samples)?;
    Some(Picture {
        header,
        channels,
        profile: None,
    })
}

/// A format, and a picture to be written in it.
#[derive(Drop)]
struct Asked {
    format: Format,
    picture: Picture,
}

impl Asked {
    /// What a row asks: the format, the bytes of an image header, and after a bar the samples, channel by channel.
    fn parse(alloc: Global, asked: &str) -> Option<Asked> {
        let (name, rest) = word(asked);
        let format = format(name)?;
        let (header, samples) = rest.split_once(" | ")?;
        let header = bytes(alloc, header)?;
        let samples = signed(alloc, samples)?;
        let picture = picture(alloc, &header, &samples)?;
        if picture.is_whole() {
            Some(Asked { format, picture })
        } else {
            None
        }
    }

    /// Whether it can be written.
    fn is_writable(&self) -> bool
        ensures whole { IsTrue result → IsWhole (image_of self.now.picture.header) self.now.picture.channels.items }
        ensures suits { IsTrue result → IsTrue (suits self.now.format (image_of self.now.picture.header)) }
    {
        self.picture.is_whole() && self.format.suits(&self.picture.header)
    }
}

/// A row asks with a format, the bytes of an image header, and after a bar the samples, channel by channel. It gives the
/// bytes of the text of that picture, or `unsuited`, and before it the format in which it is written by default.
pub fn seen(alloc: Global, asked: &str) -> Option<String> {
    let asked = Asked::parse(alloc, asked)?;
    let mut text = String::new(alloc);
    match Format::usual(&asked.picture.header) {
        Some(usual) => write!(text, "{usual:?} ").ok()?,
        None => write!(text, "none ").ok()?,
    }
    if !asked.is_writable() {
        write!(text, "unsuited").ok()?;
        return Some(text);
    }
    let mut bytes = Vec::new(alloc);
    asked.format.write(alloc, &asked.picture, &mut bytes).ok()?;
    digits(&mut text, &bytes)?;
    Some(text)
}

/// A row asks the same, and before it with a number of bytes that the writer takes, one in each call. It gives `all` or
/// `failed`, and the bytes that were taken.
pub fn seen_of_small_writer(alloc: Global, asked: &str) -> Option<String> {
    let (room, asked) = word(asked);
    let asked = Asked::parse(alloc, asked)?;
    if !asked.is_writable() {
        return None;
    }
    let mut output = SmallWriter {
        taken: Vec::new(alloc),
        room: number(room)? as usize,
        flushes: true,
    };
    let ended = match asked.format.write(alloc, &asked.picture, &mut output) {
        Ok(()) => "all",
        Err(WriteError::Writer(_)) => "failed",
        Err(WriteError::OutOfMemory) => return None,
    };
    let mut text = String::new(alloc);
    write!(text, "{ended} ").ok()?;
    digits(&mut text, &output.taken)?;
    Some(text)
}
