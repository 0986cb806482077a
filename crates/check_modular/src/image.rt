//! Images as they are read: their headers, their channels before the first sample, and their global parts.

use check_images::{read, samples};
use check_rows::{listed, number, repeated, word};
use jxl_modular::bits::Bitstream;
use jxl_modular::decoder::Decoder;
use jxl_modular::error::Error;
use jxl_modular::image::ModularImageDestination;
use jxl_modular::plain::PlainDecoder;
use jxl_modular::{Modular, Sample};
use std::alloc::Global;

/// A row of a header asks with the channels, and after a bar the bytes. It gives the error, or that there is none, and
/// where the row expects it the reader's position.
pub fn seen_of_header(alloc: Global, asked: &str, placed: bool) -> Option<String> {
    let (channels_text, digits) = asked.split_once('|')?;
    let bytes = repeated(alloc, digits)?;
    let mut bits = Bitstream::new(&bytes);
    let mut text = match read::<i32, PlainDecoder>(alloc, &mut bits, (256, 8), channels_text)? {
        Ok(_) => format!(in alloc; "read").ok()?,
        Err(error) => format!(in alloc; "{error}").ok()?,
    };
    if placed {
        write!(text, " @{}", bits.position()).ok()?;
    }
    Some(text)
}

/// The sides of each channel, and all samples, with a bar between.
fn contents<S: Sample, D: Decoder>(
    alloc: Global,
    image: &ModularImageDestination<S, D>,
) -> Option<String> {
    let mut text = String::new(alloc);
    for grid in image.image_channels() {
        write!(text, "{}x{} ", grid.width(), grid.height()).ok()?;
    }
    let samples = listed(alloc, &samples(alloc, image).ok()?, false).ok()?;
    write!(text, "| {samples}").ok()?;
    Some(text)
}

fn none_text(alloc: Global) -> Option<String> {
    format!(in alloc; "none").ok()
}

/// The contents of an image, or `none` where there is none.
fn contents_if_any<S: Sample, D: Decoder>(
    alloc: Global,
    image: Option<&ModularImageDestination<S, D>>,
) -> Option<String> {
    match image {
        Some(image) => contents(alloc, image),
        None => none_text(alloc),
    }
}

/// What an image has that is lent, that is lent to be written, and that is taken out: the same each time.
fn seen_each_way<S: Sample, D: Decoder>(
    alloc: Global,
    mut modular: Modular<S, D>,
) -> Option<String> {
    let shared = contents_if_any(alloc, modular.image())?;
    let lent = match modular.image_mut() {
        Some(image) => contents(alloc, image)?,
        None => none_text(alloc)?,
    };
    let taken = contents_if_any(alloc, modular.into_image().as_ref())?;
    if lent.as_str() == shared.as_str() && taken.as_str() == shared.as_str() {
        Some(shared)
    } else {
        format!(in alloc; "{shared} but {lent} and {taken}").ok()
    }
}

fn seen_image_at<S: Sample, D: Decoder>(alloc: Global, asked: &str) -> Option<String> {
    let (channels_text, digits) = asked.split_once('|')?;
    let bytes = repeated(alloc, digits)?;
    let mut bits = Bitstream::new(&bytes);
    match read::<S, D>(alloc, &mut bits, (256, 8), channels_text)? {
        Ok(modular) => {
            let text = seen_each_way(alloc, modular)?;
            format!(in alloc; "{text} @{}", bits.position()).ok()
        }
        Err(error) => format!(in alloc; "{error}").ok(),
    }
}

/// A row of an image asks with the type of samples, the channels, and after a bar the bytes. It gives the sides of each
/// channel, after a bar the samples before any is decoded, and the reader's position; `none`, where there is no image;
/// or an error.
pub fn seen_of_image(alloc: Global, asked: &str) -> Option<String> {
    let (kind, rest) = word(asked);
    match kind {
        "i16" => seen_image_at::<i16, PlainDecoder>(alloc, rest),
        "i32" => seen_image_at::<i32, PlainDecoder>(alloc, rest),
        _ => None,
    }
}

/// Of the global part of an image, which is decoded: whether it is empty, whether it was partial before and is after,
/// and whether it holds all channels.
fn decode_global_part<S: Sample, D: Decoder>(
    alloc: Global,
    bits: &mut Bitstream<'_>,
    image: &mut ModularImageDestination<S, D>,
) -> Result<[bool; 4], Error> {
    let mut part = image.prepare_gmodular(alloc)?;
    let before = part.is_partial();
    part.decode(alloc, bits, 0, false)?;
    Ok([part.is_empty(), before, part.is_partial(), part.holds_all()])
}

fn global_part<D: Decoder>(
    alloc: Global,
    bits: &mut Bitstream<'_>,
    channels_text: &str,
    group_dim: u32,
) -> Option<[bool; 4]> {
    let mut modular = read::<i32, D>(alloc, bits, (group_dim, 8), channels_text)?.ok()?;
    decode_global_part(alloc, bits, modular.image_mut()?).ok()
}

/// A row of a global part of 32 bits asks with the channels, the side of a group and the bytes, with a bar between. It
/// gives whether the part is empty, whether it was partial before it was decoded and is after, whether it holds all
/// channels, and the reader's position.
pub fn seen_of_global_part(alloc: Global, asked: &str) -> Option<String> {
    let (channels_text, rest) = asked.split_once('|')?;
    let (group_dim, digits) = rest.split_once('|')?;
    let bytes = repeated(alloc, digits)?;
    let mut bits = Bitstream::new(&bytes);
    let [empty, before, after, holds_all] = global_part::<PlainDecoder>(
        alloc,
        &mut bits,
        channels_text,
        number(group_dim)?,
    )?;
    let position = bits.position();
    format!(in alloc; "{empty} {before} {after} {holds_all} @{position}").ok()
}
