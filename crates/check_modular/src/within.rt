//! Headers within headers.
//!
//! A row asks with, a bar between: the channels; the bytes of the image's header and tree; those of a header of the
//! global part's own; and those of a header within that part, with its samples, of 32 bits. It gives whether these are
//! whole, and after a bar the image's samples; or an error.

use check_images::{decode_by_header, read, samples};
use check_rows::{bytes, listed};
use jxl_modular::bits::Bitstream;
use jxl_modular::decoder::Decoder;
use jxl_modular::error::Error;
use jxl_modular::image::{ModularImageDestination, RecursiveModularImage};
use jxl_modular::plain::PlainDecoder;
use jxl_modular::{MaConfig, Sample};
use std::alloc::Global;

/// Within a part that is read by a header, another header is read, and its samples are decoded: whether they are whole
/// then.
fn decode_inner<S: Sample, D: Decoder>(
    alloc: Global,
    around: RecursiveModularImage<'_, S, D>,
    inner: &[u8],
    global: Option<&MaConfig<D>>,
) -> Result<bool, Error> {
    let mut bits = Bitstream::new(inner);
    let part = around.prepare_subimage(alloc)?;
    let within = part.recursive(alloc, &mut bits, global)?;
    decode_by_header(alloc, within, &mut bits, 1, false)
}

/// The same where the part is the global one.
fn decode_within<S: Sample, D: Decoder>(
    alloc: Global,
    image: &mut ModularImageDestination<S, D>,
    outer: &[u8],
    inner: &[u8],
    global: Option<&MaConfig<D>>,
) -> Result<bool, Error> {
    let mut bits = Bitstream::new(outer);
    let part = image.prepare_gmodular(alloc)?;
    let around = part.recursive(alloc, &mut bits, global)?;
    decode_inner(alloc, around, inner, global)
}

fn decoded_within<S: Sample, D: Decoder>(
    alloc: Global,
    image: &mut ModularImageDestination<S, D>,
    outer: &[u8],
    inner: &[u8],
    global: Option<&MaConfig<D>>,
) -> Option<String> {
    match decode_within(alloc, image, outer, inner, global) {
        Ok(whole) => {
            let samples = listed(alloc, &samples(alloc, image).ok()?, false).ok()?;
            format!(in alloc; "{whole}|{samples}").ok()
        }
        Err(error) => format!(in alloc; "{error}").ok(),
    }
}

fn seen_by<D: Decoder>(alloc: Global, asked: &str, global: Option<&MaConfig<D>>) -> Option<String> {
    let (channels_text, rest) = asked.split_once('|')?;
    let (header, rest) = rest.split_once('|')?;
    let (outer, inner) = rest.split_once('|')?;
    let (header, outer, inner) = (
        bytes(alloc, header)?,
        bytes(alloc, outer)?,
        bytes(alloc, inner)?,
    );
    let mut modular = read::<i32, D>(
        alloc,
        &mut Bitstream::new(&header),
        (256, 8),
        channels_text,
    )?.ok()?;
    decoded_within(alloc, modular.image_mut()?, &outer, &inner, global)
}

/// What comes of a row.
pub fn seen(alloc: Global, asked: &str) -> Option<String> {
    seen_by::<PlainDecoder>(alloc, asked, None)
}
