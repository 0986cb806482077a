//! Pictures in one part.
//!
//! A row asks with the type of samples and, with a bar between: the channels; the bit depth; and the bytes. It gives the
//! samples and the reader's position, an error, or both, where the samples end by it. The picture is read call by call,
//! with an early end refused and allowed, and by one call: all three have to agree.

ghost use Rattle.std.specs.Prelude.{◌≡◌, None, IfSome};

use crate::channel_words::channels;
use crate::image_samples::samples;
use check_rows::{listed, number, repeated, text_sum, word};
use jxl_modular::bits::Bitstream;
use jxl_modular::decoder::Decoder;
use jxl_modular::error::Error;
use jxl_modular::flat::Steps;
use jxl_modular::image::ModularImageDestination;
use jxl_modular::{Modular, ModularChannelParams, ModularParams, Sample, decode_picture};
use std::alloc::Global;

/// What becomes of a picture: the error, if there is one; the samples; the reader's position; and whether the part was
/// returned as whole.
#[derive(Drop)]
struct Outcome {
    error: Option<Error>,
    samples: Vec<i32>,
    position: u64,
    whole: bool,
}

/// A picture as a row has it.
#[derive(Drop)]
struct Picture {
    channels: Vec<ModularChannelParams>,
    depth: u32,
    bytes: Vec<u8>,
}

/// The picture of a text: its channels, its bit depth and its bytes, with a bar between.
fn read_picture(alloc: Global, text: &str) -> Option<Picture> {
    let (channels_text, rest) = text.split_once('|')?;
    let (depth, digits) = rest.split_once('|')?;
    Some(Picture {
        channels: channels(alloc, channels_text)?,
        depth: number(depth)?,
        bytes: repeated(alloc, digits)?,
    })
}

/// The parameters of a picture; none where they are not valid.
fn params<'a, D: Decoder>(alloc: Global, picture: &Picture) -> Option<ModularParams<'a, D>>
    ensures { IfSome result (λ p. p.ma_config ≡ None) }
{
    let channels = Vec::from_slice(alloc, &picture.channels).ok()?;
    Some(ModularParams::with_channels(256, picture.depth, channels, None))
}

/// No samples: for want of channels, or by an error.
fn nothing(alloc: Global, error: Option<Error>, position: u64) -> Outcome {
    Outcome {
        error,
        samples: Vec::new(alloc),
        position,
        whole: error.is_none(),
    }
}

/// Decodes all of an image and finishes it: the error, if there was one, and whether it was returned as whole.
fn finished<S: Sample, D: Decoder>(
    alloc: Global,
    bits: &mut Bitstream<'_>,
    image: &mut ModularImageDestination<S, D>,
    allow_partial: bool,
) -> Option<(Option<Error>, bool)> {
    let mut part = image.prepare_subimage(alloc).ok()?;
    if part.is_partial() == part.is_empty() {
        return None;
    }
    let error = part.decode(alloc, bits, 0, allow_partial).err();
    let partial = part.is_partial();
    if !part.holds_all() {
        return None;
    }
    let whole = part.finish(alloc).ok()?;
    if whole == partial {
        return None;
    }
    Some((error, whole))
}

/// Decodes and finishes an image whose header was read.
fn read_image<S: Sample, D: Decoder>(
    alloc: Global,
    bits: &mut Bitstream<'_>,
    image: &mut ModularImageDestination<S, D>,
    allow_partial: bool,
) -> Option<Outcome> {
    let (error, whole) = finished(alloc, bits, image, allow_partial)?;
    Some(Outcome {
        error,
        samples: samples(alloc, image).ok()?,
        position: bits.position(),
        whole,
    })
}

/// Reads, decodes and finishes a picture, each by its own call; samples may end early.
fn by_calls<S: Sample, D: Decoder>(
    alloc: Global,
    picture: &Picture,
    bytes: &[u8],
    allow_partial: bool,
) -> Option<Outcome> {
    let params = params::<D>(alloc, picture)?;
    if !params.is_valid() {
        return None;
    }
    let mut bits = Bitstream::new(bytes);
    match Modular::<S, D>::parse(alloc, &mut bits, params) {
        Ok(mut modular) => match modular.image_mut() {
            Some(image) => read_image(alloc, &mut bits, image, allow_partial),
            None => Some(nothing(alloc, None, bits.position())),
        },
        Err(error) => Some(nothing(alloc, Some(error), bits.position())),
    }
}

/// Reads a picture by one call.
fn at_once<S: Sample, D: Decoder>(
    alloc: Global,
    picture: &Picture,
    bytes: &[u8],
) -> Option<Outcome> {
    let params = params::<D>(alloc, picture)?;
    if !params.is_valid() {
        return None;
    }
    let mut bits = Bitstream::new(bytes);
    match decode_picture::<S, D>(alloc, &mut bits, params, 0, &mut Steps::new()) {
        Ok(Some(image)) => Some(Outcome {
            error: None,
            samples: samples(alloc, &image).ok()?,
            position: bits.position(),
            whole: true,
        }),
        Ok(None) => Some(nothing(alloc, None, bits.position())),
        Err(error) => Some(nothing(alloc, Some(error), bits.position())),
    }
}

/// Whether two ways end at one position, with one error, and as whole or not.
fn end_alike(a: &Outcome, b: &Outcome, error: Option<Error>) -> bool {
    a.error == error && a.position == b.position && a.whole == b.whole
}

/// Whether what is read where samples may end early is the same, but that this end is no error.
fn is_early_form(early: &Outcome, strict: &Outcome) -> bool {
    let error = match strict.error {
        Some(error) if error.unexpected_eof() && !strict.samples.is_empty() => None,
        error => error,
    };
    end_alike(early, strict, error) && early.samples.as_slice() == strict.samples.as_slice()
}

/// Whether what is read by one call is the same, but that there are no samples with an error.
fn is_form_at_once(once: &Outcome, strict: &Outcome) -> bool {
    let same = !once.whole || once.samples.as_slice() == strict.samples.as_slice();
    end_alike(once, strict, strict.error) && same
}

/// The samples, or their checksum, and the reader's position, with the error of the samples, if there is one; or the
/// error of what comes before them.
fn outcome_text(alloc: Global, outcome: &Outcome, summed: bool) -> Option<String> {
    let position = outcome.position;
    let error = match outcome.error {
        Some(error) if outcome.samples.is_empty() => return format!(in alloc; "{error}").ok(),
        error => error,
    };
    let mut text = listed(alloc, &outcome.samples, summed).ok()?;
    let gap = if text.is_empty() { "" } else { " " };
    write!(text, "{gap}@{position}").ok()?;
    if let Some(error) = error {
        write!(text, " {error}").ok()?;
    }
    Some(text)
}

/// What comes of these bytes.
fn seen_at<S: Sample, D: Decoder>(
    alloc: Global,
    picture: &Picture,
    bytes: &[u8],
    summed: bool,
) -> Option<String> {
    let strict = by_calls::<S, D>(alloc, picture, bytes, false)?;
    let early = by_calls::<S, D>(alloc, picture, bytes, true)?;
    let once = at_once::<S, D>(alloc, picture, bytes)?;
    if !is_early_form(&early, &strict) {
        return format!(in alloc; "other where samples may end early").ok();
    }
    if !is_form_at_once(&once, &strict) {
        return format!(in alloc; "other by one call").ok();
    }
    outcome_text(alloc, &strict, summed)
}

/// What comes of a row: the samples and the reader's position, an error, or both.
pub fn seen<D: Decoder>(alloc: Global, asked: &str, summed: bool) -> Option<String> {
    let (kind, rest) = word(asked);
    let picture = read_picture(alloc, rest)?;
    match kind {
        "i16" => seen_at::<i16, D>(alloc, &picture, &picture.bytes, summed),
        "i32" => seen_at::<i32, D>(alloc, &picture, &picture.bytes, summed),
        _ => None,
    }
}

/// What is read of the first n bytes of a picture of samples of 32 bits, where they may end early.
fn seen_of_prefix<D: Decoder>(alloc: Global, picture: &Picture, n: usize) -> Option<String> {
    let prefix = picture.bytes.as_slice().get(..n)?;
    let outcome = by_calls::<i32, D>(alloc, picture, prefix, true)?;
    let text = outcome_text(alloc, &outcome, false)?;
    let whole = if outcome.whole { "whole" } else { "partial" };
    format!(in alloc; "{text} {whole}\n").ok()
}

/// A row asks with a picture of samples of 32 bits. It gives the checksum of what is read of each prefix of its bytes,
/// the shortest first, where samples may end early: what a row of a picture gives, a space, `whole` or `partial`, and a
/// line feed.
pub fn sum_of_prefixes<D: Decoder>(alloc: Global, asked: &str) -> Option<String> {
    let picture = read_picture(alloc, asked)?;
    let mut sum = 0;
    for n in 0..=picture.bytes.len() {
        sum = text_sum(sum, seen_of_prefix::<D>(alloc, &picture, n)?.as_str());
    }
    format!(in alloc; "{sum}").ok()
}

/// The checksum of what comes of each prefix.
fn sum_of_truncated_at<S: Sample, D: Decoder>(alloc: Global, picture: &Picture) -> Option<u32> {
    let mut sum = 0;
    for n in 0..=picture.bytes.len() {
        let prefix = picture.bytes.as_slice().get(..n)?;
        let text = seen_at::<S, D>(alloc, picture, prefix, false)?;
        sum = text_sum(text_sum(sum, text.as_str()), "\n");
    }
    Some(sum)
}

/// A row asks with a picture. It gives the checksum of what comes of each prefix of its bytes, the shortest first, and
/// the picture itself at last: what a row of a picture gives, with a line feed after it.
pub fn sum_of_truncated<D: Decoder>(alloc: Global, asked: &str) -> Option<String> {
    let (kind, rest) = word(asked);
    let picture = read_picture(alloc, rest)?;
    let sum = match kind {
        "i16" => sum_of_truncated_at::<i16, D>(alloc, &picture)?,
        "i32" => sum_of_truncated_at::<i32, D>(alloc, &picture)?,
        _ => return None,
    };
    format!(in alloc; "{sum}").ok()
}
