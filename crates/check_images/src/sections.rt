//! Images read, and decoded from their sections, by one call and by a call for each part.
//!
//! A row asks with the type of samples and, with a bar between: the channels; the side of a group, the bit depth and the
//! passes; the bytes of header and tree, with global trees after them; and the sections. It gives, with a bar between:
//! how many LF groups there are, after a slash one more than the number of the last pass, and for each pass with groups
//! its number and how many; what is returned, `true`, `false` or an error; and the samples, or after a # their checksum.
//! Where decoding is not begun, it ends with why.

ghost use Rattle.jxlm_transform.specs.Params.{IsValidParams};

use crate::channel_words::channels;
use crate::image_samples::samples;
use crate::input::{OwnedSection, global, owned_sections, passes, sections};
use crate::parts::{counts, decode_by_parts};
use check_rows::{bytes, listed, number, text_sum, word};
use jxl_modular::bits::Bitstream;
use jxl_modular::decoder::Decoder;
use jxl_modular::error::Error;
use jxl_modular::flat::Steps;
use jxl_modular::image::ModularImageDestination;
use jxl_modular::sections::{Section, decode_sections, sections_fit};
use jxl_modular::{MaConfig, Modular, ModularParams, Sample};
use std::alloc::Global;
use std::collections::BTreeMap;

/// How an image is decoded, and written out.
#[derive(Clone, Copy)]
struct Options {
    /// By a call for each part, in place of one.
    by_parts: bool,
    /// The samples as their checksum.
    summed: bool,
    /// Samples may end early.
    allow_partial: bool,
}

/// The fields of a row.
#[derive(Clone, Copy)]
pub struct Fields<'t> {
    /// The type of samples.
    kind: &'t str,
    /// The channels.
    pub channels: &'t str,
    group_dim: &'t str,
    depth: &'t str,
    /// The passes.
    pub passes: &'t str,
    /// The bytes of the header.
    pub header: &'t str,
    trees: &'t str,
    /// The sections.
    pub sections: &'t str,
}

impl Fields<'_> {
    /// The side of a group and the bit depth.
    pub fn limits(&self) -> Option<(u32, u32)> {
        Some((number(self.group_dim)?, number(self.depth)?))
    }
}

/// The fields of a row for samples of this type.
pub fn split<'t>(kind: &'t str, row: &'t str) -> Option<Fields<'t>> {
    let (channels, rest) = row.split_once('|')?;
    let (setting, rest) = rest.split_once('|')?;
    let (header, sections) = rest.split_once('|')?;
    let (group_dim, rest) = word(setting);
    let (depth, passes) = word(rest);
    let (header, trees) = word(header);
    Some(Fields {
        kind,
        channels,
        group_dim,
        depth,
        passes,
        header,
        trees,
        sections,
    })
}

/// What is returned, and the samples.
fn decoded_text<S: Sample, D: Decoder>(
    alloc: Global,
    image: &ModularImageDestination<S, D>,
    answer: Result<bool, Error>,
    summed: bool,
) -> Option<String> {
    let samples = listed(alloc, &samples(alloc, image).ok()?, summed).ok()?;
    match answer {
        Ok(whole) => format!(in alloc; "{whole}|{samples}").ok(),
        Err(error) => format!(in alloc; "{error}|{samples}").ok(),
    }
}

/// Decodes an image from sections, if they fit it.
fn decoded<S: Sample, D: Decoder>(
    alloc: Global,
    image: &mut ModularImageDestination<S, D>,
    passes: &BTreeMap<u32, (i32, i32)>,
    sections: &[Section<'_>],
    global: Option<&MaConfig<D>>,
    options: Options,
) -> Option<String> {
    match sections_fit(alloc, image, passes, sections) {
        Ok(true) => {
            let answer = if options.by_parts {
                decode_by_parts(
                    alloc,
                    image,
                    passes,
                    sections,
                    global,
                    options.allow_partial,
                )
            } else {
                let mut steps = Steps::new();
                decode_sections(
                    alloc,
                    image,
                    passes,
                    sections,
                    global,
                    options.allow_partial,
                    &mut steps,
                )
            };
            decoded_text(alloc, image, answer, options.summed)
        }
        Ok(false) => format!(in alloc; "unfit").ok(),
        Err(error) => format!(in alloc; "{error}").ok(),
    }
}

/// Reads an image, and decodes it from its sections.
fn read_and_decoded<S: Sample, D: Decoder>(
    alloc: Global,
    params: ModularParams<'_, D>,
    passes: &BTreeMap<u32, (i32, i32)>,
    header: &[u8],
    sections: &[Section<'_>],
    global: Option<&MaConfig<D>>,
    options: Options,
) -> Option<String>
    requires { IsValidParams params }
{
    match Modular::<S, D>::parse(alloc, &mut Bitstream::new(header), params) {
        Ok(mut modular) => {
            let image = modular.image_mut()?;
            let counts = counts(alloc, image, passes)?;
            let decoded = decoded(alloc, image, passes, sections, global, options)?;
            format!(in alloc; "{counts}|{decoded}").ok()
        }
        Err(error) => format!(in alloc; "{error}").ok(),
    }
}

fn params<'a, D: Decoder>(
    alloc: Global,
    fields: Fields<'_>,
    global: Option<&'a MaConfig<D>>,
) -> Option<ModularParams<'a, D>> {
    let channels = channels(alloc, fields.channels)?;
    let (group_dim, depth) = fields.limits()?;
    Some(ModularParams::with_channels(group_dim, depth, channels, global))
}

/// What comes of these parameters, which are valid, and these sections.
fn with_valid<S: Sample, D: Decoder>(
    alloc: Global,
    params: ModularParams<'_, D>,
    fields: Fields<'_>,
    sections: &[Section<'_>],
    options: Options,
) -> Option<String>
    requires { IsValidParams params }
{
    let header = bytes(alloc, fields.header)?;
    let passes = passes(alloc, fields.passes)?;
    let inner = global::<D>(alloc, fields.trees, 's')?;
    read_and_decoded::<S, D>(
        alloc,
        params,
        &passes,
        &header,
        sections,
        inner.as_ref(),
        options,
    )
}

/// What comes of these sections, or of their beginning.
fn seen_at<S: Sample, D: Decoder>(
    alloc: Global,
    fields: Fields<'_>,
    owned: &[OwnedSection],
    end: Option<(usize, usize)>,
    options: Options,
) -> Option<String> {
    let outer = global::<D>(alloc, fields.trees, 'p')?;
    let params = params::<D>(alloc, fields, outer.as_ref())?;
    if !params.is_valid() {
        return None;
    }
    let sections = sections(alloc, owned, end)?;
    with_valid::<S, D>(alloc, params, fields, &sections, options)
}

fn seen_by<D: Decoder>(
    alloc: Global,
    fields: Fields<'_>,
    owned: &[OwnedSection],
    end: Option<(usize, usize)>,
    options: Options,
) -> Option<String> {
    match fields.kind {
        "i16" => seen_at::<i16, D>(alloc, fields, owned, end, options),
        "i32" => seen_at::<i32, D>(alloc, fields, owned, end, options),
        _ => None,
    }
}

/// What comes of these sections, or of their beginning, by one call; and by a call for each part, where that is another
/// thing.
fn seen_each_way<D: Decoder>(
    alloc: Global,
    fields: Fields<'_>,
    owned: &[OwnedSection],
    end: Option<(usize, usize)>,
    options: Options,
) -> Option<String> {
    let once = seen_by::<D>(alloc, fields, owned, end, options)?;
    let options = Options {
        by_parts: true,
        ..options
    };
    let by_parts = seen_by::<D>(alloc, fields, owned, end, options)?;
    if by_parts.as_str() == once.as_str() {
        Some(once)
    } else {
        format!(in alloc; "{once} but part by part {by_parts}").ok()
    }
}

/// What comes of a row, by one call; and by a call for each part, where that is another thing. With `allow_partial`
/// samples may end early.
pub fn seen<D: Decoder>(
    alloc: Global,
    asked: &str,
    summed: bool,
    allow_partial: bool,
) -> Option<String> {
    let (kind, rest) = word(asked);
    let fields = split(kind, rest)?;
    let owned = owned_sections(alloc, fields.sections)?;
    let options = Options {
        by_parts: false,
        summed,
        allow_partial,
    };
    seen_each_way::<D>(alloc, fields, &owned, None, options)
}

/// Adds what comes of a section's beginnings, after the sections before it.
fn added<D: Decoder>(
    alloc: Global,
    fields: Fields<'_>,
    owned: &[OwnedSection],
    place: usize,
    allow_partial: bool,
    sum: u32,
) -> Option<u32> {
    let options = Options {
        by_parts: false,
        summed: false,
        allow_partial,
    };
    let section = owned.get(place)?;
    let mut sum = sum;
    for n in (section.before as usize).div_ceil(8)..=section.bytes.len() {
        let text = seen_each_way::<D>(alloc, fields, owned, Some((place, n)), options)?;
        sum = text_sum(text_sum(sum, text.as_str()), "\n");
    }
    Some(sum)
}

/// The checksum of what comes of each beginning, each with a line feed after it.
fn beginnings_sum<D: Decoder>(
    alloc: Global,
    fields: Fields<'_>,
    allow_partial: bool,
) -> Option<u32> {
    let owned = owned_sections(alloc, fields.sections)?;
    let mut sum = 0;
    for place in 0..owned.len() {
        sum = added::<D>(alloc, fields, &owned, place, allow_partial, sum)?;
    }
    Some(sum)
}

/// A row asks with the same, for samples of 32 bits that may end early. It gives the checksum of what comes of each
/// beginning, each with a line feed after it: the sections in turn, the last one cut off after each of its bytes, and at
/// last all of them.
pub fn sum_of_beginnings<D: Decoder>(alloc: Global, asked: &str) -> Option<String> {
    let sum = beginnings_sum::<D>(alloc, split("i32", asked)?, true)?;
    format!(in alloc; "{sum}").ok()
}

/// A row asks with the type of samples and the same. It gives two such checksums: one where samples may not end early,
/// and one where they may.
pub fn sums_of_truncated<D: Decoder>(alloc: Global, asked: &str) -> Option<String> {
    let (kind, rest) = word(asked);
    let fields = split(kind, rest)?;
    let refused = beginnings_sum::<D>(alloc, fields, false)?;
    let allowed = beginnings_sum::<D>(alloc, fields, true)?;
    format!(in alloc; "{refused} {allowed}").ok()
}
