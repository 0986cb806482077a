//! Images as a viewer sees them, while their parts come.
//!
//! A row asks as one of sections does, for samples of 32 bits and without global trees; in place of sections it has the
//! bytes of the global part, and groups after it, with a semicolon wherever the image is shown. It gives, with a semicolon
//! after each: of the parts that came whether they are partial then, before that of a group with a header of its own after
//! an @ the reader's position, and the samples that are shown. Parts may end early.

use crate::image_samples::samples_of;
use crate::input::{owned_sections, passes, sections};
use crate::reading::read;
use crate::sections::{Fields, split};
use check_rows::{bytes, listed};
use jxl_modular::bits::Bitstream;
use jxl_modular::decoder::Decoder;
use jxl_modular::grid::AlignedGrid;
use jxl_modular::groups::{Part, TransformedGlobalModular};
use jxl_modular::image::ModularImageDestination;
use jxl_modular::sections::{Section, SectionPart};
use jxl_modular::{MaConfig, Sample};
use std::alloc::Global;

/// Adds the samples that are shown.
fn tell_shown<S: Sample>(alloc: Global, text: &mut String, shown: &[AlignedGrid<S>]) -> Option<()> {
    let samples = samples_of(alloc, shown).ok()?;
    let samples = listed(alloc, &samples, false).ok()?;
    write!(text, "{samples};").ok()
}

/// Decodes the global part: whether it is partial then.
fn decode_global<S: Sample, D: Decoder>(
    alloc: Global,
    image: &mut ModularImageDestination<S, D>,
    bytes: &[u8],
) -> Option<bool> {
    let mut part = image.prepare_gmodular(alloc).ok()?;
    part.decode(alloc, &mut Bitstream::new(bytes), 0, true)
        .ok()?;
    Some(part.is_partial())
}

/// The group of a section.
fn group_of(part: SectionPart) -> Option<Part> {
    match part {
        SectionPart::Global => None,
        SectionPart::Lf(group) => Some(Part::Lf(group)),
        SectionPart::Pass(pass, group) => Some(Part::Pass(pass, group)),
    }
}

/// Decodes a group by a header of its own: where the reader is then.
fn decode_nested_group<S: Sample, D: Decoder>(
    alloc: Global,
    groups: &mut TransformedGlobalModular<'_, S, D>,
    part: Part,
    section: &Section<'_>,
) -> Option<u64> {
    let global: Option<MaConfig<D>> = None;
    let mut bits = section.bits;
    groups
        .decode_nested(
            alloc,
            part,
            &mut bits,
            section.stream_index,
            global.as_ref(),
            true,
        )
        .ok()?;
    Some(bits.position())
}

/// Decodes a group, and adds whether it is partial then; before it, where it has a header of its own, where the reader
/// is.
fn tell_group<S: Sample, D: Decoder>(
    alloc: Global,
    text: &mut String,
    groups: &mut TransformedGlobalModular<'_, S, D>,
    section: &Section<'_>,
) -> Option<()> {
    let part = group_of(section.part)?;
    if section.nested {
        let position = decode_nested_group(alloc, groups, part, section)?;
        write!(text, "@{position} ").ok()?;
    } else {
        let mut bits = section.bits;
        groups
            .decode(alloc, part, &mut bits, section.stream_index, true)
            .ok()?;
    }
    let partial = groups.is_partial(part);
    write!(text, "{partial} ").ok()
}

/// Adds what becomes of some groups, and what is shown then.
fn tell_groups<S: Sample, D: Decoder>(
    alloc: Global,
    text: &mut String,
    groups: &mut TransformedGlobalModular<'_, S, D>,
    sections: &[Section<'_>],
) -> Option<()> {
    for section in sections {
        tell_group(alloc, text, groups, section)?;
    }
    tell_shown(alloc, text, &groups.shown(alloc).ok()?)
}

/// Adds the same of all groups, with a semicolon wherever the image is shown.
fn tell_all_groups<S: Sample, D: Decoder>(
    alloc: Global,
    text: &mut String,
    groups: &mut TransformedGlobalModular<'_, S, D>,
    words: &str,
) -> Option<()> {
    for some in words.split(';') {
        let owned = owned_sections(alloc, some)?;
        let sections = sections(alloc, &owned, None)?;
        tell_groups(alloc, text, groups, &sections)?;
    }
    Some(())
}

/// What a viewer sees of an image, whose header was read.
fn told<S: Sample, D: Decoder>(
    alloc: Global,
    image: &mut ModularImageDestination<S, D>,
    fields: Fields<'_>,
) -> Option<String> {
    let (global, groups) = fields.sections.split_once(';')?;
    let passes = passes(alloc, fields.passes)?;
    let partial = decode_global(alloc, image, &bytes(alloc, global)?)?;
    let mut text = format!(in alloc; "{partial} ").ok()?;
    tell_shown(alloc, &mut text, &image.shown(alloc).ok()?)?;
    if !image.can_group(&passes) {
        return None;
    }
    let mut parts = image.prepare_groups(alloc, &passes).ok()?;
    tell_all_groups(alloc, &mut text, &mut parts, groups)?;
    Some(text)
}

/// What comes of a row.
pub fn seen<D: Decoder>(alloc: Global, asked: &str) -> Option<String> {
    let fields = split("i32", asked)?;
    let header = bytes(alloc, fields.header)?;
    let mut bits = Bitstream::new(&header);
    let mut modular = read::<i32, D>(alloc, &mut bits, fields.limits()?, fields.channels)?.ok()?;
    told(alloc, modular.image_mut()?, fields)
}
