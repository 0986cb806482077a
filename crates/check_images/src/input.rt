//! Sections, passes and global trees as rows have them, with a space between.
//!
//! A pass is `2:0,3`, its number and its shifts. A section is its part, as `g`, `l4` or `p2.4`; after @ its stream's
//! index; after + how many bits of its bytes are before it, unless there are none; and its bytes, after = or, where it
//! has a header of its own, after a colon. A global tree is the limits of its nodes and of its depth, and its bytes, with
//! a comma between; before it stands a p, where it is that of the parameters, or an s, where it is that of the sections.

use check_rows::{bytes, number};
use jxl_modular::bits::Bitstream;
use jxl_modular::decoder::Decoder;
use jxl_modular::sections::{Section, SectionPart};
use jxl_modular::{MaConfig, MaConfigParams};
use std::alloc::Global;
use std::collections::BTreeMap;

/// A section's part, its stream's index, how many bits are before it, its bytes, and whether it has a header.
#[derive(Drop)]
pub struct OwnedSection {
    part: SectionPart,
    stream_index: u32,
    /// How many bits of its bytes are before it.
    pub before: u32,
    /// Its bytes.
    pub bytes: Vec<u8>,
    nested: bool,
}

fn pass(word: &str) -> Option<(u32, (i32, i32))> {
    let (name, shifts) = word.split_once(':')?;
    let (first, end) = shifts.split_once(',')?;
    Some((
        number(name)?,
        (first.parse::<i32>().ok()?, end.parse::<i32>().ok()?),
    ))
}

/// The passes of a text: the number of each, and the shifts that it holds.
pub fn passes(alloc: Global, text: &str) -> Option<BTreeMap<u32, (i32, i32)>> {
    let mut passes = BTreeMap::new(alloc);
    for word in text.split_whitespace() {
        let (name, shifts) = pass(word)?;
        passes.insert(name, shifts).ok()?;
    }
    Some(passes)
}

fn part(text: &str) -> Option<SectionPart> {
    if let Some(group) = text.strip_prefix('l') {
        return Some(SectionPart::Lf(group.parse::<u64>().ok()?));
    }
    match text.strip_prefix('p') {
        Some(numbers) => {
            let (pass, group) = numbers.split_once('.')?;
            Some(SectionPart::Pass(number(pass)?, group.parse::<u64>().ok()?))
        }
        None if text == "g" => Some(SectionPart::Global),
        None => None,
    }
}

fn owned_section(alloc: Global, text: &str) -> Option<OwnedSection> {
    let nested = !text.contains('=');
    let (place, digits) = text.split_once(if nested { ':' } else { '=' })?;
    let (name, stream) = place.split_once('@')?;
    let (index, before) = stream.split_once('+').unwrap_or((stream, "0"));
    Some(OwnedSection {
        part: part(name)?,
        stream_index: number(index)?,
        before: number(before)?,
        bytes: bytes(alloc, digits)?,
        nested,
    })
}

/// The sections of a text.
pub fn owned_sections(alloc: Global, text: &str) -> Option<Vec<OwnedSection>> {
    let mut owned = Vec::new(alloc);
    for word in text.split_whitespace() {
        owned.push(owned_section(alloc, word)?).ok()?;
    }
    Some(owned)
}

/// The reader at the section's first bit, which ends after n bytes, if there are more.
fn reader(section: &OwnedSection, n: usize) -> Option<Bitstream<'_>> {
    let bytes = section.bytes.as_slice();
    let mut bits = Bitstream::new(&bytes[..n.min(bytes.len())]);
    for _ in 0..section.before {
        bits.read_bool().ok()?;
    }
    Some(bits)
}

/// The same as the library takes them; or where they end early, as many whole ones, and of the next as many bytes.
pub fn sections<'a>(
    alloc: Global,
    owned: &'a [OwnedSection],
    end: Option<(usize, usize)>,
) -> Option<Vec<Section<'a>>> {
    let (whole, n) = end.unwrap_or((owned.len(), 0));
    let mut sections = Vec::new(alloc);
    for (number, section) in owned.iter().enumerate().take(whole.saturating_add(1)) {
        let n = if number < whole { usize::MAX } else { n };
        let section = Section {
            part: section.part,
            bits: reader(section, n)?,
            stream_index: section.stream_index,
            nested: section.nested,
        };
        sections.push(section).ok()?;
    }
    Some(sections)
}

/// The tree that stands in these bytes, within limits of its nodes and of its depth.
fn read_tree<D: Decoder>(
    alloc: Global,
    bytes: &[u8],
    nodes: u32,
    depth: u32,
) -> Option<MaConfig<D>> {
    let limits = MaConfigParams {
        node_limit: nodes.min(1 << 26) as usize,
        depth_limit: depth.min(2048) as usize,
    };
    MaConfig::parse(alloc, &mut Bitstream::new(bytes), limits).ok()
}

/// The tree of a text: its limits and its bytes, with a comma between.
fn tree<D: Decoder>(alloc: Global, text: &str) -> Option<MaConfig<D>> {
    let (nodes, rest) = text.split_once(',')?;
    let (depth, digits) = rest.split_once(',')?;
    let bytes = bytes(alloc, digits)?;
    read_tree(alloc, &bytes, number(nodes)?, number(depth)?)
}

/// The global tree after the mark, if there is one; and none where it cannot be read.
pub fn global<D: Decoder>(alloc: Global, text: &str, mark: char) -> Option<Option<MaConfig<D>>> {
    for word in text.split_whitespace() {
        if let Some(text) = word.strip_prefix(mark) {
            return Some(Some(tree(alloc, text)?));
        }
    }
    Some(None)
}
