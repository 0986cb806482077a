//! How many codewords the codes of sections' own trees may have, which is compared before samples are decoded.

ghost use Rattle.std.specs.Prelude.{◌≡◌, ◌≤◌, IfOk};
ghost use Rattle.jxlm_bits.specs.Bits.{bytes_of, position_of};
ghost use Rattle.jxlm_groups.specs.Passes.{passes_of};
ghost use Rattle.jxlm_nested.specs.NestedParts.{nested_list};
ghost use Rattle.jxlm_transform.specs.Lists.{list_of};
ghost use Rattle.jxlm_tree_depth.specs.Openings.{AreCoded, AreGiven, list_of_part};
ghost use Rattle.jxl_lossless.specs.Codewords.{codewords_of};
ghost use Rattle.jxl_lossless.specs.Inner.Codewords.{CodewordsSay, SectionHas, SumSays};

use crate::still::depths::all_use_global;
use jxl_coding::decoder::EntropyDecoder;
use jxl_modular::sections::Section;
use jxlm_base::grid::OutOfMemory;
use jxlm_bits::bits::Bitstream;
use jxlm_groups::pass::passes;
use jxlm_tree::ma::MaConfig;
use jxlm_tree_depth::channels::{CodedChannels, GivenChannels};
use std::alloc::Global;
use std::collections::BTreeMap;

// How many codewords the codes of a tree may have, if there is one.
fn own_codewords(tree: Option<MaConfig<EntropyDecoder>>) -> u64
    ensures { result ≡ codewords_of tree }
{
    match tree {
        Some(config) => config.decoder().codewords(),
        None => 0,
    }
}

// How many codewords the codes of the own tree of a section may have, if it begins with a header that has one.
fn section_codewords(
    alloc: Global,
    coded: &CodedChannels,
    section: &Section<'_>,
) -> Result<u64, OutOfMemory>
    requires coded { AreCoded coded.now }
    ensures { IfOk result (SectionHas (list_of_part coded.now.group_dim coded.now.passes.items
        (list_of coded.now.channels)) section.now) }
{
    if !section.nested {
        return Ok(0);
    }
    let tree = coded.own_tree::<EntropyDecoder>(alloc, section.bits, section.part, None)?;
    Ok(own_codewords(tree))
}

// Whether the codes of the own trees of these sections may have more than this number of codewords, with those of the
// image's header. Sections after those that have too many are not looked at.
fn sections_exceed(
    alloc: Global,
    coded: &CodedChannels,
    sections: &[Section<'_>],
    own: u64,
    most: u64,
) -> Result<bool, OutOfMemory>
    requires coded { AreCoded coded.now }
    requires own { own ≤ most }
    ensures { IfOk result (SumSays (list_of_part coded.now.group_dim coded.now.passes.items
        (list_of coded.now.channels)) most own sections.now) }
{
    let mut left = most - own;
    for section in sections {
        let codewords = section_codewords(alloc, coded, section)?;
        if codewords > left {
            return Ok(true);
        }
        left -= codewords;
    }
    Ok(false)
}

/// Whether the codes of the own trees of the header at the first section's position, for these channels, and of the
/// headers of groups may have more than this number of codewords. A few bytes of a code can stand for 2^15 codewords,
/// and each takes time to read. Headers with trees of their own are parsed here; one with an error is left to the
/// decoding of its section.
pub(crate) fn exceed_codewords(
    alloc: Global,
    first: Bitstream<'_>,
    given: &GivenChannels,
    pass_shifts: &BTreeMap<u32, (i32, i32)>,
    sections: &[Section<'_>],
    has_global: bool,
    most: u64,
) -> Result<bool, OutOfMemory>
    requires given { AreGiven given.now }
    ensures { IfOk result (CodewordsSay has_global (nested_list given.now.channels.items) given.now.group_dim
        (bytes_of first.entry) (position_of first.entry) (passes_of pass_shifts.now.entries) most sections.now) }
{
    let tree = given.own_tree::<EntropyDecoder>(alloc, first, None)?;
    let own = own_codewords(tree);
    if own > most {
        return Ok(true);
    }
    if all_use_global(sections) {
        return Ok(false);
    }
    let passes = passes(alloc, pass_shifts)?;
    let opened = given.open(alloc, first, passes, has_global)?;
    match opened {
        Some(coded) => sections_exceed(alloc, &coded, sections, own, most),
        None => Ok(false),
    }
}
