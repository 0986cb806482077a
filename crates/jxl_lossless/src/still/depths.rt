//! How deep the trees of a frame's sections are, which is compared before samples are decoded.

ghost use Rattle.std.specs.Prelude.{◌≡◌, IfOk, false, true};
ghost use Rattle.std.specs.List.{All};
ghost use Rattle.std.specs.Option.{option_copied};
ghost use Rattle.jxlm_bits.specs.Bits.{bytes_of, position_of};
ghost use Rattle.jxlm_groups.specs.Passes.{passes_of};
ghost use Rattle.jxlm_nested.specs.NestedParts.{nested_list};
ghost use Rattle.jxlm_transform.specs.Lists.{list_of};
ghost use Rattle.jxlm_tree_depth.specs.Openings.{AreCoded, AreGiven, list_of_part};
ghost use Rattle.jxl_lossless.specs.Inner.Depths.{SectionSays, SectionsSay, TreesSay, UsesGlobal};

use jxl_modular::sections::Section;
use jxlm_base::grid::OutOfMemory;
use jxlm_bits::bits::Bitstream;
use jxlm_bits::decoder::Decoder;
use jxlm_groups::pass::passes;
use jxlm_tree::ma::MaConfig;
use jxlm_tree_depth::channels::{CodedChannels, GivenChannels};
use jxlm_tree_depth::depth::uses_global;
use std::alloc::Global;
use std::collections::BTreeMap;

// Whether this section begins with a header of its own that does not use the global tree.
fn has_own_tree(section: &Section<'_>) -> bool
    ensures { result ≡ false → UsesGlobal section.now }
{
    if !section.nested {
        return false;
    }
    !uses_global(section.bits)
}

/// Whether each of these sections with a header of its own uses the global tree.
pub(crate) fn all_use_global(sections: &[Section<'_>]) -> bool
    ensures { result ≡ true → All UsesGlobal sections.now }
{
    for section in sections {
        if has_own_tree(section) {
            return false;
        }
    }
    true
}

// Whether this section begins with a header that has a tree of its own, and this is deeper than the limit; not where
// header or tree has an error.
fn is_deep<D: Decoder>(
    alloc: Global,
    coded: &CodedChannels,
    section: &Section<'_>,
    global: Option<&MaConfig<D>>,
    deepest: u64,
) -> Result<bool, OutOfMemory>
    requires coded { AreCoded coded.now }
    ensures { IfOk result (SectionSays D.meaning (option_copied global.entry) (list_of_part coded.now.group_dim
        coded.now.passes.items (list_of coded.now.channels)) deepest section.now) }
{
    if !section.nested {
        return Ok(false);
    }
    coded.has_deep_tree(alloc, section.bits, section.part, global, deepest)
}

// Whether one of these sections has a header of its own with such a tree.
fn some_section_deep<D: Decoder>(
    alloc: Global,
    coded: &CodedChannels,
    sections: &[Section<'_>],
    global: Option<&MaConfig<D>>,
    deepest: u64,
) -> Result<bool, OutOfMemory>
    requires coded { AreCoded coded.now }
    ensures { IfOk result (SectionsSay D.meaning (option_copied global.entry) (list_of_part coded.now.group_dim
        coded.now.passes.items (list_of coded.now.channels)) deepest sections.now) }
{
    for section in sections {
        if is_deep(alloc, coded, section, global, deepest)? {
            return Ok(true);
        }
    }
    Ok(false)
}

/// Whether the tree of the header at the first section's position, for these channels, or that of a group's header, is
/// its own and deeper than this. Headers with trees of their own are parsed here, and once more where their sections
/// are decoded; one with an error is left to that.
pub(crate) fn some_deep<D: Decoder>(
    alloc: Global,
    first: Bitstream<'_>,
    given: &GivenChannels,
    pass_shifts: &BTreeMap<u32, (i32, i32)>,
    sections: &[Section<'_>],
    global: Option<&MaConfig<D>>,
    deepest: u64,
) -> Result<bool, OutOfMemory>
    requires given { AreGiven given.now }
    ensures { IfOk result (TreesSay D.meaning (option_copied global.entry) (nested_list given.now.channels.items)
        given.now.group_dim (bytes_of first.entry) (position_of first.entry) (passes_of pass_shifts.now.entries)
        deepest sections.now) }
{
    if given.has_deep_tree(alloc, first, global, deepest)? {
        return Ok(true);
    }
    if all_use_global(sections) {
        return Ok(false);
    }
    let passes = passes(alloc, pass_shifts)?;
    let opened = given.open(alloc, first, passes, global.is_some())?;
    match opened {
        Some(coded) => some_section_deep(alloc, &coded, sections, global, deepest),
        None => Ok(false),
    }
}
