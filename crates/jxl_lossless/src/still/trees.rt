//! Sections' own trees, compared with the limits before samples are decoded.

ghost use Rattle.std.specs.Prelude.{◌≡◌, IfErr, OnOk};
ghost use Rattle.std.specs.Option.{option_copied};
ghost use Rattle.jxlm_bits.specs.Bits.{bytes_of, position_of};
ghost use Rattle.jxlm_groups.specs.Passes.{passes_of};
ghost use Rattle.jxlm_nested.specs.NestedParts.{nested_list};
ghost use Rattle.jxlm_tree_depth.specs.Openings.{AreGiven};
ghost use Rattle.jxl_lossless.specs.Inner.Codewords.{AreBeyond, AreWithin};

use crate::still::codewords::exceed_codewords;
use crate::still::depths::some_deep;
use crate::still::error::FrameError;
use jxl_modular::sections::Section;
use jxl_picture::limits::TreeLimits;
use jxlm_bits::bits::Bitstream;
use jxlm_bits::decoder::Decoder;
use jxlm_tree::ma::MaConfig;
use jxlm_tree_depth::channels::GivenChannels;
use std::alloc::Global;
use std::collections::BTreeMap;

/// Compares the own trees of the header at the first section's position, for these channels, and of the headers of
/// groups: their codes' codewords first, so that no more than these are read, and then their depths.
///
/// # Errors
///
/// `TooManyCodewords`, `TooManyDecisions`, or out of memory.
pub(crate) fn compare_trees<D: Decoder>(
    alloc: Global,
    first: Bitstream<'_>,
    given: &GivenChannels,
    pass_shifts: &BTreeMap<u32, (i32, i32)>,
    sections: &[Section<'_>],
    global: Option<&MaConfig<D>>,
    limits: TreeLimits,
) -> Result<(), FrameError>
    requires given { AreGiven given.now }
    ensures ok { OnOk result (AreWithin D.meaning (option_copied global.entry) (nested_list given.now.channels.items)
        given.now.group_dim (bytes_of first.entry) (position_of first.entry) (passes_of pass_shifts.now.entries)
        limits sections.now) }
    ensures err { IfErr result (AreBeyond D.meaning (option_copied global.entry)
        (nested_list given.now.channels.items) given.now.group_dim (bytes_of first.entry) (position_of first.entry)
        (passes_of pass_shifts.now.entries) limits sections.now) }
{
    let has_global = global.is_some();
    let most = limits.codewords;
    let many = exceed_codewords(alloc, first, given, pass_shifts, sections, has_global, most)?;
    if many {
        return Err(FrameError::TooManyCodewords);
    }
    let deepest = limits.depth;
    let deep = some_deep(alloc, first, given, pass_shifts, sections, global, deepest)?;
    if deep {
        return Err(FrameError::TooManyDecisions);
    }
    Ok(())
}
