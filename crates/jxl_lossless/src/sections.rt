//! Where the sections of a frame lie.

ghost use Rattle.std.specs.Prelude.{◌≡◌, length, true, IfOk};
ghost use Rattle.std.specs.List.{list_all};
ghost use Rattle.jxl_codestream.specs.Tocs.{is_within};
ghost use Rattle.jxl_lossless.specs.Places.{lent};
ghost use Rattle.jxl_lossless.specs.Inner.Cuts.{sections_of};

use jxl_codestream::toc::TocEntry;
use jxlm_base::grid::OutOfMemory;
use std::alloc::Global;

/// The bytes of these sections, all of which lie in the codestream.
pub fn sections<'a>(
    alloc: Global,
    bytes: &'a [u8],
    entries: &[TocEntry],
) -> Result<Vec<&'a [u8]>, OutOfMemory>
    requires within { list_all (is_within (length bytes.now)) entries.now ≡ true }
    ensures lie { IfOk result (λ v. lent v.items ≡ sections_of bytes.now entries.now) }
{
    let mut list = Vec::new(alloc);
    for entry in entries {
        list.push(entry.bytes(bytes).unwrap())?;
    }
    Ok(list)
}
