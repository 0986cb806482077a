//! The sections of a frame by their numbers (ISO/IEC 18181-1, frame: table of contents, sections).

ghost use Rattle.std.specs.Prelude.{◌≡◌, IfOk, length};
ghost use Rattle.jxl_codestream.specs.LayoutParts.{parts_of};
ghost use Rattle.jxl_codestream.specs.Layouts.{section_count_of};
ghost use Rattle.jxl_encode_frame.specs.Numbers.{HasNumber, IsFound, KeepsOthers};

use jxl_codestream::layout::Layout;
use jxlm_groups::part::SectionPart;
use std::alloc::{AllocError, Global};

/// The sections of a frame by their numbers, all without bytes.
pub fn empty_sections(alloc: Global, layout: &Layout) -> Result<Vec<Vec<u8>>, AllocError>
    ensures { IfOk result (λ v. length v.items ≡ section_count_of (parts_of layout.now)) }
{
    let mut sections = Vec::new(alloc);
    for _ in 0..layout.section_count() {
        sections.push(Vec::new(alloc))?;
    }
    Ok(sections)
}

/// Puts the bytes of a part's section in their place among all sections of the frame, which has the part. Those of other
/// parts stay.
pub fn put_section(sections: &mut [Vec<u8>], layout: &Layout, part: SectionPart, bytes: Vec<u8>)
    requires there { HasNumber (parts_of layout.now) part }
    requires count { length sections.old ≡ section_count_of (parts_of layout.now) }
    ensures found { IsFound (parts_of layout.now) sections.new part bytes.items }
    ensures others { KeepsOthers (parts_of layout.now) part sections.old sections.new }
    ensures count { length sections.new ≡ length sections.old }
{
    sections[layout.section(part) as usize] = bytes;
}
