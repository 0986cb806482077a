//! The sections of a frame, one behind another.

ghost use Rattle.std.specs.Prelude.{◌≡◌, ◌++◌, Any, IfOk, None, length, map, true};
ghost use Rattle.std.specs.List.{list_all};
ghost use Rattle.std.specs.Option.{IfSome};
ghost use Rattle.jxl_codestream_write.specs.StillFronts.{joined};
ghost use Rattle.jxl_codestream_write.specs.Tables.{is_section_size as the_is_section_size};
ghost use Rattle.jxl_encode.specs.Errors.{IsLong};

use jxl_codestream_write::toc::is_section_size;
use jxlm_base::grid::OutOfMemory;
use std::alloc::{AllocError, Global};

/// How many bytes a section has, unless it is too long for a table of contents.
fn size_of_section(section: &[u8]) -> Option<u32>
    ensures size { IfSome result (λ n. n ≡ length section.now) }
    ensures spelled { IfSome result (λ n. the_is_section_size n ≡ true) }
    ensures long { result ≡ None → IsLong section.now }
{
    let Ok(size) = u32::try_from(section.len()) else {
        return None;
    };
    if is_section_size(size) {
        Some(size)
    } else {
        None
    }
}

/// How many bytes each section has, unless one is too long for a table of contents.
pub(crate) fn sizes_of(alloc: Global, sections: &[Vec<u8>]) -> Result<Option<Vec<u32>>, OutOfMemory>
    ensures sizes { IfOk result
        (λ o. IfSome o (λ v. v.items ≡ map length (map (λ s. s.items) sections.now))) }
    ensures spelled { IfOk result (λ o. IfSome o (λ v. list_all the_is_section_size v.items ≡ true)) }
    ensures long { IfOk result (λ o. o ≡ None → Any (λ s. IsLong s.items) sections.now) }
{
    let mut sizes = Vec::new(alloc);
    for section in sections {
        let Some(size) = size_of_section(section) else {
            return Ok(None);
        };
        sizes.push(size)?;
    }
    Ok(Some(sizes))
}

/// Adds the sections, one behind another.
pub(crate) fn add_sections(bytes: &mut Vec<u8>, sections: &[Vec<u8>]) -> Result<(), AllocError>
    ensures { IfOk result (λ _. bytes.new.items ≡ bytes.old.items ++ joined (map (λ s. s.items) sections.now)) }
{
    for section in sections {
        bytes.extend_from_slice(section)?;
    }
    Ok(())
}
