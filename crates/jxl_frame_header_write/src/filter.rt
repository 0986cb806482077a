//! Filters of what was decoded, written.

ghost use Rattle.std.specs.Prelude.{◌≡◌, true, false, IfOk};
ghost use Rattle.jxlm_bit_writer.specs.Writes.{Spells};
ghost use Rattle.jxl_image_header.specs.Fields.{ignored_bytes, when};
ghost use Rattle.jxl_frame_header.specs.Filters.{own_floats, filter as the_filter};
ghost use Rattle.jxl_frame_header_write.specs.Writable.{is_filter as the_is_filter};

use jxl_frame_header::filter::RestorationFilter;
use jxl_image_header_write::fields::{
    write_bundle_if, write_flag_if, write_no_extensions_if, write_number_if,
};
use jxlm_bit_writer::spelled::{write_flag, write_number};
use jxlm_bit_writer::writer::BitWriter;
use std::alloc::AllocError;

/// Whether the writer spells filters.
pub fn is_filter(filter: RestorationFilter) -> bool
    ensures { result ≡ the_is_filter filter }
{
    filter.epf_iters < 4 && filter.extensions == 0
}

// Adds that floats are those by default, if that is present.
fn write_usual_floats_if(bits: &mut BitWriter, present: bool, count: u32) -> Result<(), AllocError>
    ensures { IfOk result (λ _. Spells bits.old bits.new (when present (own_floats count) tt) tt) }
{
    if !present {
        return Ok(());
    }
    write_flag(bits, false)?;
    Ok(())
}

// Adds the sigma of a Modular frame, 1, if it is present.
fn write_sigma_if(bits: &mut BitWriter, present: bool) -> Result<(), AllocError>
    ensures { IfOk result (λ _. Spells bits.old bits.new (when present (ignored_bytes 2) tt) tt) }
{
    if !present {
        return Ok(());
    }
    write_number(bits, 0x3C00, 16)?;
    Ok(())
}

/// Adds the filters of a Modular frame, with the floats by default.
pub fn write_filter(bits: &mut BitWriter, filter: RestorationFilter) -> Result<(), AllocError>
    requires { the_is_filter filter ≡ true }
    ensures { IfOk result (λ _. Spells bits.old bits.new (the_filter true true) filter) }
{
    let follows = !(filter.gab & (filter.epf_iters == 2));
    let edges = follows & (filter.epf_iters != 0);
    write_bundle_if(bits, true, follows)?;
    write_flag_if(bits, follows, filter.gab, true)?;
    write_usual_floats_if(bits, follows & filter.gab, 12)?;
    write_number_if(bits, follows, filter.epf_iters, 2, 2)?;
    write_usual_floats_if(bits, edges, 10)?;
    write_usual_floats_if(bits, edges, 6)?;
    write_sigma_if(bits, edges)?;
    write_no_extensions_if(bits, follows)?;
    Ok(())
}
