//! What the first section of a Modular frame begins with, written.

ghost use Rattle.std.specs.Prelude.{◌≡◌, IfOk};
ghost use Rattle.jxlm_bit_writer.specs.Writes.{Writes};
ghost use Rattle.jxl_codestream.specs.Starts.{section_start as the_section_start};

use jxl_image_header_write::fields::write_bundle_if;
use jxlm_bit_writer::spelled::write_flag;
use jxlm_bit_writer::writer::BitWriter;
use std::alloc::AllocError;

/// Adds what the first section of a Modular frame without patches, splines and noise begins with, so that
/// `section_start` returns whether a tree follows that sections share. The factors of low frequencies are those by
/// default.
pub fn write_section_start(bits: &mut BitWriter, tree_follows: bool) -> Result<(), AllocError>
    ensures { IfOk result (λ _. Writes bits.old bits.new the_section_start.read tree_follows) }
{
    write_bundle_if(bits, true, false)?;
    write_flag(bits, tree_follows)?;
    Ok(())
}
