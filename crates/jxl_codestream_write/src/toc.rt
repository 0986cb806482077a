//! The table of contents of a frame, written.

ghost use Rattle.std.specs.Prelude.{◌≡◌, true, length, IfOk};
ghost use Rattle.std.specs.List.{list_all};
ghost use Rattle.jxlm_bits.specs.Grammar.{repeated, u32};
ghost use Rattle.jxlm_bits.specs.declared.bits.U32Spec.TheVariants.{Offset};
ghost use Rattle.jxlm_bit_writer.specs.Writes.{Spells};
ghost use Rattle.jxl_codestream.specs.Tocs.{toc};
ghost use Rattle.jxl_codestream_write.specs.Tables.{Completes, is_section_size as the_is_section_size, table_of};

use jxlm_bit_writer::spelled::{is_spelled, write_flag, write_u32};
use jxlm_bit_writer::writer::BitWriter;
use jxlm_bits::bits::U32Spec;
use jxlm_bits::decoder::Decoder;
use std::alloc::{AllocError, Global};

/// Whether a table of contents can have a section of this number of bytes.
pub fn is_section_size(size: u32) -> bool
    ensures { result ≡ the_is_section_size size }
{
    is_spelled(
        U32Spec::Offset(0, 10),
        U32Spec::Offset(1024, 14),
        U32Spec::Offset(17408, 22),
        U32Spec::Offset(4211712, 30),
        size,
    )
}

fn write_size(bits: &mut BitWriter, size: u32) -> Result<(), AllocError>
    requires { the_is_section_size size ≡ true }
    ensures { IfOk result (λ _. Spells bits.old bits.new
        (u32 (Offset 0 10) (Offset 1024 14) (Offset 17408 22) (Offset 4211712 30)) size) }
{
    write_u32(
        bits,
        size,
        U32Spec::Offset(0, 10),
        U32Spec::Offset(1024, 14),
        U32Spec::Offset(17408, 22),
        U32Spec::Offset(4211712, 30),
    )
}

fn write_sizes(bits: &mut BitWriter, sizes: &[u32]) -> Result<(), AllocError>
    requires { list_all the_is_section_size sizes.now ≡ true }
    ensures { IfOk result (λ _. Spells bits.old bits.new (repeated (length sizes.now)
        (u32 (Offset 0 10) (Offset 1024 14) (Offset 17408 22) (Offset 4211712 30))) sizes.now) }
{
    for size in sizes {
        write_size(bits, *size)?;
    }
    Ok(())
}

/// The bytes of these bits, a frame's header, and after them the table of contents of sections of these sizes, in their
/// own order, so that `Toc::parse` returns it. The first section begins where the bytes end.
pub fn write_toc<D: Decoder>(
    alloc: Global,
    mut bits: BitWriter,
    sizes: &[u32],
) -> Result<Vec<u8>, AllocError>
    requires { list_all the_is_section_size sizes.now ≡ true }
    ensures { IfOk result (λ v. Completes bits v.items (toc D.meaning (length sizes.now))
        (table_of sizes.now (length v.items))) }
{
    // In their own order.
    write_flag(&mut bits, false)?;
    let mut bytes = bits.into_bytes()?;
    let mut table = BitWriter::new(alloc);
    write_sizes(&mut table, sizes)?;
    let table = table.into_bytes()?;
    bytes.extend_from_slice(&table)?;
    Ok(bytes)
}
