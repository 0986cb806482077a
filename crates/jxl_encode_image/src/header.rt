//! The Modular header of a part that uses the tree of its frame, written (ISO/IEC 18181-1, Modular: Modular header, TransformInfo).

ghost use Rattle.std.specs.Prelude.{◌≡◌, ◌≤◌, IfOk, length};
ghost use Rattle.std.specs.List.{All};
ghost use Rattle.jxlm_bits.specs.Grammar.{repeated, u32 as the_u32};
ghost use Rattle.jxlm_bits.specs.declared.bits.U32Spec.TheVariants.{Const, Offset};
ghost use Rattle.jxlm_bit_writer.specs.Writes.{Spells};
ghost use Rattle.jxlm_header.specs.Header.{file_header};
ghost use Rattle.jxlm_transform.specs.Transforms.{OfPalette, OfRct};
ghost use Rattle.jxl_encode_image.specs.Preparations.{IsFileRct, IsPlainPalette, IsSpelled, image_transforms, shared_header, transform_listed};
ghost use Rattle.jxl_encode_image.specs.Inner.Lists.{file_transform, transform_list};

use crate::transform::ImageTransform;
use jxlm_bit_writer::spelled::{write_flag, write_number, write_u32};
use jxlm_bit_writer::writer::BitWriter;
use jxlm_bits::bits::U32Spec;
use jxlm_transform::transform::{Palette, Rct};
use std::alloc::AllocError;

// Adds how many transforms there are.
fn write_count(bits: &mut BitWriter, count: u32) -> Result<(), AllocError>
    requires { count ≤ 273 }
    ensures { IfOk result (λ _. Spells bits.old bits.new (the_u32 (Const 0) (Const 1) (Offset 2 4) (Offset 18 8))
        count) }
{
    write_u32(
        bits,
        count,
        U32Spec::Const(0),
        U32Spec::Const(1),
        U32Spec::Offset(2, 4),
        U32Spec::Offset(18, 8),
    )?;
    Ok(())
}

// Adds a colour transform that the header of a file can spell.
fn write_colour(bits: &mut BitWriter, colour: Rct) -> Result<(), AllocError>
    requires { IsFileRct colour }
    ensures { IfOk result (λ _. Spells bits.old bits.new file_transform (OfRct colour)) }
{
    write_number(bits, 0, 2)?;
    write_u32(
        bits,
        colour.begin_c,
        U32Spec::Offset(0, 3),
        U32Spec::Offset(8, 6),
        U32Spec::Offset(72, 10),
        U32Spec::Offset(1096, 13),
    )?;
    write_u32(
        bits,
        colour.rct_type,
        U32Spec::Const(6),
        U32Spec::Offset(0, 2),
        U32Spec::Offset(2, 4),
        U32Spec::Offset(10, 6),
    )?;
    Ok(())
}

// Adds a palette without differences.
fn write_palette(bits: &mut BitWriter, palette: Palette) -> Result<(), AllocError>
    requires { IsPlainPalette palette }
    ensures { IfOk result (λ _. Spells bits.old bits.new file_transform (OfPalette palette)) }
{
    write_number(bits, 1, 2)?;
    write_u32(
        bits,
        palette.begin_c,
        U32Spec::Offset(0, 3),
        U32Spec::Offset(8, 6),
        U32Spec::Offset(72, 10),
        U32Spec::Offset(1096, 13),
    )?;
    write_u32(
        bits,
        palette.num_c,
        U32Spec::Const(1),
        U32Spec::Const(3),
        U32Spec::Const(4),
        U32Spec::Offset(1, 13),
    )?;
    write_u32(
        bits,
        palette.nb_colours,
        U32Spec::Offset(0, 8),
        U32Spec::Offset(256, 10),
        U32Spec::Offset(1280, 12),
        U32Spec::Offset(5376, 16),
    )?;
    write_u32(
        bits,
        0,
        U32Spec::Const(0),
        U32Spec::Offset(1, 8),
        U32Spec::Offset(257, 10),
        U32Spec::Offset(1281, 16),
    )?;
    write_number(bits, palette.d_pred.number(), 4)?;
    Ok(())
}

// Adds a transform.
fn write_transform(bits: &mut BitWriter, transform: ImageTransform) -> Result<(), AllocError>
    requires { IsSpelled (transform_listed transform) }
    ensures { IfOk result (λ _. Spells bits.old bits.new file_transform (transform_listed transform)) }
{
    match transform {
        ImageTransform::Colour(colour) => {
            write_colour(bits, colour)?;
            Ok(())
        }
        ImageTransform::Palette(palette) => {
            write_palette(bits, palette)?;
            Ok(())
        }
    }
}

// Adds these transforms.
fn write_each(bits: &mut BitWriter, transforms: &[ImageTransform]) -> Result<(), AllocError>
    requires { All IsSpelled (image_transforms transforms.now) }
    ensures { IfOk result (λ _. Spells bits.old bits.new
        (repeated (length transforms.now) file_transform) (image_transforms transforms.now)) }
{
    for transform in transforms {
        write_transform(bits, *transform)?;
    }
    Ok(())
}

// Adds the list of transforms.
fn write_transforms(bits: &mut BitWriter, transforms: &[ImageTransform]) -> Result<(), AllocError>
    requires few { length transforms.now ≤ 273 }
    requires spelled { All IsSpelled (image_transforms transforms.now) }
    ensures { IfOk result (λ _. Spells bits.old bits.new transform_list (image_transforms transforms.now)) }
{
    write_count(bits, transforms.len() as u32)?;
    write_each(bits, transforms)?;
    Ok(())
}

/// Adds the header of a part that uses the tree of its frame, with the default weights and these transforms, which a header can
/// spell. The parser reads this header there.
pub fn write_shared_header(
    bits: &mut BitWriter,
    transforms: &[ImageTransform],
) -> Result<(), AllocError>
    requires few { length transforms.now ≤ 273 }
    requires spelled { All IsSpelled (image_transforms transforms.now) }
    ensures { IfOk result (λ _. Spells bits.old bits.new file_header
        (shared_header (image_transforms transforms.now))) }
{
    write_flag(bits, true)?;
    write_flag(bits, true)?;
    write_transforms(bits, transforms)?;
    Ok(())
}
