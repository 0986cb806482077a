//! The bytes of one section.

ghost use Rattle.std.specs.Prelude.{◌≡◌, ◌≤◌, ◌^◌, ℕ, [], length, true, IfOk};
ghost use Rattle.std.specs.List.{All};
ghost use Rattle.jxlm_bit_writer.specs.Writes.{Adds};
ghost use Rattle.jxlm_encode_write.specs.Nodes.{has_token};
ghost use Rattle.jxlm_encode_write.specs.Trees.{leaves_in};
ghost use Rattle.jxl_coding_build.specs.AnyWriters.{HasHead, HaveSlots, codes_in};
ghost use Rattle.jxl_encode_image.specs.Preparations.{IsSpelled, image_transforms};
ghost use Rattle.jxl_encode_sections.specs.Sections.{AreBehindHeader, IsFirstSection};

use jxl_codestream_write::start::write_section_start;
use jxl_coding_build::any::AnyWriter;
use jxl_coding_stream_write::copies::TokenCopy;
use jxl_encode_image::header::write_shared_header;
use jxl_encode_image::transform::ImageTransform;
use jxl_encode_tree::samples::write_samples;
use jxl_encode_tree::tree::write_tree;
use jxlm_bit_writer::token::Token;
use jxlm_bit_writer::writer::BitWriter;
use jxlm_encode_write::tree::EncodeNode;
use std::alloc::{AllocError, Global};

/// Adds the header of a part, with these transforms, and the samples of the part by their tokens.
fn write_part(
    alloc: Global,
    bits: &mut BitWriter,
    codes: &AnyWriter,
    transforms: &[ImageTransform],
    tokens: &[Token],
    copies: &[TokenCopy],
) -> Result<(), AllocError>
    requires transforms { length transforms.now ≤ 273 }
    requires spelled { All IsSpelled (image_transforms transforms.now) }
    requires slots { HaveSlots codes.now tokens.now }
    ensures { IfOk result (λ _. Adds bits.old bits.new
        (AreBehindHeader (codes_in codes.now) (image_transforms transforms.now) tokens.now)) }
{
    write_shared_header(bits, transforms)?;
    write_samples(alloc, bits, codes, tokens, copies)?;
    Ok(())
}

/// The section of a group: a header without transforms, and the samples of the group by their tokens.
pub(crate) fn group_section(
    alloc: Global,
    codes: &AnyWriter,
    tokens: &[Token],
    copies: &[TokenCopy],
) -> Result<Vec<u8>, AllocError>
    requires slots { HaveSlots codes.now tokens.now }
    ensures { IfOk result (λ v. (end : ℕ)
        × AreBehindHeader (codes_in codes.now) (image_transforms []) tokens.now v.items 0 end) }
{
    let mut bits = BitWriter::new(alloc);
    write_part(alloc, &mut bits, codes, &[], tokens, copies)?;
    let bytes = bits.into_bytes()?;
    Ok(bytes)
}

/// The first section of a frame: the default factors, the tree that all sections share, the header of the image with
/// these transforms, and the samples of the global part by their tokens.
pub(crate) fn first_section(
    alloc: Global,
    nodes: &[EncodeNode],
    codes: &AnyWriter,
    transforms: &[ImageTransform],
    tokens: &[Token],
    copies: &[TokenCopy],
) -> Result<Vec<u8>, AllocError>
    requires properties { All (λ n. has_token n ≡ true) nodes.now }
    requires few { length nodes.now ≤ 2 ^ 26 }
    requires head { HasHead codes.now }
    requires contexts { length (codes_in codes.now).clusters ≡ leaves_in nodes.now }
    requires transforms { length transforms.now ≤ 273 }
    requires spelled { All IsSpelled (image_transforms transforms.now) }
    requires slots { HaveSlots codes.now tokens.now }
    ensures { IfOk result (λ v. (end : ℕ) × IsFirstSection nodes.now (codes_in codes.now) (image_transforms transforms.now)
        tokens.now v.items 0 end) }
{
    let mut bits = BitWriter::new(alloc);
    write_section_start(&mut bits, true)?;
    write_tree(alloc, &mut bits, nodes, codes)?;
    write_part(alloc, &mut bits, codes, transforms, tokens, copies)?;
    let bytes = bits.into_bytes()?;
    Ok(bytes)
}
