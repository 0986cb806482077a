//! The groups of a frame: the tokens of each, and the section of each.

ghost use Rattle.std.specs.Prelude.{◌≡◌, ◌≢◌, length, map, true, IfOk};
ghost use Rattle.std.specs.List.{All};
ghost use Rattle.jxl_codestream.specs.LayoutParts.{parts_of};
ghost use Rattle.jxl_codestream.specs.Layouts.{has_part, section_count_of};
ghost use Rattle.jxl_coding_build.specs.AnyWriters.{HaveSlots, codes_in};
ghost use Rattle.jxl_encode_frame.specs.Numbers.{HasNumber, section_among};
ghost use Rattle.jxl_encode_image.specs.Images.{LieCoded, samples_in};
ghost use Rattle.jxl_encode_sections.specs.Inner.Groups.{HasSection, HaveTokens, IsGroupOf};
ghost use Rattle.jxlm_encode_tokens.specs.Tokens.{MultipliesByOne};
ghost use Rattle.jxlm_groups.specs.declared.part.SectionPart.TheVariants as parts;
ghost use Rattle.jxlm_transform.specs.Lists.{list_of};
ghost use Rattle.jxlm_transform.specs.Params.{IsGroupDim};
ghost use Rattle.jxlm_tree.specs.Tree.{AllLeaves};

use crate::copies::copies_at;
use crate::parts::{PartTokens, part_tokens};
use crate::section::group_section;
use jxl_codestream::layout::Layout;
use jxl_coding::decoder::EntropyDecoder;
use jxl_coding_build::any::AnyWriter;
use jxl_coding_stream_write::copies::TokenCopy;
use jxl_encode_frame::sections::put_section;
use jxl_encode_image::image::CodedImage;
use jxlm_base::grid::OutOfMemory;
use jxlm_base::sample::Sample;
use jxlm_groups::part::SectionPart;
use jxlm_groups::pass::Pass;
use jxlm_tree::ma::MaConfig;
use std::alloc::{AllocError, Global};

/// How copies of tokens are looked for.
#[derive(Clone, Copy)]
pub(crate) struct CopySearch {
    /// The width of most rows.
    pub(crate) width: usize,
    /// How many places of equal tokens are tried for a copy.
    pub(crate) tries: usize,
}

/// An image as it is coded, the tree of its samples, and how its frame is cut.
#[derive(Drop)]
pub(crate) struct CutImage<'a, S> {
    /// The image.
    pub(crate) coded: &'a CodedImage<S>,
    /// The tree.
    pub(crate) config: &'a MaConfig<EntropyDecoder>,
    /// The side of a group.
    pub(crate) group_dim: u32,
    /// The groups of the frame.
    pub(crate) layout: &'a Layout,
}

/// The tokens of these parts of a frame, which has them, in their order.
pub(crate) fn tokens_of_parts<S: Sample>(
    alloc: Global,
    image: &CutImage<'_, S>,
    passes: &[Pass],
    parts: &[SectionPart],
) -> Result<Vec<PartTokens>, OutOfMemory>
    requires group_dim { IsGroupDim image.now.group_dim }
    requires lie { LieCoded image.now.coded.now.channels image.now.coded.now.store.items }
    requires multipliers { AllLeaves MultipliesByOne image.now.config.now.tree }
    requires there { All (λ part. has_part (parts_of image.now.layout.now) part ≡ true) parts.now }
    ensures parts { IfOk result (λ v. map (λ p. p.part) v.items ≡ parts.now) }
    ensures tokens { IfOk result (λ v. All (HaveTokens S.width image.now.group_dim passes.now (record {
      list = list_of image.now.coded.now.channels;
      samples = samples_in S.to_int image.now.coded.now.channels image.now.coded.now.store.items;
    })
        image.now.config.now.tree (parts_of image.now.layout.now)) v.items) }
{
    let mut all = Vec::new(alloc);
    for part in parts {
        let stream = image.layout.stream(*part);
        let tokens = part_tokens(
            alloc,
            image.coded,
            image.config,
            image.group_dim,
            passes,
            *part,
            stream,
        )?;
        all.push(PartTokens {
            part: *part,
            tokens,
        })?;
    }
    Ok(all)
}

/// Writes the section of a group into its place.
fn put_group(
    alloc: Global,
    sections: &mut Vec<Vec<u8>>,
    layout: &Layout,
    codes: &AnyWriter,
    group: &PartTokens,
    copies: &[TokenCopy],
) -> Result<(), AllocError>
    requires number { HasNumber (parts_of layout.now) group.now.part }
    requires slots { HaveSlots codes.now group.now.tokens.items }
    requires count { length sections.old.items ≡ section_count_of (parts_of layout.now) }
    ensures { IfOk result (λ _. IsGroupOf (codes_in codes.now) (parts_of layout.now) group.now
        sections.old.items sections.new.items) }
{
    let bytes = group_section(alloc, codes, &group.tokens, copies)?;
    put_section(sections, layout, group.part, bytes);
    Ok(())
}

/// Writes the sections of groups into their places; those of other parts stay. The copies of the first group are the second
/// of these.
pub(crate) fn put_groups(
    alloc: Global,
    sections: &mut Vec<Vec<u8>>,
    layout: &Layout,
    codes: &AnyWriter,
    groups: &[PartTokens],
    copies: &[Vec<TokenCopy>],
) -> Result<(), AllocError>
    requires numbers { All (λ p. HasNumber (parts_of layout.now) p.part) groups.now }
    requires slots { All (λ p. HaveSlots codes.now p.tokens.items) groups.now }
    requires count { length sections.old.items ≡ section_count_of (parts_of layout.now) }
    ensures count { IfOk result (λ _. length sections.new.items ≡ section_count_of (parts_of layout.now)) }
    ensures found { IfOk result (λ _. All (λ p. HasSection (codes_in codes.now) (parts_of layout.now) groups.now
        sections.new.items p.part) groups.now) }
    ensures others { All (λ p. p.part ≢ parts.Global) groups.now → IfOk result (λ _.
        section_among (parts_of layout.now) sections.new.items parts.Global
        ≡ section_among (parts_of layout.now) sections.old.items parts.Global) }
{
    let mut at: usize = 0;
    for group in groups {
        at = at.saturating_add(1);
        put_group(alloc, sections, layout, codes, group, copies_at(copies, at))?;
    }
    Ok(())
}
