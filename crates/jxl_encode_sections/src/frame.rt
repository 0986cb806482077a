//! All sections of a frame.

ghost use Rattle.std.specs.Prelude.{◌≡◌, ◌≢◌, ◌<◌, ◌≤◌, ◌^◌, Ok, length, map, true, IfOk, IfErr};
ghost use Rattle.std.specs.List.{All};
ghost use Rattle.jxl_codestream.specs.LayoutParts.{parts_of};
ghost use Rattle.jxl_codestream.specs.Layouts.{has_part, layout_of, section_count_of};
ghost use Rattle.jxl_coding.specs.Clusters.{count_of};
ghost use Rattle.jxl_coding_build.specs.AnyWriters.{HasHead, HaveSlots, codes_in};
ghost use Rattle.jxl_encode_frame.specs.Laws.{IsOfSize};
ghost use Rattle.jxl_encode_frame.specs.Numbers.{HasNumber};
ghost use Rattle.jxl_encode_image.specs.Images.{LieCoded, samples_in};
ghost use Rattle.jxl_encode_image.specs.Preparations.{IsSpelled, image_transforms};
ghost use Rattle.jxl_encode_sections.specs.Inner.Frames.{AreByTokens, AreTokensOfFrame, AreWrittenSections, IsFrameOfCoded};
ghost use Rattle.jxl_encode_sections.specs.Sections.{AreFrameSections};
ghost use Rattle.jxl_encode_tree.specs.Trees.{IsNoTree};
ghost use Rattle.jxl_image_header.specs.declared.size.Size.{Size};
ghost use Rattle.jxlm_base.specs.Regions.{store_meanings};
ghost use Rattle.jxlm_encode_tokens.specs.Tokens.{MultipliesByOne};
ghost use Rattle.jxlm_encode_write.specs.Nodes.{has_token};
ghost use Rattle.jxlm_encode_write.specs.Trees.{leaves_in};
ghost use Rattle.jxlm_groups.specs.Cutting.{has_cells};
ghost use Rattle.jxlm_groups.specs.Pieces.{part_channels};
ghost use Rattle.jxlm_groups.specs.declared.part.SectionPart.{SectionPart as APart};
ghost use Rattle.jxlm_groups.specs.declared.part.SectionPart.TheVariants as parts;
ghost use Rattle.jxlm_samples.specs.Part.{cell_count};
ghost use Rattle.jxlm_section_split.specs.CutPicture.{one_pass as the_pass};
ghost use Rattle.jxlm_transform.specs.Channels.{AreGridsOf, image_list};
ghost use Rattle.jxlm_transform.specs.Lists.{list_of};
ghost use Rattle.jxlm_transform.specs.Params.{IsGroupDim, IsValidChannel};
ghost use Rattle.jxlm_tree.specs.Tree.{AllLeaves};

use crate::codes::codes_for;
use crate::copies::{copies_at, copying_for};
use crate::groups::{CopySearch, CutImage, put_groups, tokens_of_parts};
use crate::list::{groups_of, one_pass};
use crate::parts::{PartTokens, part_tokens};
use crate::section::first_section;
use jxl_codestream::layout::Layout;
use jxl_coding::clusters::count_of;
use jxl_coding_build::any::AnyWriter;
use jxl_coding_stream_write::copies::TokenCopy;
use jxl_encode_frame::sections::{empty_sections, put_section};
use jxl_encode_image::image::{CodedImage, code_image};
use jxl_encode_image::transform::{ImagePlan, ImageTransform};
use jxl_encode_tree::tree::tree_config;
use jxlm_base::grid::{AlignedGrid, OutOfMemory};
use jxlm_base::sample::Sample;
use jxlm_bit_writer::token::Token;
use jxlm_encode::error::EncodeError;
use jxlm_encode_write::tree::EncodeNode;
use jxlm_groups::part::SectionPart;
use jxlm_transform::param::ModularChannelParams;
use jxlm_tree::ma::MaConfigParams;
use std::alloc::{AllocError, Global};

/// The tree of a frame: its nodes, and the cluster of each leaf, in the order of the leaves.
#[derive(Clone, Copy)]
pub struct FrameTree<'a> {
    /// Its nodes, level by level, the left child before the right.
    pub nodes: &'a [EncodeNode],
    /// The clusters of its leaves.
    pub clusters: &'a [u8],
    /// How large it may be in this frame.
    pub limits: MaConfigParams,
    /// How many places of equal tokens are tried for a copy, if copies are looked for.
    pub copies: Option<usize>,
}

/// How a frame is cut.
#[derive(Clone, Copy)]
pub struct FrameCut<'a> {
    /// The side of a group.
    pub group_dim: u32,
    /// Its groups, in one pass.
    pub layout: &'a Layout,
}

/// The tokens of all parts of a frame.
#[derive(Drop)]
pub(crate) struct FrameTokens {
    /// Those of the global part.
    pub(crate) global: Vec<Token>,
    /// Those of each group with samples, and perhaps of others.
    pub(crate) groups: Vec<PartTokens>,
}

/// The tokens of all parts of a frame of one pass, which has each group with samples.
fn frame_tokens<S: Sample>(
    alloc: Global,
    image: &CutImage<'_, S>,
) -> Result<FrameTokens, OutOfMemory>
    requires group_dim { IsGroupDim image.now.group_dim }
    requires lie { LieCoded image.now.coded.now.channels image.now.coded.now.store.items }
    requires multipliers { AllLeaves MultipliesByOne image.now.config.now.tree }
    requires single { (parts_of image.now.layout.now).passes ≡ 1 }
    requires there { (part : APart) → part ≢ parts.Global
        → 0 < cell_count (part_channels image.now.group_dim the_pass (list_of image.now.coded.now.channels) part)
        → has_part (parts_of image.now.layout.now) part ≡ true
        × (section_count_of (parts_of image.now.layout.now) ≢ 1) }
    ensures { IfOk result (λ t. AreTokensOfFrame S.width image.now.group_dim (record {
      list = list_of image.now.coded.now.channels;
      samples = samples_in S.to_int image.now.coded.now.channels image.now.coded.now.store.items;
    })
        image.now.config.now.tree (parts_of image.now.layout.now) t) }
{
    let passes = one_pass();
    let global = part_tokens(
        alloc,
        image.coded,
        image.config,
        image.group_dim,
        &passes,
        SectionPart::Global,
        0,
    )?;
    let list = groups_of(alloc, &image.coded.channels, image.group_dim, image.layout)?;
    let groups = tokens_of_parts(alloc, image, &passes, &list)?;
    Ok(FrameTokens { global, groups })
}

/// The sections of a frame by the tokens of its parts.
fn written(
    alloc: Global,
    layout: &Layout,
    nodes: &[EncodeNode],
    codes: &AnyWriter,
    transforms: &[ImageTransform],
    tokens: &FrameTokens,
    copies: &[Vec<TokenCopy>],
) -> Result<Vec<Vec<u8>>, AllocError>
    requires properties { All (λ n. has_token n ≡ true) nodes.now }
    requires few { length nodes.now ≤ 2 ^ 26 }
    requires head { HasHead codes.now }
    requires contexts { length (codes_in codes.now).clusters ≡ leaves_in nodes.now }
    requires transforms { length transforms.now ≤ 273 }
    requires spelled { All IsSpelled (image_transforms transforms.now) }
    requires first { HaveSlots codes.now tokens.now.global.items }
    requires slots { All (λ p. HaveSlots codes.now p.tokens.items) tokens.now.groups.items }
    requires numbers { All (λ p. HasNumber (parts_of layout.now) p.part) tokens.now.groups.items }
    requires others { All (λ p. p.part ≢ parts.Global) tokens.now.groups.items }
    ensures { IfOk result (λ v. AreWrittenSections nodes.now (codes_in codes.now) (image_transforms transforms.now)
        (parts_of layout.now) tokens.now v.items) }
{
    let mut sections = empty_sections(alloc, layout)?;
    let first = first_section(
        alloc,
        nodes,
        codes,
        transforms,
        &tokens.global,
        copies_at(copies, 0),
    )?;
    put_section(&mut sections, layout, SectionPart::Global, first);
    put_groups(alloc, &mut sections, layout, codes, &tokens.groups, copies)?;
    Ok(sections)
}

/// The length of all sections.
fn length_of(sections: &[Vec<u8>]) -> usize {
    let mut sum: usize = 0;
    for section in sections {
        sum = sum.saturating_add(section.len());
    }
    sum
}

/// How copies are looked for in a frame, if they are: rows are as wide as its first channel, or a group.
fn search_in(
    given: &[ModularChannelParams],
    copies: Option<usize>,
    group_dim: u32,
) -> Option<CopySearch> {
    let tries = copies?;
    let width = match given.get(0) {
        Some(channel) => channel.width.min(group_dim),
        None => 1,
    };
    Some(CopySearch {
        width: width as usize,
        tries,
    })
}

/// The sections of a frame by the tokens of its parts: without copies, or with, whichever are shorter.
fn shorter_sections(
    alloc: Global,
    tree: &FrameTree<'_>,
    layout: &Layout,
    many: u32,
    transforms: &[ImageTransform],
    tokens: &FrameTokens,
    search: Option<CopySearch>,
) -> Result<Vec<Vec<u8>>, OutOfMemory>
    requires properties { All (λ n. has_token n ≡ true) tree.now.nodes.now }
    requires nodes { length tree.now.nodes.now ≤ 2 ^ 26 }
    requires contexts { length tree.now.clusters.now ≡ leaves_in tree.now.nodes.now }
    requires few { many ≤ 256 }
    requires used { count_of tree.now.clusters.now ≡ Ok many }
    requires transforms { length transforms.now ≤ 273 }
    requires spelled { All IsSpelled (image_transforms transforms.now) }
    requires first { All (λ t. t.cluster < many) tokens.now.global.items }
    requires tokens { All (λ p. All (λ t. t.cluster < many) p.tokens.items) tokens.now.groups.items }
    requires numbers { All (λ p. HasNumber (parts_of layout.now) p.part) tokens.now.groups.items }
    requires others { All (λ p. p.part ≢ parts.Global) tokens.now.groups.items }
    ensures { IfOk result (λ v. AreByTokens tree.now.nodes.now tree.now.clusters.now (image_transforms transforms.now)
        (parts_of layout.now) tokens.now v.items) }
{
    let codes = codes_for(alloc, tree.clusters, many, &tokens.global, &tokens.groups)?;
    let with_copies = copying_for(alloc, &codes, &tokens.global, &tokens.groups, search)?;
    let codes = AnyWriter::Plain(codes);
    let plain = written(alloc, layout, tree.nodes, &codes, transforms, tokens, &[])?;
    let Some(copying) = with_copies else {
        return Ok(plain);
    };
    let copied = written(
        alloc,
        layout,
        tree.nodes,
        &copying.codes,
        transforms,
        tokens,
        &copying.copies,
    )?;
    if length_of(&copied) >= length_of(&plain) {
        return Ok(plain);
    }
    Ok(copied)
}

/// The sections of a frame of one pass by a coded image. Tokens are copied where sections are shorter by it.
fn sections_of_coded<S: Sample>(
    alloc: Global,
    given: &[ModularChannelParams],
    coded: &CodedImage<S>,
    tree: &FrameTree<'_>,
    cut: &FrameCut<'_>,
) -> Result<Vec<Vec<u8>>, EncodeError>
    requires lie { LieCoded coded.now.channels coded.now.store.items }
    requires transforms { length coded.now.transforms.items ≤ 273 }
    requires spelled { All IsSpelled (image_transforms coded.now.transforms.items) }
    requires group_dim { IsGroupDim cut.now.group_dim }
    requires single { (parts_of cut.now.layout.now).passes ≡ 1 }
    requires there { (part : APart) → part ≢ parts.Global
        → 0 < cell_count (part_channels cut.now.group_dim the_pass (list_of coded.now.channels) part)
        → has_part (parts_of cut.now.layout.now) part ≡ true × (section_count_of (parts_of cut.now.layout.now) ≢ 1) }
    requires nodes { tree.now.limits.node_limit < 2 ^ 26 }
    requires depth { tree.now.limits.depth_limit ≤ 2048 }
    ensures ok { IfOk result (λ v. IsFrameOfCoded S.width cut.now.group_dim tree.now.limits tree.now.nodes.now
        tree.now.clusters.now (image_transforms coded.now.transforms.items) (record {
          list = list_of coded.now.channels;
          samples = samples_in S.to_int coded.now.channels coded.now.store.items;
        })
        (parts_of cut.now.layout.now) v.items) }
    ensures err { IfErr result (λ e. IsNoTree tree.now.nodes.now tree.now.clusters.now tree.now.limits e) }
{
    let config = tree_config(alloc, tree.nodes, tree.clusters, tree.limits)?;
    let Ok(many) = count_of(tree.clusters) else {
        return Err(EncodeError::InvalidTree);
    };
    let image = CutImage {
        coded,
        config: &config,
        group_dim: cut.group_dim,
        layout: cut.layout,
    };
    let tokens = frame_tokens(alloc, &image)?;
    let search = search_in(given, tree.copies, cut.group_dim);
    let sections = shorter_sections(
        alloc,
        tree,
        cut.layout,
        many,
        &coded.transforms,
        &tokens,
        search,
    )?;
    Ok(sections)
}

/// The sections of a frame of one pass with these channels, all of one size, by the transforms of a plan that suit them.
/// They have the grids, whatever else is in the file. Tokens are copied where sections are shorter by it.
///
/// # Errors
///
/// `InvalidTree`: the nodes and clusters are not those of exactly one tree within the limits. `OutOfMemory` comes at
/// any time, also where there are 2^31 samples and more. No other error does.
pub fn encode_sections<S: Sample>(
    alloc: Global,
    given: &[ModularChannelParams],
    grids: Vec<AlignedGrid<S>>,
    plan: &ImagePlan<'_>,
    tree: &FrameTree<'_>,
    cut: &FrameCut<'_>,
) -> Result<Vec<Vec<u8>>, EncodeError>
    requires valid { All IsValidChannel given.now }
    requires few { length given.now ≤ 65536 }
    requires sides { AreGridsOf (image_list given.now).channels grids.items }
    requires group_dim { IsGroupDim cut.now.group_dim }
    requires layout { (size : Size) × All (IsOfSize size) given.now
        × (parts_of cut.now.layout.now ≡ layout_of size cut.now.group_dim 1) }
    requires cells { All (λ c. has_cells cut.now.group_dim c ≡ true) (image_list given.now).channels }
    requires nodes { tree.now.limits.node_limit < 2 ^ 26 }
    requires depth { tree.now.limits.depth_limit ≤ 2048 }
    ensures ok { IfOk result (λ v. AreFrameSections S.width (image_list given.now) (parts_of cut.now.layout.now)
        cut.now.group_dim tree.now.limits.node_limit tree.now.limits.depth_limit (map (λ s. s.items) v.items)
        (store_meanings S.to_int grids.items)) }
    ensures err { IfErr result (λ e. IsNoTree tree.now.nodes.now tree.now.clusters.now tree.now.limits e) }
{
    let coded = code_image(alloc, given, plan, grids)?;
    let sections = sections_of_coded(alloc, given, &coded, tree, cut)?;
    Ok(sections)
}
