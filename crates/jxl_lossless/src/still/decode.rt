//! A frame, decoded from its sections.

ghost use Rattle.std.specs.Prelude.{◌≡◌, ◌↔◌, [], pos, false, IfErr, IfOk, IsTrue, None, Ok, OnOk};
ghost use Rattle.std.specs.Option.{IfSome, option_copied};
ghost use Rattle.jxlm_bits.specs.Bits.{bytes_of, position_of};
ghost use Rattle.jxlm_transform.specs.Channels.{AreGridsOf, image_list};
ghost use Rattle.jxlm_transform.specs.Params.{IsValidParams};
ghost use Rattle.jxlm_groups.specs.Passes.{can_group, one_picture, passes_of};
ghost use Rattle.jxl_modular.specs.Image.{image_grids};
ghost use Rattle.jxl_modular.specs.SameButCells.{SameButCells};
ghost use Rattle.jxl_modular.specs.Sections.{AreDecoded, IsComplete, SectionsFit};
ghost use Rattle.jxl_lossless.specs.Stills.{IsStill, StillFails};
ghost use Rattle.jxl_lossless.specs.Places.{own_passes, section_at};
ghost use Rattle.jxl_lossless.specs.Inner.Listing.{SamplesStop};

use crate::still::error::FrameError;
use crate::still::opening::{begin_weighted, open_image};
use crate::still::places::Places;
use crate::still::trees::compare_trees;
use jxl_modular::image::ModularImageDestination;
use jxl_modular::sections::{Progress, Section, decode_sections_with};
use jxl_picture::limits::TreeLimits;
use jxlm_base::sample::Sample;
use jxlm_bits::bits::Bitstream;
use jxlm_bits::decoder::Decoder;
use jxlm_transform::param::ModularParams;
use jxlm_tree::flat::Steps;
use jxlm_tree::ma::MaConfig;
use jxlm_tree_depth::channels::GivenChannels;
use std::alloc::Global;
use std::collections::BTreeMap;

// Decodes all sections of an image, of which each part with samples has one, and undoes the transforms.
fn decode_all<S: Sample, D: Decoder, P: Progress>(
    alloc: Global,
    image: &mut ModularImageDestination<S, D>,
    passes: &BTreeMap<u32, (i32, i32)>,
    sections: &[Section<'_>],
    global: Option<&MaConfig<D>>,
    steps: &mut Steps,
    progress: &mut P,
) -> Result<(), FrameError>
    requires fit { SectionsFit image.old (passes_of passes.now.entries) sections.now }
    requires complete { IsComplete image.old (passes_of passes.now.entries) sections.now }
    ensures ok { OnOk result (AreDecoded D.meaning S.width S.to_int (S.from_int (pos 0)) image.old
        (passes_of passes.now.entries) (option_copied global.entry) sections.now (image_grids S.to_int image.new)
        steps.old steps.new) }
    ensures err { IfErr result (SamplesStop D.meaning S.width S.to_int (S.from_int (pos 0)) image.old
        (passes_of passes.now.entries) (option_copied global.entry) sections.now) }
    ensures same { SameButCells image.old image.new }
{
    match decode_sections_with(
        alloc, image, passes, sections, global, false, steps, progress,
    ) {
        Ok(whole) => {
            let _ = whole;
            Ok(())
        }
        Err(error) => Err(FrameError::Samples(error)),
    }
}

/// Decodes a frame from its sections: the first from its reader's position on, where the header of the Modular image
/// stands, and those of its groups (ISO/IEC 18181-1, frame: sections, LF global, groups).
///
/// A header that uses a global tree has the one of the parameters. Each group with samples has a section, which begins
/// with a header of its own; the others are not looked at. The own trees of the image's header and of such headers are
/// within these limits. Which section and which stream a part has is said by the
/// [`Layout`](jxl_codestream::layout::Layout). `progress` is called after each section. It returns the image, whose
/// transforms are undone; with no channels there is none.
///
/// The parameters are valid, and their channels are of one picture; each shift below 3 has its pass, so that the passes
/// can cut an image ([`can_group`](jxlm_groups::pass::can_group)).
///
/// # Errors
///
/// The first of these: `WeightedPalette` where the header can be read and has a palette with the weighted predictor;
/// `Header` for the header, its conditions and the tree, as by [`Modular::parse`](jxl_modular::Modular::parse);
/// `NoGroups`; `NoSection`; `GroupWeightedPalette` where the header of a group has such a palette, which is looked for
/// before samples are decoded; `TooManyCodewords` where the codes of the own trees of the image's header and of headers
/// of groups may have more codewords than the limit, and `TooManyDecisions` where such a tree is deeper than its limit,
/// which are compared before samples are decoded; `Samples` for the first section that cannot be decoded, as by
/// [`decode_sections`](jxl_modular::sections::decode_sections). Or it is out of memory, at any time.
pub fn decode_frame<'a, S: Sample, D: Decoder, P: Progress>(
    alloc: Global,
    first: Bitstream<'a>,
    params: ModularParams<'_, D>,
    places: Places<'a, '_>,
    trees: TreeLimits,
    steps: &mut Steps,
    progress: &mut P,
) -> Result<Option<ModularImageDestination<S, D>>, FrameError>
    requires valid { IsValidParams params }
    requires alike { IsTrue (one_picture (image_list params.channels.items).channels) }
    requires usable { IsTrue (can_group (own_passes places) []) }
    ensures none { (result ≡ Ok None) ↔ (params.entry.channels.items ≡ []) }
    ensures still { IfOk result (λ made. IfSome made (λ image. IsStill D.meaning S.width
        (option_copied params.entry.ma_config) (image_list params.entry.channels.items) params.entry.group_dim
        params.entry.bit_depth (bytes_of first.entry) (position_of first.entry) (own_passes places.entry)
        (section_at places.entry) trees (image_grids S.to_int image) steps.old steps.new)) }
    ensures sides { IfOk result (λ made. IfSome made (λ image.
        AreGridsOf (image_list params.entry.channels.items).channels (image_grids S.to_int image))) }
    ensures err { IfErr result (StillFails D.meaning S.width
        (option_copied params.entry.ma_config) (image_list params.entry.channels.items) params.entry.group_dim
        params.entry.bit_depth (bytes_of first.entry) (position_of first.entry) (own_passes places.entry)
        (section_at places.entry) trees) }
{
    if params.channels.is_empty() {
        return Ok(None);
    }
    let global = params.ma_config;
    let given = GivenChannels::new(alloc, &params.channels, params.group_dim)?;
    let mut bits = first;
    let opened = open_image::<S, D>(alloc, &mut bits, params)?;
    let Some(mut image) = opened else {
        return Ok(None);
    };
    let sections = places.list(alloc, &mut image, bits)?;
    let weighted = begin_weighted(alloc, &sections)?;
    if weighted {
        return Err(FrameError::GroupWeightedPalette);
    }
    compare_trees(
        alloc,
        first,
        &given,
        places.passes,
        &sections,
        global,
        trees,
    )?;
    decode_all(
        alloc,
        &mut image,
        places.passes,
        &sections,
        global,
        steps,
        progress,
    )?;
    Ok(Some(image))
}
