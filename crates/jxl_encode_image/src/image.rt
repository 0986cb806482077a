//! An image as it is coded: its transforms run forward, one after another.

ghost use Rattle.std.specs.Prelude.{◌≡◌, ◌<◌, ◌≤◌, ℕ, ◌++◌, ◌∷◌, [], IfOk, length, map};
ghost use Rattle.std.specs.List.{All};
ghost use Rattle.std.specs.Option.{IfSome};
ghost use Rattle.jxlm_base.specs.Grid.{IsFull};
ghost use Rattle.jxlm_base.specs.Regions.{store_meanings};
ghost use Rattle.jxlm_chain.specs.Shape.{SameShape};
ghost use Rattle.jxlm_chain.specs.Steps.{CanUndoAll};
ghost use Rattle.jxlm_chain.specs.Undo.{UndoesAll};
ghost use Rattle.jxlm_chain.specs.Undoings.{undos_of};
ghost use Rattle.jxlm_encode_transform.specs.Redo.{UndoesNoPalette};
ghost use Rattle.jxlm_transform.specs.Channels.{AreGridsOf, HasItsMeta, image_list};
ghost use Rattle.jxlm_transform.specs.Lists.{list_of};
ghost use Rattle.jxlm_transform.specs.Params.{IsGroupDim, IsValidChannel};
ghost use Rattle.jxlm_transform.specs.Transforms.{transform_of};
ghost use Rattle.jxl_encode_image.specs.Preparations.{IsFileRct, IsSpelled, image_transforms, transform_listed};
ghost use Rattle.jxl_encode_image.specs.Images.{IsCodedImage, IsPartIn, LieCoded};
ghost use Rattle.jxl_encode_image.specs.Inner.Placing.{GoesOnTo, IsPlacedFor, LieAlone};

use crate::palettes::with_palettes;
use crate::transform::{ImagePlan, ImageTransform};
use jxlm_base::grid::{AlignedGrid, OutOfMemory};
use jxlm_base::sample::Sample;
use jxlm_chain::placed::PlacedChannels;
use jxlm_chain::undo::Undoing;
use jxlm_encode_transform::redo::redo_all;
use jxlm_groups::part::SectionPart;
use jxlm_groups::pass::Pass;
use jxlm_groups::pieces::pieces;
use jxlm_transform::channels::{ModularChannels, PlacedChannel, image_channels};
use jxlm_transform::param::ModularChannelParams;
use jxlm_transform::transform::{Rct, TransformInfo};
use std::alloc::Global;

/// The most transforms of an image that a header can spell.
pub(crate) const MOST_TRANSFORMS: usize = 273;

/// The most channels of an image.
const MOST_CHANNELS: usize = 65536;

/// The most buffers of a store that are counted.
const MOST_BUFFERS: usize = 4_294_967_296;

/// The highest number of the first channel of a transform that a header can spell.
pub(crate) const LAST_BEGIN: usize = 9287;

/// The samples of an image as they are coded, where its coded channels lie among them, and the transforms that made them.
#[derive(Drop)]
pub struct CodedImage<S> {
    /// The coded channels, with their regions in the store.
    pub channels: ModularChannels,
    /// The grids in which they lie.
    pub store: Vec<AlignedGrid<S>>,
    /// The transforms, in their order.
    pub transforms: Vec<ImageTransform>,
}

// The transform, as a header lists it.
fn info_of(transform: ImageTransform) -> TransformInfo
    ensures { transform_of result ≡ transform_listed transform }
{
    match transform {
        ImageTransform::Colour(colour) => TransformInfo::Rct(colour),
        ImageTransform::Palette(palette) => TransformInfo::Palette(palette),
    }
}

// The transform as a list.
fn transform_list(
    alloc: Global,
    transform: ImageTransform,
) -> Result<Vec<TransformInfo>, OutOfMemory>
    ensures { IfOk result (λ v. map transform_of v.items ≡ transform_listed transform ∷ []) }
{
    let mut transforms = Vec::new(alloc);
    transforms.push(info_of(transform))?;
    Ok(transforms)
}

// The channels where they lie after this transform.
pub(crate) fn placed_after(
    alloc: Global,
    channels: ModularChannels,
    transform: ImageTransform,
) -> Result<PlacedChannels, OutOfMemory>
    requires meta { HasItsMeta (list_of channels) }
    requires spelled { IsSpelled (transform_listed transform) }
    ensures { IfOk result (λ p. IsPlacedFor (transform_listed transform ∷ []) channels p) }
{
    if channels.buffers > MOST_BUFFERS {
        return Err(OutOfMemory);
    }
    let mut placed = PlacedChannels::new(alloc, channels);
    let mut transforms = transform_list(alloc, transform)?;
    let Ok(()) = placed.apply(alloc, &mut transforms) else {
        return Err(OutOfMemory);
    };
    if placed.channels.placed.len() > MOST_CHANNELS {
        return Err(OutOfMemory);
    }
    Ok(placed)
}

/// Transforms and one more.
pub(crate) fn with_transform(
    transforms: Vec<ImageTransform>,
    transform: ImageTransform,
) -> Result<Vec<ImageTransform>, OutOfMemory>
    ensures { IfOk result (λ v. v.items ≡ transforms.items ++ transform ∷ []) }
{
    let mut transforms = transforms;
    transforms.push(transform)?;
    Ok(transforms)
}

// The store in which the transforms are run that these undo.
fn run_in<S: Sample>(
    alloc: Global,
    store: Vec<AlignedGrid<S>>,
    undoings: &[Undoing],
) -> Result<Vec<AlignedGrid<S>>, OutOfMemory>
    requires can { CanUndoAll store.items (undos_of undoings.now) }
    requires no_palettes { All UndoesNoPalette (undos_of undoings.now) }
    requires full { All IsFull store.items }
    ensures redone { IfOk result (λ v. (depth : ℕ) → UndoesAll S.to_int S.width depth (undos_of undoings.now)
        v.items store.items) }
    ensures shape { IfOk result (λ v. SameShape store.items v.items) }
{
    let mut store = store;
    redo_all(alloc, undoings, &mut store)?;
    Ok(store)
}

// The colour transform of this kind of the first three channels that are no meta channels, if it suits them, and the header of
// a file can spell it after so many transforms.
fn colour_for(channels: &ModularChannels, many: usize, kind: u32) -> Option<Rct>
    ensures spelled { IfSome result (λ t. IsFileRct t) }
    ensures few { IfSome result (λ _. many < 273) }
{
    let begin = channels.nb_meta_channels;
    if kind > 41 || begin > LAST_BEGIN || many >= MOST_TRANSFORMS {
        return None;
    }
    let colour = Rct {
        begin_c: begin as u32,
        rct_type: kind,
    };
    if colour.suits(channels) {
        Some(colour)
    } else {
        None
    }
}

// The image after the colour transform of this kind as well, if that suits it.
fn with_colour<S: Sample>(
    alloc: Global,
    image: CodedImage<S>,
    kind: u32,
) -> Result<CodedImage<S>, OutOfMemory>
    requires { LieAlone image.channels image.store.items }
    ensures { IfOk result (λ i. GoesOnTo S.to_int S.width image.channels image.store.items image.transforms.items
        i.channels i.store.items i.transforms.items) }
{
    let found = colour_for(&image.channels, image.transforms.len(), kind);
    let Some(colour) = found else {
        return Ok(image);
    };
    let CodedImage {
        channels,
        store,
        transforms,
    } = image;
    let transform = ImageTransform::Colour(colour);
    let placed = placed_after(alloc, channels, transform)?;
    let coded = run_in(alloc, store, &placed.undoings)?;
    let list = with_transform(transforms, transform)?;
    let PlacedChannels { channels, .. } = placed;
    Ok(CodedImage {
        channels,
        store: coded,
        transforms: list,
    })
}

// The image before all transforms.
fn untransformed<S: Sample>(
    alloc: Global,
    given: &[ModularChannelParams],
    grids: Vec<AlignedGrid<S>>,
) -> Result<CodedImage<S>, OutOfMemory>
    requires valid { All IsValidChannel given.now }
    requires few { length given.now ≤ 65536 }
    requires sides { AreGridsOf (image_list given.now).channels grids.items }
    ensures lie { IfOk result (λ i. LieAlone i.channels i.store.items) }
    ensures coded { IfOk result (λ i. IsCodedImage S.to_int S.width (image_transforms i.transforms.items)
        (image_list given.now) (store_meanings S.to_int grids.items) i.channels i.store.items) }
{
    let Ok(infos) = image_channels(alloc, given) else {
        return Err(OutOfMemory);
    };
    let channels = ModularChannels::new(alloc, &infos)?;
    Ok(CodedImage {
        channels,
        store: grids,
        transforms: Vec::new(alloc),
    })
}

/// Codes the samples of an image, of these channels, by the transforms of a plan, one after another: each that suits the
/// channels which the ones before it leave, and of palettes those whose colours are few.
///
/// # Errors
///
/// `OutOfMemory`, and no other. It takes a row for the colour transform, a grid for the indices of each palette, and lists as
/// long as the list of channels.
pub fn code_image<S: Sample>(
    alloc: Global,
    given: &[ModularChannelParams],
    plan: &ImagePlan<'_>,
    grids: Vec<AlignedGrid<S>>,
) -> Result<CodedImage<S>, OutOfMemory>
    requires valid { All IsValidChannel given.now }
    requires few { length given.now ≤ 65536 }
    requires sides { AreGridsOf (image_list given.now).channels grids.items }
    ensures { IfOk result (λ i. IsCodedImage S.to_int S.width (image_transforms i.transforms.items)
        (image_list given.now) (store_meanings S.to_int grids.items) i.channels i.store.items) }
{
    let first = untransformed(alloc, given, grids)?;
    let indexed = with_palettes(alloc, first, plan.palettes)?;
    let Some(kind) = plan.colour else {
        return Ok(indexed);
    };
    let image = with_colour(alloc, indexed, kind)?;
    Ok(image)
}

impl<S: Sample> CodedImage<S> {
    /// The channels of a part, and where they lie in the store. It takes memory for them alone.
    pub fn part(
        &self,
        alloc: Global,
        group_dim: u32,
        passes: &[Pass],
        part: SectionPart,
    ) -> Result<Vec<PlacedChannel>, OutOfMemory>
        requires group_dim { IsGroupDim group_dim }
        requires lie { LieCoded self.now.channels self.now.store.items }
        ensures { IfOk result (λ v. IsPartIn S.to_int group_dim passes.now self.now.channels self.now.store.items part
            v.items) }
    {
        pieces(alloc, &self.channels, group_dim, passes, part)
    }
}
