//! Channels of an image as palettes code them.

ghost use Rattle.std.specs.Prelude.{◌≡◌, ◌+◌, ◌<◌, ◌≤◌, ◌++◌, [], ◌∷◌, ℕ, IfOk, IsTrue, length, slice_set};
ghost use Rattle.std.specs.Option.{IfSome};
ghost use Rattle.jxl_encode_image.specs.Inner.Placing.{GoesOnTo, IsPaletteAt, LieAlone, LiesWhole, region_at};

use crate::image::{CodedImage, LAST_BEGIN, MOST_TRANSFORMS, placed_after, with_transform};
use crate::palette::{PaletteGrids, palette_of};
use crate::transform::{ImageTransform, PalettePlan};
use jxlm_base::grid::{AlignedGrid, OutOfMemory, Region};
use jxlm_base::sample::Sample;
use jxlm_chain::placed::PlacedChannels;
use jxlm_transform::channels::ModularChannels;
use std::alloc::Global;

// Whether this number of elements from `begin` on are there among `many`.
fn is_range(begin: usize, count: usize, many: usize) -> bool
    ensures { IsTrue result → begin + count ≤ many }
{
    begin <= many && count <= many - begin
}

// Where a channel lies.
fn region_of(channels: &ModularChannels, number: usize) -> Region
    requires { number < length channels.now.placed.items }
    ensures { result ≡ region_at channels.now number }
{
    channels.placed[number].region
}

// Whether the region is the whole of this buffer.
fn is_whole<S: Sample>(region: Region, buffer: usize, store: &[AlignedGrid<S>]) -> bool
    requires { buffer < length store.now }
    ensures { IsTrue result → LiesWhole region buffer store.now }
{
    if region.buffer != buffer || region.x != 0 || region.y != 0 {
        return false;
    }
    if region.width != store[buffer].width() || region.height != store[buffer].height() {
        return false;
    }
    true
}

// Whether these channels are the whole of these buffers.
fn are_whole<S: Sample>(
    channels: &ModularChannels,
    begin: usize,
    first: usize,
    count: usize,
    store: &[AlignedGrid<S>],
) -> bool
    requires there { begin + count ≤ length channels.now.placed.items }
    requires taken { first + count ≤ length store.now }
    ensures { IsTrue result → (k : ℕ) → k < count → LiesWhole (region_at channels.now (begin + k)) (first + k) store.now }
{
    for k in 0..count {
        if !is_whole(region_of(channels, begin + k), first + k, store) {
            return false;
        }
    }
    true
}

// The palette that a plan asks for, if the channels of an image are whole buffers, their colours are few, and a header can spell
// it after the transforms of the image.
fn palette_in<S: Sample>(
    alloc: Global,
    image: &CodedImage<S>,
    plan: PalettePlan,
) -> Result<Option<PaletteGrids<S>>, OutOfMemory>
    ensures is { IfOk result (λ o. IfSome o (λ p. IsPaletteAt S.to_int S.width image.now.channels image.now.store.items
        plan.first plan.count p.palette p.table p.index)) }
    ensures few { IfOk result (λ o. IfSome o (λ _. length image.now.transforms.items < 273)) }
{
    let begin = image.channels.nb_meta_channels.saturating_add(plan.first);
    let (channels, grids) = (image.channels.placed.len(), image.store.len());
    if begin > LAST_BEGIN || image.transforms.len() >= MOST_TRANSFORMS {
        return Ok(None);
    }
    if !is_range(begin, plan.count, channels) || !is_range(plan.first, plan.count, grids) {
        return Ok(None);
    }
    if !are_whole(&image.channels, begin, plan.first, plan.count, &image.store) {
        return Ok(None);
    }
    let range = &image.store[plan.first..plan.first + plan.count];
    let coding = palette_of(alloc, range, begin as u32, plan.order, plan.most)?;
    Ok(coding)
}

// The grids and after them the table, with these indices in place of grid `first`.
fn coded_store<S: Sample>(
    grids: Vec<AlignedGrid<S>>,
    first: usize,
    table: AlignedGrid<S>,
    index: AlignedGrid<S>,
) -> Result<Vec<AlignedGrid<S>>, OutOfMemory>
    requires { first < length grids.items }
    ensures { IfOk result (λ v. v.items ≡ slice_set (grids.items ++ table ∷ []) first index) }
{
    let mut store = grids;
    store.push(table)?;
    store[first] = index;
    Ok(store)
}

// The image after the palette that a plan asks for as well, if there is one.
fn with_palette<S: Sample>(
    alloc: Global,
    image: CodedImage<S>,
    plan: PalettePlan,
) -> Result<CodedImage<S>, OutOfMemory>
    requires { LieAlone image.channels image.store.items }
    ensures lie { IfOk result (λ i. LieAlone i.channels i.store.items) }
    ensures goes { IfOk result (λ i. GoesOnTo S.to_int S.width image.channels image.store.items image.transforms.items
        i.channels i.store.items i.transforms.items) }
{
    let found = palette_in(alloc, &image, plan)?;
    let Some(coding) = found else {
        return Ok(image);
    };
    let CodedImage {
        channels,
        store,
        transforms,
    } = image;
    let PaletteGrids {
        palette,
        table,
        index,
    } = coding;
    let transform = ImageTransform::Palette(palette);
    let placed = placed_after(alloc, channels, transform)?;
    let grids = coded_store(store, plan.first, table, index)?;
    let list = with_transform(transforms, transform)?;
    let PlacedChannels { channels, .. } = placed;
    Ok(CodedImage {
        channels,
        store: grids,
        transforms: list,
    })
}

/// The image after the palettes that these plans ask for, one after another.
pub(crate) fn with_palettes<S: Sample>(
    alloc: Global,
    image: CodedImage<S>,
    palettes: &[PalettePlan],
) -> Result<CodedImage<S>, OutOfMemory>
    requires { LieAlone image.channels image.store.items }
    ensures lie { IfOk result (λ i. LieAlone i.channels i.store.items) }
    ensures goes { IfOk result (λ i. GoesOnTo S.to_int S.width image.channels image.store.items image.transforms.items
        i.channels i.store.items i.transforms.items) }
{
    let mut image = image;
    for plan in palettes {
        image = with_palette(alloc, image, *plan)?;
    }
    Ok(image)
}
