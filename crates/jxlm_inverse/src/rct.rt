//! The colour of three channels, inverse-transformed.

ghost use Rattle.std.specs.Prelude.{◌≡◌, ◌+◌, ◌*◌, ◌<◌, ◌≤◌, length, map, get_or, IfOk, IfErr, OnOk, OnErr};
ghost use Rattle.jxlm_lanes.specs.Colour.{permute, triple_at};
ghost use Rattle.jxlm_bits.specs.ErrorKind.{NoMemory, kind_of};
ghost use Rattle.jxlm_base.specs.Outside.{KeepsOutside};
ghost use Rattle.jxlm_base.specs.Regions.{AllLie, LieApart, region, store_meanings};
ghost use Rattle.jxlm_inverse.specs.ColourRows.{HasRoom, KeepsRoom};
ghost use Rattle.jxlm_inverse.specs.Inner.ColourRows.{AreThree, PutsRow, FinishesRow, FinishedUntil};
ghost use Rattle.jxlm_inverse.specs.Recoloured.{HaveOneSize, UndoesColour};

use jxlm_base::grid::{AlignedGrid, OutOfMemory, Region};
use jxlm_base::region::{region_row, region_set_row};
use jxlm_base::sample::{Sample, Sealed};
use jxlm_bits::error;
use std::alloc::Global;

/// Room for one row of each of three channels.
#[derive(Drop)]
pub struct RctScratch<S> {
    first: Vec<S>,
    second: Vec<S>,
    third: Vec<S>,
}

impl<S: Sample> RctScratch<S> {
    /// Room for rows of up to `width` samples, or `OutOfMemory`.
    pub fn new(alloc: Global, width: usize) -> Result<RctScratch<S>, OutOfMemory>
        ensures { IfOk result (λ s. HasRoom s width) }
    {
        Ok(RctScratch {
            first: vec![in alloc; S::default(); width]?,
            second: vec![in alloc; S::default(); width]?,
            third: vec![in alloc; S::default(); width]?,
        })
    }
}

/// The regions of three channels.
#[derive(Clone, Copy)]
pub struct ColourRegions {
    /// That of the first channel.
    pub first: Region,
    /// That of the second one.
    pub second: Region,
    /// That of the third one.
    pub third: Region,
}

/// How the colours of a transform are formed, and in which order they are.
#[derive(Clone, Copy)]
struct RctKind {
    ty: u32,
    permutation: u32,
}

/// Writes row `y` of each of three regions.
fn write_rows<S: Sample>(
    store: &mut [AlignedGrid<S>],
    regions: ColourRegions,
    y: usize,
    a: &[S],
    b: &[S],
    c: &[S],
)
    requires three { AreThree regions.first regions.second regions.third store.old }
    requires in_rows { y < regions.first.height }
    requires first_length { length a.now ≡ regions.first.width }
    requires second_length { length b.now ≡ regions.first.width }
    requires third_length { length c.now ≡ regions.first.width }
    ensures { PutsRow regions.first regions.second regions.third S.to_int y
        (triple_at (map S.to_int a.now) (map S.to_int b.now) (map S.to_int c.now)) store.old store.new }
{
    region_set_row(store, regions.first, y, a);
    region_set_row(store, regions.second, y, b);
    region_set_row(store, regions.third, y, c);
}

/// Writes row `y` of each of three regions, in the order that the permutation names.
fn write_permuted<S: Sample>(
    permutation: u32,
    store: &mut [AlignedGrid<S>],
    regions: ColourRegions,
    y: usize,
    a: &[S],
    b: &[S],
    c: &[S],
)
    requires three { AreThree regions.first regions.second regions.third store.old }
    requires in_rows { y < regions.first.height }
    requires first_length { length a.now ≡ regions.first.width }
    requires second_length { length b.now ≡ regions.first.width }
    requires third_length { length c.now ≡ regions.first.width }
    ensures { PutsRow regions.first regions.second regions.third S.to_int y (λ x. permute permutation
        (triple_at (map S.to_int a.now) (map S.to_int b.now) (map S.to_int c.now) x)) store.old store.new }
{
    match permutation {
        1 => write_rows(store, regions, y, c, a, b),
        2 => write_rows(store, regions, y, b, c, a),
        3 => write_rows(store, regions, y, a, c, b),
        4 => write_rows(store, regions, y, b, a, c),
        5 => write_rows(store, regions, y, c, b, a),
        _ => write_rows(store, regions, y, a, b, c),
    }
}

/// Finishes row `y` of each of three regions. The rows lent are written over.
fn finish_row<S: Sample>(
    kind: RctKind,
    store: &mut [AlignedGrid<S>],
    regions: ColourRegions,
    y: usize,
    a: &mut [S],
    b: &mut [S],
    c: &mut [S],
)
    requires kind { kind.ty ≤ 6 }
    requires three { AreThree regions.first regions.second regions.third store.old }
    requires in_rows { y < regions.first.height }
    requires first_length { length a.old ≡ regions.first.width }
    requires second_length { length b.old ≡ regions.first.width }
    requires third_length { length c.old ≡ regions.first.width }
    ensures { FinishesRow regions.first regions.second regions.third S.to_int S.width kind.ty kind.permutation y
        store.old store.new }
{
    a.copy_from_slice(region_row(store, regions.first, y));
    b.copy_from_slice(region_row(store, regions.second, y));
    c.copy_from_slice(region_row(store, regions.third, y));
    S::rct_rows(kind.ty, a, b, c);
    write_permuted(kind.permutation, store, regions, y, a, b, c);
}

/// Finishes three regions, row by row. The rows lent are written over.
fn finish_regions<S: Sample>(
    kind: RctKind,
    store: &mut [AlignedGrid<S>],
    regions: ColourRegions,
    a: &mut [S],
    b: &mut [S],
    c: &mut [S],
)
    requires kind { kind.ty ≤ 6 }
    requires three { AreThree regions.first regions.second regions.third store.old }
    requires first_length { length a.old ≡ regions.first.width }
    requires second_length { length b.old ≡ regions.first.width }
    requires third_length { length c.old ≡ regions.first.width }
    ensures { FinishedUntil regions.first regions.second regions.third S.to_int S.width kind.ty kind.permutation
        regions.first.height store.old store.new }
{
    for y in 0..regions.first.height {
        finish_row(kind, store, regions, y, a, b, c);
    }
}

/// Undoes a colour transform of three regions, in memory that is lent (ISO/IEC 18181-1, Modular: reversible colour
/// transforms).
///
/// The type of the transform is 7 times `permutation` and `ty` more, with `ty` at most 6. The regions lie in the
/// store, share no cell and have one size. Afterwards they hold the samples that this transform codes as what they
/// held before; no other cell changed.
pub fn inverse_rct_within<S: Sample>(
    ty: u32,
    permutation: u32,
    store: &mut [AlignedGrid<S>],
    regions: [Region; 3],
    scratch: &mut RctScratch<S>,
)
    requires kind { ty ≤ 6 }
    requires lie { AllLie regions store.old }
    requires apart { LieApart regions }
    requires sizes { HaveOneSize regions }
    requires room { HasRoom scratch.old (get_or regions 0 (region 0 0 0 0 0)).width }
    ensures colour { UndoesColour S.width (permutation * 7 + ty) regions (store_meanings S.to_int store.old)
        (store_meanings S.to_int store.new) }
    ensures keeps { KeepsOutside regions store.old store.new }
    ensures room { KeepsRoom scratch.old scratch.new }
{
    let [first, second, third] = regions;
    let a = scratch.first.slice_mut(0..first.width);
    let b = scratch.second.slice_mut(0..first.width);
    let c = scratch.third.slice_mut(0..first.width);
    let kind = RctKind { ty, permutation };
    let regions = ColourRegions {
        first,
        second,
        third,
    };
    finish_regions(kind, store, regions, a, b, c);
}

/// Undoes a colour transform of three regions (ISO/IEC 18181-1, Modular: reversible colour transforms).
///
/// The type of the transform is 7 times `permutation` and `TYPE` more, with `TYPE` at most 6. The regions lie in the
/// store, share no cell and have one size. Afterwards they hold the samples that this transform codes as what they
/// held before; no other cell changed.
///
/// # Errors
///
/// `Buffer` if it is out of memory, and no other: it takes memory for three rows before it writes, and then no cell
/// has changed.
pub fn inverse_rct<S: Sample, const TYPE: u32>(
    alloc: Global,
    permutation: u32,
    store: &mut [AlignedGrid<S>],
    regions: [Region; 3],
) -> error::Result<()>
    requires kind { TYPE ≤ 6 }
    requires lie { AllLie regions store.old }
    requires apart { LieApart regions }
    requires sizes { HaveOneSize regions }
    ensures colour { OnOk result (UndoesColour S.width (permutation * 7 + TYPE) regions
        (store_meanings S.to_int store.old) (store_meanings S.to_int store.new)) }
    ensures keeps { OnOk result (KeepsOutside regions store.old store.new) }
    ensures memory { IfErr result (λ e. kind_of e ≡ NoMemory) }
    ensures unchanged { OnErr result (store.new ≡ store.old) }
{
    let mut scratch = RctScratch::new(alloc, regions[0].width)?;
    inverse_rct_within(TYPE, permutation, store, regions, &mut scratch);
    Ok(())
}
