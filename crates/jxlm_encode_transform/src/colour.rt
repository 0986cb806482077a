//! ColourRegions of three regions coded in place (ISO/IEC 18181-1, Modular: reversible colour transforms).

ghost use Rattle.std.specs.Prelude.{◌≡◌, ℕ, ◌*◌, ◌<◌, ◌≤◌, length, get_or};
ghost use Rattle.std.specs.List.{All};
ghost use Rattle.jxlm_base.specs.Grid.{IsFull};
ghost use Rattle.jxlm_base.specs.Outside.{KeepsOutside};
ghost use Rattle.jxlm_transform.specs.Layout.{no_region};
ghost use Rattle.jxlm_chain.specs.Steps.{CanUndo};
ghost use Rattle.jxlm_chain.specs.Undo.{UndoRct, Undoes};
ghost use Rattle.jxlm_encode_transform.specs.Inner.Coded.{AreThree, CodedUntil, CodesRow};

use crate::colour_rows::code_rows;
use jxlm_base::grid::{AlignedGrid, Region};
use jxlm_base::region::{region_row, region_set_row};
use jxlm_base::sample::Sample;
use jxlm_inverse::rct::ColourRegions;

/// Codes row `y` of each of three regions. The rows lent are written over.
fn code_row<S: Sample>(
    kind: u32,
    store: &mut [AlignedGrid<S>],
    regions: ColourRegions,
    y: usize,
    a: &mut [S],
    b: &mut [S],
    c: &mut [S],
)
    requires three { AreThree regions.first regions.second regions.third store.old }
    requires in_rows { y < regions.first.height }
    requires first_length { length a.old ≡ regions.first.width }
    requires second_length { length b.old ≡ regions.first.width }
    requires third_length { length c.old ≡ regions.first.width }
    ensures first_length { length a.new ≡ regions.first.width }
    ensures second_length { length b.new ≡ regions.first.width }
    ensures third_length { length c.new ≡ regions.first.width }
    ensures coded { CodesRow regions.first regions.second regions.third S.to_int S.width kind y store.old store.new }
{
    code_rows(
        kind,
        region_row(store, regions.first, y),
        region_row(store, regions.second, y),
        region_row(store, regions.third, y),
        a,
        b,
        c,
    );
    region_set_row(store, regions.first, y, a);
    region_set_row(store, regions.second, y, b);
    region_set_row(store, regions.third, y, c);
}

/// Codes three regions, row by row. The rows lent are written over.
fn code_regions<S: Sample>(
    kind: u32,
    store: &mut [AlignedGrid<S>],
    regions: ColourRegions,
    a: &mut [S],
    b: &mut [S],
    c: &mut [S],
)
    requires three { AreThree regions.first regions.second regions.third store.old }
    requires first_length { length a.old ≡ regions.first.width }
    requires second_length { length b.old ≡ regions.first.width }
    requires third_length { length c.old ≡ regions.first.width }
    ensures { CodedUntil regions.first regions.second regions.third S.to_int S.width kind regions.first.height
        store.old store.new }
{
    for y in 0..regions.first.height {
        code_row(kind, store, regions, y, a, b, c);
    }
}

/// Codes the colours of three regions, with `scratch`, which has room for three rows. No other cell changes.
pub(crate) fn code<S: Sample>(
    kind: u32,
    store: &mut [AlignedGrid<S>],
    regions: [Region; 3],
    scratch: &mut [S],
)
    requires can { CanUndo store.old (UndoRct kind regions) }
    requires full { All IsFull store.old }
    requires room { (get_or regions 0 no_region).width * 3 ≤ length scratch.old }
    ensures undone { (depth : ℕ) → Undoes S.to_int S.width depth (UndoRct kind regions) store.new store.old }
    ensures keeps { KeepsOutside regions store.old store.new }
{
    let [first, second, third] = regions;
    let width = first.width;
    let (a, rest) = scratch.split_at_mut(width);
    let (b, rest) = rest.split_at_mut(width);
    let c = &mut rest[..width];
    let regions = ColourRegions {
        first,
        second,
        third,
    };
    code_regions(kind, store, regions, a, b, c);
}
