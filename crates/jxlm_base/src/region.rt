//! Reads and writes through regions of a store.
ghost use Rattle.std.specs.Prelude.{◌≡◌, ℕ, ◌+◌, ◌<◌, ◌≤◌, ◌++◌, Some, length, take, drop, slice_get};
ghost use Rattle.jxlm_base.specs.Outside.{SetsRow};
ghost use Rattle.jxlm_base.specs.Regions.{Lies, region_cell, with_region_cell};

use crate::grid::AlignedGrid;
use crate::subgrid::Region;

/// The cell in column `x` of row `y` of a region of the store.
pub fn region_get<S: Copy>(store: &[AlignedGrid<S>], region: Region, x: usize, y: usize) -> S
    requires lies { Lies region store.now }
    requires column { x < region.width }
    requires in_rows { y < region.height }
    ensures { region_cell store.now region x y ≡ Some result }
{
    let grid = &store[region.buffer];
    prove!(region.x < grid.width() && region.y < grid.height());
    grid.get(region.x + x, region.y + y)
}

/// Writes the cell in column `x` of row `y` of a region of the store.
pub fn region_set<S: Copy>(
    store: &mut [AlignedGrid<S>],
    region: Region,
    x: usize,
    y: usize,
    value: S,
)
    requires lies { Lies region store.old }
    requires column { x < region.width }
    requires in_rows { y < region.height }
    ensures { store.new ≡ with_region_cell store.old region x y value }
{
    let grid = &mut store[region.buffer];
    prove!(region.x < grid.width() && region.y < grid.height());
    *grid.get_mut(region.x + x, region.y + y) = value;
}

/// The cells of row `y` of a region of the store, from left to right.
pub fn region_row<S: Copy>(store: &[AlignedGrid<S>], region: Region, y: usize) -> &[S]
    requires lies { Lies region store.now }
    requires in_rows { y < region.height }
    ensures len { length result.now ≡ region.width }
    ensures cells { (x : ℕ) → x < region.width → region_cell store.now region x y ≡ slice_get result.now x }
{
    let grid = &store[region.buffer];
    prove!(region.x <= grid.width() && region.y < grid.height());
    &grid.get_row(region.y + y)[region.x..region.x + region.width]
}

/// Writes `values` over the cells from `start` on, below `end`.
fn write_between<S: Copy>(row: &mut [S], start: usize, end: usize, values: &[S])
    requires fits { start + length values.now ≡ end }
    requires inside { end ≤ length row.old }
    ensures { row.new ≡ take start row.old ++ (values.now ++ drop end row.old) }
{
    row[start..end].copy_from_slice(values);
}

/// Writes all cells of row `y` of a region of the store, from left to right.
pub fn region_set_row<S: Copy>(store: &mut [AlignedGrid<S>], region: Region, y: usize, values: &[S])
    requires lies { Lies region store.old }
    requires in_rows { y < region.height }
    requires fits { length values.now ≡ region.width }
    ensures { SetsRow region y values.now store.old store.new }
{
    let grid = &mut store[region.buffer];
    prove!(region.x <= grid.width() && region.y < grid.height());
    let row = grid.get_row_mut(region.y + y);
    write_between(row, region.x, region.x + region.width, values);
}
