//! Rectangles of grids.
ghost use Rattle.std.specs.Prelude.{◌≡◌, ◌↔◌, ◌⊎◌, ◌+◌, ◌*◌, ◌^◌, ◌<◌, ◌≤◌, IsTrue, Some, length, slice_range};
ghost use Rattle.jxlm_base.specs.Grid.{Grid, IsFull, cell, row, written, with_row};

use crate::grid::AlignedGrid;

/// A rectangle of one grid of a store.
#[derive(Clone, Copy, PartialEq, Eq)]
pub struct Region {
    /// The index of the grid in the store, from 0 on.
    pub buffer: usize,
    /// The rectangle's first column.
    pub x: usize,
    /// The rectangle's first row.
    pub y: usize,
    /// How many columns it has.
    pub width: usize,
    /// How many rows it has.
    pub height: usize,
}

/// One grid borrowed for writing, and a rectangle inside it.
#[derive(Drop)]
pub struct MutableSubgrid<'a, S> {
    grid: &'a mut AlignedGrid<S>,
    x: usize,
    y: usize,
    width: usize,
    height: usize,
    ghost full: { IsFull grid.now },
    ghost columns_inside: { x + width ≤ grid.now.width },
    ghost rows_inside: { y + height ≤ grid.now.height },
    ghost columns_fit: { x + width < 2 ^ 64 },
    ghost rows_fit: { y + height < 2 ^ 64 },
}

/// Where column `x` of row `y` is among cells that stand row by row.
fn place_in<S>(cells: &[S], stride: usize, x: usize, y: usize) -> usize
    requires { y * stride + x ≤ length cells.now }
    ensures { result ≡ y * stride + x }
{
    y * stride + x
}

impl<'a, S: Copy> MutableSubgrid<'a, S> {
    ghost use Rattle.jxlm_base.specs.Subgrid.{whole, loan, IsAt, IsSamePlace};

    /// The rectangle of `width` columns and `height` rows whose first cell is in column `x` of row `y`; it lies
    /// inside.
    ///
    /// The grid is as before.
    pub fn new(
        grid: &'a mut AlignedGrid<S>,
        x: usize,
        y: usize,
        width: usize,
        height: usize,
    ) -> MutableSubgrid<'a, S>
        requires columns { x + width ≤ grid.old.width }
        requires in_rows { y + height ≤ grid.old.height }
        ensures borrowed { loan result ≡ grid.entry.ghost_name }
        ensures unchanged { whole result ≡ grid.old }
        ensures at { IsAt result x y width height }
    {
        prove!(x <= grid.width() && y <= grid.height());
        MutableSubgrid {
            grid,
            x,
            y,
            width,
            height,
        }
    }

    /// How many columns the rectangle has.
    pub fn width(&self) -> usize
        ensures { result ≡ self.now.width }
    {
        self.width
    }

    /// How many rows the rectangle has.
    pub fn height(&self) -> usize
        ensures { result ≡ self.now.height }
    {
        self.height
    }

    /// Whether the rectangle has no cells.
    pub(crate) fn is_empty(&self) -> bool
        ensures { IsTrue result ↔ (self.now.width ≡ 0) ⊎ (self.now.height ≡ 0) }
    {
        self.width == 0 || self.height == 0
    }

    /// The `count` cells of row `y` of the rectangle from column `x` on, which lie inside.
    pub(crate) fn cells(&self, x: usize, y: usize, count: usize) -> &[S]
        requires columns { x + count ≤ self.now.width }
        requires in_rows { y < self.now.height }
        ensures value { result.now ≡ slice_range (row (whole self.now) (self.now.y + y)) (self.now.x + x)
            (self.now.x + x + count) }
        ensures len { length result.now ≡ count }
    {
        let start = self.x + x;
        &self.grid.get_row(self.y + y)[start..start + count]
    }

    /// The cells of the whole grid, row by row.
    pub(crate) fn whole_cells(&self) -> &[S]
        ensures { result.now ≡ (whole self.now).cells }
    {
        self.grid.buf()
    }

    /// How many cells of the whole grid a row has.
    pub(crate) fn stride(&self) -> usize
        ensures { result ≡ (whole self.now).width }
    {
        self.grid.width()
    }

    /// Where column `x` of the first row is among the cells of the whole grid.
    pub(crate) fn start(&self, x: usize) -> usize
        requires columns { x ≤ self.now.width }
        requires some_rows { 0 < self.now.height }
        ensures { result ≡ self.now.y * (whole self.now).width + self.now.x + x }
    {
        let stride = self.grid.width();
        place_in(self.grid.buf(), stride, self.x + x, self.y)
    }

    /// Writes `cells` into row `y` of the rectangle, from column `x` on; all of them lie inside.
    pub(crate) fn write_cells(&mut self, x: usize, y: usize, cells: &[S])
        requires columns { x + length cells.now ≤ self.old.width }
        requires in_rows { y < self.old.height }
        ensures place { IsSamePlace self.old self.new }
        ensures written { whole self.new ≡ with_row (whole self.old) (self.old.y + y)
            (written (row (whole self.old) (self.old.y + y)) (self.old.x + x) cells.now) }
    {
        self.grid.write_cells(self.x + x, self.y + y, cells);
    }

    /// The cell in column `x` of row `y` of the rectangle, which lie inside it; both are counted from its first cell.
    pub fn get(&self, x: usize, y: usize) -> S
        requires column { x < self.now.width }
        requires in_rows { y < self.now.height }
        ensures { cell (whole self.now) (self.now.x + x) (self.now.y + y) ≡ Some result }
    {
        self.grid.get(self.x + x, self.y + y)
    }
}
