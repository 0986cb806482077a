//! Grids of samples.
ghost use Rattle.std.specs.Prelude.{◌≡◌, ◌+◌, ◌+ℤ◌, ◌*◌, ◌^◌, ◌<◌, ◌≤◌, pos, length, replicate, IfOk, IsOk, Some, vec_len};
ghost use Rattle.std.specs.Int.{int_wrap};
ghost use Rattle.std.specs.Borrow.{sem};
ghost use Rattle.std.specs.Iterator.{YieldsFirstRef, item_count};
ghost use Rattle.jxlm_base.specs.Grid.{Grid, IsFull, cell, row, written, filled, with_cell, with_row};

use crate::sample::Sealed;
pub use crate::subgrid::{MutableSubgrid, Region};
pub use jxlm_bits::error::OutOfMemory;
use std::alloc::Global;
use std::marker::Model;

/// This number of zeros. Memory is asked for once, and written by pieces, each of which is in the nearest cache.
fn zeros<S: Sealed>(alloc: Global, count: usize) -> Result<Vec<S>, OutOfMemory>
    ensures { IfOk result (λ v. v.items ≡ replicate count (S.from_int (pos 0))) }
{
    let zero = S::default();
    let mut cells = Vec::with_capacity(alloc, count)?;
    for _ in 0..count / 256 {
        cells.resize(cells.len() + 256, zero)?;
    }
    cells.resize(count, zero)?;
    Ok(cells)
}

/// A grid of cells, in columns from left to right and rows from top to bottom, both counted from 0.
///
/// Contracts see its size and its cells, row by row.
#[derive(Drop)]
pub struct AlignedGrid<S> {
    width: usize,
    height: usize,
    cells: Vec<S>,
}

impl<S> Model for AlignedGrid<S> {
    ghost use Rattle.std.specs.Prelude.{◌≡◌, ◌*◌, vec_len};
    ghost use Rattle.jxlm_base.specs.Grid.{Grid, grid, grid_code};

    ghost Value = { Grid S };

    ghost coded = { grid_code S.code };

    ghost view = { λ g. grid g.width g.height g.cells.items };

    ghost invariant = { λ g. vec_len g.cells ≡ g.width * g.height };
}

impl<S: Sealed> AlignedGrid<S> {
    /// A grid of `width` columns and `height` rows, whose cells are 0.
    ///
    /// Memory is asked for once; without cells none is. `OutOfMemory` if it is not given, or if there are more cells
    /// than a `usize` counts.
    pub fn new(alloc: Global, width: usize, height: usize) -> Result<Self, OutOfMemory>
        ensures zero { IfOk result (λ g. g ≡ filled width height (S.from_int (pos 0))) }
        ensures full { IfOk result (λ g. IsFull g) }
        ensures counted { IfOk result (λ _. width * height < 2 ^ 64) }
        ensures no_cells { width * height ≡ 0 → IsOk result }
    {
        let Some(count) = width.checked_mul(height) else {
            return Err(OutOfMemory);
        };
        let cells = if count == 0 {
            Vec::new(alloc)
        } else {
            zeros(alloc, count)?
        };
        Ok(AlignedGrid {
            width,
            height,
            cells,
        })
    }

    /// A grid of the same cells, or `OutOfMemory`. Without cells no memory is asked for.
    pub fn try_clone(&self, alloc: Global) -> Result<Self, OutOfMemory>
        ensures same { IfOk result (λ g. g ≡ self.now) }
        ensures no_cells { self.now.width * self.now.height ≡ 0 → IsOk result }
    {
        let cells = if self.cells.is_empty() {
            Vec::new(alloc)
        } else {
            Vec::from_slice(alloc, &self.cells)?
        };
        Ok(AlignedGrid {
            width: self.width,
            height: self.height,
            cells,
        })
    }
}

impl<S: Copy> AlignedGrid<S> {
    ghost use Rattle.jxlm_base.specs.GridLends.{LendsCell, LendsRow};
    ghost use Rattle.jxlm_base.specs.GridRows.{rows_left, all_rows};

    /// How many columns there are. Each of them has a cell in each row.
    pub fn width(&self) -> usize
        ensures value { result ≡ self.now.width }
        ensures full { IsFull self.now }
    {
        self.width
    }

    /// How many rows there are. Each of them has a cell in each column.
    pub fn height(&self) -> usize
        ensures value { result ≡ self.now.height }
        ensures full { IsFull self.now }
    {
        self.height
    }

    /// The cell in column `x` of row `y`, which lie inside.
    pub fn get(&self, x: usize, y: usize) -> S
        requires column { x < self.now.width }
        requires in_rows { y < self.now.height }
        ensures { cell self.now x y ≡ Some result }
    {
        self.cells[y * self.width + x]
    }

    /// The cell in column `x` of row `y`, which lie inside, to be written. No other cell changes.
    pub fn get_mut(&mut self, x: usize, y: usize) -> &mut S
        requires column { x < self.old.width }
        requires in_rows { y < self.old.height }
        ensures* writes_back { sem 𝓛 (LendsCell S.row self.entry x y result) }
        ensures value { cell self.old x y ≡ Some result.now }
    {
        &mut self.cells[y * self.width + x]
    }

    /// The cells of row `y`, which lies inside, from left to right.
    pub fn get_row(&self, y: usize) -> &[S]
        requires { y < self.now.height }
        ensures value { result.now ≡ row self.now y }
        ensures len { length result.now ≡ self.now.width }
    {
        let start = y * self.width;
        &self.cells[start..start + self.width]
    }

    /// All cells, row after row: that in column `x` of row `y` has the index `y * width + x`.
    pub fn buf(&self) -> &[S]
        ensures value { result.now ≡ self.now.cells }
        ensures full { IsFull self.now }
    {
        &self.cells
    }

    /// The rows, from top to bottom, each with its cells from left to right: as many as `height` says, also where
    /// they have no cells.
    pub fn rows(&self) -> Rows<'_, S>
        ensures { rows_left result ≡ all_rows self.now }
    {
        Rows {
            grid: self,
            next: 0,
        }
    }

    /// Writes `cells` into row `y`, from column `x` on; all of them lie inside.
    pub(crate) fn write_cells(&mut self, x: usize, y: usize, cells: &[S])
        requires columns { x + length cells.now ≤ self.old.width }
        requires in_rows { y < self.old.height }
        ensures { self.new ≡ with_row self.old y (written (row self.old y) x cells.now) }
    {
        let row = self.get_row_mut(y);
        let part = &mut row[x..x + cells.len()];
        part.copy_from_slice(cells);
    }

    /// The cells of row `y`, which lies inside, from left to right, to be written. No other row changes.
    pub fn get_row_mut(&mut self, y: usize) -> &mut [S]
        requires { y < self.old.height }
        ensures* writes_back { sem 𝓛 (LendsRow S.row self.entry y result) }
        ensures value { result.now ≡ row self.old y }
        ensures len { length result.now ≡ self.old.width }
    {
        let start = y * self.width;
        self.cells.slice_mut(start..start + self.width)
    }
}

/// The rows of a grid, from top to bottom, each with its cells from left to right.
#[derive(Drop)]
pub struct Rows<'a, S> {
    grid: &'a AlignedGrid<S>,
    next: usize,
}

impl<'a, S: Copy> Iterator for Rows<'a, S> {
    ghost use Rattle.jxlm_base.specs.GridRows.{rows_left};

    type Item = &'a [S];

    ghost next_gives = { YieldsFirstRef rows_left };

    ghost remaining = { item_count rows_left };

    fn next(&mut self) -> Option<&'a [S]> {
        let y = self.next;
        if y >= self.grid.height() {
            return None;
        }
        self.next = y + 1;
        Some(self.grid.get_row(y))
    }

    fn size_hint(&self) -> (usize, Option<usize>) {
        let left = self.grid.height().saturating_sub(self.next);
        (left, Some(left))
    }
}
