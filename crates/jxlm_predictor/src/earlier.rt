//! The samples of earlier channels, in the row of the state's cell and in the row above.

ghost use Rattle.std.specs.Prelude.{◌≡◌, ◌+◌, ◌<◌, ◌≤◌, ℕ, pos, List, length, min, get_or, slice_index_or};
ghost use Rattle.std.specs.Int.{w32, int_wrap};
ghost use Rattle.jxlm_base.specs.Grid.{Grid, at};
ghost use Rattle.jxlm_base.specs.Regions.{Lies, grid_of, store_meanings};

use crate::state::PredictorState;
use jxlm_base::grid::{AlignedGrid, Region};
use jxlm_base::region::region_row;
use jxlm_base::sample::{Sample, Sealed};
use jxlm_weighted::reduced::{reduced, reduced_absolute};

/// A row of an earlier channel, and the row above it.
#[derive(Clone, Copy)]
pub struct EarlierRow<'s, S> {
    pub(crate) row: &'s [S],
    // The first row has none above; it stands here itself.
    pub(crate) above: &'s [S],
}

/// Rows of the nearest earlier channels: those of a cell, looked up once for all cells of a row.
#[derive(Drop)]
pub struct EarlierRows<'s, S> {
    pub(crate) rows: [EarlierRow<'s, S>; 4],
    pub(crate) count: usize,
    ghost few: { count ≤ 4 },
}

impl<'s, S: Sample> EarlierRow<'s, S> {
    ghost use Rattle.jxlm_predictor.specs.EarlierRows.{IsRowOf};
    ghost use Rattle.jxlm_predictor.specs.Properties.{earlier_properties};
    ghost use Rattle.jxlm_predictor.specs.Inner.Expected.{expected_in};

    // Row `y` of a region.
    pub(crate) fn of(store: &'s [AlignedGrid<S>], region: Region, y: usize) -> EarlierRow<'s, S>
        requires lies { Lies region store.now }
        requires in_rows { y < region.height }
        ensures { IsRowOf region store.now y result }
    {
        let row = region_row(store, region, y);
        let above = if y > 0 {
            region_row(store, region, y - 1)
        } else {
            row
        };
        EarlierRow { row, above }
    }

    // The properties of this channel in column `x` of row `y`: one of the four, by its number.
    #[inline]
    pub(crate) fn property(self, x: usize, y: usize, which: usize) -> i32
        requires column { x < length self.row.now }
        requires above { x < length self.above.now }
        requires few { which < 4 }
        ensures { (r : Region) (store : List (Grid S)) → IsRowOf r store y self.entry → result ≡ int_wrap w32
            (slice_index_or (earlier_properties (grid_of (store_meanings S.to_int store) r) x y) which (pos 0)) }
    {
        let cell = self.cell(x);
        match which {
            0 => reduced_absolute(cell),
            1 => cell,
            2 => reduced((cell as i64 - self.expected(x, y) as i64).abs()),
            _ => cell.wrapping_sub(self.expected(x, y)),
        }
    }

    // The same of the region's row, where it is not at hand. The call takes values alone.
    #[inline(never)]
    pub(crate) fn property_in(
        store: &'s [AlignedGrid<S>],
        region: Region,
        x: usize,
        y: usize,
        which: usize,
    ) -> i32
        requires lies { Lies region store.now }
        requires in_rows { y < region.height }
        requires column { x < region.width }
        requires few { which < 4 }
        ensures { result ≡ int_wrap w32 (slice_index_or
            (earlier_properties (grid_of (store_meanings S.to_int store.now) region) x y) which (pos 0)) }
    {
        EarlierRow::of(store, region, y).property(x, y, which)
    }

    #[inline]
    fn expected(self, x: usize, y: usize) -> i32
        requires column { x < length self.row.now }
        requires above { x < length self.above.now }
        ensures { (r : Region) (store : List (Grid S)) → IsRowOf r store y self.entry → result ≡ expected_in
            (grid_of (store_meanings S.to_int store) r) x y }
    {
        if x == 0 {
            self.expected_first(y)
        } else if y == 0 {
            self.cell(x - 1)
        } else {
            i32::grad_clamped(self.cell_above(x), self.cell(x - 1), self.cell_above(x - 1))
        }
    }

    // The same in the first column.
    fn expected_first(self, y: usize) -> i32
        requires { 0 < length self.above.now }
        ensures { (r : Region) (store : List (Grid S)) → IsRowOf r store y self.entry → result ≡ expected_in
            (grid_of (store_meanings S.to_int store) r) 0 y }
    {
        if y == 0 { 0 } else { self.cell_above(0) }
    }

    fn cell(self, x: usize) -> i32
        requires { x < length self.row.now }
        ensures { (r : Region) (store : List (Grid S)) (y : ℕ) → IsRowOf r store y self.entry → result ≡ at
            (grid_of (store_meanings S.to_int store) r) x y }
    {
        self.row[x].to_i32()
    }

    fn cell_above(self, x: usize) -> i32
        requires { x < length self.above.now }
        ensures { (r : Region) (store : List (Grid S)) (y : ℕ) → IsRowOf r store (y + 1) self.entry → result ≡ at
            (grid_of (store_meanings S.to_int store) r) x y }
    {
        self.above[x].to_i32()
    }
}

impl<'s, S: Sample> EarlierRows<'s, S> {
    ghost use Rattle.jxlm_predictor.specs.EarlierRows.{HoldRows, IsRowOf, held_rows};
    ghost use Rattle.jxlm_predictor.specs.Standing.{IsReady, earlier_count, earlier_held, row_of};

    /// The rows of the state's cell, of up to `most` of the nearest earlier channels, and of no more than four.
    pub fn of(
        state: &PredictorState<S>,
        store: &'s [AlignedGrid<S>],
        most: usize,
    ) -> EarlierRows<'s, S>
        requires { IsReady state.now store.now }
        ensures held { HoldRows state.now store.now (held_rows result) }
        ensures count { length (held_rows result) ≡ min (min most 4) (earlier_count state.now) }
    {
        let count = most.min(4).min(state.earlier.len());
        EarlierRows {
            rows: [
                EarlierRows::row_of(state, store, 0, count),
                EarlierRows::row_of(state, store, 1, count),
                EarlierRows::row_of(state, store, 2, count),
                EarlierRows::row_of(state, store, 3, count),
            ],
            count,
        }
    }

    // The row of the earlier channel of this number, where it is one of the first `count`.
    fn row_of(
        state: &PredictorState<S>,
        store: &'s [AlignedGrid<S>],
        nearer: usize,
        count: usize,
    ) -> EarlierRow<'s, S>
        requires ready { IsReady state.now store.now }
        requires there { count ≤ earlier_count state.now }
        ensures { (r : Region) → nearer < count → IsRowOf (get_or (earlier_held state.now) nearer r) store.now
            (row_of state.now) result }
    {
        if nearer < count {
            let region = state.earlier[state.earlier.len() - 1 - nearer];
            EarlierRow::of(store, region, state.y as usize)
        } else {
            EarlierRow {
                row: &[],
                above: &[],
            }
        }
    }

    /// The rows, of the nearest channel first.
    pub fn rows(&self) -> &[EarlierRow<'s, S>]
        ensures { result.now ≡ held_rows self.now }
    {
        &self.rows[..self.count]
    }
}
