//! Rows and columns of a rectangle unsqueezed.
ghost use Rattle.std.specs.Prelude.{◌≡◌, ℕ, ◌+◌, ◌-◌, ◌*◌, ◌/◌, ◌<◌, ◌≤◌, ◌⊎◌, length, slice_get, IfOk, IfErr, IsOk};
ghost use Rattle.jxlm_base.specs.Grid.{cell};
ghost use Rattle.jxlm_lanes.specs.Squeeze.{AreSamples};
ghost use Rattle.jxlm_base.specs.SqueezedGrids.{AreGridSamples, squeezed_rows, squeezed_columns};
ghost use Rattle.jxlm_base.specs.Subgrid.{whole, IsSamePlace, IsSameOutside, KeepsOutside, numbers_in};
ghost use Rattle.jxlm_lanes.specs.Pairs.{IsUnsqueezed};
ghost use Rattle.jxlm_base.specs.Inner.Unsqueeze.{row_in, column_in};

use crate::grid::OutOfMemory;
use crate::subgrid::MutableSubgrid;
use jxlm_kernels::lines::{Lines, Pairs, turn_back, turn_row, unsqueeze_row, unsqueeze_strip};
use std::alloc::Global;

/// Undoes row `y` of the rectangle, with `scratch`, which has room for a row.
fn undo_row<S: Pairs>(subgrid: &mut MutableSubgrid<'_, S>, y: usize, scratch: &mut [S])
    requires in_rows { y < subgrid.old.height }
    requires room { subgrid.old.width ≤ length scratch.old }
    ensures len { length scratch.new ≡ length scratch.old }
    ensures place { IsSamePlace subgrid.old subgrid.new }
    ensures cells { IsSameOutside subgrid.old.x (subgrid.old.y + y) subgrid.old.width 1 (whole subgrid.old)
        (whole subgrid.new) }
    ensures undone { IsUnsqueezed S.width subgrid.old.width (row_in S.to_int subgrid.old (whole subgrid.old) y)
        (row_in S.to_int subgrid.old (whole subgrid.new) y) }
    ensures samples { AreSamples S.width subgrid.old.width (row_in S.to_int subgrid.old (whole subgrid.old) y) }
{
    let width = subgrid.width();
    let row = &mut scratch[..width];
    unsqueeze_row(subgrid.cells(0, y, width), row);
    subgrid.write_cells(0, y, row);
}

/// Writes the lines of `strip`, but for the first, over `columns` columns from column `x` on.
#[tactic(auto, using(crate::proofs::RowWrites::line_within))]
fn write_strip<S: Copy>(subgrid: &mut MutableSubgrid<'_, S>, x: usize, columns: usize, strip: &[S])
    requires columns_inside { x + columns ≤ subgrid.old.width }
    requires room { (subgrid.old.height + 1) * columns ≤ length strip.now }
    ensures place { IsSamePlace subgrid.old subgrid.new }
    ensures cells { IsSameOutside (subgrid.old.x + x) subgrid.old.y columns subgrid.old.height (whole subgrid.old)
        (whole subgrid.new) }
    ensures written { (i j : ℕ) → i < subgrid.old.height → j < columns → cell (whole subgrid.new)
        (subgrid.old.x + x + j) (subgrid.old.y + i) ≡ slice_get strip.now (i * columns + columns + j) }
{
    for i in 0..subgrid.height() {
        let start = i * columns + columns;
        let line = &strip[start..start + columns];
        subgrid.write_cells(x, i, line);
    }
}

/// Undoes `columns` columns of the rectangle, from column `x` on, with `strip`.
fn undo_strip<S: Lines>(
    subgrid: &mut MutableSubgrid<'_, S>,
    x: usize,
    columns: usize,
    strip: &mut [S],
)
    requires columns_inside { x + columns ≤ subgrid.old.width }
    requires some_rows { 0 < subgrid.old.height }
    requires room { (subgrid.old.height + 1) * columns ≤ length strip.old }
    ensures len { length strip.new ≡ length strip.old }
    ensures place { IsSamePlace subgrid.old subgrid.new }
    ensures cells { IsSameOutside (subgrid.old.x + x) subgrid.old.y columns subgrid.old.height (whole subgrid.old)
        (whole subgrid.new) }
    ensures undone { (j : ℕ) → j < columns → IsUnsqueezed S.width subgrid.old.height
        (column_in S.to_int subgrid.old (whole subgrid.old) (x + j))
        (column_in S.to_int subgrid.old (whole subgrid.new) (x + j)) }
    ensures samples { (j : ℕ) → j < columns → AreSamples S.width subgrid.old.height
        (column_in S.to_int subgrid.old (whole subgrid.old) (x + j)) }
{
    let start = subgrid.start(x);
    unsqueeze_strip(
        subgrid.whole_cells(),
        start,
        subgrid.stride(),
        subgrid.height(),
        columns,
        strip,
    );
    write_strip(subgrid, x, columns, strip);
}

/// How many columns are undone at a time, if the scratch has room for them.
pub(crate) const COLUMNS: usize = 256;

/// Undoes each column of the rectangle, with `scratch`, which has room for a column and a cell more.
pub(crate) fn undo_columns<S: Lines>(subgrid: &mut MutableSubgrid<'_, S>, scratch: &mut [S])
    requires room { subgrid.old.height + 1 ≤ length scratch.old }
    ensures len { length scratch.new ≡ length scratch.old }
    ensures kept { KeepsOutside subgrid.old subgrid.new }
    ensures undone { squeezed_columns S.width (numbers_in S.to_int subgrid.new) ≡ numbers_in S.to_int subgrid.old }
    ensures samples { AreGridSamples S.width (numbers_in S.to_int subgrid.new) }
{
    let (width, height) = (subgrid.width(), subgrid.height());
    if height == 0 {
        return;
    }
    let most = (scratch.len() / (height + 1)).min(COLUMNS);
    let mut x = 0;
    while x < width {
        let columns = most.min(width - x);
        undo_strip(subgrid, x, columns, scratch);
        x += columns;
    }
}

/// Copies `rows` rows, from row `y` on, into `turned`: line `i` has sample `i` of each.
fn turn_rows<S: Copy>(subgrid: &MutableSubgrid<'_, S>, y: usize, rows: usize, turned: &mut [S])
    requires rows_inside { y + rows ≤ subgrid.now.height }
    requires room { subgrid.now.width * rows ≤ length turned.old }
    ensures len { length turned.new ≡ length turned.old }
    ensures turned { (i j : ℕ) → i < subgrid.now.width → j < rows → slice_get turned.new (i * rows + j)
        ≡ cell (whole subgrid.now) (subgrid.now.x + i) (subgrid.now.y + (y + j)) }
{
    let width = subgrid.width();
    for j in 0..rows {
        turn_row(subgrid.cells(0, y + j, width), turned, rows, j);
    }
}

/// Writes the lines of `strip`, but for the first, turned over `rows` rows from row `y` on. `row` is written over.
fn write_turned<S: Copy>(
    subgrid: &mut MutableSubgrid<'_, S>,
    y: usize,
    rows: usize,
    strip: &[S],
    row: &mut [S],
)
    requires rows_inside { y + rows ≤ subgrid.old.height }
    requires room { (subgrid.old.width + 1) * rows ≤ length strip.now }
    requires row { length row.old ≡ subgrid.old.width }
    ensures len { length row.new ≡ length row.old }
    ensures place { IsSamePlace subgrid.old subgrid.new }
    ensures cells { IsSameOutside subgrid.old.x (subgrid.old.y + y) subgrid.old.width rows (whole subgrid.old)
        (whole subgrid.new) }
    ensures written { (j i : ℕ) → j < rows → i < subgrid.old.width → cell (whole subgrid.new)
        (subgrid.old.x + i) (subgrid.old.y + y + j) ≡ slice_get strip.now (i * rows + rows + j) }
{
    for j in 0..rows {
        turn_back(strip, rows, j, row);
        subgrid.write_cells(0, y + j, row);
    }
}

/// Undoes `rows` rows of the rectangle, from row `y` on, turned, in `scratch`.
fn undo_turned<S: Lines>(
    subgrid: &mut MutableSubgrid<'_, S>,
    y: usize,
    rows: usize,
    scratch: &mut [S],
)
    requires some_columns { 0 < subgrid.old.width }
    requires some_rows { 0 < rows }
    requires rows_inside { y + rows ≤ subgrid.old.height }
    requires room { (subgrid.old.width + 1) * rows + (subgrid.old.width + 1) * rows ≤ length scratch.old }
    ensures len { length scratch.new ≡ length scratch.old }
    ensures place { IsSamePlace subgrid.old subgrid.new }
    ensures cells { IsSameOutside subgrid.old.x (subgrid.old.y + y) subgrid.old.width rows (whole subgrid.old)
        (whole subgrid.new) }
    ensures undone { (j : ℕ) → j < rows → IsUnsqueezed S.width subgrid.old.width
        (row_in S.to_int subgrid.old (whole subgrid.old) (y + j))
        (row_in S.to_int subgrid.old (whole subgrid.new) (y + j)) }
    ensures samples { (j : ℕ) → j < rows → AreSamples S.width subgrid.old.width
        (row_in S.to_int subgrid.old (whole subgrid.old) (y + j)) }
{
    let width = subgrid.width();
    let (turned, strip) = scratch.split_at_mut(width * rows);
    turn_rows(subgrid, y, rows, turned);
    unsqueeze_strip(turned, 0, rows, width, rows, strip);
    write_turned(subgrid, y, rows, strip, &mut turned[..width]);
}

/// How many rows are undone at a time, if the scratch has room for them.
pub(crate) const ROWS: usize = 32;

/// How many rows of `width` samples are undone at a time, turned, in a scratch of `room` samples: all or none.
fn turned_rows(width: usize, room: usize) -> usize
    ensures { 0 < result → (width + 1) * 32 + (width + 1) * 32 ≤ room }
{
    if width < room / (2 * ROWS) { ROWS } else { 0 }
}

/// Undoes some rows from row `y` on: several, turned, if there are as many and the scratch has room for them, else one.
/// Returns how many.
fn undo_some_rows<S: Lines>(
    subgrid: &mut MutableSubgrid<'_, S>,
    y: usize,
    scratch: &mut [S],
) -> usize
    requires in_rows { y < subgrid.old.height }
    requires some_columns { 0 < subgrid.old.width }
    requires room { subgrid.old.width ≤ length scratch.old }
    ensures some { 0 < result }
    ensures inside { y + result ≤ subgrid.old.height }
    ensures len { length scratch.new ≡ length scratch.old }
    ensures place { IsSamePlace subgrid.old subgrid.new }
    ensures cells { IsSameOutside subgrid.old.x (subgrid.old.y + y) subgrid.old.width result (whole subgrid.old)
        (whole subgrid.new) }
    ensures undone { (j : ℕ) → j < result → IsUnsqueezed S.width subgrid.old.width
        (row_in S.to_int subgrid.old (whole subgrid.old) (y + j))
        (row_in S.to_int subgrid.old (whole subgrid.new) (y + j)) }
    ensures samples { (j : ℕ) → j < result → AreSamples S.width subgrid.old.width
        (row_in S.to_int subgrid.old (whole subgrid.old) (y + j)) }
{
    let most = turned_rows(subgrid.width(), scratch.len());
    let rows = most.min(subgrid.height() - y);
    if rows < ROWS {
        undo_row(subgrid, y, scratch);
        return 1;
    }
    undo_turned(subgrid, y, ROWS, scratch);
    ROWS
}

/// Undoes each row of the rectangle, with `scratch`, which has room for a row.
pub(crate) fn undo_rows<S: Lines>(subgrid: &mut MutableSubgrid<'_, S>, scratch: &mut [S])
    requires room { subgrid.old.width ≤ length scratch.old }
    ensures len { length scratch.new ≡ length scratch.old }
    ensures kept { KeepsOutside subgrid.old subgrid.new }
    ensures undone { squeezed_rows S.width (numbers_in S.to_int subgrid.new) ≡ numbers_in S.to_int subgrid.old }
    ensures samples { AreGridSamples S.width (numbers_in S.to_int subgrid.new) }
{
    let (width, height) = (subgrid.width(), subgrid.height());
    if width == 0 {
        return;
    }
    let mut y = 0;
    while y < height {
        y += undo_some_rows(subgrid, y, scratch);
    }
}

/// How many cells the scratch of rows has, for a rectangle of these sides.
fn room_for_rows(width: usize, height: usize) -> Result<usize, OutOfMemory>
    requires { 0 < height }
    ensures { IfOk result (λ room. width ≤ room) }
{
    let rows = height.min(ROWS);
    let line = width.checked_add(1).ok_or(OutOfMemory)?;
    let one = line.checked_mul(2).ok_or(OutOfMemory)?;
    one.checked_mul(rows).ok_or(OutOfMemory)
}

/// Undoes each row of the rectangle. `OutOfMemory` if no memory is given; a rectangle without cells does not ask for
/// any.
pub(crate) fn rows<S: Lines>(
    alloc: Global,
    zero: S,
    subgrid: &mut MutableSubgrid<'_, S>,
) -> Result<(), OutOfMemory>
    ensures kept { KeepsOutside subgrid.old subgrid.new }
    ensures undone { IfOk result (λ _. squeezed_rows S.width (numbers_in S.to_int subgrid.new)
        ≡ numbers_in S.to_int subgrid.old) }
    ensures samples { IfOk result (λ _. AreGridSamples S.width (numbers_in S.to_int subgrid.new)) }
    ensures unchanged { IfErr result (λ _. whole subgrid.new ≡ whole subgrid.old) }
    ensures no_cells { (subgrid.old.width ≡ 0) ⊎ (subgrid.old.height ≡ 0) → IsOk result }
{
    if subgrid.is_empty() {
        return Ok(());
    }
    let room = room_for_rows(subgrid.width(), subgrid.height())?;
    let mut scratch = vec![in alloc; zero; room]?;
    undo_rows(subgrid, &mut scratch);
    Ok(())
}

/// How many cells the scratch of columns has, for a rectangle of these sides.
#[tactic(auto, using(jxlm_kernels::proofs::Strips::at_least))]
fn room_for_columns(width: usize, height: usize) -> Result<usize, OutOfMemory>
    requires { 0 < width }
    ensures { IfOk result (λ room. height + 1 ≤ room) }
{
    let columns = width.min(COLUMNS);
    let lines = height.checked_add(1).ok_or(OutOfMemory)?;
    lines.checked_mul(columns).ok_or(OutOfMemory)
}

/// Undoes each column of the rectangle. `OutOfMemory` if no memory is given; a rectangle without cells does not ask
/// for any.
pub(crate) fn columns<S: Lines>(
    alloc: Global,
    zero: S,
    subgrid: &mut MutableSubgrid<'_, S>,
) -> Result<(), OutOfMemory>
    ensures kept { KeepsOutside subgrid.old subgrid.new }
    ensures undone { IfOk result (λ _. squeezed_columns S.width (numbers_in S.to_int subgrid.new)
        ≡ numbers_in S.to_int subgrid.old) }
    ensures samples { IfOk result (λ _. AreGridSamples S.width (numbers_in S.to_int subgrid.new)) }
    ensures unchanged { IfErr result (λ _. whole subgrid.new ≡ whole subgrid.old) }
    ensures no_cells { (subgrid.old.width ≡ 0) ⊎ (subgrid.old.height ≡ 0) → IsOk result }
{
    if subgrid.is_empty() {
        return Ok(());
    }
    let room = room_for_columns(subgrid.width(), subgrid.height())?;
    let mut scratch = vec![in alloc; zero; room]?;
    undo_columns(subgrid, &mut scratch);
    Ok(())
}
