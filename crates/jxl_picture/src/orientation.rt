//! Pictures as they are shown: as they were coded, mirrored or turned.

ghost use Rattle.std.specs.Prelude.{◌≡◌, ◌==◌, ◌||◌, ◌<◌, ℕ, IfOk, length, slice_get, if◌then◌else◌};
ghost use Rattle.std.specs.List.{AllZip};
ghost use Rattle.jxlm_base.specs.Grid.{cell};
ghost use Rattle.jxl_picture.specs.Inner.Cells.{column_of as the_column, row_of as the_row};
ghost use Rattle.jxl_picture.specs.Orientations.{AreUndone, IsOriented, is_turned as turned, place_counted as the_counted, shown_size as the_shown_size};

use jxl_image_header::size::Size;
use jxlm_base::grid::{AlignedGrid, OutOfMemory};
use jxlm_base::sample::Sample;
use std::alloc::Global;

/// Whether columns become rows by this orientation, from 1 to 8.
pub fn is_turned(orientation: u32) -> bool
    ensures { result ≡ turned orientation }
{
    orientation > 4
}

fn from_right(orientation: u32) -> bool
    ensures { result ≡ (orientation == 2) || (orientation == 3) || (orientation == 7) || (orientation == 8) }
{
    matches!(orientation, 2 | 3 | 7 | 8)
}

fn from_bottom(orientation: u32) -> bool
    ensures { result ≡ (orientation == 3) || (orientation == 4) || (orientation == 6) || (orientation == 7) }
{
    matches!(orientation, 3 | 4 | 6 | 7)
}

// Place `i` of `count`, counted from the front or from the back.
fn counted(back: bool, count: usize, i: usize) -> usize
    requires { i < count }
    ensures value { result ≡ the_counted back count i }
    ensures within { result < count }
{
    if back { count - 1 - i } else { i }
}

// Of two numbers the first, or where columns become rows the second.
fn one_of(orientation: u32, first: usize, second: usize) -> usize
    ensures { result ≡ (if turned orientation then second else first) }
{
    if is_turned(orientation) {
        second
    } else {
        first
    }
}

// The coded column, of this number, that is shown in column `x` of row `y`.
fn column_of(orientation: u32, width: usize, x: usize, y: usize) -> usize
    requires { (if turned orientation then y else x) < width }
    ensures value { result ≡ the_column orientation width x y }
    ensures within { result < width }
{
    let i = one_of(orientation, x, y);
    counted(from_right(orientation), width, i)
}

// The coded row, of this number.
fn row_of(orientation: u32, height: usize, x: usize, y: usize) -> usize
    requires { (if turned orientation then x else y) < height }
    ensures value { result ≡ the_row orientation height x y }
    ensures within { result < height }
{
    let i = one_of(orientation, y, x);
    counted(from_bottom(orientation), height, i)
}

// Row `y` of a grid as it is shown.
fn show_row<S: Sample>(grid: &AlignedGrid<S>, orientation: u32, y: usize, row: &mut [S])
    requires wide { length row.old ≡ (if turned orientation then grid.now.height else grid.now.width) }
    requires high { y < (if turned orientation then grid.now.width else grid.now.height) }
    ensures same { length row.new ≡ length row.old }
    ensures cells { (x : ℕ) → x < length row.old → slice_get row.new x
        ≡ cell grid.now (the_column orientation grid.now.width x y) (the_row orientation grid.now.height x y) }
{
    for x in 0..row.len() {
        let column = column_of(orientation, grid.width(), x, y);
        row[x] = grid.get(column, row_of(orientation, grid.height(), x, y));
    }
}

/// A grid as it is shown by an orientation from 1 to 8: 1 as it is, 2 with its columns from right to left, 3 turned by a
/// half, 4 with its rows from bottom to top; 5 with columns for rows, 6 turned by a quarter to the right, 7 as 5 turned
/// by a half, 8 turned by a quarter to the left. Memory for its cells is taken.
pub fn oriented<S: Sample>(
    alloc: Global,
    grid: &AlignedGrid<S>,
    orientation: u32,
) -> Result<AlignedGrid<S>, OutOfMemory>
    ensures { IfOk result (IsOriented orientation grid.now) }
{
    let width = one_of(orientation, grid.width(), grid.height());
    let height = one_of(orientation, grid.height(), grid.width());
    let mut shown = AlignedGrid::new(alloc, width, height)?;
    for y in 0..height {
        show_row(grid, orientation, y, shown.get_row_mut(y));
    }
    Ok(shown)
}

// These channels by an orientation. Each is let go once it is shown, so one more than these is held at a time.
fn oriented_channels(
    alloc: Global,
    channels: Vec<AlignedGrid<i32>>,
    orientation: u32,
) -> Result<Vec<AlignedGrid<i32>>, OutOfMemory>
    ensures { IfOk result (λ v. AllZip (IsOriented orientation) channels.items v.items) }
{
    let mut shown = Vec::new(alloc);
    for channel in channels {
        shown.push(oriented(alloc, &channel, orientation)?)?;
    }
    Ok(shown)
}

/// These channels as they are shown: where the orientation is 1, they themselves.
pub(crate) fn shown_channels(
    alloc: Global,
    channels: Vec<AlignedGrid<i32>>,
    orientation: u32,
) -> Result<Vec<AlignedGrid<i32>>, OutOfMemory>
    ensures { IfOk result (λ v. AllZip (IsOriented orientation) channels.items v.items) }
{
    if orientation == 1 {
        return Ok(channels);
    }
    oriented_channels(alloc, channels, orientation)
}

/// The size of what is shown, of a picture of this size.
pub(crate) fn shown_size(orientation: u32, size: Size) -> Size
    ensures { result ≡ the_shown_size orientation size }
{
    if is_turned(orientation) {
        Size {
            width: size.height,
            height: size.width,
        }
    } else {
        size
    }
}

/// Each orientation is undone by one: no cell is lost, or shown twice.
pub fn orientations_are_undone()
    ensures { AreUndone }
{}
