//! Whether a table and a channel of indices are those of channels.

ghost use Rattle.std.specs.Prelude.{◌≡◌, ◌<◌, IsTrue, length};
ghost use Rattle.std.specs.List.{All};
ghost use Rattle.jxlm_transform.specs.Channels.{HasSides};
ghost use Rattle.jxl_encode_image.specs.Inner.Names.{NamesAll, NamesPixel, NamesRow, NamesSample};

use jxlm_base::grid::AlignedGrid;
use jxlm_base::sample::Sample;

/// Whether column `number` of the table has the sample of a channel in column `x` of row `y`.
fn names_sample<S: Sample>(
    grid: &AlignedGrid<S>,
    table: &AlignedGrid<S>,
    number: usize,
    channel: usize,
    x: usize,
    y: usize,
) -> bool
    requires number { number < table.now.width }
    requires channel { channel < table.now.height }
    requires column { x < grid.now.width }
    requires in_rows { y < grid.now.height }
    ensures { IsTrue result → NamesSample S.to_int S.width grid.now table.now number channel x y }
{
    let listed = table.get(number, channel).to_i32();
    let sample = grid.get(x, y).to_i32();
    listed == sample
}

/// Whether the index in column `x` of row `y` is the number of a column of the table that has the samples of all
/// channels there.
fn names_pixel<S: Sample>(
    grids: &[AlignedGrid<S>],
    table: &AlignedGrid<S>,
    index: &AlignedGrid<S>,
    x: usize,
    y: usize,
) -> bool
    requires rows { table.now.height ≡ length grids.now }
    requires sides { All (HasSides index.now.width index.now.height) grids.now }
    requires column { x < index.now.width }
    requires in_rows { y < index.now.height }
    ensures { IsTrue result → NamesPixel S.to_int S.width grids.now table.now index.now x y }
{
    let named = index.get(x, y).to_i32();
    if named < 0 {
        return false;
    }
    let number = named.unsigned_abs() as usize;
    if number >= table.width() {
        return false;
    }
    for channel in 0..grids.len() {
        if !names_sample(&grids[channel], table, number, channel, x, y) {
            return false;
        }
    }
    true
}

/// The same for all columns of row `y`.
fn names_row<S: Sample>(
    grids: &[AlignedGrid<S>],
    table: &AlignedGrid<S>,
    index: &AlignedGrid<S>,
    y: usize,
) -> bool
    requires rows { table.now.height ≡ length grids.now }
    requires sides { All (HasSides index.now.width index.now.height) grids.now }
    requires in_rows { y < index.now.height }
    ensures { IsTrue result → NamesRow S.to_int S.width grids.now table.now index.now y }
{
    for x in 0..index.width() {
        if !names_pixel(grids, table, index, x, y) {
            return false;
        }
    }
    true
}

/// The same for all rows.
fn names_rows<S: Sample>(
    grids: &[AlignedGrid<S>],
    table: &AlignedGrid<S>,
    index: &AlignedGrid<S>,
) -> bool
    requires rows { table.now.height ≡ length grids.now }
    requires sides { All (HasSides index.now.width index.now.height) grids.now }
    ensures { IsTrue result → NamesAll S.to_int S.width grids.now table.now index.now }
{
    for y in 0..index.height() {
        if !names_row(grids, table, index, y) {
            return false;
        }
    }
    true
}

/// Whether all grids have these sides.
pub(crate) fn have_sides<S: Sample>(grids: &[AlignedGrid<S>], width: usize, height: usize) -> bool
    ensures { IsTrue result → All (HasSides width height) grids.now }
{
    for i in 0..grids.len() {
        if grids[i].width() != width || grids[i].height() != height {
            return false;
        }
    }
    true
}

/// Whether the table has a row for each channel, the channels have the sides of the channel of indices, and each index
/// is the number of a column of the table that has the samples of all channels.
pub(crate) fn names_all<S: Sample>(
    grids: &[AlignedGrid<S>],
    table: &AlignedGrid<S>,
    index: &AlignedGrid<S>,
) -> bool
    ensures rows { IsTrue result → table.now.height ≡ length grids.now }
    ensures sides { IsTrue result → All (HasSides index.now.width index.now.height) grids.now }
    ensures samples { IsTrue result → NamesAll S.to_int S.width grids.now table.now index.now }
{
    if table.height() != grids.len() {
        return false;
    }
    if !have_sides(grids, index.width(), index.height()) {
        return false;
    }
    names_rows(grids, table, index)
}
