//! The table of colours and the channel of indices.

ghost use Rattle.std.specs.Prelude.{◌≡◌, IfOk, length};

use crate::colours::{Colours, PixelRow};
use jxlm_base::grid::{AlignedGrid, OutOfMemory};
use jxlm_base::sample::Sample;
use std::alloc::Global;

/// Fills the row of a channel in the table.
fn fill_table_row<S: Sample>(colours: &Colours, channel: usize, row: &mut [S])
    ensures { length row.new ≡ length row.old }
{
    for i in 0..row.len() {
        if let Some(colour) = colours.list.get(i) {
            row[i] = S::from_i32(colour.sample(channel));
        }
    }
}

/// The table of these colours: a column for each, a row for each channel.
pub(crate) fn table_of<S: Sample>(
    alloc: Global,
    colours: &Colours,
    channels: usize,
) -> Result<AlignedGrid<S>, OutOfMemory> {
    let mut table = AlignedGrid::new(alloc, colours.list.len(), channels)?;
    for channel in 0..table.height() {
        fill_table_row(colours, channel, table.get_row_mut(channel));
    }
    Ok(table)
}

/// Fills a row with the numbers of its colours.
fn fill_index_row<S: Sample>(grids: &[AlignedGrid<S>], colours: &Colours, y: usize, row: &mut [S])
    ensures { length row.new ≡ length row.old }
{
    let pixels = PixelRow::of(grids, y);
    let mut last = pixels.colour(0);
    let mut number = colours.number(last);
    for x in 0..row.len() {
        let colour = pixels.colour(x);
        if colour != last {
            number = colours.number(colour);
            last = colour;
        }
        row[x] = S::from_u32(number);
    }
}

/// The numbers of the colours of all pixels.
pub(crate) fn index_of<S: Sample>(
    alloc: Global,
    grids: &[AlignedGrid<S>],
    colours: &Colours,
    width: usize,
    height: usize,
) -> Result<AlignedGrid<S>, OutOfMemory> {
    let mut index = AlignedGrid::new(alloc, width, height)?;
    for y in 0..index.height() {
        fill_index_row(grids, colours, y, index.get_row_mut(y));
    }
    Ok(index)
}
