//! Rows of a channel: what one only looks at, what its read returns, and how it is written.

ghost use Rattle.std.specs.Prelude.{◌≡◌, ◌-◌, ◌<◌, ◌≤◌, ◌++◌, drop, length, replicate, take, ◌↔◌, IfErr, IsTrue};
ghost use Rattle.jxlm_base.specs.Outside.{SetsRow};
ghost use Rattle.jxlm_base.specs.Regions.{Lies};
ghost use Rattle.jxlm_samples.specs.Inner.Rows.{HasSetsOn, IsLine, SetsRead};
ghost use Rattle.jxlm_samples.specs.Lines.{AreAway};

use crate::coding::PartCoding;
use jxlm_base::grid::{AlignedGrid, Region};
use jxlm_base::region::region_set_row;
use jxlm_bits::decoder::{Decoder, DecoderError};
use jxlm_tree::flat::Leaf;
use jxlm_tree::paths::Path;

/// How many tokens of a row of one leaf are read at a time.
pub(crate) const STRETCH: usize = 64;

/// What the cells of a row only look at.
#[derive(Drop)]
pub struct Line<'a, 's, S, D: Decoder> {
    /// What the part is decoded with.
    pub coding: &'a PartCoding<'a, D>,
    /// The grids of the part.
    pub store: &'s [AlignedGrid<S>],
    /// How the rows of the channel are read.
    pub path: Path<'a>,
    /// The channel.
    pub i: usize,
    /// The row.
    pub y: usize,
    /// Whether property 9 is clamped.
    pub clamped: bool,
}

impl<S, D: Decoder> Line<'_, '_, S, D> {
    /// Whether leaves are found by sets of leaves: the channel's tree has them, its path is the walk of the tree, and
    /// property 9 is not clamped.
    pub(crate) fn has_sets(&self) -> bool
        requires { IsLine self.now }
        ensures { IsTrue result ↔ HasSetsOn self.now }
    {
        let tree = &self.coding.flats[self.i];
        !self.clamped && matches!(self.path, Path::Tree) && tree.sets.is_some()
    }
}

/// How the rows of a channel are read.
#[derive(Drop)]
pub(crate) struct ChannelRows<'a, D: Decoder> {
    /// What the part is decoded with.
    pub(crate) coding: &'a PartCoding<'a, D>,
    /// The channel.
    pub(crate) i: usize,
    /// How its rows are read.
    pub(crate) path: Path<'a>,
    /// The leaf at which all its samples are read, where there is one that needs no weights.
    pub(crate) only: Option<Leaf>,
    /// Whether property 9 is clamped.
    pub(crate) clamped: bool,
}

/// Where the columns of row `y` begin and end whose cells are two or more columns and rows away from every edge but the
/// last row; where there are none, both are the row's end.
pub fn inner_columns(width: usize, y: usize) -> (usize, usize)
    ensures order { result.0 ≤ result.1 }
    ensures in_row { result.1 ≤ width }
    ensures inner { AreAway result.0 result.1 y width }
{
    if y < 2 || width < 4 {
        (width, width)
    } else {
        (2, width - 2)
    }
}

/// Where the read of a row ended before its end, and why.
#[derive(Clone, Copy)]
pub(crate) struct RowError {
    /// The column of the cell whose read returned the error.
    pub(crate) column: usize,
    /// The error of that read.
    pub(crate) error: DecoderError,
}

/// Writes a row that was read into row `y` of a region: all of it, or the cells before the one whose read returned an
/// error; and returns what the read returned.
pub(crate) fn write_read<S: Copy>(
    store: &mut [AlignedGrid<S>],
    region: Region,
    y: usize,
    row: &[S],
    read: Result<(), RowError>,
) -> Result<(), DecoderError>
    requires lies { Lies region store.old }
    requires in_rows { y < region.height }
    requires long { length row.now ≡ region.width }
    requires inside { IfErr read (λ r. r.column < length row.now) }
    ensures { SetsRead region y row.now read store.old store.new result }
{
    match read {
        Ok(()) => {
            region_set_row(store, region, y, row);
            Ok(())
        }
        Err(ended) => {
            let first = Region {
                buffer: region.buffer,
                x: region.x,
                y: region.y,
                width: ended.column,
                height: region.height,
            };
            region_set_row(store, first, y, &row[..ended.column]);
            Err(ended.error)
        }
    }
}

/// Fills a row with one value.
fn fill<S: Copy>(row: &mut [S], value: S)
    ensures { row.new ≡ replicate (length row.old) value }
{
    for x in 0..row.len() {
        row[x] = value;
    }
}

/// Fills the columns from `start` to before `end`.
fn fill_between<S: Copy>(row: &mut [S], start: usize, end: usize, value: S)
    requires order { start ≤ end }
    requires inside { end ≤ length row.old }
    ensures { row.new ≡ take start row.old ++ (replicate (end - start) value ++ drop end row.old) }
{
    fill(&mut row[start..end], value);
}

/// Fills all cells of row `y` of a region of the store.
pub(crate) fn fill_row<S: Copy>(store: &mut [AlignedGrid<S>], region: Region, y: usize, value: S)
    requires lies { Lies region store.old }
    requires in_rows { y < region.height }
    ensures { SetsRow region y (replicate region.width value) store.old store.new }
{
    let grid = &mut store[region.buffer];
    prove!(region.x <= grid.width() && region.y < grid.height());
    let row = grid.get_row_mut(region.y + y);
    fill_between(row, region.x, region.x + region.width, value);
}
