//! The rows of a channel, as they are read.
ghost use Rattle.std.specs.Prelude.{◌≡◌, ◌+◌, ◌*◌, ◌<◌, ◌≤◌, ◌^◌, length, IfOk, IfErr};
ghost use Rattle.jxlm_base.specs.Grid.{grid};
ghost use Rattle.jxl_text.specs.Inner.Rows.{AreRows, RowGives, RowsFail};

use crate::cut::cut;
use crate::lines::Lines;
use crate::reading::TextError;
use crate::words::sample;
use jxlm_base::grid::{AlignedGrid, OutOfMemory};
use jxlm_base::sample::Sample;
use std::alloc::Global;

/// Whether the line is a row of `width` samples, which are then added to the cells.
fn read_row<S: Sample>(cells: &mut Vec<S>, line: &[u8], width: usize) -> Result<bool, OutOfMemory>
    ensures { IfOk result (RowGives S.to_int S.width width line.now cells.old.items cells.new.items) }
{
    if width == 0 {
        return Ok(line.is_empty());
    }
    let mut left = line;
    for _x in 1..width {
        let Some((word, after)) = cut(left, b' ') else {
            return Ok(false);
        };
        let Some(sample) = sample(word) else {
            return Ok(false);
        };
        cells.push(sample)?;
        left = after;
    }
    let Some(last) = sample(left) else {
        return Ok(false);
    };
    cells.push(last)?;
    Ok(true)
}

/// The cells of `height` rows of `width` samples, a line each.
pub(crate) fn read_rows<S: Sample>(
    alloc: Global,
    lines: &mut Lines<'_>,
    width: usize,
    height: usize,
) -> Result<Vec<S>, TextError>
    ensures ok { IfOk result (λ v. AreRows S.to_int S.width width height lines.old.rest.now lines.new.rest.now
        v.items) }
    ensures taken { IfOk result (λ _. lines.new.taken ≡ lines.old.taken + height) }
    ensures err { IfErr result (λ e. RowsFail S.width width height lines.old.rest.now lines.old.taken e) }
{
    let mut cells = Vec::new(alloc);
    for _y in 0..height {
        let line = lines.next()?;
        if !read_row(&mut cells, line, width)? {
            return Err(lines.wrong());
        }
    }
    Ok(cells)
}

/// The grid of these cells, which are its rows from top to bottom.
pub fn grid_of<S: Sample>(
    alloc: Global,
    width: usize,
    height: usize,
    cells: &[S],
) -> Result<AlignedGrid<S>, OutOfMemory>
    requires { length cells.now ≡ width * height }
    ensures { IfOk result (λ g. g ≡ grid width height cells.now) }
{
    let mut result_grid = AlignedGrid::new(alloc, width, height)?;
    let mut left = cells;
    for y in 0..height {
        let (row, after) = left.split_at(width);
        result_grid.get_row_mut(y).copy_from_slice(row);
        left = after;
    }
    Ok(result_grid)
}
