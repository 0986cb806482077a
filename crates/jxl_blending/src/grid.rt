//! A channel of a frame, blended into that of the picture.

ghost use Rattle.std.specs.Prelude.{◌≡◌, ℕ, ◌+◌, ◌<◌, ◌≤◌, get_or, length, pos};
ghost use Rattle.jxlm_base.specs.Grid.{IsFull, at};
ghost use Rattle.jxl_blending.specs.Overlaps.{IsBlended, SameSides};
ghost use Rattle.jxl_blending.specs.SingleGrids.{singles_of};

use crate::blending::ChannelBlending;
use crate::overlap::Overlap;
use crate::singles::Singles;
use jxlm_base::grid::AlignedGrid;

/// Where a frame lies: the column and the row of the picture on which its first sample lies. They may be negative.
#[derive(Clone, Copy)]
pub struct Corner {
    pub x: i32,
    pub y: i32,
}

/// A channel with the alpha of its pixels, as large; for kinds of blending that take no alpha any channel as large.
#[derive(Clone, Copy)]
pub struct Layer<'a> {
    pub samples: &'a AlignedGrid<i32>,
    pub alpha: &'a AlignedGrid<i32>,
}

// Part of row `y`, of this number of samples.
fn part(grid: &AlignedGrid<i32>, start: usize, count: usize, y: usize) -> &[i32]
    requires columns { start + count ≤ grid.now.width }
    requires in_rows { y < grid.now.height }
    ensures len { length result.now ≡ count }
    ensures cells { (i : ℕ) → i < count → get_or result.now i (pos 0) ≡ at grid.now (start + i) y }
{
    prove!(start <= grid.width() && y < grid.height());
    let row = grid.get_row(y);
    &row[start..start + count]
}

impl ChannelBlending {
    /// Blends a channel of a frame into that of the picture, which keeps its size. The alpha of the picture is that
    /// before the frame is blended. What lies outside the picture of the frame is left out.
    pub fn blend_grid(
        self,
        corner: Corner,
        front: Layer<'_>,
        back_alpha: &Singles,
        picture: &mut Singles,
    )
        requires front { SameSides front.alpha.now front.samples.now }
        requires back { SameSides (singles_of back_alpha.now) (singles_of picture.old) }
        requires full { IsFull (singles_of picture.old) }
        requires full_alpha { IsFull (singles_of back_alpha.now) }
        ensures { IsBlended self corner.x corner.y front.entry.samples.now front.entry.alpha.now
            (singles_of back_alpha.now) (singles_of picture.old) (singles_of picture.new) }
    {
        let columns = Overlap::of_sides(corner.x, front.samples.width(), picture.width);
        let rows = Overlap::of_sides(corner.y, front.samples.height(), picture.height);
        if columns.count == 0 {
            return;
        }
        let width = picture.width;
        for j in 0..rows.count {
            let samples = part(front.samples, columns.front, columns.count, rows.front + j);
            let alpha = part(front.alpha, columns.front, columns.count, rows.front + j);
            let start = (rows.back + j) * width + columns.back;
            self.blend_row(samples, alpha, &back_alpha.cells, start, &mut picture.cells);
        }
    }
}
