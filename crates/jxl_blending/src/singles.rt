//! A channel as what its samples stand for.

ghost use Rattle.std.specs.Prelude.{◌≡◌, ◌+◌, ◌≤◌, IfOk, length};
ghost use Rattle.jxlm_base.specs.Grid.{IsFull, filled};
ghost use Rattle.jxl_blending.specs.Overlaps.{IsShownUnder, SameSides};
ghost use Rattle.jxl_blending.specs.Scales.{single_zero};
ghost use Rattle.jxl_blending.specs.SingleGrids.{loaded_grid, singles_of};
ghost use Rattle.jxl_blending.specs.Inner.Rows.{IsRowShown};

use crate::grid::Corner;
use crate::overlap::Overlap;
use crate::scale::Scale;
use jxlm_base::grid::{AlignedGrid, OutOfMemory};
use std::alloc::Global;

/// A channel as IEEE floats of 32 bits: row after row what each sample stands for.
#[derive(Drop)]
pub struct Singles {
    pub width: usize,
    pub height: usize,
    pub cells: Vec<f32>,
}

impl Scale {
    // Writes the samples that are nearest to these values into a row, from one on.
    fn show_row(self, values: &[f32], start: usize, row: &mut [i32])
        requires { start + length values.now ≤ length row.old }
        ensures { IsRowShown self values.now start row.old row.new }
    {
        for i in 0..values.len() {
            row[start + i] = self.show(values[i]);
        }
    }
}

impl Singles {
    /// A channel of zeros.
    pub fn zeros(alloc: Global, width: usize, height: usize) -> Result<Singles, OutOfMemory>
        ensures { IfOk result (λ s. singles_of s ≡ filled width height single_zero) }
    {
        let Some(count) = width.checked_mul(height) else {
            return Err(OutOfMemory);
        };
        let mut cells = Vec::new(alloc);
        cells.resize(count, 0.0)?;
        Ok(Singles {
            width,
            height,
            cells,
        })
    }

    /// What the samples of a channel stand for.
    pub fn load(
        alloc: Global,
        scale: Scale,
        samples: &AlignedGrid<i32>,
    ) -> Result<Singles, OutOfMemory>
        ensures is { IfOk result (λ s. singles_of s ≡ loaded_grid scale samples.now) }
        ensures full { IfOk result (λ s. IsFull (singles_of s)) }
    {
        let cells = samples.buf();
        let mut values = Vec::with_capacity(alloc, cells.len())?;
        for sample in cells {
            values.push(scale.load(*sample))?;
        }
        Ok(Singles {
            width: samples.width(),
            height: samples.height(),
            cells: values,
        })
    }

    /// A copy.
    pub fn try_clone(&self, alloc: Global) -> Result<Singles, OutOfMemory>
        ensures { IfOk result (λ s. singles_of s ≡ singles_of self.now) }
    {
        Ok(Singles {
            width: self.width,
            height: self.height,
            cells: Vec::from_slice(alloc, &self.cells)?,
        })
    }

    /// Writes the samples that are nearest to the values into a picture, where a frame of these sides lies on it.
    pub fn show_under(
        &self,
        scale: Scale,
        corner: Corner,
        width: usize,
        height: usize,
        picture: &mut AlignedGrid<i32>,
    )
        requires sides { SameSides picture.old (singles_of self.now) }
        requires full { IsFull (singles_of self.now) }
        ensures { IsShownUnder scale corner.x corner.y width height (singles_of self.now) picture.old picture.new }
    {
        let columns = Overlap::of_sides(corner.x, width, picture.width());
        let rows = Overlap::of_sides(corner.y, height, picture.height());
        if columns.count == 0 {
            return;
        }
        for j in 0..rows.count {
            let y = rows.back + j;
            let start = y * self.width + columns.back;
            let values = &self.cells[start..start + columns.count];
            let row = picture.get_row_mut(y);
            scale.show_row(values, columns.back, row);
        }
    }
}
