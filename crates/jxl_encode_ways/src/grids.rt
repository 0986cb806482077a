//! The grids of a picture once more.

ghost use Rattle.std.specs.Prelude.{◌≡◌, IfOk};
ghost use Rattle.std.specs.List.{All};
ghost use Rattle.jxlm_base.specs.Grid.{IsFull};

use jxlm_base::grid::{AlignedGrid, OutOfMemory};
use std::alloc::Global;

/// The same grid.
fn copy_of(alloc: Global, grid: &AlignedGrid<i32>) -> Result<AlignedGrid<i32>, OutOfMemory>
    ensures same { IfOk result (λ g. g ≡ grid.now) }
    ensures full { IsFull grid.now }
{
    let _cells = grid.buf();
    grid.try_clone(alloc)
}

/// The same grids.
pub fn copies_of(
    alloc: Global,
    grids: &[AlignedGrid<i32>],
) -> Result<Vec<AlignedGrid<i32>>, OutOfMemory>
    ensures same { IfOk result (λ v. v.items ≡ grids.now) }
    ensures full { IfOk result (λ v. All IsFull v.items) }
{
    let mut copies = Vec::new(alloc);
    for grid in grids {
        copies.push(copy_of(alloc, grid)?)?;
    }
    Ok(copies)
}
