//! Squeeze steps, inverse-transformed (ISO/IEC 18181-1, Modular: squeeze).

ghost use Rattle.std.specs.Prelude.{◌≡◌, ◌+◌, ◌≤◌, [], ◌∷◌, length, max, IfOk, IfErr};
ghost use Rattle.jxlm_bits.specs.ErrorKind.{NoMemory, kind_of};
ghost use Rattle.jxlm_base.specs.Outside.{KeepsOutside as KeepsOutsideRegions};
ghost use Rattle.jxlm_base.specs.Regions.{Lies, store_meanings};
ghost use Rattle.jxlm_base.specs.SqueezedGrids.{AreGridSamples, squeezed_rows, squeezed_columns};
ghost use Rattle.jxlm_base.specs.Subgrid.{whole, KeepsOutside, numbers_in};
ghost use Rattle.jxlm_inverse.specs.UndoneSqueeze.{UndoesSqueeze};

use jxlm_base::grid::{AlignedGrid, MutableSubgrid, Region};
use jxlm_base::sample::Sample;
use jxlm_bits::error::Result;
use std::alloc::Global;

/// Undoes a horizontal squeeze step, in place: each row of the rectangle holds averages, then residuals, and
/// afterwards the row that they were squeezed from. Nothing outside the rectangle changes; a rectangle with a side of
/// 0 has nothing to undo.
///
/// # Errors
///
/// `Buffer` if it is out of memory, and no other; then no cell has changed.
pub fn inverse_h<S: Sample>(alloc: Global, subgrid: &mut MutableSubgrid<'_, S>) -> Result<()>
    ensures kept { KeepsOutside subgrid.old subgrid.new }
    ensures undone { IfOk result (λ _. squeezed_rows S.width (numbers_in S.to_int subgrid.new)
        ≡ numbers_in S.to_int subgrid.old) }
    ensures samples { IfOk result (λ _. AreGridSamples S.width (numbers_in S.to_int subgrid.new)) }
    ensures err { IfErr result (λ e. kind_of e ≡ NoMemory) }
    ensures unchanged { IfErr result (λ _. whole subgrid.new ≡ whole subgrid.old) }
{
    S::squeeze_rows(alloc, subgrid)?;
    Ok(())
}

/// Undoes a vertical squeeze step, in place: each column of the rectangle holds averages, then residuals, and
/// afterwards the column that they were squeezed from. Nothing outside the rectangle changes; a rectangle with a side
/// of 0 has nothing to undo.
///
/// # Errors
///
/// `Buffer` if it is out of memory, and no other; then no cell has changed.
pub fn inverse_v<S: Sample>(alloc: Global, subgrid: &mut MutableSubgrid<'_, S>) -> Result<()>
    ensures kept { KeepsOutside subgrid.old subgrid.new }
    ensures undone { IfOk result (λ _. squeezed_columns S.width (numbers_in S.to_int subgrid.new)
        ≡ numbers_in S.to_int subgrid.old) }
    ensures samples { IfOk result (λ _. AreGridSamples S.width (numbers_in S.to_int subgrid.new)) }
    ensures err { IfErr result (λ e. kind_of e ≡ NoMemory) }
    ensures unchanged { IfErr result (λ _. whole subgrid.new ≡ whole subgrid.old) }
{
    S::squeeze_columns(alloc, subgrid)?;
    Ok(())
}

/// Undoes a squeeze step of a region of the store, across or down, with `scratch`.
///
/// The left part of the region, or the upper one, is averages, and the rest residuals. Afterwards the region holds
/// the samples that they were squeezed from; no other cell changed. `scratch` has room for a row, and for a column
/// and a cell more.
pub fn unsqueeze<S: Sample>(
    horizontal: bool,
    store: &mut [AlignedGrid<S>],
    region: Region,
    scratch: &mut [S],
)
    requires lies { Lies region store.old }
    requires room { max region.width (region.height + 1) ≤ length scratch.old }
    ensures len { length scratch.new ≡ length scratch.old }
    ensures undone { UndoesSqueeze S.width horizontal region (store_meanings S.to_int store.old)
        (store_meanings S.to_int store.new) }
    ensures keeps { KeepsOutsideRegions (region ∷ []) store.old store.new }
{
    let grid = &mut store[region.buffer];
    let mut subgrid = MutableSubgrid::new(grid, region.x, region.y, region.width, region.height);
    if horizontal {
        S::squeeze_rows_in(&mut subgrid, scratch);
    } else {
        S::squeeze_columns_in(&mut subgrid, scratch);
    }
}
