//! Transforms run forward in a store, in the order of what undoes them.

ghost use Rattle.std.specs.Prelude.{◌≡◌, ℕ, ◌<◌, ◌≤◌, true, length, max, IfOk, IfErr};
ghost use Rattle.std.specs.List.{All};
ghost use Rattle.jxlm_base.specs.Grid.{IsFull};
ghost use Rattle.jxlm_chain.specs.Scratch.{have_cells};
ghost use Rattle.jxlm_chain.specs.Shape.{SameShape};
ghost use Rattle.jxlm_chain.specs.Steps.{CanUndo, CanUndoAll};
ghost use Rattle.jxlm_chain.specs.Undo.{Undoes, UndoesAll};
ghost use Rattle.jxlm_chain.specs.Undoings.{undo_of_code, undos_of};
ghost use Rattle.jxlm_encode_transform.specs.Inner.Room.{HasRoom, HasRoomForCells, HasRoomForAll};
ghost use Rattle.jxlm_encode_transform.specs.Redo.{UndoesNoPalette};

use crate::colour::code;
use crate::squeeze::{COLUMNS, squeeze};
use jxlm_base::grid::{AlignedGrid, OutOfMemory, Region};
use jxlm_base::sample::Sample;
use jxlm_chain::undo::Undoing;
use std::alloc::Global;

/// Whether the regions of an undoing have cells.
fn has_cells(undoing: &Undoing) -> bool
    ensures { result ≡ have_cells (undo_of_code undoing.now) }
{
    let region = match undoing {
        Undoing::Colour { regions, .. } => regions[0],
        Undoing::Palette { index, .. } => index.leader(),
        Undoing::Squeeze { region, .. } => *region,
    };
    region.width > 0 && region.height > 0
}

/// How many samples it takes to squeeze a region: as many as a row, and as a column, and the more columns, up to some,
/// the faster.
#[tactic(auto, using(crate::proofs::StripSteps::at_least))]
fn room_to_squeeze(region: &Region) -> Result<usize, OutOfMemory>
    ensures { IfOk result (λ n. max region.now.width region.now.height ≤ n) }
{
    let columns = region.width.clamp(1, COLUMNS);
    let strip = region.height.checked_mul(columns).ok_or(OutOfMemory)?;
    Ok(strip.max(region.width))
}

/// How many samples it takes to run forward what this undoes, in regions that have cells.
fn room_for_cells(undoing: &Undoing) -> Result<usize, OutOfMemory>
    ensures { IfOk result (λ n. HasRoomForCells n (undo_of_code undoing.now)) }
{
    match undoing {
        Undoing::Colour { regions, .. } => regions[0].width.checked_mul(3).ok_or(OutOfMemory),
        Undoing::Palette { .. } => Ok(0),
        Undoing::Squeeze { region, .. } => room_to_squeeze(region),
    }
}

/// How many samples it takes to run forward what this undoes: none, where its regions have no cells.
fn room_for(undoing: &Undoing) -> Result<usize, OutOfMemory>
    ensures { IfOk result (λ n. HasRoom n (undo_of_code undoing.now)) }
{
    if has_cells(undoing) {
        return room_for_cells(undoing);
    }
    Ok(0)
}

/// How many samples the dearest of these takes.
fn room_for_all(undoings: &[Undoing]) -> Result<usize, OutOfMemory>
    ensures { IfOk result (λ n. HasRoomForAll n (undos_of undoings.now)) }
{
    let mut most = 0;
    for undoing in undoings {
        most = room_for(undoing)?.max(most);
    }
    Ok(most)
}

/// Runs forward what this undoes, in regions that have cells, with `scratch`, which has room for it.
fn redo_cells<S: Sample>(undoing: &Undoing, store: &mut [AlignedGrid<S>], scratch: &mut [S])
    requires can { CanUndo store.old (undo_of_code undoing.now) }
    requires no_palette { UndoesNoPalette (undo_of_code undoing.now) }
    requires full { All IsFull store.old }
    requires cells { have_cells (undo_of_code undoing.now) ≡ true }
    requires room { HasRoomForCells (length scratch.old) (undo_of_code undoing.now) }
    ensures redone { (depth : ℕ) → Undoes S.to_int S.width depth (undo_of_code undoing.now) store.new store.old }
    ensures shape { SameShape store.old store.new }
{
    match undoing {
        Undoing::Colour { kind, regions } => code(*kind, store, *regions, scratch),
        Undoing::Palette { .. } => {}
        Undoing::Squeeze { horizontal, region } => {
            squeeze(*horizontal, store, *region, scratch);
        }
    }
}

/// Runs forward what this undoes, with `scratch`, which has room for it; in regions without cells that is nothing.
fn redo<S: Sample>(undoing: &Undoing, store: &mut [AlignedGrid<S>], scratch: &mut [S])
    requires can { CanUndo store.old (undo_of_code undoing.now) }
    requires no_palette { UndoesNoPalette (undo_of_code undoing.now) }
    requires full { All IsFull store.old }
    requires room { HasRoom (length scratch.old) (undo_of_code undoing.now) }
    ensures redone { (depth : ℕ) → Undoes S.to_int S.width depth (undo_of_code undoing.now) store.new store.old }
    ensures shape { SameShape store.old store.new }
{
    if has_cells(undoing) {
        redo_cells(undoing, store, scratch);
    }
}

/// Runs forward what each of these undoes, from the first to the last, with `scratch`, which has room for each.
fn redo_each<S: Sample>(undoings: &[Undoing], store: &mut [AlignedGrid<S>], scratch: &mut [S])
    requires can { CanUndoAll store.old (undos_of undoings.now) }
    requires no_palettes { All UndoesNoPalette (undos_of undoings.now) }
    requires full { All IsFull store.old }
    requires room { HasRoomForAll (length scratch.old) (undos_of undoings.now) }
    ensures redone { (depth : ℕ) → UndoesAll S.to_int S.width depth (undos_of undoings.now) store.new store.old }
    ensures shape { SameShape store.old store.new }
{
    for undoing in undoings {
        redo(undoing, store, scratch);
    }
}

/// Runs forward, in a store, the transforms that these undo, from the first to the last.
///
/// To undo them afterwards, from the last to the first, brings back the store as it was. None of them is a palette.
/// Their regions lie in the store as they must, whose grids are full. Cells outside the regions that they name stay.
///
/// # Errors
///
/// `OutOfMemory`, and no other: all memory is taken before the first cell is written, and then no cell has changed.
pub fn redo_all<S: Sample>(
    alloc: Global,
    undoings: &[Undoing],
    store: &mut [AlignedGrid<S>],
) -> Result<(), OutOfMemory>
    requires can { CanUndoAll store.old (undos_of undoings.now) }
    requires no_palettes { All UndoesNoPalette (undos_of undoings.now) }
    requires full { All IsFull store.old }
    ensures redone { IfOk result (λ _. (depth : ℕ) → UndoesAll S.to_int S.width depth (undos_of undoings.now)
        store.new store.old) }
    ensures shape { SameShape store.old store.new }
    ensures unchanged { IfErr result (λ _. store.new ≡ store.old) }
{
    let room = room_for_all(undoings)?;
    let mut scratch = vec![in alloc; S::default(); room]?;
    redo_each(undoings, store, &mut scratch);
    Ok(())
}
