//! What undoes the transforms of an image in a store, planned and run (ISO/IEC 18181-1, Modular: inverse transforms).

ghost use Rattle.std.specs.Prelude.{◌≡◌, ℕ, ◌+◌, ◌^◌, ◌<◌, ◌≤◌, [], ◌∷◌, ◌++◌, ◌⊎◌, length, get_or, map, IfOk, IfErr};
ghost use Rattle.std.specs.List.{All};
ghost use Rattle.jxlm_chain.specs.Grids.{leader_of, members_of};
ghost use Rattle.jxlm_transform.specs.Layout.{no_region};
ghost use Rattle.jxlm_transform.specs.Lists.{layout_of};
ghost use Rattle.jxlm_chain.specs.Scratch.{HasRoomFor, HasRoomForCells, HasRoomToUndo, KeepsScratch, have_cells};
ghost use Rattle.jxlm_chain.specs.Steps.{CanUndo, CanUndoAll, IsNarrowStore};
ghost use Rattle.jxlm_chain.specs.Undo.{UndoPalette, UndoRct, UndoSqueeze, Undoes, UndoesAll, undo_of};
ghost use Rattle.jxlm_chain.specs.Undoings.{undo_of_code, undos_of};
ghost use Rattle.jxlm_transform.specs.Channels.{regions};
ghost use Rattle.jxlm_transform.specs.ChannelSteps.{RctStep, PaletteStep, SqueezeStep, range};

use crate::grid::TransformedGrid;
use crate::scratch::Scratch;
use jxlm_base::grid::{AlignedGrid, OutOfMemory, Region};
use jxlm_base::sample::Sample;
use jxlm_inverse::palette::inverse_palette;
use jxlm_inverse::rct::inverse_rct_within;
use jxlm_inverse::squeeze::unsqueeze;
use jxlm_transform::channels::{ModularChannels, PlacedChannel};
use jxlm_transform::transform::{Palette, Rct, SqueezeParams};
use std::alloc::Global;

/// What undoes a transform, or a part of one, in a store.
#[derive(Drop)]
pub enum Undoing {
    /// A colour transform of this kind, from 0 to 73, of three regions.
    Colour {
        /// The kind.
        kind: u32,
        /// The regions.
        regions: [Region; 3],
    },
    /// A palette.
    Palette {
        /// The palette.
        palette: Palette,
        /// Where its table lies.
        table: Region,
        /// The channel of its indices, with those that it stands for.
        index: TransformedGrid,
    },
    /// A squeeze of one region.
    Squeeze {
        /// Whether its width was halved, and not its height.
        horizontal: bool,
        /// The region.
        region: Region,
    },
}

/// Where these channels lie. One that holds the indices of an earlier palette is named by its region
/// alone: what it stands for, the undoing of that palette names.
fn grids_of(alloc: Global, channels: &[PlacedChannel]) -> Result<Vec<TransformedGrid>, OutOfMemory>
    ensures { IfOk result (λ v. map leader_of v.items ≡ regions channels.now) }
{
    let mut grids = Vec::new(alloc);
    for channel in channels {
        grids.push(TransformedGrid::Single(channel.region))?;
    }
    Ok(grids)
}

/// The channel of the indices that stand for these channels, the first of which lies in the region `leader`.
fn merged(leader: Region, members: Vec<TransformedGrid>) -> TransformedGrid
    requires some { 1 ≤ length members.items }
    requires first { get_or (map leader_of members.items) 0 no_region ≡ leader }
    ensures leader { leader_of result ≡ leader }
    ensures members { members_of result ≡ map leader_of members.items }
{
    if members.len() == 1 && members[0].is_single() {
        return TransformedGrid::Single(leader);
    }
    TransformedGrid::Merged { leader, members }
}

/// What undoes a colour transform of these channels.
pub(crate) fn undo_colour(channels: &ModularChannels, step: &Rct) -> Undoing
    requires { step.now.begin_c + 3 ≤ length channels.now.placed.items }
    ensures { undo_of_code result ∷ [] ≡ undo_of (RctStep step.now) (layout_of channels.now) }
{
    let begin = step.begin_c as usize;
    Undoing::Colour {
        kind: step.rct_type,
        regions: [
            channels.placed[begin].region,
            channels.placed[begin + 1].region,
            channels.placed[begin + 2].region,
        ],
    }
}

/// What undoes a palette of these channels.
pub(crate) fn undo_palette(
    alloc: Global,
    channels: &ModularChannels,
    palette: &Palette,
) -> Result<Undoing, OutOfMemory>
    requires some_channels { 1 ≤ palette.now.num_c }
    requires range { palette.now.begin_c + palette.now.num_c ≤ length channels.now.placed.items }
    ensures { IfOk result (λ u. undo_of_code u ∷ [] ≡ undo_of (PaletteStep palette.now) (layout_of channels.now)) }
{
    let begin = palette.begin_c as usize;
    let count = palette.num_c as usize;
    let range = &channels.placed[begin..begin + count];
    let members = grids_of(alloc, range)?;
    let index = merged(range[0].region, members);
    Ok(Undoing::Palette {
        palette: *palette,
        table: palette.table(channels).region,
        index,
    })
}

/// Adds what undoes a squeeze of these channels.
fn undo_halves(
    undoings: &mut Vec<Undoing>,
    horizontal: bool,
    channels: &[PlacedChannel],
) -> Result<(), OutOfMemory>
    ensures { IfOk result (λ _. undos_of undoings.new.items ≡ undos_of undoings.old.items ++ map
        (UndoSqueeze horizontal) (regions channels.now)) }
{
    for channel in channels {
        undoings.push(Undoing::Squeeze {
            horizontal,
            region: channel.region,
        })?;
    }
    Ok(())
}

/// Adds what undoes a squeeze step of these channels.
pub(crate) fn undo_squeeze(
    undoings: &mut Vec<Undoing>,
    channels: &ModularChannels,
    step: &SqueezeParams,
) -> Result<(), OutOfMemory>
    requires { step.now.begin_c + step.now.num_c ≤ length channels.now.placed.items }
    ensures { IfOk result (λ _. undos_of undoings.new.items ≡ undos_of undoings.old.items ++ undo_of
        (SqueezeStep step.now) (layout_of channels.now)) }
{
    let range = &channels.placed[step.begin_c..step.begin_c + step.num_c];
    undo_halves(undoings, step.horizontal, range)
}

/// Undoes a colour transform.
fn run_colour<S: Sample>(
    kind: u32,
    regions: [Region; 3],
    store: &mut [AlignedGrid<S>],
    scratch: &mut Scratch<S>,
)
    requires can { CanUndo store.old (UndoRct kind regions) }
    requires room { HasRoomForCells scratch.old (UndoRct kind regions) }
    ensures undoes { (depth : ℕ) → Undoes S.to_int S.width depth (UndoRct kind regions) store.old store.new }
    ensures room { KeepsScratch scratch.old scratch.new }
{
    inverse_rct_within(kind % 7, kind / 7, store, regions, &mut scratch.rows);
}

/// Undoes a palette of these indices, in the state of its weights.
fn run_palette<S: Sample>(
    palette: &Palette,
    table: Region,
    index: &TransformedGrid,
    store: &mut [AlignedGrid<S>],
    bit_depth: u32,
    scratch: &mut Scratch<S>,
)
    requires can { CanUndo store.old (UndoPalette palette.now table (leader_of index.now) (members_of index.now)) }
    requires narrow { IsNarrowStore store.old }
    requires deep { bit_depth ≤ 32 }
    requires room { HasRoomForCells scratch.old (UndoPalette palette.now table (leader_of index.now)
        (members_of index.now)) }
    ensures undoes { Undoes S.to_int S.width bit_depth (UndoPalette palette.now table (leader_of index.now)
        (members_of index.now)) store.old store.new }
    ensures room { KeepsScratch scratch.old scratch.new }
{
    let leader = index.leader();
    index.write_members(&mut scratch.members);
    let members = &scratch.members[..index.count()];
    if palette.wp_header.is_none() {
        let state = &mut scratch.plain;
        inverse_palette(palette, store, table, leader, members, bit_depth, state);
    } else {
        let state = &mut scratch.weighted;
        inverse_palette(palette, store, table, leader, members, bit_depth, state);
    }
}

/// Undoes a squeeze of one region.
fn run_squeeze<S: Sample>(
    horizontal: bool,
    region: Region,
    store: &mut [AlignedGrid<S>],
    scratch: &mut Scratch<S>,
)
    requires can { CanUndo store.old (UndoSqueeze horizontal region) }
    requires room { HasRoomForCells scratch.old (UndoSqueeze horizontal region) }
    ensures undoes { (depth : ℕ) → Undoes S.to_int S.width depth (UndoSqueeze horizontal region) store.old store.new }
    ensures room { KeepsScratch scratch.old scratch.new }
{
    unsqueeze(horizontal, store, region, &mut scratch.line);
}

impl Undoing {
    /// The same.
    ///
    /// # Errors
    ///
    /// `OutOfMemory`, and no other.
    pub fn try_clone(&self, alloc: Global) -> Result<Undoing, OutOfMemory>
        ensures { IfOk result (λ u. undo_of_code u ≡ undo_of_code self.now) }
    {
        match self {
            Undoing::Colour { kind, regions } => Ok(Undoing::Colour {
                kind: *kind,
                regions: *regions,
            }),
            Undoing::Palette {
                palette,
                table,
                index,
            } => Ok(Undoing::Palette {
                palette: *palette,
                table: *table,
                index: index.try_clone(alloc)?,
            }),
            Undoing::Squeeze { horizontal, region } => Ok(Undoing::Squeeze {
                horizontal: *horizontal,
                region: *region,
            }),
        }
    }

    /// Whether its regions have cells.
    pub(crate) fn have_cells(&self) -> bool
        ensures { result ≡ have_cells (undo_of_code self.now) }
    {
        let region = match self {
            Undoing::Colour { regions, .. } => regions[0],
            Undoing::Palette { index, .. } => index.leader(),
            Undoing::Squeeze { region, .. } => *region,
        };
        region.width > 0 && region.height > 0
    }

    /// Undoes it in regions that have cells.
    fn run_cells<S: Sample>(
        &self,
        store: &mut [AlignedGrid<S>],
        bit_depth: u32,
        scratch: &mut Scratch<S>,
    )
        requires can { CanUndo store.old (undo_of_code self.now) }
        requires narrow { IsNarrowStore store.old }
        requires deep { bit_depth ≤ 32 }
        requires room { HasRoomForCells scratch.old (undo_of_code self.now) }
        ensures undoes { Undoes S.to_int S.width bit_depth (undo_of_code self.now) store.old store.new }
        ensures room { KeepsScratch scratch.old scratch.new }
    {
        match self {
            Undoing::Colour { kind, regions } => run_colour(*kind, *regions, store, scratch),
            Undoing::Palette {
                palette,
                table,
                index,
            } => run_palette(palette, *table, index, store, bit_depth, scratch),
            Undoing::Squeeze { horizontal, region } => {
                run_squeeze(*horizontal, *region, store, scratch);
            }
        }
    }

    /// Undoes what it names in a store; regions without cells have nothing to undo.
    ///
    /// Its regions lie in the store as they must, no side of whose buffers is above 2^30. `bit_depth` is that of the
    /// picture, at most 32. The scratch has room for it, and the weights of a palette that has some. Cells outside
    /// the regions stay.
    pub fn run<S: Sample>(
        &self,
        store: &mut [AlignedGrid<S>],
        bit_depth: u32,
        scratch: &mut Scratch<S>,
    )
        requires can { CanUndo store.old (undo_of_code self.now) }
        requires narrow { IsNarrowStore store.old }
        requires deep { bit_depth ≤ 32 }
        requires room { HasRoomToUndo scratch.old (undo_of_code self.now) }
        ensures undoes { Undoes S.to_int S.width bit_depth (undo_of_code self.now) store.old store.new }
        ensures room { KeepsScratch scratch.old scratch.new }
    {
        if self.have_cells() {
            self.run_cells(store, bit_depth, scratch);
        }
    }
}

/// The same, in their order.
///
/// # Errors
///
/// `OutOfMemory`, and no other.
pub fn clone_all(alloc: Global, undoings: &[Undoing]) -> Result<Vec<Undoing>, OutOfMemory>
    ensures { IfOk result (λ v. undos_of v.items ≡ undos_of undoings.now) }
{
    let mut clones = Vec::new(alloc);
    for undoing in undoings {
        clones.push(undoing.try_clone(alloc)?)?;
    }
    Ok(clones)
}

/// Undoes all of these in a store, from the last to the first: each takes what those after it have left, and changes
/// no cell outside the regions that it names.
///
/// What each of them requires holds of the store as it is before, and the scratch has room for each. No memory is
/// taken, and nothing can fail.
pub fn undo_all<S: Sample>(
    undoings: &[Undoing],
    store: &mut [AlignedGrid<S>],
    bit_depth: u32,
    scratch: &mut Scratch<S>,
)
    requires can { CanUndoAll store.old (undos_of undoings.now) }
    requires narrow { IsNarrowStore store.old }
    requires deep { bit_depth ≤ 32 }
    requires room { HasRoomFor (undos_of undoings.now) scratch.old }
    ensures undoes { UndoesAll S.to_int S.width bit_depth (undos_of undoings.now) store.old store.new }
    ensures room { KeepsScratch scratch.old scratch.new }
{
    for i in 0..undoings.len() {
        let last = undoings.len() - 1 - i;
        undoings[last].run(store, bit_depth, scratch);
    }
}
