//! Images before any of their samples is decoded.

ghost use Rattle.std.specs.Prelude.{◌≡◌, ◌++◌, pos, map, IfOk, IfErr, OnOk};
ghost use Rattle.jxlm_bits.specs.ErrorKind.{NoMemory, kind_of};
ghost use Rattle.jxlm_transform.specs.Layout.{sides_of};
ghost use Rattle.jxlm_chain.specs.Placed.{sides_in};
ghost use Rattle.jxl_modular.specs.Fresh.{fresh};
ghost use Rattle.jxlm_nested.specs.Zeros.{zeros};

use super::ModularImageDestination;
use jxlm_base::grid::{AlignedGrid, Region};
use jxlm_base::sample::Sample;
use jxlm_bits::decoder::Decoder;
use jxlm_bits::error::Result;
use jxlm_chain::placed::PlacedChannels;
use jxlm_header::header::ModularHeader;
use jxlm_transform::channels::ModularChannelInfo;
use jxlm_tree::ma::MaConfig;
use std::alloc::Global;

/// For each channel a grid of its size, whose cells are 0. Out of memory is its only error.
fn zero_grids<S: Sample>(
    alloc: Global,
    channels: &[ModularChannelInfo],
) -> Result<Vec<AlignedGrid<S>>>
    ensures ok { IfOk result (λ v. v.items ≡ zeros (S.from_int (pos 0)) (sides_of channels.now)) }
    ensures err { IfErr result (λ e. kind_of e ≡ NoMemory) }
{
    let mut grids = Vec::new(alloc);
    for channel in channels {
        let grid = AlignedGrid::new(alloc, channel.width as usize, channel.height as usize)?;
        grids.push(grid)?;
    }
    Ok(grids)
}

/// The grids, and after them one for each table, whose cells are 0. Out of memory is its only error.
fn with_tables<S: Sample>(
    alloc: Global,
    mut grids: Vec<AlignedGrid<S>>,
    tables: &[Region],
) -> Result<Vec<AlignedGrid<S>>>
    ensures ok { IfOk result (λ v. v.items ≡ grids.items ++ zeros (S.from_int (pos 0)) (sides_in tables.now)) }
    ensures err { IfErr result (λ e. kind_of e ≡ NoMemory) }
{
    for table in tables {
        let grid = AlignedGrid::new(alloc, table.width, table.height)?;
        grids.push(grid)?;
    }
    Ok(grids)
}

impl<S: Sample, D: Decoder> ModularImageDestination<S, D> {
    ghost use Rattle.std.specs.Prelude.{◌≤◌};
    ghost use Rattle.jxlm_transform.specs.Params.{IsGroupDim};
    ghost use Rattle.jxl_modular.specs.Inner.Laid.{AreAskedFor, given_channels};
    ghost use Rattle.jxlm_transform.specs.Layout.{first_layout};
    ghost use Rattle.jxlm_chain.specs.Placed.{IsPlacedBy};
    ghost use Rattle.jxlm_nested.specs.Opened.{IsOpened, opened_of, steps_of_header};

    /// An image of these channels, each in a buffer of its own, whose coded channels are those that the transforms of
    /// its header leave, each in its region. It keeps what undoes the transforms. All cells are 0. The channels are
    /// those of valid parameters, at most 65536 channels are coded, and weights and palettes are those of a header that
    /// was read. Out of memory is its only error.
    pub(crate) fn new(
        alloc: Global,
        header: ModularHeader,
        ma_ctx: MaConfig<D>,
        group_dim: u32,
        bit_depth: u32,
        given: Vec<ModularChannelInfo>,
        placed: PlacedChannels,
    ) -> Result<Self>
        requires opened { IsOpened (given_channels given.items) (header, placed) }
        requires placed { IsPlacedBy (steps_of_header header) (first_layout given.items) placed }
        requires asked { AreAskedFor given.items }
        requires groups { IsGroupDim group_dim }
        requires deep { bit_depth ≤ 32 }
        ensures ok { IfOk result (λ image. image ≡ fresh (S.from_int (pos 0)) (given_channels given.items)
            (opened_of (header, placed)) ma_ctx group_dim bit_depth) }
        ensures err { IfErr result (λ e. kind_of e ≡ NoMemory) }
    {
        let grids = zero_grids(alloc, &given)?;
        let store = with_tables(alloc, grids, &placed.tables)?;
        Ok(ModularImageDestination {
            header,
            ma_ctx,
            group_dim,
            bit_depth,
            given,
            coded: placed.channels,
            store,
            undoings: placed.undoings,
        })
    }
}
