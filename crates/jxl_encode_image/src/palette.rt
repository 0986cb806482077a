//! Channels as a palette codes them.

ghost use Rattle.std.specs.Prelude.{◌≡◌, ◌≤◌, IfOk, length};
ghost use Rattle.std.specs.Option.{IfSome};
ghost use Rattle.jxl_encode_image.specs.Palettes.{IsPaletteFor, plain_palette as the_palette, plain_predictor as the_predictor};

use crate::checked::{have_sides, names_all};
use crate::colours::{ColourOrder, MAX_CHANNELS, colours_of};
use crate::grids::{index_of, table_of};
use jxlm_base::grid::{AlignedGrid, OutOfMemory};
use jxlm_base::sample::Sample;
use jxlm_predictor::predictor::Predictor;
use jxlm_transform::transform::Palette;
use std::alloc::Global;

/// The most colours of a palette that a header can spell.
const MOST_COLOURS: usize = 70911;

/// A palette, its table of colours and its channel of indices.
#[derive(Drop)]
pub struct PaletteGrids<S> {
    /// The transform.
    pub palette: Palette,
    /// A column for each colour, a row for each channel.
    pub table: AlignedGrid<S>,
    /// For each pixel the number of its colour.
    pub index: AlignedGrid<S>,
}

/// The predictor of a palette of this number of channels, which is not used without differences. By predictor 0 decoders clamp
/// the indices of one channel.
fn plain_predictor(num_c: u32) -> Predictor
    ensures { result ≡ the_predictor num_c }
{
    if num_c == 1 {
        Predictor::West
    } else {
        Predictor::Zero
    }
}

/// The palette of this number of channels, from `begin_c` on, and colours: without differences.
fn plain_palette(begin_c: u32, num_c: u32, nb_colours: u32) -> Palette
    ensures { result ≡ the_palette begin_c num_c nb_colours }
{
    Palette {
        begin_c,
        num_c,
        nb_colours,
        nb_deltas: 0,
        d_pred: plain_predictor(num_c),
        clamps_indices: false,
        implicit_rgb: true,
        wp_header: None,
    }
}

/// The palette with this table and these indices, if they are those of the channels.
fn palette_by<S: Sample>(
    grids: &[AlignedGrid<S>],
    begin_c: u32,
    table: AlignedGrid<S>,
    index: AlignedGrid<S>,
) -> Option<PaletteGrids<S>>
    ensures { IfSome result (λ p. IsPaletteFor S.to_int S.width begin_c grids.now p.palette p.table p.index) }
{
    let channels = grids.len();
    if channels == 0 || channels > MAX_CHANNELS {
        return None;
    }
    let colours = table.width();
    let columns = index.width();
    if columns == 0 || colours > MOST_COLOURS {
        return None;
    }
    if !names_all(grids, &table, &index) {
        return None;
    }
    let palette = plain_palette(begin_c, channels as u32, colours as u32);
    Some(PaletteGrids {
        palette,
        table,
        index,
    })
}

/// A table of colours and a channel of indices.
#[derive(Drop)]
pub struct TableGrids<S> {
    /// A column for each colour, a row for each channel.
    pub table: AlignedGrid<S>,
    /// For each pixel the number of its colour.
    pub index: AlignedGrid<S>,
}

/// The table and the indices of one to four channels of one size; none, if they have no samples, or more than `most` colours,
/// or are not of one size. What they are is a heuristic: [`palette_of`] looks whether they are those of the channels.
///
/// # Errors
///
/// `OutOfMemory`, and no other. It takes a cell of memory for each pixel, and some tens of bytes for each of `most` colours.
pub fn tables_of<S: Sample>(
    alloc: Global,
    grids: &[AlignedGrid<S>],
    order: ColourOrder,
    most: usize,
) -> Result<Option<TableGrids<S>>, OutOfMemory> {
    let Some(first) = grids.get(0) else {
        return Ok(None);
    };
    let (width, height) = (first.width(), first.height());
    if grids.len() > MAX_CHANNELS || !have_sides(grids, width, height) {
        return Ok(None);
    }
    let Some(colours) = colours_of(alloc, grids, width, height, order, most)? else {
        return Ok(None);
    };
    let table = table_of(alloc, &colours, grids.len())?;
    let index = index_of(alloc, grids, &colours, width, height)?;
    Ok(Some(TableGrids { table, index }))
}

/// The palette of one to four channels of one size, the first of which is channel `begin_c` of the image. None, if they
/// have no samples, or more than `most` colours, or are not of one size. Whether a palette is found is a heuristic, and so
/// is the order of its colours, which `order` asks for; one that is found has the channels as its only image.
///
/// # Errors
///
/// `OutOfMemory`, and no other. It takes a cell of memory for each pixel, and some tens of bytes for each of `most` colours.
pub fn palette_of<S: Sample>(
    alloc: Global,
    grids: &[AlignedGrid<S>],
    begin_c: u32,
    order: ColourOrder,
    most: usize,
) -> Result<Option<PaletteGrids<S>>, OutOfMemory>
    ensures { IfOk result (λ o. IfSome o (λ p. IsPaletteFor S.to_int S.width begin_c grids.now p.palette p.table
        p.index)) }
{
    let Some(found) = tables_of(alloc, grids, order, most)? else {
        return Ok(None);
    };
    Ok(palette_by(grids, begin_c, found.table, found.index))
}
