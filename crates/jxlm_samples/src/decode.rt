//! The loops that decode the samples of a part, in the order of its cells.

ghost use Rattle.std.specs.Prelude.{◌≡◌, ◌+◌, ◌<◌, ◌≤◌, ◌⊎◌, IfSome, OnOk, true, false, length};
ghost use Rattle.jxlm_samples.specs.Part.{cells_before, cell_count, clamps};
ghost use Rattle.jxlm_tree.specs.FlatTree.{FlatTree};
ghost use Rattle.jxlm_samples.specs.ChannelSettings.{IsNext, region_at};
ghost use Rattle.jxlm_samples.specs.Inner.Levels.{CanBegin, HasRooms, IsAtChannel, IsAtRow, IsOnPath};
ghost use Rattle.jxlm_samples.specs.Inner.LeafRows.{IsLeafAlone};
ghost use Rattle.jxlm_samples.specs.Inner.Paths.{IsLonePath, IsReadable, IsReadableZero, is_walked};
ghost use Rattle.jxlm_tree.specs.declared.paths.Path.{Path};
ghost use Rattle.jxlm_tree.specs.declared.paths.Path.TheVariants.{Constant, Zero};
ghost use Rattle.jxlm_samples.specs.Inner.Progress.{PartGives, WalkGives, moment, place_of};
ghost use Rattle.jxlm_samples.specs.Inner.Rows.{IsDecodingPart, IsOnlySample, RowGives};
ghost use Rattle.jxlm_samples.specs.Reading.{FindsClusters, LeadsAlone, part_of, regions_of, row_width};
ghost use Rattle.jxlm_samples.specs.Lines.{region_on};

use crate::cell::{read_by_cells, sample_from};
use crate::coding::{Alone, PartCoding, start_channel};
use crate::gradient::{Leaves, read_gradients};
use crate::one_leaf::read_leaf;
use crate::rows::{ChannelRows, Line, RowError, fill_row, write_read};
use crate::source::Walk;
use crate::zeros::read_zeros;
use jxlm_base::grid::AlignedGrid;
use jxlm_base::sample::Sample;
use jxlm_bits::decoder::{Decoder, DecoderError};
use jxlm_predictor::predictor::{Predictor, PredictorState};
use jxlm_tree::flat::{FlatMaTree, Leaf};
use jxlm_tree::paths::Path;

/// Reads a row of a path that is not a leaf or a table on the gradient alone: at its only leaf, or cell by cell.
///
/// # Errors
///
/// That of the read of one cell; the cells before are in the row then.
fn read_walked<S: Sample, D: Decoder>(
    walk: &mut Walk<'_, S, D>,
    line: &Line<'_, '_, S, D>,
    only: Option<Leaf>,
    row: &mut [S],
) -> Result<(), RowError>
    requires walked { is_walked line.now.path ≡ true }
    requires below { line.now.y < (region_on line.now).height }
    requires long { length row.old ≡ (region_on line.now).width }
    requires at { IsAtRow D.meaning line.now.coding.now walk.old S.to_int line.now.store.now line.now.path only
        line.now.i line.now.y }
    requires clamped { line.now.clamped ≡ clamps (part_of line.now.coding.now) line.now.i }
    ensures gives { RowGives line.now D.meaning S.to_int S.width row.new walk.old.source walk.new.source result }
    ensures state { OnOk result (IsOnPath line.now S.to_int row.new only walk.new) }
{
    match only {
        Some(leaf) => read_leaf(&mut walk.source, line, leaf, row),
        None => read_by_cells(walk, line, row),
    }
}

/// Reads a row: at a leaf, from the row above, or cell by cell.
///
/// # Errors
///
/// That of the read of one cell; the cells before are in the row then.
fn read_row<S: Sample, D: Decoder>(
    walk: &mut Walk<'_, S, D>,
    line: &Line<'_, '_, S, D>,
    only: Option<Leaf>,
    row: &mut [S],
) -> Result<(), RowError>
    requires below { line.now.y < (region_on line.now).height }
    requires long { length row.old ≡ (region_on line.now).width }
    requires at { IsAtRow D.meaning line.now.coding.now walk.old S.to_int line.now.store.now line.now.path only
        line.now.i line.now.y }
    requires clamped { line.now.clamped ≡ clamps (part_of line.now.coding.now) line.now.i }
    ensures gives { RowGives line.now D.meaning S.to_int S.width row.new walk.old.source walk.new.source result }
    ensures state { OnOk result (IsOnPath line.now S.to_int row.new only walk.new) }
{
    match line.path {
        Path::Constant(leaf) | Path::Zero(leaf) => {
            read_zeros(&mut walk.source, leaf, line.coding.widest, row)
        }
        Path::Gradient(leaf) | Path::Runs(leaf) => {
            read_gradients(&mut walk.source, line, Leaves::One(leaf), row)
        }
        Path::GradientClusters(table) => {
            read_gradients(&mut walk.source, line, Leaves::Table(table), row)
        }
        Path::Clusters(_) | Path::Tree => read_walked(walk, line, only, row),
    }
}

/// The sample of each cell that is read at a leaf, over a prediction of 0, where the decoder has only one token for it.
fn only_sample_at<S: Sample, D: Decoder>(decoder: &D, leaf: Leaf) -> Option<S>
    requires readable { IsReadable (D.meaning.cluster_map decoder.now) leaf }
    ensures { (p : Path) → (p ≡ Constant leaf) ⊎ (p ≡ Zero leaf)
        → IfSome result (IsOnlySample D.meaning decoder.now p S.width S.to_int) }
{
    match decoder.single_token(leaf.cluster) {
        Some(token) => Some(sample_from(token, leaf, 0)),
        None => None,
    }
}

/// The sample of each cell of a path's rows, where the path is one leaf that predicts by 0, for which the decoder has
/// only one token.
fn only_sample<S: Sample, D: Decoder>(decoder: &D, path: Path<'_>) -> Option<S>
    requires readable { IsReadableZero (D.meaning.cluster_map decoder.now) path }
    ensures { IfSome result (IsOnlySample D.meaning decoder.now path.entry S.width S.to_int) }
{
    match path {
        Path::Constant(leaf) => only_sample_at(decoder, leaf),
        Path::Zero(leaf) => only_sample_at(decoder, leaf),
        _ => None,
    }
}

/// Reads row `y` of the channel into the store; `row` is room for it. A row whose cells are all alike is filled there.
fn decode_row<'x, S: Sample, D: Decoder>(
    walk: &mut Walk<'_, S, D>,
    rows: &ChannelRows<'x, D>,
    store: &mut [AlignedGrid<S>],
    row: &mut [S],
    y: usize,
) -> Result<(), DecoderError>
    requires below { y < (region_at (regions_of rows.now.coding.now) rows.now.i).height }
    requires long { length row.old ≡ (region_at (regions_of rows.now.coding.now) rows.now.i).width }
    requires at { IsAtRow D.meaning rows.now.coding.now walk.old S.to_int store.old rows.now.path rows.now.only
        rows.now.i y }
    requires clamped { rows.now.clamped ≡ clamps (part_of rows.now.coding.now) rows.now.i }
    ensures gives { WalkGives rows.now.coding.now D.meaning S.width S.to_int
        (place_of (part_of rows.now.coding.now) rows.now.i 0 y)
        (place_of (part_of rows.now.coding.now) rows.now.i 0 (y + 1)) result
        (moment walk.old.source store.old) (moment walk.new.source store.new) }
    ensures at { OnOk result (IsAtRow D.meaning rows.now.coding.now walk.new S.to_int store.new rows.now.path
        rows.now.only rows.now.i (y + 1)) }
{
    if let Some(value) = only_sample(&walk.source.decoder, rows.path) {
        fill_row(store, rows.coding.region(rows.i), y, value);
        return Ok(());
    }
    let line = Line {
        coding: rows.coding,
        store,
        path: rows.path,
        i: rows.i,
        y,
        clamped: rows.clamped,
    };
    let read = read_row(walk, &line, rows.only, row);
    write_read(store, rows.coding.region(rows.i), y, row, read)
}

/// Reads the rows of the channel, which is begun; `row` is room for one.
fn decode_rows<'x, S: Sample, D: Decoder>(
    walk: &mut Walk<'_, S, D>,
    rows: &ChannelRows<'x, D>,
    store: &mut [AlignedGrid<S>],
    row: &mut [S],
) -> Result<(), DecoderError>
    requires long { length row.old ≡ (region_at (regions_of rows.now.coding.now) rows.now.i).width }
    requires at { IsAtRow D.meaning rows.now.coding.now walk.old S.to_int store.old rows.now.path rows.now.only
        rows.now.i 0 }
    requires clamped { rows.now.clamped ≡ clamps (part_of rows.now.coding.now) rows.now.i }
    ensures gives { WalkGives rows.now.coding.now D.meaning S.width S.to_int
        (place_of (part_of rows.now.coding.now) rows.now.i 0 0)
        (place_of (part_of rows.now.coding.now) rows.now.i 0
        (region_at (regions_of rows.now.coding.now) rows.now.i).height) result
        (moment walk.old.source store.old) (moment walk.new.source store.new) }
    ensures at { OnOk result (IsAtRow D.meaning rows.now.coding.now walk.new S.to_int store.new rows.now.path
        rows.now.only rows.now.i (region_at (regions_of rows.now.coding.now) rows.now.i).height) }
{
    for y in 0..rows.coding.region(rows.i).height {
        decode_row(walk, rows, store, row, y)?;
    }
    Ok(())
}

/// How the rows of a channel are read by a leaf or a table alone.
fn lone_path(alone: &Alone) -> Path<'_>
    ensures { (t : FlatTree) → LeadsAlone t alone.now → IsLonePath t result }
{
    match alone {
        Alone::Leaf(leaf) if leaf.predictor == Predictor::Zero => Path::Zero(*leaf),
        Alone::Leaf(leaf) => Path::Gradient(*leaf),
        Alone::Table(table) => Path::GradientClusters(table),
    }
}

/// The leaf at which all samples of the channel are read, where there is one that needs no weights.
fn lone_leaf(flat: &FlatMaTree) -> Option<Leaf>
    ensures { IfSome result (IsLeafAlone flat.now) }
{
    match flat.only_leaf() {
        Some(leaf) if leaf.predictor != Predictor::SelfCorrecting => Some(leaf),
        _ => None,
    }
}

/// How the rows of channel `i` are read. Where they are read in the state of the predictors, it is put at the first cell
/// of the channel; else it is left alone.
fn begin_channel<'x, S: Sample, D: Decoder>(
    state: &mut PredictorState<S>,
    coding: &'x PartCoding<'x, D>,
    decoder: &D,
    i: usize,
) -> Path<'x>
    requires next { IsNext coding.now i state.old }
    requires clusters { FindsClusters coding.now (D.meaning.cluster_map decoder.now) }
    ensures { CanBegin coding.now S.to_int i result state.new }
{
    if let Some(alone) = &coding.flats[i].alone {
        return lone_path(alone);
    }
    start_channel(state, coding, i);
    coding.flats[i].flat.path_of(decoder)
}

/// Reads channel `i`, row by row; one without columns or rows has no cell. `scratch` has room for a row.
fn decode_channel<'x, S: Sample, D: Decoder>(
    walk: &mut Walk<'_, S, D>,
    coding: &'x PartCoding<'x, D>,
    store: &mut [AlignedGrid<S>],
    scratch: &mut [S],
    i: usize,
) -> Result<(), DecoderError>
    requires channel { i < length (regions_of coding.now) }
    requires room { row_width coding.now ≤ length scratch.old }
    requires at { IsAtChannel D.meaning coding.now walk.old store.old i }
    ensures gives { WalkGives coding.now D.meaning S.width S.to_int
        (cells_before (part_of coding.now).channels i) (cells_before (part_of coding.now).channels (i + 1)) result
        (moment walk.old.source store.old) (moment walk.new.source store.new) }
    ensures at { OnOk result (IsAtChannel D.meaning coding.now walk.new store.new (i + 1)) }
{
    let region = coding.region(i);
    if region.width == 0 || region.height == 0 {
        return Ok(());
    }
    let path = begin_channel(&mut walk.state, coding, &walk.source.decoder, i);
    let only = lone_leaf(&coding.flats[i].flat);
    let clamped = coding.clamps(i);
    let rows = ChannelRows {
        coding,
        i,
        path,
        only,
        clamped,
    };
    let row = &mut scratch[..region.width];
    decode_rows(walk, &rows, store, row)
}

/// Reads all channels of a part, in order. `scratch` has room for a row of each that has cells.
fn decode_channels<'x, S: Sample, D: Decoder>(
    walk: &mut Walk<'_, S, D>,
    coding: &'x PartCoding<'x, D>,
    store: &mut [AlignedGrid<S>],
    scratch: &mut [S],
) -> Result<(), DecoderError>
    requires room { row_width coding.now ≤ length scratch.old }
    requires at { IsAtChannel D.meaning coding.now walk.old store.old 0 }
    ensures { WalkGives coding.now D.meaning S.width S.to_int 0 (cell_count (part_of coding.now).channels) result
        (moment walk.old.source store.old) (moment walk.new.source store.new) }
{
    for i in 0..coding.channels.len() {
        decode_channel(walk, coding, store, scratch, i)?;
    }
    Ok(())
}

/// Decodes all samples of a part (ISO/IEC 18181-1, Modular: decoding of samples): the decoder begins, the channels are
/// read in order, and the decoder accepts the end. `scratch` has room for a row of each channel that has cells.
///
/// # Errors
///
/// That of the beginning, of the read of one cell, or of the end; the cells before are decoded then, and the others
/// are as they were.
pub(crate) fn decode_part<'x, S: Sample, D: Decoder>(
    walk: &mut Walk<'_, S, D>,
    coding: &'x PartCoding<'x, D>,
    store: &mut [AlignedGrid<S>],
    scratch: &mut [S],
) -> Result<(), DecoderError>
    requires part { IsDecodingPart coding.now store.old }
    requires clusters { FindsClusters coding.now (D.meaning.cluster_map walk.old.source.decoder) }
    requires rooms { HasRooms coding.now walk.old.state scratch.old }
    ensures { PartGives coding.now D.meaning S.width S.to_int
        (moment walk.old.source store.old) (moment walk.new.source store.new) result }
{
    let mut bits = walk.source.bits;
    walk.source.decoder.begin(&mut bits)?;
    walk.source.bits = bits;
    decode_channels(walk, coding, store, scratch)?;
    walk.source.decoder.finalize()?;
    Ok(())
}
