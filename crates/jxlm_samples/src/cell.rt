//! Rows that are read cell by cell, each cell at the leaf to which its properties lead.

ghost use Rattle.std.specs.Prelude.{◌≡◌, pos, ◌+ℤ◌, ◌*ℤ◌, ◌^◌, ◌<◌, ◌≤◌, true, false, length, IfSome, None, OnOk};
ghost use Rattle.std.specs.Int.{int_wrap};
ghost use Rattle.jxlm_bits.specs.Numbers.{unpack};
ghost use Rattle.jxlm_tree.specs.FlatTree.{ClustersStandIn};
ghost use Rattle.jxlm_tree.specs.LeafSets.{AreSetsOf};
ghost use Rattle.jxlm_tree.specs.Paths.{Gives};
ghost use Rattle.jxlm_tree.specs.SumTrees.{GoesBySum};
ghost use Rattle.jxlm_predictor.specs.Holding.{IsCurrent};
ghost use Rattle.jxlm_predictor.specs.Standing.{used_weights};
ghost use Rattle.jxlm_samples.specs.Inner.Cells.{SampleGives, source_of};
ghost use Rattle.jxlm_samples.specs.Inner.Paths.{HasSets, is_walked};
ghost use Rattle.jxlm_samples.specs.Inner.Rows.{CellGives, CellsGive, HasSetsOn, IsAtCell, IsLine, IsWalked, RowGives, walk_of};
ghost use Rattle.jxlm_samples.specs.CellLeaves.{steps_walked};
ghost use Rattle.jxlm_samples.specs.ChannelSettings.{weights_at};
ghost use Rattle.jxlm_samples.specs.Lines.{AreAway, IsAway, region_on};

use crate::coding::ChannelTree;
use crate::leaf::leaf_in;
use crate::rows::{Line, RowError, inner_columns};
use crate::source::{Source, Walk};
use jxlm_base::sample::{Sample, Sealed};
use jxlm_bits::bits::Bitstream;
use jxlm_bits::decoder::{Decoder, DecoderError};
use jxlm_predictor::earlier::{EarlierRow, EarlierRows};
use jxlm_predictor::predictor::{PredictorState, Properties};
use jxlm_tree::flat::Leaf;
use jxlm_tree::paths::Path;

/// The sample of a token: times the multiplier, plus the offset and the prediction.
#[inline(always)]
pub(crate) fn sample_from<S: Sample>(token: u32, leaf: Leaf, predicted: i32) -> S
    requires { leaf.multiplier < 2 ^ 31 }
    ensures { result ≡ S.from_int (int_wrap S.width (unpack token *ℤ pos leaf.multiplier +ℤ leaf.offset +ℤ predicted)) }
{
    S::unpack_signed_u32(token)
        .wrapping_muladd_i32(leaf.multiplier as i32, leaf.offset)
        .add(S::from_i32(predicted))
}

/// Reads the sample of the cell of these properties: at the leaf to which the tree leads, over that leaf's prediction.
/// With `SETS` the leaf is found by sets of leaves.
#[inline(always)]
fn next_sample<S: Sample, D: Decoder, const SETS: bool>(
    source: &mut Source<'_, D>,
    bits: &mut Bitstream<'_>,
    properties: &Properties<'_, S>,
    tree: &ChannelTree,
    path: Path<'_>,
    clamped: bool,
    widest: u32,
) -> Result<S, DecoderError>
    requires gives { Gives tree.now.flat path }
    requires sums { clamped ≡ true → GoesBySum tree.now.flat }
    requires are { IfSome tree.now.sets (AreSetsOf tree.now.flat) }
    requires made { SETS ≡ true → HasSets tree.now clamped path }
    requires current { IsCurrent properties.now }
    requires clusters { ClustersStandIn (D.meaning.cluster_map source.old.decoder) tree.now.flat.tree }
    ensures { SampleGives D.meaning S.to_int clamped tree.now.flat widest properties.now
        (source_of source.old bits.old) (source_of source.new bits.new) S.width S.from_int
        (steps_walked path.entry tree.now.flat.tree) result }
{
    let leaf = leaf_in::<S, SETS>(tree, path, clamped, properties, &mut source.steps);
    let token = source
        .decoder
        .read_varint_with_multiplier_clustered(bits, leaf.cluster, widest)?;
    let predicted = leaf.predictor.predict(properties);
    Ok(sample_from(token, leaf, predicted))
}

/// Reads the cell in column `x` into `row`; `rows` are those of the nearest earlier channels. The walk of these parts
/// must be at this cell, and is at the next one afterwards. Without `EDGE` the cell is two or more columns and rows away
/// from every edge but the last row; without `WEIGHTED` no weights are used in the channel. With `CLAMPED` property 9 is
/// clamped. With `SETS` the leaf is found by sets of leaves.
#[inline(always)]
fn decode_cell<
    's,
    S: Sample,
    D: Decoder,
    const EDGE: bool,
    const WEIGHTED: bool,
    const CLAMPED: bool,
    const SETS: bool,
>(
    source: &mut Source<'_, D>,
    bits: &mut Bitstream<'_>,
    state: &mut PredictorState<S>,
    line: &Line<'_, 's, S, D>,
    rows: &'s [EarlierRow<'s, S>],
    row: &mut [S],
    x: usize,
) -> Result<(), DecoderError>
    requires line { IsWalked line.now rows.now }
    requires column { x < (region_on line.now).width }
    requires inner { EDGE ≡ false → IsAway x line.now.y (region_on line.now).width }
    requires without { WEIGHTED ≡ false → used_weights state.old ≡ None }
    requires clamped { line.now.clamped ≡ CLAMPED }
    requires made { SETS ≡ true → HasSetsOn line.now }
    requires at { IsAtCell line.now D.meaning S.to_int S.width x row.old
        (walk_of source.old bits.old state.old) }
    ensures { CellGives line.now D.meaning S.to_int S.width x row.old row.new
        (walk_of source.old bits.old state.old) (walk_of source.new bits.new state.new) result }
{
    let properties = state.properties_in_row::<EDGE, WEIGHTED>(line.store, rows);
    let tree = &line.coding.flats[line.i];
    let sample = next_sample::<S, D, SETS>(
        source,
        bits,
        &properties,
        tree,
        line.path,
        CLAMPED,
        line.coding.widest,
    )?;
    properties.record_in_row::<EDGE>(sample.to_i32());
    row[x] = sample;
    Ok(())
}

/// Reads the cells from column `from` to before column `to` into `row`; the walk must be at the first of them, and is
/// after the last one then. Without `EDGE` they are two or more columns and rows away from every edge but the last row;
/// without `WEIGHTED` no weights are used in the channel. With `CLAMPED` property 9 is clamped. With `SETS` leaves are
/// found by sets of leaves. The loop keeps the state and the reader in local variables.
///
/// # Errors
///
/// That of the read of one cell; the cells before are in the row then.
#[inline(never)]
fn read_cells<
    's,
    S: Sample,
    D: Decoder,
    const EDGE: bool,
    const WEIGHTED: bool,
    const CLAMPED: bool,
    const SETS: bool,
>(
    walk: &mut Walk<'_, S, D>,
    line: &Line<'_, 's, S, D>,
    rows: &'s [EarlierRow<'s, S>],
    row: &mut [S],
    from: usize,
    to: usize,
) -> Result<(), RowError>
    requires line { IsWalked line.now rows.now }
    requires order { from ≤ to }
    requires in_row { to ≤ (region_on line.now).width }
    requires inner { EDGE ≡ false → AreAway from to line.now.y (region_on line.now).width }
    requires without { WEIGHTED ≡ false → weights_at line.now.coding.now line.now.i ≡ None }
    requires clamped { line.now.clamped ≡ CLAMPED }
    requires made { SETS ≡ true → HasSetsOn line.now }
    requires at { IsAtCell line.now D.meaning S.to_int S.width from row.old walk.old }
    ensures { CellsGive line.now D.meaning S.to_int S.width from to row.old row.new walk.old walk.new result }
{
    let here = Line { ..*line };
    let mut state = walk.state.take();
    let mut bits = walk.source.bits;
    for x in from..to {
        match decode_cell::<S, D, EDGE, WEIGHTED, CLAMPED, SETS>(
            &mut walk.source,
            &mut bits,
            &mut state,
            &here,
            rows,
            row,
            x,
        ) {
            Ok(()) => (),
            Err(error) => {
                walk.state = state;
                walk.source.bits = bits;
                return Err(RowError { column: x, error });
            }
        }
    }
    walk.state = state;
    walk.source.bits = bits;
    Ok(())
}

/// Reads the row cell by cell, with property 9 not clamped; `rows` are those of the nearest earlier channels. The walk
/// must be at the row's first cell, and is after its last one then. Without `WEIGHTED` no weights are used in the
/// channel. With `SETS` leaves of inner cells are found by sets of leaves.
///
/// # Errors
///
/// That of the read of one cell; the cells before are in the row then.
#[inline(always)]
fn read_stretches<'s, S: Sample, D: Decoder, const WEIGHTED: bool, const SETS: bool>(
    walk: &mut Walk<'_, S, D>,
    line: &Line<'_, 's, S, D>,
    rows: &'s [EarlierRow<'s, S>],
    row: &mut [S],
) -> Result<(), RowError>
    requires line { IsWalked line.now rows.now }
    requires without { WEIGHTED ≡ false → weights_at line.now.coding.now line.now.i ≡ None }
    requires clamped { line.now.clamped ≡ false }
    requires made { SETS ≡ true → HasSetsOn line.now }
    requires at { IsAtCell line.now D.meaning S.to_int S.width 0 row.old walk.old }
    ensures gives { RowGives line.now D.meaning S.to_int S.width row.new walk.old.source walk.new.source result }
    ensures at { OnOk result (IsAtCell line.now D.meaning S.to_int S.width (length row.new) row.new walk.new) }
{
    let width = row.len();
    let (from, to) = inner_columns(width, line.y);
    read_cells::<S, D, true, WEIGHTED, false, false>(walk, line, rows, row, 0, from)?;
    read_cells::<S, D, false, WEIGHTED, false, SETS>(walk, line, rows, row, from, to)?;
    read_cells::<S, D, true, WEIGHTED, false, false>(walk, line, rows, row, to, width)
}

/// Reads the row cell by cell; the walk must be at its first cell, and is after its last one then.
///
/// # Errors
///
/// That of the read of one cell; the cells before are in the row then.
pub(crate) fn read_by_cells<S: Sample, D: Decoder>(
    walk: &mut Walk<'_, S, D>,
    line: &Line<'_, '_, S, D>,
    row: &mut [S],
) -> Result<(), RowError>
    requires line { IsLine line.now }
    requires walked { is_walked line.now.path ≡ true }
    requires at { IsAtCell line.now D.meaning S.to_int S.width 0 row.old walk.old }
    ensures gives { RowGives line.now D.meaning S.to_int S.width row.new walk.old.source walk.new.source result }
    ensures at { OnOk result (IsAtCell line.now D.meaning S.to_int S.width (length row.new) row.new walk.new) }
{
    let asked = line.coding.flats[line.i].asked;
    let earlier = EarlierRows::of(&walk.state, line.store, asked);
    let rows = earlier.rows();
    let width = row.len();
    match (walk.state.is_weighted(), line.clamped, line.has_sets()) {
        (true, true, _) => read_cells::<S, D, true, true, true, false>(
            walk, line, rows, row, 0, width,
        ),
        (false, true, _) => read_cells::<S, D, true, false, true, false>(
            walk, line, rows, row, 0, width,
        ),
        (true, false, true) => read_stretches::<S, D, true, true>(walk, line, rows, row),
        (true, false, false) => read_stretches::<S, D, true, false>(walk, line, rows, row),
        (false, false, true) => read_stretches::<S, D, false, true>(walk, line, rows, row),
        (false, false, false) => read_stretches::<S, D, false, false>(walk, line, rows, row),
    }
}
