//! Rows of a channel whose cells are all predicted by the clamped gradient, to which nothing is added.
//!
//! No state of the predictors is needed for them: a row is read from the row above it.

ghost use Rattle.std.specs.Prelude.{◌≡◌, ◌+◌, ◌+ℤ◌, ◌-ℤ◌, ◌<◌, ◌≤◌, true, map, length, if◌then◌else◌};
ghost use Rattle.jxlm_tree.specs.ClusterTables.{Clusters, table_leaf};
ghost use Rattle.jxlm_tree.specs.EntriesOf.{AreEntriesOf};
ghost use Rattle.jxlm_samples.specs.Inner.Paths.{AreGradients, AreLeavesOf, are_of_table, steps_by};
ghost use Rattle.jxlm_samples.specs.Inner.Rows.{GradientGives, IsLine, RowGives};
ghost use Rattle.jxlm_samples.specs.Reading.{FindsClusters, cost_of, tree_of};
ghost use Rattle.jxlm_samples.specs.Lines.{region_on};
ghost use Rattle.jxlm_samples.specs.RowNeighbours.{sum_by};

use crate::above::{property_9, sample_above, sample_again};
use crate::one_gradient::read_one_gradient;
use crate::rows::{Line, RowError};
use crate::source::Source;
use jxlm_base::region::region_row;
use jxlm_base::sample::{Sample, Sealed};
use jxlm_bits::decoder::Decoder;
use jxlm_tree::flat::{Leaf, Steps};
use jxlm_tree::paths::{ClusterEntries, ClusterTable};

/// The leaves of a channel whose cells are all predicted by the clamped gradient.
#[derive(Clone, Copy)]
pub(crate) enum Leaves<'t> {
    /// One leaf.
    One(Leaf),
    /// Those of a table on property 9, which differ in the cluster alone.
    Table(&'t ClusterTable),
}

/// The cluster of a cell with these neighbours, by the table.
#[inline(always)]
fn cluster_of<S: Sample, const CLAMPED: bool>(
    entries: &ClusterEntries<'_>,
    n: S,
    w: S,
    nw: S,
    steps: &mut Steps,
) -> u8
    ensures cluster { (t : Clusters) → AreEntriesOf t entries.now → result ≡
        (table_leaf t (sum_by CLAMPED (S.to_int w -ℤ S.to_int nw +ℤ S.to_int n))).cluster }
    ensures cost { steps.new ≡ steps.old + 1 }
{
    entries.cluster(property_9::<S, CLAMPED>(n, w, nw), steps)
}

/// Reads a row below another, or the first one, by the leaves of a table. The reader is a local variable for the length
/// of the row. With `CLAMPED` property 9 is clamped.
///
/// # Errors
///
/// That of the read of one cell; the cells before are in the row then.
#[inline(never)]
fn read_below<S: Sample, D: Decoder, const FIRST: bool, const CLAMPED: bool>(
    source: &mut Source<'_, D>,
    leaves: Leaves<'_>,
    widest: u32,
    above: &[S],
    row: &mut [S],
) -> Result<(), RowError>
    requires leaves { AreGradients (D.meaning.cluster_map source.old.decoder) leaves }
    requires kind { are_of_table leaves ≡ true }
    requires columns { 0 < length row.old }
    requires above { length above.now ≡ (if FIRST then 0 else length row.old) }
    ensures { GradientGives D.meaning S.width CLAMPED leaves.entry widest (map S.to_int above.now)
        (map S.to_int row.new) source.old source.new result }
{
    let Leaves::Table(table) = leaves else {
        unreachable!()
    };
    let kept = table.entries();
    let mut reader = source.bits;
    let mut w = sample_above::<S, FIRST>(above, 0, S::from_i32(0));
    let mut nw = w;
    for x in 0..row.len() {
        let n = sample_above::<S, FIRST>(above, x, w);
        let cluster = cluster_of::<S, CLAMPED>(&kept, n, w, nw, &mut source.steps);
        let token = match source
            .decoder
            .read_varint_with_multiplier_clustered(&mut reader, cluster, widest)
        {
            Ok(token) => token,
            Err(error) => {
                source.bits = reader;
                return Err(RowError { column: x, error });
            }
        };
        let value = S::unpack_signed_u32(token).add(S::grad_clamped(n, w, nw));
        row[x] = value;
        w = value;
        nw = sample_again::<S, FIRST>(above, x, n, value);
    }
    source.bits = reader;
    Ok(())
}

/// Reads a row below another, or the first one, by the loop for these leaves.
#[inline(always)]
fn read_by_kind<S: Sample, D: Decoder, const FIRST: bool>(
    source: &mut Source<'_, D>,
    leaves: Leaves<'_>,
    clamped: bool,
    widest: u32,
    above: &[S],
    row: &mut [S],
) -> Result<(), RowError>
    requires leaves { AreGradients (D.meaning.cluster_map source.old.decoder) leaves }
    requires columns { 0 < length row.old }
    requires above { length above.now ≡ (if FIRST then 0 else length row.old) }
    ensures { GradientGives D.meaning S.width clamped leaves.entry widest (map S.to_int above.now)
        (map S.to_int row.new) source.old source.new result }
{
    match leaves {
        Leaves::One(leaf) => read_one_gradient::<S, D, FIRST>(source, leaf, widest, above, row),
        Leaves::Table(_) if clamped => {
            read_below::<S, D, FIRST, true>(source, leaves, widest, above, row)
        }
        Leaves::Table(_) => read_below::<S, D, FIRST, false>(source, leaves, widest, above, row),
    }
}

/// Reads a row from the row above it.
///
/// # Errors
///
/// That of the read of one cell; the cells before are in the row then.
#[inline(always)]
pub(crate) fn read_gradients<S: Sample, D: Decoder>(
    source: &mut Source<'_, D>,
    line: &Line<'_, '_, S, D>,
    leaves: Leaves<'_>,
    row: &mut [S],
) -> Result<(), RowError>
    requires line { IsLine line.now }
    requires leads { AreLeavesOf (tree_of line.now.coding.now line.now.i) leaves }
    requires steps { steps_by leaves ≤ cost_of line.now.coding.now }
    requires clusters { FindsClusters line.now.coding.now (D.meaning.cluster_map source.old.decoder) }
    requires long { length row.old ≡ (region_on line.now).width }
    ensures { RowGives line.now D.meaning S.to_int S.width row.new source.old source.new result }
{
    let widest = line.coding.widest;
    if line.y == 0 {
        return read_by_kind::<S, D, true>(source, leaves, line.clamped, widest, &[], row);
    }
    let above = region_row(line.store, line.coding.region(line.i), line.y - 1);
    read_by_kind::<S, D, false>(source, leaves, line.clamped, widest, above, row)
}
