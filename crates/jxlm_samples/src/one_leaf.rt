//! Rows of a channel whose tree is one leaf, which predicts by any predictor but the weighted one.
//!
//! No state of the predictors is needed for them. Tokens are read a stretch of the row at a time, and then the stretch
//! is made of them and of the two rows above, by a loop for each predictor.

ghost use Rattle.std.specs.Prelude.{◌≡◌, ◌+◌, ◌<◌, ◌≤◌, ◌^◌, ℤ, List, get_or, map, length, slice_set, false, Contains};
ghost use Rattle.jxlm_bits.specs.Bits.{bytes_of};
ghost use Rattle.jxlm_base.specs.Regions.{grid_of, store_meanings};
ghost use Rattle.jxlm_weighted.specs.Around.{neighbours_of};
ghost use Rattle.jxlm_tree.specs.FlatTree.{HasMultiplier};
ghost use Rattle.jxlm_samples.specs.Inner.LeafRows.{IsLeafAlone, IsLeft, around_in, row_two_above, rule_below, value_below, west_west_in};
ghost use Rattle.jxlm_samples.specs.Inner.Paths.{row_above};
ghost use Rattle.jxlm_samples.specs.Inner.Rows.{IsLine, MakesCells, ReadsRow, RowGives, StretchGives};
ghost use Rattle.jxlm_samples.specs.Lines.{region_on};
ghost use Rattle.jxlm_samples.specs.Reading.{FindsClusters, tree_of};
ghost use Rattle.jxlm_samples.specs.RowNeighbours.{north_in, north_west_in, west_in};

use crate::cell::sample_from;
use crate::rows::{Line, RowError, STRETCH};
use crate::source::Source;
use jxlm_base::region::region_row;
use jxlm_base::sample::{Sample, Sealed};
use jxlm_bits::decoder::Decoder;
use jxlm_predictor::predictor::Predictor::{
    self, AvgAll, AvgNorthAndNorthEast, AvgNorthAndNorthWest, AvgWestAndNorth, AvgWestAndNorthWest,
    Gradient, North, NorthEast, NorthWest, Select, West, WestWest,
};
use jxlm_tree::flat::Leaf;
use jxlm_weighted::around::Around;

/// The two rows above the one that is read: none above the first row, and above the second one the first one twice.
#[derive(Clone, Copy)]
pub(crate) struct Above<'a, S> {
    /// The row above.
    pub(crate) one: &'a [S],
    /// The row two above.
    pub(crate) two: &'a [S],
}

/// The number of the sample in column `x` of a row above, or `other` where there is none.
#[inline(always)]
fn number_or<S: Sample>(above: &[S], x: usize, other: i32) -> i32
    ensures { result ≡ get_or (map S.to_int above.now) x other }
{
    if x < above.len() {
        above[x].to_i32()
    } else {
        other
    }
}

/// The same; without `EDGE` there is one.
#[inline(always)]
fn number_above<S: Sample, const EDGE: bool>(above: &[S], x: usize, other: i32) -> i32
    requires { EDGE ≡ false → x < length above.now }
    ensures { result ≡ get_or (map S.to_int above.now) x other }
{
    if EDGE {
        number_or(above, x, other)
    } else {
        above[x].to_i32()
    }
}

/// The same, where it was read before as `n`, in place of another number.
#[inline(always)]
fn number_again<S: Sample, const EDGE: bool>(above: &[S], x: usize, n: i32, other: i32) -> i32
    requires { EDGE ≡ false → x < length above.now }
    ensures { (e : ℤ) → n ≡ get_or (map S.to_int above.now) x e → result ≡ get_or (map S.to_int above.now) x other }
{
    if EDGE { number_or(above, x, other) } else { n }
}

/// The number to the left of column `from`.
#[inline(always)]
fn west<S: Sample>(above: &[S], row: &[S], from: usize) -> i32
    requires { from < length row.now }
    ensures { result ≡ west_in (map S.to_int above.now) (map S.to_int row.now) from }
{
    if from == 0 {
        number_or(above, 0, 0)
    } else {
        row[from - 1].to_i32()
    }
}

/// The number above that one, which is `w`.
#[inline(always)]
fn north_west<S: Sample>(above: &[S], from: usize, w: i32) -> i32
    ensures { (row : List ℤ) → w ≡ west_in (map S.to_int above.now) row from
        → result ≡ north_west_in (map S.to_int above.now) row from }
{
    if from == 0 {
        w
    } else {
        number_or(above, from - 1, w)
    }
}

/// The number two to the left of column `from`, whose left is `w`.
#[inline(always)]
fn west_west<S: Sample>(row: &[S], from: usize, w: i32) -> i32
    requires { from < length row.now }
    ensures { (above : List ℤ) → w ≡ west_in above (map S.to_int row.now) from
        → result ≡ west_west_in above (map S.to_int row.now) from }
{
    if from < 2 { w } else { row[from - 2].to_i32() }
}

/// What is two to the left of the column after `x`: in column 1 the number in column 0, else west of `x`.
#[inline(always)]
fn west_west_after(x: usize, value: i32, w: i32) -> i32
    ensures first { x ≡ 0 → result ≡ value }
    ensures later { 0 < x → result ≡ w }
{
    if x == 0 { value } else { w }
}

/// The numbers of the samples to the left of a cell, and above the nearer one.
#[derive(Clone, Copy)]
pub(crate) struct Left {
    /// Left.
    pub(crate) w: i32,
    /// Above left.
    pub(crate) nw: i32,
    /// Two to the left.
    pub(crate) ww: i32,
}

impl Left {
    /// Those of the cell in column `from`.
    #[inline(always)]
    fn of<S: Sample>(above: &[S], row: &[S], from: usize) -> Left
        requires { from < length row.now }
        ensures { IsLeft (map S.to_int above.now) (map S.to_int row.now) from result }
    {
        let w = west(above, row, from);
        let nw = north_west(above, from, w);
        let ww = west_west(row, from, w);
        Left { w, nw, ww }
    }

    /// All neighbours of the cell in column `x`. Without `EDGE` it is two or more columns away from the right edge.
    #[inline(always)]
    fn around<S: Sample, const EDGE: bool>(&self, above: Above<'_, S>, x: usize) -> Around
        requires inner { EDGE ≡ false → x + 2 < length above.one.now }
        requires as_long { length above.two.now ≡ length above.one.now }
        requires column { x + 2 < 2 ^ 64 }
        ensures { (row : List ℤ) → IsLeft (map S.to_int above.entry.one.now) row x self.now → neighbours_of result
            ≡ around_in (map S.to_int above.entry.one.now) (map S.to_int above.entry.two.now) row x }
    {
        let n = number_above::<S, EDGE>(above.one, x, self.w);
        let ne = number_above::<S, EDGE>(above.one, x + 1, n);
        let nee = number_above::<S, EDGE>(above.one, x + 2, ne);
        let nn = number_above::<S, EDGE>(above.two, x, n);
        Around {
            w: self.w,
            n,
            nw: self.nw,
            ne,
            nee,
            nn,
            ww: self.ww,
        }
    }

    /// Those of the next cell, once this number is in column `x`, below `n`.
    #[inline(always)]
    fn next<S: Sample, const EDGE: bool>(self, above: &[S], x: usize, n: i32, value: i32) -> Left
        requires { EDGE ≡ false → x < length above.now }
        ensures { (row : List ℤ) → x < length row → IsLeft (map S.to_int above.now) row x self
            → n ≡ north_in (map S.to_int above.now) row x
            → IsLeft (map S.to_int above.now) (slice_set row x value) (x + 1) result }
    {
        let nw = number_again::<S, EDGE>(above, x, n, value);
        let ww = west_west_after(x, value, self.w);
        Left { w: value, nw, ww }
    }
}

/// Writes the samples of the first `count` tokens into the row, from column `from` on; `predictor` is the leaf's. Without
/// `EDGE` they are two or more columns away from the right edge, and below a row.
#[inline(always)]
fn leaf_samples<S: Sample, const EDGE: bool>(
    tokens: &[u32],
    count: usize,
    leaf: Leaf,
    predictor: Predictor,
    above: Above<'_, S>,
    from: usize,
    row: &mut [S],
)
    requires multiplier { HasMultiplier leaf }
    requires tokens { count ≤ length tokens.now }
    requires column { from < length row.old }
    requires inside { from + count ≤ length row.old }
    requires narrow { length row.old ≤ 2 ^ 30 }
    requires as_long { length above.two.now ≡ length above.one.now }
    requires inner { EDGE ≡ false → from + count + 2 ≤ length above.one.now }
    requires same { leaf.predictor ≡ predictor }
    ensures { MakesCells (value_below S.to_int S.width leaf above.entry) (map S.to_int row.old) (map S.to_int row.new)
        from tokens.now count }
{
    let mut left = Left::of(above.one, row, from);
    for k in 0..count {
        let x = from + k;
        let around = left.around::<S, EDGE>(above, x);
        let predicted = predictor.predict_around(&around);
        let value: S = sample_from(tokens[k], leaf, predicted);
        row[x] = value;
        left = left.next::<S, EDGE>(above.one, x, around.n, value.to_i32());
    }
}

/// The same, by the loop for the leaf's predictor.
#[inline(never)]
fn samples_by<S: Sample, const EDGE: bool>(
    tokens: &[u32],
    count: usize,
    leaf: Leaf,
    above: Above<'_, S>,
    from: usize,
    row: &mut [S],
)
    requires multiplier { HasMultiplier leaf }
    requires tokens { count ≤ length tokens.now }
    requires column { from < length row.old }
    requires inside { from + count ≤ length row.old }
    requires narrow { length row.old ≤ 2 ^ 30 }
    requires as_long { length above.two.now ≡ length above.one.now }
    requires inner { EDGE ≡ false → from + count + 2 ≤ length above.one.now }
    ensures { MakesCells (value_below S.to_int S.width leaf above.entry) (map S.to_int row.old) (map S.to_int row.new)
        from tokens.now count }
{
    match leaf.predictor {
        West => leaf_samples::<S, EDGE>(tokens, count, leaf, West, above, from, row),
        North => leaf_samples::<S, EDGE>(tokens, count, leaf, North, above, from, row),
        AvgWestAndNorth => {
            leaf_samples::<S, EDGE>(tokens, count, leaf, AvgWestAndNorth, above, from, row)
        }
        Select => leaf_samples::<S, EDGE>(tokens, count, leaf, Select, above, from, row),
        Gradient => leaf_samples::<S, EDGE>(tokens, count, leaf, Gradient, above, from, row),
        NorthEast => leaf_samples::<S, EDGE>(tokens, count, leaf, NorthEast, above, from, row),
        NorthWest => leaf_samples::<S, EDGE>(tokens, count, leaf, NorthWest, above, from, row),
        WestWest => leaf_samples::<S, EDGE>(tokens, count, leaf, WestWest, above, from, row),
        AvgWestAndNorthWest => {
            leaf_samples::<S, EDGE>(tokens, count, leaf, AvgWestAndNorthWest, above, from, row)
        }
        AvgNorthAndNorthWest => {
            leaf_samples::<S, EDGE>(tokens, count, leaf, AvgNorthAndNorthWest, above, from, row)
        }
        AvgNorthAndNorthEast => {
            leaf_samples::<S, EDGE>(tokens, count, leaf, AvgNorthAndNorthEast, above, from, row)
        }
        AvgAll => leaf_samples::<S, EDGE>(tokens, count, leaf, AvgAll, above, from, row),
        other => leaf_samples::<S, EDGE>(tokens, count, leaf, other, above, from, row),
    }
}

/// The same, with tests for the edges only where there is one.
#[inline(always)]
fn samples<S: Sample>(
    tokens: &[u32],
    count: usize,
    leaf: Leaf,
    above: Above<'_, S>,
    from: usize,
    row: &mut [S],
)
    requires multiplier { HasMultiplier leaf }
    requires tokens { count ≤ length tokens.now }
    requires column { from < length row.old }
    requires inside { from + count ≤ length row.old }
    requires narrow { length row.old ≤ 2 ^ 30 }
    requires as_long { length above.two.now ≡ length above.one.now }
    ensures { MakesCells (value_below S.to_int S.width leaf above.entry) (map S.to_int row.old) (map S.to_int row.new)
        from tokens.now count }
{
    if from + count + 2 <= above.one.len() {
        samples_by::<S, false>(tokens, count, leaf, above, from, row);
    } else {
        samples_by::<S, true>(tokens, count, leaf, above, from, row);
    }
}

/// Reads as many cells of a row as there is room for tokens, from column `from` on.
#[inline(always)]
fn leaf_stretch<S: Sample, D: Decoder>(
    source: &mut Source<'_, D>,
    leaf: Leaf,
    widest: u32,
    above: Above<'_, S>,
    tokens: &mut [u32],
    from: usize,
    row: &mut [S],
) -> Result<(), RowError>
    requires multiplier { HasMultiplier leaf }
    requires cluster { Contains (D.meaning.cluster_map source.old.decoder) leaf.cluster }
    requires column { from < length row.old }
    requires inside { from + length tokens.old ≤ length row.old }
    requires narrow { length row.old ≤ 2 ^ 30 }
    requires as_long { length above.two.now ≡ length above.one.now }
    ensures { StretchGives D.meaning (λ bytes. rule_below S.to_int S.width leaf above.entry D.meaning bytes widest) from
        (length tokens.old) (map S.to_int row.old) (map S.to_int row.new) source.old source.new result }
{
    match source
        .decoder
        .read_varints_with_multiplier_clustered(&mut source.bits, leaf.cluster, widest, tokens)
    {
        Ok(()) => {
            samples(tokens, tokens.len(), leaf, above, from, row);
            Ok(())
        }
        Err(ended) => {
            samples(tokens, ended.read, leaf, above, from, row);
            Err(RowError {
                column: from + ended.read,
                error: ended.error,
            })
        }
    }
}

/// Reads a row below these.
///
/// # Errors
///
/// That of the read of one cell; the cells before are in the row then.
#[inline(never)]
fn leaf_cells<S: Sample, D: Decoder>(
    source: &mut Source<'_, D>,
    leaf: Leaf,
    widest: u32,
    above: Above<'_, S>,
    row: &mut [S],
) -> Result<(), RowError>
    requires multiplier { HasMultiplier leaf }
    requires cluster { Contains (D.meaning.cluster_map source.old.decoder) leaf.cluster }
    requires narrow { length row.old ≤ 2 ^ 30 }
    requires as_long { length above.two.now ≡ length above.one.now }
    ensures { ReadsRow D.meaning 0 (rule_below S.to_int S.width leaf above.entry D.meaning (bytes_of source.old.bits)
        widest) (map S.to_int row.new) result source.old source.new }
{
    let mut room = [0; STRETCH];
    let mut x = 0;
    while x < row.len() {
        let count = STRETCH.min(row.len() - x);
        leaf_stretch(source, leaf, widest, above, &mut room[..count], x, row)?;
        x += count;
    }
    Ok(())
}

/// The two rows above a row.
fn rows_above<'s, S: Sample, D: Decoder>(line: &Line<'_, 's, S, D>) -> Above<'s, S>
    requires { IsLine line.now }
    ensures as_long { length result.two.now ≡ length result.one.now }
    ensures one { map S.to_int result.one.now
        ≡ row_above (grid_of (store_meanings S.to_int line.now.store.now) (region_on line.now)) line.now.y }
    ensures two { map S.to_int result.two.now
        ≡ row_two_above (grid_of (store_meanings S.to_int line.now.store.now) (region_on line.now)) line.now.y }
{
    if line.y == 0 {
        return Above { one: &[], two: &[] };
    }
    let region = line.coding.region(line.i);
    let one = region_row(line.store, region, line.y - 1);
    let two = region_row(line.store, region, line.y.saturating_sub(2));
    Above { one, two }
}

/// Reads a row at one leaf, from the two rows above it.
///
/// # Errors
///
/// That of the read of one cell; the cells before are in the row then.
pub(crate) fn read_leaf<S: Sample, D: Decoder>(
    source: &mut Source<'_, D>,
    line: &Line<'_, '_, S, D>,
    leaf: Leaf,
    row: &mut [S],
) -> Result<(), RowError>
    requires line { IsLine line.now }
    requires leads { IsLeafAlone (tree_of line.now.coding.now line.now.i) leaf }
    requires clusters { FindsClusters line.now.coding.now (D.meaning.cluster_map source.old.decoder) }
    requires long { length row.old ≡ (region_on line.now).width }
    ensures { RowGives line.now D.meaning S.to_int S.width row.new source.old source.new result }
{
    let above = rows_above(line);
    leaf_cells(source, leaf, line.coding.widest, above, row)
}
