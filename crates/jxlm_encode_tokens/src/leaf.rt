//! Rows of a channel whose cells are all predicted by 0, or by the clamped gradient: no state is needed.

ghost use Rattle.std.specs.Prelude.{◌≡◌, ◌<◌, ◌+ℤ◌, ◌-ℤ◌, pos, true, false, [], length, map};
ghost use Rattle.jxlm_tree.specs.ClusterTables.{table_leaf};
ghost use Rattle.jxlm_tree.specs.Paths.{IsOnGradient};
ghost use Rattle.jxlm_samples.specs.RowNeighbours.{gradient_in, property_9_in, sum_by};
ghost use Rattle.jxlm_encode_tokens.specs.Tokens.{MultipliesByOne};
ghost use Rattle.jxlm_encode_tokens.specs.Inner.Walks.{AreLeafTokens};

use crate::form::TokenForm;
use crate::token::kept_token;
use jxlm_base::sample::{Sample, Sealed};
use jxlm_samples::above::{property_9, sample_above};
use jxlm_tree::flat::{Leaf, Steps};
use jxlm_tree::paths::ClusterTable;

/// The tokens of a row in which each cell is predicted by 0.
#[inline(never)]
pub(crate) fn zero_row<S: Sample, T: TokenForm>(leaf: Leaf, row: &[S], out: &mut [T])
    requires multiplier { MultipliesByOne leaf }
    requires long { length out.old ≡ length row.now }
    ensures { AreLeafTokens T.form S.width (λ x. leaf) (λ x. pos 0) (map S.to_int row.now) (length row.now) out.new }
{
    for x in 0..row.len() {
        out[x] = kept_token(&leaf, row[x], 0);
    }
}

/// The tokens of a row below another, or of the first one, in which each cell is predicted by the clamped gradient.
#[inline(never)]
pub(crate) fn gradient_row<S: Sample, T: TokenForm, const FIRST: bool>(
    leaf: Leaf,
    above: &[S],
    row: &[S],
    out: &mut [T],
)
    requires multiplier { MultipliesByOne leaf }
    requires columns { 0 < length row.now }
    requires first { FIRST ≡ true → above.now ≡ [] }
    requires above { FIRST ≡ false → length above.now ≡ length row.now }
    requires long { length out.old ≡ length row.now }
    ensures { AreLeafTokens T.form S.width (λ x. leaf) (gradient_in (map S.to_int above.now) (map S.to_int row.now))
        (map S.to_int row.now) (length row.now) out.new }
{
    let mut w = sample_above::<S, FIRST>(above, 0, S::from_i32(0));
    let mut nw = w;
    for x in 0..row.len() {
        let n = sample_above::<S, FIRST>(above, x, w);
        let value = row[x];
        out[x] = kept_token(&leaf, value, S::grad_clamped(n, w, nw).to_i32());
        w = value;
        nw = sample_above::<S, FIRST>(above, x, value);
    }
}

/// The leaf of a cell with these neighbours, by a table on property 9, which is clamped with `CLAMPED`.
#[inline(always)]
fn leaf_in<S: Sample, const CLAMPED: bool>(
    table: &ClusterTable,
    n: S,
    w: S,
    nw: S,
    steps: &mut Steps,
) -> Leaf
    ensures { result ≡ table_leaf table.now (sum_by CLAMPED (S.to_int w -ℤ S.to_int nw +ℤ S.to_int n)) }
{
    let leaf = table.leaf();
    Leaf {
        cluster: table.cluster(property_9::<S, CLAMPED>(n, w, nw), steps),
        predictor: leaf.predictor,
        offset: leaf.offset,
        multiplier: leaf.multiplier,
    }
}

/// The tokens of a row as `gradient_row` gives them, each at its leaf in a table on property 9.
#[inline(never)]
pub(crate) fn table_row<S: Sample, T: TokenForm, const FIRST: bool, const CLAMPED: bool>(
    table: &ClusterTable,
    above: &[S],
    row: &[S],
    out: &mut [T],
)
    requires table { IsOnGradient table.now }
    requires columns { 0 < length row.now }
    requires first { FIRST ≡ true → above.now ≡ [] }
    requires above { FIRST ≡ false → length above.now ≡ length row.now }
    requires long { length out.old ≡ length row.now }
    ensures { AreLeafTokens T.form S.width
        (λ x. table_leaf table.now (property_9_in (map S.to_int above.now) (map S.to_int row.now) CLAMPED x))
        (gradient_in (map S.to_int above.now) (map S.to_int row.now))
        (map S.to_int row.now) (length row.now) out.new }
{
    let mut steps = Steps::new();
    let mut w = sample_above::<S, FIRST>(above, 0, S::from_i32(0));
    let mut nw = w;
    for x in 0..row.len() {
        let n = sample_above::<S, FIRST>(above, x, w);
        let leaf = leaf_in::<S, CLAMPED>(table, n, w, nw, &mut steps);
        let value = row[x];
        out[x] = kept_token(&leaf, value, S::grad_clamped(n, w, nw).to_i32());
        w = value;
        nw = sample_above::<S, FIRST>(above, x, value);
    }
}
