//! Rows of a channel, cell by cell: each at the leaf to which the tree leads.

ghost use Rattle.std.specs.Prelude.{◌≡◌, ◌≤◌, ℤ, List, [], ◌∷◌, ◌++◌, false, true};
ghost use Rattle.jxlm_base.specs.Regions.{store_meanings};
ghost use Rattle.jxlm_tree.specs.Paths.{Gives};
ghost use Rattle.jxlm_tree.specs.SumTrees.{GoesBySum};
ghost use Rattle.jxlm_tree.specs.Tree.{AllLeaves};
ghost use Rattle.jxlm_predictor.specs.EarlierRows.{HoldRows};
ghost use Rattle.jxlm_predictor.specs.Standing.{HasSameRoom, IsInner as IsInnerCell, IsReady, Setting, StandsAt};
ghost use Rattle.jxlm_samples.specs.Lines.{AreAway, region_on};
ghost use Rattle.jxlm_encode_tokens.specs.Tokens.{MultipliesByOne};
ghost use Rattle.jxlm_encode_tokens.specs.Inner.Walks.{IsAtToken, IsNextToken, IsTokenLine, IsTokenRow};

use crate::form::TokenForm;
use crate::token::kept_token;
use jxlm_base::region::region_row;
use jxlm_base::sample::{Sample, Sealed};
use jxlm_bits::decoder::Decoder;
use jxlm_predictor::earlier::{EarlierRow, EarlierRows};
use jxlm_predictor::predictor::PredictorState;
use jxlm_samples::leaf::leaf_of;
use jxlm_samples::rows::{Line, inner_columns};
use jxlm_tree::flat::{FlatMaTree, Steps};

/// What the walk over the cells of a part changes.
#[derive(Drop)]
pub(crate) struct TokenWalk<S> {
    /// The state of the predictors.
    pub(crate) state: PredictorState<S>,
    /// The steps that were taken in trees.
    pub(crate) steps: Steps,
}

/// The token of the sample at the walk's cell, which is in a channel that goes by this tree; the walk is at the next
/// cell afterwards. `rows` are those of the nearest earlier channels.
#[inline(always)]
fn next_token<S: Sample, D: Decoder, T: TokenForm, const EDGE: bool>(
    walk: &mut TokenWalk<S>,
    line: &Line<'_, '_, S, D>,
    flat: &FlatMaTree,
    rows: &[EarlierRow<'_, S>],
    sample: S,
) -> T
    requires ready { IsReady walk.old.state line.now.store.now }
    requires inner { EDGE ≡ false → IsInnerCell walk.old.state }
    requires rows { HoldRows walk.old.state line.now.store.now rows.now }
    requires ones { AllLeaves MultipliesByOne flat.now.tree }
    requires gives { Gives flat.now line.now.path }
    requires sums { line.now.clamped ≡ true → GoesBySum flat.now }
    ensures token { (s : Setting) (samples : List ℤ) → StandsAt walk.old.state s samples →
        IsNextToken T.form line.now.clamped flat.now S.width (store_meanings S.to_int line.now.store.now) s samples
        (S.to_int sample) result }
    ensures stands { (s : Setting) (samples : List ℤ) → StandsAt walk.old.state s samples →
        StandsAt walk.new.state s (samples ++ S.to_int sample ∷ []) }
    ensures room { HasSameRoom walk.old.state walk.new.state }
{
    let properties = walk.state.properties_by_rows::<EDGE>(line.store, rows);
    let leaf = leaf_of(flat, line.path, line.clamped, &properties, &mut walk.steps);
    let predicted = leaf.predictor.predict(&properties);
    properties.record(sample.to_i32());
    kept_token(&leaf, sample, predicted)
}

/// The tokens of the cells of a row from column `from` to before column `to`; the walk must be at the first of them, and
/// is after the last one then. `rows` are those of the nearest earlier channels. Without `EDGE` the cells are two or more
/// columns and rows away from every edge but the last row.
fn cell_tokens<S: Sample, D: Decoder, T: TokenForm, const EDGE: bool>(
    walk: &mut TokenWalk<S>,
    line: &Line<'_, '_, S, D>,
    rows: &[EarlierRow<'_, S>],
    row: &[S],
    out: &mut [T],
    from: usize,
    to: usize,
)
    requires line { IsTokenRow line.now rows.now row.now }
    requires order { from ≤ to }
    requires in_row { to ≤ (region_on line.now).width }
    requires inner { EDGE ≡ false → AreAway from to line.now.y (region_on line.now).width }
    requires at { IsAtToken line.now T.form S.width S.to_int from out.old walk.old.state }
    ensures at { IsAtToken line.now T.form S.width S.to_int to out.new walk.new.state }
    ensures room { HasSameRoom walk.old.state walk.new.state }
{
    let flat = &line.coding.flats[line.i].flat;
    for x in from..to {
        out[x] = next_token::<S, D, T, EDGE>(walk, line, flat, rows, row[x]);
    }
}

/// The tokens of a row; the walk must be at its first cell, and is after its last one then.
pub(crate) fn walked_row<S: Sample, D: Decoder, T: TokenForm>(
    walk: &mut TokenWalk<S>,
    line: &Line<'_, '_, S, D>,
    out: &mut [T],
)
    requires line { IsTokenLine line.now }
    requires at { IsAtToken line.now T.form S.width S.to_int 0 out.old walk.old.state }
    ensures at { IsAtToken line.now T.form S.width S.to_int (region_on line.now).width out.new walk.new.state }
    ensures room { HasSameRoom walk.old.state walk.new.state }
{
    let row = region_row(line.store, line.coding.region(line.i), line.y);
    let width = row.len();
    let asked = line.coding.flats[line.i].asked;
    let earlier = EarlierRows::of(&walk.state, line.store, asked);
    let rows = earlier.rows();
    let (from, to) = inner_columns(width, line.y);
    cell_tokens::<S, D, T, true>(walk, line, rows, row, out, 0, from);
    cell_tokens::<S, D, T, false>(walk, line, rows, row, out, from, to);
    cell_tokens::<S, D, T, true>(walk, line, rows, row, out, to, width);
}
