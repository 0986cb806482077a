//! The tokens of all samples of a part, in the order of its cells.

ghost use Rattle.std.specs.Prelude.{◌≡◌, ◌+◌, ◌^◌, ◌<◌, ◌≤◌, IfOk, OnOk, length};
ghost use Rattle.jxlm_base.specs.Regions.{grids_in, store_meanings};
ghost use Rattle.jxlm_tree.specs.FlatTree.{FlatTree};
ghost use Rattle.jxlm_tree.specs.Paths.{IsGradientTable};
ghost use Rattle.jxlm_tree.specs.Tree.{AllLeaves};
ghost use Rattle.jxlm_transform.specs.Channels.{infos, regions};
ghost use Rattle.jxlm_samples.specs.ChannelSettings.{IsAfterChannel, StandsAfter, region_at};
ghost use Rattle.jxlm_samples.specs.Part.{cells_before, cells_of, clamps};
ghost use Rattle.jxlm_samples.specs.Placed.{PartLies, part_placed};
ghost use Rattle.jxlm_weighted.specs.SelfCorrecting.{IsHeader};
ghost use Rattle.jxlm_samples.specs.Reading.{sampled_width as the_sampled_width};
ghost use Rattle.jxlm_samples.specs.Reading.{HasFlats, HasRoom, IsRoomyFor, LeadsAlone, part_of, regions_of, row_width, tree_of};
ghost use Rattle.jxlm_encode_tokens.specs.Tokens.{AreClusteredTokensOf, AreTokensOf, MultipliesByOne};
ghost use Rattle.jxlm_encode_tokens.specs.Inner.Walks.{AreFirstTokens, AreLoneLeaves, AreRowTokens, IsInChannel, IsLoneLeaf, IsWalked};
ghost use Rattle.jxlm_encode_tokens.specs.Inner.Forms.{AreCellTokens};

use crate::form::TokenForm;
use crate::leaf::{gradient_row, table_row, zero_row};
use crate::rows::{TokenWalk, walked_row};
use jxlm_base::grid::{AlignedGrid, OutOfMemory};
use jxlm_base::region::region_row;
use jxlm_base::sample::Sample;
use jxlm_bit_writer::token::Token;
use jxlm_bits::decoder::Decoder;
use jxlm_bits::error::Result;
use jxlm_predictor::predictor::Predictor;
use jxlm_samples::channels::{max_width, sampled_width};
use jxlm_samples::coding::{
    Alone, ChannelTree, PartCoding, PartState, flat_trees, roomy_state, start_channel,
};
use jxlm_samples::part::PlacedPart;
use jxlm_samples::rows::Line;
use jxlm_transform::channels::PlacedChannel;
use jxlm_tree::flat::{Leaf, Steps};
use jxlm_tree::paths::{ClusterTable, Path};
use std::alloc::Global;

/// The leaves of a channel whose rows need no state of the predictors.
#[derive(Clone, Copy)]
pub(crate) enum LoneLeaves<'t> {
    /// One leaf, as which all are but for what is not kept.
    One(Leaf),
    /// Those of a table on property 9.
    Table(&'t ClusterTable),
}

/// The leaves by which a channel is read alone. Those of a table are one but for their clusters.
fn lone_leaves<T: TokenForm>(alone: &Alone) -> LoneLeaves<'_>
    ensures { (t : FlatTree) → LeadsAlone t alone.now → AllLeaves MultipliesByOne t.tree
        → AreLoneLeaves T.form.clustered t result }
{
    match alone {
        Alone::Leaf(leaf) => LoneLeaves::One(*leaf),
        Alone::Table(table) if T::has_cluster() => LoneLeaves::Table(table),
        Alone::Table(_) => LoneLeaves::One(Leaf {
            cluster: 0,
            predictor: Predictor::Gradient,
            offset: 0,
            multiplier: 1,
        }),
    }
}

/// The tokens of row `y` of channel `i`, whose leaves are as this one.
fn leaf_row<S: Sample, D: Decoder, T: TokenForm>(
    store: &[AlignedGrid<S>],
    coding: &PartCoding<'_, D>,
    leaf: Leaf,
    out: &mut [T],
    i: usize,
    y: usize,
)
    requires here { IsInChannel coding.now store.now i }
    requires leaf { IsLoneLeaf T.form.clustered (tree_of coding.now i) leaf }
    requires below { y < (region_at (regions_of coding.now) i).height }
    requires columns { 0 < (region_at (regions_of coding.now) i).width }
    requires long { length out.old ≡ (region_at (regions_of coding.now) i).width }
    ensures { AreRowTokens coding.now S.width S.to_int store.now T.form i y
        (region_at (regions_of coding.now) i).width out.new }
{
    let region = coding.region(i);
    let row = region_row(store, region, y);
    match leaf.predictor {
        Predictor::Zero => zero_row(leaf, row, out),
        _ if y == 0 => gradient_row::<S, T, true>(leaf, &[], row, out),
        _ => gradient_row::<S, T, false>(leaf, region_row(store, region, y - 1), row, out),
    }
}

/// The tokens of row `y` of channel `i`, whose leaves are those of a table on property 9, which is clamped with
/// `CLAMPED`.
fn row_by_table<S: Sample, D: Decoder, T: TokenForm, const CLAMPED: bool>(
    store: &[AlignedGrid<S>],
    coding: &PartCoding<'_, D>,
    table: &ClusterTable,
    out: &mut [T],
    i: usize,
    y: usize,
)
    requires here { IsInChannel coding.now store.now i }
    requires table { IsGradientTable (tree_of coding.now i) table.now }
    requires clamped { CLAMPED ≡ clamps (part_of coding.now) i }
    requires below { y < (region_at (regions_of coding.now) i).height }
    requires columns { 0 < (region_at (regions_of coding.now) i).width }
    requires long { length out.old ≡ (region_at (regions_of coding.now) i).width }
    ensures { AreRowTokens coding.now S.width S.to_int store.now T.form i y
        (region_at (regions_of coding.now) i).width out.new }
{
    let region = coding.region(i);
    let row = region_row(store, region, y);
    if y == 0 {
        table_row::<S, T, true, CLAMPED>(table, &[], row, out);
    } else {
        table_row::<S, T, false, CLAMPED>(table, region_row(store, region, y - 1), row, out);
    }
}

/// The tokens of row `y` of channel `i`, which has these leaves.
fn lone_row<S: Sample, D: Decoder, T: TokenForm>(
    store: &[AlignedGrid<S>],
    coding: &PartCoding<'_, D>,
    leaves: LoneLeaves<'_>,
    out: &mut [T],
    i: usize,
    y: usize,
)
    requires here { IsInChannel coding.now store.now i }
    requires leaves { AreLoneLeaves T.form.clustered (tree_of coding.now i) leaves }
    requires below { y < (region_at (regions_of coding.now) i).height }
    requires columns { 0 < (region_at (regions_of coding.now) i).width }
    requires long { length out.old ≡ (region_at (regions_of coding.now) i).width }
    ensures { AreRowTokens coding.now S.width S.to_int store.now T.form i y
        (region_at (regions_of coding.now) i).width out.new }
{
    match leaves {
        LoneLeaves::One(leaf) => leaf_row(store, coding, leaf, out, i, y),
        LoneLeaves::Table(table) if coding.clamps(i) => {
            row_by_table::<S, D, T, true>(store, coding, table, out, i, y)
        }
        LoneLeaves::Table(table) => {
            row_by_table::<S, D, T, false>(store, coding, table, out, i, y)
        }
    }
}

/// Adds the tokens of the rows of channel `i`, which has these leaves; `out` is room for a row.
fn push_lone_rows<S: Sample, D: Decoder, T: TokenForm>(
    tokens: &mut Vec<T>,
    store: &[AlignedGrid<S>],
    coding: &PartCoding<'_, D>,
    leaves: LoneLeaves<'_>,
    out: &mut [T],
    i: usize,
) -> std::result::Result<(), OutOfMemory>
    requires here { IsInChannel coding.now store.now i }
    requires leaves { AreLoneLeaves T.form.clustered (tree_of coding.now i) leaves }
    requires columns { 0 < (region_at (regions_of coding.now) i).width }
    requires long { length out.old ≡ (region_at (regions_of coding.now) i).width }
    requires before { AreFirstTokens coding.now S.width S.to_int store.now T.form
        (cells_before (part_of coding.now).channels i) tokens.old.items }
    ensures { OnOk result (AreFirstTokens coding.now S.width S.to_int store.now T.form
        (cells_before (part_of coding.now).channels (i + 1)) tokens.new.items) }
{
    for y in 0..coding.region(i).height {
        lone_row(store, coding, leaves, out, i, y);
        tokens.extend_from_slice(out)?;
    }
    Ok(())
}

/// Adds the tokens of the rows of channel `i`, cell by cell; the walk must be at its first cell. `out` is room for a row.
fn push_walked_rows<'x, S: Sample, D: Decoder, T: TokenForm>(
    tokens: &mut Vec<T>,
    walk: &mut TokenWalk<S>,
    store: &[AlignedGrid<S>],
    coding: &'x PartCoding<'x, D>,
    out: &mut [T],
    i: usize,
) -> std::result::Result<(), OutOfMemory>
    requires here { IsInChannel coding.now store.now i }
    requires columns { 0 < (region_at (regions_of coding.now) i).width }
    requires long { length out.old ≡ (region_at (regions_of coding.now) i).width }
    requires roomy { HasRoom coding.now walk.old.state }
    requires stands { StandsAfter coding.now S.to_int store.now i 0 walk.old.state }
    requires before { AreFirstTokens coding.now S.width S.to_int store.now T.form
        (cells_before (part_of coding.now).channels i) tokens.old.items }
    ensures tokens { OnOk result (AreFirstTokens coding.now S.width S.to_int store.now T.form
        (cells_before (part_of coding.now).channels (i + 1)) tokens.new.items) }
    ensures roomy { OnOk result (HasRoom coding.now walk.new.state) }
    ensures last { OnOk result (IsAfterChannel coding.now (i + 1) walk.new.state) }
{
    let clamped = coding.clamps(i);
    for y in 0..coding.region(i).height {
        let line = Line {
            coding,
            store,
            path: Path::Tree,
            i,
            y,
            clamped,
        };
        walked_row(walk, &line, out);
        tokens.extend_from_slice(out)?;
    }
    Ok(())
}

/// Adds the tokens of channel `i`; one without columns or rows has none. `scratch` has room for a row.
fn push_channel<'x, S: Sample, D: Decoder, T: TokenForm>(
    tokens: &mut Vec<T>,
    walk: &mut TokenWalk<S>,
    store: &[AlignedGrid<S>],
    coding: &'x PartCoding<'x, D>,
    scratch: &mut [T],
    i: usize,
) -> std::result::Result<(), OutOfMemory>
    requires walked { IsWalked coding.now store.now }
    requires channel { i < length (regions_of coding.now) }
    requires roomy { HasRoom coding.now walk.old.state }
    requires room { row_width coding.now ≤ length scratch.old }
    requires last { IsAfterChannel coding.now i walk.old.state }
    requires before { AreFirstTokens coding.now S.width S.to_int store.now T.form
        (cells_before (part_of coding.now).channels i) tokens.old.items }
    ensures tokens { OnOk result (AreFirstTokens coding.now S.width S.to_int store.now T.form
        (cells_before (part_of coding.now).channels (i + 1)) tokens.new.items) }
    ensures roomy { OnOk result (HasRoom coding.now walk.new.state) }
    ensures last { OnOk result (IsAfterChannel coding.now (i + 1) walk.new.state) }
{
    let region = coding.region(i);
    if region.width == 0 || region.height == 0 {
        return Ok(());
    }
    let out = &mut scratch[..region.width];
    if let Some(alone) = &coding.flats[i].alone {
        return push_lone_rows(tokens, store, coding, lone_leaves::<T>(alone), out, i);
    }
    start_channel(&mut walk.state, coding, i);
    push_walked_rows(tokens, walk, store, coding, out, i)
}

/// Adds the tokens of all channels, in order. `scratch` has room for a row of each that has cells.
fn push_channels<'x, S: Sample, D: Decoder, T: TokenForm>(
    tokens: &mut Vec<T>,
    walk: &mut TokenWalk<S>,
    store: &[AlignedGrid<S>],
    coding: &'x PartCoding<'x, D>,
    scratch: &mut [T],
) -> std::result::Result<(), OutOfMemory>
    requires walked { IsWalked coding.now store.now }
    requires roomy { HasRoom coding.now walk.old.state }
    requires room { row_width coding.now ≤ length scratch.old }
    requires before { AreFirstTokens coding.now S.width S.to_int store.now T.form 0 tokens.old.items }
    ensures { OnOk result (AreFirstTokens coding.now S.width S.to_int store.now T.form
        (cells_before (part_of coding.now).channels (length (regions_of coding.now))) tokens.new.items) }
{
    for i in 0..coding.channels.len() {
        push_channel(tokens, walk, store, coding, scratch, i)?;
    }
    Ok(())
}

/// How many cells the channels have, or the greatest number where they have more.
fn count_cells(channels: &[PlacedChannel]) -> usize {
    let mut count: usize = 0;
    for channel in channels {
        let region = channel.region;
        count = count.saturating_add(region.width.saturating_mul(region.height));
    }
    count
}

/// What is made ready before the first token.
#[derive(Drop)]
struct Made<S> {
    /// The tree as each channel walks it.
    flats: Vec<ChannelTree>,
    /// The state of the predictors, with room for each channel that has samples.
    state: PartState<S>,
}

/// Makes it ready. Out of memory is the only error.
fn make_ready<S: Sample, D: Decoder>(alloc: Global, part: &PlacedPart<'_, D>) -> Result<Made<S>>
    requires widest { the_sampled_width (infos part.now.channels.now) ≤ 2 ^ 30 }
    requires weights { IsHeader part.now.weights }
    requires few { length part.now.channels.now ≤ 65536 }
    ensures flats { IfOk result (λ m. HasFlats part.now.config.now.tree part.now.stream_index
        (length part.now.channels.now) m.flats.items) }
    ensures room { IfOk result (λ m. IsRoomyFor (the_sampled_width (infos part.now.channels.now))
        (the_sampled_width (infos part.now.channels.now)) part.now.weights m.flats.items m.state) }
{
    let flats = flat_trees(
        alloc,
        part.config,
        part.stream_index,
        part.channels.len() as u32,
        &[],
    )?;
    let widest = sampled_width(part.channels);
    let state = roomy_state(alloc, &flats, widest, widest, &part.weights)?;
    Ok(Made { flats, state })
}

/// What is kept of the tokens of all samples of a part. Out of memory is the only error.
fn all_tokens<S: Sample, D: Decoder, T: TokenForm>(
    alloc: Global,
    part: &PlacedPart<'_, D>,
    store: &[AlignedGrid<S>],
) -> std::result::Result<Vec<T>, OutOfMemory>
    requires lies { PartLies part.now store.now }
    requires multipliers { AllLeaves MultipliesByOne part.now.config.now.tree }
    ensures { IfOk result (λ v. AreCellTokens T.form S.width (part_placed part.now)
        (cells_of (grids_in (regions part.now.channels.now) (store_meanings S.to_int store.now))) v.items) }
{
    let Ok(Made { flats, state }) = make_ready(alloc, part) else {
        return Err(OutOfMemory);
    };
    let coding = PartCoding {
        channels: part.channels,
        config: part.config,
        flats: &flats,
        weights: part.weights,
        stream_index: part.stream_index,
        widest: max_width(part.channels),
    };
    let PartState { predictor, .. } = state;
    let mut walk = TokenWalk {
        state: predictor,
        steps: Steps::new(),
    };
    let mut scratch = vec![in alloc; T::new(0, 0); sampled_width(part.channels) as usize]?;
    let mut tokens = Vec::with_capacity(alloc, count_cells(part.channels))?;
    push_channels(&mut tokens, &mut walk, store, &coding, &mut scratch)?;
    Ok(tokens)
}

/// The tokens of all samples of a part, in the order of its cells (ISO/IEC 18181-1, Modular: decoding of samples): of
/// each the only one whose signed number is one of the samples' width. All multipliers of the tree are 1.
///
/// # Errors
///
/// Out of memory. Four bytes are taken for each sample, before the first token is made.
pub fn sample_tokens<S: Sample, D: Decoder>(
    alloc: Global,
    part: &PlacedPart<'_, D>,
    store: &[AlignedGrid<S>],
) -> std::result::Result<Vec<u32>, OutOfMemory>
    requires lies { PartLies part.now store.now }
    requires multipliers { AllLeaves MultipliesByOne part.now.config.now.tree }
    ensures { IfOk result (λ v. AreTokensOf S.width (part_placed part.now)
        (cells_of (grids_in (regions part.now.channels.now) (store_meanings S.to_int store.now))) v.items) }
{
    let tokens = all_tokens::<S, D, u32>(alloc, part, store)?;
    Ok(tokens)
}

/// The tokens of all samples of a part as [`sample_tokens`] gives them, each with the cluster of its leaf.
///
/// # Errors
///
/// Out of memory. Eight bytes are taken for each sample, before the first token is made.
pub fn clustered_tokens<S: Sample, D: Decoder>(
    alloc: Global,
    part: &PlacedPart<'_, D>,
    store: &[AlignedGrid<S>],
) -> std::result::Result<Vec<Token>, OutOfMemory>
    requires lies { PartLies part.now store.now }
    requires multipliers { AllLeaves MultipliesByOne part.now.config.now.tree }
    ensures { IfOk result (λ v. AreClusteredTokensOf S.width (part_placed part.now)
        (cells_of (grids_in (regions part.now.channels.now) (store_meanings S.to_int store.now))) v.items) }
{
    let tokens = all_tokens::<S, D, Token>(alloc, part, store)?;
    Ok(tokens)
}
