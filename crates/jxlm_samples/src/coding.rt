//! Everything a part is decoded with, and what is made ready before its first bit is read.

ghost use Rattle.std.specs.Prelude.{◌≡◌, ◌↔◌, ℤ, ◌^◌, ◌<◌, ◌≤◌, List, IfOk, IfErr, IfSome, IsTrue, None, get_or, length};
ghost use Rattle.jxlm_bits.specs.ErrorKind.{NoMemory, kind_of};
ghost use Rattle.jxlm_base.specs.Grid.{Grid};
ghost use Rattle.jxlm_weighted.specs.SelfCorrecting.{IsHeader};
ghost use Rattle.jxlm_transform.specs.Layout.{no_region};
ghost use Rattle.jxlm_samples.specs.Part.{clamps, is_alike as alike};
ghost use Rattle.jxlm_predictor.specs.Standing.{Setting, StandsAt, earlier_count, setting};
ghost use Rattle.jxlm_samples.specs.Reading.{HasFlats, HasRoom, IsCodingOf, IsLone, IsRoomyFor, IsTreeOf, LeadsAlone, ReadsAlone, alone_at, flat, part_of, regions_of};
ghost use Rattle.jxlm_samples.specs.ChannelSettings.{IsNext, StandsAfter, all_alike};
ghost use Rattle.jxlm_tree.specs.LeafSets.{AreSetsOf};

use jxlm_base::grid::Region;
use jxlm_base::sample::{Sample, Sealed};
use jxlm_bits::decoder::Decoder;
use jxlm_bits::error::Result;
use jxlm_predictor::predictor::{Predictor, PredictorState};
use jxlm_transform::channels::{ModularChannelInfo, PlacedChannel};
use jxlm_tree::flat::{FlatMaTree, Leaf};
use jxlm_tree::leaf_sets::LeafSets;
use jxlm_tree::ma::MaConfig;
use jxlm_tree::paths::ClusterTable;
use jxlm_weighted::weights::WpHeader;
use std::alloc::Global;
use std::rc::Rc;

/// The tree as one channel walks it, and what it may ask for.
#[derive(Drop)]
pub struct ChannelTree {
    /// The tree, compiled for the channel.
    pub flat: FlatMaTree,
    /// Whether it may ask for the weighted (self-correcting) predictor.
    pub weighted: bool,
    /// How many of the earlier channels it may ask for, the nearest first.
    pub asked: usize,
    /// What rows are read by without the state of the predictors, where that can be.
    pub alone: Option<Alone>,
    /// The tree as sets of leaves, where they were made.
    pub sets: Option<LeafSets>,
}

/// What rows of a channel are read by without the state of the predictors.
#[derive(Drop)]
pub enum Alone {
    /// Its only leaf, which predicts by `Zero`, or by `Gradient` with nothing more to add.
    Leaf(Leaf),
    /// The table of its leaves, on property 9, which predict by such a `Gradient`.
    Table(Rc<ClusterTable>),
}

/// Everything the samples of a part are decoded with.
#[derive(Drop)]
pub struct PartCoding<'a, D: Decoder> {
    /// Its channels, in order, and their regions in the store.
    pub channels: &'a [PlacedChannel],
    /// Its tree.
    pub config: &'a MaConfig<D>,
    /// The tree as each channel walks it.
    pub flats: &'a [ChannelTree],
    /// The weights of the weighted (self-correcting) predictor.
    pub weights: WpHeader,
    /// The index of its stream.
    pub stream_index: u32,
    /// The maximum width of its channels.
    pub widest: u32,
}

impl<'a, D: Decoder> PartCoding<'a, D> {
    /// The region of channel `i`.
    #[inline(always)]
    pub fn region(&self, i: usize) -> Region
        requires { i < length (regions_of self.now) }
        ensures { result ≡ get_or (regions_of self.now) i no_region }
    {
        self.channels[i].region
    }

    /// Whether property 9 of the samples of channel `i` is clamped: the channel is read so, and its tree asks for
    /// property 9 alone.
    pub fn clamps(&self, i: usize) -> bool
        requires channel { i < length (regions_of self.now) }
        requires coding { IsCodingOf self.now }
        ensures { result ≡ clamps (part_of self.now) i }
    {
        self.channels[i].info.gradient_sums.are_clamped() && self.flats[i].flat.takes_sums()
    }
}

/// The state that the samples of a part are decoded in.
#[derive(Drop)]
pub struct PartState<S> {
    /// That of the predictors.
    pub predictor: PredictorState<S>,
    /// Room for a row of each channel that has samples.
    pub row: Vec<S>,
}

/// What is made ready before the first bit of a part is read.
#[derive(Drop)]
pub struct Ready<S, D: Decoder> {
    /// The entropy decoder, as the tree was read with it.
    pub decoder: D,
    /// The tree as each channel walks it.
    pub flats: Vec<ChannelTree>,
    /// The state, with room for each channel that is read in it, and for a row of each that has samples.
    pub state: PartState<S>,
}

/// Whether two channels have equal sizes and shifts.
fn is_alike(a: &ModularChannelInfo, b: &ModularChannelInfo) -> bool
    ensures { result ≡ alike a.now b.now }
{
    a.width == b.width && a.height == b.height && a.hshift == b.hshift && a.vshift == b.vshift
}

/// Puts the state at the first cell of channel `i`, with the regions of the channels before that are like it, the
/// nearest first, where the tree asks for any.
///
/// Where the channel before was read in the state, is like it and asked for any, the state has all of them but that one,
/// and is given only that. The weights are used only where this channel's own tree may ask for them.
pub fn start_channel<S: Sample, D: Decoder>(
    state: &mut PredictorState<S>,
    coding: &PartCoding<'_, D>,
    i: usize,
)
    requires next { IsNext coding.now i state.old }
    requires walked { alone_at coding.now i ≡ None }
    ensures stands { (store : List (Grid S)) → StandsAfter coding.now S.to_int store i 0 state.new }
    ensures roomy { HasRoom coding.now state.new }
{
    let here = &coding.flats[i];
    if here.asked > 0 {
        let before = i - 1;
        let last = &coding.flats[before];
        if last.alone.is_none()
            && last.asked > 0
            && last.weighted == here.weighted
            && is_alike(&coding.channels[before].info, &coding.channels[i].info)
        {
            state.restart_alike();
            state.add_earlier(coding.region(before));
            return;
        }
    }
    state.restart_by(coding.region(i).width as u32, here.weighted);
    if here.asked > 0 {
        add_all_earlier(state, coding, i);
    }
}

/// Gives the state, which has no earlier channel, the regions of all channels before channel `i` that are like it.
fn add_all_earlier<S: Sample, D: Decoder>(
    state: &mut PredictorState<S>,
    coding: &PartCoding<'_, D>,
    i: usize,
)
    requires channel { i < length (regions_of coding.now) }
    requires coding { IsCodingOf coding.now }
    requires roomy { HasRoom coding.now state.old }
    requires none { earlier_count state.old ≡ 0 }
    ensures stands { (s : Setting) (samples : List ℤ) → StandsAt state.old s samples → StandsAt state.new
        (setting s.width s.weights (all_alike coding.now i)) samples }
    ensures roomy { HasRoom coding.now state.new }
{
    for e in 0..i {
        if is_alike(&coding.channels[e].info, &coding.channels[i].info) {
            state.add_earlier(coding.region(e));
        }
    }
}

/// Whether rows of this leaf need no state of the predictors.
fn reads_alone(leaf: Leaf) -> bool
    ensures { IsTrue result ↔ ReadsAlone leaf }
{
    leaf.predictor == Predictor::Zero
        || (leaf.predictor == Predictor::Gradient && leaf.offset == 0 && leaf.multiplier == 1)
}

/// The leaf or the table that rows of a channel are read by without the state of the predictors, where there is one.
///
/// # Errors
///
/// `Buffer` if it is out of memory, and no other.
fn read_alone(flat: &FlatMaTree) -> Result<Option<Alone>>
    ensures some { IfOk result (λ o. IfSome o (LeadsAlone flat.now)) }
    ensures none { IfOk result (λ o. o ≡ None → IsLone flat.now.tree → ⊥) }
    ensures err { IfErr result (λ e. kind_of e ≡ NoMemory) }
{
    match flat.only_leaf() {
        Some(leaf) if reads_alone(leaf) => Ok(Some(Alone::Leaf(leaf))),
        Some(_) => Ok(None),
        None => match flat.gradient_table()? {
            Some(table) => Ok(Some(Alone::Table(table))),
            None => Ok(None),
        },
    }
}

/// How many samples a channel has at least, of whose tree sets of leaves are made.
const MANY_SAMPLES: u64 = 8192;

/// Whether a channel has so many samples that sets of leaves are worth making.
fn has_many_samples(info: &ModularChannelInfo) -> bool {
    u64::from(info.width) * u64::from(info.height) >= MANY_SAMPLES
}

/// Whether channel `i` is one of these, and has so many samples.
fn is_large(channels: &[PlacedChannel], i: u32) -> bool {
    match channels.get(i as usize) {
        Some(channel) => has_many_samples(&channel.info),
        None => false,
    }
}

/// The sets of leaves of a tree, of a large channel whose rows are read cell by cell.
///
/// # Errors
///
/// `Buffer` if it is out of memory, and no other.
fn sets_of(
    alloc: Global,
    flat: &FlatMaTree,
    alone: &Option<Alone>,
    large: bool,
) -> Result<Option<LeafSets>>
    ensures ok { IfOk result (λ o. IfSome o (AreSetsOf flat.now)) }
    ensures err { IfErr result (λ e. kind_of e ≡ NoMemory) }
{
    if large && alone.is_none() {
        flat.leaf_sets(alloc)
    } else {
        Ok(None)
    }
}

/// The tree as a channel walks it, with what it may ask for, and its sets of leaves where the channel is large.
///
/// # Errors
///
/// `Buffer` if it is out of memory, and no other.
fn channel_tree(alloc: Global, flat: FlatMaTree, large: bool) -> Result<ChannelTree>
    ensures ok { IfOk result (IsTreeOf flat) }
    ensures err { IfErr result (λ e. kind_of e ≡ NoMemory) }
{
    let weighted = flat.need_self_correcting();
    let asked = flat.max_prev_channel_depth();
    let alone = read_alone(&flat)?;
    let sets = sets_of(alloc, &flat, &alone, large)?;
    Ok(ChannelTree {
        flat,
        weighted,
        asked,
        alone,
        sets,
    })
}

/// The tree as a channel walks it, after those of the channels before it. It shares the nodes of the last of these,
/// where all decisions that are known beforehand are taken alike for both.
///
/// # Errors
///
/// `Buffer` if it is out of memory, and no other.
fn next_flat<D: Decoder>(
    alloc: Global,
    config: &MaConfig<D>,
    stream_index: u32,
    channel: u32,
    before: &[ChannelTree],
) -> Result<FlatMaTree>
    requires before { HasFlats config.now.tree stream_index channel before.now }
    ensures ok { IfOk result (λ t. t ≡ flat config.now.tree stream_index channel) }
    ensures err { IfErr result (λ e. kind_of e ≡ NoMemory) }
{
    if channel > 0 {
        let last = &before[channel as usize - 1].flat;
        if let Some(next) = last.for_next_channel()? {
            return Ok(next);
        }
    }
    config.make_flat_tree(alloc, channel, stream_index, channel)
}

/// The tree as each of n channels walks it. Channels for which it is left the same one share its nodes, where they
/// come one after another. Those of `sized` that have many samples get sets of leaves.
///
/// # Errors
///
/// `Buffer` if it is out of memory, and no other.
pub fn flat_trees<D: Decoder>(
    alloc: Global,
    config: &MaConfig<D>,
    stream_index: u32,
    channels: u32,
    sized: &[PlacedChannel],
) -> Result<Vec<ChannelTree>>
    ensures ok { IfOk result (λ v. HasFlats config.now.tree stream_index channels v.items) }
    ensures err { IfErr result (λ e. kind_of e ≡ NoMemory) }
{
    let mut flats = Vec::new(alloc);
    for channel in 0..channels {
        let flat = next_flat(alloc, config, stream_index, channel, &flats)?;
        let tree = channel_tree(alloc, flat, is_large(sized, channel))?;
        flats.push(tree)?;
    }
    Ok(flats)
}

/// A state with room for channels of these flat trees up to the width `widest`, and for a row of this number of
/// samples; it has the weights where one of the trees may ask for them.
///
/// # Errors
///
/// `Buffer` if it is out of memory, and no other.
pub fn roomy_state<S: Sample>(
    alloc: Global,
    flats: &[ChannelTree],
    widest: u32,
    samples: u32,
    weights: &WpHeader,
) -> Result<PartState<S>>
    requires weights { IsHeader weights.now }
    requires narrow { widest ≤ 2 ^ 30 }
    ensures ok { IfOk result (λ s. IsRoomyFor widest samples weights.now flats.now s) }
    ensures err { IfErr result (λ e. kind_of e ≡ NoMemory) }
{
    let used = if flats.iter().any(|tree| tree.weighted) {
        Some(weights)
    } else {
        None
    };
    let predictor = PredictorState::with_room(alloc, widest, flats.len(), used)?;
    let row = vec![in alloc; S::default(); samples as usize]?;
    Ok(PartState { predictor, row })
}
