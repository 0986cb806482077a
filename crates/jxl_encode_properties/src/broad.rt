//! Trees learnt from samples one by one, with all predictors and properties, and with cuts at the values that properties
//! have.

use crate::kept::hash_of;
use crate::near::{NearRows, SIDE};
use crate::samples::Samples;
use crate::source::{Source, is_taken, samples_in};
use crate::walk::{Surroundings, Walk};
use jxl_encode_learn::axis::Axis;
use jxl_encode_learn::costs::Prices;
use jxl_encode_learn::counted::Counted;
use jxl_encode_learn::scheme::{Bounds, Scheme, scheme_within};
use jxl_encode_learn::symbols::symbol_of;
use jxlm_base::grid::{AlignedGrid, OutOfMemory};
use jxlm_predictor::predictor::Predictor;
use std::alloc::Global;

/// The predictors that are tried, the weighted one last.
const PREDICTORS: [Predictor; 14] = [
    Predictor::Zero,
    Predictor::West,
    Predictor::North,
    Predictor::AvgWestAndNorth,
    Predictor::Select,
    Predictor::Gradient,
    Predictor::AvgAll,
    Predictor::NorthEast,
    Predictor::NorthWest,
    Predictor::WestWest,
    Predictor::AvgWestAndNorthWest,
    Predictor::AvgNorthAndNorthWest,
    Predictor::AvgNorthAndNorthEast,
    Predictor::SelfCorrecting,
];

/// How many of them there are without the weighted one.
const UNWEIGHTED: usize = 13;

/// The properties: the channel, those of the place and its neighbours, and those of the channel before.
const PROPERTIES: [u32; 18] = [
    0, 2, 3, 4, 5, 6, 7, 8, 9, 10, 11, 12, 13, 14, 15, 16, 17, 19,
];

/// The property that is the column. Samples of other columns are counted together.
const COLUMN: u32 = 3;

/// The most cuts of a property.
const MAX_CUTS: usize = 127;

/// The most nodes of a tree, without the last two.
const MAX_NODES: usize = 4093;

/// By how many predictors a cut is tried.
const TRIED: usize = 2;

/// How often a tree is made better.
const ROUNDS: usize = 2;

/// The most samples of a small picture.
const SMALL: usize = 1 << 16;

/// The price of a decision for each sample that it is made for, in bits divided by 65,536: decoding takes time for it.
const STEP: u64 = 65;

/// The same in a small picture.
const SMALL_STEP: u64 = 130;

/// The same for several channels of a picture that is not small: a decision is made for each sample of them.
const CHANNELS_STEP: u64 = 260;

/// The most bits of samples that cost a part of a bit each, so that a decision must not cost much.
const FEW_BITS: u32 = 2;

/// The same if all of its channels have the weighted predictor: then they take most time.
const WEIGHTED_STEP: u64 = 1700;

/// The most clusters of leaves.
const CLUSTERS: usize = 64;

/// Rows are taken in bands of this many.
const BAND: usize = 8;

/// How many rows above a band are walked, so that the errors of the weighted predictor are as if all rows were.
const BEFORE: usize = 2;

/// About how many values of a property its cuts are chosen by.
const LOOKED: usize = 1 << 15;

/// The values that a property of the samples has.
#[derive(Drop)]
struct Values {
    property: u32,
    list: Vec<i32>,
}

/// The samples that are taken, with the values of their properties.
#[derive(Drop)]
struct ByAll {
    values: Vec<Values>,
    samples: Samples,
    // How many channels are walked over with the weighted predictor.
    weighted: usize,
}

/// Walks at the first samples of the groups in a row of this width.
fn walks_of(alloc: Global, width: usize, weighted: bool) -> Result<Vec<Walk>, OutOfMemory> {
    let mut walks = Vec::new(alloc);
    for group in 0..width.div_ceil(SIDE) {
        let rest = width.saturating_sub(group.saturating_mul(SIDE)).min(SIDE);
        if let Some(walk) = Walk::new(alloc, rest as u32, weighted)? {
            walks.push(walk)?;
        }
    }
    Ok(walks)
}

/// A property of the sample in a column, of which properties 0 to 15 are these, but for the channel and the row.
fn property_of(rows: &NearRows, x: usize, own: &[i32; 16], property: u32) -> i32 {
    match property {
        0 => rows.channel.min(255) as i32,
        2 => (rows.depth % SIDE) as i32,
        16 => rows.sample_before(x).saturating_abs(),
        17 => rows.sample_before(x),
        19 => rows.residual_before(x),
        _ => own.get(property as usize).copied().unwrap_or(0),
    }
}

/// The key of the sample in a column: samples of the same key have the same properties, but for the column, and the same
/// residuals.
fn key_of(rows: &NearRows, x: usize, around: &Surroundings, sample: i32) -> u64 {
    let own = &around.own;
    hash_of(&[
        rows.channel.min(255) as i32,
        (rows.depth % SIDE) as i32,
        own[6],
        own[7],
        own[8],
        own[9],
        own[10],
        own[11],
        own[12],
        own[13],
        own[14],
        own[15],
        rows.sample_before(x),
        rows.residual_before(x),
        around.predicted[6],
        around.predicted[13],
        sample,
    ])
}

impl ByAll {
    /// Nothing taken, of channels of which this number is walked over with the weighted predictor.
    fn new(alloc: Global, weighted: usize) -> Result<ByAll, OutOfMemory> {
        let mut values = Vec::new(alloc);
        for property in &PROPERTIES {
            values.push(Values {
                property: *property,
                list: Vec::new(alloc),
            })?;
        }
        let predictors = if weighted == 0 {
            &PREDICTORS[..UNWEIGHTED]
        } else {
            &PREDICTORS
        };
        Ok(ByAll {
            values,
            samples: Samples::new(alloc, Vec::new(alloc), predictors)?,
            weighted,
        })
    }

    /// Takes the sample in a column.
    fn take(
        &mut self,
        rows: &NearRows,
        x: usize,
        around: Surroundings,
        sample: i32,
    ) -> Result<(), OutOfMemory> {
        if self
            .samples
            .weights
            .count(key_of(rows, x, &around, sample))?
        {
            return Ok(());
        }
        for values in self.values.iter_mut() {
            let value = property_of(rows, x, &around.own, values.property);
            values.list.push(value)?;
        }
        // In the order of `PREDICTORS`.
        let mut predicted = around.predicted;
        predicted[6] = around.predicted[13];
        predicted[13] = around.predicted[6];
        if self.weighted == 0 {
            self.samples.add_symbols(&predicted[..UNWEIGHTED], sample)
        } else {
            self.samples.add_symbols(&predicted, sample)
        }
    }

    /// Walks over a row, the samples of which are taken if `taken` says so.
    fn walk_row(
        &mut self,
        rows: &NearRows,
        walks: &mut [Walk],
        taken: bool,
    ) -> Result<(), OutOfMemory> {
        for x in 0..rows.here.len() {
            let sample = rows.here[x];
            let around = match walks.get_mut(x / SIDE) {
                Some(walk) => walk.step(sample),
                None => None,
            };
            match around {
                Some(around) if taken => self.take(rows, x, around, sample)?,
                _ => {}
            }
        }
        Ok(())
    }

    /// Takes the samples of a channel, in one band of `step`.
    fn take_channel(
        &mut self,
        alloc: Global,
        rows: &mut NearRows,
        source: Source<'_>,
        channel: usize,
        step: usize,
    ) -> Result<(), OutOfMemory> {
        let mut walks = Vec::new(alloc);
        let mut anew = true;
        for y in 0..source.height(channel) {
            let taken = is_taken(y / BAND, step);
            let walked = taken || is_taken(y.saturating_add(BEFORE) / BAND, step);
            if walked {
                rows.go(source, channel, y)?;
                if anew || rows.depth == 0 {
                    walks = walks_of(alloc, rows.here.len(), channel < self.weighted)?;
                }
                self.walk_row(rows, &mut walks, taken)?;
            }
            anew = !walked;
        }
        Ok(())
    }

    /// Puts the samples on the axes of their properties, which have cuts by their values. Where many samples are counted
    /// together, their columns are not known.
    fn place(&mut self, alloc: Global) -> Result<(), OutOfMemory> {
        let alike = self.samples.weights.are_alike();
        for values in self.values.iter_mut() {
            if !alike || values.property != COLUMN {
                let axis = Axis {
                    property: values.property,
                    cuts: cuts_between(alloc, &values.list)?,
                };
                self.samples.add_axis(alloc, axis, &values.list)?;
            }
            values.list = Vec::new(alloc);
        }
        Ok(())
    }
}

/// Some of these values, evenly spread, in rising order.
fn sorted(alloc: Global, values: &[i32]) -> Result<Vec<i32>, OutOfMemory> {
    let mut list = Vec::new(alloc);
    let step = (values.len() / LOOKED).max(1);
    for at in 0..values.len() {
        if at % step == 0 {
            list.push(values[at])?;
        }
    }
    list.sort_unstable();
    Ok(list)
}

/// The number of different values, which are in rising order.
fn kinds_of(sorted: &[i32]) -> usize {
    let mut kinds: usize = 0;
    for at in 0..sorted.len() {
        if at == 0 || sorted[at] != sorted[at - 1] {
            kinds = kinds.saturating_add(1);
        }
    }
    kinds
}

/// Cuts between values: at each, if there are few, or so that about as many are between any two.
fn cuts_between(alloc: Global, values: &[i32]) -> Result<Vec<i32>, OutOfMemory> {
    let list = sorted(alloc, values)?;
    let least = if kinds_of(&list) <= MAX_CUTS {
        0
    } else {
        list.len() / MAX_CUTS
    };
    let mut cuts = Vec::new(alloc);
    let mut last: usize = 0;
    for at in 1..list.len() {
        let enough = at.saturating_sub(last) >= least && cuts.len() < MAX_CUTS;
        if enough && list[at] != list[at - 1] {
            cuts.push(list[at - 1])?;
            last = at;
        }
    }
    Ok(cuts)
}

/// The samples of the channels in one band of `step`, of which this number is walked over with the weighted predictor.
fn taken(
    alloc: Global,
    source: Source<'_>,
    step: usize,
    weighted: usize,
) -> Result<Counted, OutOfMemory> {
    let mut taker = ByAll::new(alloc, weighted)?;
    let mut rows = NearRows::new(alloc);
    for channel in 0..source.channels.len() {
        taker.take_channel(alloc, &mut rows, source, channel, step)?;
    }
    taker.place(alloc)?;
    Ok(taker.samples.counted())
}

/// The price of a decision for each sample of a picture of this many in some channels, if all of them have the weighted
/// predictor or not.
fn price_of_step(samples: usize, channels: usize, bits: u32, all_weighted: bool) -> u64 {
    if samples <= SMALL {
        SMALL_STEP
    } else if all_weighted && bits > FEW_BITS {
        WEIGHTED_STEP
    } else if channels > 1 {
        CHANNELS_STEP
    } else {
        STEP
    }
}

/// The scheme that is learnt from about this number of samples of the channels, the first three of which are coded by a colour
/// transform of this kind, if there is one; with the weighted predictor and its errors if `weighted` says so. In a picture of
/// three channels or more that is not small they are for the first channel alone: others have little use for them, and are
/// decoded in less time.
pub fn scheme_by_all(
    alloc: Global,
    channels: &[AlignedGrid<i32>],
    colour: Option<u32>,
    bits: u32,
    samples: usize,
    weighted: bool,
) -> Result<Scheme, OutOfMemory> {
    let all = samples_in(channels);
    let step = all.div_ceil(samples.max(1)).max(1);
    let apart = weighted && all > SMALL && channels.len() > 2;
    let most = match (weighted, apart) {
        (false, _) => 0,
        (true, true) => 1,
        (true, false) => channels.len(),
    };
    let counted = taken(alloc, Source { channels, colour }, step, most)?;
    let prices = Prices {
        scale: step as u64,
        decision: 22,
        leaf: 4,
        symbol: 2,
    };
    let bounds = Bounds {
        nodes: MAX_NODES,
        predictors: TRIED,
        step: price_of_step(all, channels.len(), bits, weighted && !apart),
        apart,
        rounds: ROUNDS,
    };
    scheme_within(alloc, &counted, prices, bounds, CLUSTERS)
}
