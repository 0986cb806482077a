//! Trees learnt from samples one by one, without the weighted predictor: what they code is decoded in less time.

use crate::levels::{level_of, levels_on};
use crate::near::{Near, NearRows, sample_at};
use crate::samples::Samples;
use crate::source::{Source, is_taken, step_of};
use jxl_encode_learn::axis::Axis;
use jxl_encode_learn::costs::Prices;
use jxl_encode_learn::scheme::{Bounds, Scheme, scheme_within};
use jxl_encode_learn::symbols::symbol_of;
use jxlm_base::grid::{AlignedGrid, OutOfMemory};
use jxlm_predictor::predictor::Predictor;
use std::alloc::Global;

/// How much is tried.
#[derive(Clone, Copy)]
pub struct Care {
    /// About how many samples of each channel are looked at.
    pub pixels: usize,
    /// By how many slopes they are told apart, at most six.
    pub slopes: usize,
    /// The most clusters of leaves.
    pub clusters: usize,
    /// The price of a decision for each sample that it is made for, in bits divided by 65,536: decoding takes time for it.
    pub step: u64,
    /// How often the tree is made better; if it is, two predictors are tried for a decision.
    pub rounds: usize,
}

/// The cuts of slopes are at most larger by 2 to the power of this: deep samples are often as smooth as others.
const MAX_SLOPE_SHIFT: u32 = 4;

/// The properties that are slopes: from above left to the left, from above to above left, from above right to above, and
/// from the neighbour behind it to the one above and to the one on the left; then the residual by the gradient in the channel
/// before.
const SLOPES: [u32; 6] = [10, 11, 12, 13, 14, EARLIER];

/// The property that is the residual by the gradient in the channel before.
const EARLIER: u32 = 19;

/// The property that is the sample on the left.
const WEST: u32 = 7;

/// The most bits of samples of few values.
pub const FEW_BITS: u32 = 4;

/// The most nodes of a tree, without the last two.
const MAX_NODES: usize = 509;

/// By how many slopes samples are told apart to see whether they are alike.
const LOOKED_SLOPES: usize = 2;

/// The predictors that are tried.
const PREDICTORS: [Predictor; 7] = [
    Predictor::Gradient,
    Predictor::Select,
    Predictor::AvgWestAndNorth,
    Predictor::AvgAll,
    Predictor::West,
    Predictor::North,
    Predictor::Zero,
];

/// A sample with its neighbours.
#[derive(Clone, Copy, PartialEq, Eq)]
struct Around {
    near: Near,
    // Its channel, and the residual there in the channel before, or the sample on the left.
    channel: usize,
    earlier: i32,
    sample: i32,
}

/// The samples that are taken, by levels of their slopes.
#[derive(Drop)]
struct ByNeighbours {
    samples: Samples,
    // By how much the cuts of slopes are larger.
    shift: u32,
    // The number of axes.
    axes: usize,
    // Whether there is one channel alone, of few values.
    few: bool,
    // The last sample.
    last: Option<Around>,
}

/// The channel and this number of slopes, with cuts that are larger by 2 to the power of `shift`. One channel alone of few
/// values has the sample on the left in place of the residual in the channel before.
fn axes_of(alloc: Global, shift: u32, slopes: usize, few: bool) -> Result<Vec<Axis>, OutOfMemory> {
    let mut axes = Vec::new(alloc);
    axes.push(Axis::new(alloc, 0, &[0, 1, 2])?)?;
    for slope in SLOPES.iter().take(slopes) {
        let property = if few && *slope == EARLIER {
            WEST
        } else {
            *slope
        };
        axes.push(levels_on(alloc, property, shift)?)?;
    }
    Ok(axes)
}

impl Around {
    /// Its symbol by each predictor.
    fn symbols(self) -> [usize; 7] {
        let near = self.near;
        [
            symbol_of(self.sample.wrapping_sub(near.gradient())),
            symbol_of(self.sample.wrapping_sub(near.select())),
            symbol_of(self.sample.wrapping_sub(near.average())),
            symbol_of(self.sample.wrapping_sub(near.average_of_all())),
            symbol_of(self.sample.wrapping_sub(near.west)),
            symbol_of(self.sample.wrapping_sub(near.north)),
            symbol_of(self.sample),
        ]
    }
}

impl ByNeighbours {
    /// Takes the sample in a column.
    fn take(&mut self, rows: &NearRows, x: usize) -> Result<(), OutOfMemory> {
        let near = Near::of(rows, x);
        let around = Around {
            near,
            channel: rows.channel,
            earlier: if self.axes <= SLOPES.len() {
                0
            } else if self.few {
                near.west
            } else {
                rows.residual_before(x)
            },
            sample: sample_at(&rows.here, x),
        };
        if self.last == Some(around) {
            self.samples.weights.count_again();
            return Ok(());
        }
        self.last = Some(around);
        let [first, second, third, fourth, fifth] = around.near.slopes();
        let shift = self.shift;
        let channel = around.channel.min(3);
        let first = level_of(first, shift);
        let second = level_of(second, shift);
        let symbols = around.symbols();
        if self.axes == 3 {
            return self.samples.add(&[channel, first, second], &symbols);
        }
        let places = [
            channel,
            first,
            second,
            level_of(third, shift),
            level_of(fourth, shift),
            level_of(fifth, shift),
            level_of(around.earlier, shift),
        ];
        self.samples.add(&places[..self.axes.min(7)], &symbols)
    }

    /// Takes the samples of a row.
    fn take_row(&mut self, rows: &NearRows) -> Result<(), OutOfMemory> {
        for x in 0..rows.here.len() {
            self.take(rows, x)?;
        }
        Ok(())
    }

    /// Takes the samples of a channel, in one row of `step`.
    fn take_channel(
        &mut self,
        rows: &mut NearRows,
        source: Source<'_>,
        channel: usize,
        step: usize,
    ) -> Result<(), OutOfMemory> {
        for y in 0..source.height(channel) {
            if is_taken(y, step) {
                rows.go(source, channel, y)?;
                self.take_row(rows)?;
            }
        }
        Ok(())
    }
}

/// The samples of the channels in one row of `step`.
fn taken(
    alloc: Global,
    source: Source<'_>,
    bits: u32,
    slopes: usize,
    step: usize,
) -> Result<Samples, OutOfMemory> {
    let shift = bits.saturating_sub(8).min(MAX_SLOPE_SHIFT);
    let few = source.channels.len() == 1 && bits <= FEW_BITS;
    let axes = axes_of(alloc, shift, slopes, few)?;
    let mut taker = ByNeighbours {
        axes: axes.len(),
        samples: Samples::new(alloc, axes, &PREDICTORS)?,
        shift,
        few,
        last: None,
    };
    let mut rows = NearRows::new(alloc);
    for channel in 0..source.channels.len() {
        taker.take_channel(&mut rows, source, channel, step)?;
    }
    Ok(taker.samples)
}

/// Whether most samples of the channels, of this many bits, are alike, by a look at about this number of each.
pub fn are_alike(
    alloc: Global,
    channels: &[AlignedGrid<i32>],
    bits: u32,
    pixels: usize,
) -> Result<bool, OutOfMemory> {
    let source = Source {
        channels,
        colour: None,
    };
    let step = step_of(channels, pixels);
    let samples = taken(alloc, source, bits, LOOKED_SLOPES, step)?;
    Ok(samples.weights.are_mostly_alike())
}

/// The scheme that is learnt from a part of the samples of the channels, of this many bits, the first three of which are coded
/// by a colour transform of this kind, if there is one. It does not use the weighted predictor.
pub fn scheme_by_neighbours(
    alloc: Global,
    channels: &[AlignedGrid<i32>],
    colour: Option<u32>,
    bits: u32,
    care: Care,
) -> Result<Scheme, OutOfMemory> {
    let source = Source { channels, colour };
    let step = step_of(channels, care.pixels);
    let samples = taken(alloc, source, bits, care.slopes, step)?;
    let prices = Prices {
        scale: step as u64,
        decision: 28,
        leaf: 25,
        symbol: 6,
    };
    let bounds = Bounds {
        nodes: MAX_NODES,
        predictors: care.rounds.min(1).saturating_add(1),
        step: care.step,
        apart: false,
        rounds: care.rounds,
    };
    let counted = samples.counted();
    scheme_within(alloc, &counted, prices, bounds, care.clusters)
}
