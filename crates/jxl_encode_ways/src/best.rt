//! Ways to code a picture at the greatest effort. Those of lower efforts are the estimate of what palettes are good for:
//! only by the best of them trees are learnt with most care. They are heuristics: no sample depends on them.

use crate::advice::{
    Advice, Learning, Samples, add_advice, add_other_way, by_neighbours, colours_of, cost_of,
};
use crate::effort::Effort;
use crate::joined::CHANNEL;
use crate::palettes::{add_palette_ways, ranks_of};
use jxl_encode_image::colours::ColourOrder;
use jxl_encode_properties::broad::scheme_by_all;
use jxl_encode_properties::neighbours::Care;
use jxl_encode_properties::source::samples_in;
use jxl_picture::picture::Picture;
use jxlm_base::grid::OutOfMemory;
use jxlm_encode_write::tree::EncodeNode;
use jxlm_predictor::predictor::Predictor;
use std::alloc::Global;

/// About how many samples of each channel are looked at before colour transforms are chosen.
const LOOKED: usize = 1 << 15;

/// The most samples of a small picture.
const SMALL: usize = 1 << 16;

/// How many samples are taken to learn a tree by all properties and predictors.
const ALL_SAMPLES: usize = 1 << 20;

/// How many samples are taken to see what the weighted predictor saves.
const TRIED_SAMPLES: usize = 1 << 15;

/// The share of the cost that the weighted predictor has to save where samples of one channel repeat: decoding takes long with
/// it.
const WEIGHTS_GAIN: u64 = 5;

/// The share of the samples of a channel that are looked at, if it has few.
const LOOKED_SHARE: usize = 4;

/// How many of them are looked at at least.
const LEAST_LOOKED: usize = 1 << 10;

/// How many ways are tried to the end of a small picture, beside those by all properties and predictors.
const SMALL_WAYS: usize = 3;

/// How many ways are tried to the end where samples repeat and there is no palette of all channels.
const COPIED_WAYS: usize = 2;

/// How many ways are tried to the end elsewhere.
const WAYS: usize = 4;

/// The share by which ways without a palette of all channels may cost more than those by one, and are tried with most care.
const MARGIN: u64 = 8;

/// The most nodes of a tree that is used for a small picture of few colours, unless more save much: it is decoded in far less
/// time.
const FEW_NODES: usize = 7;

/// The share of the cost by a palette that more nodes have to save.
const NODES_GAIN: u64 = 8;

/// The share of the cost of the way by all properties and by a palette of all channels that the one without a palette has to
/// save where samples repeat: it is decoded in more time.
const BROAD_GAIN: u64 = 12;

/// The colour transform, if there are several, with which about this number of the samples of each channel cost least.
pub(crate) fn likeliest_colour(
    alloc: Global,
    samples: Samples<'_>,
    colours: &[Option<u32>],
    pixels: usize,
) -> Result<Option<u32>, OutOfMemory> {
    if colours.len() < 2 {
        return Ok(colours.get(0).copied().unwrap_or(None));
    }
    let all = match samples.channels.get(0) {
        Some(first) => first.buf().len(),
        None => 0,
    };
    let care = Care {
        pixels: pixels.min(LEAST_LOOKED.max(all / LOOKED_SHARE)),
        ..Learning::At(Effort::Fast).care(samples)
    };
    match by_neighbours(alloc, samples, care, colours)? {
        Some(way) => Ok(way.colour),
        None => Ok(None),
    }
}

/// Whether the weighted predictor and its errors save more than a fifth of what some of the samples cost by all other
/// predictors and properties, after this colour transform or without one.
fn saves_by_weights(
    alloc: Global,
    samples: Samples<'_>,
    colour: Option<u32>,
) -> Result<bool, OutOfMemory> {
    let (channels, bits) = (samples.channels, samples.depth.bits_per_sample);
    let with = scheme_by_all(alloc, channels, colour, bits, TRIED_SAMPLES, true)?.cost;
    let without = scheme_by_all(alloc, channels, colour, bits, TRIED_SAMPLES, false)?.cost;
    Ok(with < without.saturating_sub(without / WEIGHTS_GAIN))
}

/// Adds the way by all properties and predictors, after the likeliest of these colour transforms. Few samples are coded without
/// the weighted predictor, and where samples repeat, all but one channel of which it saves much: decoding takes long with it.
pub(crate) fn add_best_way(
    alloc: Global,
    list: &mut Vec<Advice>,
    samples: Samples<'_>,
    learning: Learning,
    colours: &[Option<u32>],
) -> Result<(), OutOfMemory> {
    let colour = likeliest_colour(alloc, samples, colours, LOOKED)?;
    let channels = samples.channels;
    let bits = samples.depth.bits_per_sample;
    let weighted = match learning {
        Learning::Broad if channels.len() > 1 => false,
        Learning::Broad => saves_by_weights(alloc, samples, colour)?,
        _ => samples_in(channels) > SMALL,
    };
    let scheme = scheme_by_all(alloc, channels, colour, bits, ALL_SAMPLES, weighted)?;
    add_advice(list, Advice::by(alloc, scheme, colour, true))
}

/// The first of these ways that has a palette of all channels, if `palette` says so, or none; with `broad` only those by all
/// properties count.
fn first_of(ways: &[Advice], palette: bool, broad: bool) -> Option<&Advice> {
    for way in ways {
        if way.order.is_some() == palette && (way.broad || !broad) {
            return Some(way);
        }
    }
    None
}

/// The ways by all properties and predictors, and the cheapest of these ways, at most this many.
fn cheapest_of(alloc: Global, ways: Vec<Advice>, most: usize) -> Result<Vec<Advice>, OutOfMemory> {
    let mut kept = Vec::new(alloc);
    let mut at: usize = 0;
    for way in ways {
        if way.broad || at < most {
            kept.push(way)?;
        }
        at = at.saturating_add(1);
    }
    Ok(kept)
}

/// Whether one of the ways by some properties has this order of colours.
fn has_order(ways: &[Advice], order: Option<ColourOrder>) -> bool {
    for way in ways {
        if way.order == order && !way.broad {
            return true;
        }
    }
    false
}

/// The ways that are tried to the end where samples repeat: those by all properties that are decoded in little time or cost
/// far less, and the cheapest of the others in each order of a palette of all channels.
fn copied_of(alloc: Global, ways: Vec<Advice>) -> Result<Vec<Advice>, OutOfMemory> {
    let broad = cost_of(first_of(&ways, true, true));
    let most = broad.saturating_sub(broad / BROAD_GAIN);
    let palettes = first_of(&ways, true, false).is_some();
    let mut kept = Vec::new(alloc);
    for way in ways {
        let leads = if palettes {
            way.order.is_some() && !has_order(&kept, way.order)
        } else {
            kept.len() < COPIED_WAYS
        };
        let keeps = if way.broad {
            way.cost <= most || way.order.is_some()
        } else {
            leads
        };
        if keeps {
            kept.push(way)?;
        }
    }
    Ok(kept)
}

/// The way by one predictor alone, with a leaf and a code for each of these channels, after this colour transform or without
/// one.
fn plain_way(
    alloc: Global,
    predictor: Predictor,
    channels: usize,
    colour: Option<u32>,
) -> Result<Advice, OutOfMemory> {
    let mut way = Advice::none(alloc);
    way.colour = colour;
    for channel in 0..channels {
        way.clusters.push(channel.min(255) as u8)?;
        // The leaves are in the order of falling channels.
        let below = channels.saturating_sub(channel).saturating_sub(1);
        if below > 0 {
            way.nodes.push(EncodeNode::Decision {
                property: CHANNEL,
                value: below.saturating_sub(1).min(255) as i32,
            })?;
        }
        way.nodes.push(EncodeNode::Leaf {
            predictor,
            offset: 0,
        })?;
    }
    Ok(way)
}

/// Adds the ways by one predictor alone: by the gradient after each of these colour transforms, and by none.
fn add_plain_ways(
    alloc: Global,
    list: &mut Vec<Advice>,
    channels: usize,
    colours: &[Option<u32>],
) -> Result<(), OutOfMemory> {
    add_advice(list, plain_way(alloc, Predictor::Zero, channels, None)?)?;
    for colour in colours {
        let way = plain_way(alloc, Predictor::Gradient, channels, *colour)?;
        add_advice(list, way)?;
    }
    Ok(())
}

/// What the cheapest of the ways costs that has a palette of all channels and so small a tree that it is decoded in little
/// time.
fn least_of_few_nodes(ways: &[Advice]) -> u64 {
    for way in ways {
        if way.order.is_some() && way.nodes.len() <= FEW_NODES {
            return way.cost;
        }
    }
    u64::MAX
}

/// The ways that are tried to the end of a small picture of few colours: by a palette of all channels, with small trees or
/// those that cost far less. With copies those by one predictor alone may be the shortest, and they are decoded in the least
/// time.
fn few_ways(
    alloc: Global,
    ways: Vec<Advice>,
    picture: &Picture,
) -> Result<Vec<Advice>, OutOfMemory> {
    let least = least_of_few_nodes(&ways);
    let most = least.saturating_sub(least / NODES_GAIN);
    let mut kept = Vec::new(alloc);
    for way in ways {
        let quick = way.nodes.len() <= FEW_NODES || way.cost < most;
        if way.order.is_some() && quick && (way.broad || kept.len() < SMALL_WAYS) {
            kept.push(way)?;
        }
    }
    let colours = colours_of(picture, Effort::Best);
    add_plain_ways(alloc, &mut kept, picture.channels.len(), colours)?;
    Ok(kept)
}

/// Whether a picture is small.
pub(crate) fn is_small(picture: &Picture) -> bool {
    samples_in(&picture.channels) <= SMALL
}

/// The ways that are tried at the greatest effort, where these are those of lower ones: samples repeat if `repeats` says so. A
/// small picture of few colours is tried by palettes, by small trees of lower efforts and by single predictors alone: it is
/// decoded in less time. Of a larger one of which samples repeat, trees are learnt by all properties alone.
pub(crate) fn best_ways(
    alloc: Global,
    ways: Vec<Advice>,
    picture: &Picture,
    repeats: bool,
    alike: bool,
) -> Result<Vec<Advice>, OutOfMemory> {
    let mut ways = ways;
    let small = is_small(picture);
    if picture.channels.len() > 1 {
        let learning = Learning::At(Effort::Usual);
        let orders = &[ColourOrder::Sample];
        add_palette_ways(alloc, &mut ways, picture, alike, learning, orders)?;
    }
    let broad = repeats && !small && picture.header.bit_depth.exp_bits == 0;
    let learning = if broad {
        Learning::Broad
    } else {
        Learning::At(Effort::Best)
    };
    let other = cost_of(first_of(&ways, false, false));
    let palette = cost_of(first_of(&ways, true, false));
    let order = match first_of(&ways, true, false) {
        Some(way) => way.order,
        None => None,
    };
    if let Some(order) = order {
        add_palette_ways(alloc, &mut ways, picture, alike, learning, &[order])?;
    }
    // By estimates: whether a palette is not clearly better than none, and, learnt with care, not clearly better than that.
    let likely = other <= palette.saturating_add(palette / MARGIN);
    let learnt = cost_of(first_of(&ways, true, true));
    let clear = broad && learnt.saturating_mul(4) <= other.saturating_mul(3);
    let few = small && order.is_some();
    if likely && !clear && !few {
        let ranks = ranks_of(alloc, picture)?;
        add_other_way(alloc, &mut ways, picture, alike, &ranks, learning)?;
    }
    if broad {
        return copied_of(alloc, ways);
    }
    if few {
        return few_ways(alloc, ways, picture);
    }
    let most = if small { SMALL_WAYS } else { WAYS };
    cheapest_of(alloc, ways, most)
}
