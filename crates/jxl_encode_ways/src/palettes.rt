//! Ways to code a picture by palettes: one of all channels, whose colours are few, or one of each channel of colours, whose
//! values are few and far apart: the ranks of its values. They are heuristics: no sample depends on them.

use crate::advice::{Advice, GROUP_DIM, Learning, Samples, add_advice, add_way_of};
use crate::effort::Effort;
use crate::joined::{CHANNEL, Levels, joined};
use jxl_encode_image::colours::ColourOrder;
use jxl_encode_image::palette::{TableGrids, tables_of};
use jxl_encode_image::transform::PalettePlan;
use jxl_encode_learn::scheme::Scheme;
use jxl_encode_properties::neighbours::{Care, scheme_by_neighbours};
use jxl_image_header::channel::BitDepth;
use jxl_picture::picture::{Picture, colours as colours_in};
use jxlm_base::grid::{AlignedGrid, OutOfMemory};
use std::alloc::Global;

/// The most colours of a palette.
const MOST_COLOURS: usize = 16384;

/// How many pixels a picture has at least for each colour of a palette.
const PIXELS: usize = 8;

/// How many samples of a channel are looked at before all of its values are counted.
const LOOKED: usize = 1 << 15;

/// By how many slopes the samples of tables are told apart.
const TABLE_SLOPES: usize = 3;

/// How the samples of tables are taken to be stored: they are steep even if they are deep.
const BYTES: BitDepth = BitDepth {
    bits_per_sample: 8,
    exp_bits: 0,
};

/// The property that is the number of the stream, greater than 0 in sections of groups.
const STREAM: u32 = 1;

/// How many clusters a tree has.
fn cluster_count(clusters: &[u8]) -> u8 {
    let mut most: u8 = 0;
    for cluster in clusters {
        most = most.max(*cluster);
    }
    most.saturating_add(1)
}

/// How indices are stored.
fn depth_of(colours: usize) -> BitDepth {
    let bits_per_sample = match colours {
        0..=4 => 2,
        5..=16 => 4,
        17..=256 => 8,
        257..=1024 => 10,
        1025..=4096 => 12,
        4097..=16384 => 14,
        _ => 17,
    };
    BitDepth {
        bits_per_sample,
        exp_bits: 0,
    }
}

/// Whether this number of values, from the least to the greatest, are so far apart that their ranks may take fewer bits.
fn are_far_apart(count: usize, least: i32, most: i32) -> bool {
    let span = u64::from(most.abs_diff(least)).saturating_add(1);
    (count as u64).saturating_mul(4) <= span.saturating_mul(3)
}

/// Whether the samples of a table in rising order are so far apart that its indices may take fewer bits than the
/// samples that they stand for: a table of several channels always is.
fn is_sparse(table: &AlignedGrid<i32>) -> bool {
    if table.height() != 1 || table.width() == 0 {
        return true;
    }
    let last = table.get(table.width() - 1, 0);
    are_far_apart(table.width(), table.get(0, 0), last)
}

/// Channels of a picture as palettes code them.
#[derive(Drop)]
pub(crate) struct Coded {
    plans: Vec<PalettePlan>,
    tables: Vec<AlignedGrid<i32>>,
    // Indices, and the channels without a palette.
    channels: Vec<AlignedGrid<i32>>,
    // The most colours of a palette.
    most: usize,
    // The order of the colours of a palette of all channels.
    order: Option<ColourOrder>,
}

impl Coded {
    /// No channels, of which a palette of all is in this order.
    fn new(alloc: Global, order: Option<ColourOrder>) -> Coded {
        Coded {
            plans: Vec::new(alloc),
            tables: Vec::new(alloc),
            channels: Vec::new(alloc),
            most: 0,
            order,
        }
    }

    /// Adds channels of a picture by a palette. Returns false if they are not one to four of one size, or their colours are too
    /// many or not far apart.
    fn add(
        &mut self,
        alloc: Global,
        picture: &Picture,
        plan: PalettePlan,
    ) -> Result<bool, OutOfMemory> {
        let (first, count) = (plan.first, plan.count);
        let end = first.saturating_add(count);
        if first >= end || end > picture.channels.len() {
            return Ok(false);
        }
        let channels = &picture.channels[first..end];
        let most = plan.most.min(picture.channels[first].buf().len() / PIXELS);
        let plan = PalettePlan { most, ..plan };
        let Some(found) = tables_of(alloc, channels, plan.order, most)? else {
            return Ok(false);
        };
        let TableGrids { table, index } = found;
        if !is_sparse(&table) {
            return Ok(false);
        }
        self.most = self.most.max(table.width());
        self.tables.push(table)?;
        self.channels.push(index)?;
        self.plans.push(plan)?;
        Ok(true)
    }

    /// The way whose tree is that of tables, and of all other channels.
    fn way_of(
        &self,
        alloc: Global,
        table: &Scheme,
        index: Advice,
        large: bool,
    ) -> Result<Advice, OutOfMemory> {
        let tables = self.plans.len().min(255) as i32;
        let (property, value, behind) = if large {
            (STREAM, 0, 0)
        } else {
            (CHANNEL, tables.saturating_sub(1), tables)
        };
        let shift = cluster_count(&table.clusters);
        let greater = Levels::new(&index.nodes, &index.clusters, shift, behind);
        let others = Levels::new(&table.nodes, &table.clusters, 0, 0);
        let tree = joined(alloc, property, value, greater, others)?;
        let mut palettes = Vec::new(alloc);
        for plan in &self.plans {
            palettes.push(*plan)?;
        }
        Ok(Advice {
            nodes: tree.nodes,
            clusters: tree.clusters,
            colour: index.colour,
            palettes,
            cost: index.cost.saturating_add(table.cost),
            broad: index.broad,
            order: self.order,
        })
    }

    /// Adds the way by these palettes that is learnt so, after one of these colour transforms. Most samples of the picture are
    /// alike if `alike` says so.
    pub(crate) fn add_way(
        &self,
        alloc: Global,
        list: &mut Vec<Advice>,
        alike: bool,
        learning: Learning,
        colours: &[Option<u32>],
    ) -> Result<(), OutOfMemory> {
        // The indices of a picture of several groups are in other sections than the table.
        let large = match self.channels.get(0) {
            Some(first) => first.width().max(first.height()) > GROUP_DIM as usize,
            None => false,
        };
        let tables = Samples {
            channels: &self.tables,
            depth: BYTES,
            alike: true,
        };
        let care = Care {
            pixels: usize::MAX,
            slopes: TABLE_SLOPES,
            ..learning.care(tables)
        };
        let bits = BYTES.bits_per_sample;
        let scheme = scheme_by_neighbours(alloc, tables.channels, None, bits, care)?;
        let samples = Samples {
            channels: &self.channels,
            depth: depth_of(self.most),
            alike,
        };
        let mut ways = Vec::new(alloc);
        add_way_of(alloc, &mut ways, samples, learning, colours)?;
        for way in ways {
            let way = self.way_of(alloc, &scheme, way, large)?;
            add_advice(list, way)?;
        }
        Ok(())
    }
}

/// The orders of colours that are tried at an effort: at the greatest others are beside them. At the least those of two
/// channels are in the order of their samples, as grey and alpha are often smooth.
pub(crate) fn orders_of(effort: Effort, channels: usize) -> &'static [ColourOrder] {
    if channels == 1 {
        return &[ColourOrder::Sample];
    }
    match effort {
        Effort::Fast if channels == 2 => &[ColourOrder::Sample],
        Effort::Fast => &[ColourOrder::Frequency],
        _ => &[ColourOrder::Frequency, ColourOrder::Nearest],
    }
}

/// All channels by a palette in this order, if they are one to four of one size, and their colours few.
pub(crate) fn all_by_palette(
    alloc: Global,
    picture: &Picture,
    order: ColourOrder,
    effort: Effort,
) -> Result<Option<Coded>, OutOfMemory> {
    let mut coded = Coded::new(alloc, Some(order));
    let plan = PalettePlan {
        first: 0,
        count: picture.channels.len(),
        order,
        most: match effort {
            Effort::Fast => MOST_COLOURS / 4,
            _ => MOST_COLOURS,
        },
    };
    if coded.add(alloc, picture, plan)? {
        Ok(Some(coded))
    } else {
        Ok(None)
    }
}

/// Adds the ways by a palette of all channels in each of these orders.
pub(crate) fn add_palette_ways(
    alloc: Global,
    list: &mut Vec<Advice>,
    picture: &Picture,
    alike: bool,
    learning: Learning,
    orders: &[ColourOrder],
) -> Result<(), OutOfMemory> {
    for order in orders {
        let Some(found) = all_by_palette(alloc, picture, *order, learning.effort())? else {
            return Ok(());
        };
        found.add_way(alloc, list, alike, learning, &[None])?;
    }
    Ok(())
}

/// Whether some of these samples, of this many bits, already have values that are not far apart.
fn are_dense(alloc: Global, samples: &[i32], bits: u32) -> Result<bool, OutOfMemory> {
    let mut seen = vec![in alloc; false; 1usize.wrapping_shl(bits.min(16))]?;
    let mut count: usize = 0;
    let (mut least, mut most) = (i32::MAX, i32::MIN);
    let step = samples.len() / LOOKED | 1;
    for at in 0..samples.len().min(LOOKED) {
        let Some(sample) = samples.get(at.saturating_mul(step)).copied() else {
            break;
        };
        least = least.min(sample);
        most = most.max(sample);
        if let Some(flag) = seen.get_mut(sample.cast_unsigned() as usize) {
            if !*flag {
                *flag = true;
                count = count.saturating_add(1);
            }
        }
    }
    Ok(!are_far_apart(count, least, most))
}

/// The channels of colours of a picture by the ranks of their values, beside all others, if they have few, and are not its only
/// channel.
pub(crate) fn ranks_of(alloc: Global, picture: &Picture) -> Result<Option<Coded>, OutOfMemory> {
    if picture.channels.len() < 2 {
        return Ok(None);
    }
    let mut coded = Coded::new(alloc, None);
    let bits = picture.header.bit_depth.bits_per_sample;
    for channel in 0..picture.channels.len() {
        let grid = &picture.channels[channel];
        if channel >= colours_in(&picture.header) {
            coded.channels.push(grid.try_clone(alloc)?)?;
            continue;
        }
        let plan = PalettePlan {
            first: channel,
            count: 1,
            order: ColourOrder::Sample,
            most: MOST_COLOURS,
        };
        if are_dense(alloc, grid.buf(), bits)? || !coded.add(alloc, picture, plan)? {
            return Ok(None);
        }
    }
    Ok(Some(coded))
}
