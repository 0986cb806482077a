//! Looks at few samples, which tell what ways to code a picture may cost: only the likeliest are then learnt from more samples.
//! They are heuristics: no sample depends on them.

use crate::advice::{Advice, Learning, Samples, add_other_way, add_way_of, colours_of, cost_of};
use crate::best::is_small;
use crate::effort::Effort;
use crate::palettes::{Coded, all_by_palette, orders_of, ranks_of};
use jxl_picture::picture::Picture;
use jxlm_base::grid::OutOfMemory;
use std::alloc::Global;

/// About how many samples of each channel are looked at at least.
const LEAST_LOOKED: usize = 1 << 13;

/// The share of the samples of a larger picture that are looked at.
const SHARE: usize = 64;

/// The share of the samples of a smaller picture that are looked at.
const SMALL_SHARE: usize = 4;

/// By how much two costs have to differ at least, in bits times 65,536: of a picture that is nearly flat a look says little.
const LEAST_DIFFERENCE: u64 = 1024 * 65536;

/// About how many samples of each channel of a picture are looked at.
fn look_at(picture: &Picture) -> Learning {
    let samples = match picture.channels.get(0) {
        Some(first) => first.buf().len(),
        None => 0,
    };
    let least = LEAST_LOOKED.min(samples / SMALL_SHARE);
    Learning::Look(least.max(samples / SHARE))
}

/// Whether a picture may be coded in a way of this cost, where another costs as much: if it is large also if the cost is this
/// share of the other more, as far as a look tells them apart.
fn is_near(cost: u64, other: u64, share: u64, small: bool) -> bool {
    if small {
        return cost <= other;
    }
    let most = other.saturating_add(other / share.max(1));
    cost <= most.saturating_add(LEAST_DIFFERENCE)
}

/// A palette of all channels, and what the picture may cost by it.
#[derive(Drop)]
struct Looked {
    palette: Coded,
    cost: u64,
}

/// The palette of all channels by which the picture may cost least; none, if its colours are too many.
fn likeliest_palette(
    alloc: Global,
    picture: &Picture,
    alike: bool,
) -> Result<Option<Looked>, OutOfMemory> {
    let mut best: Option<Looked> = None;
    for order in orders_of(Effort::Usual, picture.channels.len()) {
        let Some(palette) = all_by_palette(alloc, picture, *order, Effort::Usual)? else {
            return Ok(best);
        };
        let mut list = Vec::new(alloc);
        palette.add_way(alloc, &mut list, alike, look_at(picture), &[None])?;
        let cost = cost_of(list.first());
        best = match best {
            Some(old) if old.cost <= cost => Some(old),
            _ => Some(Looked { palette, cost }),
        };
    }
    Ok(best)
}

/// The ways of the usual effort: by the likeliest palette of all channels, unless the picture may cost far less without one;
/// without one, unless it may cost far less by one. A look overstates the cost without a palette more than the other. Of a
/// small picture only the likelier ways are learnt.
pub(crate) fn ways_by_looks(
    alloc: Global,
    picture: &Picture,
    alike: bool,
) -> Result<Vec<Advice>, OutOfMemory> {
    let mut list = Vec::new(alloc);
    let learning = Learning::At(Effort::Usual);
    let samples = Samples::of(picture, alike);
    let Some(best) = likeliest_palette(alloc, picture, alike)? else {
        let ranks = ranks_of(alloc, picture)?;
        add_other_way(alloc, &mut list, picture, alike, &ranks, learning)?;
        return Ok(list);
    };
    let mut looked = Vec::new(alloc);
    let colours = colours_of(picture, Effort::Usual);
    add_way_of(alloc, &mut looked, samples, look_at(picture), colours)?;
    let plain = cost_of(looked.first());
    let small = is_small(picture);
    if is_near(best.cost, plain, 4, small) {
        best.palette
            .add_way(alloc, &mut list, alike, learning, &[None])?;
    }
    if is_near(plain, best.cost, 2, small) {
        if let Some(way) = looked.first() {
            add_way_of(alloc, &mut list, samples, learning, &[way.colour])?;
        }
    }
    Ok(list)
}
