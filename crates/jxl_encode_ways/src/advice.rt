//! How a picture is coded: a choice that no sample depends on.

use crate::best::{add_best_way, best_ways, is_small, likeliest_colour};
use crate::effort::Effort;
use crate::looks::ways_by_looks;
use crate::palettes::{Coded, add_palette_ways, orders_of, ranks_of};
use jxl_encode_image::colours::ColourOrder;
use jxl_encode_image::transform::PalettePlan;
use jxl_encode_learn::scheme::Scheme;
use jxl_encode_properties::neighbours::{Care, FEW_BITS, are_alike, scheme_by_neighbours};
use jxl_image_header::channel::BitDepth;
use jxl_picture::picture::{Picture, is_grey};
use jxlm_base::grid::{AlignedGrid, OutOfMemory};
use jxlm_encode_write::tree::EncodeNode;
use std::alloc::Global;

/// How a picture is coded: its tree, level by level, with the clusters of its leaves in their order, and how its colours
/// are formed, if they are transformed.
#[derive(Drop)]
pub struct Advice {
    /// The nodes of its tree.
    pub nodes: Vec<EncodeNode>,
    /// The clusters of the leaves.
    pub clusters: Vec<u8>,
    /// The kind of colour transform, if there is one.
    pub colour: Option<u32>,
    /// The palettes, if there are some: then the tree is that of their tables and of all other channels.
    pub palettes: Vec<PalettePlan>,
    /// What samples, codes and tree cost, nearly, without copies, in bits times 65,536.
    pub(crate) cost: u64,
    /// Whether its tree is by all properties and predictors.
    pub(crate) broad: bool,
    /// The order of the colours of its palette of all channels, if it has one.
    pub(crate) order: Option<ColourOrder>,
}

/// The samples of a picture, and how they are stored.
#[derive(Clone, Copy)]
pub(crate) struct Samples<'a> {
    pub(crate) channels: &'a [AlignedGrid<i32>],
    pub(crate) depth: BitDepth,
    /// Whether most samples of the picture are alike, so that trees are learnt from more of them.
    pub(crate) alike: bool,
}

/// How ways are learnt.
#[derive(Clone, Copy)]
pub(crate) enum Learning {
    /// As at an effort.
    At(Effort),
    /// By a look at about this number of samples of each channel, which tells what ways may cost at the usual effort.
    Look(usize),
    /// By all properties and predictors alone.
    Broad,
}

impl Learning {
    /// At which effort.
    pub(crate) fn effort(self) -> Effort {
        match self {
            Learning::At(effort) => effort,
            Learning::Look(_) => Effort::Usual,
            Learning::Broad => Effort::Best,
        }
    }

    /// How much is tried of these samples.
    pub(crate) fn care(self, samples: Samples<'_>) -> Care {
        let alike = samples.alike;
        let few = samples.depth.bits_per_sample <= FEW_BITS;
        let care = match self.effort() {
            Effort::Fast => Care {
                pixels: if alike { 1 << 15 } else { FEW_PIXELS },
                slopes: if few { 6 } else { 2 },
                clusters: if few { 16 } else { 5 },
                step: 0,
                rounds: 0,
            },
            Effort::Usual => Care {
                pixels: if alike { 1 << 18 } else { 1 << 15 },
                slopes: 6,
                clusters: if alike { 16 } else { 32 },
                step: if alike { ALIKE_STEP } else { 0 },
                rounds: 2,
            },
            Effort::Best => Care {
                pixels: 1 << 19,
                slopes: 6,
                clusters: 64,
                step: 0,
                rounds: 2,
            },
        };
        match self {
            Learning::Look(pixels) => Care {
                pixels,
                slopes: LOOK_SLOPES,
                rounds: 0,
                ..care
            },
            _ => care,
        }
    }
}

impl<'a> Samples<'a> {
    /// Those of a picture, of which most are alike if `alike` says so.
    pub(crate) fn of(picture: &'a Picture, alike: bool) -> Samples<'a> {
        Samples {
            channels: &picture.channels,
            depth: picture.header.bit_depth,
            alike,
        }
    }
}

impl Advice {
    /// No tree, so that each sample is coded by the gradient.
    pub fn none(alloc: Global) -> Advice {
        Advice {
            nodes: Vec::new(alloc),
            clusters: Vec::new(alloc),
            colour: None,
            palettes: Vec::new(alloc),
            cost: u64::MAX,
            broad: false,
            order: None,
        }
    }

    /// By this scheme, after this colour transform or without one; `broad`, if the scheme is by all properties and predictors.
    pub(crate) fn by(alloc: Global, scheme: Scheme, colour: Option<u32>, broad: bool) -> Advice {
        Advice {
            nodes: scheme.nodes,
            clusters: scheme.clusters,
            colour,
            palettes: Vec::new(alloc),
            cost: scheme.cost,
            broad,
            order: None,
        }
    }

    /// Whether a picture is coded alike by both.
    fn is_same(&self, other: &Advice) -> bool {
        self.colour == other.colour
            && self.palettes.as_slice() == other.palettes.as_slice()
            && self.clusters.as_slice() == other.clusters.as_slice()
            && self.nodes.as_slice() == other.nodes.as_slice()
    }
}

/// The kind of colour transform that is luma and two differences.
const LUMA: u32 = 6;

/// The kind of colour transform that is green and the differences of red and blue to it.
const GREEN: u32 = 10;

/// The side of a group.
pub(crate) const GROUP_DIM: u32 = 256;

/// What the header of a group takes, nearly, in bits times 65,536.
const GROUP_COST: u64 = 128 * 65536;

/// About how many samples of each channel are looked at with the least effort, and to see whether they are alike.
const FEW_PIXELS: usize = 1 << 11;

/// By how many slopes samples are told apart to see what ways may cost.
const LOOK_SLOPES: usize = 2;

/// How many ways are tried to the end of a small picture at the usual effort.
const SMALL_WAYS: usize = 2;

/// The price of a decision at the usual effort, where most samples are alike, in bits divided by 65,536.
const ALIKE_STEP: u64 = 195;

/// About how many samples of each channel are looked at before a colour transform is chosen.
const LOOKED: usize = 1 << 12;

/// The cheapest way to code a picture by a tree that is learnt from some of its samples, with this care, after one of these
/// colour transforms; none, if there is none of them.
pub(crate) fn by_neighbours(
    alloc: Global,
    picture: Samples<'_>,
    care: Care,
    colours: &[Option<u32>],
) -> Result<Option<Advice>, OutOfMemory> {
    let mut best: Option<Advice> = None;
    for colour in colours {
        let bits = picture.depth.bits_per_sample;
        let scheme = scheme_by_neighbours(alloc, picture.channels, *colour, bits, care)?;
        best = match best {
            Some(old) if old.cost <= scheme.cost => Some(old),
            _ => Some(Advice::by(alloc, scheme, *colour, false)),
        };
    }
    Ok(best)
}

/// Adds an advice before those that cost more, unless a picture is coded alike by one of them.
pub(crate) fn add_advice(list: &mut Vec<Advice>, advice: Advice) -> Result<(), OutOfMemory> {
    let mut place: usize = 0;
    for at in 0..list.len() {
        let other = &list[at];
        if other.is_same(&advice) {
            return Ok(());
        }
        if other.cost <= advice.cost {
            place = at + 1;
        }
    }
    list.insert(place.min(list.len()), advice)?;
    Ok(())
}

/// Adds the way that is learnt so: at lower efforts by neighbours after the likeliest of these colour transforms. By few
/// samples the tree is learnt with each of these, as a look takes no less time.
pub(crate) fn add_way_of(
    alloc: Global,
    list: &mut Vec<Advice>,
    picture: Samples<'_>,
    learning: Learning,
    colours: &[Option<u32>],
) -> Result<(), OutOfMemory> {
    if learning.effort() == Effort::Best && picture.depth.exp_bits == 0 {
        return add_best_way(alloc, list, picture, learning, colours);
    }
    let care = learning.care(picture);
    let few = matches!(learning, Learning::Look(_)) || care.pixels <= FEW_PIXELS;
    let way = if few {
        by_neighbours(alloc, picture, care, colours)?
    } else {
        let colour = likeliest_colour(alloc, picture, colours, LOOKED)?;
        by_neighbours(alloc, picture, care, &[colour])?
    };
    match way {
        Some(way) => add_advice(list, way),
        None => Ok(()),
    }
}

/// The colour transforms that are tried of a picture at an effort: of floats and of very deep samples none. Those at the greatest
/// effort beside luma and green have a difference to one channel and one to the mean of two, in five orders of the channels.
pub(crate) fn colours_of(picture: &Picture, effort: Effort) -> &'static [Option<u32>] {
    let header = &picture.header;
    let depth = header.bit_depth;
    if is_grey(header) || depth.exp_bits != 0 || depth.bits_per_sample > 24 {
        return &[None];
    }
    if matches!(effort, Effort::Best) {
        return &[
            None,
            Some(LUMA),
            Some(GREEN),
            Some(5),
            Some(12),
            Some(19),
            Some(26),
            Some(40),
        ];
    }
    &[None, Some(LUMA)]
}

/// Adds the way without a palette of all channels: by the ranks of values, if there are some, in place of the values. Most
/// samples of the picture are alike if `alike` says so.
pub(crate) fn add_other_way(
    alloc: Global,
    list: &mut Vec<Advice>,
    picture: &Picture,
    alike: bool,
    ranks: &Option<Coded>,
    learning: Learning,
) -> Result<(), OutOfMemory> {
    let colours = colours_of(picture, learning.effort());
    match ranks {
        Some(ranks) => ranks.add_way(alloc, list, alike, learning, colours),
        None => add_way_of(alloc, list, Samples::of(picture, alike), learning, colours),
    }
}

/// What a way costs; the greatest cost, if there is none.
pub(crate) fn cost_of(way: Option<&Advice>) -> u64 {
    match way {
        Some(way) => way.cost,
        None => u64::MAX,
    }
}

/// Whether the samples of a picture take so few bits in the cheapest of these ways that the headers of its groups, which no
/// cost includes, may take more.
fn is_nearly_flat(list: &[Advice], picture: &Picture) -> bool {
    let size = picture.header.size;
    let across = u64::from(size.width.div_ceil(GROUP_DIM));
    let down = u64::from(size.height.div_ceil(GROUP_DIM));
    cost_of(list.first()) / GROUP_COST <= across.saturating_mul(down)
}

/// Ways to code a picture, of which samples repeat if `repeats` says so, the cheapest first as far as costs say: several of a
/// small picture and of one that is nearly flat, and else at lower efforts than the greatest one. At the usual effort only the
/// likeliest of a picture that is large, or does not repeat, are learnt, as far as looks say.
pub fn advices_for(
    alloc: Global,
    picture: &Picture,
    effort: Effort,
    repeats: bool,
) -> Result<Vec<Advice>, OutOfMemory> {
    let small = is_small(picture);
    let copied = small && repeats && effort == Effort::Usual;
    let channels = picture.channels.len();
    let bits = picture.header.bit_depth.bits_per_sample;
    let alike = are_alike(alloc, &picture.channels, bits, FEW_PIXELS)?;
    if effort == Effort::Usual && !copied {
        let mut list = ways_by_looks(alloc, picture, alike)?;
        if !is_nearly_flat(&list, picture) {
            list.truncate(1);
            return Ok(list);
        }
    }
    // At the greatest effort the ways of the usual one come first.
    let tried = match effort {
        Effort::Fast => Effort::Fast,
        _ => Effort::Usual,
    };
    let (learning, fast) = (Learning::At(tried), Learning::At(Effort::Fast));
    let mut list = Vec::new(alloc);
    add_palette_ways(
        alloc,
        &mut list,
        picture,
        alike,
        learning,
        orders_of(tried, channels),
    )?;
    let ranks = if list.is_empty() {
        ranks_of(alloc, picture)?
    } else {
        None
    };
    add_other_way(alloc, &mut list, picture, alike, &ranks, learning)?;
    let flat = is_nearly_flat(&list, picture);
    if flat && effort != Effort::Fast {
        let orders = orders_of(Effort::Fast, channels);
        add_palette_ways(alloc, &mut list, picture, alike, fast, orders)?;
    }
    if copied || flat {
        // With copies, fewer clusters are often shorter.
        add_other_way(alloc, &mut list, picture, alike, &ranks, fast)?;
    }
    match effort {
        _ if flat => {}
        Effort::Best => return best_ways(alloc, list, picture, repeats, alike),
        Effort::Fast if small => {}
        Effort::Usual if small => list.truncate(SMALL_WAYS),
        _ => list.truncate(1),
    }
    Ok(list)
}
