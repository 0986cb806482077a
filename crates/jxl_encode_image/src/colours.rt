//! The colours of channels, where they are few. Which are found, and in which order, is a heuristic: what rests on them
//! is checked.

use jxlm_base::grid::{AlignedGrid, OutOfMemory};
use jxlm_base::sample::Sample;
use std::alloc::Global;

/// The most channels of a colour.
pub(crate) const MAX_CHANNELS: usize = 4;

/// How many places a colour may have.
const TRIES: usize = 64;

/// The most colours that are put beside near ones.
const MOST_NEAREST: usize = 4096;

/// The number of places is at most 2 to the power of this.
const MOST_WIDTH: u32 = 20;

/// The factor of a hash.
const FACTOR: u64 = 0x9E37_79B9_7F4A_7C15;

/// The channels by which colours are sorted, one after another.
const CHANNELS: [usize; 4] = [1, 0, 2, 3];

/// An order of colours.
#[derive(Clone, Copy, Debug, PartialEq, Eq)]
pub enum ColourOrder {
    /// By the second channel, and where it is the same by the first, and then by the others.
    Sample,
    /// From those that begin most runs of pixels on, and of as many by their samples.
    Frequency,
    /// Each beside one that is near it among those that are left; by their samples, if they are too many for that.
    Nearest,
}

/// The samples of a pixel, and 0 for channels that are not there.
#[derive(Clone, Copy, PartialEq, Eq)]
pub(crate) struct Colour {
    samples: [i32; 4],
}

impl Colour {
    /// The sample of a channel.
    pub(crate) fn sample(self, channel: usize) -> i32 {
        if channel < 4 {
            self.samples[channel]
        } else {
            0
        }
    }

    /// What colours are sorted by: their samples, of up to 16 bits, behind one another.
    fn key(&self) -> i64 {
        let mut key: i64 = 0;
        for channel in &CHANNELS {
            key = key
                .wrapping_mul(1 << 16)
                .wrapping_add(i64::from(self.sample(*channel)));
        }
        key
    }

    /// How far it is from another: the sum of squares.
    fn distance(self, other: Colour) -> u64 {
        let mut sum: u64 = 0;
        for channel in 0..4 {
            let far = u64::from(self.samples[channel].abs_diff(other.samples[channel]));
            sum = sum.saturating_add(far.saturating_mul(far));
        }
        sum
    }

    /// A hash of the samples.
    fn hash(self) -> usize {
        let mut hash: u64 = 0;
        for sample in &self.samples {
            hash = (hash ^ u64::from(sample.cast_unsigned())).wrapping_mul(FACTOR);
        }
        (hash ^ hash.wrapping_shr(29)) as usize
    }
}

/// A row of up to four channels; empty rows in place of others.
#[derive(Clone, Copy)]
pub(crate) struct PixelRow<'a, S> {
    first: &'a [S],
    second: &'a [S],
    third: &'a [S],
    fourth: &'a [S],
}

/// A row of a channel; an empty one, if there is none.
fn row_of<'a, S: Sample>(grids: &'a [AlignedGrid<S>], channel: usize, y: usize) -> &'a [S] {
    match grids.get(channel) {
        Some(grid) if y < grid.height() => grid.get_row(y),
        _ => &[],
    }
}

/// The sample in column `x` of a row; 0, if there is none.
fn sample_at<S: Sample>(row: &[S], x: usize) -> i32 {
    match row.get(x) {
        Some(sample) => sample.to_i32(),
        None => 0,
    }
}

impl<'a, S: Sample> PixelRow<'a, S> {
    /// Row `y` of the first channels.
    pub(crate) fn of(grids: &'a [AlignedGrid<S>], y: usize) -> PixelRow<'a, S> {
        PixelRow {
            first: row_of(grids, 0, y),
            second: row_of(grids, 1, y),
            third: row_of(grids, 2, y),
            fourth: row_of(grids, 3, y),
        }
    }

    /// The colour of the pixel in column `x`.
    pub(crate) fn colour(self, x: usize) -> Colour {
        Colour {
            samples: [
                sample_at(self.first, x),
                sample_at(self.second, x),
                sample_at(self.third, x),
                sample_at(self.fourth, x),
            ],
        }
    }
}

/// Colours, each with a number.
#[derive(Drop)]
pub(crate) struct Colours {
    /// The colours in the order of their numbers.
    pub(crate) list: Vec<Colour>,
    // How many runs of pixels each begins.
    runs: Vec<u32>,
    // The number of the colour at each place, plus 1.
    places: Vec<u32>,
}

impl Colours {
    /// None, with room for this number: the places are a power of two, at least four for each.
    fn new(alloc: Global, most: usize) -> Result<Colours, OutOfMemory> {
        let width = usize::BITS.saturating_sub(most.leading_zeros());
        let places = 1usize.wrapping_shl(width.saturating_add(2).min(MOST_WIDTH));
        Ok(Colours {
            list: Vec::new(alloc),
            runs: Vec::new(alloc),
            places: vec![in alloc; 0; places]?,
        })
    }

    /// The number of the colour at a place, plus 1; 0 where there is none.
    fn number_at(&self, place: usize) -> u32 {
        self.places.get(place).copied().unwrap_or(0)
    }

    /// The place of a colour, which may be free; none, if too many others have its places.
    fn place(&self, colour: Colour) -> Option<usize> {
        let many = self.places.len();
        if many == 0 {
            return None;
        }
        let first = colour.hash();
        for step in 0..TRIES {
            let place = first.wrapping_add(step) & (many - 1);
            let number = self.number_at(place);
            if number == 0 || self.list.get(number as usize - 1).copied() == Some(colour) {
                return Some(place);
            }
        }
        None
    }

    /// The number of a colour; 0 where it has none.
    pub(crate) fn number(&self, colour: Colour) -> u32 {
        match self.place(colour) {
            Some(place) => self.number_at(place).saturating_sub(1),
            None => 0,
        }
    }

    /// Adds a colour if it is not there, and counts its run. Returns false if it finds no place.
    fn add(&mut self, colour: Colour) -> Result<bool, OutOfMemory> {
        let Some(place) = self.place(colour) else {
            return Ok(false);
        };
        let number = self.number_at(place);
        if number > 0 {
            if let Some(runs) = self.runs.get_mut(number as usize - 1) {
                *runs = runs.saturating_add(1);
            }
            return Ok(true);
        }
        self.list.push(colour)?;
        self.runs.push(1)?;
        let Ok(number) = u32::try_from(self.list.len()) else {
            return Ok(false);
        };
        if let Some(free) = self.places.get_mut(place) {
            *free = number;
        }
        Ok(true)
    }

    /// Adds the colours of a row. Returns false if they are then more than `most`.
    fn add_row<S: Sample>(
        &mut self,
        grids: &[AlignedGrid<S>],
        y: usize,
        width: usize,
        most: usize,
    ) -> Result<bool, OutOfMemory> {
        let row = PixelRow::of(grids, y);
        let mut last = None;
        for x in 0..width {
            let colour = row.colour(x);
            if last == Some(colour) {
                continue;
            }
            if !self.add(colour)? || self.list.len() > most {
                return Ok(false);
            }
            last = Some(colour);
        }
        Ok(true)
    }
}

/// These colours, numbered in this order.
fn numbered(alloc: Global, list: &[Colour]) -> Result<Colours, OutOfMemory> {
    let mut colours = Colours::new(alloc, list.len())?;
    for colour in list {
        colours.add(*colour)?;
    }
    Ok(colours)
}

/// What colours are sorted by in this order, with the number of each.
fn keys_of(
    alloc: Global,
    found: &Colours,
    order: ColourOrder,
) -> Result<Vec<(u32, i64, usize)>, OutOfMemory> {
    let mut keys = Vec::new(alloc);
    for number in 0..found.list.len() {
        let runs = match order {
            ColourOrder::Frequency => found.runs.get(number).copied().unwrap_or(0),
            _ => 0,
        };
        keys.push((u32::MAX - runs, found.list[number].key(), number))?;
    }
    Ok(keys)
}

/// The number of the colour from this number on that is nearest to the one before it.
fn nearest(list: &[Colour], from: usize) -> usize {
    let mut best = from;
    let mut least = u64::MAX;
    let Some(last) = list.get(from.saturating_sub(1)).copied() else {
        return from;
    };
    for i in from..list.len() {
        let far = last.distance(list[i]);
        if far < least {
            least = far;
            best = i;
        }
    }
    best
}

/// Puts each colour beside one that is near it, if they are not too many.
fn put_beside(list: &mut [Colour]) {
    if list.len() > MOST_NEAREST {
        return;
    }
    for i in 1..list.len() {
        let near = nearest(list, i);
        if near < list.len() {
            list.swap(i, near);
        }
    }
}

/// The colours in this order.
fn ordered(alloc: Global, found: &Colours, order: ColourOrder) -> Result<Vec<Colour>, OutOfMemory> {
    let mut keys = keys_of(alloc, found, order)?;
    keys.sort_unstable();
    let mut colours = Vec::new(alloc);
    for key in &keys {
        if let Some(colour) = found.list.get(key.2) {
            colours.push(*colour)?;
        }
    }
    if order == ColourOrder::Nearest {
        put_beside(&mut colours);
    }
    Ok(colours)
}

/// The colours of these channels in this order; none, if they are more than `most`.
pub(crate) fn colours_of<S: Sample>(
    alloc: Global,
    grids: &[AlignedGrid<S>],
    width: usize,
    height: usize,
    order: ColourOrder,
    most: usize,
) -> Result<Option<Colours>, OutOfMemory> {
    let mut found = Colours::new(alloc, most)?;
    for y in 0..height {
        if !found.add_row(grids, y, width, most)? {
            return Ok(None);
        }
    }
    let list = ordered(alloc, &found, order)?;
    Ok(Some(numbered(alloc, &list)?))
}
