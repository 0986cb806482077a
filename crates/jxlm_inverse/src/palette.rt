//! The inverse of palettes: indices become colours again.

ghost use Rattle.std.specs.Prelude.{◌≡◌, ◌+◌, ◌-◌, ◌*◌, ◌/◌, ◌%◌, ◌^◌, ◌<◌, ◌≤◌, ◌↔◌, IsTrue, ℕ, ℤ, pos, int_lt, ◌+ℤ◌, ◌*ℤ◌, if◌then◌else◌, unsigned_abs, List, [], ◌∷◌, ◌++◌, get_or, length, take, drop, map, min, FitsSigned, IfOk, IfErr};
ghost use Rattle.std.specs.Option.{ForSome};
ghost use Rattle.jxlm_bits.specs.ErrorKind.{NoMemory, kind_of};
ghost use Rattle.jxlm_predictor.specs.Holding.{IsCurrent};
ghost use Rattle.jxlm_weighted.specs.SelfCorrecting.{IsHeader};
ghost use Rattle.std.specs.Int.{int_wrap, w32};
ghost use Rattle.jxlm_base.specs.Grid.{at};
ghost use Rattle.jxlm_base.specs.Regions.{Lies, grid_of, store_meanings};
ghost use Rattle.jxlm_base.specs.Outside.{KeepsOutside, SetsRow};
ghost use Rattle.jxlm_predictor.specs.Predictions.{prediction};
ghost use Rattle.jxlm_predictor.specs.Standing.{Setting, StandsAt, IsReady, HasSameRoom, room_of, setting, weights_of};
ghost use Rattle.jxlm_inverse.specs.Palette.{colour_after as the_colour_after, colour_index as the_colour_index, colour_of, deltas, implicit_colour, listed_difference, finished_channel, IsPaletteOf, PaletteHasOneImage, PaletteLies};
ghost use Rattle.jxlm_inverse.specs.Inner.PaletteSteps.{ChannelLies, ChannelsDone, channel_at, columns_of, FillsOn, FillsOnBy, AreSimple, IsSimple, IsSimpleIndex, IsSimpleRow, SetsNext, StandsBefore, StandsNext, index_in, kept, number_of, table_in};

use jxlm_base::grid::{AlignedGrid, Region};
use jxlm_base::region::{region_get, region_row, region_set};
use jxlm_base::sample::Sample;
use jxlm_bits::error::Result;
use jxlm_predictor::predictor::{PredictorState, Properties};
use jxlm_transform::transform::Palette;
use jxlm_weighted::reduced::reduced;
use std::alloc::Global;

/// The differences that negative indices name, by channels.
const DELTAS: [[i16; 3]; 72] = [
    [0, 0, 0],
    [4, 4, 4],
    [11, 0, 0],
    [0, 0, -13],
    [0, -12, 0],
    [-10, -10, -10],
    [-18, -18, -18],
    [-27, -27, -27],
    [-18, -18, 0],
    [0, 0, -32],
    [-32, 0, 0],
    [-37, -37, -37],
    [0, -32, -32],
    [24, 24, 45],
    [50, 50, 50],
    [-45, -24, -24],
    [-24, -45, -45],
    [0, -24, -24],
    [-34, -34, 0],
    [-24, 0, -24],
    [-45, -45, -24],
    [64, 64, 64],
    [-32, 0, -32],
    [0, -32, 0],
    [-32, 0, 32],
    [-24, -45, -24],
    [45, 24, 45],
    [24, -24, -45],
    [-45, -24, 24],
    [80, 80, 80],
    [64, 0, 0],
    [0, 0, -64],
    [0, -64, -64],
    [-24, -24, 45],
    [96, 96, 96],
    [64, 64, 0],
    [45, -24, -24],
    [34, -34, 0],
    [112, 112, 112],
    [24, -45, -45],
    [45, 45, -24],
    [0, -32, 32],
    [24, -24, 45],
    [0, 96, 96],
    [45, -24, 24],
    [24, -45, -24],
    [-24, -45, 24],
    [0, -64, 0],
    [96, 0, 0],
    [128, 128, 128],
    [64, 0, 64],
    [144, 144, 144],
    [96, 96, 0],
    [-36, -36, 36],
    [45, -24, -45],
    [45, -45, -24],
    [0, 0, -96],
    [0, 128, 128],
    [0, 96, 0],
    [45, 24, -45],
    [-128, 0, 0],
    [24, -45, 24],
    [-45, 24, -45],
    [64, 0, -64],
    [64, -64, -64],
    [96, 0, 96],
    [45, -45, 24],
    [24, 45, -45],
    [64, 64, -64],
    [128, 128, 0],
    [0, 0, -128],
    [-24, 45, -45],
];

/// The powers of 4 below 64, and those of 5 below 2^32.
const POWERS_OF_FOUR: [u32; 3] = [1, 4, 16];

const POWERS_OF_FIVE: [u32; 14] = [
    1, 5, 25, 125, 625, 3125, 15625, 78125, 390625, 1953125, 9765625, 48828125, 244140625,
    1220703125,
];

/// Digit `c` of a number of three digits to the base 4.
fn digit_of_four(j: u32, c: usize) -> u32
    requires { j < 64 }
    ensures value { result ≡ j / 4 ^ c % 4 }
    ensures bound { result < 4 }
{
    if c < 3 { j / POWERS_OF_FOUR[c] % 4 } else { 0 }
}

/// Digit `c` of a number to the base 5.
fn digit_of_five(j: u32, c: usize) -> u32
    ensures value { result ≡ j / 5 ^ c % 5 }
    ensures bound { result < 5 }
{
    if c < 14 { j / POWERS_OF_FIVE[c] % 5 } else { 0 }
}

/// The maximum sample of a depth.
#[tactic(auto, using(crate::proofs::PaletteColours::depth_power, std::proofs::lemmas::Nat::pow_pos))]
fn max_sample(depth: u32) -> u64
    requires { depth ≤ 32 }
    ensures value { result ≡ 2 ^ depth - 1 }
    ensures bound { result < 2 ^ 32 }
{
    (1u64 << depth) - 1
}

/// A quarter of `digit` times the maximum sample of a depth.
fn quarters(depth: u32, digit: u32) -> u64
    requires deep { depth ≤ 32 }
    requires digit { digit < 5 }
    ensures value { result ≡ digit * (2 ^ depth - 1) / 4 }
    ensures bound { result < 2 ^ 33 }
{
    let product = digit as u64 * max_sample(depth);
    product / 4
}

/// An eighth of the samples of a depth, and at least 1.
fn eighth(depth: u32) -> u64
    requires { depth ≤ 32 }
    ensures value { result ≡ 2 ^ (depth - 3) }
    ensures bound { result ≤ 2 ^ 29 }
{
    1u64 << depth.saturating_sub(3)
}

/// The `j`-th colour after the table in channel `c`.
fn implicit_colour(depth: u32, j: u32, c: usize) -> u64
    requires { depth ≤ 32 }
    ensures value { result ≡ implicit_colour depth j c }
    ensures bound { result < 2 ^ 34 }
{
    if j < 64 {
        quarters(depth, digit_of_four(j, c)) + eighth(depth)
    } else {
        quarters(depth, digit_of_five(j - 64, c))
    }
}

/// The `j`-th colour after the table of a palette in channel `c`.
fn colour_after(palette: &Palette, depth: u32, j: u32, c: usize) -> u64
    requires { depth ≤ 32 }
    ensures value { result ≡ the_colour_after depth palette.now j c }
    ensures bound { result < 2 ^ 34 }
{
    if palette.implicit_rgb && c >= 3 {
        0
    } else {
        implicit_colour(depth, j, c)
    }
}

/// An entry of the table of differences.
fn entry(row: u32, c: usize) -> i64
    requires row { row < 72 }
    requires channel { c < 3 }
    ensures value { result ≡ get_or (get_or deltas row []) c (pos 0) }
    ensures bound { unsigned_abs result ≤ 144 }
{
    DELTAS[row as usize][c] as i64
}

/// The difference of index -k - 1 at 8 bits a sample.
fn listed_difference(k: u32, c: usize) -> i64
    requires { c < 3 }
    ensures value { result ≡ listed_difference k c }
    ensures bound { unsigned_abs result ≤ 144 }
{
    let i = k % 143;
    let entry = entry((i + 1) / 2, c);
    if i % 2 == 0 { -entry } else { entry }
}

/// How much larger the differences of a depth are than those of 8 bits.
fn delta_step(depth: u32) -> i64
    ensures value { result ≡ pos (2 ^ (min depth 24 - 8)) }
    ensures bound { unsigned_abs result ≤ 2 ^ 16 }
{
    1i64 << depth.min(24).saturating_sub(8)
}

/// The difference that index -k - 1 names in channel `c`.
fn difference(depth: u32, k: u32, c: usize) -> i64
    ensures value { result ≡ listed_difference k c *ℤ pos (2 ^ (min depth 24 - 8)) }
    ensures bound { unsigned_abs result < 2 ^ 24 }
{
    if c >= 3 {
        return 0;
    }
    listed_difference(k, c) * delta_step(depth)
}

/// The sample that a whole number is reduced to.
fn sample_of<S: Sample>(value: i64) -> S
    ensures { result ≡ S.from_int (int_wrap S.width value) }
{
    S::from_i32(reduced(value))
}

/// The sample in column `x` of row `y` of a region.
fn number_at<S: Sample>(store: &[AlignedGrid<S>], region: Region, x: usize, y: usize) -> i32
    requires lies { Lies region store.now }
    requires column { x < region.width }
    requires in_rows { y < region.height }
    ensures { result ≡ at (grid_of (store_meanings S.to_int store.now) region) x y }
{
    region_get(store, region, x, y).to_i32()
}

/// How many samples are looked up before they are written.
const LINE: usize = 256;

/// `count` columns of a region of the store, from column `x` on.
#[inline(always)]
fn columns_of<S: Copy>(store: &[AlignedGrid<S>], region: Region, x: usize, count: usize) -> Region
    requires lies { Lies region store.now }
    requires inside { x + count ≤ region.width }
    ensures { result ≡ columns_of region x count }
{
    let grid = &store[region.buffer];
    prove!(region.x <= grid.width());
    Region {
        x: region.x + x,
        width: count,
        ..region
    }
}

/// Writes the samples of these numbers over the cells of a row from `start` on.
#[inline(always)]
fn write_samples<S: Sample>(row: &mut [S], start: usize, numbers: &[i32])
    requires inside { start + length numbers.now ≤ length row.old }
    requires numbers { (j : ℕ) → j < length numbers.now → FitsSigned w32 (get_or numbers.now j (pos 0)) }
    ensures { row.new ≡ take start row.old
        ++ (map (λ n. S.from_int (int_wrap S.width n)) numbers.now ++ drop (start + length numbers.now) row.old) }
{
    for j in 0..numbers.len() {
        row[start + j] = S::from_i32(numbers[j]);
    }
}

/// Writes the samples of these numbers into row `y` of a region of the store, which is as wide.
#[inline(always)]
fn set_row<S: Sample>(store: &mut [AlignedGrid<S>], region: Region, y: usize, numbers: &[i32])
    requires lies { Lies region store.old }
    requires in_rows { y < region.height }
    requires fits { length numbers.now ≡ region.width }
    requires numbers { (j : ℕ) → j < length numbers.now → FitsSigned w32 (get_or numbers.now j (pos 0)) }
    ensures { SetsRow region y (map (λ n. S.from_int (int_wrap S.width n)) numbers.now) store.old store.new }
{
    let grid = &mut store[region.buffer];
    prove!(region.x <= grid.width() && region.y < grid.height());
    let row = grid.get_row_mut(region.y + y);
    write_samples(row, region.x, numbers);
}

/// One of the channels that a palette becomes: where the table, the indices and the channel's samples are, and its
/// number.
#[derive(Clone, Copy)]
struct FinishedChannel {
    table: Region,
    index: Region,
    target: Region,
    number: usize,
}

/// The index whose colour is taken: if the palette clamps indices, the nearest one of the table.
fn colour_index(palette: &Palette, index: i32) -> i32
    ensures { result ≡ the_colour_index palette.now index }
{
    if !palette.clamps_indices {
        return index;
    }
    if index < 0 {
        return 0;
    }
    if index.unsigned_abs() < palette.nb_colours {
        index
    } else {
        palette.nb_colours as i32 - 1
    }
}

/// The colour of an index in channel `c`, before any prediction: it is in the table, is implicit, or is a
/// difference.
fn colour<S: Sample>(
    palette: &Palette,
    store: &[AlignedGrid<S>],
    table: Region,
    index: i32,
    c: usize,
    bit_depth: u32,
) -> i64
    requires lies { Lies table store.now }
    requires columns { table.width ≡ palette.now.nb_colours }
    requires row { c < table.height }
    requires deep { bit_depth ≤ 32 }
    ensures value { result ≡ colour_of bit_depth palette.now (grid_of (store_meanings S.to_int store.now) table)
        index c }
    ensures bound { unsigned_abs result < 2 ^ 34 }
{
    let place = index.unsigned_abs();
    if index < 0 {
        difference(bit_depth, place - 1, c)
    } else if place < palette.nb_colours {
        number_at(store, table, place as usize, c) as i64
    } else {
        colour_after(palette, bit_depth, place - palette.nb_colours, c) as i64
    }
}

/// A colour, plus the prediction where its index is a delta.
fn raised(palette: &Palette, index: i32, colour: i64, predicted: i32) -> i64
    requires { unsigned_abs colour < 2 ^ 34 }
    ensures { result ≡ if int_lt index (pos palette.now.nb_deltas) then colour +ℤ predicted else colour }
{
    if (index as i64) < palette.nb_deltas as i64 {
        colour + predicted as i64
    } else {
        colour
    }
}

/// The finished sample of an index of this colour, at the cell of these properties; the state is at the next one
/// afterwards.
fn sampled<S: Sample>(
    palette: &Palette,
    properties: Properties<'_, S>,
    index: i32,
    colour: i64,
) -> S
    requires current { IsCurrent properties }
    requires small { unsigned_abs colour < 2 ^ 34 }
    ensures value { (s : Setting) (samples : List ℤ) → StandsAt properties.entry.state.now s samples
        → S.to_int result ≡ int_wrap S.width (if int_lt index (pos palette.now.nb_deltas) then colour
        +ℤ prediction s.weights samples s.width palette.now.d_pred else colour) }
    ensures stands { (s : Setting) (samples : List ℤ) → StandsAt properties.entry.state.now s samples
        → StandsAt properties.exit.0.now s (samples ++ S.to_int result ∷ []) }
    ensures room { HasSameRoom properties.entry.state.now properties.exit.0.now }
{
    let predicted = palette.d_pred.predict(&properties);
    let sample: S = sample_of(raised(palette, index, colour, predicted));
    properties.record(sample.to_i32());
    sample
}

/// The same at the state's cell.
fn next_sample<S: Sample>(
    palette: &Palette,
    store: &[AlignedGrid<S>],
    state: &mut PredictorState<S>,
    index: i32,
    colour: i64,
) -> S
    requires ready { IsReady state.old store.now }
    requires small { unsigned_abs colour < 2 ^ 34 }
    ensures value { (s : Setting) (samples : List ℤ) → StandsAt state.old s samples → S.to_int result
        ≡ int_wrap S.width (if int_lt index (pos palette.now.nb_deltas) then colour +ℤ prediction s.weights samples s.width
        palette.now.d_pred else colour) }
    ensures stands { (s : Setting) (samples : List ℤ) → StandsAt state.old s samples → StandsAt state.new s
        (samples ++ S.to_int result ∷ []) }
    ensures room { HasSameRoom state.old state.new }
{
    let properties = state.properties::<true>(store);
    sampled(palette, properties, index, colour)
}

/// Whether an index names a colour of the table and is no delta.
fn is_simple_index(palette: &Palette, index: i32) -> bool
    ensures { IsTrue result ↔ IsSimpleIndex palette.now index }
{
    let place = index.unsigned_abs();
    // no branch, so that many are tested at once
    (index >= 0) & (palette.nb_deltas <= place) & (place < palette.nb_colours)
}

/// Whether all indices of a row do.
#[inline(always)]
fn are_simple<S: Sample>(palette: &Palette, indices: &[S]) -> bool
    ensures { IsTrue result ↔ AreSimple palette.now (number_of S.to_int indices.now) (length indices.now) }
{
    let mut simple = true;
    for j in 0..indices.len() {
        simple &= is_simple_index(palette, indices[j].to_i32());
    }
    simple
}

/// Whether all indices of row `y` do.
fn is_simple_row<S: Sample>(
    palette: &Palette,
    store: &[AlignedGrid<S>],
    index: Region,
    y: usize,
) -> bool
    requires lies { Lies index store.now }
    requires in_rows { y < index.height }
    ensures { IsTrue result ↔ IsSimpleRow palette.now (grid_of (store_meanings S.to_int store.now) index) y }
{
    are_simple(palette, region_row(store, index, y))
}

/// Whether all indices do.
fn is_simple<S: Sample>(palette: &Palette, store: &[AlignedGrid<S>], index: Region) -> bool
    requires { Lies index store.now }
    ensures { IsTrue result ↔ IsSimple palette.now (grid_of (store_meanings S.to_int store.now) index) }
{
    for y in 0..index.height {
        if !is_simple_row(palette, store, index, y) {
            return false;
        }
    }
    true
}

/// Looks up the numbers of a channel's samples, by their indices, in its colours.
#[inline(always)]
fn look_up<S: Sample>(palette: &Palette, colours: &[S], indices: &[S], line: &mut [i32])
    requires columns { length colours.now ≡ palette.now.nb_colours }
    requires as_many { length line.old ≡ length indices.now }
    requires simple { AreSimple palette.now (number_of S.to_int indices.now) (length indices.now) }
    ensures len { length line.new ≡ length line.old }
    ensures fit { (j : ℕ) → j < length indices.now → FitsSigned w32 (get_or line.new j (pos 0)) }
    ensures looked_up { (j : ℕ) → j < length indices.now → get_or line.new j (pos 0)
        ≡ number_of S.to_int colours.now (unsigned_abs (number_of S.to_int indices.now j)) }
{
    for j in 0..line.len() {
        let place = indices[j].to_i32() as usize;
        line[j] = colours[place].to_i32();
    }
}

/// Looks up finished samples of row `y` from column `x` on, as many as `line` has room for.
fn look_up_part<S: Sample>(
    palette: &Palette,
    store: &mut [AlignedGrid<S>],
    channel: FinishedChannel,
    x: usize,
    y: usize,
    line: &mut [i32],
)
    requires lies { ChannelLies palette.now channel store.old }
    requires columns { x + length line.old ≤ channel.index.width }
    requires in_rows { y < channel.index.height }
    requires simple { AreSimple palette.now (λ j. at (index_in channel (store_meanings S.to_int store.old)) (x + j) y)
        (length line.old) }
    ensures len { length line.new ≡ length line.old }
    ensures keeps { KeepsOutside (channel.target ∷ []) store.old store.new }
    ensures kept { kept channel (y * channel.index.width + x + length line.old)
        (store_meanings S.to_int store.old) (store_meanings S.to_int store.new) }
    ensures fills { (depth : ℕ) → FillsOn S.width depth palette.now channel (y * channel.index.width + x)
        (y * channel.index.width + x + length line.old) (store_meanings S.to_int store.old)
        (store_meanings S.to_int store.new) }
{
    let count = line.len();
    let part = columns_of(store, channel.index, x, count);
    let colours = region_row(store, channel.table, channel.number);
    look_up(palette, colours, region_row(store, part, y), line);
    let written = columns_of(store, channel.target, x, count);
    set_row(store, written, y, line);
}

/// Looks up the finished samples of row `y`. What is in `line` is written over.
fn look_up_row<S: Sample>(
    palette: &Palette,
    store: &mut [AlignedGrid<S>],
    channel: FinishedChannel,
    y: usize,
    line: &mut [i32],
)
    requires lies { ChannelLies palette.now channel store.old }
    requires in_rows { y < channel.index.height }
    requires simple { IsSimpleRow palette.now (index_in channel (store_meanings S.to_int store.old)) y }
    requires some { 0 < length line.old }
    ensures fills { (depth : ℕ) → FillsOn S.width depth palette.now channel (y * channel.index.width)
        ((y + 1) * channel.index.width) (store_meanings S.to_int store.old) (store_meanings S.to_int store.new) }
    ensures keeps { KeepsOutside (channel.target ∷ []) store.old store.new }
    ensures len { length line.new ≡ length line.old }
{
    let width = channel.index.width;
    let mut x = 0;
    while x < width {
        let count = line.len().min(width - x);
        look_up_part(palette, store, channel, x, y, &mut line[..count]);
        x += count;
    }
}

/// Looks up all samples of a finished channel. What is in `line` is written over.
fn look_up_channel<S: Sample>(
    palette: &Palette,
    store: &mut [AlignedGrid<S>],
    channel: FinishedChannel,
    line: &mut [i32],
)
    requires lies { ChannelLies palette.now channel store.old }
    requires some { 0 < length line.old }
    requires simple { IsSimple palette.now (index_in channel (store_meanings S.to_int store.old)) }
    ensures finished { (depth : ℕ) → grid_of (store_meanings S.to_int store.new) channel.target
        ≡ finished_channel S.width depth palette.now (table_in channel (store_meanings S.to_int store.old))
        (index_in channel (store_meanings S.to_int store.old)) channel.number }
    ensures keeps { KeepsOutside (channel.target ∷ []) store.old store.new }
    ensures len { length line.new ≡ length line.old }
{
    for y in 0..channel.index.height {
        look_up_row(palette, store, channel, y, line);
    }
}

/// Finishes one sample, at the state's cell; the state is at the next one afterwards.
fn predict_cell<S: Sample>(
    palette: &Palette,
    store: &mut [AlignedGrid<S>],
    channel: FinishedChannel,
    x: usize,
    y: usize,
    bit_depth: u32,
    state: &mut PredictorState<S>,
)
    requires lies { ChannelLies palette.now channel store.old }
    requires column { x < channel.index.width }
    requires in_rows { y < channel.index.height }
    requires few_rows { channel.index.height ≤ 2 ^ 30 }
    requires deep { bit_depth ≤ 32 }
    requires stands { StandsBefore palette.now channel.index.width (y * channel.index.width + x) state.old }
    ensures sets { SetsNext S.width bit_depth palette.now channel S.to_int x y state.old store.old store.new }
    ensures stands { StandsNext S.width bit_depth palette.now channel S.to_int x y store.old state.old state.new }
    ensures room { HasSameRoom state.old state.new }
{
    let index = colour_index(palette, number_at(store, channel.index, x, y));
    let colour = colour(
        palette,
        store,
        channel.table,
        index,
        channel.number,
        bit_depth,
    );
    let sample = next_sample(palette, store, state, index, colour);
    region_set(store, channel.target, x, y, sample);
}

/// Finishes row `y`; the state must be at its first cell.
fn predict_row<S: Sample>(
    palette: &Palette,
    store: &mut [AlignedGrid<S>],
    channel: FinishedChannel,
    y: usize,
    bit_depth: u32,
    state: &mut PredictorState<S>,
)
    requires lies { ChannelLies palette.now channel store.old }
    requires in_rows { y < channel.index.height }
    requires few_rows { channel.index.height ≤ 2 ^ 30 }
    requires deep { bit_depth ≤ 32 }
    requires stands { StandsBefore palette.now channel.index.width (y * channel.index.width) state.old }
    ensures fills { FillsOnBy S.width bit_depth palette.now channel (y * channel.index.width)
        ((y + 1) * channel.index.width) (store_meanings S.to_int store.old) state.old
        (store_meanings S.to_int store.new) state.new }
    ensures stands { StandsBefore palette.now channel.index.width ((y + 1) * channel.index.width) state.new }
    ensures keeps { KeepsOutside (channel.target ∷ []) store.old store.new }
    ensures room { HasSameRoom state.old state.new }
{
    for x in 0..channel.index.width {
        predict_cell(palette, store, channel, x, y, bit_depth, state);
    }
}

/// Finishes a channel; the state must be at its first cell.
fn predict_channel<S: Sample>(
    palette: &Palette,
    store: &mut [AlignedGrid<S>],
    channel: FinishedChannel,
    bit_depth: u32,
    state: &mut PredictorState<S>,
)
    requires lies { ChannelLies palette.now channel store.old }
    requires few_rows { channel.index.height ≤ 2 ^ 30 }
    requires deep { bit_depth ≤ 32 }
    requires stands { StandsAt state.old (setting channel.index.width palette.now.wp_header []) [] }
    ensures finished { grid_of (store_meanings S.to_int store.new) channel.target
        ≡ finished_channel S.width bit_depth palette.now (table_in channel (store_meanings S.to_int store.old))
        (index_in channel (store_meanings S.to_int store.old)) channel.number }
    ensures keeps { KeepsOutside (channel.target ∷ []) store.old store.new }
    ensures room { HasSameRoom state.old state.new }
{
    for y in 0..channel.index.height {
        predict_row(palette, store, channel, y, bit_depth, state);
    }
}

impl FinishedChannel {
    /// The channel of number `i`, counted from the last.
    fn from_last(table: Region, index: Region, finished: &[Region], i: usize) -> FinishedChannel
        requires { i < length finished.now }
        ensures { result ≡ channel_at table index finished.now (length finished.now - 1 - i) }
    {
        let number = finished.len() - 1 - i;
        FinishedChannel {
            table,
            index,
            target: finished[number],
            number,
        }
    }
}

/// Looks up the samples of all finished channels, the first last, since it may be where the indices are.
fn look_up_all<S: Sample>(
    palette: &Palette,
    store: &mut [AlignedGrid<S>],
    table: Region,
    index: Region,
    finished: &[Region],
)
    requires lies { PaletteLies palette.now table index finished.now store.old }
    requires simple { IsSimple palette.now (grid_of (store_meanings S.to_int store.old) index) }
    ensures { (depth : ℕ) → ChannelsDone S.to_int S.width depth palette.now table index finished.now 0 store.old
        store.new }
{
    let mut line = [0; LINE];
    for i in 0..finished.len() {
        let channel = FinishedChannel::from_last(table, index, finished, i);
        look_up_channel(palette, store, channel, &mut line);
    }
}

/// Finishes all channels, the first last, since it may be where the indices are.
fn predict_all<S: Sample>(
    palette: &Palette,
    store: &mut [AlignedGrid<S>],
    table: Region,
    index: Region,
    finished: &[Region],
    bit_depth: u32,
    state: &mut PredictorState<S>,
)
    requires lies { PaletteLies palette.now table index finished.now store.old }
    requires some { 0 < index.width }
    requires narrow { index.width ≤ 2 ^ 30 }
    requires few_rows { index.height ≤ 2 ^ 30 }
    requires deep { bit_depth ≤ 32 }
    requires roomy { index.width ≤ room_of state.old }
    requires weights { weights_of state.old ≡ palette.now.wp_header }
    ensures done { ChannelsDone S.to_int S.width bit_depth palette.now table index finished.now 0 store.old store.new }
    ensures room { HasSameRoom state.old state.new }
{
    for i in 0..finished.len() {
        let channel = FinishedChannel::from_last(table, index, finished, i);
        state.restart(index.width as u32);
        predict_channel(palette, store, channel, bit_depth, state);
    }
}

/// Turns the indices of a palette into the samples of the channels that it stands for (ISO/IEC 18181-1, Modular:
/// inverse palette).
///
/// `table`, `index` and `finished` are regions of the store: the table of colours, the channel of indices, and
/// the channels, of which the first may be the index channel's own region. `bit_depth` is that of the picture, at
/// most 32. The state's memory is used for predictions: it has the palette's weights, and room for the width of
/// the channels.
///
/// No memory is taken, and no cell outside `finished` changes.
pub fn inverse_palette<S: Sample>(
    palette: &Palette,
    store: &mut [AlignedGrid<S>],
    table: Region,
    index: Region,
    finished: &[Region],
    bit_depth: u32,
    state: &mut PredictorState<S>,
)
    requires lies { PaletteLies palette.now table index finished.now store.old }
    requires narrow { index.width ≤ 2 ^ 30 }
    requires few_rows { index.height ≤ 2 ^ 30 }
    requires deep { bit_depth ≤ 32 }
    requires roomy { index.width ≤ room_of state.old }
    requires weights { weights_of state.old ≡ palette.now.wp_header }
    ensures finished { IsPaletteOf S.width bit_depth palette.now (grid_of (store_meanings S.to_int store.old) table)
        (grid_of (store_meanings S.to_int store.old) index)
        (map (grid_of (store_meanings S.to_int store.new)) finished.now) }
    ensures keeps { KeepsOutside finished.now store.old store.new }
    ensures room { HasSameRoom state.old state.new }
{
    if is_simple(palette, store, index) {
        look_up_all(palette, store, table, index, finished);
        return;
    }
    predict_all(palette, store, table, index, finished, bit_depth, state);
}

/// The memory that `inverse_palette` needs for channels of this width, at most 2^30.
///
/// The weights that the palette keeps are those of a header that was read.
///
/// # Errors
///
/// `Buffer` if it is out of memory, and no other.
pub fn palette_scratch<S>(palette: &Palette, alloc: Global, width: u32) -> Result<PredictorState<S>>
    requires narrow { width ≤ 2 ^ 30 }
    requires weights { ForSome palette.now.wp_header IsHeader }
    ensures room { IfOk result (λ s. room_of s ≡ width) }
    ensures weights { IfOk result (λ s. weights_of s ≡ palette.now.wp_header) }
    ensures err { IfErr result (λ e. kind_of e ≡ NoMemory) }
{
    PredictorState::with_room(alloc, width, 0, palette.wp_header.as_ref())
}

/// A table and an index channel have one list of finished channels, and no other.
pub fn palettes_have_one_image()
    ensures { PaletteHasOneImage }
{}
