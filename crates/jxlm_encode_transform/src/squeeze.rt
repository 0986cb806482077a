//! Regions squeezed in place (ISO/IEC 18181-1, Modular: squeeze).

ghost use Rattle.std.specs.Prelude.{◌≡◌, ℕ, ℤ, ◌+◌, ◌*◌, ◌/◌, ◌<◌, ◌≤◌, [], ◌∷◌, FitsSigned};
ghost use Rattle.std.specs.Prelude.{if◌then◌else◌, length, max, nat_lt, slice_range};
ghost use Rattle.std.specs.List.{All};
ghost use Rattle.jxlm_base.specs.Grid.{IsFull};
ghost use Rattle.jxlm_base.specs.Outside.{KeepsOutside};
ghost use Rattle.jxlm_base.specs.Regions.{Lies};
ghost use Rattle.jxlm_lanes.specs.Squeeze.{averages as the_averages, sample_before, squeezed, AreSamples};
ghost use Rattle.jxlm_chain.specs.Undo.{UndoSqueeze, Undoes};
ghost use Rattle.jxlm_encode_transform.specs.Inner.Lines.{number_in};
ghost use Rattle.jxlm_encode_transform.specs.Inner.Squeezed.{AreLines, SqueezedColumns, SqueezedRows, SqueezesRow};
ghost use Rattle.jxlm_encode_transform.specs.Inner.Squeezed.{average_of, residual_of, number_of, strip_of as the_strip};

use crate::lines::{averages, squeeze_line};
use crate::strips::{average_lines, residual_lines, single_line};
use jxlm_base::grid::{AlignedGrid, Region};
use jxlm_base::region::{region_row, region_set_row};
use jxlm_base::sample::Sample;

/// Squeezes row `y` of a region. What was in `coded`, which is as long, is written over.
fn squeeze_row<S: Sample>(store: &mut [AlignedGrid<S>], region: Region, y: usize, coded: &mut [S])
    requires lies { Lies region store.old }
    requires in_rows { y < region.height }
    requires room { length coded.old ≡ region.width }
    ensures len { length coded.new ≡ length coded.old }
    ensures squeezed { SqueezesRow S.to_int S.width region y store.old store.new }
{
    squeeze_line(region_row(store, region, y), coded);
    region_set_row(store, region, y, coded);
}

/// Squeezes each row of a region. What was in `coded`, which is as long as a row, is written over.
fn squeeze_rows<S: Sample>(store: &mut [AlignedGrid<S>], region: Region, coded: &mut [S])
    requires lies { Lies region store.old }
    requires room { length coded.old ≡ region.width }
    ensures { SqueezedRows S.to_int S.width region region.height store.old store.new }
{
    for y in 0..region.height {
        squeeze_row(store, region, y, coded);
    }
}

/// Writes average `k` of each column of a strip into a line.
fn average_line<S: Sample>(store: &[AlignedGrid<S>], strip: Region, k: usize, line: &mut [S])
    requires lies { Lies strip store.now }
    requires pair { k < the_averages strip.height }
    requires room { length line.old ≡ strip.width }
    ensures len { length line.new ≡ length line.old }
    ensures averages { (x : ℕ) → x < strip.width → number_in S.to_int line.new x ≡ average_of S.to_int S.width strip
        store.now x k }
    ensures first_samples { (x : ℕ) → x < strip.width → FitsSigned S.width
        (number_of S.to_int strip store.now x (2 * k)) }
    ensures second_samples { (x : ℕ) → x < strip.width → 2 * k + 1 < strip.height → FitsSigned S.width
        (number_of S.to_int strip store.now x (2 * k + 1)) }
{
    let pairs = strip.height / 2;
    if k < pairs {
        let first = region_row(store, strip, 2 * k);
        let second = region_row(store, strip, 2 * k + 1);
        average_lines(first, second, line);
    } else {
        let single = region_row(store, strip, 2 * k);
        single_line(single, line);
    }
}

/// Writes the averages of each column of a strip, line by line.
#[tactic(auto, using(crate::proofs::StripSteps::line_within))]
fn put_averages<S: Sample>(store: &[AlignedGrid<S>], strip: Region, averages: &mut [S])
    requires lies { Lies strip store.now }
    requires room { length averages.old ≡ the_averages strip.height * strip.width }
    ensures len { length averages.new ≡ length averages.old }
    ensures averages { AreLines S.to_int strip.width averages.new (average_of S.to_int S.width strip store.now)
        (the_averages strip.height) }
    ensures samples { (x : ℕ) → x < strip.width → AreSamples S.width strip.height
        (number_of S.to_int strip store.now x) }
{
    let columns = strip.width;
    for k in 0..strip.height - strip.height / 2 {
        let start = k * columns;
        let line = &mut averages[start..start + columns];
        average_line(store, strip, k, line);
    }
}

/// The samples before pair `k` of each column of a strip with these averages, and the pairs' averages where there are
/// none.
fn line_before<'a, S: Sample>(
    store: &'a [AlignedGrid<S>],
    strip: Region,
    averages: &'a [S],
    k: usize,
) -> &'a [S]
    requires lies { Lies strip store.now }
    requires pair { k < strip.height / 2 }
    requires room { length averages.now ≡ the_averages strip.height * strip.width }
    requires averages { AreLines S.to_int strip.width averages.now (average_of S.to_int S.width strip store.now)
        (the_averages strip.height) }
    ensures len { length result.now ≡ strip.width }
    ensures before { (x : ℕ) → x < strip.width → number_in S.to_int result.now x ≡ sample_before S.width strip.height
        (number_of S.to_int strip store.now x) k }
{
    if k > 0 {
        region_row(store, strip, 2 * k - 1)
    } else {
        line_at(averages, strip.width, 0)
    }
}

/// Where the average after that of pair `k` is, of a column of `height` samples; the pair's own where there is none.
fn place_after(height: usize, k: usize) -> usize
    requires { k < height / 2 }
    ensures within { result < the_averages height }
    ensures value { (average : ℕ → ℤ) → average result ≡ if◌then◌else◌ (nat_lt (k + 1) (the_averages height))
        (average (k + 1)) (average k) }
{
    if k + 1 < height - height / 2 {
        k + 1
    } else {
        k
    }
}

/// Line `y` of lines of this number of columns.
#[tactic(auto, using(crate::proofs::StripSteps::line_within))]
fn line_at<S>(lines: &[S], columns: usize, y: usize) -> &[S]
    requires { y * columns + columns ≤ length lines.now }
    ensures len { length result.now ≡ columns }
    ensures value { result.now ≡ slice_range lines.now (y * columns) (y * columns + columns) }
{
    let start = y * columns;
    &lines[start..start + columns]
}

/// Writes residual `k` of each column of a strip with these averages into a line.
fn residual_line<S: Sample>(
    store: &[AlignedGrid<S>],
    strip: Region,
    averages: &[S],
    k: usize,
    line: &mut [S],
)
    requires lies { Lies strip store.now }
    requires pair { k < strip.height / 2 }
    requires len { length averages.now ≡ the_averages strip.height * strip.width }
    requires averages { AreLines S.to_int strip.width averages.now (average_of S.to_int S.width strip store.now)
        (the_averages strip.height) }
    requires room { length line.old ≡ strip.width }
    ensures len { length line.new ≡ length line.old }
    ensures residuals { (x : ℕ) → x < strip.width → number_in S.to_int line.new x ≡ residual_of S.to_int S.width strip
        store.now x k }
{
    let before = line_before(store, strip, averages, k);
    let own = line_at(averages, strip.width, k);
    let next = line_at(averages, strip.width, place_after(strip.height, k));
    let first = region_row(store, strip, 2 * k);
    let second = region_row(store, strip, 2 * k + 1);
    residual_lines(before, own, next, first, second, line);
}

/// Writes the residuals of each column of a strip with these averages, line by line.
#[tactic(auto, using(crate::proofs::StripSteps::line_within))]
fn put_residuals<S: Sample>(
    store: &[AlignedGrid<S>],
    strip: Region,
    averages: &[S],
    residuals: &mut [S],
)
    requires lies { Lies strip store.now }
    requires len { length averages.now ≡ the_averages strip.height * strip.width }
    requires averages { AreLines S.to_int strip.width averages.now (average_of S.to_int S.width strip store.now)
        (the_averages strip.height) }
    requires room { length residuals.old ≡ strip.height / 2 * strip.width }
    ensures len { length residuals.new ≡ length residuals.old }
    ensures residuals { AreLines S.to_int strip.width residuals.new (residual_of S.to_int S.width strip store.now)
        (strip.height / 2) }
{
    let columns = strip.width;
    for k in 0..strip.height / 2 {
        let start = k * columns;
        let line = &mut residuals[start..start + columns];
        residual_line(store, strip, averages, k, line);
    }
}

/// Writes the columns of a strip squeezed into `coded`, line by line.
fn put_squeezed<S: Sample>(store: &[AlignedGrid<S>], strip: Region, coded: &mut [S])
    requires lies { Lies strip store.now }
    requires room { length coded.old ≡ strip.height * strip.width }
    ensures len { length coded.new ≡ length coded.old }
    ensures squeezed { AreLines S.to_int strip.width coded.new (λ x y. squeezed S.width strip.height
        (number_of S.to_int strip store.now x) y) strip.height }
    ensures samples { (x : ℕ) → x < strip.width → AreSamples S.width strip.height
        (number_of S.to_int strip store.now x) }
{
    let lines = averages(strip.height);
    let count = lines * strip.width;
    let (averages, residuals) = coded.split_at_mut(count);
    put_averages(store, strip, averages);
    put_residuals(store, strip, averages, residuals);
}

/// Writes lines over those of a strip.
fn write_lines<S: Sample>(store: &mut [AlignedGrid<S>], strip: Region, lines: &[S])
    requires lies { Lies strip store.old }
    requires room { length lines.now ≡ strip.height * strip.width }
    ensures lines { AreLines S.to_int strip.width lines.now (number_of S.to_int strip store.new) strip.height }
    ensures keeps { KeepsOutside (strip ∷ []) store.old store.new }
{
    for y in 0..strip.height {
        region_set_row(store, strip, y, line_at(lines, strip.width, y));
    }
}

/// Squeezes each column of a strip. What was in `coded`, which has as many samples, is written over.
fn squeeze_strip<S: Sample>(store: &mut [AlignedGrid<S>], strip: Region, coded: &mut [S])
    requires lies { Lies strip store.old }
    requires room { length coded.old ≡ strip.height * strip.width }
    ensures { SqueezedColumns S.to_int S.width strip strip.width store.old store.new }
{
    put_squeezed(store, strip, coded);
    write_lines(store, strip, coded);
}

/// The strip of a region of this number of columns from column `x` on.
fn strip_of<S: Sample>(store: &[AlignedGrid<S>], region: Region, x: usize, columns: usize) -> Region
    requires lies { Lies region store.now }
    requires within { x + columns ≤ region.width }
    ensures { result ≡ the_strip region x columns }
{
    let grid = &store[region.buffer];
    prove!(region.x <= grid.width());
    Region {
        x: region.x + x,
        width: columns,
        ..region
    }
}

/// How many columns are squeezed at a time, if there is room for them.
pub(crate) const COLUMNS: usize = 256;

/// How many columns of `height` samples are squeezed at a time, in a scratch of `room` samples.
fn columns_for(room: usize, height: usize) -> usize
    requires some_rows { 0 < height }
    requires column { height ≤ room }
    ensures some { 0 < result }
    ensures fits { height * result ≤ room }
{
    (room / height).min(COLUMNS)
}

/// Squeezes each column of a region that has rows, with `scratch`, which has room for a column.
fn squeeze_columns<S: Sample>(store: &mut [AlignedGrid<S>], region: Region, scratch: &mut [S])
    requires lies { Lies region store.old }
    requires some_rows { 0 < region.height }
    requires room { region.height ≤ length scratch.old }
    ensures { SqueezedColumns S.to_int S.width region region.width store.old store.new }
{
    let most = columns_for(scratch.len(), region.height);
    let mut x = 0;
    while x < region.width {
        let columns = most.min(region.width - x);
        let strip = strip_of(store, region, x, columns);
        let count = region.height * columns;
        let coded = &mut scratch[..count];
        squeeze_strip(store, strip, coded);
        x += columns;
    }
}

/// Squeezes the rows, or the columns, of a region that has rows, with `scratch`, which has room for a row and for a
/// column. No other cell changes.
pub(crate) fn squeeze<S: Sample>(
    horizontal: bool,
    store: &mut [AlignedGrid<S>],
    region: Region,
    scratch: &mut [S],
)
    requires lies { Lies region store.old }
    requires full { All IsFull store.old }
    requires some_rows { 0 < region.height }
    requires room { max region.width region.height ≤ length scratch.old }
    ensures undone { (depth : ℕ) → Undoes S.to_int S.width depth (UndoSqueeze horizontal region) store.new store.old }
    ensures keeps { KeepsOutside (region ∷ []) store.old store.new }
{
    if horizontal {
        squeeze_rows(store, region, &mut scratch[..region.width]);
    } else {
        squeeze_columns(store, region, scratch);
    }
}
