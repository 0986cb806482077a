//! Rows and lines unsqueezed: a row by itself, or several columns or turned rows side by side.
ghost use Rattle.std.specs.Prelude.{◌≡◌, ℕ, suc, ℤ, ◌+◌, ◌-◌, ◌*◌, ◌/◌, ◌^◌, ◌<◌, ◌≤◌, FitsSigned, length, slice_get, slice_range};
ghost use Rattle.std.specs.Int.{Width, w16, w32};
ghost use Rattle.jxlm_lanes.specs.Squeeze.{slope, tendency, averages, AreSamples};
ghost use Rattle.jxlm_lanes.specs.Pairs.{first_of, second_of, next_in, first_in, before_in, number_at, line_in, IsUnsqueezed, ArePairs};

use jxlm_lanes::{lanes, near_lanes};

/// A sample's type as squeezing needs it.
pub trait Pairs: Copy {
    // the number that a sample stands for, and the type's width
    ghost to_int: { Self → ℤ };

    ghost width: { Width };

    /// The samples of a pair, from the sample before it, its average, the next average and its residual.
    fn pair(before: Self, average: Self, next: Self, residual: Self) -> (Self, Self)
        ensures first { Self.to_int result.0 ≡ first_of Self.width (Self.to_int before) (Self.to_int average)
            (Self.to_int next) (Self.to_int residual) }
        ensures second { Self.to_int result.1 ≡ second_of Self.width (Self.to_int before) (Self.to_int average)
            (Self.to_int next) (Self.to_int residual) }
        ensures average_fits { FitsSigned Self.width (Self.to_int average) }
        ensures residual_fits { FitsSigned Self.width (Self.to_int residual) };

    /// The sample itself.
    fn single(self) -> Self
        ensures same { result ≡ self }
        ensures fits { FitsSigned Self.width (Self.to_int self) };
}

/// The slope of a fall by `p` and then by `q`, by sums that saturate: it is exact where the whole fall fits.
#[inline(always)]
fn narrow_slope(p: u16, q: u16) -> u16
    ensures { p + q < 2 ^ 16 → result ≡ slope p q }
{
    let next = q.saturating_add(1);
    let third = p.saturating_add(next - next / 4) / 3;
    let within_p = third.min(p.saturating_add(p).saturating_add(1));
    within_p.min(q.saturating_add(q))
}

/// The slope of a fall by `p` and then by `q`, by sums that saturate: it is exact where the whole fall fits.
#[inline(always)]
fn wide_slope(p: u32, q: u32) -> u32
    ensures { p + q < 2 ^ 32 → result ≡ slope p q }
{
    let next = q.saturating_add(1);
    let third = p.saturating_add(next - next / 4) / 3;
    let within_p = third.min(p.saturating_add(p).saturating_add(1));
    within_p.min(q.saturating_add(q))
}

/// The tendency of three samples of 16 bits.
#[inline(always)]
fn narrow_tendency(a: i16, b: i16, c: i16) -> i16
    ensures { result ≡ tendency a b c }
{
    let slope = narrow_slope(a.abs_diff(b), b.abs_diff(c));
    if b <= a && c <= b {
        slope as i16
    } else if a <= b && b <= c {
        -(slope as i16)
    } else {
        0
    }
}

/// The tendency of three samples of 32 bits.
#[inline(always)]
fn wide_tendency(a: i32, b: i32, c: i32) -> i32
    ensures { result ≡ tendency a b c }
{
    let slope = wide_slope(a.abs_diff(b), b.abs_diff(c));
    if b <= a && c <= b {
        slope as i32
    } else if a <= b && b <= c {
        -(slope as i32)
    } else {
        0
    }
}

impl Pairs for i16 {
    ghost to_int = { λ x. x };

    ghost width = { w16 };

    #[inline(always)]
    fn pair(before: i16, average: i16, next: i16, residual: i16) -> (i16, i16) {
        let difference = residual.wrapping_add(narrow_tendency(before, average, next));
        let first = average.wrapping_add(difference / 2);
        (first, first.wrapping_sub(difference))
    }

    #[inline(always)]
    fn single(self) -> i16 {
        self
    }
}

impl Pairs for i32 {
    ghost to_int = { λ x. x };

    ghost width = { w32 };

    #[inline(always)]
    fn pair(before: i32, average: i32, next: i32, residual: i32) -> (i32, i32) {
        let gap = residual.wrapping_add(wide_tendency(before, average, next));
        let first = average.wrapping_add(gap / 2);
        (first, first.wrapping_sub(gap))
    }

    #[inline(always)]
    fn single(self) -> i32 {
        self
    }
}

/// The average after that of pair `k` of a coded row, and the pair's own where there is none.
#[inline(always)]
fn next_average<S: Pairs>(coded: &[S], k: usize) -> S
    requires { k < length coded.now / 2 }
    ensures { S.to_int result ≡ next_in (length coded.now) (number_at S.to_int coded.now) k }
{
    if k + 1 < coded.len() - coded.len() / 2 {
        coded[k + 1]
    } else {
        coded[k]
    }
}

/// The samples of pair `k` of a coded row, from the sample before them.
#[inline(always)]
fn pair_at<S: Pairs>(coded: &[S], k: usize, before: S) -> (S, S)
    requires pair { k < length coded.now / 2 }
    requires stands_before { S.to_int before ≡ before_in S.width (length coded.now) (number_at S.to_int coded.now) k }
    ensures first { S.to_int result.0 ≡ first_in S.width (length coded.now) (number_at S.to_int coded.now) k }
    ensures second { S.to_int result.1 ≡ before_in S.width (length coded.now) (number_at S.to_int coded.now) (suc k) }
    ensures average_fits { FitsSigned S.width (number_at S.to_int coded.now k) }
    ensures residual_fits { FitsSigned S.width (number_at S.to_int coded.now (averages (length coded.now) + k)) }
{
    let residual = coded[coded.len() - coded.len() / 2 + k];
    S::pair(before, coded[k], next_average(coded, k), residual)
}

/// Writes into `row` the row that becomes `coded` when it is squeezed. Both have one length.
pub fn unsqueeze_row<S: Pairs>(coded: &[S], row: &mut [S])
    requires { length row.old ≡ length coded.now }
    ensures len { length row.new ≡ length row.old }
    ensures undone { IsUnsqueezed S.width (length coded.now) (number_at S.to_int coded.now)
        (number_at S.to_int row.new) }
    ensures samples { AreSamples S.width (length coded.now) (number_at S.to_int coded.now) }
{
    if coded.is_empty() {
        return;
    }
    let mut before = coded[0];
    for k in 0..coded.len() / 2 {
        let (first, second) = pair_at(coded, k, before);
        row[2 * k] = first;
        row[2 * k + 1] = second;
        before = second;
    }
    if coded.len() % 2 == 1 {
        let last = coded[coded.len() / 2].single();
        row[coded.len() - 1] = last;
    }
}

/// A sample's type whose pairs are undone in lines.
pub trait Lines: Pairs {
    /// Undoes one pair of rows of several columns: the samples before the pair are in `strip` from `at` on, and its own
    /// are written after them.
    fn unsqueeze_lines(
        averages: &[Self],
        next: &[Self],
        residuals: &[Self],
        strip: &mut [Self],
        at: usize,
    )
        requires next_len { length next.now ≡ length averages.now }
        requires residuals_len { length residuals.now ≡ length averages.now }
        requires room { at + 3 * length averages.now ≤ length strip.old }
        ensures len { length strip.new ≡ length strip.old }
        ensures kept { (i : ℕ) → i < at + length averages.now → number_at Self.to_int strip.new i
            ≡ number_at Self.to_int strip.old i }
        ensures first { (j : ℕ) → j < length averages.now → number_at Self.to_int strip.new (at + length averages.now
            + j) ≡ first_of Self.width (number_at Self.to_int strip.old (at + j)) (number_at Self.to_int averages.now j)
            (number_at Self.to_int next.now j) (number_at Self.to_int residuals.now j) }
        ensures second { (j : ℕ) → j < length averages.now → number_at Self.to_int strip.new (at + 2 * length
            averages.now + j) ≡ second_of Self.width (number_at Self.to_int strip.old (at + j)) (number_at Self.to_int
            averages.now j) (number_at Self.to_int next.now j) (number_at Self.to_int residuals.now j) }
        ensures averages_fit { (j : ℕ) → j < length averages.now → FitsSigned Self.width
            (number_at Self.to_int averages.now j) }
        ensures residuals_fit { (j : ℕ) → j < length averages.now → FitsSigned Self.width
            (number_at Self.to_int residuals.now j) };
}

/// Undoes one pair of rows of the columns from `from` on, one by one; those before are undone.
#[inline(always)]
fn unsqueeze_from<S: Pairs>(
    from: usize,
    averages: &[S],
    next: &[S],
    residuals: &[S],
    strip: &mut [S],
    at: usize,
)
    requires next_len { length next.now ≡ length averages.now }
    requires residuals_len { length residuals.now ≡ length averages.now }
    requires room { at + 3 * length averages.now ≤ length strip.old }
    requires undone { ArePairs S.to_int S.width averages.now next.now residuals.now (length averages.now) at
        strip.old from }
    ensures len { length strip.new ≡ length strip.old }
    ensures kept { (i : ℕ) → i < at + length averages.now → number_at S.to_int strip.new i
        ≡ number_at S.to_int strip.old i }
    ensures undone { ArePairs S.to_int S.width averages.now next.now residuals.now (length averages.now) at
        strip.new (length averages.now) }
{
    let columns = averages.len();
    for j in from..columns {
        let (first, second) = S::pair(strip[at + j], averages[j], next[j], residuals[j]);
        strip[at + columns + j] = first;
        strip[at + 2 * columns + j] = second;
    }
}

impl Lines for i16 {
    #[inline(never)]
    fn unsqueeze_lines(
        averages: &[i16],
        next: &[i16],
        residuals: &[i16],
        strip: &mut [i16],
        at: usize,
    ) {
        let from = lanes::unsqueeze_eights(averages, next, residuals, strip, at);
        unsqueeze_from(from, averages, next, residuals, strip, at);
    }
}

impl Lines for i32 {
    #[inline(never)]
    fn unsqueeze_lines(
        averages: &[i32],
        next: &[i32],
        residuals: &[i32],
        strip: &mut [i32],
        at: usize,
    ) {
        let from = near_lanes::unsqueeze_near(averages, next, residuals, strip, at);
        unsqueeze_from(from, averages, next, residuals, strip, at);
    }
}

/// Copies a line of single samples into `strip`, from `at` on.
#[inline(never)]
fn single_line<S: Pairs>(line: &[S], strip: &mut [S], at: usize)
    requires room { at + length line.now ≤ length strip.old }
    ensures len { length strip.new ≡ length strip.old }
    ensures kept { (i : ℕ) → i < at → number_at S.to_int strip.new i ≡ number_at S.to_int strip.old i }
    ensures copied { (j : ℕ) → j < length line.now → number_at S.to_int strip.new (at + j)
        ≡ number_at S.to_int line.now j }
    ensures fit { (j : ℕ) → j < length line.now → FitsSigned S.width (number_at S.to_int line.now j) }
{
    for j in 0..line.len() {
        let sample = line[j].single();
        strip[at + j] = sample;
    }
}

/// Where the average after that of pair `k` is, of `len` samples; that of the pair's own where there is none.
#[inline(always)]
fn place_of_next(len: usize, k: usize) -> usize
    requires { k < len / 2 }
    ensures within { result < averages len }
    ensures value { (code : ℕ → ℤ) → code result ≡ next_in len code k }
{
    if k + 1 < len - len / 2 { k + 1 } else { k }
}

/// Line `i` of `coded`: `columns` samples from `start` and `i` times `stride` on.
fn line_of<S>(coded: &[S], start: usize, stride: usize, columns: usize, i: usize) -> &[S]
    requires { start + i * stride + columns ≤ length coded.now }
    ensures len { length result.now ≡ columns }
    ensures value { result.now ≡ slice_range coded.now (start + i * stride) (start + i * stride + columns) }
{
    let begin = start + i * stride;
    &coded[begin..begin + columns]
}

/// Undoes pair `k` of `columns` columns, or of as many rows that are turned, of `len` samples each: line `i` of
/// `coded`, which begins at `start` and `i` times `stride`, has sample `i` of each. The lines of `strip` are the first
/// averages and the undone lines, of which those before the pair are there.
#[tactic(auto, using(crate::proofs::Strips::lines_within))]
fn strip_pair<S: Lines>(
    coded: &[S],
    start: usize,
    stride: usize,
    len: usize,
    columns: usize,
    k: usize,
    strip: &mut [S],
)
    requires inside { (i : ℕ) → i < len → start + i * stride + columns ≤ length coded.now }
    requires pair { k < len / 2 }
    requires room { (len + 1) * columns ≤ length strip.old }
    requires stands_before { (j : ℕ) → j < columns → number_at S.to_int strip.old (2 * k * columns + j)
        ≡ before_in S.width len (line_in S.to_int coded.now start stride j) k }
    ensures len { length strip.new ≡ length strip.old }
    ensures kept { (i : ℕ) → i < 2 * k * columns + columns → number_at S.to_int strip.new i
        ≡ number_at S.to_int strip.old i }
    ensures first { (j : ℕ) → j < columns → number_at S.to_int strip.new (2 * k * columns + columns + j)
        ≡ first_in S.width len (line_in S.to_int coded.now start stride j) k }
    ensures second { (j : ℕ) → j < columns → number_at S.to_int strip.new (2 * k * columns + 2 * columns + j)
        ≡ before_in S.width len (line_in S.to_int coded.now start stride j) (suc k) }
    ensures averages_fit { (j : ℕ) → j < columns → FitsSigned S.width (line_in S.to_int coded.now start stride j k) }
    ensures residuals_fit { (j : ℕ) → j < columns → FitsSigned S.width
        (line_in S.to_int coded.now start stride j (averages len + k)) }
{
    let averages = line_of(coded, start, stride, columns, k);
    let next = line_of(coded, start, stride, columns, place_of_next(len, k));
    let residuals = line_of(coded, start, stride, columns, len - len / 2 + k);
    S::unsqueeze_lines(averages, next, residuals, strip, 2 * k * columns);
}

/// Writes the undone lines into those of `strip`, the second line first.
pub fn unsqueeze_strip<S: Lines>(
    coded: &[S],
    start: usize,
    stride: usize,
    len: usize,
    columns: usize,
    strip: &mut [S],
)
    requires inside { (i : ℕ) → i < len → start + i * stride + columns ≤ length coded.now }
    requires some_lines { 0 < len }
    requires room { (len + 1) * columns ≤ length strip.old }
    ensures len { length strip.new ≡ length strip.old }
    ensures undone { (j : ℕ) → j < columns → IsUnsqueezed S.width len (line_in S.to_int coded.now start stride j)
        (λ i. number_at S.to_int strip.new (i * columns + columns + j)) }
    ensures samples { (j : ℕ) → j < columns → AreSamples S.width len (line_in S.to_int coded.now start stride j) }
{
    single_line(line_of(coded, start, stride, columns, 0), strip, 0);
    for k in 0..len / 2 {
        strip_pair(coded, start, stride, len, columns, k, strip);
    }
    if len % 2 == 1 {
        let last = line_of(coded, start, stride, columns, len / 2);
        single_line(last, strip, len * columns);
    }
}

/// Copies a row into `turned`, whose lines have `rows` samples: sample `i` of the row is sample `j` of line `i`.
#[inline(never)]
#[tactic(auto, using(crate::proofs::Turned::turned_within))]
pub fn turn_row<S: Copy>(row: &[S], turned: &mut [S], rows: usize, j: usize)
    requires among { j < rows }
    requires room { length row.now * rows ≤ length turned.old }
    ensures len { length turned.new ≡ length turned.old }
    ensures turned { (i : ℕ) → i < length row.now → slice_get turned.new (i * rows + j) ≡ slice_get row.now i }
    ensures kept { (i k : ℕ) → k < j → slice_get turned.new (i * rows + k) ≡ slice_get turned.old (i * rows + k) }
{
    for i in 0..row.len() {
        turned[i * rows + j] = row[i];
    }
}

/// Copies sample `j` of each line of `strip`, but for the first, into a row. The lines have `rows` samples.
#[inline(never)]
#[tactic(auto, using(crate::proofs::Turned::strip_within))]
pub fn turn_back<S: Copy>(strip: &[S], rows: usize, j: usize, row: &mut [S])
    requires among { j < rows }
    requires room { (length row.old + 1) * rows ≤ length strip.now }
    ensures len { length row.new ≡ length row.old }
    ensures turned { (i : ℕ) → i < length row.old → slice_get row.new i
        ≡ slice_get strip.now (i * rows + rows + j) }
{
    for i in 0..row.len() {
        row[i] = strip[i * rows + rows + j];
    }
}
