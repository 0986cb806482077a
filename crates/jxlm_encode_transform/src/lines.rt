//! Lines of samples squeezed (ISO/IEC 18181-1, Modular: squeeze).

ghost use Rattle.std.specs.Prelude.{◌≡◌, ℕ, ◌+◌, ◌-ℤ◌, ◌*◌, ◌/◌, ◌<◌, ◌≤◌, ◌^◌, FitsSigned, length, unsigned_abs};
ghost use Rattle.std.specs.Int.{w32, int_wrap};
ghost use Rattle.jxlm_lanes.specs.Squeeze.{slope as the_slope, tendency as the_tendency, difference as the_difference};
ghost use Rattle.jxlm_lanes.specs.Squeeze.{average as the_average, averages as the_averages};
ghost use Rattle.jxlm_lanes.specs.Squeeze.{average_at as the_average_at, residual_at as the_residual_at, squeezed};
ghost use Rattle.jxlm_lanes.specs.Squeeze.{sample_before as the_sample_before, average_after as the_average_after};
ghost use Rattle.jxlm_lanes.specs.Squeeze.{AreSame, AreSamples};
ghost use Rattle.jxlm_encode_transform.specs.Inner.Lines.{number_in, AreAverages, AreResiduals};

use jxlm_base::sample::{Sample, Sealed};

/// The number, reduced to 32 bits.
fn reduced_to_i32(value: i64) -> i32
    ensures { result ≡ int_wrap w32 value }
{
    (value.rem_euclid(4294967296) as u32).cast_signed()
}

/// The number, reduced to the type's width.
fn reduced<S: Sample>(value: i64) -> S
    ensures { S.to_int result ≡ int_wrap S.width value }
{
    S::from_i32(reduced_to_i32(value))
}

/// The sample itself.
#[inline(always)]
pub(crate) fn known<S: Sample>(sample: S) -> S
    ensures same { result ≡ sample }
    ensures fits { FitsSigned S.width (S.to_int sample) }
{
    let _number = sample.to_i32();
    sample
}

/// The difference, reduced to the type's width.
pub(crate) fn difference<S: Sample>(a: S, b: S) -> S
    ensures { S.to_int result ≡ the_difference S.width (S.to_int a) (S.to_int b) }
{
    reduced(i64::from(a.to_i32()) - i64::from(b.to_i32()))
}

/// The average of a pair: the first less half the difference.
pub(crate) fn average<S: Sample>(a: S, b: S) -> S
    ensures { S.to_int result ≡ the_average S.width (S.to_int a) (S.to_int b) }
{
    let half = difference(a, b).to_i32() / 2;
    reduced(i64::from(a.to_i32()) - i64::from(half))
}

/// How many averages a line of `n` samples has: one for each pair, and one for a last single sample.
pub(crate) fn averages(n: usize) -> usize
    ensures { result ≡ the_averages n }
{
    n - n / 2
}

/// The slope of a fall by `p` and then by `q`.
fn slope(p: u64, q: u64) -> u64
    requires first { p < 2 ^ 32 }
    requires second { q < 2 ^ 32 }
    ensures value { result ≡ the_slope p q }
    ensures small { result < 2 ^ 33 }
{
    let whole = (4 * p + 3 * q + 6) / 12;
    let within_p = if 2 * p < whole - whole % 2 {
        2 * p + 1
    } else {
        whole
    };
    if 2 * q < within_p + within_p % 2 {
        2 * q
    } else {
        within_p
    }
}

/// The tendency of three samples.
fn tendency(a: i32, b: i32, c: i32) -> i64
    ensures value { result ≡ the_tendency a b c }
    ensures small { unsigned_abs result < 2 ^ 33 }
{
    let slope = slope(u64::from(a.abs_diff(b)), u64::from(b.abs_diff(c)));
    if b <= a && c <= b {
        slope as i64
    } else if a <= b && b <= c {
        -(slope as i64)
    } else {
        0
    }
}

/// The residual of the pair `a`, `b`: what its difference has beyond the tendency of the sample before it, its average
/// and the next average.
pub(crate) fn residual<S: Sample>(before: S, average: S, next: S, a: S, b: S) -> S
    ensures { S.to_int result ≡ int_wrap S.width (the_difference S.width (S.to_int a) (S.to_int b) -ℤ the_tendency
        (S.to_int before) (S.to_int average) (S.to_int next)) }
{
    let around = tendency(before.to_i32(), average.to_i32(), next.to_i32());
    let difference = difference(a, b);
    reduced(i64::from(difference.to_i32()) - around)
}

/// Average `k` of a line.
fn average_at<S: Sample>(line: &[S], k: usize) -> S
    requires { k < the_averages (length line.now) }
    ensures value { S.to_int result ≡ the_average_at S.width (length line.now) (number_in S.to_int line.now) k }
    ensures first_fits { FitsSigned S.width (number_in S.to_int line.now (2 * k)) }
    ensures second_fits { 2 * k + 1 < length line.now → FitsSigned S.width
        (number_in S.to_int line.now (2 * k + 1)) }
{
    if k < line.len() / 2 {
        average(known(line[2 * k]), known(line[2 * k + 1]))
    } else {
        known(line[2 * k])
    }
}

/// Writes the averages of a line.
fn put_averages<S: Sample>(line: &[S], averages: &mut [S])
    requires { length averages.old ≡ the_averages (length line.now) }
    ensures len { length averages.new ≡ length averages.old }
    ensures averages { AreAverages S.to_int S.width line.now averages.new (the_averages (length line.now)) }
    ensures samples { AreSamples S.width (length line.now) (number_in S.to_int line.now) }
{
    for k in 0..averages.len() {
        averages[k] = average_at(line, k);
    }
}

/// Average `k` of a line with these averages.
fn known_average<S: Sample>(line: &[S], averages: &[S], k: usize) -> S
    requires pair { k < the_averages (length line.now) }
    requires len { length averages.now ≡ the_averages (length line.now) }
    requires averages { AreAverages S.to_int S.width line.now averages.now (the_averages (length line.now)) }
    ensures { S.to_int result ≡ the_average_at S.width (length line.now) (number_in S.to_int line.now) k }
{
    averages[k]
}

/// The sample before pair `k` of a line with these averages, and the pair's average where there is none.
fn sample_before<S: Sample>(line: &[S], averages: &[S], k: usize) -> S
    requires pair { k < length line.now / 2 }
    requires len { length averages.now ≡ the_averages (length line.now) }
    requires averages { AreAverages S.to_int S.width line.now averages.now (the_averages (length line.now)) }
    ensures { S.to_int result ≡ the_sample_before S.width (length line.now) (number_in S.to_int line.now) k }
{
    if k > 0 {
        line[2 * k - 1]
    } else {
        known_average(line, averages, k)
    }
}

/// The average after that of pair `k` of a line with these averages, and the pair's own where there is none.
fn average_after<S: Sample>(line: &[S], averages: &[S], k: usize) -> S
    requires pair { k < length line.now / 2 }
    requires len { length averages.now ≡ the_averages (length line.now) }
    requires averages { AreAverages S.to_int S.width line.now averages.now (the_averages (length line.now)) }
    ensures { S.to_int result ≡ the_average_after S.width (length line.now) (number_in S.to_int line.now) k }
{
    if k + 1 < averages.len() {
        known_average(line, averages, k + 1)
    } else {
        known_average(line, averages, k)
    }
}

/// Residual `k` of a line with these averages.
fn residual_at<S: Sample>(line: &[S], averages: &[S], k: usize) -> S
    requires pair { k < length line.now / 2 }
    requires len { length averages.now ≡ the_averages (length line.now) }
    requires averages { AreAverages S.to_int S.width line.now averages.now (the_averages (length line.now)) }
    ensures { S.to_int result ≡ the_residual_at S.width (length line.now) (number_in S.to_int line.now) k }
{
    let before = sample_before(line, averages, k);
    let own = known_average(line, averages, k);
    let next = average_after(line, averages, k);
    residual(before, own, next, line[2 * k], line[2 * k + 1])
}

/// Writes the residuals of a line with these averages.
fn put_residuals<S: Sample>(line: &[S], averages: &[S], residuals: &mut [S])
    requires residuals_len { length residuals.old ≡ length line.now / 2 }
    requires len { length averages.now ≡ the_averages (length line.now) }
    requires averages { AreAverages S.to_int S.width line.now averages.now (the_averages (length line.now)) }
    ensures len { length residuals.new ≡ length residuals.old }
    ensures residuals { AreResiduals S.to_int S.width line.now residuals.new (length line.now / 2) }
{
    for k in 0..residuals.len() {
        residuals[k] = residual_at(line, averages, k);
    }
}

/// Writes a line squeezed into `coded`, which is as long: the averages come first, one for each pair and one for a last
/// single sample, and then the residuals. What was in `coded` does not count.
pub(crate) fn squeeze_line<S: Sample>(line: &[S], coded: &mut [S])
    requires { length coded.old ≡ length line.now }
    ensures len { length coded.new ≡ length coded.old }
    ensures squeezed { AreSame (length line.now) (number_in S.to_int coded.new) (squeezed S.width
        (length line.now) (number_in S.to_int line.now)) }
    ensures samples { AreSamples S.width (length line.now) (number_in S.to_int line.now) }
{
    let count = averages(line.len());
    let (averages, residuals) = coded.split_at_mut(count);
    put_averages(line, averages);
    put_residuals(line, averages, residuals);
}
