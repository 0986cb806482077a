//! Several columns squeezed at a time, line by line (ISO/IEC 18181-1, Modular: squeeze).

ghost use Rattle.std.specs.Prelude.{◌≡◌, ℕ, ◌-ℤ◌, ◌<◌, length};
ghost use Rattle.std.specs.Int.{int_wrap};
ghost use Rattle.jxlm_lanes.specs.Squeeze.{average, difference, tendency, AreSame, AreSamples};
ghost use Rattle.jxlm_encode_transform.specs.Inner.Lines.{number_in};

use crate::lines::{average, known, residual};
use jxlm_base::sample::Sample;

/// Writes the averages of pairs: the first samples stand in one line, the second in another. All have one length.
pub(crate) fn average_lines<S: Sample>(first: &[S], second: &[S], averages: &mut [S])
    requires second_len { length second.now ≡ length first.now }
    requires averages_len { length averages.old ≡ length first.now }
    ensures len { length averages.new ≡ length averages.old }
    ensures averages { (j : ℕ) → j < length first.now → number_in S.to_int averages.new j ≡ average S.width
        (number_in S.to_int first.now j) (number_in S.to_int second.now j) }
    ensures first_samples { AreSamples S.width (length first.now) (number_in S.to_int first.now) }
    ensures second_samples { AreSamples S.width (length first.now) (number_in S.to_int second.now) }
{
    for j in 0..averages.len() {
        averages[j] = average(known(first[j]), known(second[j]));
    }
}

/// Copies a line of single samples, which are their own averages. Both have one length.
pub(crate) fn single_line<S: Sample>(line: &[S], averages: &mut [S])
    requires { length averages.old ≡ length line.now }
    ensures len { length averages.new ≡ length averages.old }
    ensures same { AreSame (length line.now) (number_in S.to_int averages.new) (number_in S.to_int line.now) }
    ensures samples { AreSamples S.width (length line.now) (number_in S.to_int line.now) }
{
    for j in 0..averages.len() {
        averages[j] = known(line[j]);
    }
}

/// Writes the residuals of pairs, from the lines of the samples before them, of their averages, of the next averages,
/// and of their first and second samples. All have one length.
pub(crate) fn residual_lines<S: Sample>(
    before: &[S],
    averages: &[S],
    next: &[S],
    first: &[S],
    second: &[S],
    residuals: &mut [S],
)
    requires before_len { length before.now ≡ length residuals.old }
    requires averages_len { length averages.now ≡ length residuals.old }
    requires next_len { length next.now ≡ length residuals.old }
    requires first_len { length first.now ≡ length residuals.old }
    requires second_len { length second.now ≡ length residuals.old }
    ensures len { length residuals.new ≡ length residuals.old }
    ensures residuals { (j : ℕ) → j < length residuals.old → number_in S.to_int residuals.new j ≡ int_wrap S.width
        (difference S.width (number_in S.to_int first.now j) (number_in S.to_int second.now j) -ℤ tendency
        (number_in S.to_int before.now j) (number_in S.to_int averages.now j) (number_in S.to_int next.now j)) }
{
    for j in 0..residuals.len() {
        residuals[j] = residual(before[j], averages[j], next[j], first[j], second[j]);
    }
}
