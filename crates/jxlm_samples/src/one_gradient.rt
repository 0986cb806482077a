//! Rows of a channel whose tree is one leaf that predicts by the clamped gradient, to which nothing is added.
//!
//! Tokens are read a stretch of the row at a time, and then the stretch is made of them and of the row above.

ghost use Rattle.std.specs.Prelude.{◌≡◌, ◌+◌, ◌<◌, ◌≤◌, map, length, Contains, false, if◌then◌else◌};
ghost use Rattle.jxlm_bits.specs.Bits.{bytes_of};
ghost use Rattle.jxlm_ma_tree.specs.declared.leaf.Leaf.{Leaf};
ghost use Rattle.jxlm_samples.specs.Coded.{sample_of};
ghost use Rattle.jxlm_samples.specs.Inner.Paths.{AreLeft, IsPlain, gradient_rule};
ghost use Rattle.jxlm_samples.specs.Inner.Rows.{MakesCells, ReadsRow, StretchGives};
ghost use Rattle.jxlm_samples.specs.declared.gradient.Leaves.TheVariants.{One};
ghost use Rattle.jxlm_samples.specs.RowNeighbours.{gradient_in};

use crate::above::{sample_above, sample_again};
use crate::rows::{RowError, STRETCH};
use crate::source::Source;
use jxlm_base::sample::{Sample, Sealed};
use jxlm_bits::decoder::Decoder;
use jxlm_tree::flat::Leaf;

/// The samples to the left of column `from`, and above that one.
#[inline(always)]
fn neighbours<S: Sample, const FIRST: bool>(above: &[S], row: &[S], from: usize) -> (S, S)
    requires inside { from < length row.now }
    requires above { length above.now ≡ (if FIRST then 0 else length row.now) }
    ensures { AreLeft S.to_int above.now row.now from result.0 result.1 }
{
    if from == 0 {
        let w = sample_above::<S, FIRST>(above, 0, S::from_i32(0));
        (w, w)
    } else {
        let w = row[from - 1];
        (w, sample_above::<S, FIRST>(above, from - 1, w))
    }
}

/// Writes the samples of the first `count` tokens into the row, from column `from` on, below the row above or into the
/// first one.
#[inline(always)]
fn gradient_samples<S: Sample, const FIRST: bool>(
    tokens: &[u32],
    count: usize,
    above: &[S],
    from: usize,
    row: &mut [S],
)
    requires tokens { count ≤ length tokens.now }
    requires column { from < length row.old }
    requires inside { from + count ≤ length row.old }
    requires above { length above.now ≡ (if FIRST then 0 else length row.old) }
    ensures { (l : Leaf) → IsPlain l → MakesCells (λ before token. sample_of S.width l
        (gradient_in (map S.to_int above.now) before (length before)) token)
        (map S.to_int row.old) (map S.to_int row.new) from tokens.now count }
{
    let (mut w, mut nw) = neighbours::<S, FIRST>(above, row, from);
    for k in 0..count {
        let x = from + k;
        let n = sample_above::<S, FIRST>(above, x, w);
        let value = S::unpack_signed_u32(tokens[k]).add(S::grad_clamped(n, w, nw));
        row[x] = value;
        w = value;
        nw = sample_again::<S, FIRST>(above, x, n, value);
    }
}

/// Reads as many cells of a row as there is room for tokens, from column `from` on.
#[inline(always)]
fn gradient_stretch<S: Sample, D: Decoder, const FIRST: bool>(
    source: &mut Source<'_, D>,
    leaf: Leaf,
    widest: u32,
    above: &[S],
    tokens: &mut [u32],
    from: usize,
    row: &mut [S],
) -> Result<(), RowError>
    requires plain { IsPlain leaf }
    requires cluster { Contains (D.meaning.cluster_map source.old.decoder) leaf.cluster }
    requires column { from < length row.old }
    requires inside { from + length tokens.old ≤ length row.old }
    requires above { length above.now ≡ (if FIRST then 0 else length row.old) }
    ensures { StretchGives D.meaning
        (λ bytes. gradient_rule D.meaning S.width false bytes widest (One leaf) (map S.to_int above.now)) from
        (length tokens.old) (map S.to_int row.old) (map S.to_int row.new) source.old source.new result }
{
    match source
        .decoder
        .read_varints_with_multiplier_clustered(&mut source.bits, leaf.cluster, widest, tokens)
    {
        Ok(()) => {
            gradient_samples::<S, FIRST>(tokens, tokens.len(), above, from, row);
            Ok(())
        }
        Err(ended) => {
            gradient_samples::<S, FIRST>(tokens, ended.read, above, from, row);
            Err(RowError {
                column: from + ended.read,
                error: ended.error,
            })
        }
    }
}

/// Reads a row below another, or the first one.
///
/// # Errors
///
/// That of the read of one cell; the cells before are in the row then.
#[inline(never)]
pub(crate) fn read_one_gradient<S: Sample, D: Decoder, const FIRST: bool>(
    source: &mut Source<'_, D>,
    leaf: Leaf,
    widest: u32,
    above: &[S],
    row: &mut [S],
) -> Result<(), RowError>
    requires plain { IsPlain leaf }
    requires cluster { Contains (D.meaning.cluster_map source.old.decoder) leaf.cluster }
    requires above { length above.now ≡ (if FIRST then 0 else length row.old) }
    ensures { ReadsRow D.meaning 0
        (gradient_rule D.meaning S.width false (bytes_of source.old.bits) widest (One leaf) (map S.to_int above.now))
        (map S.to_int row.new) result source.old source.new }
{
    let mut room = [0; STRETCH];
    let mut x = 0;
    while x < row.len() {
        let count = STRETCH.min(row.len() - x);
        let tokens = &mut room[..count];
        gradient_stretch::<S, D, FIRST>(source, leaf, widest, above, tokens, x, row)?;
        x += count;
    }
    Ok(())
}
