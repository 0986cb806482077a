//! Rows of a channel whose tree is one leaf that predicts by 0.
//!
//! No state of the predictors is needed for them, and no row above.

ghost use Rattle.std.specs.Prelude.{◌≡◌, ◌+◌, ◌≤◌, pos, true, map, length, Contains};
ghost use Rattle.jxlm_bits.specs.Bits.{bytes_of};
ghost use Rattle.jxlm_tree.specs.FlatTree.{HasMultiplier};
ghost use Rattle.jxlm_samples.specs.Coded.{sample_of};
ghost use Rattle.jxlm_samples.specs.Inner.Paths.{IsPlain, zero_rule};
ghost use Rattle.jxlm_samples.specs.Inner.Rows.{MakesCells, ReadsRow, StretchGives};

use crate::cell::sample_from;
use crate::rows::{RowError, STRETCH};
use crate::source::Source;
use jxlm_base::sample::{Sample, Sealed};
use jxlm_bits::decoder::Decoder;
use jxlm_tree::flat::Leaf;

/// The sample of a token over a prediction of 0: the token's number at a leaf that adds nothing more (`PLAIN`).
#[inline(always)]
fn sample_over_zero<S: Sample, const PLAIN: bool>(token: u32, leaf: Leaf) -> S
    requires multiplier { HasMultiplier leaf }
    requires plain { PLAIN ≡ true → IsPlain leaf }
    ensures { S.to_int result ≡ sample_of S.width leaf (pos 0) token }
{
    if PLAIN {
        S::unpack_signed_u32(token)
    } else {
        sample_from(token, leaf, 0)
    }
}

/// Writes the samples of the first `count` tokens over a prediction of 0 into the row, from column `from` on.
#[inline(always)]
fn zero_samples<S: Sample, const PLAIN: bool>(
    tokens: &[u32],
    count: usize,
    leaf: Leaf,
    from: usize,
    row: &mut [S],
)
    requires multiplier { HasMultiplier leaf }
    requires plain { PLAIN ≡ true → IsPlain leaf }
    requires tokens { count ≤ length tokens.now }
    requires inside { from + count ≤ length row.old }
    ensures { MakesCells (λ _ token. sample_of S.width leaf (pos 0) token) (map S.to_int row.old)
        (map S.to_int row.new) from tokens.now count }
{
    for k in 0..count {
        row[from + k] = sample_over_zero::<S, PLAIN>(tokens[k], leaf);
    }
}

/// Reads as many cells of a row as there is room for tokens, from column `from` on, where each is predicted by 0.
#[inline(always)]
fn zero_stretch<S: Sample, D: Decoder, const PLAIN: bool>(
    source: &mut Source<'_, D>,
    leaf: Leaf,
    widest: u32,
    tokens: &mut [u32],
    from: usize,
    row: &mut [S],
) -> Result<(), RowError>
    requires multiplier { HasMultiplier leaf }
    requires plain { PLAIN ≡ true → IsPlain leaf }
    requires cluster { Contains (D.meaning.cluster_map source.old.decoder) leaf.cluster }
    requires inside { from + length tokens.old ≤ length row.old }
    ensures { StretchGives D.meaning (λ bytes. zero_rule D.meaning S.width bytes widest leaf) from
        (length tokens.old) (map S.to_int row.old) (map S.to_int row.new) source.old source.new result }
{
    match source
        .decoder
        .read_varints_with_multiplier_clustered(&mut source.bits, leaf.cluster, widest, tokens)
    {
        Ok(()) => {
            zero_samples::<S, PLAIN>(tokens, tokens.len(), leaf, from, row);
            Ok(())
        }
        Err(ended) => {
            zero_samples::<S, PLAIN>(tokens, ended.read, leaf, from, row);
            Err(RowError {
                column: from + ended.read,
                error: ended.error,
            })
        }
    }
}

/// Reads the cells of a row where each is predicted by 0; with `PLAIN` the leaf adds nothing more.
#[inline(never)]
fn zero_cells<S: Sample, D: Decoder, const PLAIN: bool>(
    source: &mut Source<'_, D>,
    leaf: Leaf,
    widest: u32,
    row: &mut [S],
) -> Result<(), RowError>
    requires multiplier { HasMultiplier leaf }
    requires plain { PLAIN ≡ true → IsPlain leaf }
    requires cluster { Contains (D.meaning.cluster_map source.old.decoder) leaf.cluster }
    ensures { ReadsRow D.meaning 0 (zero_rule D.meaning S.width (bytes_of source.old.bits) widest leaf)
        (map S.to_int row.new) result source.old source.new }
{
    let mut room = [0; STRETCH];
    let mut x = 0;
    while x < row.len() {
        let count = STRETCH.min(row.len() - x);
        zero_stretch::<S, D, PLAIN>(source, leaf, widest, &mut room[..count], x, row)?;
        x += count;
    }
    Ok(())
}

/// Reads a row where each cell is predicted by 0.
///
/// # Errors
///
/// That of the read of one cell; the cells before are in the row then.
pub(crate) fn read_zeros<S: Sample, D: Decoder>(
    source: &mut Source<'_, D>,
    leaf: Leaf,
    widest: u32,
    row: &mut [S],
) -> Result<(), RowError>
    requires multiplier { HasMultiplier leaf }
    requires cluster { Contains (D.meaning.cluster_map source.old.decoder) leaf.cluster }
    ensures { ReadsRow D.meaning 0 (zero_rule D.meaning S.width (bytes_of source.old.bits) widest leaf)
        (map S.to_int row.new) result source.old source.new }
{
    if leaf.offset == 0 && leaf.multiplier == 1 {
        zero_cells::<S, D, true>(source, leaf, widest, row)
    } else {
        zero_cells::<S, D, false>(source, leaf, widest, row)
    }
}
