//! The code of a cluster, made for its tokens.

ghost use Rattle.std.specs.Prelude.{◌≡◌, ℕ, ◌+◌, ◌<◌, ◌≤◌, ◌^◌, ◌⊎◌, length, slice_index, sum, IfOk};
ghost use Rattle.std.specs.List.{All};
ghost use Rattle.jxl_coding_codes.specs.IntegerConfigs.{IsConfig};
ghost use Rattle.jxl_coding_codes.specs.Alias.{only_from};
ghost use Rattle.jxl_coding_codes.specs.Distributions.{one_symbol as the_one_symbol};
ghost use Rattle.jxl_coding_write.specs.HybridIntegers.{symbol_of, symbol_count};
ghost use Rattle.jxl_coding_stream_write.specs.Heads.{FitsCounts, FitsCluster};
ghost use Rattle.jxl_coding_build.specs.Histograms.{AllOccur, HasSymbol, HaveSymbols};

use crate::configs::all_fit;
use crate::normalise::{normalise, total_of};
use jxl_coding_codes::alias::only;
use jxl_coding_codes::config::IntegerConfig;
use jxl_coding_stream_write::cluster::ClusterWriter;
use jxl_coding_write::spelling::spell;
use jxlm_bit_writer::token::Token;
use std::alloc::{AllocError, Global};

/// The logarithm of the size of the alphabets.
const LOG: u32 = 8;

/// A number below 256 is its own symbol.
const ITSELF: IntegerConfig = IntegerConfig {
    split_exponent: 8,
    msb_in_token: 0,
    lsb_in_token: 0,
};

/// Adds counts of 0 up to a number of counts.
fn grow(counts: &mut Vec<u32>, many: usize) -> Result<(), AllocError>
    requires most { many ≤ 256 }
    requires few { length counts.old.items ≤ 256 }
    ensures few { IfOk result (λ _. length counts.new.items ≤ 256) }
    ensures many { IfOk result (λ _. many ≤ length counts.new.items) }
    ensures longer { IfOk result (λ _. length counts.old.items ≤ length counts.new.items) }
    ensures sum { IfOk result (λ _. sum counts.new.items ≡ sum counts.old.items) }
    ensures keeps { IfOk result (λ _. (s : ℕ) → slice_index counts.old.items s ≤ slice_index counts.new.items s) }
{
    let missing = many.saturating_sub(counts.len());
    for _ in 0..missing {
        counts.push(0)?;
    }
    Ok(())
}

/// Counts a symbol once more.
fn add_one(counts: &mut Vec<u32>, symbol: usize)
    requires inside { symbol < length counts.old.items }
    requires fits { sum counts.old.items + 1 < 2 ^ 32 }
    ensures many { length counts.new.items ≡ length counts.old.items }
    ensures sum { sum counts.new.items ≡ sum counts.old.items + 1 }
    ensures own { 0 < slice_index counts.new.items symbol }
    ensures keeps { (s : ℕ) → slice_index counts.old.items s ≤ slice_index counts.new.items s }
{
    counts[symbol] += 1;
}

/// Counts a token, if it is of the cluster.
#[inline(always)]
fn count_token(
    counts: &mut Vec<u32>,
    config: &IntegerConfig,
    cluster: u8,
    token: Token,
) -> Result<(), AllocError>
    requires config { IsConfig config.now }
    requires symbols { (symbol_count config.now ≤ 256) ⊎ HasSymbol config.now cluster token }
    requires few { length counts.old.items ≤ 256 }
    requires fits { sum counts.old.items + 1 < 2 ^ 32 }
    ensures few { IfOk result (λ _. length counts.new.items ≤ 256) }
    ensures longer { IfOk result (λ _. length counts.old.items ≤ length counts.new.items) }
    ensures sum { IfOk result (λ _. sum counts.new.items ≤ sum counts.old.items + 1) }
    ensures own { IfOk result (λ _. token.cluster ≡ cluster
        → 0 < slice_index counts.new.items (symbol_of config.now token.value)) }
    ensures keeps { IfOk result (λ _. (s : ℕ) → slice_index counts.old.items s ≤ slice_index counts.new.items s) }
{
    if token.cluster != cluster {
        return Ok(());
    }
    let spelling = spell(config, token.value);
    let symbol = spelling.symbol as usize;
    grow(counts, symbol + 1)?;
    add_one(counts, symbol);
    Ok(())
}

/// The histogram of the symbols of a cluster: at least three counts.
fn counts_of(
    alloc: Global,
    config: &IntegerConfig,
    cluster: u8,
    tokens: &[Token],
) -> Result<Vec<u32>, AllocError>
    requires config { IsConfig config.now }
    requires symbols { HaveSymbols config.now cluster tokens.now }
    requires fits { length tokens.now < 2 ^ 31 }
    ensures few { IfOk result (λ v. length v.items ≤ 256) }
    ensures some { IfOk result (λ v. 3 ≤ length v.items) }
    ensures fits { IfOk result (λ v. sum v.items < 2 ^ 31) }
    ensures occur { IfOk result (λ v. AllOccur config.now cluster tokens.now (length tokens.now) v.items) }
{
    let mut counts = Vec::new(alloc);
    grow(&mut counts, 3)?;
    for token in tokens {
        count_token(&mut counts, config, cluster, *token)?;
    }
    Ok(counts)
}

/// The distribution of an only symbol.
fn one_symbol(alloc: Global, symbol: u32) -> Result<Vec<u32>, AllocError>
    requires { symbol < 256 }
    ensures few { IfOk result (λ v. length v.items ≤ 256) }
    ensures whole { IfOk result (λ v. sum v.items ≡ 4096) }
    ensures occurs { IfOk result (λ v. 0 < slice_index v.items symbol) }
    ensures items { IfOk result (λ v. v.items ≡ the_one_symbol symbol) }
{
    let mut counts = vec![in alloc; 0; symbol as usize + 1]?;
    counts[symbol as usize] = 4096;
    Ok(counts)
}

/// A distribution for a histogram: a head can signal it, and each symbol of the histogram occurs.
fn distribution_of(alloc: Global, counts: &[u32]) -> Result<Vec<u32>, AllocError>
    requires few { length counts.now ≤ 256 }
    requires many { 3 ≤ length counts.now }
    requires some { 0 < sum counts.now }
    requires fits { sum counts.now < 2 ^ 32 }
    ensures few { IfOk result (λ v. length v.items ≤ 256) }
    ensures whole { IfOk result (λ v. sum v.items ≡ 4096) }
    ensures occur { IfOk result (λ v. (s : ℕ) → 0 < slice_index counts.now s → 0 < slice_index v.items s) }
    ensures head { IfOk result (λ v. FitsCounts (only_from 0 v.items) v.items) }
{
    let shares = normalise(alloc, counts)?;
    match only(&shares) {
        Some(symbol) => {
            let one = one_symbol(alloc, symbol)?;
            Ok(one)
        }
        None => Ok(shares),
    }
}

/// Counts the symbol 0 once if no symbol occurs.
fn add_if_none(counts: &mut Vec<u32>)
    requires some { 3 ≤ length counts.old.items }
    requires fits { sum counts.old.items < 2 ^ 31 }
    ensures many { length counts.new.items ≡ length counts.old.items }
    ensures fits { sum counts.new.items < 2 ^ 32 }
    ensures some { 0 < sum counts.new.items }
    ensures keeps { (s : ℕ) → slice_index counts.old.items s ≤ slice_index counts.new.items s }
{
    if total_of(counts) == 0 {
        add_one(counts, 0);
    }
}

/// Makes a code for the tokens of a cluster: the symbol of each occurs. If there is none, the symbol 0 occurs.
///
/// # Errors
///
/// Out of memory alone.
pub fn cluster_for(
    alloc: Global,
    config: IntegerConfig,
    cluster: u8,
    tokens: &[Token],
) -> Result<ClusterWriter, AllocError>
    requires config { IsConfig config }
    requires split { config.split_exponent < 8 }
    requires symbols { HaveSymbols config cluster tokens.now }
    requires fits { length tokens.now < 2 ^ 31 }
    ensures config { IfOk result (λ c. c.config ≡ config) }
    ensures log { IfOk result (λ c. c.slots.log ≡ 8) }
    ensures occur { IfOk result (λ c. AllOccur config cluster tokens.now (length tokens.now) c.slots.counts.items) }
    ensures head { IfOk result (λ c. FitsCluster 8 c) }
{
    let mut counts = counts_of(alloc, &config, cluster, tokens)?;
    add_if_none(&mut counts);
    let shares = distribution_of(alloc, &counts)?;
    let code = ClusterWriter::new(alloc, config, shares, LOG)?;
    Ok(code)
}

/// The histogram of the symbols of a cluster, each given by its number: at least three counts. Where a number is 256 or
/// more, no symbol is counted.
fn counts_in(alloc: Global, cluster: u8, symbols: &[Token]) -> Result<Vec<u32>, AllocError>
    requires { length symbols.now < 2 ^ 31 }
    ensures few { IfOk result (λ v. length v.items ≤ 256) }
    ensures some { IfOk result (λ v. 3 ≤ length v.items) }
    ensures fits { IfOk result (λ v. sum v.items < 2 ^ 31) }
{
    if all_fit(&ITSELF, cluster, symbols) {
        let counts = counts_of(alloc, &ITSELF, cluster, symbols)?;
        return Ok(counts);
    }
    let mut none = Vec::new(alloc);
    grow(&mut none, 3)?;
    Ok(none)
}

/// Makes a code of this configuration for the symbols of a cluster, each given by its number. If there is none, the symbol 0
/// occurs.
///
/// # Errors
///
/// Out of memory alone.
pub(crate) fn code_of_symbols(
    alloc: Global,
    config: IntegerConfig,
    cluster: u8,
    symbols: &[Token],
) -> Result<ClusterWriter, AllocError>
    requires config { IsConfig config }
    requires split { config.split_exponent < 8 }
    requires fits { length symbols.now < 2 ^ 31 }
    ensures log { IfOk result (λ c. c.slots.log ≡ 8) }
    ensures head { IfOk result (λ c. FitsCluster 8 c) }
{
    let mut counts = counts_in(alloc, cluster, symbols)?;
    add_if_none(&mut counts);
    let shares = distribution_of(alloc, &counts)?;
    let code = ClusterWriter::new(alloc, config, shares, LOG)?;
    Ok(code)
}
