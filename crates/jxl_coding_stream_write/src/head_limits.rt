//! Whether a head can signal the codes of a decoder.

ghost use Rattle.std.specs.Prelude.{◌≡◌, ◌<◌, ◌≤◌, ◌↔◌, IsTrue, length};
ghost use Rattle.std.specs.List.{All};
ghost use Rattle.jxl_coding_codes.specs.Distributions.{one_symbol};
ghost use Rattle.jxl_coding_stream_write.specs.Heads.{FitsConfig, IsHead, FitsCluster, FitsCounts};

use crate::cluster::ClusterWriter;
use crate::stream::StreamWriter;
use jxl_coding::clusters::count_of;
use jxl_coding_codes::config::IntegerConfig;

/// Whether a head can signal a configuration for alphabets of 2^log symbols.
fn fits_config(config: &IntegerConfig, log: u32) -> bool
    ensures { IsTrue result → FitsConfig log config.now }
{
    config.split_exponent < log
        || config.split_exponent == log && config.msb_in_token == 0 && config.lsb_in_token == 0
}

/// Whether these are the counts of an only symbol, which is their last.
fn is_one_symbol(counts: &[u32], symbol: u32) -> bool
    ensures { IsTrue result → counts.now ≡ one_symbol symbol }
{
    let last = symbol as usize;
    if counts.len() != last + 1 {
        return false;
    }
    if counts[last] != 4096 {
        return false;
    }
    for i in 0..last {
        if counts[i] != 0 {
            return false;
        }
    }
    true
}

/// Whether no symbol has all 4096 slots.
fn are_small(counts: &[u32]) -> bool
    ensures { IsTrue result → All (λ c. c < 4096) counts.now }
{
    counts.iter().all(|count| *count < 4096)
}

/// Whether a head can signal the distribution of a cluster.
fn fits_counts(only: Option<u32>, counts: &[u32]) -> bool
    ensures { IsTrue result → FitsCounts only counts.now }
{
    match only {
        Some(symbol) => symbol < 256 && is_one_symbol(counts, symbol),
        None => counts.len() >= 3 && are_small(counts),
    }
}

/// Whether a head can signal the code of a cluster.
fn fits_cluster(code: &ClusterWriter, log: u32) -> bool
    ensures { IsTrue result → FitsCluster log code.now }
{
    fits_config(&code.config, log) && fits_counts(code.only, &code.slots.counts)
}

/// Whether a head can signal the code of each cluster.
fn fit_clusters(codes: &[ClusterWriter], log: u32) -> bool
    ensures { IsTrue result → All (FitsCluster log) codes.now }
{
    for code in codes {
        if !fits_cluster(code, log) {
            return false;
        }
    }
    true
}

/// Whether a head can signal the codes of a decoder: its alphabets have 2^5 symbols or more, each cluster has a
/// context, and each configuration and distribution can be written.
pub fn is_head(writer: &StreamWriter) -> bool
    ensures { IsTrue result → IsHead writer.now }
{
    match count_of(&writer.clusters) {
        Ok(count) => {
            count as usize == writer.codes.len()
                && writer.log >= 5
                && fit_clusters(&writer.codes, writer.log)
        }
        Err(_) => false,
    }
}
