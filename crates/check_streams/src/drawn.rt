//! Drawn tokens, written by the writers of entropy codes and read back by the entropy decoder.

ghost use Rattle.std.specs.Prelude.{◌<◌, IsTrue};
ghost use Rattle.std.specs.List.{All};

use check_rows::number;
use jxl_coding::clusters::count_of;
use jxl_coding::decoder::EntropyDecoder;
use jxl_coding_build::streams::{write_all, writer_for};
use jxlm_bit_writer::token::Token;
use jxlm_bit_writer::writer::BitWriter;
use jxlm_bits::bits::Bitstream;
use jxlm_bits::decoder::Decoder;
use std::alloc::Global;

/// What a row asks for.
#[derive(Clone, Copy)]
struct Asked<'t> {
    shape: &'t str,
    seed: u32,
    contexts: u32,
    clusters: u32,
    count: u32,
}

/// A row's words: `SHAPE SEED CONTEXTS CLUSTERS COUNT`.
fn asked_of(text: &str) -> Option<Asked<'_>> {
    let (shape, rest) = text.split_once(' ')?;
    let (seed, rest) = rest.split_once(' ')?;
    let (contexts, rest) = rest.split_once(' ')?;
    let (clusters, count) = rest.split_once(' ')?;
    asked_by(shape, [seed, contexts, clusters, count])
}

/// The same, with each number read.
fn asked_by<'t>(shape: &'t str, words: [&str; 4]) -> Option<Asked<'t>> {
    Some(Asked {
        shape,
        seed: number(words[0])?,
        contexts: number(words[1])?,
        clusters: number(words[2])?,
        count: number(words[3])?,
    })
}

/// Draws a number below 2^31: the upper bits of the next state of a linear congruential generator.
fn draw(state: &mut u64) -> u32 {
    *state = state
        .wrapping_mul(6364136223846793005)
        .wrapping_add(1442695040888963407);
    (*state / 8589934592) as u32
}

/// Draws a token of a shape.
fn token_of(shape: &str, state: &mut u64) -> Option<u32> {
    let drawn = draw(state);
    match shape {
        "one" => Some(5),
        "two" => Some(drawn % 2 * 9),
        "flat" => Some(drawn % 16),
        "skewed" => Some(if drawn % 4096 == 0 { 3 } else { 0 }),
        "steep" => Some(drawn.leading_zeros()),
        "wide" => Some(drawn >> (draw(state) % 31)),
        "greatest" => Some(4294967295 - drawn % 3),
        _ => None,
    }
}

/// Draws tokens: the cluster of each, and then its value.
fn tokens_of(alloc: Global, asked: &Asked<'_>) -> Option<Vec<Token>> {
    let mut state = u64::from(asked.seed);
    let mut tokens = Vec::new(alloc);
    for _ in 0..asked.count {
        let cluster = u8::try_from(draw(&mut state).checked_rem(asked.clusters)?).ok()?;
        let value = token_of(asked.shape, &mut state)?;
        tokens.push(Token { cluster, value }).ok()?;
    }
    Some(tokens)
}

/// The clusters of contexts, by turns.
fn clusters_of(alloc: Global, asked: &Asked<'_>) -> Option<Vec<u8>> {
    let mut clusters = Vec::new(alloc);
    for context in 0..asked.contexts {
        let cluster = u8::try_from(context.checked_rem(asked.clusters)?).ok()?;
        clusters.push(cluster).ok()?;
    }
    Some(clusters)
}

/// Whether the clusters of tokens are below a number.
fn are_below(tokens: &[Token], many: u32) -> bool
    ensures { IsTrue result → All (λ t. t.cluster < many) tokens.now }
{
    tokens.iter().all(|token| u32::from(token.cluster) < many)
}

/// A decoder and a stream of these tokens, as bytes.
fn written(alloc: Global, clusters: Vec<u8>, tokens: &[Token]) -> Option<Vec<u8>> {
    let many = count_of(&clusters).ok()?;
    if clusters.len() >= 1 << 31 || tokens.len() >= 1 << 31 || !are_below(tokens, many) {
        return None;
    }
    let writer = writer_for(alloc, clusters, many, tokens).ok()?;
    let mut bits = BitWriter::new(alloc);
    write_all(alloc, &mut bits, &writer, tokens).ok()?;
    bits.into_bytes().ok()
}

/// Reads the next token of a cluster.
fn next_of(decoder: &mut EntropyDecoder, bits: &mut Bitstream<'_>, cluster: u8) -> Option<u32> {
    let cluster = *decoder.cluster_map().iter().find(|it| **it == cluster)?;
    let token = decoder.read_varint_with_multiplier_clustered(bits, cluster, 0);
    token.ok()
}

/// The checksum of the tokens that the decoder reads in these clusters, if it accepts the end.
fn sum_of(alloc: Global, bytes: &[u8], contexts: u32, tokens: &[Token]) -> Option<u32> {
    let mut bits = Bitstream::new(bytes);
    let mut decoder = EntropyDecoder::parse(alloc, &mut bits, contexts).ok()?;
    decoder.begin(&mut bits).ok()?;
    let mut sum: u32 = 0;
    for token in tokens {
        let value = next_of(&mut decoder, &mut bits, token.cluster)?;
        sum = sum.wrapping_mul(31).wrapping_add(value);
    }
    decoder.finalize().ok()?;
    Some(sum)
}

/// A row asks with a shape, a seed, and the numbers of contexts, clusters and tokens. Tokens are drawn, written and read
/// back. It gives the checksum of what is read: each token, times a power of 31, the last times 1, added up modulo 2^32.
pub fn seen(alloc: Global, asked: &str) -> Option<String> {
    let asked = asked_of(asked)?;
    let tokens = tokens_of(alloc, &asked)?;
    let clusters = clusters_of(alloc, &asked)?;
    let bytes = written(alloc, clusters, &tokens)?;
    let sum = sum_of(alloc, &bytes, asked.contexts, &tokens)?;
    format!(in alloc; "#{sum}").ok()
}
