//! The clusters of contexts.

ghost use Rattle.std.specs.Prelude.{◌≡◌, slice_index, insert, remove, ◌+◌, ◌-◌, ◌<◌, ◌≤◌, ◌^◌, [], length, IfOk, IfErr, OnOk, IsSome, Ok, Err, Bool};
ghost use Rattle.jxlm_bits.specs.Bits.{bytes_of, position_of};
ghost use Rattle.jxlm_bits.specs.Decoding.{Gives};
ghost use Rattle.jxlm_bits.specs.declared.decoder.DecoderError.{DecoderError};
ghost use Rattle.jxl_coding_codes.specs.Fields.{number_at};
ghost use Rattle.jxl_coding_codes.specs.Reading.{steps, list_and_one};
ghost use Rattle.jxl_coding.specs.Clusters.{greatest as the_greatest, are_used as all_used, count_of as the_count, numbers as first_numbers, clusters_of_places as the_moved, cluster_step, in_list, stream_clusters_at, coded_clusters_at, plain_clusters_at};
ghost use Rattle.jxl_coding.specs.Inner.Seen.{codes_of, seen};
ghost use Rattle.jxl_coding.specs.Parse.{start_of};
ghost use Rattle.jxl_coding.specs.Inner.Coded.{listed};
ghost use Rattle.jxl_coding.specs.Inner.Marks.{AreMarked};
ghost use Rattle.jxl_coding_codes.specs.Reading.{StepGives};

use crate::state::State;
use crate::tables::Tables;
use crate::tokens::{begin, finalize, read_token};
use jxl_coding_codes::fields::number;
use jxl_coding_codes::refusal::Refusal;
use jxlm_bits::bits::Bitstream;
use jxlm_bits::decoder::DecoderError;
use std::alloc::Global;

/// The greatest cluster, and 0 if there is none.
fn greatest(clusters: &[u8]) -> u8
    ensures { result ≡ the_greatest (length clusters.now) clusters.now }
{
    let mut most = 0;
    for i in 0..clusters.len() {
        if most < clusters[i] {
            most = clusters[i];
        }
    }
    most
}

/// Marks the clusters that have a context.
fn marked(clusters: &[u8]) -> [bool; 256]
    ensures { AreMarked result clusters.now }
{
    let mut marks = [false; 256];
    for i in 0..clusters.len() {
        marks[clusters[i] as usize] = true;
    }
    marks
}

/// Whether each cluster below has a context.
fn are_used(clusters: &[u8], below: u8) -> bool
    ensures { result ≡ all_used below clusters.now }
{
    let marks = marked(clusters);
    let mut all = true;
    for cluster in 0..below {
        all = all && marks[cluster as usize];
    }
    all
}

/// How many clusters there are, each of which has a context.
pub fn count_of(clusters: &[u8]) -> Result<u32, DecoderError>
    ensures count { result ≡ the_count clusters.now }
    ensures few { IfOk result (λ n. n ≤ 256) }
{
    let most = greatest(clusters);
    if are_used(clusters, most) {
        Ok(u32::from(most) + 1)
    } else {
        Err(DecoderError::from(Refusal::ClusterUnused))
    }
}

/// The first 256 numbers.
fn numbers(alloc: Global) -> Result<Vec<u8>, DecoderError>
    ensures ok { IfOk result (λ v. v.items ≡ first_numbers 256) }
    ensures len { IfOk result (λ v. length v.items ≡ 256) }
    ensures err { IfErr result (λ e. e ≡ DecoderError.OutOfMemory) }
{
    let mut list = Vec::new(alloc);
    for i in 0..256u32 {
        list.push(i as u8)?;
    }
    Ok(list)
}

/// Moves the cluster at a place of a list to the front.
fn move_to_front(list: &mut Vec<u8>, place: usize) -> Result<u8, DecoderError>
    requires { place < length list.old.items }
    ensures cluster { IfOk result (λ c. c ≡ slice_index list.old.items place) }
    ensures list { OnOk result (list.new.items
        ≡ insert (remove list.old.items place) 0 (slice_index list.old.items place)) }
    ensures many { OnOk result (length list.new.items ≡ length list.old.items) }
    ensures err { IfErr result (λ e. e ≡ DecoderError.OutOfMemory) }
{
    let cluster = list[place];
    let _ = list.remove(place);
    list.insert(0, cluster)?;
    Ok(cluster)
}

/// Each number says at which place its cluster stood in a list of all 256, and moves it to the front.
fn moved(alloc: Global, places: &[u8]) -> Result<Vec<u8>, DecoderError>
    ensures ok { IfOk result (λ v. v.items ≡ the_moved places.now) }
    ensures err { IfErr result (λ e. e ≡ DecoderError.OutOfMemory) }
{
    let mut list = numbers(alloc)?;
    let mut clusters = Vec::new(alloc);
    for i in 0..places.len() {
        let cluster = move_to_front(&mut list, places[i] as usize)?;
        clusters.push(cluster)?;
    }
    Ok(clusters)
}

/// One cluster more, as a token of this decoder.
#[tactic(auto, unfolding(crate::specs::Clusters::cluster_step))]
fn push_cluster(
    tables: &Tables,
    state: &mut State,
    clusters: &mut Vec<u8>,
    bits: &mut Bitstream<'_>,
) -> Result<(), DecoderError>
    requires window { IsSome tables.now.lz77 → IsSome state.old.window }
    ensures gives { StepGives result (listed tables.now state.new clusters.new.items) (position_of bits.new)
        (cluster_step (listed tables.now state.old clusters.old.items) (bytes_of bits.old) (position_of bits.old)) }
    ensures kept { IsSome tables.now.lz77 → IsSome state.new.window }
    ensures bytes { bytes_of bits.new ≡ bytes_of bits.old }
{
    let first = first_of(&tables.clusters);
    let token = read_token(tables, state, bits, first, 0)?;
    if token < 256 {
        clusters.push(token as u8)?;
        Ok(())
    } else {
        Err(DecoderError::from(Refusal::ClusterTooLarge))
    }
}

/// The first of these, and 0 if there is none.
fn first_of(clusters: &[u8]) -> u8
    ensures { result ≡ slice_index clusters.now 0 }
{
    match clusters.first() {
        Some(cluster) => *cluster,
        None => 0,
    }
}

/// Tokens of this decoder as clusters of `n` contexts.
fn signalled_clusters(
    alloc: Global,
    tables: &Tables,
    state: &mut State,
    bits: &mut Bitstream<'_>,
    n: usize,
) -> Result<Vec<u8>, DecoderError>
    requires window { IsSome tables.now.lz77 → IsSome state.old.window }
    ensures gives { Gives (λ v. listed tables.now state.new v.items) result (position_of bits.new)
        (steps cluster_step n (listed tables.now state.old []) (bytes_of bits.old) (position_of bits.old)) }
    ensures bytes { bytes_of bits.new ≡ bytes_of bits.old }
{
    let mut clusters = Vec::new(alloc);
    for _ in 0..n {
        push_cluster(tables, state, &mut clusters, bits)?;
    }
    Ok(clusters)
}

/// The clusters of `n` contexts, as tokens of a stream.
#[tactic(auto, unfolding(crate::specs::Clusters::stream_clusters_at))]
fn stream_clusters(
    alloc: Global,
    tables: &Tables,
    state: &mut State,
    bits: &mut Bitstream<'_>,
    n: usize,
) -> Result<Vec<u8>, DecoderError>
    requires window { IsSome tables.now.lz77 → IsSome state.old.window }
    ensures gives { Gives (λ v. v.items) result (position_of bits.new)
        (stream_clusters_at (seen tables.now state.old) n (bytes_of bits.old) (position_of bits.old)) }
    ensures bytes { bytes_of bits.new ≡ bytes_of bits.old }
{
    begin(tables, state, bits)?;
    let clusters = signalled_clusters(alloc, tables, state, bits, n)?;
    finalize(tables.coder, state.ans_state)?;
    Ok(clusters)
}

/// The clusters of `n` contexts, as tokens of this decoder, in a stream of their own.
fn clusters_by(
    alloc: Global,
    tables: &Tables,
    bits: &mut Bitstream<'_>,
    n: usize,
) -> Result<Vec<u8>, DecoderError>
    ensures gives { Gives (λ v. v.items) result (position_of bits.new)
        (stream_clusters_at (start_of (codes_of tables.now)) n (bytes_of bits.old) (position_of bits.old)) }
    ensures bytes { bytes_of bits.new ≡ bytes_of bits.old }
{
    let mut state = State::start(alloc, tables.lz77.is_some())?;
    stream_clusters(alloc, tables, &mut state, bits, n)
}

/// The clusters, which may be signalled as places in a list.
fn in_order(alloc: Global, moves: bool, clusters: Vec<u8>) -> Result<Vec<u8>, DecoderError>
    ensures ok { IfOk result (λ v. v.items ≡ in_list moves clusters.items) }
    ensures err { IfErr result (λ e. e ≡ DecoderError.OutOfMemory) }
{
    if moves {
        moved(alloc, &clusters)
    } else {
        Ok(clusters)
    }
}

/// The clusters of `n` contexts, as tokens of this decoder.
#[tactic(auto, unfolding(crate::specs::Clusters::coded_clusters_at))]
pub fn coded_clusters(
    alloc: Global,
    tables: &Tables,
    bits: &mut Bitstream<'_>,
    moves: bool,
    n: usize,
) -> Result<Vec<u8>, DecoderError>
    ensures gives { Gives (λ v. v.items) result (position_of bits.new)
        (coded_clusters_at (start_of (codes_of tables.now)) moves n (bytes_of bits.old) (position_of bits.old)) }
    ensures bytes { bytes_of bits.new ≡ bytes_of bits.old }
{
    let clusters = clusters_by(alloc, tables, bits, n)?;
    in_order(alloc, moves, clusters)
}

/// One cluster more, as a number of this width.
fn push_number(
    clusters: &mut Vec<u8>,
    width: u32,
    bits: &mut Bitstream<'_>,
) -> Result<(), DecoderError>
    requires { width ≤ 3 }
    ensures gives { StepGives result clusters.new.items (position_of bits.new)
        (list_and_one (λ all q. number_at all q width) clusters.old.items (bytes_of bits.old) (position_of bits.old)) }
    ensures bytes { bytes_of bits.new ≡ bytes_of bits.old }
{
    let cluster = number(bits, width)?;
    clusters.push(cluster as u8)?;
    Ok(())
}

/// The clusters of `n` contexts, as numbers of a width.
fn clusters_of_width(
    alloc: Global,
    bits: &mut Bitstream<'_>,
    width: u32,
    n: usize,
) -> Result<Vec<u8>, DecoderError>
    requires { width ≤ 3 }
    ensures gives { Gives (λ v. v.items) result (position_of bits.new)
        (steps (list_and_one (λ all q. number_at all q width)) n [] (bytes_of bits.old) (position_of bits.old)) }
    ensures bytes { bytes_of bits.new ≡ bytes_of bits.old }
{
    let mut clusters = Vec::new(alloc);
    for _ in 0..n {
        push_number(&mut clusters, width, bits)?;
    }
    Ok(clusters)
}

/// The clusters of `n` contexts, as numbers.
#[tactic(auto, unfolding(crate::specs::Clusters::plain_clusters_at))]
pub fn plain_clusters(
    alloc: Global,
    bits: &mut Bitstream<'_>,
    n: usize,
) -> Result<Vec<u8>, DecoderError>
    ensures gives { Gives (λ v. v.items) result (position_of bits.new)
        (plain_clusters_at n (bytes_of bits.old) (position_of bits.old)) }
    ensures bytes { bytes_of bits.new ≡ bytes_of bits.old }
{
    let width = number(bits, 2)?;
    clusters_of_width(alloc, bits, width, n)
}
