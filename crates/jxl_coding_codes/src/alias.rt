//! The slots of a distribution, in buckets.

ghost use Rattle.std.specs.Prelude.{◌≡◌, ◌+◌, ◌-◌, ◌*◌, ◌/◌, ◌<◌, ◌≤◌, ◌^◌, length, IfOk, IfErr, OnOk, Option, slice_index};
ghost use Rattle.std.specs.List.{All};
ghost use Rattle.jxlm_bits.specs.declared.decoder.DecoderError.{DecoderError};
ghost use Rattle.jxl_coding_codes.specs.Alias.{only_from, only_buckets as the_only_buckets, sorted_buckets, with_bucket, kept_by, filled_buckets, last_of, without_last, unfilled_buckets as not_filled, filled_one as one_filled, filled_by as all_filled, buckets_of};
ghost use Rattle.jxl_coding_codes.specs.Inner.Seen.{filling_seen};

use crate::ans::Bucket;
use crate::filling::Filling;
use jxlm_bits::decoder::DecoderError;
use std::alloc::Global;

/// How many slots there are.
const WHOLE: u16 = 4096;

/// A number of a list, and 0 past its end.
fn at(numbers: &[u32], place: usize) -> u32
    requires { All (λ number. number ≤ 4096) numbers.now }
    ensures number { result ≡ slice_index numbers.now place }
    ensures most { result ≤ 4096 }
{
    match numbers.get(place) {
        Some(number) => *number,
        None => 0,
    }
}

/// The symbol that comes each time, from `symbol` on.
pub fn only(counts: &[u32]) -> Option<u32>
    requires { length counts.now ≤ 2 ^ 16 }
    ensures { result ≡ only_from 0 counts.now }
{
    for (symbol, count) in counts.iter().enumerate() {
        if *count == u32::from(WHOLE) {
            return Some(symbol as u32);
        }
    }
    None
}

/// How many slots a bucket has, as a power of 2.
pub fn bucket_shift_of(log: u32) -> u32
    requires { log ≤ 8 }
    ensures size { 2 ^ result ≡ 4096 / 2 ^ log }
    ensures most { result ≤ 12 }
{
    match log {
        0 => 12,
        1 => 11,
        2 => 10,
        3 => 9,
        4 => 8,
        5 => 7,
        6 => 6,
        7 => 5,
        _ => 4,
    }
}

/// How many buckets there are.
fn size_of(log: u32) -> u32
    requires { log ≤ 8 }
    ensures value { result ≡ 2 ^ log }
    ensures some { 0 < result }
    ensures most { result ≤ 2 ^ 8 }
    ensures product { (4096 / 2 ^ log) * result ≤ 4096 }
{
    match log {
        0 => 1,
        1 => 2,
        2 => 4,
        3 => 8,
        4 => 16,
        5 => 32,
        6 => 64,
        7 => 128,
        _ => 256,
    }
}

/// The buckets of an only symbol.
fn only_buckets(
    alloc: Global,
    symbol: u32,
    bucket_size: u32,
    size: u32,
) -> Result<Vec<Bucket>, DecoderError>
    requires { bucket_size * size ≤ 4096 }
    ensures ok { IfOk result (λ v. v.items ≡ the_only_buckets symbol bucket_size size) }
    ensures err { IfErr result (λ e. e ≡ DecoderError.OutOfMemory) }
{
    let mut buckets = Vec::new(alloc);
    for i in 0..size {
        buckets.push(Bucket {
            cutoff: 0,
            alias_symbol: symbol,
            alias_offset: bucket_size * i,
            count: 0,
            alias_count: WHOLE,
        })?;
    }
    Ok(buckets)
}

/// Sorts a bucket among those of its kind.
fn sort(s: &mut Filling, bucket_size: u32, i: usize, cutoff: u32) -> Result<(), DecoderError>
    requires { i < length s.old.buckets.items }
    ensures ok { OnOk result (filling_seen s.new ≡ sorted_buckets (filling_seen s.old) bucket_size i cutoff) }
    ensures err { IfErr result (λ e. e ≡ DecoderError.OutOfMemory) }
{
    if bucket_size < cutoff {
        s.overfull.push(i)?;
    } else if cutoff < bucket_size {
        s.underfull.push(i)?;
    }
    Ok(())
}

/// One bucket more, with the slots of its own symbol.
fn add_bucket(s: &mut Filling, counts: &[u32], bucket_size: u32, i: u32) -> Result<(), DecoderError>
    requires place { i ≡ length s.old.buckets.items }
    requires few { i < 2 ^ 8 }
    requires counts { All (λ count. count ≤ 4096) counts.now }
    ensures ok { OnOk result (filling_seen s.new ≡ with_bucket counts.now bucket_size i (filling_seen s.old)) }
    ensures many { OnOk result (length s.new.buckets.items ≡ i + 1) }
    ensures err { IfErr result (λ e. e ≡ DecoderError.OutOfMemory) }
{
    let count = at(counts, i as usize);
    s.buckets.push(Bucket {
        cutoff: count,
        alias_symbol: i,
        alias_offset: 0,
        count: count as u16,
        alias_count: count as u16,
    })?;
    sort(s, bucket_size, i as usize, count)
}

/// The buckets of these counts, before any is filled.
fn unfilled(
    alloc: Global,
    counts: &[u32],
    bucket_size: u32,
    size: u32,
) -> Result<Filling, DecoderError>
    requires size { size ≤ 2 ^ 8 }
    requires counts { All (λ count. count ≤ 4096) counts.now }
    ensures ok { IfOk result (λ s. filling_seen s ≡ not_filled counts.now bucket_size size) }
    ensures err { IfErr result (λ e. e ≡ DecoderError.OutOfMemory) }
{
    let mut s = Filling {
        buckets: Vec::new(alloc),
        overfull: Vec::new(alloc),
        underfull: Vec::new(alloc),
    };
    for i in 0..size {
        add_bucket(&mut s, counts, bucket_size, i)?;
    }
    Ok(s)
}

/// Takes the last of a list that is not empty.
fn take_last(places: &mut Vec<usize>) -> usize
    requires { 0 < length places.old.items }
    ensures last { result ≡ last_of places.old.items }
    ensures rest { places.new.items ≡ without_last places.old.items }
{
    let last = places[places.len() - 1];
    places.truncate(places.len() - 1);
    last
}

/// Fills a short bucket with the last slots of a full one, and says how many that one keeps.
fn fill(buckets: &mut Vec<Bucket>, bucket_size: u32, full: usize, short: usize) -> u32
    requires full { full < length buckets.old.items }
    requires short { short < length buckets.old.items }
    requires few { length buckets.old.items ≤ 2 ^ 8 }
    ensures kept { result ≡ kept_by buckets.old.items bucket_size full short }
    ensures buckets { buckets.new.items ≡ filled_buckets buckets.old.items bucket_size full short }
    ensures many { length buckets.new.items ≡ length buckets.old.items }
{
    let from = buckets[full];
    let lack = bucket_size.saturating_sub(buckets[short].cutoff);
    let kept = from.cutoff.saturating_sub(lack);
    buckets[full] = Bucket {
        cutoff: kept,
        alias_symbol: from.alias_symbol,
        alias_offset: from.alias_offset,
        count: from.count,
        alias_count: from.alias_count,
    };
    let to = buckets[short];
    buckets[short] = Bucket {
        cutoff: to.cutoff,
        alias_symbol: full as u32,
        alias_offset: kept,
        count: to.count,
        alias_count: from.count,
    };
    kept
}

/// Settles one bucket more, while there are both kinds.
fn fill_one(s: &mut Filling, bucket_size: u32) -> Result<(), DecoderError>
    ensures ok { OnOk result (filling_seen s.new ≡ one_filled bucket_size (filling_seen s.old)) }
    ensures err { IfErr result (λ e. e ≡ DecoderError.OutOfMemory) }
{
    if s.overfull.len() == 0 {
        return Ok(());
    }
    if s.underfull.len() == 0 {
        return Ok(());
    }
    let full = take_last(&mut s.overfull);
    let short = take_last(&mut s.underfull);
    let kept = fill(&mut s.buckets, bucket_size, full, short);
    sort(s, bucket_size, full, kept)
}

/// Settles this number of buckets.
fn fill_all(s: &mut Filling, bucket_size: u32, size: u32) -> Result<(), DecoderError>
    ensures ok { OnOk result (filling_seen s.new ≡ all_filled bucket_size size (filling_seen s.old)) }
    ensures err { IfErr result (λ e. e ≡ DecoderError.OutOfMemory) }
{
    for _ in 0..size {
        fill_one(s, bucket_size)?;
    }
    Ok(())
}

/// The 2^log buckets of a distribution.
pub fn buckets(alloc: Global, counts: &[u32], log: u32) -> Result<Vec<Bucket>, DecoderError>
    requires log { log ≤ 8 }
    requires few { length counts.now ≤ 2 ^ 16 }
    requires counts { All (λ count. count ≤ 4096) counts.now }
    ensures ok { IfOk result (λ v. v.items ≡ buckets_of counts.now log) }
    ensures err { IfErr result (λ e. e ≡ DecoderError.OutOfMemory) }
{
    let size = size_of(log);
    let bucket_size = u32::from(WHOLE) / size;
    if let Some(symbol) = only(counts) {
        return only_buckets(alloc, symbol, bucket_size, size);
    }
    let mut s = unfilled(alloc, counts, bucket_size, size)?;
    fill_all(&mut s, bucket_size, size)?;
    Ok(s.buckets)
}
