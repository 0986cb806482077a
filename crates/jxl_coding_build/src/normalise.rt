//! Counts scaled to a sum of 4096.

ghost use Rattle.std.specs.Prelude.{◌≡◌, ℕ, ◌+◌, ◌-◌, ◌*◌, ◌<◌, ◌≤◌, ◌^◌, length, sum, count_by, nat_lt, slice_index, IfOk};
ghost use Rattle.jxl_coding_build.specs.Shares.{one_if};

use std::alloc::{AllocError, Global};

/// The share of a count in a room, and one more if the count is not 0.
fn share(count: u32, room: u32, total: u32) -> u32
    requires some { 0 < total }
    requires part { count ≤ total }
    requires room { room ≤ 4096 }
    ensures none { count ≡ 0 → result ≡ 0 }
    ensures occurs { 0 < count → 0 < result }
    ensures most { result * total ≤ one_if count * total + count * room }
    ensures below { result ≤ 4097 }
{
    if count == 0 {
        return 0;
    }
    1 + (u64::from(count) * u64::from(room) / u64::from(total)) as u32
}

/// The sum of counts.
pub fn total_of(counts: &[u32]) -> u32
    requires { sum counts.now < 2 ^ 32 }
    ensures { result ≡ sum counts.now }
{
    counts.iter().sum()
}

/// The number of counts that are not 0.
fn used_of(counts: &[u32]) -> u32
    requires { length counts.now ≤ 256 }
    ensures many { result ≡ count_by (λ c. nat_lt 0 c) counts.now }
    ensures few { result ≤ 256 }
{
    let mut used = 0;
    for count in counts {
        if *count > 0 {
            used += 1;
        }
    }
    used
}

/// The share of each count in a room.
fn shares_of(alloc: Global, counts: &[u32], room: u32, total: u32) -> Result<Vec<u32>, AllocError>
    requires some { 0 < total }
    requires total { total ≡ sum counts.now }
    requires room { room ≤ 4096 }
    ensures many { IfOk result (λ v. length v.items ≡ length counts.now) }
    ensures none { IfOk result (λ v. (k : ℕ) → slice_index counts.now k ≡ 0 → slice_index v.items k ≡ 0) }
    ensures occurs { IfOk result (λ v. (k : ℕ) → 0 < slice_index counts.now k → 0 < slice_index v.items k) }
    ensures most { IfOk result (λ v. sum v.items * total
        ≤ count_by (λ c. nat_lt 0 c) counts.now * total + sum counts.now * room) }
{
    let mut shares = Vec::new(alloc);
    for count in counts {
        shares.push(share(*count, room, total))?;
    }
    Ok(shares)
}

/// The first symbol of the greatest count.
fn top_of(counts: &[u32]) -> usize
    requires { 0 < sum counts.now }
    ensures inside { result < length counts.now }
    ensures occurs { 0 < slice_index counts.now result }
{
    let mut top = 0;
    for i in 0..counts.len() {
        if counts[top] < counts[i] {
            top = i;
        }
    }
    top
}

/// Scales counts, of which one at least is not 0, to a sum of 4096. Each count that is not 0 gets one, and a share of
/// the rest in its ratio; the first of the greatest counts gets what is left.
pub fn normalise(alloc: Global, counts: &[u32]) -> Result<Vec<u32>, AllocError>
    requires few { length counts.now ≤ 256 }
    requires some { 0 < sum counts.now }
    requires fits { sum counts.now < 2 ^ 32 }
    ensures many { IfOk result (λ v. length v.items ≡ length counts.now) }
    ensures whole { IfOk result (λ v. sum v.items ≡ 4096) }
    ensures none { IfOk result (λ v. (k : ℕ) → slice_index counts.now k ≡ 0 → slice_index v.items k ≡ 0) }
    ensures occurs { IfOk result (λ v. (k : ℕ) → 0 < slice_index counts.now k → 0 < slice_index v.items k) }
{
    let total = total_of(counts);
    let used = used_of(counts);
    let mut shares = shares_of(alloc, counts, 4096 - used, total)?;
    let held = total_of(&shares);
    let top = top_of(counts);
    shares[top] += 4096 - held;
    Ok(shares)
}
