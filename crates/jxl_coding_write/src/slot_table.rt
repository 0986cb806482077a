//! The slots of each symbol of a distribution, and ANS symbols written by them.

ghost use Rattle.std.specs.Prelude.{◌≡◌, ℕ, ◌+◌, ◌*◌, ◌/◌, ◌%◌, ◌<◌, ◌≤◌, ◌^◌, ◌↔◌, length, map, sum, take, false, true, IfOk, IsTrue, slice_index};
ghost use Rattle.jxl_coding_codes.specs.Alias.{buckets_of};
ghost use Rattle.jxl_coding_write.specs.Places.{HavePlaces, AreWithin, IsPlaceOf, IsReduced, Leads};

use jxl_coding_codes::alias::{bucket_shift_of, buckets};
use jxl_coding_codes::ans::{Bucket, slot_of};
use std::alloc::{AllocError, Global};

/// The slots of a symbol, in a list of those of all symbols.
#[derive(Clone, Copy)]
pub struct SymbolSlots {
    /// The greatest state that keeps its bits before the symbol.
    last: u32,
    /// How many slots there are.
    count: u32,
    /// The number of slots of the symbols before it.
    start: usize,
    ghost last_is: { 0 < count → last + 1 ≡ count * 1048576 },
}

impl SymbolSlots {
    /// Whether a state gives away its last 16 bits before the symbol.
    #[inline(always)]
    pub fn takes_bits(&self, state: u32) -> bool
        requires { 0 < self.now.count }
        ensures more { result ≡ true → self.now.count * 2 ^ 20 ≤ state }
        ensures fewer { result ≡ false → state < self.now.count * 2 ^ 20 }
    {
        state > self.last
    }
}

/// The slots of a distribution, by symbol and number.
#[derive(Drop)]
pub struct SlotTable {
    /// The count of each symbol, out of 4096.
    pub counts: Vec<u32>,
    /// The logarithm of the number of buckets.
    pub log: u32,
    /// The slots of each symbol.
    symbols: Vec<SymbolSlots>,
    /// The slots, ordered by symbol and then by number.
    places: Vec<u32>,
    ghost log_few: { log ≤ 8 },
    ghost short: { length counts.items ≤ 2 ^ log },
    ghost whole: { sum counts.items ≡ 4096 },
    ghost few: { length places.items ≡ 4096 },
    ghost counted: { map (λ s. s.count) symbols.items ≡ counts.items },
    ghost within: { AreWithin counts.items (map (λ s. s.start) symbols.items) places.items },
    ghost have: { HavePlaces counts.items log (map (λ s. s.start) symbols.items) places.items },
}

/// The slots of a symbol, after those of the symbols before it.
fn slots_after(start: usize, count: u32) -> SymbolSlots
    requires { count ≤ 4096 }
    ensures count { result.count ≡ count }
    ensures start { result.start ≡ start }
{
    SymbolSlots {
        last: count.wrapping_mul(1048576).wrapping_sub(1),
        count,
        start,
    }
}

/// The slots of each symbol.
fn symbols_of(alloc: Global, counts: &[u32]) -> Result<Vec<SymbolSlots>, AllocError>
    requires whole { sum counts.now ≡ 4096 }
    ensures counts { IfOk result (λ v. map (λ s. s.count) v.items ≡ counts.now) }
    ensures starts { IfOk result (λ v. (k : ℕ) → k < length counts.now
        → slice_index (map (λ s. s.start) v.items) k ≡ sum (take k counts.now)) }
{
    let mut symbols = Vec::new(alloc);
    let mut before: usize = 0;
    for count in counts {
        symbols.push(slots_after(before, *count))?;
        before += *count as usize;
    }
    Ok(symbols)
}

/// The alias table of a distribution.
fn buckets_for(alloc: Global, counts: &[u32], log: u32) -> Result<Vec<Bucket>, AllocError>
    requires log { log ≤ 8 }
    requires short { length counts.now ≤ 2 ^ log }
    requires whole { sum counts.now ≡ 4096 }
    ensures ok { IfOk result (λ v. v.items ≡ buckets_of counts.now log) }
{
    match buckets(alloc, counts, log) {
        Ok(buckets) => Ok(buckets),
        Err(_) => Err(AllocError),
    }
}

/// The slots, ordered by symbol and then by number.
fn places_of(
    alloc: Global,
    counts: &[u32],
    log: u32,
    symbols: &[SymbolSlots],
) -> Result<Vec<u32>, AllocError>
    requires log { log ≤ 8 }
    requires short { length counts.now ≤ 2 ^ log }
    requires whole { sum counts.now ≡ 4096 }
    requires many { length symbols.now ≡ length counts.now }
    requires starts { (k : ℕ) → k < length counts.now
        → slice_index (map (λ s. s.start) symbols.now) k ≡ sum (take k counts.now) }
    ensures many { IfOk result (λ v. length v.items ≡ 4096) }
    ensures within { IfOk result (λ v. AreWithin counts.now (map (λ s. s.start) symbols.now) v.items) }
    ensures have { IfOk result (λ v. HavePlaces counts.now log (map (λ s. s.start) symbols.now) v.items) }
{
    let buckets = buckets_for(alloc, counts, log)?;
    let shift = bucket_shift_of(log);
    let mut places = vec![in alloc; 0; 4096]?;
    for place in 0..4096 {
        let slot = slot_of(&buckets, 0, shift, place);
        let start = symbols[slot.symbol as usize].start;
        places[start + slot.number as usize] = place;
    }
    Ok(places)
}

impl SlotTable {
    ghost use Rattle.jxl_coding_write.specs.SymbolSlots.{AreSlotsOf};

    /// The table of a distribution of at most 2^log symbols.
    pub fn new(alloc: Global, counts: Vec<u32>, log: u32) -> Result<SlotTable, AllocError>
        requires log { log ≤ 8 }
        requires short { length counts.items ≤ 2 ^ log }
        requires whole { sum counts.items ≡ 4096 }
        ensures counts { IfOk result (λ t. t.counts.items ≡ counts.items) }
        ensures log { IfOk result (λ t. t.log ≡ log) }
    {
        let symbols = symbols_of(alloc, &counts)?;
        let places = places_of(alloc, &counts, log, &symbols)?;
        Ok(SlotTable {
            counts,
            log,
            symbols,
            places,
        })
    }

    /// Whether the count of a symbol is not 0.
    pub fn occurs(&self, symbol: u32) -> bool
        ensures { IsTrue result ↔ (0 < slice_index self.now.counts.items symbol) }
    {
        match self.counts.get(symbol as usize) {
            Some(count) => *count > 0,
            None => false,
        }
    }

    /// The slot of a number of a symbol.
    #[inline(always)]
    fn place(&self, symbol: u32, slots: &SymbolSlots, number: u32) -> u32
        requires start { slots.now.start ≡ slice_index (map (λ s. s.start) self.now.symbols.items) symbol }
        requires below { number < slice_index self.now.counts.items symbol }
        ensures { IsPlaceOf self.now.counts.items self.now.log symbol number result }
    {
        self.places[slots.start + number as usize]
    }

    /// The slots of a symbol that occurs.
    #[inline(always)]
    pub fn slots_of(&self, symbol: u32) -> &SymbolSlots
        requires { 0 < slice_index self.now.counts.items symbol }
        ensures { AreSlotsOf self.now symbol result.now }
    {
        &self.symbols[symbol as usize]
    }

    /// The state of a slot of a symbol that occurs.
    #[inline(always)]
    fn state_by(&self, reduced: u32, symbol: u32, slots: &SymbolSlots) -> u32
        requires occurs { 0 < slice_index self.now.counts.items symbol }
        requires count { slots.now.count ≡ slice_index self.now.counts.items symbol }
        requires start { slots.now.start ≡ slice_index (map (λ s. s.start) self.now.symbols.items) symbol }
        requires small { reduced < slots.now.count * 2 ^ 20 }
        ensures { (place : ℕ) × IsPlaceOf self.now.counts.items self.now.log symbol (reduced % slots.now.count) place
            × (result ≡ reduced / slots.now.count * 4096 + place) }
    {
        let place = self.place(symbol, slots, reduced % slots.count);
        reduced / slots.count * 4096 + place
    }

    /// Writes a symbol that occurs, before a state without the bits that it gives away: the decoder reads the symbol from the
    /// state of the result, takes these bits, and goes on.
    #[inline(always)]
    pub fn state_before(&self, reduced: u32, symbol: u32, slots: &SymbolSlots) -> u32
        requires occurs { 0 < slice_index self.now.counts.items symbol }
        requires slots { AreSlotsOf self.now symbol slots.now }
        requires small { reduced < slots.now.count * 2 ^ 20 }
        ensures { (state count value : ℕ) → 2 ^ 16 ≤ state → state < 2 ^ 32
            → IsReduced slots.now.count state reduced count value
            → Leads (buckets_of self.now.counts.items self.now.log) (4096 / 2 ^ self.now.log) symbol result
            state count value }
    {
        self.state_by(reduced, symbol, slots)
    }
}
