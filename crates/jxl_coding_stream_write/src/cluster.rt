//! The code of a cluster, and the bits of its tokens after their symbols.

ghost use Rattle.std.specs.Prelude.{◌≡◌, ℕ, ◌+◌, ◌-◌, ◌<◌, ◌≤◌, ◌%◌, ◌^◌, ◌++◌, ◌↔◌, Option, Some, None, IfOk, IsTrue, false, is_some, length, slice_index, sum, true};
ghost use Rattle.jxl_coding_codes.specs.Alias.{only_from};
ghost use Rattle.jxl_coding_codes.specs.IntegerConfigs.{IsConfig};
ghost use Rattle.jxl_coding_write.specs.HybridIntegers.{IsSpelled, symbol_of};
ghost use Rattle.jxl_coding_stream_write.specs.Inner.Backward.{bits_back};

use crate::back::prepend_lowest;
use crate::first_bits::FirstBits;
use jxl_coding_codes::alias::only;
use jxl_coding_codes::config::IntegerConfig;
use jxl_coding_codes::fields::power;
use jxl_coding_write::slot_table::SlotTable;
use jxl_coding_write::spelling::{log_of, spell};
use std::alloc::{AllocError, Global};

/// The code of a cluster: an integer configuration, and the slots of symbols.
#[derive(Drop)]
pub struct ClusterWriter {
    /// The configuration of its tokens.
    pub config: IntegerConfig,
    /// The slots of its symbols.
    pub slots: SlotTable,
    /// The only symbol, if there is only one: it takes no bits.
    pub only: Option<u32>,
    // Tokens below it are their own symbols.
    pub(crate) split: u32,
    // Tokens below it are their own symbols, and these are not the only one.
    pub(crate) coded: u32,
    // Tokens above it have bits after the only symbol, which has none of the lowest bits.
    pub(crate) only_upper: u32,
    // Tokens above it have bits after their symbols, none of which has the lowest bits or is the only one.
    pub(crate) upper: u32,
    // What is added to the number of bits after a symbol: `high` times the sum, and the bits of the token above these bits,
    // are the symbol.
    pub(crate) base: u32,
    // The number of symbols with the same number of bits after them, if symbols have none of the lowest bits.
    pub(crate) high: u32,
    ghost rule: { IsConfig config },
    ghost is_only: { only ≡ only_from 0 slots.counts.items },
    ghost split_is: { split ≡ 2 ^ config.split_exponent },
    ghost high_is: { high ≡ 2 ^ config.msb_in_token },
    ghost base_is: { base + (config.split_exponent - config.msb_in_token) + 1
        ≡ 2 ^ (config.split_exponent - config.msb_in_token) },
    ghost only_upper_is: { (token : ℕ) → token < 2 ^ 32 → only_upper < token
        → (config.lsb_in_token ≡ 0) × (2 ^ config.split_exponent ≤ token) × (is_some only ≡ true) },
    ghost upper_is: { (token : ℕ) → token < 2 ^ 32 → upper < token
        → (config.lsb_in_token ≡ 0) × (2 ^ config.split_exponent ≤ token) × (is_some only ≡ false) },
    ghost coded_none: { only ≡ None → coded ≡ split },
    ghost coded_some: { (symbol : ℕ) → only ≡ Some symbol → coded ≡ 0 },
}

/// The tokens below this are their own symbols, and these are not the only one.
fn coded_below(only: Option<u32>, split: u32) -> u32
    ensures none { only ≡ None → result ≡ split }
    ensures some { (symbol : ℕ) → only ≡ Some symbol → result ≡ 0 }
{
    match only {
        Some(_) => 0,
        None => split,
    }
}

/// The tokens above this are not below the split, and their symbols have `low` of the lowest bits, which is 0.
fn upper_from(low: u32, split: u32) -> u32
    requires { 0 < split }
    ensures { (token : ℕ) → token < 2 ^ 32 → result < token → (low ≡ 0) × (split ≤ token) }
{
    if low == 0 { split - 1 } else { u32::MAX }
}

/// A limit that tokens may be above, or one that none is above.
fn limit_if(any: bool, limit: u32) -> u32
    ensures { (token : ℕ) → token < 2 ^ 32 → result < token → (any ≡ true) × (limit < token) }
{
    if any { limit } else { u32::MAX }
}

/// What is added to the number of bits after a symbol to number the symbols.
fn base_of(config: &IntegerConfig) -> u32
    requires { IsConfig config.now }
    ensures { result + (config.now.split_exponent - config.now.msb_in_token) + 1
        ≡ 2 ^ (config.now.split_exponent - config.now.msb_in_token) }
{
    let least = config.split_exponent - config.msb_in_token;
    power(least) - 1 - least
}

/// A symbol, and the number of bits after it: the lowest of its token.
#[derive(Clone, Copy)]
pub(crate) struct UpperSymbol {
    pub(crate) symbol: u32,
    pub(crate) width: u32,
}

impl ClusterWriter {
    ghost use Rattle.jxl_coding_stream_write.specs.Inner.TokenRests.{HasRest};
    ghost use Rattle.jxl_coding_stream_write.specs.Tokens.{Occurs};

    /// The code of this configuration, and a distribution of at most 2^log symbols.
    pub fn new(
        alloc: Global,
        config: IntegerConfig,
        counts: Vec<u32>,
        log: u32,
    ) -> Result<ClusterWriter, AllocError>
        requires rule { IsConfig config }
        requires log { log ≤ 8 }
        requires short { length counts.items ≤ 2 ^ log }
        requires whole { sum counts.items ≡ 4096 }
        ensures config { IfOk result (λ c. c.config ≡ config) }
        ensures counts { IfOk result (λ c. c.slots.counts.items ≡ counts.items) }
        ensures log { IfOk result (λ c. c.slots.log ≡ log) }
    {
        let only = only(&counts);
        let slots = SlotTable::new(alloc, counts, log)?;
        let split = power(config.split_exponent);
        let upper = upper_from(config.lsb_in_token, split);
        let alone = only.is_some();
        Ok(ClusterWriter {
            config,
            slots,
            only,
            split,
            coded: coded_below(only, split),
            only_upper: limit_if(alone, upper),
            upper: limit_if(!alone, upper),
            base: base_of(&config),
            high: power(config.msb_in_token),
        })
    }

    /// Whether the symbol of a token occurs.
    pub fn occurs(&self, token: u32) -> bool
        ensures { IsTrue result ↔ Occurs self.now token }
    {
        self.slots.occurs(spell(&self.config, token).symbol)
    }

    /// Writes the bits of a token after the only symbol: the lowest bits of the token.
    #[inline(always)]
    pub(crate) fn write_upper_bits(
        &self,
        words: &mut Vec<u64>,
        first: FirstBits,
        token: u32,
    ) -> Result<FirstBits, AllocError>
        requires { self.now.only_upper < token }
        ensures alone { IfOk result (λ _. is_some self.now.only ≡ true) }
        ensures bits { IfOk result (λ f. HasRest self.now.config token
            (bits_back f words.new.items) (bits_back first words.old.items)) }
    {
        let n = log_of(token);
        let width = n - self.config.msb_in_token;
        let first = prepend_lowest(words, first, u64::from(token), width)?;
        Ok(first)
    }

    /// The symbol of a token with bits after it: symbols have none of the lowest bits, and there is no only symbol.
    #[inline(always)]
    pub(crate) fn upper_symbol(&self, token: u32) -> UpperSymbol
        requires { self.now.upper < token }
        ensures several { is_some self.now.only ≡ false }
        ensures symbol { result.symbol ≡ symbol_of self.now.config token }
        ensures read { IsSpelled self.now.config token (symbol_of self.now.config token)
            result.width (token % 2 ^ result.width) }
        ensures few { result.width < 32 }
    {
        let n = log_of(token);
        let width = n - self.config.msb_in_token;
        let wide = power(width);
        let symbol = (width + self.base) * self.high + token / wide;
        UpperSymbol { symbol, width }
    }
}
