//! The configuration of the tokens of a cluster: of a few, that by which code and tokens are the shortest, nearly.

ghost use Rattle.std.specs.Prelude.{◌≡◌, ◌<◌, false, true};
ghost use Rattle.std.specs.List.{All};
ghost use Rattle.jxl_coding_codes.specs.IntegerConfigs.{IsConfig};
ghost use Rattle.jxl_coding_build.specs.Histograms.{HasSymbol, HaveSymbols};

use crate::copies::MIN_SYMBOL;
use crate::costs::{BIT, cost_of_code};
use jxl_coding_codes::config::IntegerConfig;
use jxl_coding_write::spelling::spell;
use jxlm_bit_writer::token::Token;
use std::alloc::{AllocError, Global};

/// A token below 16 is its own symbol; another has its leading one and the two bits below it in the symbol. All symbols
/// are below 128.
pub(crate) const USUAL: IntegerConfig = IntegerConfig {
    split_exponent: 4,
    msb_in_token: 2,
    lsb_in_token: 0,
};

/// The symbol of a token is the number of its binary digits: the head of few tokens is short.
const SHORT: IntegerConfig = IntegerConfig {
    split_exponent: 0,
    msb_in_token: 0,
    lsb_in_token: 0,
};

/// A token below 64 is its own symbol; another has its leading one and the six bits below it in the symbol: equal
/// tokens are cheap. Tokens below 384 have symbols below those of copies.
const WIDE: IntegerConfig = IntegerConfig {
    split_exponent: 6,
    msb_in_token: 6,
    lsb_in_token: 0,
};

/// The same symbols: the configuration of tokens below 512 of which some are not below 384.
const FULL: IntegerConfig = IntegerConfig {
    split_exponent: 7,
    msb_in_token: 6,
    lsb_in_token: 0,
};

/// What takes its place with copies: two symbols from 128 on are one, so that tokens below 512 have symbols below those of
/// copies.
const COPIED: IntegerConfig = IntegerConfig {
    split_exponent: 7,
    msb_in_token: 5,
    lsb_in_token: 0,
};

/// Whether tokens have symbols of copies by this configuration.
pub(crate) fn is_full(config: &IntegerConfig) -> bool {
    config.split_exponent == FULL.split_exponent && config.msb_in_token == FULL.msb_in_token
}

/// The configuration with copies of a cluster that has this one without.
pub(crate) fn with_copies(config: IntegerConfig) -> IntegerConfig
    requires config { IsConfig config }
    ensures config { IsConfig result }
    ensures split { config.split_exponent < 8 → result.split_exponent < 8 }
{
    if is_full(&config) { COPIED } else { config }
}

/// The tokens that are counted each.
const DIRECT: u32 = 512;

/// The counts of a cluster: those of tokens below 512, and of others by the number of their digits.
const ENTRIES: usize = 544;

/// How often tokens occur, in each cluster.
#[derive(Drop)]
pub(crate) struct Values {
    counts: Vec<u32>,
    // The counts of symbols by one configuration.
    symbols: Vec<u32>,
}

/// The number of the count of a token.
fn entry_of(value: u32) -> usize {
    if value < DIRECT {
        value as usize
    } else {
        543usize.saturating_sub(value.leading_zeros() as usize)
    }
}

/// The least token of a count.
fn value_at(entry: usize) -> u32 {
    if entry < 512 {
        entry as u32
    } else {
        1u32.wrapping_shl(entry.saturating_sub(512).min(31) as u32)
    }
}

/// Counts the symbol of a token. Returns the bits that follow it, times 65,536; the most, if the symbol is not below
/// 256.
fn add_symbol(symbols: &mut Vec<u32>, config: &IntegerConfig, value: u32, count: u32) -> u64
    requires { IsConfig config.now }
{
    let spelling = spell(config, value);
    match symbols.get_mut(spelling.symbol as usize) {
        Some(sum) => {
            *sum = sum.saturating_add(count);
            u64::from(count)
                .saturating_mul(u64::from(spelling.rest.count))
                .saturating_mul(BIT)
        }
        None => u64::MAX,
    }
}

impl Values {
    /// The counts of these tokens of this number of clusters.
    pub(crate) fn of(alloc: Global, many: u32, tokens: &[Token]) -> Result<Values, AllocError> {
        let mut counts = vec![in alloc; 0; (many.min(256) as usize).saturating_mul(ENTRIES)]?;
        for token in tokens {
            let start = usize::from(token.cluster).saturating_mul(ENTRIES);
            if let Some(count) = counts.get_mut(start.saturating_add(entry_of(token.value))) {
                *count = u32::saturating_add(*count, 1);
            }
        }
        let symbols = vec![in alloc; 0; 256]?;
        Ok(Values { counts, symbols })
    }

    /// Sets the counts of symbols to 0.
    fn clear(&mut self) {
        for count in self.symbols.iter_mut() {
            *count = 0;
        }
    }

    /// What the tokens of a cluster cost by a configuration, in bits times 65,536.
    fn cost(&mut self, config: &IntegerConfig, cluster: u8) -> u64
        requires { IsConfig config.now }
    {
        self.clear();
        let start = usize::from(cluster).saturating_mul(ENTRIES);
        let mut rest: u64 = 0;
        for entry in 0..ENTRIES {
            let count = self
                .counts
                .get(start.saturating_add(entry))
                .copied()
                .unwrap_or(0);
            if count > 0 {
                let bits = add_symbol(&mut self.symbols, config, value_at(entry), count);
                rest = rest.saturating_add(bits);
            }
        }
        rest.saturating_add(cost_of_code(&self.symbols))
    }

    /// Whether one of the counted symbols is one of copies.
    fn has_copies(&self) -> bool {
        for symbol in MIN_SYMBOL as usize..self.symbols.len() {
            if self.symbols[symbol] > 0 {
                return true;
            }
        }
        false
    }
}

/// Whether a token of the cluster has a symbol of 256 or more.
fn is_beyond(config: &IntegerConfig, cluster: u8, token: Token) -> bool
    requires { IsConfig config.now }
    ensures { result ≡ false → HasSymbol config.now cluster token }
{
    if token.cluster != cluster {
        return false;
    }
    spell(config, token.value).symbol >= 256
}

/// Whether the tokens of a cluster have symbols below 256.
pub(crate) fn all_fit(config: &IntegerConfig, cluster: u8, tokens: &[Token]) -> bool
    requires { IsConfig config.now }
    ensures { result ≡ true → All (HasSymbol config.now cluster) tokens.now }
{
    for token in tokens {
        if is_beyond(config, cluster, *token) {
            return false;
        }
    }
    true
}

/// The configuration of the tokens of a cluster.
pub(crate) fn config_for(values: &mut Values, cluster: u8, tokens: &[Token]) -> IntegerConfig
    ensures config { IsConfig result }
    ensures split { result.split_exponent < 8 }
    ensures symbols { HaveSymbols result cluster tokens.now }
{
    let usual = values.cost(&USUAL, cluster);
    let short = values.cost(&SHORT, cluster);
    let wide = values.cost(&WIDE, cluster);
    if wide < usual && wide < short {
        if !values.has_copies() && all_fit(&WIDE, cluster, tokens) {
            return WIDE;
        }
        if all_fit(&FULL, cluster, tokens) {
            return FULL;
        }
    }
    if short < usual {
        return SHORT;
    }
    USUAL
}
