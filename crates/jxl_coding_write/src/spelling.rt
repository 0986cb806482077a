//! Hybrid integers: a symbol, and the bits that follow it.

ghost use Rattle.std.specs.Prelude.{◌≡◌, ◌+◌, ◌-◌, ◌<◌, ◌≤◌, ◌^◌};
ghost use Rattle.jxl_coding_codes.specs.IntegerConfigs.{IsConfig};
ghost use Rattle.std.specs.Int.{w32, leading_zeros};
ghost use Rattle.jxl_coding_write.specs.HybridIntegers.{IsSpelled, long_symbol, symbol_of, symbol_count as the_symbol_count};

use crate::piece::BitPiece;
use jxl_coding_codes::config::IntegerConfig;
use jxl_coding_codes::fields::power;

/// A number as a symbol and bits.
#[derive(Clone, Copy)]
pub struct Spelling {
    pub symbol: u32,
    /// The bits that follow the symbol.
    pub rest: BitPiece,
}

/// The number of symbols that a configuration needs: each number has a smaller symbol.
pub fn symbol_count(config: &IntegerConfig) -> u32
    requires { IsConfig config.now }
    ensures { result ≡ the_symbol_count config.now }
{
    let known = power(config.msb_in_token + config.lsb_in_token);
    power(config.split_exponent) + (32 - config.split_exponent) * known
}

/// The number of bits below the leading one.
#[inline(always)]
pub fn log_of(value: u32) -> u32
    requires { 0 < value }
    ensures log { result ≡ 31 - leading_zeros w32 value }
    ensures few { result < 32 }
    ensures least { 2 ^ result ≤ value }
    ensures most { value < 2 ^ (result + 1) }
{
    31 - value.leading_zeros()
}

/// Spells a number that is not below the split and has `n` bits below its leading one.
fn spell_long(config: &IntegerConfig, token: u32, n: u32) -> Spelling
    requires config { IsConfig config.now }
    requires few { n < 32 }
    requires least { 2 ^ n ≤ token }
    requires most { token < 2 ^ (n + 1) }
    requires beyond { 2 ^ config.now.split_exponent ≤ token }
    requires long { config.now.split_exponent ≤ n }
    ensures read { IsSpelled config.now token result.symbol result.rest.count result.rest.value }
    ensures symbol { result.symbol ≡ long_symbol config.now n token }
    ensures few { result.symbol < the_symbol_count config.now }
{
    let high = power(config.msb_in_token);
    let low = power(config.lsb_in_token);
    let known = config.msb_in_token + config.lsb_in_token;
    let width = n - known;
    let wide = power(width);
    let upper = token / low;
    let high_bits = upper / wide - high;
    let base = power(config.split_exponent - known);
    let steps = base + (n - config.split_exponent);
    Spelling {
        symbol: (steps * high + high_bits) * low + token % low,
        rest: BitPiece {
            value: upper % wide,
            count: width,
        },
    }
}

/// Spells a number by a configuration.
pub fn spell(config: &IntegerConfig, token: u32) -> Spelling
    requires { IsConfig config.now }
    ensures read { IsSpelled config.now token result.symbol result.rest.count result.rest.value }
    ensures symbol { result.symbol ≡ symbol_of config.now token }
    ensures few { result.symbol < the_symbol_count config.now }
{
    if token < power(config.split_exponent) {
        return Spelling {
            symbol: token,
            rest: BitPiece { value: 0, count: 0 },
        };
    }
    spell_long(config, token, log_of(token))
}
