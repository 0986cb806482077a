//! Hybrid integers: a symbol gives the number, or how long it is and its outermost bits.

ghost use Rattle.std.specs.Prelude.{◌≡◌, ◌<◌, ◌≤◌, IfOk};
ghost use Rattle.jxlm_bits.specs.Bits.{bytes_of, position_of};
ghost use Rattle.jxlm_bits.specs.Decoding.{Gives};
ghost use Rattle.jxl_coding_codes.specs.IntegerConfigs.{IsConfig, config_at, token_at};

use crate::fields::{bit_width, number, power};
use crate::refusal::Refusal;
use jxlm_bits::bits::Bitstream;
use jxlm_bits::decoder::DecoderError;

/// How the symbols of a cluster become numbers.
#[derive(Clone, Copy)]
pub struct IntegerConfig {
    /// Symbols below 2 to this stand for themselves.
    pub split_exponent: u32,
    /// How many bits below the leading one a symbol tells.
    pub msb_in_token: u32,
    /// How many of the last bits a symbol tells.
    pub lsb_in_token: u32,
}

impl IntegerConfig {
    ghost use Rattle.jxl_coding_codes.specs.Reading.{Exactly};

    /// At the reader's position, where symbols have at most `log` bits.
    #[tactic(auto, unfolding(crate::specs::IntegerConfigs::config_at))]
    pub fn parse(bits: &mut Bitstream<'_>, log: u32) -> Result<IntegerConfig, DecoderError>
        requires { log ≤ 15 }
        ensures gives { Gives (λ h. h) result (position_of bits.new)
            (config_at (bytes_of bits.old) log (position_of bits.old)) }
        ensures config { IfOk result IsConfig }
        ensures bytes { bytes_of bits.new ≡ bytes_of bits.old }
    {
        let split = number(bits, bit_width(log))?;
        if split == log {
            return Ok(IntegerConfig {
                split_exponent: split,
                msb_in_token: 0,
                lsb_in_token: 0,
            });
        }
        let high = number(bits, bit_width(split))?;
        if split < high {
            return Err(DecoderError::from(Refusal::TokenBits));
        }
        let low = number(bits, bit_width(split - high))?;
        if split < high + low {
            return Err(DecoderError::from(Refusal::TokenBits));
        }
        Ok(IntegerConfig {
            split_exponent: split,
            msb_in_token: high,
            lsb_in_token: low,
        })
    }

    /// The number of a symbol.
    #[tactic(auto, unfolding(crate::specs::IntegerConfigs::token_at))]
    #[inline(always)]
    pub fn token(&self, bits: &mut Bitstream<'_>, symbol: u32) -> Result<u32, DecoderError>
        requires config { IsConfig self.now }
        ensures gives { Exactly result (position_of bits.new)
            (token_at self.now symbol (bytes_of bits.old) (position_of bits.old)) }
        ensures bytes { bytes_of bits.new ≡ bytes_of bits.old }
    {
        let split = power(self.split_exponent);
        if symbol < split {
            return Ok(symbol);
        }
        let known = self.msb_in_token + self.lsb_in_token;
        let more = (symbol - split) / power(known);
        let width = more.wrapping_add(self.split_exponent - known) % 32;
        let rest = number(bits, width)?;
        let high = power(self.msb_in_token);
        let low = power(self.lsb_in_token);
        let first = high + symbol / low % high;
        let whole = first.wrapping_mul(power(width)).wrapping_add(rest);
        Ok(whole.wrapping_mul(low).wrapping_add(symbol % low))
    }
}
