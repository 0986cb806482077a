//! Writes integer configurations.

ghost use Rattle.std.specs.Prelude.{◌≡◌, ◌+◌, ◌≤◌, IfOk};
ghost use Rattle.jxl_coding_codes.specs.IntegerConfigs.{IsConfig, config_at};
ghost use Rattle.jxlm_bit_writer.specs.Writes.{Writes};

use jxl_coding_codes::config::IntegerConfig;
use jxl_coding_codes::fields::bit_width;
use jxlm_bit_writer::writer::BitWriter;
use std::alloc::AllocError;

/// Adds a configuration for alphabets of 2^log symbols: if its split exponent is `log`, it has no other bits in the
/// token.
pub fn write_config(
    bits: &mut BitWriter,
    config: &IntegerConfig,
    log: u32,
) -> Result<(), AllocError>
    requires log { log ≤ 15 }
    requires rule { IsConfig config.now }
    requires within { config.now.split_exponent ≤ log }
    requires none { config.now.split_exponent ≡ log → config.now.msb_in_token + config.now.lsb_in_token ≡ 0 }
    ensures { IfOk result (λ _. Writes bits.old bits.new (λ bytes p. config_at bytes log p) config.now) }
{
    bits.put(config.split_exponent, bit_width(log))?;
    if config.split_exponent == log {
        return Ok(());
    }
    bits.put(config.msb_in_token, bit_width(config.split_exponent))?;
    bits.put(
        config.lsb_in_token,
        bit_width(config.split_exponent - config.msb_in_token),
    )?;
    Ok(())
}
