//! Plain decoders of one cluster, and their tokens, written.

ghost use Rattle.std.specs.Prelude.{◌≡◌, ℕ, ◌<◌, ◌≤◌, ◌^◌, ◌++◌, IfOk};
ghost use Rattle.std.specs.List.{All};
ghost use Rattle.jxlm_encode_write.specs.Tokens.{decoder_bits, token_bits, gamma_decoder_bits, gamma_bits, gamma_token_bits};

use jxlm_bit_writer::writer::BitWriter;
use std::alloc::AllocError;

/// How many binary digits the greatest of these has, at most 32; 0 where all are 0. It is the least width that all of
/// them fit.
pub fn width_of(tokens: &[u32]) -> u32
    ensures fits { All (λ t. t < 2 ^ result) tokens.now }
    ensures least { (n : ℕ) → All (λ t. t < 2 ^ n) tokens.now → result ≤ n }
    ensures narrow { result ≤ 32 }
{
    let mut greatest = 0;
    for token in tokens {
        greatest = greatest.max(*token);
    }
    32 - greatest.leading_zeros()
}

/// Adds a decoder all of whose contexts have one cluster, with tokens of this width, at most 32: no runs, no seal.
///
/// # Errors
///
/// `AllocError` if it is out of memory, and then nothing is promised of the bits.
pub fn write_decoder(bits: &mut BitWriter, contexts: usize, width: u32) -> Result<(), AllocError>
    ensures { IfOk result (λ _. bits.new ≡ bits.old ++ decoder_bits contexts width) }
{
    bits.put(0, 6)?;
    for _ in 0..contexts {
        bits.put(0, 4)?;
    }
    bits.put(0, 1)?;
    bits.put(width, 6)
}

/// Adds tokens of this width, at most 32, one after another.
///
/// # Errors
///
/// `AllocError` if it is out of memory, and then nothing is promised of the bits.
pub fn write_tokens(bits: &mut BitWriter, tokens: &[u32], width: u32) -> Result<(), AllocError>
    requires { width ≤ 32 }
    ensures { IfOk result (λ _. bits.new ≡ bits.old ++ token_bits width tokens.now) }
{
    for token in tokens {
        bits.put(*token, width)?;
    }
    Ok(())
}

/// Adds a decoder of the second format all of whose contexts have one gamma cluster: no runs, no seal.
///
/// # Errors
///
/// `AllocError` if it is out of memory, and then nothing is promised of the bits.
pub fn write_gamma_decoder(bits: &mut BitWriter, contexts: usize) -> Result<(), AllocError>
    ensures { IfOk result (λ _. bits.new ≡ bits.old ++ gamma_decoder_bits contexts) }
{
    bits.put(2, 4)?;
    bits.put(0, 6)?;
    for _ in 0..contexts {
        bits.put(0, 4)?;
    }
    bits.put(2, 2)
}

/// Adds the gamma code of a token: n zeros, a one, and the n low digits of one more than the token.
#[tactic(auto, using(crate::proofs::GammaLaws::zeros_fit), unfolding(crate::specs::Tokens::gamma_bits))]
fn write_gamma_token(bits: &mut BitWriter, token: u32) -> Result<(), AllocError>
    ensures { IfOk result (λ _. bits.new ≡ bits.old ++ gamma_bits token) }
{
    let next = u64::from(token) + 1;
    let n = 63 - next.leading_zeros();
    bits.put(0, n)?;
    bits.put(1, 1)?;
    bits.put((next - (1 << n)) as u32, n)
}

/// Adds the gamma codes of tokens, one after another.
///
/// # Errors
///
/// `AllocError` if it is out of memory, and then nothing is promised of the bits.
pub fn write_gamma_tokens(bits: &mut BitWriter, tokens: &[u32]) -> Result<(), AllocError>
    ensures { IfOk result (λ _. bits.new ≡ bits.old ++ gamma_token_bits tokens.now) }
{
    for token in tokens {
        write_gamma_token(bits, *token)?;
    }
    Ok(())
}
