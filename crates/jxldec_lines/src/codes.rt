//! Why an entropy decoder returns no value, in words.

ghost use Rattle.std.specs.Prelude.{◌≡◌};
ghost use Rattle.jxldec_lines.specs.Causes.{code_text as the_code_text, decoder_text as the_decoder_text};

use jxlm_bits::decoder::DecoderError;

// Why the entropy decoder of files refuses its input, by the number of the refusal.
#[tactic(auto, unfolding(crate::specs::Causes::code_text))]
fn code_text(number: u32) -> &'static str
    ensures { result.now ≡ the_code_text number }
{
    match number {
        1 => "an integer configuration that tells more bits of a token than its split has",
        2 => "a prefix code of more than 32768 symbols",
        3 => "a symbol outside the alphabet",
        4 => "a symbol with two codewords",
        5 => "more codewords than their lengths have room for",
        6 => "fewer codewords than their lengths have room for",
        7 => "a run of code lengths past the alphabet",
        8 => "bits that are no codeword",
        9 => "a distribution of two symbols that are one",
        10 => "counts of more than 13 bits",
        11 => "counts of which none is the widest, or which repeat the widest",
        12 => "counts that leave nothing to the widest",
        13 => "a distribution of more symbols than its alphabet has",
        14 => "a cluster without a context",
        15 => "a cluster above 255",
        16 => "copies among the clusters of two contexts",
        17 => "a copy of 2^32 tokens or more",
        18 => "a stream that begins below the states of its code",
        19 => "a stream that does not end in the state of its code",
        _ => "a code without a name",
    }
}

/// Why an entropy decoder returns no value.
#[tactic(auto, unfolding(crate::specs::Causes::decoder_text))]
pub fn decoder_text(error: DecoderError) -> &'static str
    ensures { result.now ≡ the_decoder_text error }
{
    match error {
        DecoderError::UnexpectedEof => "unexpected end of input",
        DecoderError::Invalid(number) => code_text(number),
        DecoderError::OutOfMemory => "out of memory",
    }
}
