//! Why an entropy decoder refuses its input, by name.

ghost use Rattle.std.specs.Prelude.{◌≡◌};
ghost use Rattle.jxl_coding_codes.specs.Refusals.{number_of, refusal_error};

use jxlm_bits::decoder::DecoderError;

/// Why codes or tokens are refused. As a decoder's error each is `Invalid` of its number.
#[derive(Clone, Copy, Debug, PartialEq, Eq, thiserror::Error)]
pub enum Refusal {
    /// An integer configuration that tells more bits of a token than its split has.
    #[error("an integer configuration that tells more bits of a token than its split has")]
    TokenBits = 1,
    /// A prefix code of more than 32768 symbols.
    #[error("a prefix code of more than 32768 symbols")]
    PrefixAlphabet = 2,
    /// A symbol outside the alphabet.
    #[error("a symbol outside the alphabet")]
    SymbolOutside = 3,
    /// A symbol with two codewords.
    #[error("a symbol with two codewords")]
    SymbolTwice = 4,
    /// More codewords than their lengths have room for.
    #[error("more codewords than their lengths have room for")]
    CodewordsOverfull = 5,
    /// Fewer codewords than their lengths have room for.
    #[error("fewer codewords than their lengths have room for")]
    CodewordsUnderfull = 6,
    /// A run of code lengths past the alphabet.
    #[error("a run of code lengths past the alphabet")]
    LengthsOverrun = 7,
    /// Bits that are no codeword.
    #[error("bits that are no codeword")]
    NoCodeword = 8,
    /// A distribution of two symbols that are one.
    #[error("a distribution of two symbols that are one")]
    SymbolsEqual = 9,
    /// Counts of more than 13 bits.
    #[error("counts of more than 13 bits")]
    CountPrecision = 10,
    /// Counts of which none is the widest, or which repeat the widest.
    #[error("counts of which none is the widest, or which repeat the widest")]
    CountWidths = 11,
    /// Counts that leave nothing to the widest.
    #[error("counts that leave nothing to the widest")]
    CountsOverfull = 12,
    /// A distribution of more symbols than its alphabet has.
    #[error("a distribution of more symbols than its alphabet has")]
    DistributionAlphabet = 13,
    /// A cluster without a context.
    #[error("a cluster without a context")]
    ClusterUnused = 14,
    /// A cluster above 255.
    #[error("a cluster above 255")]
    ClusterTooLarge = 15,
    /// Copies among the clusters of two contexts.
    #[error("copies among the clusters of two contexts")]
    MapCopies = 16,
    /// A copy of 2^32 tokens or more.
    #[error("a copy of 2^32 tokens or more")]
    CopyTooLong = 17,
    /// A stream that begins below the states of its code.
    #[error("a stream that begins below the states of its code")]
    StateTooSmall = 18,
    /// A stream that does not end in the state of its code.
    #[error("a stream that does not end in the state of its code")]
    EndState = 19,
}

impl Refusal {
    /// Its number, which `DecoderError::Invalid` holds.
    pub fn number(self) -> u32
        ensures { result ≡ number_of self }
    {
        self as u32
    }
}

impl From<Refusal> for DecoderError {
    ghost from_gives = { λ r e. e ≡ refusal_error r };

    fn from(refusal: Refusal) -> DecoderError {
        DecoderError::Invalid(refusal.number())
    }
}
