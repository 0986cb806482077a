//! Errors by name.

use jxl_coding_codes::refusal::Refusal;
use jxlm_bits::decoder::DecoderError;
use std::alloc::{AllocError, Global};

/// Every refusal.
const REFUSALS: [Refusal; 19] = [
    Refusal::TokenBits,
    Refusal::PrefixAlphabet,
    Refusal::SymbolOutside,
    Refusal::SymbolTwice,
    Refusal::CodewordsOverfull,
    Refusal::CodewordsUnderfull,
    Refusal::LengthsOverrun,
    Refusal::NoCodeword,
    Refusal::SymbolsEqual,
    Refusal::CountPrecision,
    Refusal::CountWidths,
    Refusal::CountsOverfull,
    Refusal::DistributionAlphabet,
    Refusal::ClusterUnused,
    Refusal::ClusterTooLarge,
    Refusal::MapCopies,
    Refusal::CopyTooLong,
    Refusal::StateTooSmall,
    Refusal::EndState,
];

/// The refusal of a number.
fn refusal(number: u32) -> Option<Refusal> {
    for refusal in REFUSALS {
        if refusal.number() == number {
            return Some(refusal);
        }
    }
    None
}

/// The name of an error: that of its refusal, `Eof` or `Memory`.
pub fn name(alloc: Global, error: DecoderError) -> Result<String, AllocError> {
    match error {
        DecoderError::UnexpectedEof => format!(in alloc; "Eof"),
        DecoderError::OutOfMemory => format!(in alloc; "Memory"),
        DecoderError::Invalid(number) => match refusal(number) {
            Some(refusal) => format!(in alloc; "{refusal:?}"),
            None => format!(in alloc; "Invalid({number})"),
        },
    }
}
