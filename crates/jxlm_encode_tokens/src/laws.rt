//! Laws of tokens.

ghost use Rattle.jxlm_encode_tokens.specs.Laws.{EachHasOneToken, EachPartHasOneList, ReadIsCoded, WrittenIsCoded, GammaWrittenIsCoded};

use jxlm_bits::decoder::Decoder;

/// At a leaf whose multiplier is 1 each sample has one token whose signed number is one of the sample's width.
pub fn each_sample_has_one_token()
    ensures { EachHasOneToken }
{}

/// The cells of a part have one list of tokens, where all multipliers are 1, or where they are odd and samples have 32
/// bits.
pub fn each_part_has_one_list()
    ensures { EachPartHasOneList }
{}

/// Samples are coded where their tokens are read one after another, by whatever decoder.
pub fn read_is_coded<D: Decoder>()
    ensures { ReadIsCoded D.meaning }
{}

/// Samples whose tokens were written are coded.
pub fn written_is_coded()
    ensures { WrittenIsCoded }
{}

/// Samples whose tokens were written as gamma codes are coded.
pub fn gamma_written_is_coded()
    ensures { GammaWrittenIsCoded }
{}
