//! An error of headers, of trees and of samples, in words.

ghost use Rattle.std.specs.Prelude.{Some};
ghost use Rattle.jxldec_lines.specs.Causes.{error_text};

use crate::codes::decoder_text;
use jxlm_bits::bits::BitstreamError;
use jxlm_bits::error::Error;
use std::fmt;

/// An error of the library, with words for what the entropy decoder refuses.
#[derive(Clone, Copy)]
pub struct Cause(pub Error);

impl fmt::Display for Cause {
    ghost output = { λ cause. Some (error_text cause.0) };

    #[tactic(auto, unfolding(crate::specs::Causes::error_text, crate::specs::Causes::bitstream_text))]
    fn fmt<W: fmt::Write>(&self, f: &mut fmt::Formatter<W>) -> fmt::Result {
        match self.0 {
            Error::InvalidMaTree => f.write_str("invalid meta-adaptive tree"),
            Error::GlobalMaTreeNotAvailable => {
                f.write_str("global meta-adaptive tree requested but unavailable")
            }
            Error::InvalidRctParams => f.write_str("invalid Rct transform parameters"),
            Error::InvalidPaletteParams => f.write_str("invalid Palette transform parameters"),
            Error::InvalidSqueezeParams => f.write_str("invalid Squeeze transform parameters"),
            Error::Bitstream(BitstreamError::UnexpectedEof) => {
                f.write_str("bitstream error: unexpected end of input")
            }
            Error::Bitstream(BitstreamError::InvalidEnum { name, value }) => {
                write!(f, "bitstream error: invalid enum value {value} for {name}")
            }
            Error::Bitstream(BitstreamError::ProfileConformance(text)) => {
                write!(f, "bitstream error: {text}")
            }
            Error::Decoder(error) => {
                let text = decoder_text(error);
                write!(f, "entropy decoder error: {text}")
            }
            Error::Buffer(_) => f.write_str("out of memory"),
        }
    }
}
