//! Why nothing is made of an input.

ghost use Rattle.std.specs.Prelude.{◌≡◌};

use jxl_text::reading::TextError;
use jxlm_bits::error::Error;
use jxlm_encode::encode::EncodeError;

/// Why nothing is made of an input.
#[derive(Clone, Copy, Debug, PartialEq, Eq, thiserror::Error)]
pub enum Refusal {
    /// There is no such image in the bytes, by this error.
    #[error("{0}")]
    Image(Error),
    /// The bytes are the text of no image, by this error.
    #[error("{0}")]
    Text(TextError),
    /// The image is not encoded, by this error.
    #[error("{0}")]
    Encoder(EncodeError),
}

impl From<Error> for Refusal {
    ghost use Rattle.jxlmod_commands.specs.declared.refusal.Refusal.TheVariants.{Image};

    ghost from_gives = { λ error refusal. refusal ≡ Image error };

    fn from(error: Error) -> Refusal {
        Refusal::Image(error)
    }
}

impl From<TextError> for Refusal {
    ghost use Rattle.jxlmod_commands.specs.declared.refusal.Refusal.TheVariants.{Text};

    ghost from_gives = { λ error refusal. refusal ≡ Text error };

    fn from(error: TextError) -> Refusal {
        Refusal::Text(error)
    }
}

impl From<EncodeError> for Refusal {
    ghost use Rattle.jxlmod_commands.specs.declared.refusal.Refusal.TheVariants.{Encoder};

    ghost from_gives = { λ error refusal. refusal ≡ Encoder error };

    fn from(error: EncodeError) -> Refusal {
        Refusal::Encoder(error)
    }
}
