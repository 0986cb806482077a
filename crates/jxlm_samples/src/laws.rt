//! Laws of coded samples.

ghost use Rattle.std.specs.Prelude.{ℕ, List, ℤ};
ghost use Rattle.std.specs.Int.{Width};
ghost use Rattle.jxlm_base.specs.Grid.{Grid};
ghost use Rattle.jxlm_bits.specs.declared.decoder.DecoderError.{DecoderError};
ghost use Rattle.jxlm_samples.specs.Coded.{IsCodedToTheEnd};
ghost use Rattle.jxlm_samples.specs.Decode.{Standing, Fails};
ghost use Rattle.jxlm_samples.specs.Part as part;
ghost use Rattle.jxlm_samples.specs.Token.{EachHasToken};

use jxlm_bits::decoder::Decoder;

/// The next sample of a part sees the samples before it in its own channel, and the earlier channels whole.
pub fn each_sample_sees_what_is_before()
    ensures { part.EachSeesBefore }
{}

/// Where some samples are coded to the end, decoding returns no error of the decoder.
pub fn what_is_coded_is_not_refused<D: Decoder>()
    ensures { (w : Width) (p : part.Part) (bytes : List ℕ) (decoder : D) (old new : Standing) (e : DecoderError)
        (tried : ℕ) (grids : List (Grid ℤ)) (q : ℕ) → IsCodedToTheEnd D.meaning w p bytes decoder old.position grids q
        → Fails D.meaning w p bytes decoder old new e tried → ⊥ }
{}

/// Where the multiplier is odd, each sample of 32 bits has one token.
pub fn each_sample_has_one_token()
    ensures { EachHasToken }
{}
