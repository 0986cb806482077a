//! The weights of the weighted (self-correcting) predictor, as a header lists them.

ghost use Rattle.std.specs.Prelude.{◌≡◌, ◌≤◌, ◌<◌, ◌^◌, IfOk};
ghost use Rattle.jxlm_bits.specs.Bits.{bytes_of, position_of};
ghost use Rattle.jxlm_bits.specs.Grammar.{IsExact, Reads, number};
ghost use Rattle.jxlm_weighted.specs.Inner.ListedWeights.{HasFactors, last_weights};
ghost use Rattle.jxlm_weighted.specs.SelfCorrecting.{IsHeader};
ghost use Rattle.jxlm_weighted.specs.WeightsHeader.{GivesExactly, listed_weights, wp_header};

use jxlm_bits::bits::{Bitstream, BitstreamError};
use jxlm_bits::error::Result;

/// The weights of the weighted (self-correcting) predictor (ISO/IEC 18181-1, Modular: the bundle WPHeader).
///
/// Of a header that was read, `wp_p1` to `wp_p3e` are at most 31 and `wp_w0` to `wp_w3` at most 15.
#[derive(Clone, Copy)]
pub struct WpHeader {
    /// Whether the weights are the default ones, which the header then does not list.
    pub default_wp: bool,
    /// How much the second sub-prediction heeds the true errors around.
    pub wp_p1: u32,
    /// The same of the third.
    pub wp_p2: u32,
    /// How much the fourth heeds the true error above left.
    pub wp_p3a: u32,
    /// The one above.
    pub wp_p3b: u32,
    /// The one above right.
    pub wp_p3c: u32,
    /// The change from above to two above.
    pub wp_p3d: u32,
    /// The change from left to above left.
    pub wp_p3e: u32,
    /// How much the first sub-prediction counts.
    pub wp_w0: u32,
    /// How much the second counts.
    pub wp_w1: u32,
    /// How much the third counts.
    pub wp_w2: u32,
    /// How much the fourth counts.
    pub wp_w3: u32,
}

impl Default for WpHeader {
    ghost use Rattle.std.specs.Prelude.{◌≡◌};
    ghost use Rattle.jxlm_weighted.specs.WeightsHeader.{default_weights};

    ghost is_default = { λ h. h ≡ default_weights };

    /// The default weights, those of a header that lists none: `default_wp` is true.
    fn default() -> WpHeader {
        WpHeader {
            default_wp: true,
            wp_p1: 16,
            wp_p2: 10,
            wp_p3a: 7,
            wp_p3b: 7,
            wp_p3c: 7,
            wp_p3d: 0,
            wp_p3e: 0,
            wp_w0: 13,
            wp_w1: 12,
            wp_w2: 12,
            wp_w3: 12,
        }
    }
}

impl WpHeader {
    /// Reads the weights at the reader's position: a flag and, where it is not set, seven numbers of 5 bits and four
    /// of 4 bits. Where it is set, the weights are the default ones.
    ///
    /// # Errors
    ///
    /// `UnexpectedEof` if the input is truncated: the reader is then after the last whole field.
    pub fn parse(bits: &mut Bitstream<'_>) -> Result<WpHeader>
        ensures gives { GivesExactly result (position_of bits.new)
            (wp_header.read (bytes_of bits.old) (position_of bits.old)) }
        ensures ranges { IfOk result (λ h. IsHeader h) }
        ensures bytes { bytes_of bits.new ≡ bytes_of bits.old }
    {
        if bits.read_bool()? {
            return Ok(WpHeader::default());
        }
        Ok(WpHeader::listed(bits)?)
    }

    fn field(bits: &mut Bitstream<'_>, n: u32) -> std::result::Result<u32, BitstreamError>
        requires { n ≤ 32 }
        ensures gives { Reads (λ v. v) result (position_of bits.new)
            ((number n).read (bytes_of bits.old) (position_of bits.old)) }
        ensures below { IfOk result (λ v. v < 2 ^ n) }
        ensures bytes { bytes_of bits.new ≡ bytes_of bits.old }
    {
        bits.read_bits(n)
    }

    fn listed(bits: &mut Bitstream<'_>) -> std::result::Result<WpHeader, BitstreamError>
        ensures gives { Reads (λ h. h) result (position_of bits.new)
            (listed_weights.read (bytes_of bits.old) (position_of bits.old)) }
        ensures ranges { IfOk result (λ h. IsHeader h) }
        ensures bytes { bytes_of bits.new ≡ bytes_of bits.old }
    {
        let first = WpHeader {
            default_wp: false,
            wp_p1: WpHeader::field(bits, 5)?,
            wp_p2: WpHeader::field(bits, 5)?,
            wp_p3a: WpHeader::field(bits, 5)?,
            wp_p3b: WpHeader::field(bits, 5)?,
            wp_p3c: WpHeader::field(bits, 5)?,
            wp_p3d: WpHeader::field(bits, 5)?,
            wp_p3e: WpHeader::field(bits, 5)?,
            wp_w0: 0,
            wp_w1: 0,
            wp_w2: 0,
            wp_w3: 0,
        };
        first.with_last_weights(bits)
    }

    // The header with its last four fields, which are read.
    fn with_last_weights(
        self,
        bits: &mut Bitstream<'_>,
    ) -> std::result::Result<WpHeader, BitstreamError>
        ensures gives { Reads (λ h. h) result (position_of bits.new)
            ((last_weights self).read (bytes_of bits.old) (position_of bits.old)) }
        ensures ranges { HasFactors self → IfOk result (λ h. IsHeader h) }
        ensures bytes { bytes_of bits.new ≡ bytes_of bits.old }
    {
        Ok(WpHeader {
            default_wp: self.default_wp,
            wp_p1: self.wp_p1,
            wp_p2: self.wp_p2,
            wp_p3a: self.wp_p3a,
            wp_p3b: self.wp_p3b,
            wp_p3c: self.wp_p3c,
            wp_p3d: self.wp_p3d,
            wp_p3e: self.wp_p3e,
            wp_w0: WpHeader::field(bits, 4)?,
            wp_w1: WpHeader::field(bits, 4)?,
            wp_w2: WpHeader::field(bits, 4)?,
            wp_w3: WpHeader::field(bits, 4)?,
        })
    }
}

/// The weights of a header are read exactly: the parser returns weights exactly if the bits at its
/// position code them.
pub fn weights_are_read_exactly()
    ensures { IsExact wp_header }
{}
