//! The bytes of an image, and of an image's text.
ghost use Rattle.std.specs.Prelude.{◌≡◌, ◌≢◌, ◌≤◌, ◌^◌, [], IfOk, IfErr, IsOk, MatchResult, length};
ghost use Rattle.std.specs.List.{All};
ghost use Rattle.jxlm_base.specs.Regions.{store_meanings};
ghost use Rattle.jxlm_encode.specs.Encoded.{EncodeFails, IsSmall};
ghost use Rattle.jxlmod_commands.specs.Encoding.{IsEncodedIn, IsEncodedText, EncodingFails, gradient_tree};

use crate::arguments::Format;
use crate::refusal::Refusal;
use jxl_text::reading::read_image;
use jxlm_base::grid::AlignedGrid;
use jxlm_base::sample::Sample;
use jxlm_encode::encode::{EncodeError, EncodeNode, encode, encode2};
use jxlm_plain::plain::PlainDecoder;
use jxlm_plain::plain2::PlainDecoder2;
use jxlm_predictor::predictor::Predictor;
use jxlm_tree::ma::each_tree_is_read_exactly;
use std::alloc::Global;

/// Encodes an image in a format, with no transform and a tree of one leaf, which predicts by `Gradient`. No channels have
/// no bytes.
pub fn encode_image<S: Sample>(
    alloc: Global,
    channels: &[AlignedGrid<S>],
    format: Format,
) -> Result<Vec<u8>, EncodeError>
    requires sides { All IsSmall channels.now }
    requires count { length channels.now ≤ 2 ^ 20 }
    ensures none { channels.now ≡ [] → IsOk result × IfOk result (λ v. v.items ≡ []) }
    ensures some { channels.now ≢ []
        → IfOk result (λ v. IsEncodedIn format (store_meanings S.to_int channels.now) S.width v.items) }
    ensures err { IfErr result (λ e. EncodeFails [] gradient_tree (store_meanings S.to_int channels.now) e) }
{
    let leaf = EncodeNode::Leaf {
        predictor: Predictor::Gradient,
        offset: 0,
    };
    match format {
        Format::First => encode(alloc, channels, &[], &[leaf]),
        Format::Second => encode2(alloc, channels, &[], &[leaf]),
    }
}

/// Encodes the image whose text this is, as `encode_image` does: what is written is a picture of it, at any bit depth.
pub(crate) fn encode_text<S: Sample>(
    alloc: Global,
    text: &[u8],
    format: Format,
) -> Result<Vec<u8>, Refusal>
    ensures { MatchResult result
        (λ v. IsEncodedText format S.width text.now v.items)
        (λ e. EncodingFails S.width text.now e) }
{
    let channels = read_image::<S>(alloc, text)?;
    each_tree_is_read_exactly::<PlainDecoder>();
    each_tree_is_read_exactly::<PlainDecoder2>();
    Ok(encode_image(alloc, &channels, format)?)
}
