//! Red, green and blue as bytes.

ghost use Rattle.std.specs.Prelude.{◌≡◌, ◌↔◌, IfErr, IfOk, IsSome, IsTrue, length};
ghost use Rattle.std.specs.List.{All};
ghost use Rattle.std.specs.Option.{IfSome};
ghost use Rattle.jxl_modular.specs.Encoded.{EncodeFails, IsEncoded2, IsSmall};
ghost use Rattle.jxl_modular.specs.Regions.{store_meanings};
ghost use Rattle.check_examples.specs.Encoding.{gradient_leaf, ycocg};

use jxl_modular::Sample;
use jxl_modular::encode::{EncodeError, EncodeNode, EncodeTransform, encode2};
use jxl_modular::grid::AlignedGrid;
use jxl_modular::predictor::Predictor;
use std::alloc::Global;

// Whether no side is above 2^30, which the encoder asks for.
fn are_small<S: Sample>(channels: &[AlignedGrid<S>]) -> bool
    ensures { IsTrue result ↔ All IsSmall channels.now }
{
    channels.iter().all(|channel| channel.width() <= 1 << 30 && channel.height() <= 1 << 30)
}

/// Encodes red, green and blue in the second plain format: as brightness and two differences of colour, which are
/// predicted by the gradient of their neighbours. None if these are not three channels, or a side is above 2^30.
pub fn encode_colours<S: Sample>(
    alloc: Global,
    channels: &[AlignedGrid<S>],
) -> Result<Option<Vec<u8>>, EncodeError>
    ensures ok { IfOk result (λ coded. IfSome coded (λ bytes. IsEncoded2 ycocg gradient_leaf
        (store_meanings S.to_int channels.now) S.width bytes.items)) }
    ensures some { length channels.now ≡ 3 → All IsSmall channels.now → IfOk result (λ bytes. IsSome bytes) }
    ensures err { IfErr result (EncodeFails ycocg gradient_leaf (store_meanings S.to_int channels.now)) }
{
    if channels.len() != 3 || !are_small(channels) {
        return Ok(None);
    }
    let colours = EncodeTransform::Rct {
        begin_c: 0,
        rct_type: 6,
    };
    let leaf = EncodeNode::Leaf {
        predictor: Predictor::Gradient,
        offset: 0,
    };
    let bytes = encode2(alloc, channels, &[colours], &[leaf])?;
    Ok(Some(bytes))
}
