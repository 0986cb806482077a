//! An image encoded, and decoded again.

ghost use Rattle.std.specs.Prelude.{◌≡◌, ◌≢◌, ◌≤◌, ◌^◌, [], IfOk, IfErr, None, length, map};
ghost use Rattle.std.specs.List.{All};
ghost use Rattle.jxlm_bits.specs.ErrorKind.{kind_of};
ghost use Rattle.jxlm_base.specs.Regions.{store_meanings};
ghost use Rattle.jxlm_transform.specs.Channels.{image_list};
ghost use Rattle.jxlm_transform.specs.Params.{IsGroupDim, IsValidChannel, params_of as given_params};
ghost use Rattle.jxlm_encode_write.specs.Headers.{transform_of};
ghost use Rattle.jxlm_plain.specs.Plain.{plain, plain2};
ghost use Rattle.jxlm_encode.specs.Bytes.{AreBytesOf, AreBytesOf2};
ghost use Rattle.jxlm_encode.specs.Encoded.{IsSmall, given_list};
ghost use Rattle.jxlm_encode_roundtrip.specs.Inner.Decoded.{IsDecoded, IsNotDecoded};
ghost use Rattle.jxlm_encode_roundtrip.specs.RoundTrip.{IsReadBack, RoundTripFails};

use jxl_modular::decode_picture;
use jxlm_base::grid::{AlignedGrid, OutOfMemory};
use jxlm_base::sample::Sample;
use jxlm_bits::bits::Bitstream;
use jxlm_bits::decoder::Decoder;
use jxlm_bits::error::Error;
use jxlm_encode::encode::{EncodeError, EncodeNode, EncodeTransform, encode, encode2};
use jxlm_plain::plain::PlainDecoder;
use jxlm_plain::plain2::PlainDecoder2;
use jxlm_transform::param::{ModularChannelParams, ModularParams};
use jxlm_tree::flat::Steps;
use jxlm_tree::ma::each_tree_is_read_exactly;
use std::alloc::Global;

/// Why an image did not come back.
#[derive(Clone, Copy, Debug, PartialEq, Eq, thiserror::Error)]
pub enum RoundTripError {
    /// It is not encoded.
    #[error("{0}")]
    Encode(EncodeError),
    /// What was encoded is not decoded: for want of memory, and for nothing else.
    #[error("{0}")]
    Decode(Error),
}

impl From<EncodeError> for RoundTripError {
    ghost use Rattle.jxlm_encode_roundtrip.specs.declared.roundtrip.RoundTripError.TheVariants.{Encode};

    ghost from_gives = { λ error e. e ≡ Encode error };

    fn from(error: EncodeError) -> RoundTripError {
        RoundTripError::Encode(error)
    }
}

/// The channels that grids of these sizes have in an image.
fn params_of<S: Sample>(
    alloc: Global,
    grids: &[AlignedGrid<S>],
) -> Result<Vec<ModularChannelParams>, OutOfMemory>
    requires { All IsSmall grids.now }
    ensures list { IfOk result (λ v. image_list v.items ≡ given_list (store_meanings S.to_int grids.now)) }
    ensures valid { IfOk result (λ v. All IsValidChannel v.items) }
    ensures count { IfOk result (λ v. length v.items ≡ length grids.now) }
{
    let mut params = Vec::new(alloc);
    for grid in grids {
        params.push(ModularChannelParams::new(grid.width() as u32, grid.height() as u32))?;
    }
    Ok(params)
}

/// Parameters of these channels, without a global tree.
fn without_tree<'a, D: Decoder>(
    group_dim: u32,
    bit_depth: u32,
    channels: Vec<ModularChannelParams>,
) -> ModularParams<'a, D>
    ensures { result ≡ given_params group_dim bit_depth channels None }
{
    ModularParams::with_channels(group_dim, bit_depth, channels, None)
}

/// The picture that stands at the start of the bytes, of the channels of these grids.
fn decoded<S: Sample, D: Decoder>(
    alloc: Global,
    bytes: &[u8],
    grids: &[AlignedGrid<S>],
    group_dim: u32,
    bit_depth: u32,
) -> Result<Vec<AlignedGrid<S>>, Error>
    requires sides { All IsSmall grids.now }
    requires count { length grids.now ≤ 2 ^ 20 }
    requires group { IsGroupDim group_dim }
    requires deep { bit_depth ≤ 32 }
    ensures ok { IfOk result (λ v. IsDecoded D.meaning S.width bytes.now bit_depth (store_meanings S.to_int grids.now)
        (store_meanings S.to_int v.items)) }
    ensures err { IfErr result (λ e. IsNotDecoded D.meaning S.width bytes.now (store_meanings S.to_int grids.now)
        (kind_of e)) }
{
    let list = params_of(alloc, grids)?;
    let params = without_tree(group_dim, bit_depth, list);
    let mut bits = Bitstream::new(bytes);
    let image = decode_picture::<S, D>(alloc, &mut bits, params, 0, &mut Steps::new())?;
    match image {
        Some(image) => Ok(image.into_image_channels()),
        None => Ok(Vec::new(alloc)),
    }
}

/// Encodes an image by [`encode`], decodes the bytes that were written, and returns the picture that stands in them:
/// the image itself, whatever the side of groups and the bit depth that it is read by.
///
/// No side of a channel is above 2^30, and there are at most 2^20 channels.
///
/// # Errors
///
/// That of [`encode`], or out of memory while it is decoded.
pub fn encode_and_decode<S: Sample>(
    alloc: Global,
    channels: &[AlignedGrid<S>],
    transforms: &[EncodeTransform],
    tree: &[EncodeNode],
    group_dim: u32,
    bit_depth: u32,
) -> Result<Vec<AlignedGrid<S>>, RoundTripError>
    requires sides { All IsSmall channels.now }
    requires count { length channels.now ≤ 2 ^ 20 }
    requires group { IsGroupDim group_dim }
    requires deep { bit_depth ≤ 32 }
    ensures read { channels.now ≢ [] → IfOk result (λ v. IsReadBack plain
        (AreBytesOf (map transform_of transforms.now) tree.now (store_meanings S.to_int channels.now))
        S.width (store_meanings S.to_int channels.now) bit_depth (store_meanings S.to_int v.items)) }
    ensures same { IfOk result (λ v. v.items ≡ channels.now) }
    ensures err { IfErr result (λ e. RoundTripFails (map transform_of transforms.now) tree.now
        (store_meanings S.to_int channels.now) e) }
{
    let bytes = encode(alloc, channels, transforms, tree)?;
    each_tree_is_read_exactly::<PlainDecoder>();
    match decoded::<S, PlainDecoder>(alloc, &bytes, channels, group_dim, bit_depth) {
        Ok(grids) => Ok(grids),
        Err(error) => Err(RoundTripError::Decode(error)),
    }
}

/// The same in the second plain format: by [`encode2`], and read by its decoder.
pub fn encode_and_decode2<S: Sample>(
    alloc: Global,
    channels: &[AlignedGrid<S>],
    transforms: &[EncodeTransform],
    tree: &[EncodeNode],
    group_dim: u32,
    bit_depth: u32,
) -> Result<Vec<AlignedGrid<S>>, RoundTripError>
    requires sides { All IsSmall channels.now }
    requires count { length channels.now ≤ 2 ^ 20 }
    requires group { IsGroupDim group_dim }
    requires deep { bit_depth ≤ 32 }
    ensures read { channels.now ≢ [] → IfOk result (λ v. IsReadBack plain2
        (AreBytesOf2 (map transform_of transforms.now) tree.now (store_meanings S.to_int channels.now))
        S.width (store_meanings S.to_int channels.now) bit_depth (store_meanings S.to_int v.items)) }
    ensures same { IfOk result (λ v. v.items ≡ channels.now) }
    ensures err { IfErr result (λ e. RoundTripFails (map transform_of transforms.now) tree.now
        (store_meanings S.to_int channels.now) e) }
{
    let bytes = encode2(alloc, channels, transforms, tree)?;
    each_tree_is_read_exactly::<PlainDecoder2>();
    match decoded::<S, PlainDecoder2>(alloc, &bytes, channels, group_dim, bit_depth) {
        Ok(grids) => Ok(grids),
        Err(error) => Err(RoundTripError::Decode(error)),
    }
}
