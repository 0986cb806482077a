//! The text of a picture, from its bytes.
ghost use Rattle.std.specs.Prelude.{◌≡◌, ◌≤◌, ◌<◌, ◌^◌, pos, MatchResult, IfOk, None, replicate, string_bytes};
ghost use Rattle.jxlm_transform.specs.Params.{IsGroupDim, params_of, channel_params};
ghost use Rattle.jxlm_transform.specs.declared.param.ChannelShift.TheVariants.{Shifts};
ghost use Rattle.jxlmod_commands.specs.Arguments.{ArePossible};
ghost use Rattle.jxlmod_commands.specs.Channels.{channels_asked};
ghost use Rattle.jxlmod_commands.specs.PictureText.{IsCutPictureText, IsPictureText};
ghost use Rattle.jxlmod_commands.specs.Printed.{IsCutPictureError, IsPictureError};

use jxl_modular::decode_picture;
use jxl_text::printing::print_image;
use jxlm_base::grid::OutOfMemory;
use jxlm_base::sample::Sample;
use jxlm_bits::bits::Bitstream;
use jxlm_bits::decoder::Decoder;
use jxlm_bits::error::Error;
use jxlm_section_split::decode_cut_picture;
use jxlm_transform::param::{ModularChannelParams, ModularParams};
use jxlm_tree::flat::Steps;
use std::alloc::Global;

/// The side of a group of the pictures that are printed.
const GROUP_DIM: u32 = 256;

/// `count` channels of these sides and of shift 0.
fn channel_list(
    alloc: Global,
    width: u32,
    height: u32,
    count: u32,
) -> Result<Vec<ModularChannelParams>, OutOfMemory>
    ensures { IfOk result (λ v. v.items ≡ replicate count (channel_params width height (Shifts 0))) }
{
    let channel = ModularChannelParams::new(width, height);
    Ok(vec![in alloc; channel; count as usize]?)
}

/// Parameters of these channels, without a global tree.
pub fn without_tree<'a, D: Decoder>(
    group_dim: u32,
    bit_depth: u32,
    channels: Vec<ModularChannelParams>,
) -> ModularParams<'a, D>
    ensures { result ≡ params_of group_dim bit_depth channels None }
{
    ModularParams::with_channels(group_dim, bit_depth, channels, None)
}

/// The text of the picture of `channels` channels of these sides, by the format of a decoder.
pub(crate) fn picture_text<S: Sample, D: Decoder>(
    alloc: Global,
    bytes: &[u8],
    width: u32,
    height: u32,
    channels: u32,
    bit_depth: u32,
) -> Result<String, Error>
    requires some { 0 < channels }
    requires many { channels ≤ 2 ^ 20 }
    requires deep { bit_depth ≤ 32 }
    requires wide { width ≤ 2 ^ 30 }
    requires high { height ≤ 2 ^ 30 }
    ensures { MatchResult result
        (λ text. IsPictureText D.meaning S.width width height channels bytes.now bit_depth (string_bytes text))
        (λ error. IsPictureError D.meaning S.width width height channels bytes.now error) }
{
    let channels = channel_list(alloc, width, height, channels)?;
    let params = without_tree(GROUP_DIM, bit_depth, channels);
    let mut bits = Bitstream::new(bytes);
    let image = decode_picture::<S, D>(alloc, &mut bits, params, 0, &mut Steps::new())?;
    match image {
        Some(image) => Ok(print_image(alloc, image.image_channels())?),
        None => Ok(String::new(alloc)),
    }
}

/// The text of the picture of `channels` channels of these sides that is cut into sections, with groups of this side.
pub(crate) fn cut_picture_text<S: Sample, D: Decoder>(
    alloc: Global,
    bytes: &[u8],
    width: u32,
    height: u32,
    channels: u32,
    bit_depth: u32,
    group_dim: u32,
) -> Result<String, Error>
    requires some { 0 < channels }
    requires possible { ArePossible width height channels bit_depth }
    requires side { IsGroupDim group_dim }
    ensures { MatchResult result
        (λ text. IsCutPictureText D.meaning S.width (channels_asked width height channels) group_dim bit_depth bytes.now
        (string_bytes text))
        (λ error. IsCutPictureError D.meaning S.width S.to_int (S.from_int (pos 0))
        (channels_asked width height channels) group_dim bit_depth bytes.now error) }
{
    let channels = channel_list(alloc, width, height, channels)?;
    let params = without_tree(group_dim, bit_depth, channels);
    let image = decode_cut_picture::<S, D>(alloc, bytes, params, &mut Steps::new())?;
    match image {
        Some(image) => Ok(print_image(alloc, image.image_channels())?),
        None => Ok(String::new(alloc)),
    }
}
