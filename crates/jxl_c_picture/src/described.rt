//! The image header of a picture that a caller describes.

ghost use Rattle.std.specs.Prelude.{◌≡◌, IfErr, IfOk, IfSome, is_some, false, if◌then◌else◌};
ghost use Rattle.std.specs.List.{AllZip, list_all};
ghost use Rattle.jxl_image_header.specs.Colours.{is_grey};
ghost use Rattle.jxl_image_header.specs.Images.{image_of};
ghost use Rattle.jxl_c_picture.specs.Described.{AreColoursOf, IsDescribed, IsExtraOf};
ghost use Rattle.jxl_c_picture.specs.Meanings.{are_colours, has_meaning, is_encoding, is_extra};
ghost use Rattle.jxl_c_picture.specs.Narrow.{is_narrow as the_narrow, is_shallow as the_shallow, is_small};

use crate::channels::CChannel;
use crate::info::CInfo;
use crate::meanings::{intent_of, kind_of, primaries_of, space_of, transfer_of, white_of};
use jxl_image_header::channel::{BitDepth, ExtraChannel};
use jxl_image_header::colour::{ColourEncoding, ToneMapping};
use jxl_image_header::image::ImageHeader;
use jxl_image_header::size::Size;
use std::alloc::{AllocFailed, Global};

/// Why there is no image header of a description.
#[derive(Clone, Copy, Debug, PartialEq, Eq)]
pub enum DescriptionError {
    /// A number names nothing.
    Meaningless,
    /// Out of memory.
    OutOfMemory,
}

impl<T: Drop> From<AllocFailed<T>> for DescriptionError {
    ghost use Rattle.jxl_c_picture.specs.declared.described.DescriptionError.TheVariants.{OutOfMemory as Memory};

    ghost from_gives = { λ _ e. e ≡ Memory };

    fn from(_error: AllocFailed<T>) -> DescriptionError {
        DescriptionError::OutOfMemory
    }
}

fn extra_channel(channel: &CChannel) -> Option<ExtraChannel>
    ensures names { IfSome result (IsExtraOf channel.now) }
    ensures known { is_some result ≡ is_extra channel.now }
{
    if channel.associated > 1 {
        return None;
    }
    let kind = kind_of(channel.kind)?;
    Some(ExtraChannel {
        kind,
        bit_depth: BitDepth {
            bits_per_sample: channel.bits,
            exp_bits: channel.exponent_bits,
        },
        dim_shift: channel.shift,
        name_len: 0,
        alpha_associated: channel.associated == 1,
    })
}

fn extra_channels(alloc: Global, extra: &[CChannel]) -> Result<Vec<ExtraChannel>, DescriptionError>
    ensures ok { IfOk result (λ v. AllZip IsExtraOf extra.now v.items) }
    ensures err { IfErr result (λ e. e ≡ DescriptionError.Meaningless → list_all is_extra extra.now ≡ false) }
{
    let mut channels = Vec::new(alloc);
    for channel in extra {
        let Some(found) = extra_channel(channel) else {
            return Err(DescriptionError::Meaningless);
        };
        channels.push(found)?;
    }
    Ok(channels)
}

// What colours mean, by the numbers of a caller.
fn encoding_of(info: &CInfo) -> Option<ColourEncoding>
    ensures names { IfSome result (AreColoursOf info.now) }
    ensures known { is_some result ≡ is_encoding info.now }
{
    let colour_space = space_of(info.space)?;
    let white_point = white_of(info.white)?;
    let primaries = primaries_of(info.primaries)?;
    let transfer_function = transfer_of(info.transfer, info.gamma)?;
    let rendering_intent = intent_of(info.intent)?;
    Some(ColourEncoding {
        want_icc: info.profile != 0,
        colour_space,
        white_point,
        primaries,
        transfer_function,
        rendering_intent,
    })
}

// The same, if there are as many channels of colours as that needs.
fn colours_of(info: &CInfo) -> Option<ColourEncoding>
    ensures names { IfSome result (AreColoursOf info.now) }
    ensures count { IfSome result (λ c. (if is_grey c.colour_space then 1 else 3) ≡ info.now.colours) }
    ensures known { is_some result ≡ are_colours info.now }
{
    let encoding = encoding_of(info)?;
    let count = if encoding.colour_space.is_grey() {
        1
    } else {
        3
    };
    if info.colours != count {
        return None;
    }
    Some(encoding)
}

/// The image header of a picture that a caller describes; `narrow` says whether 16 bits are enough for each number while
/// it is decoded.
///
/// # Errors
///
/// `Meaningless` where a number names nothing, `OutOfMemory`.
pub fn header_of(
    alloc: Global,
    info: &CInfo,
    extra: &[CChannel],
    narrow: bool,
) -> Result<ImageHeader, DescriptionError>
    ensures ok { IfOk result (λ header. IsDescribed info.now extra.now (image_of header)) }
    ensures narrow { IfOk result (λ header. header.modular_16bit_buffers ≡ narrow) }
    ensures err { IfErr result (λ e. e ≡ DescriptionError.Meaningless → has_meaning info.now extra.now ≡ false) }
{
    let Some(colour_encoding) = colours_of(info) else {
        return Err(DescriptionError::Meaningless);
    };
    let ec_info = extra_channels(alloc, extra)?;
    Ok(ImageHeader {
        size: Size {
            width: info.width,
            height: info.height,
        },
        orientation: 1,
        intrinsic_size: None,
        preview: None,
        animation: None,
        bit_depth: BitDepth {
            bits_per_sample: info.bits,
            exp_bits: info.exponent_bits,
        },
        modular_16bit_buffers: narrow,
        ec_info,
        xyb_encoded: false,
        colour_encoding,
        tone_mapping: ToneMapping {
            intensity_target: 0x5BF8,
            min_nits: 0,
            relative_to_max_display: false,
            linear_below: 0,
        },
        extensions: 0,
    })
}

// Whether a depth is of whole numbers of at most 12 bits.
fn is_shallow(bits: u32, exponent_bits: u32) -> bool
    ensures { result ≡ the_shallow bits exponent_bits }
{
    exponent_bits == 0 && bits <= 12
}

// Whether all depths of extra channels are of whole numbers of at most 12 bits.
fn are_shallow(extra: &[CChannel]) -> bool
    ensures { result ≡ list_all (λ c. the_shallow c.bits c.exponent_bits) extra.now }
{
    extra
        .iter()
        .all(|channel| is_shallow(channel.bits, channel.exponent_bits))
}

// Whether all samples are of at most 12 bits.
fn are_small(samples: &[i32]) -> bool
    ensures { result ≡ list_all is_small samples.now }
{
    samples.iter().all(|sample| 0 <= *sample && *sample < 4096)
}

/// Whether 16 bits are enough for each number while the picture is decoded: depths and samples are of at most 12 bits.
pub fn is_narrow(info: &CInfo, extra: &[CChannel], samples: &[i32]) -> bool
    ensures { result ≡ the_narrow info.now extra.now samples.now }
{
    is_shallow(info.bits, info.exponent_bits) && are_shallow(extra) && are_small(samples)
}
