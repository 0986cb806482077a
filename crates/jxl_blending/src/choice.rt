//! How each channel of a frame is blended, by the headers.

ghost use Rattle.std.specs.Prelude.{◌≡◌};
ghost use Rattle.jxl_image_header.specs.Images.{image_of};
ghost use Rattle.jxl_blending.specs.Choices.{alpha_blending, colour_blending, colour_kind as the_colour_kind, extra_blending, extra_clamp as the_extra_clamp, extra_kind as the_extra_kind, extra_scale as the_extra_scale, is_fine as the_is_fine, is_premultiplied as the_is_premultiplied, one_of as the_one_of, over_kind as the_over_kind, sample_scale as the_sample_scale, scale_of as the_scale_of};

use crate::blending::{BlendKind, ChannelBlending};
use crate::scale::Scale;
use jxl_frame_header::blending::{BlendMode, BlendingInfo};
use jxl_image_header::channel::BitDepth;
use jxl_image_header::image::ImageHeader;
use jxl_picture::picture::has_alpha;

// The sample that stands for 1. A depth has at most 32 bits.
fn one_of(depth: BitDepth) -> u32
    ensures { result ≡ the_one_of depth }
{
    ((1u64 << depth.bits_per_sample.min(32)) - 1) as u32
}

// Whether samples are rounded only once as they are loaded: where the colours have 23 bits or more.
fn is_fine(image: &ImageHeader) -> bool
    ensures { result ≡ the_is_fine (image_of image.now) }
{
    image.bit_depth.bits_per_sample >= 23
}

// What samples of a depth stand for.
fn scale_of(depth: BitDepth, fine: bool) -> Scale
    ensures { result ≡ the_scale_of depth fine }
{
    if depth.exp_bits != 0 {
        Scale::Floats
    } else if fine {
        Scale::Fine(one_of(depth))
    } else {
        Scale::coarse(one_of(depth))
    }
}

// The same of an extra channel; of no bits if there is no such channel.
fn extra_scale(image: &ImageHeader, channel: usize) -> Scale
    ensures { result ≡ the_extra_scale (image_of image.now) channel }
{
    match image.ec_info.get(channel) {
        Some(channel) => scale_of(channel.bit_depth, is_fine(image)),
        None => Scale::Fine(0),
    }
}

/// What the samples of a channel stand for, after this number of colours.
pub fn sample_scale(image: &ImageHeader, colours: usize, channel: usize) -> Scale
    ensures { result ≡ the_sample_scale (image_of image.now) colours channel }
{
    if channel < colours {
        scale_of(image.bit_depth, is_fine(image))
    } else {
        extra_scale(image, channel - colours)
    }
}

// Whether samples were multiplied by the alpha of an extra channel before they were coded.
fn is_premultiplied(image: &ImageHeader, channel: u32) -> bool
    ensures { result ≡ the_is_premultiplied (image_of image.now) channel }
{
    match image.ec_info.get(channel as usize) {
        Some(channel) => channel.alpha_associated,
        None => false,
    }
}

// Samples over others.
fn over_kind(premultiplied: bool) -> BlendKind
    ensures { result ≡ the_over_kind premultiplied }
{
    if premultiplied {
        BlendKind::OverPremultiplied
    } else {
        BlendKind::Over
    }
}

// The kind of a mode of colours.
fn colour_kind(mode: BlendMode, alpha: bool, premultiplied: bool) -> BlendKind
    ensures { result ≡ the_colour_kind mode alpha premultiplied }
{
    match mode {
        BlendMode::Replace => BlendKind::Replace,
        BlendMode::Add => BlendKind::Add,
        BlendMode::Blend => {
            if alpha {
                over_kind(premultiplied)
            } else {
                BlendKind::Replace
            }
        }
        BlendMode::MulAdd => {
            if alpha {
                BlendKind::AddByAlpha
            } else {
                BlendKind::Add
            }
        }
        BlendMode::Mul => BlendKind::Multiply,
    }
}

// The kind of a mode of an extra channel, which may be the alpha that the mode takes.
fn extra_kind(mode: BlendMode, own: bool, premultiplied: bool) -> BlendKind
    ensures { result ≡ the_extra_kind mode own premultiplied }
{
    match mode {
        BlendMode::Replace => BlendKind::Replace,
        BlendMode::Add => BlendKind::Add,
        BlendMode::Blend => {
            if own {
                BlendKind::Alpha
            } else {
                over_kind(premultiplied)
            }
        }
        BlendMode::MulAdd => {
            if own {
                BlendKind::Keep
            } else {
                BlendKind::AddByAlpha
            }
        }
        BlendMode::Mul => BlendKind::Multiply,
    }
}

// Whether the factor of an extra channel is clamped. libjxl exchanges the two where a channel is blended by alpha.
fn extra_clamp(mode: BlendMode, clamp: bool) -> bool
    ensures { result ≡ the_extra_clamp mode clamp }
{
    match mode {
        BlendMode::Blend => !clamp,
        _ => clamp,
    }
}

impl ChannelBlending {
    /// How the colours of a frame are blended. Without an alpha channel they replace others where they would be blended
    /// by alpha, and are added where they would be added by alpha.
    pub fn of_colours(image: &ImageHeader, info: BlendingInfo) -> ChannelBlending
        ensures { result ≡ colour_blending (image_of image.now) info }
    {
        let premultiplied = is_premultiplied(image, info.alpha_channel);
        ChannelBlending {
            kind: colour_kind(info.mode, has_alpha(image), premultiplied),
            samples: scale_of(image.bit_depth, is_fine(image)),
            alpha: extra_scale(image, info.alpha_channel as usize),
            clamp: info.clamp,
        }
    }

    /// How the extra channel of this number is blended.
    pub fn of_extra(image: &ImageHeader, info: BlendingInfo, channel: usize) -> ChannelBlending
        ensures { result ≡ extra_blending (image_of image.now) info channel }
    {
        let premultiplied = is_premultiplied(image, info.alpha_channel);
        let own = channel == info.alpha_channel as usize;
        ChannelBlending {
            kind: extra_kind(info.mode, own, premultiplied),
            samples: extra_scale(image, channel),
            alpha: extra_scale(image, info.alpha_channel as usize),
            clamp: extra_clamp(info.mode, info.clamp),
        }
    }

    /// How the extra channel of this number is blended that is the alpha by which colours are.
    pub fn of_alpha(image: &ImageHeader, info: BlendingInfo, channel: usize) -> ChannelBlending
        ensures { result ≡ alpha_blending (image_of image.now) info channel }
    {
        ChannelBlending {
            kind: BlendKind::Alpha,
            samples: extra_scale(image, channel),
            alpha: extra_scale(image, channel),
            clamp: info.clamp,
        }
    }
}
