//! Which headers the writer spells.

ghost use Rattle.std.specs.Prelude.{◌≡◌, true, if◌then◌else◌};
ghost use Rattle.std.specs.List.{list_all};
ghost use Rattle.std.specs.Option.{option_map_or};
ghost use Rattle.jxlm_bits.specs.declared.bits.U32Spec.TheVariants.{Const, Offset};
ghost use Rattle.jxlm_bit_writer.specs.Fields.{is_spelled as is_spelled_by};
ghost use Rattle.jxl_image_header.specs.Images.{image_of};
ghost use Rattle.jxl_image_header_write.specs.Writable.{is_size as the_is_size, is_animation as the_is_animation, is_coordinate as the_is_coordinate, is_chromaticity as the_is_chromaticity, is_depth as the_is_depth, is_channel as the_is_channel, is_white as known_white, is_usual_white as usual_white, are_primaries as known_primaries, is_usual_primaries as usual_primaries, is_function as known_function, is_usual_function as usual_function, is_usual_intent as usual_intent, is_unknown_space as unknown_space, is_colour as the_is_colour, is_tone as the_is_tone, is_writable as the_is_writable};

use crate::animation::is_animation;
use crate::size::is_size;
use jxl_image_header::channel::{BitDepth, ExtraChannel, ExtraChannelKind};
use jxl_image_header::colour::{
    Chromaticity, ColourEncoding, ColourSpace, Primaries, RenderingIntent, ToneMapping,
    TransferFunction, WhitePoint, is_positive, is_up_to, linear_limit,
};
use jxl_image_header::image::{Animation, ImageHeader};
use jxl_image_header::size::Size;
use jxlm_bit_writer::spelled::is_spelled;
use jxlm_bits::bits::U32Spec;

fn is_depth(depth: BitDepth) -> bool
    ensures { result ≡ the_is_depth depth }
{
    if depth.exp_bits == 0 {
        let spelled = is_spelled(
            U32Spec::Const(8),
            U32Spec::Const(10),
            U32Spec::Const(12),
            U32Spec::Offset(1, 6),
            depth.bits_per_sample,
        );
        return spelled && depth.bits_per_sample < 32;
    }
    let spelled = is_spelled(
        U32Spec::Const(32),
        U32Spec::Const(16),
        U32Spec::Const(24),
        U32Spec::Offset(1, 6),
        depth.bits_per_sample,
    );
    spelled && depth.is_float()
}

fn is_shift(shift: u32) -> bool
    ensures { result ≡ is_spelled_by (Const 0) (Const 3) (Const 4) (Offset 1 3) shift }
{
    is_spelled(
        U32Spec::Const(0),
        U32Spec::Const(3),
        U32Spec::Const(4),
        U32Spec::Offset(1, 3),
        shift,
    )
}

fn is_channel(channel: ExtraChannel) -> bool
    ensures { result ≡ the_is_channel channel }
{
    !matches!(channel.kind, ExtraChannelKind::SpotColour)
        && !matches!(channel.kind, ExtraChannelKind::Cfa)
        && is_depth(channel.bit_depth)
        && is_shift(channel.dim_shift)
        && channel.name_len == 0
        && (channel.kind.is_alpha() || !channel.alpha_associated)
}

fn are_channels(channels: &[ExtraChannel]) -> bool
    ensures { result ≡ list_all the_is_channel channels.now }
{
    for channel in channels {
        if !is_channel(*channel) {
            return false;
        }
    }
    true
}

fn is_coordinate(value: u32) -> bool
    ensures { result ≡ the_is_coordinate value }
{
    is_spelled(
        U32Spec::Offset(0, 19),
        U32Spec::Offset(524288, 19),
        U32Spec::Offset(1048576, 20),
        U32Spec::Offset(2097152, 21),
        value,
    )
}

fn is_chromaticity(point: Chromaticity) -> bool
    ensures { result ≡ the_is_chromaticity point }
{
    is_coordinate(point.x) && is_coordinate(point.y)
}

fn is_known_white(white: WhitePoint) -> bool
    ensures { result ≡ known_white white }
{
    match white {
        WhitePoint::D65 => true,
        WhitePoint::Custom(point) => is_chromaticity(point),
        WhitePoint::E => true,
        WhitePoint::Dci => true,
    }
}

fn is_usual_white(white: WhitePoint) -> bool
    ensures { result ≡ usual_white white }
{
    matches!(white, WhitePoint::D65)
}

fn are_known_primaries(primaries: Primaries) -> bool
    ensures { result ≡ known_primaries primaries }
{
    match primaries {
        Primaries::Srgb => true,
        Primaries::Custom(mixed) => {
            is_chromaticity(mixed.red)
                && is_chromaticity(mixed.green)
                && is_chromaticity(mixed.blue)
        }
        Primaries::Bt2100 => true,
        Primaries::P3 => true,
    }
}

fn is_usual_primaries(primaries: Primaries) -> bool
    ensures { result ≡ usual_primaries primaries }
{
    matches!(primaries, Primaries::Srgb)
}

fn is_known_function(function: TransferFunction) -> bool
    ensures { result ≡ known_function function }
{
    match function {
        TransferFunction::Gamma(exponent) => {
            exponent <= 10_000_000 && 10_000_000 <= 8192 * u64::from(exponent)
        }
        TransferFunction::Bt709 => true,
        TransferFunction::Linear => true,
        TransferFunction::Srgb => true,
        TransferFunction::Pq => true,
        TransferFunction::Dci => true,
        TransferFunction::Hlg => true,
    }
}

fn is_usual_function(function: TransferFunction) -> bool
    ensures { result ≡ usual_function function }
{
    matches!(function, TransferFunction::Srgb)
}

fn is_usual_intent(intent: RenderingIntent) -> bool
    ensures { result ≡ usual_intent intent }
{
    matches!(intent, RenderingIntent::Relative)
}

fn is_unknown_space(space: ColourSpace) -> bool
    ensures { result ≡ unknown_space space }
{
    matches!(space, ColourSpace::Unknown)
}

fn is_white(implicit: bool, white: WhitePoint) -> bool
    ensures { result ≡ (if implicit then usual_white white else known_white white) }
{
    if implicit {
        is_usual_white(white)
    } else {
        is_known_white(white)
    }
}

fn are_primaries(implicit: bool, primaries: Primaries) -> bool
    ensures { result ≡ (if implicit then usual_primaries primaries else known_primaries primaries) }
{
    if implicit {
        is_usual_primaries(primaries)
    } else {
        are_known_primaries(primaries)
    }
}

fn is_function(implicit: bool, function: TransferFunction) -> bool
    ensures { result ≡ (if implicit then usual_function function else known_function function) }
{
    if implicit {
        is_usual_function(function)
    } else {
        is_known_function(function)
    }
}

fn is_colour(colour: ColourEncoding) -> bool
    ensures { result ≡ the_is_colour colour }
{
    let profile = colour.want_icc;
    let grey = colour.colour_space.is_grey();
    let xyb = colour.colour_space.is_xyb();
    (profile || !is_unknown_space(colour.colour_space))
        && is_white(profile | xyb, colour.white_point)
        && are_primaries(profile | (grey | xyb), colour.primaries)
        && is_function(profile | xyb, colour.transfer_function)
        && (!profile || is_usual_intent(colour.rendering_intent))
}

fn is_size_if(preview: bool, size: Option<Size>) -> bool
    ensures { result ≡ option_map_or (the_is_size preview) size true }
{
    match size {
        Some(size) => is_size(preview, size),
        None => true,
    }
}

fn is_animation_if(animation: Option<Animation>) -> bool
    ensures { result ≡ option_map_or the_is_animation animation true }
{
    match animation {
        Some(animation) => is_animation(animation),
        None => true,
    }
}

fn is_tone(tone: ToneMapping) -> bool
    ensures { result ≡ the_is_tone tone }
{
    is_positive(tone.intensity_target)
        && is_up_to(tone.intensity_target, tone.min_nits)
        && is_up_to(
            linear_limit(tone.relative_to_max_display),
            tone.linear_below,
        )
}

/// Whether the writer spells a header.
pub fn is_writable(header: &ImageHeader) -> bool
    ensures { result ≡ the_is_writable (image_of header.now) }
{
    is_size(false, header.size)
        && 1 <= header.orientation
        && header.orientation <= 8
        && is_size_if(false, header.intrinsic_size)
        && is_size_if(true, header.preview)
        && is_animation_if(header.animation)
        && is_depth(header.bit_depth)
        && header.ec_info.len() <= 256
        && are_channels(&header.ec_info)
        && is_colour(header.colour_encoding)
        && is_tone(header.tone_mapping)
        && header.extensions == 0
}
