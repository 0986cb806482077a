//! The numbers by which C knows what a header names.

ghost use Rattle.std.specs.Prelude.{◌≡◌};
ghost use Rattle.jxl_c_picture.specs.Numbers.{gamma_of as the_gamma, intent_number as the_intent, kind_number as the_kind, primaries_number as the_primaries, space_number as the_space, transfer_number as the_transfer, white_number as the_white};

use jxl_image_header::channel::ExtraChannelKind;
use jxl_image_header::colour::{
    ColourSpace, Primaries, RenderingIntent, TransferFunction, WhitePoint,
};

/// The number of a colour space: that of the image header.
pub fn space_number(space: ColourSpace) -> u32
    ensures { result ≡ the_space space }
{
    match space {
        ColourSpace::Rgb => 0,
        ColourSpace::Grey => 1,
        ColourSpace::Xyb => 2,
        ColourSpace::Unknown => 3,
    }
}

/// The number of a white point: that of the image header, 2 for one by its coordinates.
pub fn white_number(white: WhitePoint) -> u32
    ensures { result ≡ the_white white }
{
    match white {
        WhitePoint::D65 => 1,
        WhitePoint::Custom(_) => 2,
        WhitePoint::E => 10,
        WhitePoint::Dci => 11,
    }
}

/// The number of primaries: that of the image header, 2 for those by their coordinates.
pub fn primaries_number(primaries: Primaries) -> u32
    ensures { result ≡ the_primaries primaries }
{
    match primaries {
        Primaries::Srgb => 1,
        Primaries::Custom(_) => 2,
        Primaries::Bt2100 => 9,
        Primaries::P3 => 11,
    }
}

/// The number of a transfer function: that of the image header, 0 for one by its exponent.
pub fn transfer_number(function: TransferFunction) -> u32
    ensures { result ≡ the_transfer function }
{
    match function {
        TransferFunction::Gamma(_) => 0,
        TransferFunction::Bt709 => 1,
        TransferFunction::Linear => 8,
        TransferFunction::Srgb => 13,
        TransferFunction::Pq => 16,
        TransferFunction::Dci => 17,
        TransferFunction::Hlg => 18,
    }
}

/// The exponent, or 0 for a curve.
pub fn gamma_of(function: TransferFunction) -> u32
    ensures { result ≡ the_gamma function }
{
    match function {
        TransferFunction::Gamma(gamma) => gamma,
        _ => 0,
    }
}

/// The number of a rendering intent: that of the image header.
pub fn intent_number(intent: RenderingIntent) -> u32
    ensures { result ≡ the_intent intent }
{
    match intent {
        RenderingIntent::Perceptual => 0,
        RenderingIntent::Relative => 1,
        RenderingIntent::Saturation => 2,
        RenderingIntent::Absolute => 3,
    }
}

/// The number of a kind of extra channel: that of the image header.
pub fn kind_number(kind: ExtraChannelKind) -> u32
    ensures { result ≡ the_kind kind }
{
    match kind {
        ExtraChannelKind::Alpha => 0,
        ExtraChannelKind::Depth => 1,
        ExtraChannelKind::SpotColour => 2,
        ExtraChannelKind::SelectionMask => 3,
        ExtraChannelKind::Black => 4,
        ExtraChannelKind::Cfa => 5,
        ExtraChannelKind::Thermal => 6,
        ExtraChannelKind::Unknown => 15,
        ExtraChannelKind::Optional => 16,
    }
}
