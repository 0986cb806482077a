//! The words for what headers say.

ghost use Rattle.std.specs.Prelude.{◌≡◌};
ghost use Rattle.jxl_info.specs.Names.{kind_name as the_kind_name, orientation_name as the_orientation_name, space_name as the_space_name, intent_name as the_intent_name};

use jxl_image_header::channel::ExtraChannelKind;
use jxl_image_header::colour::{ColourSpace, RenderingIntent};

/// A kind of extra channels.
#[tactic(auto, unfolding(crate::specs::Names::kind_name))]
pub fn kind_name(kind: ExtraChannelKind) -> &'static str
    ensures { result.now ≡ the_kind_name kind }
{
    match kind {
        ExtraChannelKind::Alpha => "Alpha",
        ExtraChannelKind::Depth => "Depth",
        ExtraChannelKind::SpotColour => "Spotcolor",
        ExtraChannelKind::SelectionMask => "Selection",
        ExtraChannelKind::Black => "Black",
        ExtraChannelKind::Cfa => "CFA",
        ExtraChannelKind::Thermal => "Thermal",
        ExtraChannelKind::Unknown => "Unknown",
        ExtraChannelKind::Optional => "Optional",
    }
}

/// How a picture is turned or mirrored.
#[tactic(auto, unfolding(crate::specs::Names::orientation_name))]
pub fn orientation_name(orientation: u32) -> &'static str
    ensures { result.now ≡ the_orientation_name orientation }
{
    match orientation {
        1 => "Normal",
        2 => "Flipped horizontally",
        3 => "Upside down",
        4 => "Flipped vertically",
        5 => "Transposed",
        6 => "90 degrees clockwise",
        7 => "Anti-Transposed",
        _ => "90 degrees counter-clockwise",
    }
}

/// A colour space.
#[tactic(auto, unfolding(crate::specs::Names::space_name))]
pub fn space_name(space: ColourSpace) -> &'static str
    ensures { result.now ≡ the_space_name space }
{
    match space {
        ColourSpace::Rgb => "RGB",
        ColourSpace::Grey => "Grayscale",
        ColourSpace::Xyb => "XYB",
        ColourSpace::Unknown => "Unknown",
    }
}

/// How colours outside a range are shown.
#[tactic(auto, unfolding(crate::specs::Names::intent_name))]
pub fn intent_name(intent: RenderingIntent) -> &'static str
    ensures { result.now ≡ the_intent_name intent }
{
    match intent {
        RenderingIntent::Perceptual => "Perceptual",
        RenderingIntent::Relative => "Relative",
        RenderingIntent::Saturation => "Saturation",
        RenderingIntent::Absolute => "Absolute",
    }
}
