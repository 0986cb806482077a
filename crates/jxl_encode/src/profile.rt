//! A picture that gets a profile.

ghost use Rattle.std.specs.Prelude.{◌≡◌, Some};
ghost use Rattle.jxl_encode.specs.Codable.{IsCodable, IsCodableProfile};
ghost use Rattle.jxl_encode.specs.Profiles.{profile_colour as the_profile_colour, image_with_profile};
ghost use Rattle.jxl_image_header.specs.Images.{image_of};
ghost use Rattle.jxl_picture.specs.Pictures.{IsWhole};

use jxl_image_header::colour::{
    ColourEncoding, ColourSpace, Primaries, RenderingIntent, TransferFunction, WhitePoint,
};
use jxl_picture::picture::Picture;

/// Colours of this space that a profile describes. The header leaves out the other fields, which are as by default.
fn profile_colour(colour_space: ColourSpace) -> ColourEncoding
    ensures { result ≡ the_profile_colour colour_space }
{
    ColourEncoding {
        want_icc: true,
        colour_space,
        white_point: WhitePoint::D65,
        primaries: Primaries::Srgb,
        transfer_function: TransferFunction::Srgb,
        rendering_intent: RenderingIntent::Relative,
    }
}

/// The same samples, with colours that this profile describes.
pub fn with_profile(picture: Picture, icc: Vec<u8>) -> Picture
    ensures header { image_of result.header ≡ image_with_profile (image_of picture.header) }
    ensures channels { result.channels ≡ picture.channels }
    ensures profile { result.profile ≡ Some icc }
    ensures whole { IsWhole (image_of picture.header) picture.channels.items
        → IsWhole (image_of result.header) result.channels.items }
    ensures codable { IsCodable picture → IsCodableProfile icc.items → IsCodable result }
{
    let mut header = picture.header;
    header.colour_encoding = profile_colour(header.colour_encoding.colour_space);
    Picture {
        header,
        channels: picture.channels,
        profile: Some(icc),
    }
}
