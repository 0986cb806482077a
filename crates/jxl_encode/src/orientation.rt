//! A picture that gets an orientation.

ghost use Rattle.std.specs.Prelude.{◌≡◌, ◌≤◌};
ghost use Rattle.jxl_encode.specs.Codable.{IsCodable};
ghost use Rattle.jxl_encode.specs.Orientations.{image_with_orientation};
ghost use Rattle.jxl_image_header.specs.Images.{image_of};
ghost use Rattle.jxl_picture.specs.Pictures.{IsWhole};

use jxl_picture::picture::Picture;

/// The same samples, shown by this orientation.
pub fn with_orientation(picture: Picture, orientation: u32) -> Picture
    ensures header { image_of result.header ≡ image_with_orientation orientation (image_of picture.header) }
    ensures channels { result.channels ≡ picture.channels }
    ensures profile { result.profile ≡ picture.profile }
    ensures whole { IsWhole (image_of picture.header) picture.channels.items
        → IsWhole (image_of result.header) result.channels.items }
    ensures codable { IsCodable picture → 1 ≤ orientation → orientation ≤ 8 → IsCodable result }
{
    let mut header = picture.header;
    header.orientation = orientation;
    Picture {
        header,
        channels: picture.channels,
        profile: picture.profile,
    }
}
