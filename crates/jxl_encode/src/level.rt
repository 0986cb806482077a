//! The level of a picture.

ghost use Rattle.std.specs.Prelude.{◌≡◌};
ghost use Rattle.std.specs.List.{list_any};
ghost use Rattle.std.specs.Option.{option_map};
ghost use Rattle.jxl_codestream.specs.FrontParts.{bytes_if};
ghost use Rattle.jxl_encode.specs.Files.{is_beyond_five as beyond_five, is_boxed as in_boxes};
ghost use Rattle.jxl_encode.specs.Files.{is_deep as deep, is_large as large, is_long as long, level_of as the_level};
ghost use Rattle.jxl_image_header.specs.Images.{image_of};

use jxl_container_write::container::Level;
use jxl_image_header::channel::ExtraChannel;
use jxl_image_header::size::Size;
use jxl_picture::picture::Picture;

/// Whether level 5 does not hold an extra channel: black, or of more than 16 bits.
fn is_deep(channel: &ExtraChannel) -> bool
    ensures { result ≡ deep channel.now }
{
    channel.kind.is_black() || channel.bit_depth.bits_per_sample > 16
}

/// Whether level 5 does not hold one of these extra channels.
fn are_deep(channels: &[ExtraChannel]) -> bool
    ensures { result ≡ list_any deep channels.now }
{
    channels.iter().any(|channel| is_deep(channel))
}

/// Whether level 5 does not hold a size: sides to 2^18, and 2^28 pixels.
fn is_large(size: Size) -> bool
    ensures { result ≡ large size }
{
    size.width > 1 << 18
        || size.height > 1 << 18
        || u64::from(size.width) * u64::from(size.height) > 1 << 28
}

/// Whether level 5 does not hold a profile: 2^22 bytes.
fn is_long(profile: &Option<Vec<u8>>) -> bool
    ensures { result ≡ long (bytes_if profile.now) }
{
    match profile {
        Some(icc) => icc.len() > 1 << 22,
        None => false,
    }
}

/// Whether level 5 does not hold this picture: 16 bits for a sample, and 4 extra channels.
fn is_beyond_five(picture: &Picture) -> bool
    ensures { result ≡ beyond_five (image_of picture.now.header) (bytes_if picture.now.profile) }
{
    let header = &picture.header;
    !header.modular_16bit_buffers
        || header.bit_depth.bits_per_sample > 16
        || header.ec_info.len() > 4
        || are_deep(&header.ec_info)
        || is_large(header.size)
        || is_long(&picture.profile)
}

/// The level of a picture.
pub(crate) fn level_of(picture: &Picture) -> Level
    ensures { result ≡ the_level (image_of picture.now.header) (bytes_if picture.now.profile) }
{
    if is_beyond_five(picture) {
        Level::Ten
    } else {
        Level::Five
    }
}

/// Whether a file of a picture, with these Exif and XMP data, is in boxes: it must be, or `boxed` says so.
pub(crate) fn is_boxed(
    picture: &Picture,
    boxed: bool,
    exif: Option<&[u8]>,
    xmp: Option<&[u8]>,
) -> bool
    ensures { result ≡ in_boxes (image_of picture.now.header) (bytes_if picture.now.profile) boxed
        (option_map (λ s. s.now) exif.entry) (option_map (λ s. s.now) xmp.entry) }
{
    boxed || is_beyond_five(picture) || exif.is_some() || xmp.is_some()
}
