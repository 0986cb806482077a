//! Which pictures can be coded.

ghost use Rattle.std.specs.Prelude.{◌≡◌, ◌↔◌, is_some, IfSome, IsTrue};
ghost use Rattle.jxl_codestream.specs.FrontParts.{bytes_if};
ghost use Rattle.jxl_encode.specs.Codable.{IsCodable, IsCodableProfile};

use jxl_image_header_write::writable::is_writable;
use jxl_picture::picture::Picture;

/// The maximum side of a Modular image.
const MAX_SIDE: u32 = 1 << 30;

/// The maximum number of bytes of a profile: that of level 10.
const MAX_PROFILE: usize = 1 << 28;

/// Whether a file can hold this profile: it has from 1 to 2^28 bytes.
pub fn is_codable_profile(icc: &[u8]) -> bool
    ensures { IsTrue result ↔ IsCodableProfile icc.now }
{
    !icc.is_empty() && icc.len() <= MAX_PROFILE
}

// Whether the header says that there is a profile exactly if there is one, which a file can hold.
fn has_codable_profile(picture: &Picture) -> bool
    ensures { IsTrue result ↔ ((picture.now.header.colour_encoding.want_icc ≡ is_some (bytes_if picture.now.profile))
        × IfSome (bytes_if picture.now.profile) IsCodableProfile) }
{
    let asked = picture.header.colour_encoding.want_icc;
    match &picture.profile {
        Some(icc) => asked && is_codable_profile(icc),
        None => !asked,
    }
}

/// Whether the picture can be coded: a header spells what is said of it, without a name, a spot colour, a colour
/// filter and an extension, and has nothing that the decoder does not support; its sides are at most 2^30. The header
/// says that there is a profile exactly if there is one, which has from 1 to 2^28 bytes. A sample may be any number of
/// 32 bits, whatever its depth.
pub fn is_codable(picture: &Picture) -> bool
    ensures { IsTrue result ↔ IsCodable picture.now }
{
    let header = &picture.header;
    if !is_writable(header) || header.refused().is_some() {
        return false;
    }
    if header.size.width > MAX_SIDE || header.size.height > MAX_SIDE {
        return false;
    }
    has_codable_profile(picture)
}
