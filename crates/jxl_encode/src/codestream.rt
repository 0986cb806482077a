//! A codestream of a picture: one frame, whose sections follow in their own order.

ghost use Rattle.std.specs.Prelude.{IfErr, IfOk};
ghost use Rattle.jxl_image_header.specs.Images.{image_of};
ghost use Rattle.jxl_picture.specs.Pictures.{IsWhole};
ghost use Rattle.jxl_encode.specs.Codable.{IsCodable};
ghost use Rattle.jxl_encode.specs.Errors.{EncodeFails};
ghost use Rattle.jxl_encode.specs.Files.{IsCodestreamOf};

use crate::channels::channels_of;
use crate::error::EncodeError;
use crate::frame::{FrameInput, GROUP_DIM, GROUP_SHIFT, frame_sections};
use crate::large::long_section;
use crate::sizes::{add_sections, sizes_of};
use jxl_codestream::layout::Layout;
use jxl_codestream_write::front::write_front_with_profile;
use jxl_encode_ways::advice::Advice;
use jxl_picture::picture::Picture;
use std::alloc::Global;

/// A codestream of the picture by this advice. Copies of tokens are looked for if `copies` says at how
/// many places of equal tokens each is tried.
///
/// # Errors
///
/// `TooLarge` where there would be more than 16,777,216 sections, or where one would have 2^30 + 4,211,712 bytes or more;
/// `OutOfMemory`, also where the samples and the tables of palettes are 2^31 numbers or more.
pub(crate) fn codestream_by(
    alloc: Global,
    picture: &Picture,
    advice: &Advice,
    copies: Option<usize>,
) -> Result<Vec<u8>, EncodeError>
    requires whole { IsWhole (image_of picture.now.header) picture.now.channels.items }
    requires codable { IsCodable picture.now }
    ensures coded { IfOk result (λ v. IsCodestreamOf picture.now v.items) }
    ensures err { IfErr result (EncodeFails picture.now) }
{
    let Some(layout) = Layout::new(picture.header.size, GROUP_DIM, 1) else {
        return Err(EncodeError::TooLarge);
    };
    let given = channels_of(alloc, &picture.header)?;
    let input = FrameInput {
        picture,
        given: &given,
        layout: &layout,
        copies,
    };
    let Ok(sections) = frame_sections(alloc, &input, advice) else {
        return Err(EncodeError::OutOfMemory);
    };
    let Some(sizes) = sizes_of(alloc, &sections)? else {
        return Err(long_section(picture));
    };
    let profile = picture.profile.as_deref();
    let mut bytes = write_front_with_profile(alloc, &picture.header, profile, GROUP_SHIFT, &sizes)?;
    add_sections(&mut bytes, &sections)?;
    Ok(bytes)
}
