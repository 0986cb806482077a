//! What a frame header says of a frame as a layer of the picture.

ghost use Rattle.std.specs.Prelude.{◌≡◌, ◌-◌};
ghost use Rattle.std.specs.List.{list_all};
ghost use Rattle.jxl_frame_header.specs.Blendings.{is_replace};
ghost use Rattle.jxl_frame_header.specs.Frames.{frame_of, frame_size};
ghost use Rattle.jxl_picture.specs.Limits.{cells_of as the_cells_of};
ghost use Rattle.jxl_layers.specs.Refusals.{is_taken as the_is_taken, is_whole as the_is_whole};
ghost use Rattle.jxl_layers.specs.Compositions.{info_of as the_info_of, is_displayed as the_is_displayed, is_final as the_is_final, is_kept as the_is_kept, left_of, picture_size as the_picture_size, top_of};

use jxl_blending::grid::Corner;
use jxl_codestream::frame::cells_of;
use jxl_frame_header::blending::BlendingInfo;
use jxl_frame_header::frame::FrameHeader;
use jxl_image_header::image::ImageHeader;
use jxl_image_header::size::Size;

// Whether all these channels are replaced.
fn all_replace(infos: &[BlendingInfo]) -> bool
    ensures { result ≡ list_all (λ b. is_replace b.mode) infos.now }
{
    infos.iter().all(|info| info.replaces())
}

// Whether a frame is the picture as it is: it covers it, and replaces all channels.
fn is_whole(header: &FrameHeader) -> bool
    ensures { result ≡ the_is_whole (frame_of header.now) }
{
    header.place.crop.is_none()
        && header.blending.blending_info.replaces()
        && all_replace(&header.blending.ec_blending_info)
}

/// Whether a frame is taken as it is: only others use it, or it is the picture.
pub fn is_taken(header: &FrameHeader) -> bool
    ensures { result ≡ the_is_taken (frame_of header.now) }
{
    header.is_saved() || is_whole(header)
}

/// How a channel of a frame is blended, of which this number are colours.
pub fn info_of(header: &FrameHeader, colours: usize, channel: usize) -> BlendingInfo
    ensures { result ≡ the_info_of (frame_of header.now) colours channel }
{
    let first = header.blending.blending_info;
    if channel < colours {
        return first;
    }
    match header.blending.ec_blending_info.get(channel - colours) {
        Some(info) => *info,
        None => first,
    }
}

/// Where a frame lies in the picture.
pub fn corner_of(header: &FrameHeader) -> Corner
    ensures x { result.x ≡ left_of (frame_of header.now) }
    ensures y { result.y ≡ top_of (frame_of header.now) }
{
    match header.place.crop {
        Some(crop) => Corner {
            x: crop.x0,
            y: crop.y0,
        },
        None => Corner { x: 0, y: 0 },
    }
}

/// How large what a frame makes is: as the frame if only others use it, else as the picture.
pub fn picture_size(header: &FrameHeader, size: Size) -> Size
    ensures { result ≡ the_picture_size size (frame_of header.now) }
{
    if header.is_saved() {
        header.size(size)
    } else {
        size
    }
}

/// Whether a frame is the last one that is shown.
pub fn is_final(header: &FrameHeader) -> bool
    ensures { result ≡ the_is_final (frame_of header.now) }
{
    !header.is_saved() && header.frame_use.is_last
}

/// Whether the picture that a frame makes is shown: the last one, and each that is shown for some time.
pub fn is_displayed(header: &FrameHeader) -> bool
    ensures { result ≡ the_is_displayed (frame_of header.now) }
{
    !header.is_saved() && (header.frame_use.is_last || header.frame_use.duration > 0)
}

/// Whether others may use what a frame makes: not the last picture, nor one that is shown for some time and would be saved
/// in slot 0.
pub fn is_kept(header: &FrameHeader) -> bool
    ensures { result ≡ the_is_kept (frame_of header.now) }
{
    let frame_use = header.frame_use;
    header.is_saved()
        || (!frame_use.is_last && (frame_use.duration == 0 || frame_use.save_as_reference != 0))
}

/// How many cells the picture has more than a frame of this header.
pub fn spare_cells(image: &ImageHeader, header: &FrameHeader) -> u64
    ensures { result ≡ the_cells_of image.now.size - the_cells_of (frame_size image.now.size (frame_of header.now)) }
{
    cells_of(image.size).saturating_sub(cells_of(header.size(image.size)))
}
