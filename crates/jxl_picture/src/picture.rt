//! A decoded picture.

ghost use Rattle.std.specs.Prelude.{◌≡◌, ◌^◌, ◌↔◌, IfOk, IsTrue, length};
ghost use Rattle.std.specs.Int.{div_ceil};
ghost use Rattle.std.specs.List.{AllZip};
ghost use Rattle.jxl_image_header.specs.Images.{image_of};
ghost use Rattle.jxl_picture.specs.Sides.{HasShiftedSides, HasSides};
ghost use Rattle.jxl_picture.specs.Pictures.{IsWhole, colour_count, is_grey as colours_are_grey, has_alpha as there_is_alpha, has_full_alpha as there_is_full_alpha, is_full_alpha as the_full_alpha};
ghost use Rattle.jxl_picture.specs.Orientations.{IsUpright};

use crate::orientation::{shown_channels, shown_size};
use jxl_image_header::channel::ExtraChannel;
use jxl_image_header::image::ImageHeader;
use jxl_image_header::size::Size;
use jxlm_base::grid::{AlignedGrid, OutOfMemory};
use std::alloc::Global;

/// A picture: what the headers say of it, and its samples.
#[derive(Drop)]
pub struct Picture {
    /// What the headers say of the picture.
    pub header: ImageHeader,
    /// Its channels: of colours one where they are grey, else red, green and blue, each with the sides of the picture;
    /// then the extra channels in the header's order, each with these sides divided by 2 to the power of its shift and
    /// rounded up. A sample is the whole number that was coded, which may lie outside the range of its depth; of a
    /// float it is the number of its bits, in the format of its depth ([`single_bits`](crate::floats::single_bits)).
    pub channels: Vec<AlignedGrid<i32>>,
    /// The ICC profile that says what colours mean, if the header says that there is one.
    pub profile: Option<Vec<u8>>,
}

/// Whether colours are grey, so that they have one channel.
pub fn is_grey(header: &ImageHeader) -> bool
    ensures { result ≡ colours_are_grey (image_of header.now) }
{
    header.colour_encoding.colour_space.is_grey()
}

/// How many channels colours have: 1 or 3.
pub fn colours(header: &ImageHeader) -> usize
    ensures { result ≡ colour_count (image_of header.now) }
{
    if is_grey(header) { 1 } else { 3 }
}

/// Whether one of the extra channels is alpha.
pub fn has_alpha(header: &ImageHeader) -> bool
    ensures { result ≡ there_is_alpha (image_of header.now) }
{
    header.ec_info.iter().any(|channel| channel.kind.is_alpha())
}

/// Whether a channel is alpha that is as large as the picture.
pub fn is_full_alpha(channel: &ExtraChannel) -> bool
    ensures { result ≡ the_full_alpha channel.now }
{
    channel.kind.is_alpha() && channel.dim_shift == 0
}

/// Whether one of the extra channels is alpha that is as large as the picture.
pub fn has_full_alpha(header: &ImageHeader) -> bool
    ensures { result ≡ there_is_full_alpha (image_of header.now) }
{
    header.ec_info.iter().any(|channel| is_full_alpha(channel))
}

// A side of this number of samples in a channel of this shift.
fn shifted(shift: u32, side: u32) -> u32
    ensures { result ≡ div_ceil side (2 ^ shift) }
{
    if shift < 32 {
        (u64::from(side)).div_ceil(1 << shift) as u32
    } else {
        side.min(1)
    }
}

fn has_sides(grid: &AlignedGrid<i32>, width: u32, height: u32) -> bool
    ensures { IsTrue result ↔ HasSides width height grid.now }
{
    grid.width() == width as usize && grid.height() == height as usize
}

// Whether a channel has the sides of this extra channel, of a picture of this size.
fn has_shifted_sides(channel: &ExtraChannel, grid: &AlignedGrid<i32>, size: Size) -> bool
    ensures { IsTrue result ↔ HasShiftedSides size channel.now grid.now }
{
    let width = shifted(channel.dim_shift, size.width);
    let height = shifted(channel.dim_shift, size.height);
    has_sides(grid, width, height)
}

// Whether each of these has the sides of its extra channel; there are as many.
fn have_shifted_sides(extra: &[ExtraChannel], channels: &[AlignedGrid<i32>], size: Size) -> bool
    requires { length channels.now ≡ length extra.now }
    ensures { IsTrue result ↔ AllZip (HasShiftedSides size) extra.now channels.now }
{
    for k in 0..extra.len() {
        if !has_shifted_sides(&extra[k], &channels[k], size) {
            return false;
        }
    }
    true
}

impl Picture {
    /// Whether there are as many channels as the header says, those of colours with the sides of the picture, and each
    /// extra channel with these by its shift.
    pub fn is_whole(&self) -> bool
        ensures { IsTrue result ↔ IsWhole (image_of self.now.header) self.now.channels.items }
    {
        let size = self.header.size;
        let colours = colours(&self.header);
        let extra = &self.header.ec_info;
        if self.channels.len() < colours || self.channels.len() - colours != extra.len() {
            return false;
        }
        let (front, rest) = self.channels.split_at(colours);
        front
            .iter()
            .all(|channel| has_sides(channel, size.width, size.height))
            && have_shifted_sides(extra, rest, size)
    }

    /// The picture as it is shown: the cells of each channel are mirrored or turned as the header says, its size is that
    /// of what is shown, and its orientation 1; its profile is the same. Memory is taken for one more channel, where the
    /// picture is not upright as it is.
    pub fn upright(self, alloc: Global) -> Result<Picture, OutOfMemory>
        ensures shown { IfOk result (λ p. IsUpright (image_of self.header) self.channels.items (image_of p.header)
            p.channels.items) }
        ensures profile { IfOk result (λ p. p.profile ≡ self.profile) }
    {
        let mut header = self.header;
        let orientation = header.orientation;
        header.size = shown_size(orientation, header.size);
        header.orientation = 1;
        let channels = shown_channels(alloc, self.channels, orientation)?;
        Ok(Picture {
            header,
            channels,
            profile: self.profile,
        })
    }
}
