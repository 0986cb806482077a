//! Images as they are printed: `print TYPE CHANNEL, CHANNEL, .. -> LINES`. A channel has its sides, as `2x3`, and then its
//! samples, row by row; each line ends with a slash. No channel is `none`, and so is no line.

use crate::command::add_lines;
use check_rows::{numbers, signed, word};
use jxl_text::printing::print_image;
use jxlm_base::grid::AlignedGrid;
use jxlm_base::sample::Sample;
use std::alloc::Global;

/// The grid of a channel.
fn grid<S: Sample>(alloc: Global, channel: &str) -> Option<AlignedGrid<S>> {
    let (sides, samples) = word(channel);
    let (width, height) = numbers(sides, 'x')?;
    let samples = signed(alloc, samples)?;
    let mut samples = samples.iter();
    let mut grid = AlignedGrid::new(alloc, width as usize, height as usize).ok()?;
    for y in 0..height as usize {
        if y < grid.height() {
            for cell in grid.get_row_mut(y).iter_mut() {
                *cell = S::from_i32(*samples.next()?);
            }
        }
    }
    Some(grid)
}

/// The text of an image of these channels.
fn printed<S: Sample>(alloc: Global, channels: &str) -> Option<String> {
    let mut grids = Vec::new(alloc);
    if channels != "none" {
        for channel in channels.split(", ") {
            grids.push(grid::<S>(alloc, channel)?).ok()?;
        }
    }
    print_image(alloc, &grids).ok()
}

/// The text of the image that a row asks for.
pub fn seen(alloc: Global, asked: &str) -> Option<String> {
    let (samples, channels) = word(asked);
    let text = match samples {
        "i16" => printed::<i16>(alloc, channels)?,
        "i32" => printed::<i32>(alloc, channels)?,
        _ => return None,
    };
    if text.is_empty() {
        return String::from_str(alloc, "none").ok();
    }
    let mut lines = String::new(alloc);
    add_lines(&mut lines, text.as_bytes())?;
    Some(lines)
}
