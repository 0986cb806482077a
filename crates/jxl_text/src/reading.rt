//! The image that a text is printed of.
ghost use Rattle.std.specs.Prelude.{◌≡◌, ◌+◌, IfOk, IfErr, map};
ghost use Rattle.jxlm_base.specs.Grid.{meanings};
ghost use Rattle.jxl_text.specs.Reading.{IsTextOf, TextFails};
ghost use Rattle.jxl_text.specs.Inner.Rows.{IsChannel, ChannelFails};

use crate::lines::Lines;
use crate::rows::{grid_of, read_rows};
use crate::words::sides;
use jxlm_base::grid::{AlignedGrid, OutOfMemory};
use jxlm_base::sample::Sample;
use std::alloc::{AllocFailed, Global};

/// Why a text is read as no image.
#[derive(Clone, Copy, Debug, PartialEq, Eq, thiserror::Error)]
pub enum TextError {
    /// The number, from 1, of the first line that is wrong or missing.
    #[error("invalid image text at line {0}")]
    Line(usize),
    /// Out of memory.
    #[error("out of memory")]
    OutOfMemory,
}

impl From<OutOfMemory> for TextError {
    ghost use Rattle.jxl_text.specs.declared.reading.TextError.TheVariants.{OutOfMemory as Memory};

    ghost from_gives = { λ _ e. e ≡ Memory };

    fn from(_error: OutOfMemory) -> TextError {
        TextError::OutOfMemory
    }
}

impl<T: Drop> From<AllocFailed<T>> for TextError {
    ghost use Rattle.jxl_text.specs.declared.reading.TextError.TheVariants.{OutOfMemory as Memory};

    ghost from_gives = { λ _ e. e ≡ Memory };

    fn from(_error: AllocFailed<T>) -> TextError {
        TextError::OutOfMemory
    }
}

/// The channel of this number, whose name comes next, and then its rows.
fn read_channel<S: Sample>(
    alloc: Global,
    lines: &mut Lines<'_>,
    number: usize,
) -> Result<AlignedGrid<S>, TextError>
    ensures ok { IfOk result (λ g. IsChannel S.to_int S.width number lines.old.rest.now lines.new.rest.now g) }
    ensures taken { IfOk result (λ g. lines.new.taken ≡ lines.old.taken + (g.height + 1)) }
    ensures err { IfErr result (λ e. ChannelFails S.width number lines.old.rest.now lines.old.taken e) }
{
    let line = lines.next()?;
    let Some((width, height)) = sides(line, number) else {
        return Err(lines.wrong());
    };
    let cells = read_rows(alloc, lines, width, height)?;
    Ok(grid_of(alloc, width, height, &cells)?)
}

/// The image whose text this is, as `print_image` prints it: each line is ended, numbers have no leading zeros, and a
/// minus stands before negative ones alone. No side is above 2^30, there are at most 2^20 channels, and each number fits
/// the type. The text is gone through once.
///
/// # Errors
///
/// `Line` has the number of the first line that is wrong: no text of an image goes on with it after the lines before. A
/// line that is not ended, or that is missing, is wrong. `OutOfMemory` comes at any time.
pub fn read_image<S: Sample>(alloc: Global, text: &[u8]) -> Result<Vec<AlignedGrid<S>>, TextError>
    ensures ok { IfOk result (λ v. IsTextOf S.width text.now (map (meanings S.to_int) v.items)) }
    ensures err { IfErr result (λ e. TextFails S.width text.now e) }
{
    let mut lines = Lines::new(text);
    let mut channels = Vec::new(alloc);
    while !lines.is_empty() {
        let channel = read_channel(alloc, &mut lines, channels.len())?;
        channels.push(channel)?;
    }
    Ok(channels)
}
