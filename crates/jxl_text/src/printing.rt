//! The text of an image.
ghost use Rattle.std.specs.Prelude.{◌≡◌, ◌++◌, IfOk, OnOk, map, string_bytes};
ghost use Rattle.jxlm_base.specs.Grid.{meanings};
ghost use Rattle.jxl_text.specs.Printing.{line, row_text, channel_text, image_text};

use jxlm_base::grid::{AlignedGrid, OutOfMemory};
use jxlm_base::sample::Sample;
use std::alloc::Global;

/// The lines of an image: for each channel `channel C WxH`, with its number and size, and then its
/// rows, a line each, in decimal numbers with one space between. A row of no samples is an empty
/// line.
pub fn print_image<S: Sample>(
    alloc: Global,
    channels: &[AlignedGrid<S>],
) -> Result<String, OutOfMemory>
    ensures { IfOk result (λ text. string_bytes text ≡ image_text (map (meanings S.to_int) channels.now)) }
{
    let mut text = String::new(alloc);
    for (number, channel) in channels.iter().enumerate() {
        append_channel(&mut text, number, channel)?;
    }
    Ok(text)
}

fn append_channel<S: Sample>(
    text: &mut String,
    number: usize,
    channel: &AlignedGrid<S>,
) -> Result<(), OutOfMemory>
    ensures { OnOk result (string_bytes text.new
        ≡ string_bytes text.old ++ channel_text number (meanings S.to_int channel.now)) }
{
    let width = channel.width();
    let height = channel.height();
    writeln!(text, "channel {number} {width}x{height}")?;
    for y in 0..height {
        append_row(text, channel.get_row(y))?;
    }
    Ok(())
}

fn append_row<S: Sample>(text: &mut String, row: &[S]) -> Result<(), OutOfMemory>
    ensures { OnOk result (string_bytes text.new
        ≡ string_bytes text.old ++ line (row_text (map S.to_int row.now))) }
{
    if let Some((first, rest)) = row.split_first() {
        write!(text, "{}", first.to_i32())?;
        for sample in rest {
            write!(text, " {}", sample.to_i32())?;
        }
    }
    text.push('\n')?;
    Ok(())
}
