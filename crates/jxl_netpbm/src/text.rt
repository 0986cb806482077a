//! Pictures in decimal numbers, some rows at a time.

ghost use Rattle.std.specs.Prelude.{◌≤◌, length, IfOk, IfSome, OnOk, OnErr, IfErr};
ghost use Rattle.std.specs.List.{All};
ghost use Rattle.std.specs.Io.KnownBytes.{Appends};
ghost use Rattle.jxl_text.specs.Printing.{channel_text, image_text};
ghost use Rattle.jxl_netpbm.specs.Inner.Rows.{HasRoom, line_room};
ghost use Rattle.jxl_netpbm.specs.Output.{AppendsLess};

use crate::decimals::put_heading;
use crate::output::{Output, write_whole};
use crate::raster::{PIECE, Raster, Samples, write_rows};
use jxlm_base::grid::{AlignedGrid, OutOfMemory};
use std::alloc::Global;
use std::io;

// The room for a row of any channel, or none if that is more bytes than a `usize` counts.
fn longest_line(channels: &[AlignedGrid<i32>]) -> Option<usize>
    ensures { IfSome result (λ n. All (λ g. line_room g.width ≤ n) channels.now) }
{
    let mut room = 0usize;
    for channel in channels {
        room = room.max(channel.width().checked_mul(12)?.checked_add(1)?);
    }
    Some(room)
}

/// Zeros for a piece of the text of these channels. The piece has room for each line.
pub fn text_piece(alloc: Global, channels: &[AlignedGrid<i32>]) -> Result<Vec<u8>, OutOfMemory>
    ensures { IfOk result (λ piece. HasRoom channels.now (length piece.items)) }
{
    let Some(room) = longest_line(channels) else {
        return Err(OutOfMemory);
    };
    Ok(vec![in alloc; 0; room.max(PIECE)]?)
}

// Writes the channel of this number. Its lines are made in `piece`.
fn write_channel<W: Output>(
    output: &mut W,
    piece: &mut [u8],
    number: usize,
    channel: &AlignedGrid<i32>,
) -> io::Result<()>
    requires heading { 71 ≤ length piece.old }
    requires row { line_room channel.now.width ≤ length piece.old }
    ensures ok { OnOk result (Appends (W.contents output.old) (W.contents output.new)
        (channel_text number channel.now)) }
    ensures short { OnErr result (AppendsLess (W.contents output.old) (W.contents output.new)
        (channel_text number channel.now)) }
    ensures failed { IfErr result (W.fails_by output.new) }
{
    let raster = Raster {
        samples: Samples::Decimals { channel },
        width: channel.width(),
        height: channel.height(),
    };
    let end = put_heading(piece, number, raster.width, raster.height);
    write_whole(output, &piece[..end])?;
    let room = raster.width * 12 + 1;
    write_rows(output, piece, room, &raster)
}

/// Writes the channels of a picture. Their lines are made in `piece`. After an error the writer holds a beginning of the
/// text, and not all.
pub fn write_channels<W: Output>(
    output: &mut W,
    piece: &mut [u8],
    channels: &[AlignedGrid<i32>],
) -> io::Result<()>
    requires { HasRoom channels.now (length piece.old) }
    ensures ok { OnOk result (Appends (W.contents output.old) (W.contents output.new) (image_text channels.now)) }
    ensures short { OnErr result (AppendsLess (W.contents output.old) (W.contents output.new)
        (image_text channels.now)) }
    ensures failed { IfErr result (W.fails_by output.new) }
{
    for (number, channel) in channels.iter().enumerate() {
        write_channel(output, piece, number, channel)?;
    }
    Ok(())
}
