//! The samples of channels, one channel after another.

ghost use Rattle.std.specs.Prelude.{◌≡◌, length};
ghost use Rattle.std.specs.List.{All};
ghost use Rattle.jxlm_base.specs.Grid.{IsFull};
ghost use Rattle.jxl_c_picture.specs.Cells.{cells_of_all};

use jxlm_base::grid::AlignedGrid;

/// Each of the channels has one sample in each column of each row.
pub fn all_are_full(channels: &[AlignedGrid<i32>])
    ensures { All IsFull channels.now }
{
    for channel in channels {
        let _columns = channel.width();
    }
}

/// Copies all samples, and frees each channel once that is done.
pub fn move_cells(channels: Vec<AlignedGrid<i32>>, samples: &mut [i32])
    requires { length samples.old ≡ length (cells_of_all channels.items) }
    ensures { samples.new ≡ cells_of_all channels.items }
{
    let mut at = 0;
    for channel in channels {
        let cells = channel.buf();
        samples[at..at + cells.len()].copy_from_slice(cells);
        at += cells.len();
    }
}
