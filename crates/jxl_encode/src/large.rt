//! Pictures that are too large for one frame.

ghost use Rattle.std.specs.Prelude.{◌≡◌, ◌↔◌, ◌-◌, ◌^◌, ◌≤◌, IsTrue, min};
ghost use Rattle.jxl_encode.specs.Errors.{IsTooLarge, sample_count as the_count};
ghost use Rattle.jxl_encode.specs.declared.error.EncodeError.TheVariants.{TooLarge};

use crate::error::EncodeError;
use crate::frame::GROUP_DIM;
use jxl_codestream::layout::Layout;
use jxl_picture::picture::Picture;
use jxlm_base::grid::AlignedGrid;

/// The number of samples from which on a picture is too large.
const SAMPLE_LIMIT: usize = 1 << 31;

/// The number of samples below which no section is too long for a table of contents.
const FEW_SAMPLES: usize = 1 << 27;

/// How many samples these channels have, at most 2^64 - 1.
fn sample_count(channels: &[AlignedGrid<i32>]) -> usize
    ensures { result ≡ min (the_count channels.now) (2 ^ 64 - 1) }
{
    let mut count: usize = 0;
    for grid in channels {
        count = count.saturating_add(grid.width().saturating_mul(grid.height()));
    }
    count
}

/// Whether the picture has 2^31 samples or more, or its frame would have more than 16,777,216 sections.
pub(crate) fn is_too_large(picture: &Picture) -> bool
    ensures { IsTrue result ↔ IsTooLarge picture.now }
{
    let layout = Layout::new(picture.header.size, GROUP_DIM, 1);
    if layout.is_none() {
        return true;
    }
    sample_count(&picture.channels) >= SAMPLE_LIMIT
}

/// The error where a section is too long for a table of contents. A sample takes at most 46 bits: fewer than 2^27 samples
/// give no such section, and what is left is memory.
pub(crate) fn long_section(picture: &Picture) -> EncodeError
    ensures { result ≡ TooLarge → 2 ^ 27 ≤ the_count picture.now.channels.items }
{
    if sample_count(&picture.channels) < FEW_SAMPLES {
        return EncodeError::OutOfMemory;
    }
    EncodeError::TooLarge
}
