//! How far decoding has come, on a terminal.

use jxl_command::meter::{Line, Meter};
use jxl_lossless::Progress;

/// Tells how many sections of a frame were decoded.
#[derive(Drop)]
pub struct SectionMeter<'a>(pub Meter<'a>);

impl Progress for SectionMeter<'_> {
    fn section_decoded(&mut self, count: usize) {
        self.0.advance(count, "sections");
    }
}

impl Line for SectionMeter<'_> {
    fn clear(&mut self) {
        self.0.clear();
    }
}
