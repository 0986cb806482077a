//! How far encoding has come, on a terminal.

use jxl_command::meter::{Line, Meter};
use jxl_encode::progress::Progress;

/// Tells how many ways to code the picture were tried.
#[derive(Drop)]
pub struct WayMeter<'a>(pub Meter<'a>);

impl Progress for WayMeter<'_> {
    fn way_tried(&mut self, count: usize, _bytes: usize) {
        self.0.advance(count, "ways to code the picture");
    }
}

impl Line for WayMeter<'_> {
    fn clear(&mut self) {
        self.0.clear();
    }
}
