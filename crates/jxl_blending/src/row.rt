//! A row of a frame, blended into one of the picture.

ghost use Rattle.std.specs.Prelude.{◌≡◌, ◌+◌, ◌≤◌, length};
ghost use Rattle.jxl_blending.specs.Inner.Rows.{IsRowBlended};

use crate::blending::{ChannelBlending, Parts, Point};

impl ChannelBlending {
    // The samples of a row of a frame, blended into the values of the picture from one on, with the alpha below.
    pub(crate) fn blend_row(
        self,
        front: &[i32],
        front_alpha: &[i32],
        back_alpha: &[f32],
        start: usize,
        cells: &mut [f32],
    )
        requires front { length front_alpha.now ≡ length front.now }
        requires back { length back_alpha.now ≡ length cells.old }
        requires inside { start + length front.now ≤ length cells.old }
        ensures { IsRowBlended self start front.now front_alpha.now back_alpha.now cells.old cells.new }
    {
        for i in 0..front.len() {
            let above = Point {
                sample: front[i],
                alpha: front_alpha[i],
            };
            let below = Parts {
                sample: cells[start + i],
                alpha: back_alpha[start + i],
            };
            cells[start + i] = self.blend_onto(above, below);
        }
    }
}
