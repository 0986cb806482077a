//! Where a frame lies over the picture.

ghost use Rattle.jxl_blending.specs.Overlaps.{IsOverlap};

/// The columns that a frame and the picture have in common, or the rows.
#[derive(Clone, Copy)]
pub struct Overlap {
    /// The first of them, of the picture.
    pub back: usize,
    /// The first of them, of the frame.
    pub front: usize,
    pub count: usize,
}

impl Overlap {
    /// What a side of a frame and one of the picture have in common, if the frame's begins at a column or row of the
    /// picture with this number, which may be negative.
    pub fn of_sides(start: i32, front: usize, back: usize) -> Overlap
        ensures { IsOverlap start front back result }
    {
        let distance = start.unsigned_abs() as usize;
        if start < 0 {
            Overlap {
                back: 0,
                front: distance,
                count: front.saturating_sub(distance).min(back),
            }
        } else {
            Overlap {
                back: distance,
                front: 0,
                count: back.saturating_sub(distance).min(front),
            }
        }
    }
}
