//! The samples around a cell.

ghost use Rattle.std.specs.Prelude.{◌≡◌, ◌+ℤ◌, ◌-ℤ◌, ◌*ℤ◌, pos, unsigned_abs, ◌<◌, ◌^◌};
ghost use Rattle.jxlm_weighted.specs.Around.{neighbours_of};
ghost use Rattle.jxlm_weighted.specs.Inner.CorrectingSteps.{clamped_around};

/// The neighbours of a cell, each by the edge rules.
#[derive(Clone, Copy)]
pub struct Around {
    /// Left.
    pub w: i32,
    /// Above.
    pub n: i32,
    /// Above left.
    pub nw: i32,
    /// Above right.
    pub ne: i32,
    /// Above and two to the right.
    pub nee: i32,
    /// Two above.
    pub nn: i32,
    /// Two to the left.
    pub ww: i32,
}

impl Around {
    /// Left plus above right less above, times 8.
    pub(crate) fn slope(&self) -> i64
        ensures value { result ≡ self.now.w *ℤ pos 8 +ℤ self.now.ne *ℤ pos 8 -ℤ self.now.n *ℤ pos 8 }
        ensures bound { unsigned_abs result < 2 ^ 37 }
    {
        self.w as i64 * 8 + self.ne as i64 * 8 - self.n as i64 * 8
    }

    /// The number clamped between the minimum and the maximum of left, above and above right, each times 8.
    pub(crate) fn clamped(&self, value: i64) -> i64
        requires { unsigned_abs value < 2 ^ 40 }
        ensures value { result ≡ clamped_around (neighbours_of self.now) value }
        ensures bound { unsigned_abs result < 2 ^ 40 }
    {
        let (n, w, ne) = (self.n as i64 * 8, self.w as i64 * 8, self.ne as i64 * 8);
        let low = n.min(w).min(ne);
        let high = n.max(w).max(ne);
        low.max(value.min(high))
    }
}
