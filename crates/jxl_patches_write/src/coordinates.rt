//! The coordinates of places, as tokens.

ghost use Rattle.std.specs.Prelude.{◌≡◌, ◌<◌, ◌^◌, Some, true};
ghost use Rattle.jxl_patches.specs.Patches.{coordinate_of};

/// The token of a coordinate after one before.
fn moved(before: u32, now: u32) -> u32
    requires before { before < 2 ^ 31 }
    requires now { now < 2 ^ 31 }
    ensures { coordinate_of true before result ≡ Some now }
{
    if before <= now {
        2 * (now - before)
    } else {
        2 * (before - now) - 1
    }
}

/// The token of a coordinate, which may come after one before.
pub(crate) fn coded(later: bool, before: u32, now: u32) -> u32
    requires before { before < 2 ^ 31 }
    requires now { now < 2 ^ 31 }
    ensures { coordinate_of later before result ≡ Some now }
{
    if later { moved(before, now) } else { now }
}
