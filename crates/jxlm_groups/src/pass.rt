//! The passes of a frame (ISO/IEC 18181-1, frame: passes), and which images can be cut into groups.

ghost use Rattle.std.specs.Prelude.{◌≡◌, pos, IfOk, find, nat_le};
ghost use Rattle.std.specs.List.{list_all, list_any};
ghost use Rattle.std.specs.Option.{option_map_or};
ghost use Rattle.jxlm_groups.specs.Passes.{can_group as the_groupable, holds as the_held, is_of_picture_of as the_alike, one_picture as the_one_picture, passes_of};

use jxlm_base::grid::OutOfMemory;
use jxlm_transform::channels::ModularChannelInfo;
use std::alloc::Global;
use std::collections::BTreeMap;

/// The maximum number of a pass.
const MAX_PASS: u32 = 255;

/// What stands for the number of a pass where there is none.
const NO_PASS: u32 = MAX_PASS + 1;

/// A pass of a frame, and the shifts of the channels that it holds.
#[derive(Clone, Copy, Debug, PartialEq, Eq)]
pub struct Pass {
    /// Its number.
    pub number: u32,
    /// The first shift that it holds.
    pub first_shift: i32,
    /// The first shift after that one which it does not hold.
    pub end_shift: i32,
}

impl Pass {
    /// Whether it holds a shift.
    fn holds(&self, shift: i32) -> bool
        ensures { result ≡ the_held shift self.now }
    {
        self.first_shift <= shift && shift < self.end_shift
    }
}

/// The passes, in rising order, of a map from their numbers to the first shift that each holds and the first after it
/// that it does not.
///
/// # Errors
///
/// `OutOfMemory`, and no other.
pub fn passes(
    alloc: Global,
    pass_shifts: &BTreeMap<u32, (i32, i32)>,
) -> Result<Vec<Pass>, OutOfMemory>
    ensures { IfOk result (λ passes. passes.items ≡ passes_of pass_shifts.now.entries) }
{
    let mut passes = Vec::new(alloc);
    for (number, shifts) in pass_shifts {
        let pass = Pass {
            number: *number,
            first_shift: shifts.0,
            end_shift: shifts.1,
        };
        passes.push(pass)?;
    }
    Ok(passes)
}

/// The number of the first pass that holds a shift; 256 where none does.
pub(crate) fn pass_with(passes: &[Pass], shift: i32) -> u32
    ensures { result ≡ option_map_or (λ p. p.number) (find (the_held shift) passes.now) 256 }
{
    match passes.iter().find(|pass| pass.holds(shift)) {
        Some(pass) => pass.number,
        None => NO_PASS,
    }
}

/// Whether the picture of a channel has the sides of another's.
fn is_of_picture_of(channel: &ModularChannelInfo, other: &ModularChannelInfo) -> bool
    ensures { result ≡ the_alike channel.now other.now }
{
    other.original_width == channel.original_width
        && other.original_height == channel.original_height
}

/// Whether all channels are of pictures of the same sides.
fn one_picture(channels: &[ModularChannelInfo]) -> bool
    ensures { result ≡ the_one_picture channels.now }
{
    match channels.split_first() {
        Some((first, others)) => others.iter().all(|other| is_of_picture_of(first, other)),
        None => true,
    }
}

/// Whether some pass holds a shift.
fn has_pass_with(pass_shifts: &BTreeMap<u32, (i32, i32)>, shift: i32) -> bool
    ensures { result ≡ list_any (the_held shift) (passes_of pass_shifts.now.entries) }
{
    for (_, shifts) in pass_shifts {
        if shifts.0 <= shift && shift < shifts.1 {
            return true;
        }
    }
    false
}

/// Whether all numbers of passes are at most 255.
fn has_valid_numbers(pass_shifts: &BTreeMap<u32, (i32, i32)>) -> bool
    ensures { result ≡ list_all (λ p. nat_le p.number 255) (passes_of pass_shifts.now.entries) }
{
    for (number, _) in pass_shifts {
        if *number > MAX_PASS {
            return false;
        }
    }
    true
}

/// Whether an image of these channels, before its transforms, can be cut into groups: all of them are of pictures of
/// the same sides, there is a pass, numbers of passes are at most 255, and each shift from 0 to 2 is held by a pass.
/// `pass_shifts` maps the number of each pass to the first shift that it holds and the first after it that it does
/// not.
pub fn can_group(given: &[ModularChannelInfo], pass_shifts: &BTreeMap<u32, (i32, i32)>) -> bool
    ensures { result ≡ the_groupable (passes_of pass_shifts.now.entries) given.now }
{
    one_picture(given)
        && !pass_shifts.is_empty()
        && has_valid_numbers(pass_shifts)
        && has_pass_with(pass_shifts, 0)
        && has_pass_with(pass_shifts, 1)
        && has_pass_with(pass_shifts, 2)
}
