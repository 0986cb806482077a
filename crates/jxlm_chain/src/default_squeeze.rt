//! The squeeze of a header that lists no steps (ISO/IEC 18181-1, Modular: default squeeze).

ghost use Rattle.std.specs.Prelude.{◌≡◌, ◌+◌, ◌^◌, ◌<◌, ◌&&◌, ◌++◌, ◌∷◌, [], nat_le, nat_lt, length, take, if◌then◌else◌, IfOk};
ghost use Rattle.std.specs.Int.{div_ceil};
ghost use Rattle.jxlm_transform.specs.Channels.{HasItsMeta, infos};
ghost use Rattle.jxlm_transform.specs.Lists.{list_of};
ghost use Rattle.jxlm_transform.specs.ChannelSteps.{StepsGive, default_of_all, default_of_chroma, halvings, in_turn, one_size, step_of_all as the_step_of_all, step_of_chroma as the_step_of_chroma, steps_of_squeeze};

use jxlm_base::grid::OutOfMemory;
use jxlm_bits::error::{Error, Result};
use jxlm_transform::channels::{ModularChannels, PlacedChannel};
use jxlm_transform::transform::{Squeeze, SqueezeParams};

/// The maximum side that the default squeeze leaves alone.
const SMALL_SIDE: u32 = 8;

/// A squeeze of `count` channels from `first` on.
fn step_of_all(first: usize, count: usize, horizontal: bool) -> SqueezeParams
    ensures { result ≡ the_step_of_all first count horizontal }
{
    SqueezeParams {
        horizontal,
        in_place: true,
        begin_c: first,
        num_c: count,
    }
}

/// A squeeze of the two channels after `first`.
fn step_of_chroma(first: usize, horizontal: bool) -> SqueezeParams
    requires { first < 2 ^ 63 }
    ensures { result ≡ the_step_of_chroma first horizontal }
{
    SqueezeParams {
        horizontal,
        in_place: false,
        begin_c: first + 1,
        num_c: 2,
    }
}

/// Adds the step where the side is not small, and returns what the step leaves of the side.
fn add_halving(
    steps: &mut Vec<SqueezeParams>,
    step: SqueezeParams,
    side: u32,
) -> std::result::Result<u32, OutOfMemory>
    ensures side { IfOk result (λ s. s ≡ (if nat_lt 8 side then div_ceil side 2 else side)) }
    ensures steps { IfOk result (λ _. steps.new.items ≡ steps.old.items ++ (if nat_lt 8 side then step ∷ [] else [])) }
{
    if side <= SMALL_SIDE {
        return Ok(side);
    }
    steps.push(step)?;
    Ok(side.div_ceil(2))
}

/// Adds squeezes across and down in turn, until no side is above 8.
fn add_in_turn(
    steps: &mut Vec<SqueezeParams>,
    first: usize,
    count: usize,
    mut width: u32,
    mut height: u32,
) -> std::result::Result<(), OutOfMemory>
    ensures { IfOk result (λ _. steps.new.items ≡ steps.old.items ++ in_turn (halvings width) (halvings height)
        (the_step_of_all first count)) }
{
    while width > SMALL_SIDE || height > SMALL_SIDE {
        width = add_halving(steps, step_of_all(first, count, true), width)?;
        height = add_halving(steps, step_of_all(first, count, false), height)?;
    }
    Ok(())
}

/// Adds the squeezes of all channels, the first of these sides: the longer side first.
fn add_all(
    steps: &mut Vec<SqueezeParams>,
    first: usize,
    count: usize,
    width: u32,
    height: u32,
) -> std::result::Result<(), OutOfMemory>
    ensures { IfOk result (λ _. steps.new.items ≡ steps.old.items ++ default_of_all first count width height) }
{
    if height < width {
        return add_in_turn(steps, first, count, width, height);
    }
    let left = add_halving(steps, step_of_all(first, count, false), height)?;
    add_in_turn(steps, first, count, width, left)
}

/// Whether three channels or more are there, and the second has the size of the first.
fn has_chroma(leader: &PlacedChannel, others: &[PlacedChannel]) -> bool
    ensures { result ≡ (nat_le 3 (length (leader.now ∷ others.now))
        && one_size (take 2 (infos (leader.now ∷ others.now)))) }
{
    others.len() >= 2 && leader.info.is_of_size(&others[0].info)
}

/// Adds the squeezes of the two channels after the first, where there are three and the first two
/// have one size.
fn add_chroma(
    steps: &mut Vec<SqueezeParams>,
    first: usize,
    leader: &PlacedChannel,
    others: &[PlacedChannel],
) -> std::result::Result<(), OutOfMemory>
    requires { first < 2 ^ 63 }
    ensures { IfOk result (λ _. steps.new.items ≡ steps.old.items ++ default_of_chroma first
        (infos (leader.now ∷ others.now))) }
{
    if has_chroma(leader, others) {
        steps.push(step_of_chroma(first, true))?;
        steps.push(step_of_chroma(first, false))?;
    }
    Ok(())
}

/// Lists the steps of the default squeeze of these channels, where none are listed: those of
/// two channels of chroma, and then those of all channels that are not meta channels, until the
/// first of them has no side above 8.
///
/// # Errors
///
/// `InvalidSqueezeParams` if no step is listed and all channels are meta channels; `Buffer`
/// if it is out of memory. After an error nothing is said of the steps.
pub(crate) fn set_default_params(squeeze: &mut Squeeze, channels: &ModularChannels) -> Result<()>
    requires { HasItsMeta (list_of channels.now) }
    ensures { StepsGive (steps_of_squeeze squeeze.old.sp.items (list_of channels.now)) result squeeze.new.sp.items }
{
    if !squeeze.sp.is_empty() {
        return Ok(());
    }
    let first = channels.nb_meta_channels;
    let Some((leader, others)) = channels.placed[first..].split_first() else {
        return Err(Error::InvalidSqueezeParams);
    };
    add_chroma(&mut squeeze.sp, first, leader, others)?;
    add_all(
        &mut squeeze.sp,
        first,
        others.len() + 1,
        leader.info.width,
        leader.info.height,
    )?;
    Ok(())
}
