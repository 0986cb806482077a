//! Channels of grids, and where they lie after the transforms that an encoder is asked for.

ghost use Rattle.std.specs.Prelude.{◌≡◌, ◌≤◌, ◌^◌, IfOk, IfErr, length, map};
ghost use Rattle.std.specs.List.{All};
ghost use Rattle.jxlm_base.specs.Grid.{IsFull};
ghost use Rattle.jxlm_base.specs.Regions.{store_meanings};
ghost use Rattle.jxlm_chain.specs.Placed.{IsPlaced};
ghost use Rattle.jxlm_transform.specs.Transforms.{transform_of as transform_in};
ghost use Rattle.jxlm_encode_write.specs.Headers.{params_of as the_params, transform_of};
ghost use Rattle.jxlm_encode.specs.Encoded.{IsSmall, given_list};
ghost use Rattle.jxlm_encode.specs.Inner.Placing.{AppliesOne, ArePlaced, AreRefused, Refuses};

use crate::error::{EncodeError, unless_memory};
use jxlm_base::grid::AlignedGrid;
use jxlm_base::sample::{Sample, Sealed};
use jxlm_chain::placed::PlacedChannels;
use jxlm_encode_write::header::{EncodeTransform, SqueezeStep};
use jxlm_transform::channels::ModularChannelInfo;
use jxlm_transform::param::ModularChannelParams;
use jxlm_transform::transform::{Rct, Squeeze, SqueezeParams, TransformInfo};
use std::alloc::{AllocError, Global};

/// The maximum number of transforms.
const MAX_TRANSFORMS: usize = 273;
/// The maximum number of coded channels.
const MAX_CODED_CHANNELS: usize = 65536;

/// A squeeze step, as channels are squeezed by it.
fn params_of(step: &SqueezeStep) -> SqueezeParams
    ensures { result ≡ the_params step.now }
{
    SqueezeParams {
        horizontal: step.horizontal,
        in_place: step.in_place,
        begin_c: step.begin_c as usize,
        num_c: step.num_c as usize,
    }
}

/// The same of each of these steps.
fn all_params(alloc: Global, steps: &[SqueezeStep]) -> Result<Vec<SqueezeParams>, AllocError>
    ensures { IfOk result (λ v. v.items ≡ map the_params steps.now) }
{
    let mut params = Vec::new(alloc);
    for step in steps {
        params.push(params_of(step))?;
    }
    Ok(params)
}

/// A transform, as channels go on by it.
fn info_of(alloc: Global, transform: &EncodeTransform) -> Result<TransformInfo, AllocError>
    ensures { IfOk result (λ t. transform_in t ≡ transform_of transform.now) }
{
    match transform {
        EncodeTransform::Rct { begin_c, rct_type } => Ok(TransformInfo::Rct(Rct {
            begin_c: *begin_c,
            rct_type: *rct_type,
        })),
        EncodeTransform::Squeeze(steps) => Ok(TransformInfo::Squeeze(Squeeze {
            sp: all_params(alloc, steps)?,
        })),
    }
}

/// Goes on by transform `k`.
fn apply_one(
    alloc: Global,
    placed: &mut PlacedChannels,
    transform: &EncodeTransform,
    k: u32,
) -> Result<(), EncodeError>
    requires { IsPlaced placed.old }
    ensures ok { IfOk result (λ _. AppliesOne (transform_of transform.now) placed.old placed.new) }
    ensures err { IfErr result (λ e. Refuses (transform_of transform.now) placed.old k e) }
{
    if !transform.is_spelled() {
        return Err(EncodeError::InvalidTransform(k));
    }
    let mut alone = Vec::new(alloc);
    alone.push(info_of(alloc, transform)?)?;
    match placed.apply(alloc, &mut alone) {
        Ok(()) => Ok(()),
        Err(error) => Err(unless_memory(error, EncodeError::InvalidTransform(k))),
    }
}

/// The channels of grids: one for each, of its size.
pub(crate) fn infos_of<S: Sample>(
    alloc: Global,
    grids: &[AlignedGrid<S>],
) -> Result<Vec<ModularChannelInfo>, AllocError>
    requires { All IsSmall grids.now }
    ensures channels { IfOk result (λ v. v.items ≡ (given_list (store_meanings S.to_int grids.now)).channels) }
    ensures full { IfOk result (λ _. All IsFull grids.now) }
{
    let mut infos = Vec::new(alloc);
    for grid in grids {
        let params = ModularChannelParams::new(grid.width() as u32, grid.height() as u32);
        infos.push(ModularChannelInfo::new(&params))?;
    }
    Ok(infos)
}

/// The coded channels, where they lie, and what undoes the transforms; or the first transform that is refused.
pub(crate) fn placed_by(
    alloc: Global,
    infos: &[ModularChannelInfo],
    transforms: &[EncodeTransform],
) -> Result<PlacedChannels, EncodeError>
    ensures ok { IfOk result (λ p. ArePlaced (map transform_of transforms.now) infos.now p) }
    ensures err { IfErr result (λ e. AreRefused (map transform_of transforms.now) infos.now e) }
{
    if transforms.len() > MAX_TRANSFORMS {
        return Err(EncodeError::InvalidTransform(273));
    }
    let Ok(mut placed) = PlacedChannels::whole(alloc, infos) else {
        return Err(EncodeError::OutOfMemory);
    };
    for k in 0..transforms.len() {
        apply_one(alloc, &mut placed, &transforms[k], k as u32)?;
    }
    if placed.channels.placed.len() > MAX_CODED_CHANNELS {
        return Err(EncodeError::InvalidTransform(transforms.len() as u32));
    }
    Ok(placed)
}
