//! The channels of an image and where they lie, as its transforms leave them, one after another (ISO/IEC 18181-1,
//! Modular: the channels after each transform).

ghost use Rattle.std.specs.Prelude.{◌≡◌, ◌<◌, ◌≤◌, ◌^◌, [], ◌∷◌, length, map, IfOk, IfErr};
ghost use Rattle.std.specs.List.{All};
ghost use Rattle.jxlm_bits.specs.ErrorKind.{NoMemory, kind_of};
ghost use Rattle.jxlm_transform.specs.Layout.{first_layout};
ghost use Rattle.jxlm_chain.specs.Placed.{AreOfKindsOf, GoesOn, IsOfKindOf, IsPlaced, IsPlacedBy, PrepareGives};
ghost use Rattle.jxlm_transform.specs.Lists.{layout_of};
ghost use Rattle.jxlm_transform.specs.Channels.{HasItsMeta};
ghost use Rattle.jxlm_transform.specs.Lists.{list_of};
ghost use Rattle.jxlm_transform.specs.ChannelSteps.{ListGives, TransformGives, RctStep, PaletteStep, SqueezeStep};
ghost use Rattle.jxlm_transform.specs.ChannelSteps.{list_after, list_after_all, listed_steps};
ghost use Rattle.jxlm_transform.specs.Steps.{steps_in};
ghost use Rattle.jxlm_transform.specs.Transforms.{HasChannels, transform_of};

use crate::default_squeeze::set_default_params;
use crate::front::{are_within, reach};
use crate::undo::{Undoing, undo_colour, undo_palette, undo_squeeze};
use jxlm_base::grid::Region;
use jxlm_bits::error::{Error, Result};
use jxlm_transform::channels::{ModularChannelInfo, ModularChannels};
use jxlm_transform::transform::{Palette, Rct, SqueezeParams, TransformInfo};
use std::alloc::Global;

/// Channels with the regions in which they lie, after some transforms, and what undoes these.
#[derive(Drop)]
pub struct PlacedChannels {
    /// The channels, and where they lie.
    pub channels: ModularChannels,
    /// Where the tables of the palettes lie, in their order.
    pub tables: Vec<Region>,
    /// What undoes the transforms, in their order: the last is run first.
    pub undoings: Vec<Undoing>,
}

impl PlacedChannels {
    /// These channels before all transforms. Fewer than 2^63 buffers are taken.
    pub fn new(alloc: Global, channels: ModularChannels) -> PlacedChannels
        requires meta { HasItsMeta (list_of channels) }
        requires room { channels.buffers < 2 ^ 63 }
        ensures list { result.channels ≡ channels }
        ensures placed { IsPlaced result }
        ensures by { IsPlacedBy [] (layout_of channels) result }
    {
        PlacedChannels {
            channels,
            tables: Vec::new(alloc),
            undoings: Vec::new(alloc),
        }
    }

    /// The channels of an image before all transforms: each is the whole of a buffer of its own.
    ///
    /// # Errors
    ///
    /// `Buffer` if it is out of memory, and no other.
    pub fn whole(alloc: Global, given: &[ModularChannelInfo]) -> Result<PlacedChannels>
        ensures list { IfOk result (λ p.
            list_of p.channels ≡ record { channels = given.now; nb_meta = 0 }) }
        ensures placed { IfOk result (λ p. IsPlaced p) }
        ensures by { IfOk result (λ p. IsPlacedBy [] (first_layout given.now) p) }
        ensures err { IfErr result (λ e. kind_of e ≡ NoMemory) }
    {
        let channels = ModularChannels::new(alloc, given)?;
        Ok(PlacedChannels::new(alloc, channels))
    }

    /// Goes on by a colour transform.
    fn add_colour(&mut self, step: &Rct) -> Result<()>
        requires { IsPlaced self.old }
        ensures list { ListGives (list_after (RctStep step.now) (list_of self.old.channels)) result
            (list_of self.new.channels) }
        ensures goes { IfOk result (λ _. GoesOn (RctStep step.now ∷ []) self.old self.new) }
    {
        if !step.suits(&self.channels) {
            return Err(Error::InvalidRctParams);
        }
        let undoing = undo_colour(&self.channels, step);
        self.undoings.push(undoing)?;
        Ok(())
    }

    /// Goes on by a palette.
    fn add_palette(&mut self, alloc: Global, palette: &Palette) -> Result<()>
        requires some_channels { 1 ≤ palette.now.num_c }
        requires placed { IsPlaced self.old }
        ensures list { ListGives (list_after (PaletteStep palette.now) (list_of self.old.channels)) result
            (list_of self.new.channels) }
        ensures goes { IfOk result (λ _. GoesOn (PaletteStep palette.now ∷ []) self.old self.new) }
    {
        if !palette.suits(&self.channels) {
            return Err(Error::InvalidPaletteParams);
        }
        let undoing = undo_palette(alloc, &self.channels, palette)?;
        self.undoings.push(undoing)?;
        self.tables.push(palette.table(&self.channels).region)?;
        palette.transform_channel_info(&mut self.channels)?;
        Ok(())
    }

    /// Goes on by a squeeze step.
    pub(crate) fn add_halves(&mut self, alloc: Global, step: &SqueezeParams) -> Result<()>
        requires { IsPlaced self.old }
        ensures list { ListGives (list_after (SqueezeStep step.now) (list_of self.old.channels)) result
            (list_of self.new.channels) }
        ensures goes { IfOk result (λ _. GoesOn (SqueezeStep step.now ∷ []) self.old self.new) }
    {
        if !step.suits(&self.channels) {
            return Err(Error::InvalidSqueezeParams);
        }
        undo_squeeze(&mut self.undoings, &self.channels, step)?;
        step.transform_channel_info(alloc, &mut self.channels)?;
        Ok(())
    }

    /// Goes on by squeeze steps, each of which moves all channels after its range.
    fn add_each(&mut self, alloc: Global, steps: &[SqueezeParams]) -> Result<()>
        requires { IsPlaced self.old }
        ensures list { ListGives (list_after_all (map SqueezeStep steps.now) (list_of self.old.channels)) result
            (list_of self.new.channels) }
        ensures goes { IfOk result (λ _. GoesOn (map SqueezeStep steps.now) self.old self.new) }
    {
        for step in steps {
            self.add_halves(alloc, step)?;
        }
        Ok(())
    }

    /// Goes on by the steps of a squeeze. Where their ranges end before the list does, no step moves what comes after
    /// them all.
    fn add_steps(&mut self, alloc: Global, steps: &[SqueezeParams]) -> Result<()>
        requires { IsPlaced self.old }
        ensures list { ListGives (list_after_all (map SqueezeStep steps.now) (list_of self.old.channels)) result
            (list_of self.new.channels) }
        ensures goes { IfOk result (λ _. GoesOn (map SqueezeStep steps.now) self.old self.new) }
    {
        let count = reach(steps);
        if steps.len() > 1 && count < self.channels.placed.len() && are_within(steps, count) {
            self.add_in_front(alloc, steps, count)
        } else {
            self.add_each(alloc, steps)
        }
    }

    /// Goes on by a transform. A palette has at least one channel. A squeeze that lists no steps lists the default
    /// ones from then on.
    fn add(&mut self, alloc: Global, transform: &mut TransformInfo) -> Result<()>
        requires some_channels { HasChannels (transform_of transform.old) }
        requires placed { IsPlaced self.old }
        ensures gives { TransformGives (transform_of transform.old) (list_of self.old.channels) result
            (transform_of transform.new) (list_of self.new.channels) }
        ensures goes { IfOk result (λ _. GoesOn (listed_steps (transform_of transform.new)) self.old self.new) }
        ensures kind { IfOk result (λ _. IsOfKindOf (transform_of transform.old) (transform_of transform.new)) }
    {
        match transform {
            TransformInfo::Rct(rct) => self.add_colour(rct),
            TransformInfo::Palette(palette) => self.add_palette(alloc, palette),
            TransformInfo::Squeeze(squeeze) => {
                set_default_params(squeeze, &self.channels)?;
                self.add_steps(alloc, &squeeze.sp)
            }
        }
    }

    /// Applies transforms in order, up to the first that has an error: to the channels, to the regions in which they
    /// lie, and to the list of what undoes them. Each transform then lists its steps. A palette has at least one
    /// channel.
    ///
    /// # Errors
    ///
    /// That of the first transform that does not suit the channels which the ones before it leave, by
    /// its kind; `Buffer` if it is out of memory, at any time. After an error nothing is promised of
    /// the transforms and the channels.
    pub fn apply(&mut self, alloc: Global, transforms: &mut Vec<TransformInfo>) -> Result<()>
        requires some_channels { All HasChannels (map transform_of transforms.old.items) }
        requires placed { IsPlaced self.old }
        ensures gives { PrepareGives (map transform_of transforms.old.items) (list_of self.old.channels) result
            (map transform_of transforms.new.items) (list_of self.new.channels) }
        ensures goes { IfOk result (λ _. GoesOn (steps_in (map transform_of transforms.new.items)) self.old self.new) }
        ensures count { IfOk result (λ _. length transforms.new.items ≡ length transforms.old.items) }
        ensures kinds { IfOk result (λ _. AreOfKindsOf (map transform_of transforms.old.items)
            (map transform_of transforms.new.items)) }
    {
        for transform in transforms.iter_mut() {
            self.add(alloc, transform)?;
        }
        Ok(())
    }
}
