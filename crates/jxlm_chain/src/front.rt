//! The steps of a squeeze at the front of long lists of channels: each step moves the front alone, and what comes after
//! it is moved once for all of them.

ghost use Rattle.std.specs.Prelude.{◌≡◌, ◌≤◌, ◌<◌, ◌^◌, ◌+◌, ◌++◌, ◌∷◌, [], length, map, take, drop, IsTrue, IsFalse, IfOk, IfErr};
ghost use Rattle.std.specs.List.{list_all};
ghost use Rattle.jxlm_bits.specs.ErrorKind.{NoMemory, kind_of};
ghost use Rattle.jxlm_chain.specs.Inner.Fronts.{AppendsLast, FrontGoesOn, IsFrontOf, is_within as the_is_within, meta_after as the_meta_after, suits_meta as the_suits_meta, layout_with, list_with};
ghost use Rattle.jxlm_chain.specs.Placed.{GoesOn, IsPlaced};
ghost use Rattle.jxlm_transform.specs.Lists.{layout_of};
ghost use Rattle.jxlm_chain.specs.Undoings.{undos_of};
ghost use Rattle.jxlm_transform.specs.Lists.{list_of};
ghost use Rattle.jxlm_transform.specs.ChannelSteps.{ListGives, SqueezeStep, list_after, list_after_all};

use crate::placed::PlacedChannels;
use jxlm_base::grid::OutOfMemory;
use jxlm_bits::error::{Error, Result};
use jxlm_transform::channels::ModularChannels;
use jxlm_transform::transform::SqueezeParams;
use std::alloc::Global;

/// The first channels of a list on their own, for steps that reach no further.
#[derive(Drop)]
struct Front {
    /// The channels, of which none counts as a meta channel, and what undoes the steps that they took.
    placed: PlacedChannels,
    /// How many channels of the list they stand for.
    count: usize,
}

/// Puts others in the place of the first `count` of a list.
fn replace_first<T: Copy + Drop>(
    list: &mut Vec<T>,
    count: usize,
    others: Vec<T>,
) -> std::result::Result<(), OutOfMemory>
    requires { count ≤ length list.old.items }
    ensures gives { IfOk result (λ _. list.new.items ≡ others.items ++ drop count list.old.items) }
    ensures unchanged { IfErr result (λ _. list.new.items ≡ list.old.items) }
{
    list.splice(0..count, others)?;
    Ok(())
}

/// The first channels of a list, of which none counts as a meta channel, with no buffer taken.
fn first_of(
    alloc: Global,
    channels: &ModularChannels,
    count: usize,
) -> std::result::Result<ModularChannels, OutOfMemory>
    requires { count ≤ length channels.now.placed.items }
    ensures placed { IfOk result (λ l. l.placed.items ≡ take count channels.now.placed.items) }
    ensures meta { IfOk result (λ l. l.nb_meta_channels ≡ 0) }
    ensures buffers { IfOk result (λ l. l.buffers ≡ 0) }
{
    let placed = Vec::from_slice(alloc, &channels.placed[..count])?;
    Ok(ModularChannels {
        placed,
        nb_meta_channels: 0,
        buffers: 0,
    })
}

/// After which channel the last range of the steps ends.
pub(crate) fn reach(steps: &[SqueezeParams]) -> usize {
    let mut end = 0;
    for step in steps {
        end = end.max(step.begin_c.saturating_add(step.num_c));
    }
    end
}

/// Whether the range of a step ends within the first `count` channels.
fn is_within(step: &SqueezeParams, count: usize) -> bool
    ensures { result ≡ the_is_within count step.now }
{
    step.num_c <= count && step.begin_c <= count - step.num_c
}

/// Whether the ranges of all steps do.
pub(crate) fn are_within(steps: &[SqueezeParams], count: usize) -> bool
    ensures { result ≡ list_all (the_is_within count) steps.now }
{
    steps.iter().all(|step| is_within(step, count))
}

/// Whether a step begins after the meta channels, or ends among them and is in place.
fn suits_meta(step: &SqueezeParams, nb_meta: usize) -> bool
    ensures { result ≡ the_suits_meta nb_meta step.now }
{
    step.begin_c >= nb_meta || step.in_place && is_within(step, nb_meta)
}

/// How many meta channels there are after a step.
fn meta_after(step: &SqueezeParams, nb_meta: usize) -> usize
    requires { nb_meta + step.now.num_c < 2 ^ 64 }
    ensures { result ≡ the_meta_after nb_meta step.now }
{
    if step.begin_c < nb_meta {
        nb_meta + step.num_c
    } else {
        nb_meta
    }
}

impl PlacedChannels {
    /// The first channels, as a front that has taken no step.
    fn front(&self, alloc: Global, count: usize) -> Result<Front>
        requires placed { IsPlaced self.now }
        requires within { count ≤ length self.now.channels.placed.items }
        ensures front { IfOk result (λ f. IsFrontOf self.now f) }
        ensures list { IfOk result (λ f. list_with f self.now ≡ list_of self.now.channels) }
        ensures layout { IfOk result (λ f. layout_with f self.now ≡ layout_of self.now.channels) }
        ensures undos { IfOk result (λ f. undos_of f.placed.undoings.items ≡ []) }
        ensures count { IfOk result (λ f. f.count ≡ count) }
        ensures err { IfErr result (λ e. kind_of e ≡ NoMemory) }
    {
        let channels = first_of(alloc, &self.channels, count)?;
        let placed = PlacedChannels::new(alloc, channels);
        Ok(Front { placed, count })
    }

    /// Puts the last channels of a front, the residuals of a step, at the end of the list.
    fn append_last(&mut self, front: &mut Front, count: usize) -> Result<()>
        requires { count ≤ length front.old.placed.channels.placed.items }
        ensures list { IfOk result (λ _. AppendsLast count front.old self.old front.new self.new) }
        ensures err { IfErr result (λ e. kind_of e ≡ NoMemory) }
    {
        let kept = front.placed.channels.placed.len() - count;
        let mut last = front.placed.channels.placed.split_off(kept)?;
        self.channels.placed.append(&mut last)?;
        Ok(())
    }

    /// Puts the residuals of a step, the last channels of the front, at the end of the list, if that is their place.
    fn settle(&mut self, front: &mut Front, step: &SqueezeParams) -> Result<()>
        requires { step.now.num_c ≤ length front.old.placed.channels.placed.items }
        ensures inside { IsTrue step.now.in_place → IfOk result
            (λ _. (self.new ≡ self.old) × (front.new ≡ front.old)) }
        ensures at_end { IsFalse step.now.in_place → IfOk result (λ _. AppendsLast step.now.num_c front.old self.old
            front.new self.new) }
        ensures err { IfErr result (λ e. kind_of e ≡ NoMemory) }
    {
        if step.in_place {
            return Ok(());
        }
        self.append_last(front, step.num_c)
    }

    /// Takes a step that ends within the front.
    fn add_to_front(&mut self, alloc: Global, front: &mut Front, step: &SqueezeParams) -> Result<()>
        requires front { IsFrontOf self.old front.old }
        requires within { IsTrue (the_is_within front.old.count step.now) }
        ensures list { ListGives (list_after (SqueezeStep step.now) (list_with front.old self.old)) result
            (list_with front.new self.new) }
        ensures goes { IfOk result (λ _. FrontGoesOn (SqueezeStep step.now ∷ []) front.old self.old
            front.new self.new) }
    {
        let nb_meta = self.channels.nb_meta_channels;
        if !suits_meta(step, nb_meta) {
            return Err(Error::InvalidSqueezeParams);
        }
        front.placed.add_halves(alloc, step)?;
        self.channels.nb_meta_channels = meta_after(step, nb_meta);
        self.settle(front, step)?;
        Ok(())
    }

    /// Takes steps that end within the front.
    fn add_all_to_front(
        &mut self,
        alloc: Global,
        front: &mut Front,
        steps: &[SqueezeParams],
    ) -> Result<()>
        requires front { IsFrontOf self.old front.old }
        requires within { IsTrue (list_all (the_is_within front.old.count) steps.now) }
        ensures list { ListGives (list_after_all (map SqueezeStep steps.now) (list_with front.old self.old)) result
            (list_with front.new self.new) }
        ensures goes { IfOk result (λ _. FrontGoesOn (map SqueezeStep steps.now) front.old self.old
            front.new self.new) }
    {
        for step in steps {
            self.add_to_front(alloc, front, step)?;
        }
        Ok(())
    }

    /// Puts a front back in the place of the channels that it stands for.
    fn put_front(&mut self, front: Front) -> Result<()>
        requires { IsFrontOf self.old front }
        ensures list { IfOk result (λ _. list_of self.new.channels ≡ list_with front self.old) }
        ensures layout { IfOk result (λ _. layout_of self.new.channels ≡ layout_with front self.old) }
        ensures undos { IfOk result (λ _. undos_of self.new.undoings.items ≡ undos_of self.old.undoings.items
            ++ undos_of front.placed.undoings.items) }
        ensures tables { IfOk result (λ _. self.new.tables ≡ self.old.tables) }
        ensures err { IfErr result (λ e. kind_of e ≡ NoMemory) }
    {
        let Front { placed, count } = front;
        let PlacedChannels {
            channels,
            mut undoings,
            ..
        } = placed;
        let ModularChannels { placed: first, .. } = channels;
        replace_first(&mut self.channels.placed, count, first)?;
        self.undoings.append(&mut undoings)?;
        Ok(())
    }

    /// Goes on by squeeze steps that end within the first `count` channels.
    pub(crate) fn add_in_front(
        &mut self,
        alloc: Global,
        steps: &[SqueezeParams],
        count: usize,
    ) -> Result<()>
        requires placed { IsPlaced self.old }
        requires front { count ≤ length self.old.channels.placed.items }
        requires within { IsTrue (list_all (the_is_within count) steps.now) }
        ensures list { ListGives (list_after_all (map SqueezeStep steps.now) (list_of self.old.channels)) result
            (list_of self.new.channels) }
        ensures goes { IfOk result (λ _. GoesOn (map SqueezeStep steps.now) self.old self.new) }
    {
        let mut front = self.front(alloc, count)?;
        self.add_all_to_front(alloc, &mut front, steps)?;
        self.put_front(front)?;
        Ok(())
    }
}
