//! What transforms do to the list of an image's channels, and where these lie then (ISO/IEC 18181-1, Modular: the
//! channels after each transform).

ghost use Rattle.std.specs.Prelude.{◌≡◌, ◌≤◌, ◌<◌, ◌^◌, ◌+◌, ◌&&◌, ◌==◌, nat_le, length, map, IsOk, IsTrue, IfOk, IfErr};
ghost use Rattle.std.specs.List.{All, list_all};
ghost use Rattle.std.specs.Result.{is_ok};
ghost use Rattle.jxlm_base.specs.Regions.{region};
ghost use Rattle.jxlm_transform.specs.Channels.{HasItsMeta, infos, regions};
ghost use Rattle.jxlm_transform.specs.Lists.{list_of};
ghost use Rattle.jxlm_transform.specs.ChannelSteps.{PaletteStep, SqueezeStep, range, has_range as the_has_range, one_size as the_one_size, keeps_meta as the_keeps_meta, table_of, can_be_squeezed, squeeze_range, average_channel, residual_channel, with_each_halved, RctStep, list_after};
ghost use Rattle.jxlm_transform.specs.Ends.{HasEnds};
ghost use Rattle.jxlm_transform.specs.Lists.{IsAfter, IsSame};
ghost use Rattle.jxlm_transform.specs.SqueezedRegions.{average_region, residual_region};

use super::{Palette, Rct, SqueezeParams};
use crate::channels::{ModularChannelInfo, ModularChannels, PlacedChannel, sums_for};
use jxlm_base::grid::OutOfMemory;
use std::alloc::Global;

/// Whether a list of `len` channels has `count` of them from `begin` on.
fn has_range(begin: usize, count: usize, len: usize) -> bool
    ensures { result ≡ nat_le (begin + count) len }
{
    count <= len && begin <= len - count
}

/// Whether the others have the size of the first.
fn are_of_size(first: &PlacedChannel, others: &[PlacedChannel]) -> bool
    ensures { result ≡ list_all
        (λ p. p.info.width == first.now.info.width && p.info.height == first.now.info.height) others.now }
{
    others
        .iter()
        .all(|channel| first.info.is_of_size(&channel.info))
}

/// Whether the channels have one size.
fn one_size(channels: &[PlacedChannel]) -> bool
    ensures { result ≡ the_one_size (infos channels.now) }
{
    match channels.split_first() {
        Some((first, others)) => are_of_size(first, others),
        None => true,
    }
}

/// Whether the list has `count` channels from `begin` on, and they have one size.
fn has_one_size(channels: &[PlacedChannel], begin: usize, count: usize) -> bool
    ensures { result ≡ (the_has_range begin count (infos channels.now)
        && the_one_size (range begin count (infos channels.now))) }
{
    has_range(begin, count, channels.len()) && one_size(&channels[begin..begin + count])
}

/// Whether a range that begins among the meta channels ends there.
fn keeps_meta(begin: usize, count: usize, nb_meta: usize) -> bool
    ensures { result ≡ the_keeps_meta begin count nb_meta }
{
    begin >= nb_meta || has_range(begin, count, nb_meta)
}

impl Rct {
    /// Whether the transform suits the channels: from its first channel on there are three, of one size. It changes
    /// neither the list nor where channels lie.
    pub fn suits(&self, channels: &ModularChannels) -> bool
        ensures { result ≡ is_ok (list_after (RctStep self.now) (list_of channels.now)) }
    {
        has_one_size(&channels.placed, self.begin_c as usize, 3)
    }
}

impl Palette {
    /// Whether the palette suits the channels: its range is there, of one size, and ends among the meta channels
    /// where it begins there.
    pub fn suits(&self, channels: &ModularChannels) -> bool
        ensures { result ≡ is_ok (list_after (PaletteStep self.now) (list_of channels.now)) }
    {
        let begin = self.begin_c as usize;
        let count = self.num_c as usize;
        has_one_size(&channels.placed, begin, count)
            && keeps_meta(begin, count, channels.nb_meta_channels)
    }

    /// The channel of the table after these channels, with their sums: it is the whole of the next buffer.
    pub fn table(&self, channels: &ModularChannels) -> PlacedChannel
        ensures info { result.info ≡ table_of self.now (list_of channels.now).channels }
        ensures region { result.region ≡ region channels.now.buffers 0 0 self.now.nb_colours self.now.num_c }
    {
        let sums = sums_for(&channels.placed);
        let info = ModularChannelInfo::table(self.nb_colours, self.num_c, sums);
        PlacedChannel::whole(info, channels.buffers)
    }

    /// Puts the table first, and one channel of indices instead of the range, which lies where the first channel of
    /// the range lay. The table is a meta channel, and so are the indices of meta channels.
    ///
    /// The palette suits the channels, and has at least one channel.
    ///
    /// # Errors
    ///
    /// `OutOfMemory`, and no other; the channels are as before then.
    pub fn transform_channel_info(&self, channels: &mut ModularChannels) -> Result<(), OutOfMemory>
        requires some_channels { 1 ≤ self.now.num_c }
        requires suits { IsOk (list_after (PaletteStep self.now) (list_of channels.old)) }
        requires meta { HasItsMeta (list_of channels.old) }
        requires room { channels.old.buffers + 1 < 2 ^ 64 }
        ensures ok { IfOk result (λ _. IsAfter (PaletteStep self.now) channels.old channels.new) }
        ensures meta { IfOk result (λ _. HasItsMeta (list_of channels.new)) }
        ensures unchanged { IfErr result (λ _. IsSame channels.old channels.new) }
    {
        let begin = self.begin_c as usize;
        let count = self.num_c as usize;
        let nb_meta = channels.nb_meta_channels;
        let table = self.table(channels);
        self.put_table(&mut channels.placed, table)?;
        channels.buffers += 1;
        channels.nb_meta_channels = if begin < nb_meta {
            nb_meta + 2 - count
        } else {
            nb_meta + 1
        };
        Ok(())
    }
}

/// The averages of channels that can be squeezed.
fn averages(
    alloc: Global,
    channels: &[PlacedChannel],
    horizontal: bool,
) -> Result<Vec<PlacedChannel>, OutOfMemory>
    requires { All (λ p. IsTrue (can_be_squeezed p.info)) channels.now }
    ensures infos { IfOk result (λ v. infos v.items ≡ map (average_channel horizontal) (infos channels.now)) }
    ensures regions { IfOk result (λ v. regions v.items ≡ map (average_region horizontal) (regions channels.now)) }
{
    let mut halves = Vec::new(alloc);
    for channel in channels {
        halves.push(channel.average(horizontal))?;
    }
    Ok(halves)
}

/// Their residuals.
fn residuals(
    alloc: Global,
    channels: &[PlacedChannel],
    horizontal: bool,
) -> Result<Vec<PlacedChannel>, OutOfMemory>
    requires can { All (λ p. IsTrue (can_be_squeezed p.info)) channels.now }
    requires ends { All (λ p. HasEnds p.region) channels.now }
    ensures infos { IfOk result (λ v. infos v.items ≡ map (residual_channel horizontal) (infos channels.now)) }
    ensures regions { IfOk result (λ v. regions v.items ≡ map (residual_region horizontal) (regions channels.now)) }
{
    let mut halves = Vec::new(alloc);
    for channel in channels {
        halves.push(channel.residual(horizontal))?;
    }
    Ok(halves)
}

/// Whether each channel can be squeezed.
fn can_all_be_squeezed(channels: &[PlacedChannel]) -> bool
    ensures { result ≡ list_all (λ p. can_be_squeezed p.info) channels.now }
{
    channels
        .iter()
        .all(|channel| channel.info.can_be_squeezed())
}

impl SqueezeParams {
    /// Whether its range is there, and is squeezed in place and ends among the meta channels where
    /// it begins there.
    fn has_its_range(&self, channels: &ModularChannels) -> bool
        ensures { result ≡ squeeze_range self.now (list_of channels.now) }
    {
        let nb_meta = channels.nb_meta_channels;
        let of_image = self.begin_c >= nb_meta;
        let of_meta = self.in_place && has_range(self.begin_c, self.num_c, nb_meta);
        has_range(self.begin_c, self.num_c, channels.placed.len()) && (of_image || of_meta)
    }

    /// Whether the step suits the channels: its range is there; where it begins among the meta channels, it ends there
    /// and is squeezed in place; and no channel of it has a side of 0 or a shift above 30.
    pub fn suits(&self, channels: &ModularChannels) -> bool
        ensures { result ≡ is_ok (list_after (SqueezeStep self.now) (list_of channels.now)) }
    {
        self.has_its_range(channels)
            && can_all_be_squeezed(&channels.placed[self.begin_c..self.begin_c + self.num_c])
    }

    /// Puts the halves of the channels of the range in their places.
    fn halve(&self, alloc: Global, placed: &mut Vec<PlacedChannel>) -> Result<(), OutOfMemory>
        requires range { self.now.begin_c + self.now.num_c ≤ length placed.old.items }
        requires each { All (λ p. IsTrue (can_be_squeezed p.info))
            (range self.now.begin_c self.now.num_c placed.old.items) }
        requires ends { All (λ p. HasEnds p.region) (range self.now.begin_c self.now.num_c placed.old.items) }
        ensures infos { IfOk result (λ _. infos placed.new.items ≡ with_each_halved self.now
            (average_channel self.now.horizontal) (residual_channel self.now.horizontal) (infos placed.old.items)) }
        ensures regions { IfOk result (λ _. regions placed.new.items ≡ with_each_halved self.now
            (average_region self.now.horizontal) (residual_region self.now.horizontal) (regions placed.old.items)) }
        ensures unchanged { IfErr result (λ _. placed.new.items ≡ placed.old.items) }
    {
        let range = &placed[self.begin_c..self.begin_c + self.num_c];
        let averages = averages(alloc, range, self.horizontal)?;
        let residuals = residuals(alloc, range, self.horizontal)?;
        self.put_halves(placed, &averages, residuals)
    }

    /// Halves the channels of the range along one side, and their regions. Averages take their place, residuals come
    /// right after the range (`in_place`) or at the end of the list. The shift of that side grows
    /// by one in both where it is 0 or more. What becomes of meta channels is a meta channel.
    ///
    /// The step suits the channels.
    ///
    /// # Errors
    ///
    /// `OutOfMemory`, and no other; the channels are as before then.
    pub fn transform_channel_info(
        &self,
        alloc: Global,
        channels: &mut ModularChannels,
    ) -> Result<(), OutOfMemory>
        requires suits { IsOk (list_after (SqueezeStep self.now) (list_of channels.old)) }
        requires meta { HasItsMeta (list_of channels.old) }
        ensures ok { IfOk result (λ _. IsAfter (SqueezeStep self.now) channels.old channels.new) }
        ensures meta { IfOk result (λ _. HasItsMeta (list_of channels.new)) }
        ensures unchanged { IfErr result (λ _. IsSame channels.old channels.new) }
    {
        self.halve(alloc, &mut channels.placed)?;
        if self.begin_c < channels.nb_meta_channels {
            channels.nb_meta_channels += self.num_c;
        }
        Ok(())
    }
}
