//! The channels of an image, as they are coded (ISO/IEC 18181-1, Modular: channel list).

ghost use Rattle.std.specs.Prelude.{◌≡◌, ◌≤ℤ◌, ◌&&◌, ◌==◌, pos, IsTrue, IfOk, IfErr, map};
ghost use Rattle.std.specs.List.{All, list_any};
ghost use Rattle.jxlm_bits.specs.ErrorKind.{NoMemory, kind_of};
ghost use Rattle.jxlm_base.specs.Regions.{region};
ghost use Rattle.jxlm_lanes.specs.Squeeze.{averages as the_averages};
ghost use Rattle.jxlm_transform.specs.ChannelSteps.{table_by, average_channel, residual_channel, can_be_squeezed, shift_of_half as the_grown};
ghost use Rattle.jxlm_transform.specs.Channels.{image_channel, infos, regions, sums_for as the_sums, tables_for as the_tables};
ghost use Rattle.jxlm_transform.specs.Ends.{HasEnds};
ghost use Rattle.jxlm_transform.specs.Params.{IsValidChannel, are_clamped, has_deltas};
ghost use Rattle.jxlm_transform.specs.SqueezedRegions.{average_region, residual_region};

use crate::param::{ChannelShift, GradientSums, ModularChannelParams, PaletteTables};
use jxlm_base::grid::{OutOfMemory, Region};
use jxlm_bits::error::Result;
use std::alloc::Global;

/// What is known of a channel as it is coded: its size, its shifts, and the size and the shift that it came with.
#[derive(Clone, Copy)]
pub struct ModularChannelInfo {
    /// The width, in samples.
    pub width: u32,
    /// The height, in samples.
    pub height: u32,
    /// The width with which the channel was given.
    pub original_width: u32,
    /// The height with which it was given.
    pub original_height: u32,
    /// How often the width is halved; -1 for a table.
    pub hshift: i32,
    /// How often the height is halved; -1 for a table.
    pub vshift: i32,
    /// The shift with which the channel was given.
    pub original_shift: ChannelShift,
    /// The tables of palettes with which it was given; for a table itself those of colours alone.
    pub palette_tables: PaletteTables,
    /// The sums by which it was given; a table has those of the channels that it is made for.
    pub gradient_sums: GradientSums,
}

impl ModularChannelInfo {
    /// A channel as it is given, before any transform.
    pub fn new(params: &ModularChannelParams) -> ModularChannelInfo
        requires { IsValidChannel params.now }
        ensures { result ≡ image_channel params.now }
    {
        let (width, height) = params.shift.shift_size((params.width, params.height));
        ModularChannelInfo {
            width,
            height,
            original_width: params.width,
            original_height: params.height,
            hshift: params.shift.hshift(),
            vshift: params.shift.vshift(),
            original_shift: params.shift,
            palette_tables: params.palette_tables,
            gradient_sums: params.gradient_sums,
        }
    }

    /// The table of a palette: a column for each colour, and a row for each channel; and these sums.
    pub(crate) fn table(
        nb_colours: u32,
        num_c: u32,
        gradient_sums: GradientSums,
    ) -> ModularChannelInfo
        ensures { result ≡ table_by nb_colours num_c gradient_sums }
    {
        ModularChannelInfo {
            width: nb_colours,
            height: num_c,
            original_width: nb_colours,
            original_height: num_c,
            hshift: -1,
            vshift: -1,
            original_shift: ChannelShift::Raw(-1, -1),
            palette_tables: PaletteTables::OfColours,
            gradient_sums,
        }
    }

    /// The shift with which the channel was given.
    pub fn shift(&self) -> ChannelShift
        ensures { result ≡ self.now.original_shift }
    {
        self.original_shift
    }

    /// The width and the height, in samples, with which the channel was given.
    pub fn original_size(&self) -> (u32, u32)
        ensures { result ≡ (self.now.original_width, self.now.original_height) }
    {
        (self.original_width, self.original_height)
    }

    /// Whether another channel has the size of this one.
    pub fn is_of_size(&self, other: &ModularChannelInfo) -> bool
        ensures { result ≡ (other.now.width == self.now.width && other.now.height == self.now.height) }
    {
        other.width == self.width && other.height == self.height
    }

    /// Whether it may be squeezed: it has samples, and its shifts are at most 30.
    pub(crate) fn can_be_squeezed(&self) -> bool
        ensures { result ≡ can_be_squeezed self.now }
    {
        self.width > 0 && self.height > 0 && self.hshift <= 30 && self.vshift <= 30
    }

    /// The averages of the channel, where it is squeezed across or down.
    pub(crate) fn average(&self, horizontal: bool) -> ModularChannelInfo
        requires { IsTrue (can_be_squeezed self.now) }
        ensures { result ≡ average_channel horizontal self.now }
    {
        if horizontal {
            ModularChannelInfo {
                width: self.width.div_ceil(2),
                hshift: grown(self.hshift),
                ..*self
            }
        } else {
            ModularChannelInfo {
                height: self.height.div_ceil(2),
                vshift: grown(self.vshift),
                ..*self
            }
        }
    }

    /// The residuals of the channel, where it is squeezed across or down.
    pub(crate) fn residual(&self, horizontal: bool) -> ModularChannelInfo
        requires { IsTrue (can_be_squeezed self.now) }
        ensures { result ≡ residual_channel horizontal self.now }
    {
        if horizontal {
            ModularChannelInfo {
                width: self.width / 2,
                hshift: grown(self.hshift),
                ..*self
            }
        } else {
            ModularChannelInfo {
                height: self.height / 2,
                vshift: grown(self.vshift),
                ..*self
            }
        }
    }
}

/// A shift of a side that is halved once more; that of a table stays.
fn grown(shift: i32) -> i32
    requires { shift ≤ℤ pos 30 }
    ensures { result ≡ the_grown shift }
{
    if shift >= 0 { shift + 1 } else { shift }
}

/// The channels of these parameters, before any transform.
///
/// # Errors
///
/// `Buffer` if it is out of memory, and no other.
pub fn image_channels(
    alloc: Global,
    params: &[ModularChannelParams],
) -> Result<Vec<ModularChannelInfo>>
    requires { All IsValidChannel params.now }
    ensures ok { IfOk result (λ v. v.items ≡ map image_channel params.now) }
    ensures err { IfErr result (λ e. kind_of e ≡ NoMemory) }
{
    let mut channels = Vec::new(alloc);
    for channel in params {
        channels.push(ModularChannelInfo::new(channel))?;
    }
    Ok(channels)
}

/// How many averages a side of `n` samples has.
fn averages(n: usize) -> usize
    ensures { result ≡ the_averages n }
{
    n - n / 2
}

/// The part of a squeezed region that has the averages.
fn average_part(region: &Region, horizontal: bool) -> Region
    ensures { result ≡ average_region horizontal region.now }
{
    if horizontal {
        Region {
            width: averages(region.width),
            ..*region
        }
    } else {
        Region {
            height: averages(region.height),
            ..*region
        }
    }
}

/// The part that has the residuals.
fn residual_part(region: &Region, horizontal: bool) -> Region
    requires { HasEnds region.now }
    ensures { result ≡ residual_region horizontal region.now }
{
    if horizontal {
        Region {
            x: region.x + averages(region.width),
            width: region.width / 2,
            ..*region
        }
    } else {
        Region {
            y: region.y + averages(region.height),
            height: region.height / 2,
            ..*region
        }
    }
}

/// A channel, and where its samples lie in a store.
#[derive(Clone, Copy)]
pub struct PlacedChannel {
    /// The channel.
    pub info: ModularChannelInfo,
    /// Its region of the store.
    pub region: Region,
}

impl PlacedChannel {
    /// A channel that is the whole of a buffer.
    pub(crate) fn whole(info: ModularChannelInfo, buffer: usize) -> PlacedChannel
        ensures info { result.info ≡ info }
        ensures region { result.region ≡ region buffer 0 0 info.width info.height }
    {
        PlacedChannel {
            info,
            region: Region {
                buffer,
                x: 0,
                y: 0,
                width: info.width as usize,
                height: info.height as usize,
            },
        }
    }

    /// Its averages, where it is squeezed across or down.
    pub(crate) fn average(&self, horizontal: bool) -> PlacedChannel
        requires { IsTrue (can_be_squeezed self.now.info) }
        ensures info { result.info ≡ average_channel horizontal self.now.info }
        ensures region { result.region ≡ average_region horizontal self.now.region }
    {
        PlacedChannel {
            info: self.info.average(horizontal),
            region: average_part(&self.region, horizontal),
        }
    }

    /// Its residuals, where it is squeezed across or down.
    pub(crate) fn residual(&self, horizontal: bool) -> PlacedChannel
        requires can { IsTrue (can_be_squeezed self.now.info) }
        requires ends { HasEnds self.now.region }
        ensures info { result.info ≡ residual_channel horizontal self.now.info }
        ensures region { result.region ≡ residual_region horizontal self.now.region }
    {
        PlacedChannel {
            info: self.info.residual(horizontal),
            region: residual_part(&self.region, horizontal),
        }
    }
}

// Whether one of these channels asks for tables of deltas.
fn ask_for_deltas(channels: &[PlacedChannel]) -> bool
    ensures { result ≡ list_any (λ p. has_deltas p.info.palette_tables) channels.now }
{
    channels
        .iter()
        .any(|channel| channel.info.palette_tables.has_deltas())
}

/// The tables of palettes that a header of these channels has: with deltas where one of the channels asks for them.
pub fn tables_for(channels: &[PlacedChannel]) -> PaletteTables
    ensures { result ≡ the_tables (infos channels.now) }
{
    if ask_for_deltas(channels) {
        PaletteTables::OfDeltasToo
    } else {
        PaletteTables::OfColours
    }
}

// Whether one of these channels asks for clamped sums.
fn ask_for_clamped(channels: &[PlacedChannel]) -> bool
    ensures { result ≡ list_any (λ p. are_clamped p.info.gradient_sums) channels.now }
{
    channels
        .iter()
        .any(|channel| channel.info.gradient_sums.are_clamped())
}

/// The sums of a table for some of these channels: clamped where one of the channels asks for them.
pub(crate) fn sums_for(channels: &[PlacedChannel]) -> GradientSums
    ensures { result ≡ the_sums (infos channels.now) }
{
    if ask_for_clamped(channels) {
        GradientSums::Clamped
    } else {
        GradientSums::Wrapped
    }
}

/// The channels of an image, and where they lie in a store. Those of tables, and what became of them, come first: the
/// meta channels.
#[derive(Drop)]
pub struct ModularChannels {
    /// The channels, in order.
    pub placed: Vec<PlacedChannel>,
    /// How many of them are meta channels.
    pub nb_meta_channels: usize,
    /// How many buffers of the store are taken.
    pub buffers: usize,
    ghost ends: { All HasEnds (regions placed.items) },
}

impl ModularChannels {
    ghost use Rattle.jxlm_transform.specs.Layout.{first_layout};
    ghost use Rattle.jxlm_transform.specs.Lists.{layout_of, list_of};

    /// These channels, before any transform: each is the whole of a buffer of its own.
    ///
    /// # Errors
    ///
    /// `OutOfMemory`, and no other.
    pub fn new(
        alloc: Global,
        given: &[ModularChannelInfo],
    ) -> std::result::Result<ModularChannels, OutOfMemory>
        ensures list { IfOk result (λ l. list_of l ≡ record { channels = given.now; nb_meta = 0 }) }
        ensures layout { IfOk result (λ l. layout_of l ≡ first_layout given.now) }
    {
        let mut placed = Vec::new(alloc);
        for info in given {
            placed.push(PlacedChannel::whole(*info, placed.len()))?;
        }
        let buffers = placed.len();
        Ok(ModularChannels {
            placed,
            nb_meta_channels: 0,
            buffers,
        })
    }
}
