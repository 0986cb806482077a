//! How each coded channel is cut (ISO/IEC 18181-1, frame: groups, LF groups and passes), and how many groups there are.

ghost use Rattle.std.specs.Prelude.{◌≡◌, ◌<◌, get_or, length, ◌*◌, ◌/◌, ◌^◌, IsTrue, IsFalse, IfOk, IfErr, unsigned_abs};
ghost use Rattle.jxlm_bits.specs.ErrorKind.{BadSqueeze, kind_of as error_kind};
ghost use Rattle.jxlm_transform.specs.Params.{IsGroupDim};
ghost use Rattle.jxlm_transform.specs.Channels.{Channel, infos};
ghost use Rattle.jxlm_transform.specs.Lists.{list_of};
ghost use Rattle.jxlm_groups.specs.Cutting.{can_cut, cell_height as the_cell_height, cell_width as the_cell_width, columns as the_columns, fits_group as the_fit, global_count as the_global_count, has_cells as the_cells, is_low_frequency as the_low, kind_of as the_kind, rows as the_rows, span as the_span};
ghost use Rattle.jxlm_groups.specs.Counts.{exists as the_existing, group_count as the_group_count, groups_of as the_groups_of, is_kind as the_same_kind};

use crate::part::{Kind, SectionPart};
use crate::pass::{Pass, pass_with};
use jxlm_bits::error::{Error, Result};
use jxlm_transform::channels::{ModularChannelInfo, ModularChannels};

/// How many channels there are.
pub(crate) fn count_of(channels: &ModularChannels) -> usize
    ensures { result ≡ length (infos channels.now.placed.items) }
{
    channels.placed.len()
}

/// Channel `n` of a list.
pub(crate) fn channel_at(channels: &ModularChannels, n: usize) -> &ModularChannelInfo
    requires { n < length (infos channels.now.placed.items) }
    ensures { (d : Channel) → result.now ≡ get_or (infos channels.now.placed.items) n d }
{
    &channels.placed[n].info
}

/// Whether no side of a channel is above that of a group.
fn fits_group(channel: &ModularChannelInfo, group_dim: u32) -> bool
    ensures { result ≡ the_fit group_dim channel.now }
{
    channel.width <= group_dim && channel.height <= group_dim
}

/// How many channels the global part has: the longest prefix of channels that are meta or fit a group.
pub fn global_count(channels: &ModularChannels, group_dim: u32) -> usize
    ensures { result ≡ the_global_count group_dim (list_of channels.now) }
{
    let mut count = channels.nb_meta_channels;
    while count < count_of(channels) && fits_group(channel_at(channels, count), group_dim) {
        count += 1;
    }
    count
}

/// Whether a channel is one of the LF groups: both its shifts are 3 or more.
fn is_low_frequency(channel: &ModularChannelInfo) -> bool
    ensures { result ≡ the_low channel.now }
{
    channel.hshift.min(channel.vshift) >= 3
}

/// How channel `n`, of which the global part has the first `count`, is held.
pub(crate) fn kind_of(passes: &[Pass], count: usize, n: usize, channel: &ModularChannelInfo) -> Kind
    ensures { result ≡ the_kind passes.now count n channel.now }
{
    if n < count {
        Kind::Global
    } else if is_low_frequency(channel) {
        Kind::Lf
    } else {
        Kind::Pass(pass_with(passes, channel.hshift.min(channel.vshift)))
    }
}

/// How many samples of the picture a group of the channel is wide and high.
fn span(channel: &ModularChannelInfo, group_dim: u32) -> u32
    requires { IsGroupDim group_dim }
    ensures { result ≡ the_span group_dim channel.now }
{
    if is_low_frequency(channel) {
        8 * group_dim
    } else {
        group_dim
    }
}

/// A side of a group, halved as often as a channel's is.
fn halved(side: u32, shift: i32) -> usize
    ensures { result ≡ side / 2 ^ unsigned_abs shift }
{
    let shift = shift.unsigned_abs();
    if shift < 32 {
        (side >> shift) as usize
    } else {
        0
    }
}

/// The width of a group's cell in the channel.
pub(crate) fn cell_width(channel: &ModularChannelInfo, group_dim: u32) -> usize
    requires { IsGroupDim group_dim }
    ensures { result ≡ the_cell_width group_dim channel.now }
{
    halved(span(channel, group_dim), channel.hshift)
}

/// Its height.
pub(crate) fn cell_height(channel: &ModularChannelInfo, group_dim: u32) -> usize
    requires { IsGroupDim group_dim }
    ensures { result ≡ the_cell_height group_dim channel.now }
{
    halved(span(channel, group_dim), channel.vshift)
}

/// How many groups of the channel stand side by side.
pub(crate) fn columns(channel: &ModularChannelInfo, group_dim: u32) -> u32
    requires { IsGroupDim group_dim }
    ensures { result ≡ the_columns group_dim channel.now }
{
    channel.original_width.div_ceil(span(channel, group_dim))
}

/// How many rows of groups the channel has.
fn rows(channel: &ModularChannelInfo, group_dim: u32) -> u32
    requires { IsGroupDim group_dim }
    ensures { result ≡ the_rows group_dim channel.now }
{
    channel.original_height.div_ceil(span(channel, group_dim))
}

/// How many groups the channel has.
pub(crate) fn groups(channel: &ModularChannelInfo, group_dim: u32) -> u64
    requires { IsGroupDim group_dim }
    ensures { result ≡ the_columns group_dim channel.now * the_rows group_dim channel.now }
{
    u64::from(columns(channel, group_dim)) * u64::from(rows(channel, group_dim))
}

/// Whether a group's cell in the channel has both sides.
fn has_cells(channel: &ModularChannelInfo, group_dim: u32) -> bool
    requires { IsGroupDim group_dim }
    ensures { result ≡ the_cells group_dim channel.now }
{
    cell_width(channel, group_dim) > 0 && cell_height(channel, group_dim) > 0
}

/// Whether the coded channels, of which the first `nb_meta` are meta channels, can be cut into groups.
///
/// # Errors
///
/// `InvalidSqueezeParams` if a group's cell in a channel that is cut has a side of 0, and no other.
pub fn check_cut(channels: &ModularChannels, group_dim: u32) -> Result<()>
    requires { IsGroupDim group_dim }
    ensures ok { IfOk result (λ _. IsTrue (can_cut group_dim (list_of channels.now))) }
    ensures err { IfErr result (λ e. (error_kind e ≡ BadSqueeze) × IsFalse
        (can_cut group_dim (list_of channels.now))) }
{
    for n in global_count(channels, group_dim)..count_of(channels) {
        if !has_cells(channel_at(channels, n), group_dim) {
            return Err(Error::InvalidSqueezeParams);
        }
    }
    Ok(())
}

/// Whether two kinds are the same.
fn is_kind(one: Kind, other: Kind) -> bool
    ensures { result ≡ the_same_kind one other }
{
    match (one, other) {
        (Kind::Global, Kind::Global) => true,
        (Kind::Lf, Kind::Lf) => true,
        (Kind::Pass(p), Kind::Pass(q)) => p == q,
        _ => false,
    }
}

/// How many groups of a kind channel `n` has, of which the global part has the first `count`.
fn groups_of(
    passes: &[Pass],
    count: usize,
    n: usize,
    channel: &ModularChannelInfo,
    group_dim: u32,
    kind: Kind,
) -> u64
    requires { IsGroupDim group_dim }
    ensures { result ≡ the_groups_of group_dim passes.now count kind (n, channel.now) }
{
    if is_kind(kind, kind_of(passes, count, n, channel)) {
        groups(channel, group_dim)
    } else {
        0
    }
}

/// How many groups there are of a kind: 0 where no channel is cut so.
///
/// Of [`Kind::Lf`] these are the LF groups, and of [`Kind::Pass`] the groups of that pass.
pub fn group_count(channels: &ModularChannels, group_dim: u32, passes: &[Pass], kind: Kind) -> u64
    requires { IsGroupDim group_dim }
    ensures { result ≡ the_group_count group_dim passes.now (list_of channels.now) kind }
{
    let count = global_count(channels, group_dim);
    let mut count_of_kind = 0;
    for n in 0..count_of(channels) {
        let channel = channel_at(channels, n);
        count_of_kind = count_of_kind.max(groups_of(passes, count, n, channel, group_dim, kind));
    }
    count_of_kind
}

/// Whether there is such a part. The global part is always there.
pub fn exists(
    channels: &ModularChannels,
    group_dim: u32,
    passes: &[Pass],
    part: SectionPart,
) -> bool
    requires { IsGroupDim group_dim }
    ensures { result ≡ the_existing group_dim passes.now (list_of channels.now) part }
{
    match part {
        SectionPart::Global => true,
        SectionPart::Lf(k) => k < group_count(channels, group_dim, passes, Kind::Lf),
        SectionPart::Pass(p, k) => { k < group_count(channels, group_dim, passes, Kind::Pass(p)) }
    }
}
