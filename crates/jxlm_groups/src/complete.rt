//! Whether a set of parts has all parts with cells (ISO/IEC 18181-1, Modular: global and group sub-bitstreams).

ghost use Rattle.std.specs.Prelude.{◌≡◌, ◌↔◌, IsTrue};
ghost use Rattle.jxlm_transform.specs.Params.{IsGroupDim};
ghost use Rattle.jxlm_transform.specs.Lists.{list_of};
ghost use Rattle.jxlm_groups.specs.PartSets.{HoldsEach};
ghost use Rattle.jxlm_groups.specs.Parts.{part_in as the_part};
ghost use Rattle.jxlm_groups.specs.Inner.Holding.{HasCellsOf, HoldsEachOf, part_count as the_part_count};

use crate::cut::{channel_at, count_of, global_count, groups, kind_of};
use crate::part::{Kind, SectionPart};
use crate::pass::Pass;
use crate::pieces::piece_in;
use jxlm_transform::channels::{ModularChannelInfo, ModularChannels};
use std::collections::BTreeSet;

/// How many parts hold a channel of a kind: the global part alone, or its groups.
fn part_count(channel: &ModularChannelInfo, group_dim: u32, kind: Kind) -> u64
    requires { IsGroupDim group_dim }
    ensures { result ≡ the_part_count group_dim kind channel.now }
{
    match kind {
        Kind::Global => 1,
        _ => groups(channel, group_dim),
    }
}

/// The part that is group k of a kind.
pub(crate) fn part_in(kind: Kind, k: u64) -> SectionPart
    ensures { result ≡ the_part kind k }
{
    match kind {
        Kind::Global => SectionPart::Global,
        Kind::Lf => SectionPart::Lf(k),
        Kind::Pass(number) => SectionPart::Pass(number, k),
    }
}

/// Whether a part has cells of channel n, of a kind.
fn has_cells_of(
    channel: &ModularChannelInfo,
    n: usize,
    kind: Kind,
    group_dim: u32,
    part: SectionPart,
) -> bool
    requires { IsGroupDim group_dim }
    ensures { IsTrue result ↔ HasCellsOf group_dim kind n channel.now part }
{
    match piece_in(channel, n, kind, group_dim, part) {
        Some(piece) => piece.width > 0 && piece.height > 0,
        None => false,
    }
}

/// Whether a set has each part with cells of channel n, of a kind.
fn has_parts_of(
    channel: &ModularChannelInfo,
    n: usize,
    kind: Kind,
    group_dim: u32,
    parts: &BTreeSet<SectionPart>,
) -> bool
    requires { IsGroupDim group_dim }
    ensures { IsTrue result ↔ HoldsEachOf group_dim kind n channel.now parts.now }
{
    for k in 0..part_count(channel, group_dim, kind) {
        let part = part_in(kind, k);
        if has_cells_of(channel, n, kind, group_dim, part) && !parts.contains(&part) {
            return false;
        }
    }
    true
}

/// Whether a set has each part with cells of the coded channels, of which the first `nb_meta` are meta channels. It
/// takes time for each group of each channel.
pub fn has_each_part(
    channels: &ModularChannels,
    group_dim: u32,
    passes: &[Pass],
    parts: &BTreeSet<SectionPart>,
) -> bool
    requires { IsGroupDim group_dim }
    ensures { IsTrue result ↔ HoldsEach group_dim passes.now (list_of channels.now) parts.now }
{
    let count = global_count(channels, group_dim);
    for n in 0..count_of(channels) {
        let channel = channel_at(channels, n);
        let kind = kind_of(passes, count, n, channel);
        if !has_parts_of(channel, n, kind, group_dim, parts) {
            return false;
        }
    }
    true
}
