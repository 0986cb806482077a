//! What a part holds of the coded channels (ISO/IEC 18181-1, Modular: global and group sub-bitstreams).

ghost use Rattle.std.specs.Prelude.{◌≡◌, ◌↔◌, IsTrue, ◌+◌, ◌*◌, ◌^◌, ◌<◌, ◌++◌, ◌∷◌, [], IfOk, IfSome, nat_lt, true};
ghost use Rattle.std.specs.List.{All, cons_option};
ghost use Rattle.jxlm_transform.specs.Channels.{AreRegionsOf, infos, regions};
ghost use Rattle.jxlm_transform.specs.Ends.{HasEnds};
ghost use Rattle.jxlm_transform.specs.Params.{IsGroupDim};
ghost use Rattle.jxlm_transform.specs.Lists.{list_of};
ghost use Rattle.jxlm_groups.specs.Cutting.{columns as the_columns, rows as the_rows};
ghost use Rattle.jxlm_groups.specs.Parts.{HasSome};
ghost use Rattle.jxlm_groups.specs.Inner.Fitting.{Adds, FitsBack, FitsIn};
ghost use Rattle.jxlm_groups.specs.Pieces.{ArePiecesOf, channel_in as the_channel, piece_channel as the_piece_channel, piece_in as the_piece, piece_of_group as the_group, pieces as the_pieces, where_some, within as the_place};

use crate::cut::{
    cell_height, cell_width, channel_at, columns, count_of, global_count, groups, kind_of,
};
use crate::part::{Kind, SectionPart};
use crate::pass::Pass;
use jxlm_base::grid::{OutOfMemory, Region};
use jxlm_transform::channels::{ModularChannelInfo, ModularChannels, PlacedChannel};
use std::alloc::Global;

/// The region, unless it has no cells.
fn with_cells(region: Region) -> Option<Region>
    ensures { result ≡ where_some true region }
{
    if region.width > 0 && region.height > 0 {
        Some(region)
    } else {
        None
    }
}

/// Group k's cells of channel n, if the channel has the group and there are some.
fn piece_of_group(channel: &ModularChannelInfo, n: usize, group_dim: u32, k: u64) -> Option<Region>
    requires { IsGroupDim group_dim }
    ensures fits { IfSome result (λ r. FitsBack channel.now r) }
    ensures piece { result ≡ where_some (nat_lt k (the_columns group_dim channel.now * the_rows group_dim channel.now))
        (the_group group_dim k n channel.now) }
{
    if k >= groups(channel, group_dim) {
        return None;
    }
    let columns = u64::from(columns(channel, group_dim));
    let width = cell_width(channel, group_dim);
    let height = cell_height(channel, group_dim);
    let x = (k % columns) as usize * width;
    let y = (k / columns) as usize * height;
    with_cells(Region {
        buffer: n,
        x,
        y,
        width: width.min((channel.width as usize).saturating_sub(x)),
        height: height.min((channel.height as usize).saturating_sub(y)),
    })
}

/// What a part holds of channel n, of a kind: the global part all of it, a group what its cell has.
pub(crate) fn piece_in(
    channel: &ModularChannelInfo,
    n: usize,
    kind: Kind,
    group_dim: u32,
    part: SectionPart,
) -> Option<Region>
    requires { IsGroupDim group_dim }
    ensures fits { IfSome result (λ r. FitsIn part channel.now r) }
    ensures piece { result ≡ the_piece group_dim kind part n channel.now }
{
    match (kind, part) {
        (Kind::Global, SectionPart::Global) => Some(Region {
            buffer: n,
            x: 0,
            y: 0,
            width: channel.width as usize,
            height: channel.height as usize,
        }),
        (Kind::Lf, SectionPart::Lf(k)) => piece_of_group(channel, n, group_dim, k),
        (Kind::Pass(q), SectionPart::Pass(p, k)) => {
            if p == q {
                piece_of_group(channel, n, group_dim, k)
            } else {
                None
            }
        }
        _ => None,
    }
}

/// The channel that a group has of a piece of a channel: of a picture of the piece's sides, shifted back.
fn piece_channel(channel: &ModularChannelInfo, piece: Region) -> ModularChannelInfo
    requires { FitsBack channel.now piece }
    ensures { result ≡ the_piece_channel channel.now piece }
{
    let width = piece.width as u32;
    let height = piece.height as u32;
    ModularChannelInfo {
        width,
        height,
        original_width: width << channel.hshift.unsigned_abs(),
        original_height: height << channel.vshift.unsigned_abs(),
        ..*channel
    }
}

/// The channel that a part has of a piece of a channel.
fn channel_in(part: SectionPart, channel: &ModularChannelInfo, piece: Region) -> ModularChannelInfo
    requires { FitsIn part channel.now piece }
    ensures { result ≡ the_channel part channel.now piece }
{
    match part {
        SectionPart::Global => *channel,
        _ => piece_channel(channel, piece),
    }
}

/// Where a piece of a channel lies, whose region in the store is this one.
fn within(region: &Region, piece: Region) -> Region
    requires across { region.now.x + piece.x < 2 ^ 64 }
    requires down { region.now.y + piece.y < 2 ^ 64 }
    ensures { result ≡ the_place region.now piece }
{
    Region {
        buffer: region.buffer,
        x: region.x + piece.x,
        y: region.y + piece.y,
        width: piece.width,
        height: piece.height,
    }
}

/// Adds what a part has of coded channel n, of a kind.
fn add(
    pieces: &mut Vec<PlacedChannel>,
    channel: &PlacedChannel,
    n: usize,
    kind: Kind,
    group_dim: u32,
    part: SectionPart,
) -> Result<(), OutOfMemory>
    requires group_dim { IsGroupDim group_dim }
    requires sides { (channel.now.region.width ≡ channel.now.info.width)
        × (channel.now.region.height ≡ channel.now.info.height) }
    requires room { HasEnds channel.now.region }
    ensures { IfOk result (λ _. Adds (the_piece group_dim kind part n channel.now.info) part channel.now.info
        channel.now.region pieces.old.items pieces.new.items) }
{
    if let Some(piece) = piece_in(&channel.info, n, kind, group_dim, part) {
        pieces.push(PlacedChannel {
            info: channel_in(part, &channel.info, piece),
            region: within(&channel.region, piece),
        })?;
    }
    Ok(())
}

/// What a part holds of the coded channels: channels of its own, with their regions in the store. It takes time for each
/// channel, and for each pass where a channel is cut into a pass's groups.
///
/// # Errors
///
/// `OutOfMemory`, and no other.
pub fn pieces(
    alloc: Global,
    channels: &ModularChannels,
    group_dim: u32,
    passes: &[Pass],
    part: SectionPart,
) -> Result<Vec<PlacedChannel>, OutOfMemory>
    requires group_dim { IsGroupDim group_dim }
    requires sides { AreRegionsOf (infos channels.now.placed.items) (regions channels.now.placed.items) }
    ensures { IfOk result (λ v. ArePiecesOf group_dim passes.now (list_of channels.now)
        (regions channels.now.placed.items) part v.items) }
{
    let count = global_count(channels, group_dim);
    let mut pieces = Vec::new(alloc);
    for n in 0..count_of(channels) {
        let channel = &channels.placed[n];
        let kind = kind_of(passes, count, n, &channel.info);
        add(&mut pieces, channel, n, kind, group_dim, part)?;
    }
    Ok(pieces)
}

/// Whether there is a region, and it has cells.
fn has_some(piece: Option<Region>) -> bool
    ensures { IsTrue result ↔ HasSome (cons_option piece []) }
{
    match piece {
        Some(piece) => piece.width > 0 && piece.height > 0,
        None => false,
    }
}

/// Whether a part has cells of the coded channels, of which the first `nb_meta` are meta channels.
pub fn has_pieces(
    channels: &ModularChannels,
    group_dim: u32,
    passes: &[Pass],
    part: SectionPart,
) -> bool
    requires { IsGroupDim group_dim }
    ensures { IsTrue result ↔ HasSome (the_pieces group_dim passes.now (list_of channels.now) part) }
{
    let count = global_count(channels, group_dim);
    for n in 0..count_of(channels) {
        let channel = channel_at(channels, n);
        let kind = kind_of(passes, count, n, channel);
        if has_some(piece_in(channel, n, kind, group_dim, part)) {
            return true;
        }
    }
    false
}
