//! What comes before an image's tree: the header, applied to the channels, and its conditions.

ghost use Rattle.std.specs.Prelude.{◌≡◌, true, is_some, IfOk};
ghost use Rattle.std.specs.List.{All};
ghost use Rattle.std.specs.Option.{option_copied};
ghost use Rattle.jxlm_bits.specs.Grammar.{Parses};
ghost use Rattle.jxlm_bits.specs.Bits.{bytes_of, position_of};
ghost use Rattle.jxlm_chain.specs.Placed.{GoesOn, IsPlaced};
ghost use Rattle.jxlm_header.specs.Opening.{opening};
ghost use Rattle.jxlm_transform.specs.Channels.{IsNarrow, infos};
ghost use Rattle.jxlm_transform.specs.Lists.{list_of};
ghost use Rattle.jxlm_nested.specs.Opened.{IsOpened, TreeOfGives, opened_of, steps_of_header};

use jxlm_bits::bits::Bitstream;
use jxlm_bits::decoder::Decoder;
use jxlm_bits::error::{Error, Result};
use jxlm_chain::placed::PlacedChannels;
use jxlm_header::header::ModularHeader;
use jxlm_header::opening::{DEPTH_LIMIT, check, node_limit};
use jxlm_transform::channels::{PlacedChannel, tables_for};
use jxlm_tree::ma::{MaConfig, MaConfigParams};
use std::alloc::Global;

/// Reads what comes before a tree: the header, whose transforms are applied to these channels, none of which has a
/// side above 2^30, and whose conditions come after them. Palettes have the tables that the channels ask for.
///
/// # Errors
///
/// That of the header, of the first transform that does not suit the channels, or of the first condition that does
/// not hold; out of memory may come at any time.
pub fn open(
    alloc: Global,
    bits: &mut Bitstream<'_>,
    mut placed: PlacedChannels,
    has_global: bool,
) -> Result<(ModularHeader, PlacedChannels)>
    requires narrow { All IsNarrow (list_of placed.channels).channels }
    requires placed { IsPlaced placed }
    ensures gives { Parses opened_of result (position_of bits.new)
        ((opening has_global (list_of placed.channels)).read (bytes_of bits.old) (position_of bits.old)) }
    ensures goes { IfOk result (λ o. GoesOn (steps_of_header o.0) placed o.1) }
    ensures global { IfOk result (λ o. o.0.use_global_tree ≡ true → has_global ≡ true) }
    ensures opened { IfOk result (λ o. IsOpened (list_of placed.channels) o) }
    ensures bytes { bytes_of bits.new ≡ bytes_of bits.old }
{
    let tables = tables_for(&placed.channels.placed);
    let mut header = ModularHeader::parse_by(alloc, bits, tables)?;
    placed.apply(alloc, &mut header.transform)?;
    check(&header, &placed.channels, has_global)?;
    Ok((header, placed))
}

/// The tree of a header whose coded channels are these: the global one where the header uses it, or else the one at the
/// reader's position.
///
/// # Errors
///
/// `GlobalMaTreeNotAvailable` where the header uses the global tree and there is none; that of a tree that is read; out
/// of memory.
pub fn tree_of<D: Decoder>(
    alloc: Global,
    bits: &mut Bitstream<'_>,
    header: &ModularHeader,
    channels: &[PlacedChannel],
    global: Option<&MaConfig<D>>,
) -> Result<MaConfig<D>>
    requires given { header.now.use_global_tree ≡ true → is_some (option_copied global) ≡ true }
    ensures gives { TreeOfGives D.meaning (option_copied global.entry) (bytes_of bits.old) header.now.use_global_tree
        (infos channels.now) (position_of bits.old) result (position_of bits.new) }
    ensures bytes { bytes_of bits.new ≡ bytes_of bits.old }
{
    if header.use_global_tree {
        return match global {
            Some(config) => config.try_clone(alloc),
            None => Err(Error::GlobalMaTreeNotAvailable),
        };
    }
    let limits = MaConfigParams {
        node_limit: node_limit(channels),
        depth_limit: DEPTH_LIMIT,
    };
    MaConfig::parse(alloc, bits, limits)
}
