//! The tree of a header, and its depth.

ghost use Rattle.std.specs.Prelude.{◌≡◌, ◌↔◌, ◌⊎◌, IfOk, IfErr, IsTrue};
ghost use Rattle.std.specs.List.{All};
ghost use Rattle.std.specs.Option.{option_copied};
ghost use Rattle.jxlm_bits.specs.Bits.{bytes_of, position_of};
ghost use Rattle.jxlm_bits.specs.ErrorKind.{UnlessMemory, kind_of};
ghost use Rattle.jxlm_bits.specs.Grammar.{IsErrorAt};
ghost use Rattle.jxlm_chain.specs.Placed.{IsPlaced};
ghost use Rattle.jxlm_transform.specs.Channels.{IsNarrow};
ghost use Rattle.jxlm_transform.specs.Lists.{list_of};
ghost use Rattle.jxlm_nested.specs.Starts.{IsTreeErrorAt, Start, opening_at};
ghost use Rattle.jxlm_tree_depth.specs.Depths.{UsesGlobalAt};
ghost use Rattle.jxlm_tree_depth.specs.Inner.{TreeIs, TreeSays, is_memory as of_memory};

use jxlm_base::grid::OutOfMemory;
use jxlm_bits::bits::Bitstream;
use jxlm_bits::decoder::{Decoder, DecoderError};
use jxlm_bits::error::{Error, Result};
use jxlm_chain::placed::PlacedChannels;
use jxlm_nested::opening::{open, tree_of};
use jxlm_tree::ma::MaConfig;
use std::alloc::Global;

/// Whether the header at the reader's position uses the global tree, by its first field; not where the input ends
/// there.
pub fn uses_global(bits: Bitstream<'_>) -> bool
    ensures { IsTrue result ↔ UsesGlobalAt (bytes_of bits.entry) (position_of bits.entry) }
{
    let mut ahead = bits;
    match ahead.read_bool() {
        Ok(uses) => uses,
        Err(_) => false,
    }
}

/// Whether the error is out of memory, of the library or of a decoder.
pub(crate) fn is_memory(error: Error) -> bool
    ensures { result ≡ of_memory (kind_of error) }
{
    matches!(
        error,
        Error::Buffer(_) | Error::Decoder(DecoderError::OutOfMemory)
    )
}

// Reads a header for these channels, and its tree, and returns the tree.
fn header_tree<D: Decoder>(
    alloc: Global,
    bits: &mut Bitstream<'_>,
    given: PlacedChannels,
    global: Option<&MaConfig<D>>,
) -> Result<MaConfig<D>>
    requires narrow { All IsNarrow (list_of given.channels).channels }
    requires placed { IsPlaced given }
    ensures tree { IfOk result (λ config. (own : Start D.meaning (option_copied global.entry) (bytes_of bits.old)
        (list_of given.channels) (position_of bits.old)) × (own.config ≡ config)) }
    ensures err { IfErr result (λ e. UnlessMemory (kind_of e) (IsErrorAt (opening_at (option_copied global.entry)
        (bytes_of bits.old) (list_of given.channels) (position_of bits.old)) (kind_of e)
        (position_of bits.new) ⊎ IsTreeErrorAt D.meaning (option_copied global.entry) (bytes_of bits.old)
        (list_of given.channels) (position_of bits.old) (kind_of e) (position_of bits.new))) }
{
    let (header, placed) = open(alloc, bits, given, global.is_some())?;
    tree_of(alloc, bits, &header, &placed.channels.placed, global)
}

/// The tree of the header at the reader's position, for these channels, or none where header or tree has an error.
pub(crate) fn tree_at<D: Decoder>(
    alloc: Global,
    bits: Bitstream<'_>,
    given: PlacedChannels,
    global: Option<&MaConfig<D>>,
) -> std::result::Result<Option<MaConfig<D>>, OutOfMemory>
    requires narrow { All IsNarrow (list_of given.channels).channels }
    requires placed { IsPlaced given }
    ensures { IfOk result (TreeIs D.meaning (option_copied global.entry) (list_of given.channels)
        (bytes_of bits.entry) (position_of bits.entry)) }
{
    let mut ahead = bits;
    match header_tree(alloc, &mut ahead, given, global) {
        Ok(config) => Ok(Some(config)),
        Err(error) => {
            if is_memory(error) {
                return Err(OutOfMemory);
            }
            Ok(None)
        }
    }
}

/// Whether the tree of the header at the reader's position, for these channels, is deeper than this; not where header or
/// tree has an error.
pub(crate) fn is_deeper<D: Decoder>(
    alloc: Global,
    bits: Bitstream<'_>,
    given: PlacedChannels,
    global: Option<&MaConfig<D>>,
    deepest: u64,
) -> std::result::Result<bool, OutOfMemory>
    requires narrow { All IsNarrow (list_of given.channels).channels }
    requires placed { IsPlaced given }
    ensures { IfOk result (TreeSays D.meaning (option_copied global.entry) (list_of given.channels) deepest
        (bytes_of bits.entry) (position_of bits.entry)) }
{
    let tree = tree_at(alloc, bits, given, global)?;
    match tree {
        Some(config) => Ok(config.tree_depth() as u64 > deepest),
        None => Ok(false),
    }
}
