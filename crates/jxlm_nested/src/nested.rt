//! Parts that have a header of their own, with transforms and a tree (ISO/IEC 18181-1, Modular: group sub-bitstreams).

ghost use Rattle.std.specs.Prelude.{◌≡◌, ◌++◌, ◌<◌, ◌≤◌, ◌⊎◌, ◌^◌, length, take, pos, IfOk, IfErr, OnOk, OnErr};
ghost use Rattle.std.specs.List.{All};
ghost use Rattle.std.specs.Option.{option_copied};
ghost use Rattle.jxlm_bits.specs.Bits.{bytes_of, position_of};
ghost use Rattle.jxlm_bits.specs.ErrorKind.{NoMemory, UnlessMemory, kind_of};
ghost use Rattle.jxlm_bits.specs.Grammar.{IsErrorAt};
ghost use Rattle.jxlm_transform.specs.Ends.{HasEnds};
ghost use Rattle.jxlm_chain.specs.Placed.{sides_in};
ghost use Rattle.jxlm_chain.specs.Undo.{UndoesAll};
ghost use Rattle.jxlm_chain.specs.Undoings.{undos_of};
ghost use Rattle.jxlm_transform.specs.Channels.{IsNarrow, infos, regions};
ghost use Rattle.jxlm_nested.specs.Zeros.{zeros};
ghost use Rattle.jxlm_nested.specs.NestedParts.{CanFill, DecodesTo, Fills, FillsIn, IsNested, WithSteps, nested_list, nested_places, with_own_tables};
ghost use Rattle.jxlm_nested.specs.Starts.{IsTreeErrorAt, opening_at};

use crate::opening::{open, tree_of};
use crate::stream::Stream;
use jxlm_base::grid::{AlignedGrid, Region};
use jxlm_base::sample::Sample;
use jxlm_bits::bits::Bitstream;
use jxlm_bits::decoder::Decoder;
use jxlm_bits::error::Result;
use jxlm_chain::placed::PlacedChannels;
use jxlm_chain::scratch::Scratch;
use jxlm_chain::undo::undo_all;
use jxlm_header::header::ModularHeader;
use jxlm_samples::part::PlacedPart;
use jxlm_transform::channels::{ModularChannels, PlacedChannel};
use jxlm_tree::flat::Steps;
use jxlm_tree::ma::MaConfig;
use std::alloc::Global;

/// A part by its own header and tree: its coded channels lie in the part's regions of the image's store, and in tables
/// after the store's buffers.
#[derive(Drop)]
pub struct NestedPart<D: Decoder> {
    /// Its header, whose transforms list their steps.
    pub header: ModularHeader,
    /// Its tree.
    pub config: MaConfig<D>,
    /// Its coded channels with their regions, its tables, and what undoes its transforms.
    pub placed: PlacedChannels,
}

/// Adds a buffer for each table to a store, whose cells are 0. Out of memory is its only error. The buffers that were
/// there stay, also then.
pub fn add_tables<S: Sample>(
    alloc: Global,
    store: &mut Vec<AlignedGrid<S>>,
    tables: &[Region],
) -> Result<()>
    ensures ok { OnOk result (store.new.items ≡ store.old.items ++ zeros (S.from_int (pos 0)) (sides_in tables.now)) }
    ensures cut { take (length store.old.items) store.new.items ≡ store.old.items }
    ensures err { IfErr result (λ e. kind_of e ≡ NoMemory) }
{
    for table in tables {
        let grid = AlignedGrid::new(alloc, table.width, table.height)?;
        store.push(grid)?;
    }
    Ok(())
}

impl<D: Decoder> NestedPart<D> {
    /// Reads header and tree of a part that holds these pieces of an image with this number of buffers. The header's
    /// list of channels begins without meta channels.
    ///
    /// # Errors
    ///
    /// As when an image is read: of the header, of the first transform that does not suit the part's channels, of the
    /// first condition that does not hold, or of the tree; out of memory may come at any time.
    pub fn parse(
        alloc: Global,
        bits: &mut Bitstream<'_>,
        pieces: Vec<PlacedChannel>,
        buffers: usize,
        global: Option<&MaConfig<D>>,
    ) -> Result<NestedPart<D>>
        requires narrow { All IsNarrow (infos pieces.items) }
        requires ends { All HasEnds (regions pieces.items) }
        requires room { buffers < 2 ^ 63 }
        ensures ok { IfOk result (λ n. IsNested D.meaning (option_copied global.entry) (bytes_of bits.old)
            (nested_list (infos pieces.items)) (nested_places (regions pieces.items) buffers) (position_of bits.old)
            n (position_of bits.new)) }
        ensures err { IfErr result (λ e. UnlessMemory (kind_of e) (IsErrorAt (opening_at (option_copied global.entry)
            (bytes_of bits.old) (nested_list (infos pieces.items)) (position_of bits.old)) (kind_of e)
            (position_of bits.new) ⊎ IsTreeErrorAt D.meaning (option_copied global.entry) (bytes_of bits.old)
            (nested_list (infos pieces.items)) (position_of bits.old) (kind_of e) (position_of bits.new))) }
        ensures bytes { bytes_of bits.new ≡ bytes_of bits.old }
    {
        let channels = ModularChannels {
            placed: pieces,
            nb_meta_channels: 0,
            buffers,
        };
        let start = PlacedChannels::new(alloc, channels);
        let (header, placed) = open(alloc, bits, start, global.is_some())?;
        let config = tree_of(alloc, bits, &header, &placed.channels.placed, global)?;
        Ok(NestedPart {
            header,
            config,
            placed,
        })
    }

    /// Decodes the samples of its coded channels, and returns whether all were decoded. All memory is taken before the
    /// first bit is read.
    fn decode_samples<S: Sample>(
        &self,
        alloc: Global,
        bits: &mut Bitstream<'_>,
        store: &mut [AlignedGrid<S>],
        stream: Stream,
        steps: &mut Steps,
    ) -> Result<bool>
        requires { CanFill self.now store.old }
        ensures gives { WithSteps (λ t. DecodesTo D.meaning S.width S.to_int (bytes_of bits.old) stream.index
            (position_of bits.old) self.now stream.allow_partial result t store.old store.new) (position_of bits.new)
            steps.old steps.new }
        ensures bytes { bytes_of bits.new ≡ bytes_of bits.old }
    {
        let part = PlacedPart {
            channels: &self.placed.channels.placed,
            config: &self.config,
            weights: self.header.wp_params,
            stream_index: stream.index,
        };
        let mut partial = part.has_samples();
        part.decode(
            alloc,
            bits,
            store,
            stream.allow_partial,
            &mut partial,
            steps,
        )?;
        Ok(!partial)
    }

    /// Undoes its transforms, from the last to the first. Out of memory is its only error; no cell changes then.
    pub(crate) fn undo<S: Sample>(
        &self,
        alloc: Global,
        store: &mut [AlignedGrid<S>],
        bit_depth: u32,
    ) -> Result<()>
        requires can { CanFill self.now store.old }
        requires deep { bit_depth ≤ 32 }
        ensures undoes { OnOk result (UndoesAll S.to_int S.width bit_depth (undos_of self.now.placed.undoings.items)
            store.old store.new) }
        ensures unchanged { OnErr result (store.new ≡ store.old) }
        ensures err { IfErr result (λ e. kind_of e ≡ NoMemory) }
    {
        let undoings = &self.placed.undoings;
        let mut scratch = Scratch::new(alloc, undoings, &self.header.wp_params)?;
        undo_all(undoings, store, bit_depth, &mut scratch);
        Ok(())
    }

    /// Decodes its samples, and undoes its transforms, where its tables are in the store. It returns whether all
    /// samples were decoded.
    fn fill<S: Sample>(
        &self,
        alloc: Global,
        bits: &mut Bitstream<'_>,
        store: &mut [AlignedGrid<S>],
        bit_depth: u32,
        stream: Stream,
        steps: &mut Steps,
    ) -> Result<bool>
        requires can { CanFill self.now store.old }
        requires deep { bit_depth ≤ 32 }
        ensures gives { WithSteps (λ t. Fills D.meaning S.width S.to_int (bytes_of bits.old) stream.index
            (position_of bits.old) self.now stream.allow_partial bit_depth result t store.old store.new)
            (position_of bits.new) steps.old steps.new }
        ensures bytes { bytes_of bits.new ≡ bytes_of bits.old }
    {
        let whole = self.decode_samples(alloc, bits, store, stream, steps)?;
        self.undo(alloc, store, bit_depth)?;
        Ok(whole)
    }

    /// Decodes its samples, and undoes its transforms, in the image's store, which has no table of it afterwards. It
    /// returns whether all samples were decoded.
    ///
    /// # Errors
    ///
    /// That of decoding the samples, as a part's `decode` returns it; the samples before are then decoded, and no
    /// transform is undone. Or out of memory.
    pub fn decode<S: Sample>(
        &self,
        alloc: Global,
        bits: &mut Bitstream<'_>,
        store: &mut Vec<AlignedGrid<S>>,
        bit_depth: u32,
        stream: Stream,
        steps: &mut Steps,
    ) -> Result<bool>
        requires can { CanFill self.now (with_own_tables (S.from_int (pos 0)) self.now store.old.items) }
        requires deep { bit_depth ≤ 32 }
        ensures gives { WithSteps (λ t. FillsIn D.meaning S.width S.to_int (bytes_of bits.old) stream.index
            (position_of bits.old) self.now stream.allow_partial (S.from_int (pos 0)) bit_depth result t
            store.old.items store.new.items) (position_of bits.new) steps.old steps.new }
        ensures bytes { bytes_of bits.new ≡ bytes_of bits.old }
    {
        let own = store.len();
        let result = match add_tables(alloc, store, &self.placed.tables) {
            Ok(()) => self.fill(alloc, bits, store, bit_depth, stream, steps),
            Err(e) => Err(e),
        };
        store.truncate(own);
        result
    }
}
