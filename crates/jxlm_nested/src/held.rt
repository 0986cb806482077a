//! A part's header that is held beside a store: its tables are in the store as long as it is decoded or undone there.

ghost use Rattle.std.specs.Prelude.{◌≡◌, ◌≤◌, ◌+◌, ◌*◌, ◌++◌, ℕ, List, IsOk, IfErr, OnOk, OnErr, length, take, drop, vec_capacity};
ghost use Rattle.jxlm_bits.specs.Bits.{bytes_of, position_of};
ghost use Rattle.jxlm_bits.specs.ErrorKind.{NoMemory, kind_of};
ghost use Rattle.jxlm_base.specs.Grid.{Grid};
ghost use Rattle.jxlm_base.specs.Outside.{KeepsOutside};
ghost use Rattle.jxlm_chain.specs.Undo.{UndoesAll};
ghost use Rattle.jxlm_chain.specs.Undoings.{undos_of};
ghost use Rattle.jxlm_samples.specs.Decode.{DecodeGives, MovesWithin};
ghost use Rattle.jxlm_samples.specs.Part.{cell_count};
ghost use Rattle.jxlm_samples.specs.Placed.{standing_in};
ghost use Rattle.jxlm_tree.specs.Steps.{most_steps};
ghost use Rattle.jxlm_nested.specs.NestedParts.{CanFill, head_of, nested_channels, regions_in};
ghost use Rattle.jxlm_nested.specs.Starts.{coded_part};

use crate::nested::NestedPart;
use crate::stream::Stream;
use jxlm_base::grid::AlignedGrid;
use jxlm_base::sample::Sample;
use jxlm_bits::bits::Bitstream;
use jxlm_bits::decoder::Decoder;
use jxlm_bits::error::Result;
use jxlm_chain::placed::PlacedChannels;
use jxlm_samples::channels::have_samples;
use jxlm_samples::part::PlacedPart;
use jxlm_transform::channels::{ModularChannels, PlacedChannel};
use jxlm_tree::flat::Steps;
use std::alloc::Global;

/// Moves the items after the first `own` ones out of a store, back into the list that they came from.
fn move_back<T>(store: &mut Vec<T>, tables: &mut Vec<T>, own: usize)
    requires within { own ≤ length store.old.items }
    requires none { length tables.old.items ≡ 0 }
    requires room { length store.old.items ≤ own + vec_capacity tables.old }
    ensures store { store.new.items ≡ take own store.old.items }
    ensures tables { tables.new.items ≡ drop own store.old.items }
    ensures joined { store.new.items ++ tables.new.items ≡ store.old.items }
{
    for _ in own..store.len() {
        if let Some(item) = store.pop() {
            tables.push_reserved(item);
        }
    }
    tables.reverse();
}

impl<D: Decoder> NestedPart<D> {
    /// Decodes all samples of its coded channels, where its tables are in the store. All memory is taken before the
    /// first bit is read.
    fn decode_placed<S: Sample>(
        &self,
        alloc: Global,
        bits: &mut Bitstream<'_>,
        store: &mut [AlignedGrid<S>],
        stream: Stream,
        partial: &mut bool,
        steps: &mut Steps,
    ) -> Result<()>
        requires { CanFill self.now store.old }
        ensures answers { (tried : ℕ) × DecodeGives D.meaning S.width
            (coded_part stream.index (head_of self.now) self.now.config) (bytes_of bits.old) self.now.config.decoder
            (standing_in S.to_int (regions_in self.now) store.old (position_of bits.old) partial.old)
            (standing_in S.to_int (regions_in self.now) store.new (position_of bits.new) partial.new)
            stream.allow_partial result tried
            × MovesWithin steps.old steps.new (tried * most_steps self.now.config.tree) }
        ensures keeps { KeepsOutside (regions_in self.now) store.old store.new }
        ensures bytes { bytes_of bits.new ≡ bytes_of bits.old }
    {
        let part = PlacedPart {
            channels: &self.placed.channels.placed,
            config: &self.config,
            weights: self.header.wp_params,
            stream_index: stream.index,
        };
        part.decode(alloc, bits, store, stream.allow_partial, partial, steps)
    }

    /// Decodes all samples of its coded channels, whose tables, and those of headers around it, are moved to the end of
    /// the store until it returns. Without samples no bit is read, and it is Ok. All memory is taken before the first
    /// bit is read.
    ///
    /// # Errors
    ///
    /// That of decoding the samples, as a part's `decode` returns it: the samples before are then decoded. Or out of
    /// memory, which changes no cell. No cell outside the coded channels changes, and the tables are apart again, also
    /// after an error.
    pub fn decode_with<S: Sample>(
        &self,
        alloc: Global,
        bits: &mut Bitstream<'_>,
        store: &mut Vec<AlignedGrid<S>>,
        tables: &mut Vec<AlignedGrid<S>>,
        stream: Stream,
        partial: &mut bool,
        steps: &mut Steps,
    ) -> Result<()>
        requires { CanFill self.now (store.old.items ++ tables.old.items) }
        ensures answers { (tried : ℕ) × DecodeGives D.meaning S.width
            (coded_part stream.index (head_of self.now) self.now.config) (bytes_of bits.old) self.now.config.decoder
            (standing_in S.to_int (regions_in self.now) (store.old.items ++ tables.old.items) (position_of bits.old)
            partial.old)
            (standing_in S.to_int (regions_in self.now) (store.new.items ++ tables.new.items) (position_of bits.new)
            partial.new)
            stream.allow_partial result tried
            × MovesWithin steps.old steps.new (tried * most_steps self.now.config.tree) }
        ensures empty { cell_count (nested_channels self.now) ≡ 0 → IsOk result }
        ensures keeps { KeepsOutside (regions_in self.now) (store.old.items ++ tables.old.items)
            (store.new.items ++ tables.new.items) }
        ensures count { length store.new.items ≡ length store.old.items }
        ensures bytes { bytes_of bits.new ≡ bytes_of bits.old }
    {
        if !have_samples(&self.placed.channels.placed) {
            *partial = false;
            return Ok(());
        }
        let own = store.len();
        store.append(tables)?;
        let result = self.decode_placed(alloc, bits, store, stream, partial, steps);
        move_back(store, tables, own);
        result
    }

    /// Undoes its transforms, and gives its tables up, and those of headers around it. Out of memory is its only error;
    /// no cell changes then.
    pub fn undo_with<S: Sample>(
        &self,
        alloc: Global,
        store: &mut Vec<AlignedGrid<S>>,
        mut tables: Vec<AlignedGrid<S>>,
        bit_depth: u32,
    ) -> Result<()>
        requires can { CanFill self.now (store.old.items ++ tables.items) }
        requires deep { bit_depth ≤ 32 }
        ensures undoes { OnOk result ((last : List (Grid S)) × UndoesAll S.to_int S.width bit_depth
            (undos_of self.now.placed.undoings.items) (store.old.items ++ tables.items) last
            × (store.new.items ≡ take (length store.old.items) last)) }
        ensures unchanged { OnErr result (store.new.items ≡ store.old.items) }
        ensures err { IfErr result (λ e. kind_of e ≡ NoMemory) }
    {
        let own = store.len();
        store.append(&mut tables)?;
        let result = self.undo(alloc, store, bit_depth);
        store.truncate(own);
        result
    }

    /// Its coded channels, and where they lie.
    pub fn into_channels(self) -> Vec<PlacedChannel>
        ensures { result ≡ self.placed.channels.placed }
    {
        let NestedPart { placed, .. } = self;
        let PlacedChannels { channels, .. } = placed;
        let ModularChannels { placed, .. } = channels;
        placed
    }
}
