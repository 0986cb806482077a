//! Parts of an image by headers of their own (ISO/IEC 18181-1, Modular: group sub-bitstreams).

ghost use Rattle.std.specs.Prelude.{◌≡◌, ◌++◌, [], pos, IsOk, IfOk, IfErr, OnOk, OnErr};
ghost use Rattle.std.specs.Option.{option_copied};
ghost use Rattle.jxlm_bits.specs.Bits.{bytes_of, position_of};
ghost use Rattle.jxlm_bits.specs.ErrorKind.{NoMemory, kind_of};
ghost use Rattle.jxlm_samples.specs.Part.{cell_count};
ghost use Rattle.jxlm_transform.specs.Channels.{infos, regions};

use super::{ModularImageDestination, TransformedModularSubimage, first_of};
use crate::recursive::{NestedHeader, RecursiveModularImage};
use jxlm_base::grid::{AlignedGrid, OutOfMemory};
use jxlm_base::sample::Sample;
use jxlm_bits::bits::Bitstream;
use jxlm_bits::decoder::Decoder;
use jxlm_bits::error::{Error, Result};
use jxlm_groups::part::SectionPart;
use jxlm_groups::pass::Pass;
use jxlm_groups::pieces::pieces;
use jxlm_nested::nested::{NestedPart, add_tables};
use jxlm_nested::stream::Stream;
use jxlm_transform::channels::PlacedChannel;
use jxlm_tree::flat::Steps;
use jxlm_tree::ma::MaConfig;
use std::alloc::Global;

impl<S: Sample, D: Decoder> ModularImageDestination<S, D> {
    ghost use Rattle.jxl_modular.specs.Groups.{channels_in, held_in};
    ghost use Rattle.jxl_modular.specs.Image.{front_channels, front_regions};
    ghost use Rattle.jxl_modular.specs.Inner.LayerCode.{CanNest};
    ghost use Rattle.jxl_modular.specs.Layers.{StandsIn, coded_channels};
    ghost use Rattle.jxl_modular.specs.Recursive.{IsReadIn, IsUndone, LayerGives, ReadFails, SameButPart};
    ghost use Rattle.jxl_modular.specs.SameButCells.{SameButIn};

    /// Reads header and tree of a part of these pieces, which lie in the image's buffers and in tables of headers
    /// around it. Its own tables come after them, and their cells are 0.
    fn read_layer(
        &self,
        alloc: Global,
        bits: &mut Bitstream<'_>,
        pieces: Vec<PlacedChannel>,
        mut tables: Vec<AlignedGrid<S>>,
        global: Option<&MaConfig<D>>,
    ) -> Result<NestedHeader<S, D>>
        requires { CanNest pieces.items self.now.store tables.items }
        ensures read { IfOk result (λ l. IsReadIn D.meaning (S.from_int (pos 0)) (option_copied global.entry)
            (bytes_of bits.old) (infos pieces.items) (position_of bits.old) (regions pieces.items) self.now tables.items
            l (position_of bits.new)) }
        ensures stands { IfOk result (λ l. StandsIn l self.now) }
        ensures err { IfErr result (λ e. ReadFails D.meaning (S.from_int (pos 0)) (option_copied global.entry)
            (bytes_of bits.old) (infos pieces.items) (position_of bits.old) e (position_of bits.new)) }
        ensures bytes { bytes_of bits.new ≡ bytes_of bits.old }
    {
        let given = Vec::from_slice(alloc, &pieces)?;
        let buffers = self.store.len() + tables.len();
        // No list can have more items.
        if buffers > usize::MAX / 2 {
            return Err(Error::Buffer(OutOfMemory));
        }
        let part = NestedPart::parse(alloc, bits, pieces, buffers, global)?;
        add_tables(alloc, &mut tables, &part.placed.tables)?;
        Ok(NestedHeader {
            part,
            given,
            tables,
        })
    }

    /// Reads header and tree for the first `count` coded channels.
    fn read_front(
        &self,
        alloc: Global,
        bits: &mut Bitstream<'_>,
        count: usize,
        global: Option<&MaConfig<D>>,
    ) -> Result<NestedHeader<S, D>>
        ensures read { IfOk result (λ l. IsReadIn D.meaning (S.from_int (pos 0)) (option_copied global.entry)
            (bytes_of bits.old) (front_channels count self.now) (position_of bits.old) (front_regions count self.now)
            self.now [] l (position_of bits.new)) }
        ensures stands { IfOk result (λ l. StandsIn l self.now) }
        ensures err { IfErr result (λ e. ReadFails D.meaning (S.from_int (pos 0)) (option_copied global.entry)
            (bytes_of bits.old) (front_channels count self.now) (position_of bits.old) e (position_of bits.new)) }
        ensures bytes { bytes_of bits.new ≡ bytes_of bits.old }
    {
        let pieces = Vec::from_slice(alloc, first_of(&self.coded.placed, count))?;
        self.read_layer(alloc, bits, pieces, Vec::new(alloc), global)
    }

    /// Reads header and tree for a part of the image as it is cut into groups.
    pub(crate) fn read_part(
        &self,
        alloc: Global,
        bits: &mut Bitstream<'_>,
        passes: &[Pass],
        part: SectionPart,
        global: Option<&MaConfig<D>>,
    ) -> Result<NestedHeader<S, D>>
        ensures read { IfOk result (λ l. IsReadIn D.meaning (S.from_int (pos 0)) (option_copied global.entry)
            (bytes_of bits.old) (channels_in self.now passes.now part) (position_of bits.old)
            (held_in self.now passes.now part) self.now [] l (position_of bits.new)) }
        ensures stands { IfOk result (λ l. StandsIn l self.now) }
        ensures err { IfErr result (λ e. ReadFails D.meaning (S.from_int (pos 0)) (option_copied global.entry)
            (bytes_of bits.old) (channels_in self.now passes.now part) (position_of bits.old) e
            (position_of bits.new)) }
        ensures bytes { bytes_of bits.new ≡ bytes_of bits.old }
    {
        let pieces = pieces(alloc, &self.coded, self.group_dim, passes, part)?;
        self.read_layer(alloc, bits, pieces, Vec::new(alloc), global)
    }

    /// Reads header and tree for the coded channels of a header around it, which is given up; its tables stay.
    pub(crate) fn read_within(
        &self,
        alloc: Global,
        bits: &mut Bitstream<'_>,
        outer: NestedHeader<S, D>,
        global: Option<&MaConfig<D>>,
    ) -> Result<NestedHeader<S, D>>
        requires { StandsIn outer self.now }
        ensures read { IfOk result (λ l. IsReadIn D.meaning (S.from_int (pos 0)) (option_copied global.entry)
            (bytes_of bits.old) (coded_channels outer) (position_of bits.old) outer.coded self.now outer.tables
            l (position_of bits.new)) }
        ensures stands { IfOk result (λ l. StandsIn l self.now) }
        ensures err { IfErr result (λ e. ReadFails D.meaning (S.from_int (pos 0)) (option_copied global.entry)
            (bytes_of bits.old) (coded_channels outer) (position_of bits.old) e (position_of bits.new)) }
        ensures bytes { bytes_of bits.new ≡ bytes_of bits.old }
    {
        let NestedHeader { part, tables, .. } = outer;
        self.read_layer(alloc, bits, part.into_channels(), tables, global)
    }

    /// Decodes all samples of a header's coded channels, and reads no bit before all memory is taken.
    pub(crate) fn decode_layer(
        &mut self,
        alloc: Global,
        bits: &mut Bitstream<'_>,
        header: &mut NestedHeader<S, D>,
        stream: Stream,
        partial: &mut bool,
        steps: &mut Steps,
    ) -> Result<()>
        requires { StandsIn header.old self.old }
        ensures gives { LayerGives D.meaning S.width S.to_int (bytes_of bits.old) stream.index header.old
            self.old (position_of bits.old) partial.old steps.old header.new
            self.new (position_of bits.new) partial.new steps.new stream.allow_partial result }
        ensures empty { cell_count (coded_channels header.old) ≡ 0 → IsOk result }
        ensures same { SameButPart header.old header.new self.old self.new }
        ensures stands { StandsIn header.new self.new }
        ensures between { StandsIn header.old self.new }
        ensures bytes { bytes_of bits.new ≡ bytes_of bits.old }
    {
        header.part.decode_with(
            alloc,
            bits,
            &mut self.store,
            &mut header.tables,
            stream,
            partial,
            steps,
        )
    }

    /// Undoes a header's transforms, and gives its tables up. All memory is taken before the first cell changes.
    pub(crate) fn finish_layer(&mut self, alloc: Global, header: NestedHeader<S, D>) -> Result<()>
        requires { StandsIn header self.old }
        ensures only { OnOk result (IsUndone S.width S.to_int header self.old self.new) }
        ensures same { OnOk result (SameButIn header.held self.old self.new) }
        ensures unchanged { OnErr result (self.new ≡ self.old) }
        ensures stands { StandsIn header self.new }
        ensures err { IfErr result (λ e. kind_of e ≡ NoMemory) }
    {
        let NestedHeader { part, tables, .. } = header;
        let bit_depth = self.bit_depth;
        part.undo_with(alloc, &mut self.store, tables, bit_depth)
    }
}

impl<'dest, S: Sample, D: Decoder> TransformedModularSubimage<'dest, S, D> {
    ghost use Rattle.std.specs.Borrow.{sem};
    ghost use Rattle.jxl_modular.specs.Parts.{channels_of, image_of, loan, regions_of};
    ghost use Rattle.jxl_modular.specs.Recursive.{IsReadIn, ReadFails, image_in, layer_in, loan_in};
    ghost use Rattle.jxl_modular.specs.RecursiveRests.{RestsWithHeader};

    /// Reads a header of the part's own, and its tree, at the reader's position (ISO/IEC 18181-1, Modular: group
    /// sub-bitstreams); `global` is the tree for a header that uses a global one. Its list of channels is the part's,
    /// of which none is a meta channel. The part is given up, and no cell changes; the reader is after what was read.
    ///
    /// # Errors
    ///
    /// As when an image is read: of the header, of the first transform that does not suit the part's channels, of the
    /// first condition that does not hold, or of the tree; out of memory may come at any time.
    pub fn recursive(
        self,
        alloc: Global,
        bits: &mut Bitstream<'_>,
        global: Option<&MaConfig<D>>,
    ) -> Result<RecursiveModularImage<'dest, S, D>>
        ensures* rests { sem 𝓛 (RestsWithHeader S.row D.row D.Decoder self.entry.image result) }
        ensures same_reference { IfOk result (λ r. loan_in r ≡ loan self.entry) }
        ensures unchanged { IfOk result (λ r. image_in r ≡ image_of self.entry) }
        ensures read { IfOk result (λ r. IsReadIn D.meaning (S.from_int (pos 0)) (option_copied global.entry)
            (bytes_of bits.old) (channels_of self.entry) (position_of bits.old) (regions_of self.entry)
            (image_of self.entry) [] (layer_in r) (position_of bits.new)) }
        ensures err { IfErr result (λ e. ReadFails D.meaning (S.from_int (pos 0)) (option_copied global.entry)
            (bytes_of bits.old) (channels_of self.entry) (position_of bits.old) e (position_of bits.new)) }
        ensures bytes { bytes_of bits.new ≡ bytes_of bits.old }
    {
        let TransformedModularSubimage { image, count, .. } = self;
        let header = image.read_front(alloc, bits, count, global)?;
        Ok(RecursiveModularImage { image, header })
    }
}
