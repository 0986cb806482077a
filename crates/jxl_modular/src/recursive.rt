//! Parts by headers of their own, held for decoding and finishing (ISO/IEC 18181-1, Modular: group sub-bitstreams).

ghost use Rattle.std.specs.Prelude.{◌≡◌, ◌↔◌, ◌+◌, ◌*◌, true, false, pos, IsOk, IsTrue, IfOk, IfErr};
ghost use Rattle.std.specs.Option.{option_copied};
ghost use Rattle.jxlm_bits.specs.Bits.{bytes_of, position_of};
ghost use Rattle.jxlm_bits.specs.ErrorKind.{NoMemory, kind_of};
ghost use Rattle.jxlm_samples.specs.Part.{cell_count};
ghost use Rattle.jxl_modular.specs.Layers.{StandsIn};

use crate::image::ModularImageDestination;
use jxlm_base::grid::AlignedGrid;
use jxlm_base::sample::Sample;
use jxlm_bits::bits::Bitstream;
use jxlm_bits::decoder::Decoder;
use jxlm_bits::error::Result;
use jxlm_nested::nested::NestedPart;
use jxlm_nested::stream::Stream;
use jxlm_samples::channels::have_samples;
use jxlm_transform::channels::PlacedChannel;
use jxlm_tree::flat::Steps;
use jxlm_tree::ma::MaConfig;
use std::alloc::Global;
use std::marker::Model;

/// A part's own header, with its tree and the tables of its palettes: what reading one gives, for an image that it is
/// then entered in ([`read_header`](crate::groups::TransformedGlobalModular::read_header)).
#[derive(Drop)]
pub struct NestedHeader<S, D: Decoder> {
    pub(crate) part: NestedPart<D>,
    // The channels of the part that the header is for, and where they lie.
    pub(crate) given: Vec<PlacedChannel>,
    // Those of headers around it, and then its own.
    pub(crate) tables: Vec<AlignedGrid<S>>,
}

impl<S, D: Decoder> Model for NestedHeader<S, D> {
    ghost use Rattle.jxl_modular.specs.Inner.LayerCode.{IsLayer, layer_code, layer_kept};
    ghost use Rattle.jxl_modular.specs.Layers.{Layer};
    ghost use Rattle.jxl_modular.specs.Inner.StepCode.{step_code};
    ghost use Rattle.jxlm_tree.specs.TreeCode.{coded_config};
    ghost use Rattle.jxlm_ma_tree.specs.contracts.leaf.Leaf as leaves;
    ghost use Rattle.jxlm_weighted.specs.contracts.weights.WpHeader as weights;
    ghost use Rattle.jxlm_transform.specs.contracts.transform.Rct as colours;
    ghost use Rattle.jxlm_transform.specs.contracts.transform.Palette as palettes;
    ghost use Rattle.jxlm_transform.specs.contracts.transform.SqueezeParams as squeezes;
    ghost use Rattle.jxlm_transform.specs.contracts.channels.ModularChannelInfo as infos;
    ghost use Rattle.jxlm_base.specs.contracts.subgrid.Region as regions;

    ghost Value = { Layer S D };

    ghost coded = { layer_code weights.the_row.coded (step_code colours.the_row.coded palettes.the_row.coded
        squeezes.the_row.coded) (coded_config leaves.the_row.coded D.code) infos.the_row.coded regions.the_row.coded
        S.code };

    ghost view = { λ n. layer_kept n.part n.given.items n.tables.items };

    ghost invariant = { λ n. IsLayer n.part n.given.items n.tables.items };
}

/// What holds a part's own header.
pub trait HoldsHeader<S, D: Decoder> {
    ghost use Rattle.std.specs.Prelude.{◌≡◌};
    ghost use Rattle.jxl_modular.specs.Layers.{Layer};

    ghost layer: { Self → Layer S D };

    /// The header.
    fn into_header(self) -> NestedHeader<S, D>
        ensures { result ≡ layer self };
}

impl<S, D: Decoder> HoldsHeader<S, D> for NestedHeader<S, D> {
    ghost layer = { λ l. l };

    fn into_header(self) -> NestedHeader<S, D> {
        self
    }
}

impl<S: Sample, D: Decoder> NestedHeader<S, D> {
    ghost use Rattle.std.specs.Prelude.{◌<◌};
    ghost use Rattle.jxl_modular.specs.Layers.{coded_channels};

    /// Whether its coded channels have samples.
    pub(crate) fn has_samples(&self) -> bool
        ensures { IsTrue result ↔ (0 < cell_count (coded_channels self.now)) }
    {
        have_samples(&self.part.placed.channels.placed)
    }
}

/// A part of an image by a header of its own, whose samples are still to be prepared for decoding.
///
/// The image is held for writing until this is given up.
#[derive(Drop)]
pub struct RecursiveModularImage<'dest, S, D: Decoder> {
    pub(crate) image: &'dest mut ModularImageDestination<S, D>,
    pub(crate) header: NestedHeader<S, D>,
    ghost stands: { StandsIn header image.now },
}

/// What a header of a part's own codes: its coded channels, whose samples are coded one after another.
///
/// The image is held for writing until this is given up; it then keeps the samples that were decoded, but not the cells
/// of the header's tables.
#[derive(Drop)]
pub struct NestedSubimage<'dest, S, D: Decoder, H: HoldsHeader<S, D> = NestedHeader<S, D>> {
    image: &'dest mut ModularImageDestination<S, D>,
    header: H,
    partial: bool,
    steps: Steps,
    ghost stands: { StandsIn (H.layer header) image.now },
}

impl<'dest, S: Sample, D: Decoder> RecursiveModularImage<'dest, S, D> {
    ghost use Rattle.std.specs.Borrow.{sem};
    ghost use Rattle.jxl_modular.specs.Recursive.{IsNew, image_in, image_of, layer_in, layer_of, loan, loan_in};
    ghost use Rattle.jxl_modular.specs.RecursiveRests.{RestsWithNested};

    /// What the header codes: all its coded channels. It is partial where some of them has samples; the image stays as
    /// it is.
    ///
    /// # Errors
    ///
    /// `Buffer` if it is out of memory, and no other; the image is as before then.
    pub fn prepare_subimage(self, _alloc: Global) -> Result<NestedSubimage<'dest, S, D>>
        ensures* rests { sem 𝓛 (RestsWithNested S.row D.row D.Decoder self.entry.image result) }
        ensures same_reference { IfOk result (λ p. loan p ≡ loan_in self.entry) }
        ensures unchanged { IfOk result (λ p. image_of p ≡ image_in self.entry) }
        ensures header { IfOk result (λ p. layer_of p ≡ layer_in self.entry) }
        ensures new { IfOk result IsNew }
        ensures err { IfErr result (λ e. kind_of e ≡ NoMemory) }
    {
        let RecursiveModularImage { image, header } = self;
        let partial = header.has_samples();
        Ok(NestedSubimage {
            image,
            header,
            partial,
            steps: Steps::new(),
        })
    }
}

impl<'dest, S: Sample, D: Decoder> NestedSubimage<'dest, S, D> {
    ghost use Rattle.jxl_modular.specs.Recursive.{PartGives, SameButPart, channels_of, image_of, is_partial, layer_of, loan, steps_of};

    /// Whether it has no samples.
    pub fn is_empty(&self) -> bool
        ensures { IsTrue result ↔ (cell_count (channels_of self.now) ≡ 0) }
    {
        !self.header.has_samples()
    }

    /// Whether samples are still to be decoded: from the start where there are some, until a decode has ended whole.
    pub fn is_partial(&self) -> bool
        ensures { result ≡ is_partial self.now }
    {
        self.partial
    }

    /// How many nodes of trees were looked at by its decodes, as contracts see it: 0 at first, and
    /// [`decode`](Self::decode) says how far each moves it.
    pub fn steps(&self) -> &Steps
        ensures { result.now ≡ steps_of self.now }
    {
        &self.steps
    }

    /// Whether it holds all channels that its header codes, which is so.
    pub fn holds_all(&self) -> bool
        ensures { result ≡ true }
    {
        true
    }

    /// Decodes all samples of its coded channels from the reader's position (ISO/IEC 18181-1, Modular: decoding of
    /// samples).
    ///
    /// It is Ok where the samples are coded whole from there; then it is whole, and the reader is after them. Without
    /// samples no bit is read, and it is Ok. With `allow_partial` it is also Ok where the input ends, and it stays
    /// partial. Samples of other parts stay.
    ///
    /// # Memory
    ///
    /// All memory is taken before the first bit is read: what the `decode` of a part takes, and room for the header's
    /// tables in the image's list of buffers.
    ///
    /// # Steps
    ///
    /// For each sample whose read was tried, [`steps`](Self::steps) goes on by no step where the header's tree is one
    /// leaf that predicts by `Zero`, or by `Gradient` with nothing added and multiplier 1; by at most one where a table
    /// of clusters serves; and else by at most the tree's depth and one more.
    ///
    /// # Errors
    ///
    /// The decoder's error: of its `begin`, of the read of one sample, or of its `finalize`. The samples before are
    /// then decoded and the others as before, it stays partial, and the reader is where that call began. Out of
    /// memory, `Buffer` or `Decoder(OutOfMemory)`, leaves reader and samples as they were.
    pub fn decode(
        &mut self,
        alloc: Global,
        bits: &mut Bitstream<'_>,
        stream_index: u32,
        allow_partial: bool,
    ) -> Result<()>
        ensures gives { PartGives D.meaning S.width S.to_int (bytes_of bits.old) stream_index self.old
            (position_of bits.old) self.new (position_of bits.new) allow_partial result }
        ensures empty { cell_count (channels_of self.old) ≡ 0 → IsOk result }
        ensures same { SameButPart (layer_of self.old) (layer_of self.new) (image_of self.old) (image_of self.new) }
        ensures same_reference { loan self.new ≡ loan self.old }
        ensures bytes { bytes_of bits.new ≡ bytes_of bits.old }
    {
        let stream = Stream {
            index: stream_index,
            allow_partial,
        };
        self.image.decode_layer(
            alloc,
            bits,
            &mut self.header,
            stream,
            &mut self.partial,
            &mut self.steps,
        )
    }
}

impl<'dest, S: Sample, D: Decoder, H: HoldsHeader<S, D> + Drop> NestedSubimage<'dest, S, D, H> {
    ghost use Rattle.std.specs.Borrow.{sem};
    ghost use Rattle.jxl_modular.specs.Recursive.{IsReadIn, IsUndone, ReadFails, channels_of, image_in, image_of, is_partial, layer_in, layer_of, loan, loan_in};
    ghost use Rattle.jxl_modular.specs.RecursiveRests.{RestsWithHeader};
    ghost use Rattle.jxl_modular.specs.SameButCells.{SameButIn};

    /// Reads header and tree at the reader's position for a part within the part: for its coded channels. It is given
    /// up, and no cell of the image changes; the reader is after what was read.
    ///
    /// # Errors
    ///
    /// As when an image is read: of the header, of the first transform that does not suit the coded channels, of the
    /// first condition that does not hold, or of the tree; out of memory may come at any time.
    pub fn recursive(
        self,
        alloc: Global,
        bits: &mut Bitstream<'_>,
        global: Option<&MaConfig<D>>,
    ) -> Result<RecursiveModularImage<'dest, S, D>>
        ensures* rests { sem 𝓛 (RestsWithHeader S.row D.row D.Decoder self.entry.image result) }
        ensures same_reference { IfOk result (λ r. loan_in r ≡ loan self.entry) }
        ensures unchanged { IfOk result (λ r. image_in r ≡ image_of self.entry) }
        ensures read { IfOk result (λ r. IsReadIn D.meaning (S.from_int (pos 0)) (option_copied global.entry)
            (bytes_of bits.old) (channels_of self.entry) (position_of bits.old) (layer_of self.entry).coded
            (image_of self.entry) (layer_of self.entry).tables (layer_in r) (position_of bits.new)) }
        ensures err { IfErr result (λ e. ReadFails D.meaning (S.from_int (pos 0)) (option_copied global.entry)
            (bytes_of bits.old) (channels_of self.entry) (position_of bits.old) e (position_of bits.new)) }
        ensures bytes { bytes_of bits.new ≡ bytes_of bits.old }
    {
        let NestedSubimage {
            image,
            header: outer,
            ..
        } = self;
        let header = image.read_within(alloc, bits, outer.into_header(), global)?;
        Ok(RecursiveModularImage { image, header })
    }

    /// Undoes the header's transforms, gives it up and returns whether it is whole (ISO/IEC 18181-1, Modular: inverse
    /// transforms).
    ///
    /// The grids of the part are afterwards the only ones that the header's transforms turn into the coded samples as
    /// they were, decoded or not. No cell outside the part changes.
    ///
    /// # Memory
    ///
    /// All memory is taken before the first sample changes: some rows and columns of the largest grid, and room for the
    /// header's tables in the image's list of buffers.
    ///
    /// # Errors
    ///
    /// `Buffer` if it is out of memory, and no other. The image then keeps every sample.
    pub fn finish(self, alloc: Global) -> Result<bool>
        ensures only { IfOk result (λ _. IsUndone S.width S.to_int (layer_of self.entry) (image_of self.entry)
            self.exit.0.now) }
        ensures same { IfOk result (λ _. SameButIn (layer_of self.entry).held (image_of self.entry) self.exit.0.now) }
        ensures whole { IfOk result (λ whole. IsTrue whole ↔ (is_partial self.entry ≡ false)) }
        ensures unchanged { IfErr result (λ _. self.exit.0.now ≡ image_of self.entry) }
        ensures err { IfErr result (λ e. kind_of e ≡ NoMemory) }
    {
        let NestedSubimage {
            image,
            header,
            partial,
            ..
        } = self;
        let answer = image.finish_layer(alloc, header.into_header());
        answer.map(|()| !partial)
    }
}
