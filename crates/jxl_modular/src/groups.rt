//! Images that are decoded by their parts: the groups of the passes, and the LF groups (ISO/IEC 18181-1, frame: groups,
//! LF groups and passes).

ghost use Rattle.std.specs.Prelude.{◌≡◌, ◌≢◌, ◌↔◌, ◌&&◌, [], Some, not, pos, IsFalse, IsOk, IsSome, IsTrue, IfOk, IfErr, OnOk, OnErr, nat_le};
ghost use Rattle.std.specs.List.{list_all};
ghost use Rattle.std.specs.Option.{option_copied};
ghost use Rattle.jxlm_bits.specs.Bits.{bytes_of, position_of};
ghost use Rattle.jxlm_bits.specs.ErrorKind.{BadSqueeze, UnlessNoMemory, kind_of};
ghost use Rattle.jxlm_samples.specs.Part.{cell_count};

use crate::image::ModularImageDestination;
use crate::recursive::{NestedHeader, RecursiveModularImage};
use jxlm_base::grid::{AlignedGrid, OutOfMemory};
use jxlm_base::sample::Sample;
use jxlm_bits::bits::Bitstream;
use jxlm_bits::decoder::Decoder;
use jxlm_bits::error::Result;
use jxlm_groups::part::{Kind, SectionPart};
use jxlm_groups::pass::{Pass, passes};
use jxlm_nested::stream::Stream;
use jxlm_tree::flat::Steps;
use jxlm_tree::ma::MaConfig;
use std::alloc::Global;
use std::collections::BTreeMap;

/// A part of an image that is cut into groups, beside its global part.
#[derive(Clone, Copy, Debug, PartialEq, Eq, PartialOrd, Ord)]
pub enum Part {
    /// An LF group, by its number, from 0.
    Lf(u64),
    /// A group of a pass: the pass's number, and the group's, from 0.
    Pass(u32, u64),
}

impl From<Part> for SectionPart {
    ghost use Rattle.jxl_modular.specs.GroupParts.{section_part};

    ghost from_gives = { λ part name. name ≡ section_part part };

    fn from(part: Part) -> SectionPart {
        match part {
            Part::Lf(group) => SectionPart::Lf(group),
            Part::Pass(pass, group) => SectionPart::Pass(pass, group),
        }
    }
}

/// How far a part is decoded.
#[derive(Drop)]
struct PartState {
    // False from the first decode on that ended whole.
    partial: bool,
    steps: Steps,
}

impl PartState {
    ghost use Rattle.jxl_modular.specs.GroupParts.{new_state};

    /// That of a part whose decode has not begun.
    fn new() -> PartState
        ensures { result ≡ new_state }
    {
        PartState {
            partial: true,
            steps: Steps::new(),
        }
    }

    /// Notes whether all samples were decoded, where that is known.
    fn note(&mut self, whole: &Result<bool>)
        ensures ok { IfOk whole.now (λ b. self.new.partial ≡ (self.old.partial && not b)) }
        ensures err { IfErr whole.now (λ _. self.new.partial ≡ self.old.partial) }
        ensures steps { self.new.steps ≡ self.old.steps }
    {
        if let Ok(whole) = whole {
            self.partial = self.partial && !*whole;
        }
    }
}

/// The passes that an image is cut by, and the states of its parts.
#[derive(Drop)]
struct PartStates {
    passes: Vec<Pass>,
    // Of the parts whose decode began.
    states: BTreeMap<Part, PartState>,
    // Those of the other parts.
    no_steps: Steps,
    ghost numbered: { IsTrue (list_all (λ p. nat_le p.number 255) passes.items) },
    ghost none: { no_steps ≡ 0 },
}

impl PartStates {
    ghost use Rattle.jxl_modular.specs.GroupParts.{Part, pass_count, state_in, state_kept};

    /// One more than the maximum number of a pass.
    fn num_passes(&self) -> u32
        ensures { result ≡ pass_count self.now.passes.items }
    {
        let mut count = 0;
        for pass in &self.passes {
            count = count.max(pass.number + 1);
        }
        count
    }

    /// Whether no decode of the part ended whole.
    fn is_partial(&self, part: Part) -> bool
        ensures { result ≡ (state_in self.now part).partial }
    {
        match self.states.get(&part) {
            Some(state) => state.partial,
            None => true,
        }
    }

    /// How many nodes of trees were looked at by the decodes of the part.
    fn steps(&self, part: Part) -> &Steps
        ensures { result.now ≡ (state_in self.now part).steps }
    {
        match self.states.get(&part) {
            Some(state) => &state.steps,
            None => &self.no_steps,
        }
    }

    /// Takes the state of the part out, and keeps a new one in its place. Out of memory is its only error.
    fn take(&mut self, part: Part) -> std::result::Result<PartState, OutOfMemory>
        ensures taken { IfOk result (λ state. state ≡ state_in self.old part) }
        ensures kept { OnOk result (IsSome (state_kept self.new part)) }
        ensures unchanged { OnErr result (state_kept self.new part ≡ state_kept self.old part) }
        ensures others { (other : Part) → other ≢ part → state_kept self.new other ≡ state_kept self.old other }
        ensures passes { self.new.passes.items ≡ self.old.passes.items }
    {
        let kept = self.states.insert(part, PartState::new())?;
        match kept {
            Some(state) => Ok(state),
            None => Ok(PartState::new()),
        }
    }

    /// Puts the state of the part back, where one is kept in its place.
    fn put(&mut self, part: Part, state: PartState)
        requires kept { IsSome (state_kept self.old part) }
        ensures put { state_kept self.new part ≡ Some state }
        ensures others { (other : Part) → other ≢ part → state_kept self.new other ≡ state_kept self.old other }
        ensures passes { self.new.passes.items ≡ self.old.passes.items }
    {
        if let Some(kept) = self.states.get_mut(&part) {
            *kept = state;
        }
    }
}

/// An image that is cut into groups, to be decoded part by part, in any order.
///
/// It is held for writing until this is given up; it then keeps the samples that were decoded.
#[derive(Drop)]
pub struct TransformedGlobalModular<'dest, S, D: Decoder> {
    image: &'dest mut ModularImageDestination<S, D>,
    progress: PartStates,
}

impl<S: Sample, D: Decoder> ModularImageDestination<S, D> {
    ghost use Rattle.std.specs.Borrow.{sem};
    ghost use Rattle.jxlm_groups.specs.Cutting.{can_cut};
    ghost use Rattle.jxlm_groups.specs.Passes.{can_group as groups_possible, passes_of};
    ghost use Rattle.jxl_modular.specs.Groups.{IsCut};
    ghost use Rattle.jxl_modular.specs.GroupParts.{AreNew, EachCellIsInOnePart, image_of, loan, passes_in};
    ghost use Rattle.jxl_modular.specs.Image.{coded_list};
    ghost use Rattle.jxl_modular.specs.PartRests.{RestsWithGroups};

    /// The image cut into groups by these passes, each from its first shift on up to its last one, which it does not
    /// hold (ISO/IEC 18181-1, frame: passes and groups). It must be possible
    /// ([`can_group`](ModularImageDestination::can_group)).
    ///
    /// Each part that has samples is partial at first, and without a step; the image stays as it is. Each coded sample
    /// is in exactly one part, the global part among them.
    ///
    /// # Errors
    ///
    /// `InvalidSqueezeParams` if a group has a side of 0 in a coded channel, because of a squeeze's shift. `Buffer` if
    /// it is out of memory. The image is as before then.
    pub fn prepare_groups(
        &mut self,
        alloc: Global,
        pass_shifts: &BTreeMap<u32, (i32, i32)>,
    ) -> Result<TransformedGlobalModular<'_, S, D>>
        requires possible { IsTrue (groups_possible (passes_of pass_shifts.now.entries) self.old.given) }
        ensures* rests { sem 𝓛 (RestsWithGroups S.row D.row D.Decoder self.entry result) }
        ensures same_reference { IfOk result (λ g. loan g ≡ self.entry.ghost_name) }
        ensures unchanged { IfOk result (λ g. image_of g ≡ self.old) }
        ensures passes { IfOk result (λ g. passes_in g ≡ passes_of pass_shifts.now.entries) }
        ensures cut { IfOk result (λ g. IsCut (image_of g) (passes_in g)) }
        ensures once { IfOk result EachCellIsInOnePart }
        ensures new { IfOk result AreNew }
        ensures err { IfErr result (λ e. UnlessNoMemory (kind_of e) ((kind_of e ≡ BadSqueeze)
            × IsFalse (can_cut self.old.group_dim (coded_list self.old)))) }
    {
        self.check_cut()?;
        let passes = passes(alloc, pass_shifts)?;
        Ok(TransformedGlobalModular {
            image: self,
            progress: PartStates {
                passes,
                states: BTreeMap::new(alloc),
                no_steps: Steps::new(),
            },
        })
    }
}

impl<'dest, S: Sample, D: Decoder> TransformedGlobalModular<'dest, S, D> {
    ghost use Rattle.std.specs.Borrow.{sem};
    ghost use Rattle.jxlm_groups.specs.declared.part.Kind.TheVariants as kinds;
    ghost use Rattle.jxl_modular.specs.GroupParts.{KeepsOtherParts, NestedPartGives, PartGives, channels_of, groups_of, image_of, is_partial, loan, pass_count, passes_in, regions_of, steps_of};
    ghost use Rattle.jxl_modular.specs.Layers.{StandsIn};
    ghost use Rattle.jxl_modular.specs.Recursive.{IsReadIn, ReadFails, image_in, layer_in};
    ghost use Rattle.jxl_modular.specs.RecursiveRests.{LendsToHeader};
    ghost use Rattle.jxl_modular.specs.SameButCells.{SameButIn};
    ghost use Rattle.jxl_modular.specs.Image.{IsOnlyImage, coded_grids};
    ghost use Rattle.jxlm_base.specs.Regions.{store_meanings};
    ghost use Rattle.jxlm_tree.specs.TreeReading.{IsOutOfMemory};
    ghost use Rattle.jxlm_transform.specs.Channels.{AreGridsOf};

    /// How many LF groups the image has: 0 where no channel is cut into them. They are numbered by rows, left to right.
    pub fn num_lf_groups(&self) -> u64
        ensures { result ≡ groups_of self.now kinds.Lf }
    {
        self.image.group_count(&self.progress.passes, Kind::Lf)
    }

    /// One more than the maximum number of a pass.
    pub fn num_passes(&self) -> u32
        ensures { result ≡ pass_count (passes_in self.now) }
    {
        self.progress.num_passes()
    }

    /// How many groups the pass of this number has: 0 where no channel is cut into them, or there is no such pass. They
    /// are numbered by rows, left to right.
    pub fn num_groups(&self, pass: u32) -> u64
        ensures { result ≡ groups_of self.now (kinds.Pass pass) }
    {
        self.image
            .group_count(&self.progress.passes, Kind::Pass(pass))
    }

    /// Whether the part has no samples, as one that does not exist.
    pub fn is_empty(&self, part: Part) -> bool
        ensures { IsTrue result ↔ (cell_count (channels_of self.now part) ≡ 0) }
    {
        !self
            .image
            .part_has_samples(&self.progress.passes, part.into())
    }

    /// Whether samples of the part are still to be decoded: from the start where it has some, until a decode has
    /// ended whole.
    pub fn is_partial(&self, part: Part) -> bool
        ensures { result ≡ is_partial self.now part }
    {
        !self.is_empty(part) && self.progress.is_partial(part)
    }

    /// How many nodes of trees were looked at by the decodes of the part, as contracts see it: 0 at first, and
    /// [`decode`](Self::decode) and [`decode_nested`](Self::decode_nested) say how far each moves it.
    pub fn steps(&self, part: Part) -> &Steps
        ensures { result.now ≡ steps_of self.now part }
    {
        self.progress.steps(part)
    }

    /// Decodes all samples of the part from the reader's position (ISO/IEC 18181-1, Modular: decoding of samples).
    ///
    /// It is Ok where the samples are coded whole from there; then the part is whole, and the reader is after them. A
    /// part without samples reads no bit and is Ok. With `allow_partial` it is also Ok where the input ends, and the
    /// part stays partial. The samples of other parts stay, and how far these are decoded.
    ///
    /// # Memory
    ///
    /// All memory is taken before the first bit is read: a note of the part at its first decode, the part's channels, a
    /// clone of the decoder, a tree for each of the channels, which shares its nodes, and room for two rows of the
    /// maximum width.
    ///
    /// # Steps
    ///
    /// For each sample whose read was tried, [`steps`](Self::steps) goes on by no step where the tree is one leaf that
    /// predicts by `Zero`, or by `Gradient` with nothing added and multiplier 1; by at most one where a table of
    /// clusters serves; and else by at most the tree's depth and one more.
    ///
    /// # Errors
    ///
    /// The decoder's error: of its `begin`, of the read of one sample, or of its `finalize`. The samples before are
    /// then decoded and the others as before, the part stays partial, and the reader is where that call began. Out of
    /// memory, `Buffer` or `Decoder(OutOfMemory)`, leaves reader, samples and part as they were.
    pub fn decode(
        &mut self,
        alloc: Global,
        part: Part,
        bits: &mut Bitstream<'_>,
        stream_index: u32,
        allow_partial: bool,
    ) -> Result<()>
        ensures gives { PartGives D.meaning S.width S.to_int (bytes_of bits.old) stream_index part self.old
            (position_of bits.old) self.new (position_of bits.new) allow_partial result }
        ensures empty { cell_count (channels_of self.old part) ≡ 0 → IsOk result }
        ensures same { SameButIn (regions_of self.old part) (image_of self.old) (image_of self.new) }
        ensures others { KeepsOtherParts S.to_int part self.old self.new }
        ensures passes { passes_in self.new ≡ passes_in self.old }
        ensures same_reference { loan self.new ≡ loan self.old }
        ensures bytes { bytes_of bits.new ≡ bytes_of bits.old }
    {
        if self.is_empty(part) {
            return Ok(());
        }
        let mut state = self.progress.take(part)?;
        let stream = Stream {
            index: stream_index,
            allow_partial,
        };
        let result = self.image.decode_part(
            alloc,
            bits,
            &self.progress.passes,
            part.into(),
            stream,
            &mut state.partial,
            &mut state.steps,
        );
        self.progress.put(part, state);
        result
    }

    /// Reads a header of the part's own, and its tree, at the reader's position (ISO/IEC 18181-1, Modular: group
    /// sub-bitstreams); `global` is the tree for a header that uses a global one. Its list of channels is the part's,
    /// of which none is a meta channel. The reader is after what was read, and nothing else changes;
    /// [`enter`](Self::enter) takes the header.
    ///
    /// # Errors
    ///
    /// As when an image is read: of the header, of the first transform that does not suit the part's channels, of the
    /// first condition that does not hold, or of the tree; out of memory may come at any time. Image and parts are as
    /// before then.
    pub fn read_header(
        &self,
        alloc: Global,
        part: Part,
        bits: &mut Bitstream<'_>,
        global: Option<&MaConfig<D>>,
    ) -> Result<NestedHeader<S, D>>
        ensures read { IfOk result (λ l. IsReadIn D.meaning (S.from_int (pos 0)) (option_copied global.entry)
            (bytes_of bits.old) (channels_of self.now part) (position_of bits.old) (regions_of self.now part)
            (image_of self.now) [] l (position_of bits.new)) }
        ensures stands { IfOk result (λ l. StandsIn l (image_of self.now)) }
        ensures err { IfErr result (λ e. ReadFails D.meaning (S.from_int (pos 0)) (option_copied global.entry)
            (bytes_of bits.old) (channels_of self.now part) (position_of bits.old) e (position_of bits.new)) }
        ensures bytes { bytes_of bits.new ≡ bytes_of bits.old }
    {
        self.image
            .read_part(alloc, bits, &self.progress.passes, part.into(), global)
    }

    /// Lends the image to a header that [`read_header`](Self::read_header) read for one of its parts, to decode and
    /// finish that part by it. Nothing changes.
    ///
    /// What is decoded and finished by the header is the part's, and no other samples change. How far the parts are
    /// decoded, as [`is_partial`](Self::is_partial) and [`steps`](Self::steps) tell it, stays. A contract cannot see
    /// through this call what the image is once the header is given up; through
    /// [`decode_nested`](Self::decode_nested) it can.
    pub fn enter(&mut self, header: NestedHeader<S, D>) -> RecursiveModularImage<'_, S, D>
        requires stands { StandsIn header (image_of self.old) }
        ensures* rests { sem 𝓛 (LendsToHeader S.row D.row D.Decoder self.entry result) }
        ensures unchanged { image_in result ≡ image_of self.old }
        ensures header { layer_in result ≡ header }
    {
        RecursiveModularImage {
            image: self.image,
            header,
        }
    }

    /// [`read_header`](Self::read_header), and then [`enter`](Self::enter): a part by a header of its own, which stands
    /// at the reader's position.
    ///
    /// # Errors
    ///
    /// Those of [`read_header`](Self::read_header), whose promise it is that image and parts are as before then. A
    /// contract cannot say of this call what image, passes and parts are after an error, nor what they are once the
    /// header is given up. Where that is wanted, make the two calls.
    pub fn recursive(
        &mut self,
        alloc: Global,
        part: Part,
        bits: &mut Bitstream<'_>,
        global: Option<&MaConfig<D>>,
    ) -> Result<RecursiveModularImage<'_, S, D>>
        ensures unchanged { IfOk result (λ r. image_in r ≡ image_of self.old) }
        ensures read { IfOk result (λ r. IsReadIn D.meaning (S.from_int (pos 0)) (option_copied global.entry)
            (bytes_of bits.old) (channels_of self.old part) (position_of bits.old) (regions_of self.old part)
            (image_of self.old) [] (layer_in r) (position_of bits.new)) }
        ensures err { IfErr result (λ e. ReadFails D.meaning (S.from_int (pos 0)) (option_copied global.entry)
            (bytes_of bits.old) (channels_of self.old part) (position_of bits.old) e (position_of bits.new)) }
        ensures bytes { bytes_of bits.new ≡ bytes_of bits.old }
    {
        let header = self.read_header(alloc, part, bits, global)?;
        Ok(self.enter(header))
    }

    /// Decodes the part by a header of its own, and undoes that header's transforms, so that the part's samples are
    /// finished (ISO/IEC 18181-1, Modular: group sub-bitstreams); `global` is the tree for a header that uses a global
    /// one. It returns whether all samples that the header codes were decoded; the part is whole then. The samples of
    /// other parts stay, and how far these are decoded.
    ///
    /// The reader is after the samples; where the input ends and may, it is where the decoder's call began that failed.
    ///
    /// # Memory
    ///
    /// A note of the part at its first decode, what reading an image takes but the channels' grids, what a part's
    /// `decode` takes, and what `finish` takes.
    ///
    /// # Steps
    ///
    /// As of [`decode`](Self::decode), by the tree of the header, for each sample of the header's channels whose read
    /// was tried.
    ///
    /// # Errors
    ///
    /// As when an image is read, for header and tree; as of a part's `decode`, for the samples: those before are then
    /// decoded, no transform is undone, and the reader is where the decoder's call began. Out of memory may come at any
    /// time.
    pub fn decode_nested(
        &mut self,
        alloc: Global,
        part: Part,
        bits: &mut Bitstream<'_>,
        stream_index: u32,
        global: Option<&MaConfig<D>>,
        allow_partial: bool,
    ) -> Result<bool>
        ensures gives { NestedPartGives D.meaning S.width S.to_int (S.from_int (pos 0)) (option_copied global.entry)
            (bytes_of bits.old) stream_index part self.old (position_of bits.old) self.new (position_of bits.new)
            allow_partial result }
        ensures whole { IfOk result (λ whole. is_partial self.new part ≡ (is_partial self.old part && not whole)) }
        ensures partial { IfErr result (λ _. is_partial self.new part ≡ is_partial self.old part) }
        ensures same { SameButIn (regions_of self.old part) (image_of self.old) (image_of self.new) }
        ensures others { KeepsOtherParts S.to_int part self.old self.new }
        ensures passes { passes_in self.new ≡ passes_in self.old }
        ensures same_reference { loan self.new ≡ loan self.old }
        ensures bytes { bytes_of bits.new ≡ bytes_of bits.old }
    {
        let mut state = self.progress.take(part)?;
        let stream = Stream {
            index: stream_index,
            allow_partial,
        };
        let result = self.image.decode_nested(
            alloc,
            bits,
            &self.progress.passes,
            part.into(),
            stream,
            global,
            &mut state.steps,
        );
        state.note(&result);
        self.progress.put(part, state);
        result
    }

    /// The channels as they are shown while the parts are still decoded, as
    /// [`shown`](ModularImageDestination::shown) of the image gives them. The image and its parts stay.
    ///
    /// # Errors
    ///
    /// Out of memory alone: `Decoder(OutOfMemory)` from the decoder, or `Buffer`.
    pub fn shown(&self, alloc: Global) -> Result<Vec<AlignedGrid<S>>>
        ensures only { IfOk result (λ v. IsOnlyImage S.width (image_of self.now) (store_meanings S.to_int v.items)
            (coded_grids S.to_int (image_of self.now))) }
        ensures sizes { IfOk result (λ v. AreGridsOf (image_of self.now).given v.items) }
        ensures err { IfErr result (λ e. IsOutOfMemory (kind_of e)) }
    {
        self.image.shown(alloc)
    }

    /// Gives the image back, with the samples that were decoded.
    pub fn give_back(self) -> &'dest mut ModularImageDestination<S, D>
        ensures same_reference { result.ghost_name ≡ loan self.entry }
        ensures value { result.now ≡ image_of self.entry }
    {
        let TransformedGlobalModular {
            image,
            progress: _progress,
        } = self;
        image
    }
}
