//! Images that are cut into parts (ISO/IEC 18181-1, frame: groups, LF groups and passes).

ghost use Rattle.jxlm_bits.specs.Bits.{bytes_of, position_of};
ghost use Rattle.jxlm_samples.specs.Part.{cell_count};
ghost use Rattle.std.specs.Prelude.{◌≡◌, ◌↔◌, ◌<◌, IsOk, IsTrue, IsFalse, IfOk, IfErr};

use super::ModularImageDestination;
use jxlm_base::sample::Sample;
use jxlm_bits::bits::Bitstream;
use jxlm_bits::decoder::Decoder;
use jxlm_bits::error::Result;
use jxlm_groups::area::{PartArea, parts, picture_sides};
use jxlm_groups::complete::has_each_part;
use jxlm_groups::cut::{check_cut, exists, group_count};
use jxlm_groups::part::{Kind, SectionPart};
use jxlm_groups::pass::{Pass, passes};
use jxlm_groups::pieces::{has_pieces, pieces};
use jxlm_nested::nested::NestedPart;
use jxlm_nested::stream::Stream;
use jxlm_samples::part::PlacedPart;
use jxlm_tree::flat::Steps;
use jxlm_tree::ma::MaConfig;
use std::alloc::Global;
use std::collections::{BTreeMap, BTreeSet};

impl<S: Sample, D: Decoder> ModularImageDestination<S, D> {
    ghost use Rattle.jxlm_bits.specs.ErrorKind.{BadSqueeze, NoMemory, kind_of};
    ghost use Rattle.jxlm_groups.specs.Areas.{areas_of, picture_of};
    ghost use Rattle.jxlm_groups.specs.Passes.{can_group as groups_possible, passes_of};
    ghost use Rattle.jxlm_groups.specs.Counts.{exists as the_existing, group_count as the_group_count};
    ghost use Rattle.jxlm_groups.specs.Cutting.{can_cut};
    ghost use Rattle.jxlm_groups.specs.PartSets.{HoldsEach};
    ghost use Rattle.jxl_modular.specs.Image.{coded_list};
    ghost use Rattle.jxl_modular.specs.Groups.{PartOfGives, channels_in, held_in};
    ghost use Rattle.jxl_modular.specs.Inner.Laid.{IsLaidOut};
    ghost use Rattle.jxl_modular.specs.SameButCells.{SameButIn};
    ghost use Rattle.jxl_modular.specs.NestedTurns.{NestedGives};
    ghost use Rattle.std.specs.Option.{option_copied};
    ghost use Rattle.std.specs.Prelude.{pos};

    /// Checks that no group has a side of 0.
    pub(crate) fn check_cut(&self) -> Result<()>
        ensures ok { IfOk result (λ _. IsTrue (can_cut self.now.group_dim (coded_list self.now))) }
        ensures err { IfErr result (λ e. (kind_of e ≡ BadSqueeze) × IsFalse
            (can_cut self.now.group_dim (coded_list self.now))) }
        ensures laid { IsLaidOut self.now }
    {
        check_cut(&self.coded, self.group_dim)
    }

    /// How many groups there are of a kind.
    pub(crate) fn group_count(&self, passes: &[Pass], kind: Kind) -> u64
        ensures { result ≡ the_group_count self.now.group_dim passes.now (coded_list self.now) kind }
    {
        group_count(&self.coded, self.group_dim, passes, kind)
    }

    /// Whether there is such a part.
    pub(crate) fn has_part(&self, passes: &[Pass], part: SectionPart) -> bool
        ensures { result ≡ the_existing self.now.group_dim passes.now (coded_list self.now) part }
    {
        exists(&self.coded, self.group_dim, passes, part)
    }

    /// Whether a part has samples.
    pub(crate) fn part_has_samples(&self, passes: &[Pass], part: SectionPart) -> bool
        ensures { IsTrue result ↔ (0 < cell_count (channels_in self.now passes.now part)) }
    {
        has_pieces(&self.coded, self.group_dim, passes, part)
    }

    /// Whether a set has each part with samples.
    pub(crate) fn has_each_part(&self, passes: &[Pass], parts: &BTreeSet<SectionPart>) -> bool
        ensures each { IsTrue result ↔ HoldsEach self.now.group_dim passes.now (coded_list self.now) parts.now }
        ensures laid { IsLaidOut self.now }
    {
        has_each_part(&self.coded, self.group_dim, passes, parts)
    }

    /// All parts of the image where it is cut into groups by these passes, each with the rectangle that it covers of the
    /// picture, in the samples of a channel of the picture's size before all transforms (ISO/IEC 18181-1, frame:
    /// groups, LF groups and passes). It must be possible ([`can_group`](Self::can_group)).
    ///
    /// First comes the global part, which covers the whole picture; then the LF groups, whose squares have eight times
    /// the side of a group; and then the groups of one pass after the other, whose squares have the side of a group.
    /// Groups are numbered by rows, left to right; the last of a row, and those of the last row, may be narrow. This is
    /// the order of sections. A part without samples is among them, which has no section
    /// ([`is_empty`](crate::groups::TransformedGlobalModular::is_empty)).
    ///
    /// # Errors
    ///
    /// `Buffer` if it is out of memory, and no other.
    pub fn parts(
        &self,
        alloc: Global,
        pass_shifts: &BTreeMap<u32, (i32, i32)>,
    ) -> Result<Vec<PartArea>>
        requires possible { IsTrue (groups_possible (passes_of pass_shifts.now.entries) self.now.given) }
        ensures each { IfOk result (λ parts. parts.items ≡ areas_of (picture_of self.now.given).0
            (picture_of self.now.given).1 self.now.group_dim (passes_of pass_shifts.now.entries)
            (coded_list self.now)) }
        ensures err { IfErr result (λ e. kind_of e ≡ NoMemory) }
    {
        let passes = passes(alloc, pass_shifts)?;
        let (width, height) = picture_sides(&self.given);
        let list = parts(alloc, width, height, &self.coded, self.group_dim, &passes)?;
        Ok(list)
    }

    /// Decodes all samples of a part. All memory is taken before the first bit is read.
    pub(crate) fn decode_part(
        &mut self,
        alloc: Global,
        bits: &mut Bitstream<'_>,
        passes: &[Pass],
        part: SectionPart,
        stream: Stream,
        partial: &mut bool,
        steps: &mut Steps,
    ) -> Result<()>
        ensures gives { PartOfGives D.meaning S.width S.to_int (bytes_of bits.old) stream.index passes.now part
            self.old (position_of bits.old) partial.old steps.old
            self.new (position_of bits.new) partial.new steps.new stream.allow_partial result }
        ensures same { SameButIn (held_in self.old passes.now part) self.old self.new }
        ensures laid { IsLaidOut self.old }
        ensures bytes { bytes_of bits.new ≡ bytes_of bits.old }
    {
        let pieces = pieces(alloc, &self.coded, self.group_dim, passes, part)?;
        let placed = PlacedPart {
            channels: &pieces,
            config: &self.ma_ctx,
            weights: self.header.wp_params,
            stream_index: stream.index,
        };
        placed.decode(
            alloc,
            bits,
            &mut self.store,
            stream.allow_partial,
            partial,
            steps,
        )
    }

    /// Reads a part's own header and tree, decodes its samples and undoes its transforms. It returns whether all
    /// samples of its coded channels were decoded.
    pub(crate) fn decode_nested(
        &mut self,
        alloc: Global,
        bits: &mut Bitstream<'_>,
        passes: &[Pass],
        part: SectionPart,
        stream: Stream,
        global: Option<&MaConfig<D>>,
        steps: &mut Steps,
    ) -> Result<bool>
        ensures gives { NestedGives D.meaning S.width S.to_int (S.from_int (pos 0)) self.old passes.now
            (option_copied global.entry) (bytes_of bits.old) (position_of bits.old) part stream.index
            stream.allow_partial result self.old.store self.new.store (position_of bits.new) steps.old steps.new }
        ensures bytes { bytes_of bits.new ≡ bytes_of bits.old }
        ensures same { SameButIn (held_in self.old passes.now part) self.old self.new }
        ensures laid { IsLaidOut self.old }
    {
        let pieces = pieces(alloc, &self.coded, self.group_dim, passes, part)?;
        let nested = NestedPart::parse(alloc, bits, pieces, self.store.len(), global)?;
        nested.decode(alloc, bits, &mut self.store, self.bit_depth, stream, steps)
    }
}
