//! Sections decoded one after another.

ghost use Rattle.std.specs.Option.{option_copied};
ghost use Rattle.std.specs.Prelude.{pos, length, IfOk, IfErr, OnErr, OnOk};

use super::Section;
use super::progress::Progress;
use crate::image::ModularImageDestination;
use jxlm_base::sample::Sample;
use jxlm_bits::decoder::Decoder;
use jxlm_bits::error::Result;
use jxlm_groups::pass::Pass;
use jxlm_nested::stream::Stream;
use jxlm_tree::flat::Steps;
use jxlm_tree::ma::MaConfig;
use std::alloc::Global;

impl<S: Sample, D: Decoder> ModularImageDestination<S, D> {
    ghost use Rattle.jxl_modular.specs.SameButCells.{SameButCells};
    ghost use Rattle.jxl_modular.specs.Sections.{Heard, HeardSome};
    ghost use Rattle.jxl_modular.specs.Inner.Turns.{HasTurned, HasStopped, PlainGives, TurnGives};

    /// Decodes a section without a header of its own, and returns whether all samples of its part were decoded.
    fn decode_plain(
        &mut self,
        alloc: Global,
        passes: &[Pass],
        section: &Section<'_>,
        allow_partial: bool,
        steps: &mut Steps,
    ) -> Result<bool>
        ensures gives { PlainGives D.meaning S.width S.to_int self.old passes.now allow_partial section.now result
            self.old.store self.new.store steps.old steps.new }
        ensures same { SameButCells self.old self.new }
    {
        let mut bits = section.bits;
        let mut partial = self.part_has_samples(passes, section.part);
        let stream = Stream {
            index: section.stream_index,
            allow_partial,
        };
        self.decode_part(
            alloc,
            &mut bits,
            passes,
            section.part,
            stream,
            &mut partial,
            steps,
        )?;
        Ok(!partial)
    }

    /// Decodes a section, and returns whether all samples of its part, or of its own header's channels, were decoded.
    fn decode_section(
        &mut self,
        alloc: Global,
        passes: &[Pass],
        section: &Section<'_>,
        global: Option<&MaConfig<D>>,
        allow_partial: bool,
        steps: &mut Steps,
    ) -> Result<bool>
        ensures gives { TurnGives D.meaning S.width S.to_int (S.from_int (pos 0)) self.old passes.now
            (option_copied global.entry) allow_partial section.now result self.old.store self.new.store
            steps.old steps.new }
        ensures same { SameButCells self.old self.new }
    {
        if section.nested {
            let mut bits = section.bits;
            let stream = Stream {
                index: section.stream_index,
                allow_partial,
            };
            self.decode_nested(
                alloc,
                &mut bits,
                passes,
                section.part,
                stream,
                global,
                steps,
            )
        } else {
            self.decode_plain(alloc, passes, section, allow_partial, steps)
        }
    }

    /// Decodes sections, in their order, tells of each, and returns whether all samples of their parts were decoded.
    pub(super) fn decode_all<P: Progress>(
        &mut self,
        alloc: Global,
        passes: &[Pass],
        sections: &[Section<'_>],
        global: Option<&MaConfig<D>>,
        allow_partial: bool,
        steps: &mut Steps,
        progress: &mut P,
    ) -> Result<bool>
        ensures turned { IfOk result (λ whole. HasTurned D.meaning S.width S.to_int (S.from_int (pos 0)) self.old
            passes.now (option_copied global.entry) allow_partial sections.now whole self.old.store self.new.store
            steps.old steps.new) }
        ensures stopped { IfErr result (λ e. HasStopped D.meaning S.width S.to_int (S.from_int (pos 0)) self.old
            passes.now (option_copied global.entry) allow_partial sections.now e self.old.store self.new.store
            steps.old steps.new) }
        ensures told { OnOk result (Heard P.section_decoded_gives (length sections.now) (length sections.now)
            progress.old progress.new) }
        ensures told_some { OnErr result (HeardSome P.section_decoded_gives (length sections.now) progress.old
            progress.new) }
        ensures same { SameButCells self.old self.new }
    {
        let mut whole = true;
        for section in sections {
            let decoded = self.decode_section(
                alloc,
                passes,
                section,
                global,
                allow_partial,
                steps,
            )?;
            if !decoded {
                whole = false;
            }
            progress.section_decoded(sections.len());
        }
        Ok(whole)
    }
}
