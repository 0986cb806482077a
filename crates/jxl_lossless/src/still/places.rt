//! The sections of a frame, by the parts of its image.

ghost use Rattle.std.specs.Prelude.{◌≡◌, ◌∷◌, [], None, IfErr, IfOk, IsTrue, MatchOption, OnOk};
ghost use Rattle.jxlm_groups.specs.Passes.{can_group};
ghost use Rattle.jxl_modular.specs.Groups.{IsCut};

use crate::still::error::FrameError;
use jxl_codestream::layout::Layout;
use jxl_modular::groups::{Part, TransformedGlobalModular};
use jxl_modular::image::ModularImageDestination;
use jxl_modular::sections::{Section, SectionPart};
use jxlm_base::sample::Sample;
use jxlm_bits::bits::Bitstream;
use jxlm_bits::decoder::Decoder;
use jxlm_bits::error::Error;
use std::alloc::Global;
use std::collections::BTreeMap;

/// The sections of a frame, by their numbers, and the passes that it comes in.
#[derive(Clone, Copy)]
pub struct Places<'a, 't> {
    /// How the frame is cut: which section, and which stream, a part has.
    pub layout: &'t Layout,
    /// The bytes of the sections.
    pub sections: &'t [&'a [u8]],
    /// The passes by their numbers, from 0, each with the first shift that it holds, and the first after it that it
    /// does not hold. Each shift below 3 has its pass.
    pub passes: &'t BTreeMap<u32, (i32, i32)>,
}

impl<'a, 't> Places<'a, 't> {
    ghost use Rattle.jxl_modular.specs.GroupParts.{image_of, pass_count, passes_in};
    ghost use Rattle.jxl_lossless.specs.Places.{own_passes, section_at};
    ghost use Rattle.jxl_lossless.specs.Inner.Listing.{AddingFails, AreAdded, IsPlaced};
    ghost use Rattle.jxl_lossless.specs.Parts.{low_parts, parts_of_pass, parts_of_passes};

    // The section of a group, with the index of its stream.
    fn section(&self, part: SectionPart) -> Option<Section<'a>>
        ensures { MatchOption result (section_at self.now part ≡ None) (IsPlaced self.now part) }
    {
        if !self.layout.has(part) {
            return None;
        }
        let bytes = self.sections.get(self.layout.section(part) as usize)?;
        Some(Section {
            part,
            bits: Bitstream::new(bytes),
            stream_index: self.layout.stream(part),
            nested: true,
        })
    }

    // Adds the section of a group.
    fn add(&self, list: &mut Vec<Section<'a>>, part: SectionPart) -> Result<(), FrameError>
        ensures ok { OnOk result (AreAdded self.now (part ∷ []) list.old.items list.new.items) }
        ensures err { IfErr result (AddingFails self.now (part ∷ [])) }
    {
        match self.section(part) {
            Some(section) => {
                list.push(section)?;
                Ok(())
            }
            None => Err(FrameError::NoSection),
        }
    }

    // Adds a section for each LF group with samples, by number.
    fn add_all_low<S: Sample, D: Decoder>(
        &self,
        list: &mut Vec<Section<'a>>,
        groups: &TransformedGlobalModular<'_, S, D>,
    ) -> Result<(), FrameError>
        ensures ok { OnOk result (AreAdded self.now (low_parts (image_of groups.now) (passes_in groups.now))
            list.old.items list.new.items) }
        ensures err { IfErr result (AddingFails self.now (low_parts (image_of groups.now) (passes_in groups.now))) }
    {
        for group in 0..groups.num_lf_groups() {
            if !groups.is_empty(Part::Lf(group)) {
                self.add(list, SectionPart::Lf(group))?;
            }
        }
        Ok(())
    }

    // Adds a section for each group of a pass with samples, by number.
    fn add_pass<S: Sample, D: Decoder>(
        &self,
        list: &mut Vec<Section<'a>>,
        groups: &TransformedGlobalModular<'_, S, D>,
        pass: u32,
    ) -> Result<(), FrameError>
        ensures ok { OnOk result (AreAdded self.now (parts_of_pass (image_of groups.now) (passes_in groups.now) pass)
            list.old.items list.new.items) }
        ensures err { IfErr result (AddingFails self.now
            (parts_of_pass (image_of groups.now) (passes_in groups.now) pass)) }
    {
        for group in 0..groups.num_groups(pass) {
            if !groups.is_empty(Part::Pass(pass, group)) {
                self.add(list, SectionPart::Pass(pass, group))?;
            }
        }
        Ok(())
    }

    // Adds those of each pass, by number.
    fn add_all_passes<S: Sample, D: Decoder>(
        &self,
        list: &mut Vec<Section<'a>>,
        groups: &TransformedGlobalModular<'_, S, D>,
    ) -> Result<(), FrameError>
        ensures ok { OnOk result (AreAdded self.now (parts_of_passes (image_of groups.now) (passes_in groups.now)
            (pass_count (passes_in groups.now))) list.old.items list.new.items) }
        ensures err { IfErr result (AddingFails self.now (parts_of_passes (image_of groups.now) (passes_in groups.now)
            (pass_count (passes_in groups.now)))) }
    {
        for pass in 0..groups.num_passes() {
            self.add_pass(list, groups, pass)?;
        }
        Ok(())
    }

    ghost use Rattle.jxl_lossless.specs.Inner.Listing.{AreListed, ListingFails};

    /// The sections of an image whose header was read: the rest of the first, and one for each group with samples. The
    /// image stays as it is.
    pub(crate) fn list<S: Sample, D: Decoder>(
        &self,
        alloc: Global,
        image: &mut ModularImageDestination<S, D>,
        first: Bitstream<'a>,
    ) -> Result<Vec<Section<'a>>, FrameError>
        requires possible { IsTrue (can_group (own_passes self.now) image.old.given) }
        ensures listed { IfOk result (λ v. AreListed self.now image.old first.entry v.items) }
        ensures cut { IfOk result (λ v. IsCut image.old (own_passes self.now)) }
        ensures unchanged { OnOk result (image.new ≡ image.old) }
        ensures err { IfErr result (ListingFails self.now image.old) }
    {
        let groups = match image.prepare_groups(alloc, self.passes) {
            Ok(groups) => groups,
            Err(Error::InvalidSqueezeParams) => return Err(FrameError::NoGroups),
            Err(_) => return Err(FrameError::OutOfMemory),
        };
        let mut list = Vec::new(alloc);
        let global = Section {
            part: SectionPart::Global,
            bits: first,
            stream_index: 0,
            nested: false,
        };
        list.push(global)?;
        self.add_all_low(&mut list, &groups)?;
        self.add_all_passes(&mut list, &groups)?;
        groups.give_back();
        Ok(list)
    }
}
