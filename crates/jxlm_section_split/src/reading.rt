//! The sections of an image, read from bytes.

ghost use Rattle.std.specs.Prelude.{◌≡◌, ◌∷◌, [], length, IfOk, IfErr, IsTrue, OnOk};
ghost use Rattle.jxlm_groups.specs.Passes.{can_group as groups_possible, passes_of};
ghost use Rattle.jxl_modular.specs.Groups.{IsCut};
ghost use Rattle.jxlm_section_split.specs.CutPicture.{one_pass as the_pass};
ghost use Rattle.jxlm_section_split.specs.Splitting.{AreRead, ReadingFails};

use crate::split::split_section;
use jxl_modular::groups::{Part, TransformedGlobalModular};
use jxl_modular::image::ModularImageDestination;
use jxl_modular::sections::{Section, SectionPart};
use jxlm_base::sample::Sample;
use jxlm_bits::bits::Bitstream;
use jxlm_bits::decoder::Decoder;
use jxlm_bits::error::Error;
use std::alloc::Global;
use std::collections::BTreeMap;

/// The number of the one pass.
const PASS: u32 = 0;

/// Sections that were read from bytes, in order, and the bytes after them.
#[derive(Drop)]
struct Sections<'a> {
    list: Vec<Section<'a>>,
    rest: &'a [u8],
}

impl<'a> Sections<'a> {
    ghost use Rattle.jxl_modular.specs.GroupParts.{groups_of, image_of, passes_in, section_part};
    ghost use Rattle.jxlm_groups.specs.declared.part.Kind.TheVariants as kinds;
    ghost use Rattle.jxlm_section_split.specs.CutPicture.{lf_groups, one_pass, pass_groups, with_samples};
    ghost use Rattle.jxlm_section_split.specs.Splitting.{AreAdded};
    ghost use Rattle.jxlm_section_split.specs.Inner.Added.{AddingFails};

    /// Adds the next section, which is of a group and has a header of its own.
    fn add(&mut self, part: Part) -> Result<(), Error>
        ensures ok { OnOk result (AreAdded (section_part part ∷ []) self.old.list.items self.old.rest.now
            self.new.list.items self.new.rest.now) }
        ensures err { IfErr result (AddingFails 1 self.old.rest.now) }
    {
        let (bytes, rest) = split_section(self.rest)?;
        self.rest = rest;
        let section = Section {
            part: part.into(),
            bits: Bitstream::new(bytes),
            stream_index: (self.list.len() % (1 << 32)) as u32,
            nested: true,
        };
        self.list.push(section)?;
        Ok(())
    }

    /// Adds a section for each LF group with samples, by number.
    fn add_low<S: Sample, D: Decoder>(
        &mut self,
        groups: &TransformedGlobalModular<'_, S, D>,
    ) -> Result<(), Error>
        requires { passes_in groups.now ≡ one_pass }
        ensures ok { OnOk result (AreAdded (with_samples (image_of groups.now)
            (lf_groups (groups_of groups.now kinds.Lf))) self.old.list.items self.old.rest.now
            self.new.list.items self.new.rest.now) }
        ensures err { IfErr result (AddingFails (length (with_samples (image_of groups.now)
            (lf_groups (groups_of groups.now kinds.Lf)))) self.old.rest.now) }
    {
        for group in 0..groups.num_lf_groups() {
            if !groups.is_empty(Part::Lf(group)) {
                self.add(Part::Lf(group))?;
            }
        }
        Ok(())
    }

    /// Adds a section for each group of the pass with samples, by number.
    fn add_pass<S: Sample, D: Decoder>(
        &mut self,
        groups: &TransformedGlobalModular<'_, S, D>,
    ) -> Result<(), Error>
        requires { passes_in groups.now ≡ one_pass }
        ensures ok { OnOk result (AreAdded (with_samples (image_of groups.now)
            (pass_groups (groups_of groups.now (kinds.Pass 0)))) self.old.list.items self.old.rest.now
            self.new.list.items self.new.rest.now) }
        ensures err { IfErr result (AddingFails (length (with_samples (image_of groups.now)
            (pass_groups (groups_of groups.now (kinds.Pass 0))))) self.old.rest.now) }
    {
        for group in 0..groups.num_groups(PASS) {
            if !groups.is_empty(Part::Pass(PASS, group)) {
                self.add(Part::Pass(PASS, group))?;
            }
        }
        Ok(())
    }
}

/// The sections of an image whose header was read, in their order: the rest of the first, which is of the global part,
/// and then one for each LF group and each group of the one pass, as far as these have samples (ISO/IEC 18181-1, frame:
/// sections). In the bytes behind the first, each comes after the number of its bytes, in four bytes, the least
/// significant first; what comes after the last is not looked at. The image stays as it is.
///
/// The passes are those of [`one_pass`](crate::one_pass), and the image can be grouped by them
/// ([`can_group`](ModularImageDestination::can_group)).
///
/// # Errors
///
/// `InvalidSqueezeParams` where a group has a side of 0 in a coded channel; `UnexpectedEof` where a section is
/// truncated, its number or itself. Or it is out of memory.
pub fn split_sections<'a, S: Sample, D: Decoder>(
    alloc: Global,
    image: &mut ModularImageDestination<S, D>,
    passes: &BTreeMap<u32, (i32, i32)>,
    first: Bitstream<'a>,
    rest: &'a [u8],
) -> Result<Vec<Section<'a>>, Error>
    requires possible { IsTrue (groups_possible the_pass image.old.given) }
    requires one { passes_of passes.now.entries ≡ the_pass }
    ensures read { IfOk result (λ sections. AreRead image.old first.entry rest.now sections.items) }
    ensures cut { IfOk result (λ sections. IsCut image.old the_pass) }
    ensures unchanged { OnOk result (image.new ≡ image.old) }
    ensures err { IfErr result (ReadingFails image.old rest.now) }
{
    let groups = image.prepare_groups(alloc, passes)?;
    let mut sections = Sections {
        list: Vec::new(alloc),
        rest,
    };
    let global = Section {
        part: SectionPart::Global,
        bits: first,
        stream_index: 0,
        nested: false,
    };
    sections.list.push(global)?;
    sections.add_low(&groups)?;
    sections.add_pass(&groups)?;
    groups.give_back();
    let Sections { list, .. } = sections;
    Ok(list)
}
