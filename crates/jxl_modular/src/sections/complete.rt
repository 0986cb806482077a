//! Whether sections are of all parts that have samples.

ghost use Rattle.std.specs.Prelude.{◌≡◌, ◌↔◌, IfOk, IfErr, IsTrue, OnOk};
ghost use Rattle.jxlm_bits.specs.ErrorKind.{NoMemory, kind_of};
ghost use Rattle.jxl_modular.specs.Sections.{IsComplete};
ghost use Rattle.jxl_modular.specs.Inner.SectionParts.{HoldsParts};

use super::{Section, SectionPart};
use crate::image::ModularImageDestination;
use jxlm_base::sample::Sample;
use jxlm_bits::decoder::Decoder;
use jxlm_bits::error::Result;
use jxlm_groups::pass::Pass;
use std::alloc::Global;
use std::collections::BTreeSet;

/// The parts of sections. Out of memory is its only error.
fn parts_of(alloc: Global, sections: &[Section<'_>]) -> Result<BTreeSet<SectionPart>>
    ensures ok { IfOk result (λ parts. HoldsParts parts sections.now) }
    ensures err { IfErr result (λ e. kind_of e ≡ NoMemory) }
{
    let mut parts = BTreeSet::new(alloc);
    for section in sections {
        parts.insert(section.part)?;
    }
    Ok(parts)
}

impl<S: Sample, D: Decoder> ModularImageDestination<S, D> {
    ghost use Rattle.jxl_modular.specs.Inner.Laid.{IsLaidOut};

    /// Whether each part with samples has a section. Out of memory is its only error.
    pub(super) fn is_complete(
        &self,
        alloc: Global,
        passes: &[Pass],
        sections: &[Section<'_>],
    ) -> Result<bool>
        ensures ok { IfOk result (λ b. IsTrue b ↔ IsComplete self.now passes.now sections.now) }
        ensures laid { OnOk result (IsLaidOut self.now) }
        ensures err { IfErr result (λ e. kind_of e ≡ NoMemory) }
    {
        let parts = parts_of(alloc, sections)?;
        Ok(self.has_each_part(passes, &parts))
    }
}
