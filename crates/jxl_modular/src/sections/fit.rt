//! Whether sections fit an image.

ghost use Rattle.std.specs.Prelude.{◌≡◌, ◌≢◌, ◌↔◌, IfOk, IfErr, IsTrue};
ghost use Rattle.std.specs.List.{All, AllPairs};
ghost use Rattle.jxlm_bits.specs.ErrorKind.{NoMemory, kind_of};
ghost use Rattle.jxlm_groups.specs.Passes.{passes_of};
ghost use Rattle.jxl_modular.specs.Groups.{Exists};
ghost use Rattle.jxl_modular.specs.Sections.{FitGives};

use super::Section;
use crate::image::ModularImageDestination;
use jxlm_base::sample::Sample;
use jxlm_bits::decoder::Decoder;
use jxlm_bits::error::Result;
use jxlm_groups::pass::{Pass, passes};
use std::alloc::Global;
use std::collections::{BTreeMap, BTreeSet};

/// Whether sections fit an image: it can be cut into groups by these passes
/// ([`can_group`](ModularImageDestination::can_group)), each section's part is there, and no two sections are of one
/// part. No section at all fits. It is false where the image cannot be cut into groups.
///
/// # Errors
///
/// `InvalidSqueezeParams` if it can be cut and a group has a side of 0, because of a squeeze's shift. `Buffer` if it is
/// out of memory, which it never is where the image cannot be cut into groups.
pub fn sections_fit<S: Sample, D: Decoder>(
    alloc: Global,
    image: &ModularImageDestination<S, D>,
    pass_shifts: &BTreeMap<u32, (i32, i32)>,
    sections: &[Section<'_>],
) -> Result<bool>
    ensures { FitGives image.now (passes_of pass_shifts.now.entries) sections.now result }
{
    if !image.can_group(pass_shifts) {
        return Ok(false);
    }
    let passes = passes(alloc, pass_shifts)?;
    image.check_cut()?;
    image.have_parts(alloc, &passes, sections)
}

impl<S: Sample, D: Decoder> ModularImageDestination<S, D> {
    /// Whether each section's part is there, and no two sections are of one part. Out of memory is its only error.
    fn have_parts(&self, alloc: Global, passes: &[Pass], sections: &[Section<'_>]) -> Result<bool>
        ensures ok { IfOk result (λ b. IsTrue b ↔
            (All (λ s. Exists self.now passes.now s.part) sections.now
            × AllPairs (λ s t. s.part ≢ t.part) sections.now)) }
        ensures err { IfErr result (λ e. kind_of e ≡ NoMemory) }
    {
        let mut seen = BTreeSet::new(alloc);
        for section in sections {
            if !self.has_part(passes, section.part) || !seen.insert(section.part)? {
                return Ok(false);
            }
        }
        Ok(true)
    }
}
