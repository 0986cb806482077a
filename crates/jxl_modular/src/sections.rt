//! Whole runs: an image decoded from sections, each of which codes one part (ISO/IEC 18181-1, frame: sections).

ghost use Rattle.std.specs.Prelude.{◌≡◌, length, pos, true, Ok, IfOk, IfErr, OnErr, OnOk};
ghost use Rattle.std.specs.Option.{option_copied};
ghost use Rattle.jxlm_groups.specs.Passes.{passes_of};
ghost use Rattle.jxl_modular.specs.Image.{image_grids};
ghost use Rattle.jxl_modular.specs.SameButCells.{SameButCells};
ghost use Rattle.jxl_modular.specs.Sections.{AreDecoded, Heard, HeardSome, SectionsFit, SectionsLeave, SectionsStop};

mod complete;
mod fit;
mod progress;
mod turns;

use crate::image::ModularImageDestination;
pub use fit::sections_fit;
use jxlm_base::sample::Sample;
use jxlm_bits::bits::Bitstream;
use jxlm_bits::decoder::Decoder;
use jxlm_bits::error::Result;
pub use jxlm_groups::area::{Area, PartArea};
pub use jxlm_groups::part::SectionPart;
use jxlm_groups::pass::passes;
use jxlm_tree::flat::Steps;
use jxlm_tree::ma::MaConfig;
pub use progress::Progress;
use std::alloc::Global;
use std::collections::BTreeMap;

/// The bits of one part.
#[derive(Clone, Copy)]
pub struct Section<'a> {
    /// The part.
    pub part: SectionPart,
    /// Where it is read from; what follows it there is not looked at.
    pub bits: Bitstream<'a>,
    /// The index of its stream.
    pub stream_index: u32,
    /// Whether the part has a header of its own.
    pub nested: bool,
}

/// Decodes sections, in their order, and undoes the transforms of the whole (ISO/IEC 18181-1, Modular: image
/// decoding). It returns whether each part with samples had a section and all samples were decoded; without
/// `allow_partial` the first is the only question. The sections must fit the image ([`sections_fit`]).
///
/// A section may have a header of its own, with transforms and a tree; `global` is the tree for headers that use a
/// global one. Such a section is read and decoded, and its own transforms are undone, at its turn; its tables, whose
/// samples count among its own, are gone afterwards.
///
/// # Memory
///
/// The list of passes, a set of the sections' parts, and at each section what a part's `decode` takes; for one with a
/// header also what reading an image takes, but for the grids of its own channels, and what `finish` takes. At last
/// what `finish` takes.
///
/// # Errors
///
/// That of the first section that has one, as a part's `decode` returns it, or, of a section's own header and tree, as
/// reading an image returns it: the sections before it are decoded, it stands as `decode` leaves it, its own transforms
/// are not undone, no later one was begun, and no transform of the whole is undone. Or it is out of memory: before a
/// section, in its header, before its transforms are undone, or before those of the whole are. Header, tree and sizes
/// of the image stay.
pub fn decode_sections<S: Sample, D: Decoder>(
    alloc: Global,
    image: &mut ModularImageDestination<S, D>,
    pass_shifts: &BTreeMap<u32, (i32, i32)>,
    sections: &[Section<'_>],
    global: Option<&MaConfig<D>>,
    allow_partial: bool,
    steps: &mut Steps,
) -> Result<bool>
    requires fit { SectionsFit image.old (passes_of pass_shifts.now.entries) sections.now }
    ensures decoded { result ≡ Ok true → AreDecoded D.meaning S.width S.to_int (S.from_int (pos 0)) image.old
        (passes_of pass_shifts.now.entries) (option_copied global.entry) sections.now (image_grids S.to_int image.new)
        steps.old steps.new }
    ensures left { IfOk result (λ whole. SectionsLeave D.meaning S.width S.to_int (S.from_int (pos 0)) image.old
        (passes_of pass_shifts.now.entries) (option_copied global.entry) allow_partial sections.now whole
        image.old.store (image_grids S.to_int image.new) steps.old steps.new) }
    ensures stopped { IfErr result (λ e. SectionsStop D.meaning S.width S.to_int (S.from_int (pos 0)) image.old
        (passes_of pass_shifts.now.entries) (option_copied global.entry) allow_partial sections.now e
        image.old.store image.new.store steps.old steps.new) }
    ensures same { SameButCells image.old image.new }
{
    decode_sections_with(
        alloc,
        image,
        pass_shifts,
        sections,
        global,
        allow_partial,
        steps,
        &mut (),
    )
}

/// Decodes sections as [`decode_sections`] does, and tells of each after it was decoded: once for each section where it
/// is Ok, and for none, some or all of them, from the first on, where it is not.
pub fn decode_sections_with<S: Sample, D: Decoder, P: Progress>(
    alloc: Global,
    image: &mut ModularImageDestination<S, D>,
    pass_shifts: &BTreeMap<u32, (i32, i32)>,
    sections: &[Section<'_>],
    global: Option<&MaConfig<D>>,
    allow_partial: bool,
    steps: &mut Steps,
    progress: &mut P,
) -> Result<bool>
    requires fit { SectionsFit image.old (passes_of pass_shifts.now.entries) sections.now }
    ensures decoded { result ≡ Ok true → AreDecoded D.meaning S.width S.to_int (S.from_int (pos 0)) image.old
        (passes_of pass_shifts.now.entries) (option_copied global.entry) sections.now (image_grids S.to_int image.new)
        steps.old steps.new }
    ensures left { IfOk result (λ whole. SectionsLeave D.meaning S.width S.to_int (S.from_int (pos 0)) image.old
        (passes_of pass_shifts.now.entries) (option_copied global.entry) allow_partial sections.now whole
        image.old.store (image_grids S.to_int image.new) steps.old steps.new) }
    ensures stopped { IfErr result (λ e. SectionsStop D.meaning S.width S.to_int (S.from_int (pos 0)) image.old
        (passes_of pass_shifts.now.entries) (option_copied global.entry) allow_partial sections.now e
        image.old.store image.new.store steps.old steps.new) }
    ensures told { OnOk result (Heard P.section_decoded_gives (length sections.now) (length sections.now) progress.old
        progress.new) }
    ensures told_some { OnErr result (HeardSome P.section_decoded_gives (length sections.now) progress.old
        progress.new) }
    ensures same { SameButCells image.old image.new }
{
    let passes = passes(alloc, pass_shifts)?;
    let complete = image.is_complete(alloc, &passes, sections)?;
    let whole = image.decode_all(
        alloc,
        &passes,
        sections,
        global,
        allow_partial,
        steps,
        progress,
    )?;
    image.undo_transforms(alloc)?;
    Ok(whole && complete)
}
