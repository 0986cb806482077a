//! The groups of a frame that may have samples.

ghost use Rattle.std.specs.Prelude.{◌≡◌, ◌≢◌, ◌<◌, true, IfOk};
ghost use Rattle.jxl_codestream.specs.LayoutParts.{parts_of};
ghost use Rattle.jxl_codestream.specs.Layouts.{has_part, section_count_of};
ghost use Rattle.jxl_encode_sections.specs.Inner.Groups.{AreGroupsOf, AreMoreGroups};
ghost use Rattle.jxlm_groups.specs.Parts.{part_in as the_part};
ghost use Rattle.jxlm_groups.specs.Pieces.{part_channels};
ghost use Rattle.jxlm_groups.specs.declared.part.Kind.TheVariants as kinds;
ghost use Rattle.jxlm_groups.specs.declared.part.SectionPart.{SectionPart as APart};
ghost use Rattle.jxlm_groups.specs.declared.part.SectionPart.TheVariants as parts;
ghost use Rattle.jxlm_samples.specs.Part.{cell_count};
ghost use Rattle.jxlm_section_split.specs.CutPicture.{one_pass as the_pass};
ghost use Rattle.jxlm_transform.specs.Lists.{list_of};
ghost use Rattle.jxlm_transform.specs.Params.{IsGroupDim};

use jxl_codestream::layout::Layout;
use jxlm_base::grid::OutOfMemory;
use jxlm_groups::cut::group_count;
use jxlm_groups::part::{Kind, SectionPart};
use jxlm_groups::pass::Pass;
use jxlm_transform::channels::ModularChannels;
use std::alloc::Global;

/// The only pass of a frame, which has the shifts below 3.
pub(crate) fn one_pass() -> [Pass; 1]
    ensures { result ≡ the_pass }
{
    [Pass {
        number: 0,
        first_shift: 0,
        end_shift: 3,
    }]
}

/// Adds the first groups of low frequencies, as far as the frame has them.
fn push_low(groups: &mut Vec<SectionPart>, layout: &Layout, count: u64) -> Result<(), OutOfMemory>
    requires many { section_count_of (parts_of layout.now) ≢ 1 }
    ensures { IfOk result (λ _. AreMoreGroups (parts_of layout.now) kinds.Lf count groups.old.items groups.new.items) }
{
    for k in 0..count {
        let part = SectionPart::Lf(k);
        if layout.has(part) {
            groups.push(part)?;
        }
    }
    Ok(())
}

/// Adds the first groups of the only pass, as far as the frame has them.
fn push_high(groups: &mut Vec<SectionPart>, layout: &Layout, count: u64) -> Result<(), OutOfMemory>
    requires many { section_count_of (parts_of layout.now) ≢ 1 }
    ensures { IfOk result (λ _. AreMoreGroups (parts_of layout.now) (kinds.Pass 0) count groups.old.items
        groups.new.items) }
{
    for k in 0..count {
        let part = SectionPart::Pass(0, k);
        if layout.has(part) {
            groups.push(part)?;
        }
    }
    Ok(())
}

/// The groups of these channels in a frame of one pass, if it has more than one section. Each group with samples is one
/// of the frame's.
pub(crate) fn groups_of(
    alloc: Global,
    channels: &ModularChannels,
    group_dim: u32,
    layout: &Layout,
) -> Result<Vec<SectionPart>, OutOfMemory>
    requires group_dim { IsGroupDim group_dim }
    requires single { (parts_of layout.now).passes ≡ 1 }
    requires there { (part : APart) → part ≢ parts.Global
        → 0 < cell_count (part_channels group_dim the_pass (list_of channels.now) part)
        → has_part (parts_of layout.now) part ≡ true × (section_count_of (parts_of layout.now) ≢ 1) }
    ensures { IfOk result (λ v. AreGroupsOf group_dim the_pass (list_of channels.now) (parts_of layout.now) v.items) }
{
    let mut groups = Vec::new(alloc);
    if layout.section_count() == 1 {
        return Ok(groups);
    }
    let passes = one_pass();
    let low = group_count(channels, group_dim, &passes, Kind::Lf);
    push_low(&mut groups, layout, low)?;
    let high = group_count(channels, group_dim, &passes, Kind::Pass(0));
    push_high(&mut groups, layout, high)?;
    Ok(groups)
}
