//! The groups of a frame, and which section and which stream holds which part.

ghost use Rattle.std.specs.Prelude.{◌≡◌, ◌+◌, ◌-◌, ◌/◌, ◌<◌, ◌≤◌, ◌^◌, nat_le, true};
ghost use Rattle.std.specs.Option.{option_map};
ghost use Rattle.jxl_codestream.specs.Layouts.{groups_of as the_groups_of, has_part, section_number, stream_index, section_count_of, layout_of, layout_if, IsLayout, max_sections};

use jxl_image_header::size::Size;
use jxlm_groups::part::SectionPart;

/// What a frame is cut into: groups, groups of low frequencies, which are 8 times as wide and as high, and passes.
///
/// Its sections are: one that holds all, where there is one group and one pass; else the global part, the groups of low
/// frequencies, a part of high frequencies that Modular does not use, and the groups of each pass, in this order.
#[derive(Clone, Copy)]
pub struct Layout {
    groups: u32,
    lf_groups: u32,
    passes: u32,
    ghost bounded: { IsLayout (record { groups = groups; lf_groups = lf_groups; passes = passes }) },
}

const MAX_SECTIONS: u64 = 1 << 24;

fn along(side: u32, dim: u64) -> u64
    requires some { 0 < dim }
    requires most { dim ≤ 2 ^ 35 }
    ensures count { result ≡ (side + dim - 1) / dim }
    ensures most { result ≤ side }
{
    (u64::from(side) + dim - 1) / dim
}

fn groups_of(size: Size, dim: u64) -> u64
    requires some { 0 < dim }
    requires most { dim ≤ 2 ^ 35 }
    ensures { result ≡ the_groups_of size dim }
{
    along(size.width, dim) * along(size.height, dim)
}

// Whether there are few enough sections.
fn is_few(groups: u64, lf_groups: u64, passes: u32) -> bool
    requires lf { lf_groups ≤ groups }
    requires passes { 0 < passes }
    ensures { result ≡ nat_le (section_count_of (record { groups = groups; lf_groups = lf_groups; passes = passes }))
        max_sections }
{
    if groups > MAX_SECTIONS {
        return false;
    }
    if groups == 1 && passes == 1 {
        return true;
    }
    2 + lf_groups + u64::from(passes) * groups <= MAX_SECTIONS
}

impl Layout {
    ghost use Rattle.jxl_codestream.specs.LayoutParts.{parts_of};

    /// What a frame of this size is cut into, by the side of its groups and the number of its passes; none exactly
    /// where there would be more than 16,777,216 sections.
    pub fn new(size: Size, group_dim: u32, passes: u32) -> Option<Layout>
        requires dim { 0 < group_dim }
        requires passes { 0 < passes }
        ensures { option_map parts_of result ≡ layout_if (layout_of size group_dim passes) }
    {
        let groups = groups_of(size, u64::from(group_dim));
        let lf_groups = groups_of(size, 8 * u64::from(group_dim));
        if is_few(groups, lf_groups, passes) {
            Some(Layout {
                groups: groups as u32,
                lf_groups: lf_groups as u32,
                passes,
            })
        } else {
            None
        }
    }

    /// How many sections there are, at most 16,777,216.
    pub fn section_count(&self) -> u32
        ensures count { result ≡ section_count_of (parts_of self.now) }
        ensures most { result ≤ 2 ^ 24 }
    {
        if self.groups == 1 && self.passes == 1 {
            1
        } else {
            2 + self.lf_groups + self.passes * self.groups
        }
    }

    /// Whether the frame has this part.
    pub fn has(&self, part: SectionPart) -> bool
        ensures { result ≡ has_part (parts_of self.now) part }
    {
        match part {
            SectionPart::Global => true,
            SectionPart::Lf(group) => group < u64::from(self.lf_groups),
            SectionPart::Pass(pass, group) => pass < self.passes && group < u64::from(self.groups),
        }
    }

    /// The number of the section of a part that the frame has, where there is more than one section.
    pub fn section(&self, part: SectionPart) -> u32
        requires { has_part (parts_of self.now) part ≡ true }
        ensures { result ≡ section_number (parts_of self.now) part }
    {
        match part {
            SectionPart::Global => 0,
            SectionPart::Lf(group) => 1 + group as u32,
            SectionPart::Pass(pass, group) => {
                2 + self.lf_groups + pass * self.groups + group as u32
            }
        }
    }

    /// The stream index of the samples of a part that the frame has.
    pub fn stream(&self, part: SectionPart) -> u32
        requires { has_part (parts_of self.now) part ≡ true }
        ensures { result ≡ stream_index (parts_of self.now) part }
    {
        match part {
            SectionPart::Global => 0,
            SectionPart::Lf(group) => 1 + self.lf_groups + group as u32,
            SectionPart::Pass(pass, group) => {
                18 + 3 * self.lf_groups + pass * self.groups + group as u32
            }
        }
    }
}
