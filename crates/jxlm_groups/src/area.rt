//! The rectangles of the picture that the parts of an image cover (ISO/IEC 18181-1, frame: groups, LF groups and
//! passes).

ghost use Rattle.std.specs.Prelude.{◌≡◌, ◌++◌, ◌<◌, ℕ, IfOk, OnOk};
ghost use Rattle.jxlm_transform.specs.Params.{IsGroupDim};
ghost use Rattle.jxlm_transform.specs.Lists.{list_of};
ghost use Rattle.jxlm_groups.specs.Parts.{part_in as the_part};
ghost use Rattle.jxlm_groups.specs.Areas.{AreOfPicture, area_of, areas_of, picture_of as the_picture, square as the_square, squares};
ghost use Rattle.jxlm_groups.specs.Inner.Squares.{IsInPicture, first_groups};

use crate::complete::part_in;
use crate::cut::group_count;
use crate::part::{Kind, SectionPart};
use crate::pass::Pass;
use jxlm_base::grid::OutOfMemory;
use jxlm_transform::channels::{ModularChannelInfo, ModularChannels};
use std::alloc::Global;

/// A rectangle of the picture, in its samples before all transforms.
#[derive(Clone, Copy, Debug, PartialEq, Eq)]
pub struct Area {
    /// Its first column.
    pub x: u32,
    /// Its first row.
    pub y: u32,
    /// How many columns it has.
    pub width: u32,
    /// How many rows it has.
    pub height: u32,
}

/// A part of an image, and what it covers of the picture.
#[derive(Clone, Copy, Debug, PartialEq, Eq)]
pub struct PartArea {
    /// The part.
    pub part: SectionPart,
    /// The rectangle that it covers.
    pub area: Area,
}

/// The sides of a picture, and those of its groups.
#[derive(Clone, Copy)]
struct Squares {
    width: u32,
    height: u32,
    group_dim: u32,
}

impl Squares {
    /// Square k of those of this side that cover the picture.
    fn square(self, side: u32, k: u64) -> Area
        requires some { 0 < side }
        requires inside { k < squares self.width self.height side }
        ensures { result ≡ the_square self.width self.height side k }
    {
        let columns = u64::from(self.width.div_ceil(side));
        let x = (k % columns) as u32 * side;
        let y = (k / columns) as u32 * side;
        Area {
            x,
            y,
            width: side.min(self.width - x),
            height: side.min(self.height - y),
        }
    }

    /// The rectangle that a part covers.
    fn area(self, part: SectionPart) -> Area
        requires group_dim { IsGroupDim self.group_dim }
        requires inside { IsInPicture self.width self.height self.group_dim part }
        ensures { result ≡ area_of self.width self.height self.group_dim part }
    {
        match part {
            SectionPart::Global => Area {
                x: 0,
                y: 0,
                width: self.width,
                height: self.height,
            },
            SectionPart::Lf(k) => self.square(8 * self.group_dim, k),
            SectionPart::Pass(_, k) => self.square(self.group_dim, k),
        }
    }

    /// Adds the first groups of a kind. Out of memory is its only error.
    fn add_groups(self, list: &mut Vec<PartArea>, kind: Kind, count: u64) -> Result<(), OutOfMemory>
        requires group_dim { IsGroupDim self.group_dim }
        requires inside { (k : ℕ) → k < count
            → IsInPicture self.width self.height self.group_dim (the_part kind k) }
        ensures { OnOk result (list.new.items ≡ list.old.items
            ++ first_groups self.width self.height self.group_dim kind count) }
    {
        for k in 0..count {
            let part = part_in(kind, k);
            let area = self.area(part);
            list.push(PartArea { part, area })?;
        }
        Ok(())
    }
}

/// The sides of the picture of an image's own channels: those of the first one's, and 0 where there is none.
pub fn picture_sides(given: &[ModularChannelInfo]) -> (u32, u32)
    ensures { result ≡ the_picture given.now }
{
    match given.first() {
        Some(channel) => (channel.original_width, channel.original_height),
        None => (0, 0),
    }
}

/// All parts of an image, each with the rectangle that it covers of the picture, whose sides these are: the global part,
/// the LF groups, and then the groups of one pass after the other, each by number. A part without samples is among them.
///
/// The first `nb_meta` of the coded channels are meta channels; each channel that is cut is of the picture.
///
/// # Errors
///
/// `OutOfMemory`, and no other.
pub fn parts(
    alloc: Global,
    width: u32,
    height: u32,
    channels: &ModularChannels,
    group_dim: u32,
    passes: &[Pass],
) -> Result<Vec<PartArea>, OutOfMemory>
    requires group_dim { IsGroupDim group_dim }
    requires pictured { AreOfPicture width height group_dim (list_of channels.now) }
    ensures { IfOk result (λ parts. parts.items
        ≡ areas_of width height group_dim passes.now (list_of channels.now)) }
{
    let squares = Squares {
        width,
        height,
        group_dim,
    };
    let mut list = Vec::new(alloc);
    let part = SectionPart::Global;
    let area = squares.area(part);
    list.push(PartArea { part, area })?;
    let count = group_count(channels, group_dim, passes, Kind::Lf);
    squares.add_groups(&mut list, Kind::Lf, count)?;
    for pass in passes {
        let kind = Kind::Pass(pass.number);
        let count = group_count(channels, group_dim, passes, kind);
        squares.add_groups(&mut list, kind, count)?;
    }
    Ok(list)
}
