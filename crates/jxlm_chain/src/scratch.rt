//! Memory for undoing transforms.

ghost use Rattle.std.specs.Prelude.{◌≡◌, ◌+◌, ◌^◌, ◌<◌, ◌≤◌, Some, max, IfOk, IfErr, vec_len};
ghost use Rattle.std.specs.List.{All};
ghost use Rattle.jxlm_bits.specs.ErrorKind.{NoMemory, kind_of};
ghost use Rattle.jxlm_chain.specs.Scratch.{HasRoomFor, IsNarrow, IsNarrowUndo};
ghost use Rattle.jxlm_chain.specs.Inner.Needs.{AreNarrow, Covers, CoversCells, larger_needs};
ghost use Rattle.jxlm_chain.specs.Undoings.{SuitsWeights, undo_of_code, undos_of};
ghost use Rattle.jxlm_weighted.specs.SelfCorrecting.{IsHeader};

use crate::undo::Undoing;
use jxlm_base::grid::{OutOfMemory, Region};
use jxlm_base::sample::Sample;
use jxlm_bits::error::Result;
use jxlm_inverse::rct::RctScratch;
use jxlm_predictor::predictor::PredictorState;
use jxlm_weighted::weights::WpHeader;
use std::alloc::Global;

/// Room for what the undoing of one transform after another needs beside the samples.
#[derive(Drop)]
pub struct Scratch<S> {
    /// Rows of three channels.
    pub(crate) rows: RctScratch<S>,
    /// Several rows twice, or several columns.
    pub(crate) line: Vec<S>,
    /// The predictions of palettes without weights.
    pub(crate) plain: PredictorState<S>,
    /// Those of palettes with the image's weights.
    pub(crate) weighted: PredictorState<S>,
    /// The regions of the channels that a palette stands for.
    pub(crate) members: Vec<Region>,
}

/// How much undoing takes of each part of a scratch.
#[derive(Clone, Copy)]
struct Needs {
    /// The columns of the three rows.
    rows: usize,
    /// The samples of the line.
    line: usize,
    /// The columns of palettes without weights.
    plain: usize,
    /// The columns of palettes with weights.
    weighted: usize,
    /// The channels that a palette stands for.
    members: usize,
}

/// What is taken where nothing is undone.
const NOTHING: Needs = Needs {
    rows: 0,
    line: 0,
    plain: 0,
    weighted: 0,
    members: 0,
};

/// What is in the list of regions until a palette is undone.
const NO_REGION: Region = Region {
    buffer: 0,
    x: 0,
    y: 0,
    width: 0,
    height: 0,
};

/// The squeezed rows that are undone at a time.
const ROWS: usize = 32;

/// The squeezed columns that are undone at a time.
const COLUMNS: usize = 256;

/// The samples of the line in which a squeeze of the region is undone: several rows twice, or several columns, with a
/// sample more each.
fn line_for(horizontal: bool, region: &Region) -> usize
    requires { IsNarrow region.now }
    ensures { max region.now.width (region.now.height + 1) ≤ result }
{
    let one = region.width.max(region.height + 1);
    if horizontal {
        return one.max(2 * (region.width + 1) * region.height.min(ROWS));
    }
    one.max((region.height + 1) * region.width.min(COLUMNS))
}

/// The larger need of each kind.
fn larger(a: Needs, b: Needs) -> Needs
    ensures { result ≡ larger_needs a b }
{
    Needs {
        rows: a.rows.max(b.rows),
        line: a.line.max(b.line),
        plain: a.plain.max(b.plain),
        weighted: a.weighted.max(b.weighted),
        members: a.members.max(b.members),
    }
}

impl Undoing {
    /// What it takes, where its regions have cells.
    fn needs_of_cells(&self) -> Needs
        requires { IsNarrowUndo (undo_of_code self.now) }
        ensures covers { CoversCells result (undo_of_code self.now) }
        ensures narrow { AreNarrow result }
    {
        match self {
            Undoing::Colour { regions, .. } => Needs {
                rows: regions[0].width,
                ..NOTHING
            },
            Undoing::Palette { palette, index, .. } => {
                let columns = index.leader().width;
                let members = index.count();
                match palette.wp_header {
                    None => Needs {
                        plain: columns,
                        members,
                        ..NOTHING
                    },
                    Some(_) => Needs {
                        weighted: columns,
                        members,
                        ..NOTHING
                    },
                }
            }
            Undoing::Squeeze { horizontal, region } => Needs {
                line: line_for(*horizontal, region),
                ..NOTHING
            },
        }
    }
}

impl Undoing {
    /// What it takes: nothing, where its regions have no cells.
    fn needs(&self) -> Needs
        requires { IsNarrowUndo (undo_of_code self.now) }
        ensures covers { Covers result (undo_of_code self.now) }
        ensures narrow { AreNarrow result }
    {
        if self.have_cells() {
            return self.needs_of_cells();
        }
        NOTHING
    }
}

/// What undoing one after another takes.
fn needs_of_all(undoings: &[Undoing]) -> Needs
    requires { All IsNarrowUndo (undos_of undoings.now) }
    ensures covers { All (Covers result) (undos_of undoings.now) }
    ensures narrow { AreNarrow result }
{
    let mut needs = NOTHING;
    for undoing in undoings {
        needs = larger(needs, undoing.needs());
    }
    needs
}

/// A buffer of n samples.
fn line<S: Sample>(alloc: Global, n: usize) -> std::result::Result<Vec<S>, OutOfMemory>
    ensures { IfOk result (λ v. vec_len v ≡ n) }
{
    Ok(vec![in alloc; S::default(); n]?)
}

/// A list of n regions.
fn regions(alloc: Global, n: usize) -> std::result::Result<Vec<Region>, OutOfMemory>
    ensures { IfOk result (λ v. vec_len v ≡ n) }
{
    Ok(vec![in alloc; NO_REGION; n]?)
}

impl<S: Sample> Scratch<S> {
    /// Room for each of these undoings, with the image's weights, which are those of a header that was read: as much
    /// of each kind as the undoing that takes most of it. No side of a palette's indices or of a squeezed region is
    /// above 2^30, and each palette has the image's weights or none.
    ///
    /// # Errors
    ///
    /// `Buffer` if it is out of memory, and no other.
    pub fn new(alloc: Global, undoings: &[Undoing], weights: &WpHeader) -> Result<Scratch<S>>
        requires narrow { All IsNarrowUndo (undos_of undoings.now) }
        requires suits { All (SuitsWeights (Some weights.now)) (undos_of undoings.now) }
        requires weights { IsHeader weights.now }
        ensures room { IfOk result (λ s. HasRoomFor (undos_of undoings.now) s) }
        ensures err { IfErr result (λ e. kind_of e ≡ NoMemory) }
    {
        let needs = needs_of_all(undoings);
        Ok(Scratch {
            rows: RctScratch::new(alloc, needs.rows)?,
            line: line(alloc, needs.line)?,
            plain: PredictorState::with_room(alloc, needs.plain as u32, 0, None)?,
            weighted: PredictorState::with_room(alloc, needs.weighted as u32, 0, Some(weights))?,
            members: regions(alloc, needs.members)?,
        })
    }
}
