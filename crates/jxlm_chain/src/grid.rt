//! Where the samples of a channel lie, and of those that it stands for.

ghost use Rattle.std.specs.Prelude.{◌≡◌, ◌≤◌, length, map, take};
ghost use Rattle.jxlm_chain.specs.Grids.{leader_of};

use jxlm_base::grid::{OutOfMemory, Region};
use std::alloc::Global;

/// Where the samples of a channel lie. The channel of a palette's indices stands for others, which come back where
/// the palette is undone.
#[derive(Drop)]
pub enum TransformedGrid {
    /// A channel that stands for itself, or for one that lies where it lies.
    Single(Region),
    /// A channel that stands for others.
    Merged {
        /// Where it lies: where the first of them lies.
        leader: Region,
        /// The channels that it stands for, some of which may stand for others in turn.
        members: Vec<TransformedGrid>,
    },
}

impl From<Region> for TransformedGrid {
    ghost use Rattle.std.specs.Prelude.{◌≡◌};
    ghost use Rattle.jxlm_chain.specs.declared.grid.TransformedGrid.{Single};

    /// A channel that stands for itself.
    fn from(region: Region) -> TransformedGrid
        ensures { result ≡ Single region }
    {
        TransformedGrid::Single(region)
    }
}

impl TransformedGrid {
    ghost use Rattle.std.specs.Prelude.{◌≡◌, ◌≤◌, IfOk, length, take};
    ghost use Rattle.jxlm_chain.specs.Grids.{leader_of, listing_of, members_of};

    /// Where the channel lies.
    pub fn leader(&self) -> Region
        ensures { result ≡ leader_of self.now }
    {
        match self {
            TransformedGrid::Single(own) => *own,
            TransformedGrid::Merged { leader, .. } => *leader,
        }
    }

    /// Whether it stands for itself.
    pub(crate) fn is_single(&self) -> bool {
        matches!(self, TransformedGrid::Single(_))
    }

    /// How many channels it stands for.
    pub(crate) fn count(&self) -> usize
        ensures { result ≡ length (members_of self.now) }
    {
        match self {
            TransformedGrid::Single(_) => 1,
            TransformedGrid::Merged { members, .. } => members.len(),
        }
    }

    /// The same channel.
    ///
    /// # Errors
    ///
    /// `OutOfMemory`, and no other.
    pub fn try_clone(&self, alloc: Global) -> Result<TransformedGrid, OutOfMemory>
        ensures leader { IfOk result (λ g. leader_of g ≡ leader_of self.now) }
        ensures members { IfOk result (λ g. members_of g ≡ members_of self.now) }
        ensures whole { IfOk result (λ g. listing_of g ≡ listing_of self.now) }
    {
        match self {
            TransformedGrid::Single(own) => Ok(TransformedGrid::Single(*own)),
            TransformedGrid::Merged { leader, members } => {
                let mut copies = Vec::new(alloc);
                for member in members {
                    copies.push(member.try_clone(alloc)?)?;
                }
                Ok(TransformedGrid::Merged {
                    leader: *leader,
                    members: copies,
                })
            }
        }
    }
}

/// Writes where these channels lie.
fn write_leaders(grids: &[TransformedGrid], regions: &mut [Region])
    requires { length grids.now ≤ length regions.old }
    ensures len { length regions.new ≡ length regions.old }
    ensures regions { take (length grids.now) regions.new ≡ map leader_of grids.now }
{
    for (i, grid) in grids.iter().enumerate() {
        regions[i] = grid.leader();
    }
}

impl TransformedGrid {
    ghost use Rattle.std.specs.Prelude.{◌≡◌, ◌≤◌, length, take};
    ghost use Rattle.jxlm_chain.specs.Grids.{members_of};

    /// Writes where the channels lie that it stands for.
    pub(crate) fn write_members(&self, regions: &mut [Region])
        requires { length (members_of self.now) ≤ length regions.old }
        ensures len { length regions.new ≡ length regions.old }
        ensures regions { take (length (members_of self.now)) regions.new ≡ members_of self.now }
    {
        match self {
            TransformedGrid::Single(own) => regions[0] = *own,
            TransformedGrid::Merged { members, .. } => write_leaders(members, regions),
        }
    }
}
