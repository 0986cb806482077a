//! The parts of an image (ISO/IEC 18181-1, frame: groups, LF groups and passes).

/// A part of an image.
#[derive(Clone, Copy, Debug, PartialEq, Eq, PartialOrd, Ord)]
pub enum SectionPart {
    /// The global part: the channels that are not cut.
    Global,
    /// An LF group, by its number.
    Lf(u64),
    /// A group of a pass: the pass's number, and the group's.
    Pass(u32, u64),
}

/// Which parts hold a channel.
#[derive(Clone, Copy, Debug, PartialEq, Eq)]
pub enum Kind {
    /// The global part holds all of it.
    Global,
    /// It is cut into LF groups.
    Lf,
    /// It is cut into the groups of the pass of this number.
    Pass(u32),
}
