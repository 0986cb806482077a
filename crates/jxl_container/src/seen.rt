//! What the boxes before a place have of a codestream, and which boxes may follow.

use crate::boxes::FileBox;

/// What boxes have of a codestream.
#[derive(Clone, Copy)]
pub struct Seen {
    /// There are none.
    pub first: bool,
    /// The box of the whole codestream.
    pub whole: Option<FileBox>,
    /// How many parts there are.
    pub parts: u32,
    /// Whether the last part is among them.
    pub last: bool,
}
