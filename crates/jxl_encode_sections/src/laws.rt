//! Laws of the sections of a frame: each is the contract of a function that does nothing.

ghost use Rattle.jxl_encode_sections.specs.Laws.{SectionsAreCoding};

/// Sections that were written are what the decoder of frames reads, where they are the sections of a frame in a
/// codestream with these channels, this layout and these limits.
pub fn sections_are_coding()
    ensures { SectionsAreCoding }
{}
