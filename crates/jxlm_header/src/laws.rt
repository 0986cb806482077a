//! A law of what comes before an image's tree.

ghost use Rattle.jxlm_header.specs.Opening.{OpeningIsExact};

/// The parser returns what precedes an image's tree exactly if the bits at its position code it.
pub fn each_opening_is_read_exactly()
    ensures { OpeningIsExact }
{}
