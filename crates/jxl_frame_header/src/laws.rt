//! Laws of frame headers, each the contract of a function that does nothing.

ghost use Rattle.jxlm_bits.specs.Grammar.{IsExact};
ghost use Rattle.jxl_image_header.specs.Images.{Image};
ghost use Rattle.jxl_frame_header.specs.Frames.{frame_header};

/// The parser returns a frame header of an image exactly if the bits at its position code it.
pub fn frame_headers_are_read_exactly()
    ensures { (image : Image) → IsExact (frame_header image) }
{}
