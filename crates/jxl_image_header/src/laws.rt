//! Laws of headers, each the contract of a function that does nothing.

ghost use Rattle.std.specs.Prelude.{Bool};
ghost use Rattle.jxlm_bits.specs.Grammar.{IsExact};
ghost use Rattle.jxl_image_header.specs.Channels.{bit_depth, extra_channel};
ghost use Rattle.jxl_image_header.specs.Colours.{colour_encoding};
ghost use Rattle.jxl_image_header.specs.Fields.{long, extensions, name, zero_pad_to_byte};
ghost use Rattle.jxl_image_header.specs.Images.{image_header};

/// The parser returns a field of headers exactly if the bits at its position code it.
pub fn header_fields_are_read_exactly()
    ensures long { IsExact long }
    ensures extensions { IsExact extensions }
    ensures name { IsExact name }
    ensures zero_pad_to_byte { IsExact zero_pad_to_byte }
    ensures depth { IsExact bit_depth }
    ensures channel { IsExact extra_channel }
    ensures colours { (there : Bool) → IsExact (colour_encoding there) }
{}

/// The parser returns an image header exactly if the bits at its position code it.
pub fn image_headers_are_read_exactly()
    ensures { IsExact image_header }
{}
