//! Laws of what is written into the sections of a frame: each is the contract of a function that does nothing.

ghost use Rattle.jxl_encode_frame.specs.Laws.{CodingIsFrame, CodingIsPicture, GroupsAreInLayout};
ghost use Rattle.jxl_encode_frame.specs.Laws.{OneSectionIsAll, SectionsAreStill};

use jxlm_base::sample::Sample;
use jxlm_bits::decoder::Decoder;

/// Where one section has all samples of an image, no group needs a section, whatever decoder reads them.
pub fn one_section_is_all<D: Decoder>()
    ensures { OneSectionIsAll D.meaning }
{}

/// Sections that an encoder wrote of an image are a frame with this image, by the definition that the decoder of frames
/// promises, whatever decoder reads the samples and whichever of the two widths they have.
pub fn sections_are_still<S: Sample, D: Decoder>()
    ensures { SectionsAreStill D.meaning S.width }
{}

/// Sections that begin with the tree that they share are the frame of the image, by the definition that the decoder of files
/// promises, whatever decoder reads them.
pub fn coding_is_frame<D: Decoder>()
    ensures { CodingIsFrame D.meaning }
{}

/// A file whose headers and tables describe one frame, with such sections, has the picture of its channels, by the
/// definition that `decode_lossless` promises.
pub fn coding_is_picture()
    ensures { CodingIsPicture }
{}

/// In a frame of one pass, each part with samples is one of its parts by its layout, which gives it a section and a stream.
pub fn groups_are_in_layout()
    ensures { GroupsAreInLayout }
{}
