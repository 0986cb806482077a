//! Laws of what is encoded, and of pictures.

ghost use Rattle.jxlm_encode_roundtrip.specs.Pictures.{Encoded2IsPicture, EncodedIsPicture, PicturesAreOne};

use jxlm_bits::decoder::Decoder;
use jxlm_plain::plain::PlainDecoder;
use jxlm_plain::plain2::PlainDecoder2;
use jxlm_tree::ma::each_tree_is_read_exactly;

/// What is encoded is a picture, at any bit depth: its grids are the only ones that the header's transforms turn into
/// the samples that are coded.
pub fn encoded_is_a_picture()
    ensures { EncodedIsPicture }
{
    each_tree_is_read_exactly::<PlainDecoder>();
}

/// What is encoded in the second plain format is a picture, too.
pub fn encoded2_is_a_picture()
    ensures { Encoded2IsPicture }
{
    each_tree_is_read_exactly::<PlainDecoder2>();
}

/// At one bit position there are no two pictures of the same channels, for any decoder: they have one header, one tree,
/// the same coded samples and the same image, and end at one bit.
pub fn pictures_are_one<D: Decoder>()
    ensures { PicturesAreOne D.meaning }
{}
