//! Laws of what is encoded.

ghost use Rattle.jxlm_encode.specs.Bytes.{AreBytesOf, AreBytesOf2};
ghost use Rattle.jxlm_encode.specs.Laws.{DetermineBytes};

/// An image has one encoding in each format: no two lists of bytes meet what [`encode`](crate::encode::encode) promises
/// of its bytes for the same transforms, tree, image and width of samples, nor what `encode2` promises.
pub fn each_image_has_one_encoding()
    ensures first { DetermineBytes AreBytesOf }
    ensures second { DetermineBytes AreBytesOf2 }
{}
