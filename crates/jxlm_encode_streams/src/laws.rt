//! Laws of images in streams: each is the contract of a function that does nothing.

ghost use Rattle.jxlm_encode_streams.specs.Images.{ReadImageIsEncoded};
ghost use Rattle.jxlm_encode_streams.specs.Streams.{ReadStreamIsCoded};
ghost use Rattle.jxlm_encode_streams.specs.TreeStreams.{ReadTreeStands};

use jxlm_bits::decoder::Decoder;

/// Samples are coded if a decoder begins, reads their tokens one after another from the clusters of their leaves, and
/// accepts the end.
#[tactic(auto, using(crate::proofs::ReadStreams::read_streams_coded))]
pub fn read_streams_are_coded<D: Decoder>()
    ensures { ReadStreamIsCoded D.meaning }
{}

/// A decoder that reads the tokens of a tree's nodes one after another reads the tree, and then the decoder of its
/// leaves.
pub fn read_trees_stand<D: Decoder>()
    ensures { ReadTreeStands D.meaning }
{}

/// An image is encoded if its header is there, decoders read the tokens of its tree and of its samples as streams,
/// and the decoder of the samples comes after the tree.
pub fn read_images_are_encoded<D: Decoder>()
    ensures { ReadImageIsEncoded D.meaning }
{}
