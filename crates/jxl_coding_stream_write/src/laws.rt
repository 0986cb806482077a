//! Laws of streams: each is the contract of a function that does nothing.

ghost use Rattle.jxl_coding_stream_write.specs.Streams.{StreamsAreRead};

/// A decoder of its codes, in any state, reads a written stream.
#[tactic(auto, using(crate::proofs::StreamReads::streams_read))]
pub fn streams_are_read()
    ensures { StreamsAreRead }
{}
