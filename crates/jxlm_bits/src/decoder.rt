//! What an entropy decoder is.

ghost use Rattle.std.specs.Prelude.{◌≡◌, ◌<◌, ℕ, true, length, slice_index, IfOk, IfErr, Contains, IsTrue, ◌↔◌};
ghost use Rattle.jxlm_bits.specs.Bits.{bytes_of, position_of};
ghost use Rattle.jxlm_bits.specs.declared.decoder.DecoderError.TheVariants.{UnexpectedEof, OutOfMemory};
ghost use Rattle.jxlm_bits.specs.Decoding.{Meaning, IsLawful, Keeps, Gives, BeginGives, ReadGives, RunGives, RunIsReads, TokensGive};

use crate::bits::Bitstream;
use std::alloc::{AllocError, AllocFailed, Global};

/// Why a decoder returns no value.
#[derive(Clone, Copy, Debug, PartialEq, Eq, thiserror::Error)]
pub enum DecoderError {
    /// The input ends before the token does.
    #[error("unexpected end of input")]
    UnexpectedEof,
    /// What was read has no meaning; the number says why.
    #[error("invalid code {0}")]
    Invalid(u32),
    /// Out of memory.
    #[error("out of memory")]
    OutOfMemory,
}

impl DecoderError {
    /// Whether the input ended too early: true for `UnexpectedEof` alone.
    pub fn unexpected_eof(&self) -> bool
        ensures { IsTrue result ↔ self.now ≡ UnexpectedEof }
    {
        matches!(self, DecoderError::UnexpectedEof)
    }
}

impl From<AllocError> for DecoderError {
    ghost from_gives = { λ _ e. e ≡ OutOfMemory };

    fn from(_: AllocError) -> DecoderError {
        DecoderError::OutOfMemory
    }
}

impl<T: Drop> From<AllocFailed<T>> for DecoderError {
    ghost from_gives = { λ _ e. e ≡ OutOfMemory };

    fn from(_: AllocFailed<T>) -> DecoderError {
        DecoderError::OutOfMemory
    }
}

/// What a read of runs returns.
#[derive(Clone, Copy, Debug, PartialEq, Eq)]
pub enum RleToken {
    /// This token, once.
    Value(u32),
    /// The token before (0 if there is none), n times; n is at least 1.
    Repeat(u32),
}

/// Where a read of several tokens ended before the last, and why.
#[derive(Clone, Copy, Debug, PartialEq, Eq)]
pub struct TokensError {
    /// How many tokens were read before.
    pub read: usize,
    /// What the read of the next one returned.
    pub error: DecoderError,
}

/// An entropy decoder: the tokens of an image, read from its bits.
///
/// Tokens belong to contexts, and contexts that share a code form a cluster. A decoder is parsed once; its tokens are
/// read between `begin` and `finalize`, as often as there are streams of them. All that the results of its calls
/// depend on is its state, which contracts see as one value (`impl Model`); `meaning` says what each call returns
/// from it, and `lawful` that these results fit together.
pub trait Decoder: Sized + Drop {
    /// What the calls return, as functions of the state, the input's bytes and a bit position in it.
    ghost meaning: { Meaning Self };

    /// Reads a decoder for `contexts` contexts.
    ///
    /// Memory aside, the result and the position after it depend on the input, the reader's position and `contexts`
    /// alone. The decoder has one cluster for each context.
    ///
    /// # Errors
    ///
    /// Any error may come; after one the reader's position is this decoder's own matter. Out of memory is
    /// `OutOfMemory`.
    fn parse(alloc: Global, bits: &mut Bitstream<'_>, contexts: u32) -> Result<Self, DecoderError>
        ensures gives { Gives (λ d. d) result (position_of bits.new)
            (meaning.parse (bytes_of bits.old) (position_of bits.old) contexts) }
        ensures bytes { bytes_of bits.new ≡ bytes_of bits.old };

    /// The same decoder once more, in the same state.
    ///
    /// Out of memory is `OutOfMemory`, and `self` is then as it was.
    fn try_clone(&self, alloc: Global) -> Result<Self, DecoderError>
        ensures ok { IfOk result (λ d. d ≡ self.now) }
        ensures err { IfErr result (λ e. e ≡ OutOfMemory) };

    /// Begins a stream of tokens at the reader's position.
    ///
    /// It may read bits, and it depends on the decoder, the input and the position alone. Afterwards no run is open
    /// and there is no token before; clusters, single tokens and `as_rle` are as they were. An error, which is never
    /// `OutOfMemory`, leaves the reader's position, and of the decoder what `parse` settled.
    fn begin(&mut self, bits: &mut Bitstream<'_>) -> Result<(), DecoderError>
        ensures gives { BeginGives result self.old self.new (position_of bits.old) (position_of bits.new)
            (meaning.begin self.old (bytes_of bits.old) (position_of bits.old)) }
        ensures keeps { Keeps meaning self.old self.new }
        ensures bytes { bytes_of bits.new ≡ bytes_of bits.old };

    /// Reads a token of a context: the read of its cluster, with multiplier 0.
    ///
    /// The context is below the number that `parse` was asked for. Errors are those of the read, and leave decoder
    /// and reader as they were.
    fn read_varint(&mut self, bits: &mut Bitstream<'_>, context: u32) -> Result<u32, DecoderError>
        requires { context < length (meaning.cluster_map self.old) }
        ensures gives { ReadGives result self.old self.new (position_of bits.old) (position_of bits.new)
            (meaning.read self.old (bytes_of bits.old) (position_of bits.old)
            (slice_index (meaning.cluster_map self.old) context) 0) }
        ensures bytes { bytes_of bits.new ≡ bytes_of bits.old }
    {
        let cluster = self.cluster_map()[context as usize];
        self.read_varint_with_multiplier_clustered(bits, cluster, 0)
    }

    /// Reads a token of a cluster.
    ///
    /// The cluster is one of `cluster_map`. The multiplier is for decoders that copy earlier tokens by distances: it
    /// is the width of the picture that the tokens belong to, or 0. Token, new state and new position depend on the
    /// state, the input, the position, the cluster and the multiplier alone. An error, which is never `OutOfMemory`,
    /// leaves decoder and reader as they were.
    fn read_varint_with_multiplier_clustered(
        &mut self,
        bits: &mut Bitstream<'_>,
        cluster: u8,
        multiplier: u32,
    ) -> Result<u32, DecoderError>
        requires { Contains (meaning.cluster_map self.old) cluster }
        ensures gives { ReadGives result self.old self.new (position_of bits.old) (position_of bits.new)
            (meaning.read self.old (bytes_of bits.old) (position_of bits.old) cluster multiplier) }
        ensures bytes { bytes_of bits.new ≡ bytes_of bits.old };

    /// Reads tokens of a cluster, as many as the slice holds: each is what
    /// `read_varint_with_multiplier_clustered` returns where the one before left decoder and reader.
    ///
    /// The cluster is one of `cluster_map`. A decoder that looks up once what all tokens of a cluster have in common has
    /// a body of its own.
    ///
    /// # Errors
    ///
    /// That of the first read that returns one, with the number of tokens before it. These are in the slice then, and
    /// the rest of it is as it was; decoder and reader are where that read left them, which is after these tokens.
    fn read_varints_with_multiplier_clustered(
        &mut self,
        bits: &mut Bitstream<'_>,
        cluster: u8,
        multiplier: u32,
        tokens: &mut [u32],
    ) -> Result<(), TokensError>
        requires { Contains (meaning.cluster_map self.old) cluster }
        ensures gives { TokensGive result tokens.old tokens.new self.old self.new (position_of bits.old)
            (position_of bits.new) (λ s p. meaning.read s (bytes_of bits.old) p cluster multiplier) }
        ensures bytes { bytes_of bits.new ≡ bytes_of bits.old }
    {
        for k in 0..tokens.len() {
            match self.read_varint_with_multiplier_clustered(bits, cluster, multiplier) {
                Ok(token) => tokens[k] = token,
                Err(error) => return Err(TokensError { read: k, error }),
            }
        }
        Ok(())
    }

    /// Reads a token of a cluster, or a whole run, where `as_rle` is true and no run is open.
    ///
    /// The cluster is one of `cluster_map`. `Value(v)` is the read of the token v, under any multiplier. `Repeat(n)`,
    /// n at least 1, stands for n reads, the first of this cluster, the others of any clusters, under any
    /// multipliers: each gives the token before (0 if there is none), and only the first moves the reader. Either
    /// leaves no run open. An error is that of the read, and leaves decoder and reader as they were.
    fn read_varint_clustered(
        &mut self,
        bits: &mut Bitstream<'_>,
        cluster: u8,
    ) -> Result<RleToken, DecoderError>
        requires cluster { Contains (meaning.cluster_map self.old) cluster }
        requires rle { meaning.as_rle self.old ≡ true }
        requires between { meaning.owed self.old ≡ 0 }
        ensures gives { (m : ℕ) → RunGives meaning result self.old self.new (position_of bits.old)
            (position_of bits.new) (meaning.read self.old (bytes_of bits.old) (position_of bits.old) cluster m) }
        ensures bytes { bytes_of bits.new ≡ bytes_of bits.old };

    /// The only token of a cluster, if it has one: then each read of the cluster gives it, and changes nothing.
    ///
    /// The cluster is one of `cluster_map`. Where `as_rle` is true no cluster has one.
    fn single_token(&self, cluster: u8) -> Option<u32>
        requires { Contains (meaning.cluster_map self.now) cluster }
        ensures { result ≡ meaning.single_token self.now cluster };

    /// The cluster of each context that `parse` was asked for.
    fn cluster_map(&self) -> &[u8]
        ensures { result.now ≡ meaning.cluster_map self.now };

    /// Whether tokens may come in runs, so that `read_varint_clustered` may be called.
    fn as_rle(&self) -> bool
        ensures { result ≡ meaning.as_rle self.now };

    /// Ends a stream of tokens: an error, which is never `OutOfMemory`, says that the tokens cannot be those that
    /// were meant.
    ///
    /// Where `as_rle` is true the result is `Ok`.
    fn finalize(&self) -> Result<(), DecoderError>
        ensures { result ≡ meaning.finalize self.now };

    /// The laws that tie these results together.
    ghost lawful: { IsLawful meaning };
}

/// A run stands for as many reads, of every decoder.
///
/// The call does nothing; what it ensures is a law that follows from those of the trait.
pub fn run_is_reads<D: Decoder>()
    ensures { RunIsReads D.meaning }
{}
