//! A lossless encoder (ISO/IEC 18181-1, Modular), whose tokens are those of the plain decoders.

ghost use Rattle.std.specs.Prelude.{◌≡◌, ◌≢◌, ℕ, ◌<◌, ◌≤◌, ◌^◌, [], IfOk, IfErr, IsOk, length, map};
ghost use Rattle.std.specs.List.{All};
ghost use Rattle.jxlm_transform.specs.Channels.{regions};
ghost use Rattle.jxlm_base.specs.Grid.{IsFull};
ghost use Rattle.jxlm_base.specs.Regions.{grids_in, store_meanings};
ghost use Rattle.jxlm_chain.specs.Shape.{SameShape};
ghost use Rattle.jxlm_chain.specs.Steps.{CanUndoAll};
ghost use Rattle.jxlm_chain.specs.Undo.{UndoesAll};
ghost use Rattle.jxlm_chain.specs.Undoings.{undos_of};
ghost use Rattle.jxlm_tree.specs.Tree.{AllLeaves};
ghost use Rattle.jxlm_samples.specs.Part.{cells_of};
ghost use Rattle.jxlm_transform.specs.Transforms.{IsTransform};
ghost use Rattle.jxlm_encode_write.specs.Headers.{transform_of};
ghost use Rattle.jxlm_encode_write.specs.Nodes.{tree_tokens};
ghost use Rattle.jxlm_encode.specs.Bytes.{AreBytesOf, AreBytesOf2, AreWritten, AreWritten2};
ghost use Rattle.jxlm_encode.specs.Encoded.{EncodeFails, IsEncoded, IsEncoded2, IsSmall};
ghost use Rattle.jxlm_encode.specs.Listing.{ListsOneTree};
ghost use Rattle.jxlm_encode.specs.Inner.Writing.{ChannelsLie, part_at};
ghost use Rattle.jxlm_encode.specs.Prepared.{ArePrepared};
ghost use Rattle.jxlm_encode_transform.specs.Redo.{UndoesNoPalette};
ghost use Rattle.jxlm_encode_tokens.specs.Tokens.{AreTokensOf};

pub use crate::error::EncodeError;
use crate::listing::{tree_of, write_gamma_tree, write_tree};
use crate::placing::{infos_of, placed_by};
use jxlm_base::grid::{AlignedGrid, OutOfMemory};
use jxlm_base::sample::Sample;
use jxlm_bit_writer::writer::BitWriter;
use jxlm_chain::placed::PlacedChannels;
use jxlm_chain::undo::Undoing;
use jxlm_encode_tokens::part::sample_tokens;
pub use jxlm_encode_tokens::token::token_of;
use jxlm_encode_transform::redo::redo_all;
use jxlm_encode_write::header::write_header;
pub use jxlm_encode_write::header::{EncodeTransform, SqueezeStep};
use jxlm_encode_write::plain::{width_of, write_gamma_tokens, write_tokens};
pub use jxlm_encode_write::tree::EncodeNode;
use jxlm_plain::plain::PlainDecoder;
use jxlm_samples::part::PlacedPart;
use jxlm_tree::ma::MaConfig;
use jxlm_weighted::weights::WpHeader;
use std::alloc::{AllocError, Global};

/// The same grids, in their order.
fn cloned<S: Sample>(
    alloc: Global,
    grids: &[AlignedGrid<S>],
) -> Result<Vec<AlignedGrid<S>>, OutOfMemory>
    ensures { IfOk result (λ v. v.items ≡ grids.now) }
{
    let mut clones = Vec::new(alloc);
    for grid in grids {
        clones.push(grid.try_clone(alloc)?)?;
    }
    Ok(clones)
}

/// The samples as they are coded: what these undo, run on copies of the grids.
fn coded_store<S: Sample>(
    alloc: Global,
    undoings: &[Undoing],
    grids: &[AlignedGrid<S>],
) -> Result<Vec<AlignedGrid<S>>, OutOfMemory>
    requires can { CanUndoAll grids.now (undos_of undoings.now) }
    requires no_palettes { All UndoesNoPalette (undos_of undoings.now) }
    requires full { All IsFull grids.now }
    ensures redone { IfOk result (λ v. (depth : ℕ) → UndoesAll S.to_int S.width depth (undos_of undoings.now) v.items
        grids.now) }
    ensures shape { IfOk result (λ v. SameShape grids.now v.items) }
{
    let mut store = cloned(alloc, grids)?;
    redo_all(alloc, undoings, &mut store)?;
    Ok(store)
}

/// The tokens of all samples of the coded channels.
fn tokens_in<S: Sample>(
    alloc: Global,
    placed: &PlacedChannels,
    config: &MaConfig<PlainDecoder>,
    store: &[AlignedGrid<S>],
) -> Result<Vec<u32>, OutOfMemory>
    requires lie { ChannelsLie placed.now store.now }
    requires multipliers { AllLeaves (λ l. l.multiplier ≡ 1) config.now.tree }
    ensures { IfOk result (λ v. AreTokensOf S.width (part_at placed.now config.now.tree)
        (cells_of (grids_in (regions placed.now.channels.placed.items) (store_meanings S.to_int store.now))) v.items) }
{
    let part = PlacedPart {
        channels: &placed.channels.placed,
        config,
        weights: WpHeader::default(),
        stream_index: 0,
    };
    sample_tokens(alloc, &part, store)
}

/// Header, tree and samples, by the tokens of both.
fn written(
    alloc: Global,
    transforms: &[EncodeTransform],
    tree: &[EncodeNode],
    nodes: &[u32],
    tokens: &[u32],
) -> Result<Vec<u8>, AllocError>
    requires few { length transforms.now ≤ 273 }
    requires each { All (λ t. IsTransform (transform_of t)) transforms.now }
    requires lists { ListsOneTree tree.now }
    requires nodes { nodes.now ≡ tree_tokens tree.now }
    ensures { IfOk result (λ v. AreWritten (map transform_of transforms.now) tree.now tokens.now v.items) }
{
    let width = width_of(tokens);
    let mut bits = BitWriter::new(alloc);
    write_header(&mut bits, transforms)?;
    write_tree(&mut bits, tree, nodes, width_of(nodes), width)?;
    write_tokens(&mut bits, tokens, width)?;
    bits.into_bytes()
}

/// The same in the second format, as gamma codes.
fn written2(
    alloc: Global,
    transforms: &[EncodeTransform],
    tree: &[EncodeNode],
    nodes: &[u32],
    tokens: &[u32],
) -> Result<Vec<u8>, AllocError>
    requires few { length transforms.now ≤ 273 }
    requires each { All (λ t. IsTransform (transform_of t)) transforms.now }
    requires lists { ListsOneTree tree.now }
    requires nodes { nodes.now ≡ tree_tokens tree.now }
    ensures { IfOk result (λ v. AreWritten2 (map transform_of transforms.now) tree.now tokens.now v.items) }
{
    let mut bits = BitWriter::new(alloc);
    write_header(&mut bits, transforms)?;
    write_gamma_tree(&mut bits, tree, nodes)?;
    write_gamma_tokens(&mut bits, tokens)?;
    bits.into_bytes()
}

/// The tokens that are written after a header.
#[derive(Drop)]
struct TokenLists {
    /// Those of the tree's nodes.
    nodes: Vec<u32>,
    /// Those of the samples.
    samples: Vec<u32>,
}

/// The tokens of an image that has channels, and of the tree.
fn prepared<S: Sample>(
    alloc: Global,
    channels: &[AlignedGrid<S>],
    transforms: &[EncodeTransform],
    tree: &[EncodeNode],
) -> Result<TokenLists, EncodeError>
    requires sides { All IsSmall channels.now }
    ensures few { IfOk result (λ _. length transforms.now ≤ 273) }
    ensures each { IfOk result (λ _. All (λ t. IsTransform (transform_of t)) transforms.now) }
    ensures lists { IfOk result (λ _. ListsOneTree tree.now) }
    ensures nodes { IfOk result (λ p. p.nodes.items ≡ tree_tokens tree.now) }
    ensures ok { IfOk result (λ p. ArePrepared (map transform_of transforms.now) tree.now
        (store_meanings S.to_int channels.now) S.width p.samples.items) }
    ensures err { IfErr result (λ e. EncodeFails (map transform_of transforms.now) tree.now
        (store_meanings S.to_int channels.now) e) }
{
    let infos = infos_of(alloc, channels)?;
    let placed = placed_by(alloc, &infos, transforms)?;
    let (nodes, config) = tree_of(alloc, &placed.channels.placed, tree)?;
    let store = coded_store(alloc, &placed.undoings, channels)?;
    let samples = tokens_in(alloc, &placed, &config, &store)?;
    Ok(TokenLists { nodes, samples })
}

/// These are numbers of 32 bits.
fn fit_32_bits(tokens: &[u32])
    ensures { All (λ t. t < 2 ^ 32) tokens.now }
{}

/// The bytes of an image that has channels.
fn encoded<S: Sample>(
    alloc: Global,
    channels: &[AlignedGrid<S>],
    transforms: &[EncodeTransform],
    tree: &[EncodeNode],
) -> Result<Vec<u8>, EncodeError>
    requires sides { All IsSmall channels.now }
    ensures ok { IfOk result (λ v. IsEncoded (map transform_of transforms.now) tree.now
        (store_meanings S.to_int channels.now) S.width v.items) }
    ensures bytes { IfOk result (λ v. AreBytesOf (map transform_of transforms.now) tree.now
        (store_meanings S.to_int channels.now) S.width v.items) }
    ensures err { IfErr result (λ e. EncodeFails (map transform_of transforms.now) tree.now
        (store_meanings S.to_int channels.now) e) }
{
    let TokenLists { nodes, samples } = prepared(alloc, channels, transforms, tree)?;
    fit_32_bits(&nodes);
    fit_32_bits(&samples);
    Ok(written(alloc, transforms, tree, &nodes, &samples)?)
}

/// The same in the second format.
fn encoded2<S: Sample>(
    alloc: Global,
    channels: &[AlignedGrid<S>],
    transforms: &[EncodeTransform],
    tree: &[EncodeNode],
) -> Result<Vec<u8>, EncodeError>
    requires sides { All IsSmall channels.now }
    ensures ok { IfOk result (λ v. IsEncoded2 (map transform_of transforms.now) tree.now
        (store_meanings S.to_int channels.now) S.width v.items) }
    ensures bytes { IfOk result (λ v. AreBytesOf2 (map transform_of transforms.now) tree.now
        (store_meanings S.to_int channels.now) S.width v.items) }
    ensures err { IfErr result (λ e. EncodeFails (map transform_of transforms.now) tree.now
        (store_meanings S.to_int channels.now) e) }
{
    let TokenLists { nodes, samples } = prepared(alloc, channels, transforms, tree)?;
    fit_32_bits(&nodes);
    fit_32_bits(&samples);
    Ok(written2(alloc, transforms, tree, &nodes, &samples)?)
}

/// Encodes an image without loss, for the plain decoder (ISO/IEC 18181-1, Modular): a header with these transforms,
/// the tree that the nodes list, and the samples that the transforms make of the image, each by its token. Decoding
/// gives the image back, without a global tree and at stream index 0, whatever the side of groups and the bit depth.
///
/// Each field of the header is written in the first of its spellings that holds the value. The tokens of the tree have
/// the least width that all of them fit, and so do those of the samples. Zero bits fill the last byte; nothing follows.
///
/// Each grid is a channel of its size, with shift 0. No side is above 2^30, and there are at most 2^20 channels.
/// Transforms are applied in their order; a squeeze without steps is the default one. The nodes are listed level by
/// level, the left child before the right. Without channels there are no bytes, and nothing else is looked at.
///
/// # Memory
///
/// Copies of the grids, a row and some columns of the largest, four bytes for each sample, and the bytes. None of it
/// is kept.
///
/// # Errors
///
/// The first that fails of these checks, and nothing is left of it. `InvalidTransform(273)`: there are more
/// transforms. `InvalidTransform(k)`: no header can spell transform `k`, or it does not suit the channels that the ones
/// before it leave. `InvalidTransform(n)`: all `n` transforms leave more than 65536 channels. `InvalidTree`: the nodes
/// are not those of exactly one tree; a property is `u32::MAX`; there are more than 1025 nodes and one for each sample,
/// or more than 2^20 + 1; or the tree is deeper than 2048. `OutOfMemory` comes at any time.
pub fn encode<S: Sample>(
    alloc: Global,
    channels: &[AlignedGrid<S>],
    transforms: &[EncodeTransform],
    tree: &[EncodeNode],
) -> Result<Vec<u8>, EncodeError>
    requires sides { All IsSmall channels.now }
    requires count { length channels.now ≤ 2 ^ 20 }
    ensures none { channels.now ≡ [] → IsOk result × IfOk result (λ v. v.items ≡ []) }
    ensures ok { channels.now ≢ [] → IfOk result (λ v. IsEncoded (map transform_of transforms.now) tree.now
        (store_meanings S.to_int channels.now) S.width v.items) }
    ensures bytes { channels.now ≢ [] → IfOk result (λ v. AreBytesOf (map transform_of transforms.now) tree.now
        (store_meanings S.to_int channels.now) S.width v.items) }
    ensures err { IfErr result (λ e. EncodeFails (map transform_of transforms.now) tree.now
        (store_meanings S.to_int channels.now) e) }
{
    if channels.is_empty() {
        return Ok(Vec::new(alloc));
    }
    encoded(alloc, channels, transforms, tree)
}

/// Encodes an image as [`encode`] does, with its conditions and its errors, for the plain decoder of the second format:
/// all tokens, those of the tree and those of the samples, are gamma codes.
///
/// A small token takes few bits, whatever the largest one is: n zeros, a one and n bits for the n + 1 binary digits of
/// the token and one more. The header is that of [`encode`], and zero bits fill the last byte.
pub fn encode2<S: Sample>(
    alloc: Global,
    channels: &[AlignedGrid<S>],
    transforms: &[EncodeTransform],
    tree: &[EncodeNode],
) -> Result<Vec<u8>, EncodeError>
    requires sides { All IsSmall channels.now }
    requires count { length channels.now ≤ 2 ^ 20 }
    ensures none { channels.now ≡ [] → IsOk result × IfOk result (λ v. v.items ≡ []) }
    ensures ok { channels.now ≢ [] → IfOk result (λ v. IsEncoded2 (map transform_of transforms.now) tree.now
        (store_meanings S.to_int channels.now) S.width v.items) }
    ensures bytes { channels.now ≢ [] → IfOk result (λ v. AreBytesOf2 (map transform_of transforms.now) tree.now
        (store_meanings S.to_int channels.now) S.width v.items) }
    ensures err { IfErr result (λ e. EncodeFails (map transform_of transforms.now) tree.now
        (store_meanings S.to_int channels.now) e) }
{
    if channels.is_empty() {
        return Ok(Vec::new(alloc));
    }
    encoded2(alloc, channels, transforms, tree)
}
