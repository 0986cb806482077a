//! Images that are encoded, and decoded again: rows of the kinds `i16` and `i32` in the first plain format, and of the kinds
//! `gamma16` and `gamma32` in the second.
//!
//! A row asks with three lists, a bar between: the channels, each its sides and its samples, row by row, with a `;` after
//! each; the transforms, each `rct BEGIN KIND` or `squeeze` and its steps, a step `h` or `v`, `i` in place or `e` at the
//! end, and its range, with a `;` after each; and the nodes of the tree, a decision `PROPERTY>VALUE`, a leaf
//! `PREDICTOR:OFFSET`. It gives the bytes or the error. Where there are bytes, they are decoded; and where that is
//! another image, it gives this.

ghost use Rattle.std.specs.Prelude.{◌≡◌, IfSome, IsTrue, None};
ghost use Rattle.std.specs.List.{All};
ghost use Rattle.jxl_modular.specs.Encoded.{IsSmall};

use check_rows::{number, numbers, signed, word};
use jxl_modular::bits::Bitstream;
use jxl_modular::decoder::Decoder;
use jxl_modular::encode::{EncodeNode, EncodeTransform, SqueezeStep, encode, encode2};
use jxl_modular::flat::Steps;
use jxl_modular::grid::AlignedGrid;
use jxl_modular::plain::{PlainDecoder, PlainDecoder2};
use jxl_modular::predictor::Predictor;
use jxl_modular::{ModularChannelParams, ModularParams, Sample, decode_picture};
use std::alloc::Global;

/// The plain format that an image is encoded in.
#[derive(Clone, Copy)]
pub enum Format {
    First,
    Second,
}

/// An image with what it is to be encoded by.
#[derive(Drop)]
struct Asked<S> {
    channels: Vec<AlignedGrid<S>>,
    transforms: Vec<EncodeTransform>,
    tree: Vec<EncodeNode>,
}

/// Writes a sample; none where there is no such cell.
fn put<S: Sample>(grid: &mut AlignedGrid<S>, x: usize, y: usize, sample: i32) -> Option<()> {
    if x >= grid.width() || y >= grid.height() {
        return None;
    }
    *grid.get_mut(x, y) = S::from_i32(sample);
    Some(())
}

/// The column and the row of a cell; none where rows have no cells.
fn place(cell: usize, width: usize) -> Option<(usize, usize)> {
    if width == 0 {
        return None;
    }
    Some((cell % width, cell / width))
}

/// A grid of these sides, and its samples, row by row.
fn channel<S: Sample>(alloc: Global, text: &str) -> Option<AlignedGrid<S>> {
    let (sides, rest) = word(text.trim());
    let (width, height) = numbers(sides, 'x')?;
    let samples = signed(alloc, rest)?;
    let mut grid = AlignedGrid::<S>::new(alloc, width as usize, height as usize).ok()?;
    for k in 0..samples.len() {
        let (x, y) = place(k, width as usize)?;
        put(&mut grid, x, y, samples[k])?;
    }
    Some(grid)
}

fn channels<S: Sample>(alloc: Global, text: &str) -> Option<Vec<AlignedGrid<S>>> {
    let mut all = Vec::new(alloc);
    for one in text.split(';') {
        if !one.trim().is_empty() {
            all.push(channel::<S>(alloc, one)?).ok()?;
        }
    }
    Some(all)
}

fn step(text: &str) -> Option<SqueezeStep> {
    let (way, range) = text.split_once(',')?;
    let (begin_c, num_c) = numbers(range, ',')?;
    Some(SqueezeStep {
        horizontal: way.starts_with('h'),
        in_place: way.ends_with('i'),
        begin_c,
        num_c,
    })
}

fn transform(alloc: Global, text: &str) -> Option<EncodeTransform> {
    let (name, rest) = word(text.trim());
    if name == "rct" {
        let (begin_c, rct_type) = numbers(rest, ' ')?;
        return Some(EncodeTransform::Rct { begin_c, rct_type });
    }
    let mut steps = Vec::new(alloc);
    for one in rest.split_whitespace() {
        steps.push(step(one)?).ok()?;
    }
    Some(EncodeTransform::Squeeze(steps))
}

fn transforms(alloc: Global, text: &str) -> Option<Vec<EncodeTransform>> {
    let mut all = Vec::new(alloc);
    for one in text.split(';') {
        if !one.trim().is_empty() {
            all.push(transform(alloc, one)?).ok()?;
        }
    }
    Some(all)
}

fn node(text: &str) -> Option<EncodeNode> {
    if let Some((property, value)) = text.split_once('>') {
        return Some(EncodeNode::Decision {
            property: number(property)?,
            value: value.parse::<i32>().ok()?,
        });
    }
    let (predictor, offset) = text.split_once(':')?;
    Some(EncodeNode::Leaf {
        predictor: Predictor::try_from(number(predictor)?).ok()?,
        offset: offset.parse::<i32>().ok()?,
    })
}

fn tree(alloc: Global, text: &str) -> Option<Vec<EncodeNode>> {
    let mut nodes = Vec::new(alloc);
    for one in text.split_whitespace() {
        nodes.push(node(one)?).ok()?;
    }
    Some(nodes)
}

fn read<S: Sample>(alloc: Global, asked: &str) -> Option<Asked<S>> {
    let (channels_text, rest) = asked.split_once('|')?;
    let (transforms_text, tree_text) = rest.split_once('|')?;
    Some(Asked {
        channels: channels::<S>(alloc, channels_text)?,
        transforms: transforms(alloc, transforms_text)?,
        tree: tree(alloc, tree_text)?,
    })
}

fn are_small<S: Sample>(grids: &[AlignedGrid<S>]) -> bool
    ensures { IsTrue result → All IsSmall grids.now }
{
    grids
        .iter()
        .all(|grid| grid.width() <= 1 << 30 && grid.height() <= 1 << 30)
}

/// Whether two lists of grids are the same, sample by sample.
fn are_same<S: Sample>(grids: &[AlignedGrid<S>], others: &[AlignedGrid<S>]) -> bool {
    if grids.len() != others.len() {
        return false;
    }
    let mut same = true;
    for (grid, other) in grids.iter().zip(others) {
        same = same && grid.width() == other.width() && is_same(grid.buf(), other.buf());
    }
    same
}

fn is_same<S: Sample>(samples: &[S], others: &[S]) -> bool {
    if samples.len() != others.len() {
        return false;
    }
    let mut same = true;
    for (sample, other) in samples.iter().zip(others) {
        same = same && sample.to_i32() == other.to_i32();
    }
    same
}

/// The parameters of a picture that has the sides of these grids.
fn params<'a, S: Sample, D: Decoder>(
    alloc: Global,
    grids: &[AlignedGrid<S>],
) -> Option<ModularParams<'a, D>>
    ensures { IfSome result (λ p. p.ma_config ≡ None) }
{
    let mut channels = Vec::new(alloc);
    for grid in grids {
        let width = u32::try_from(grid.width()).ok()?;
        let height = u32::try_from(grid.height()).ok()?;
        channels
            .push(ModularChannelParams::new(width, height))
            .ok()?;
    }
    Some(ModularParams::with_channels(256, 8, channels, None))
}

/// Whether a decoder makes these grids of the bytes.
fn comes_back<S: Sample, D: Decoder>(
    alloc: Global,
    bytes: &[u8],
    grids: &[AlignedGrid<S>],
) -> Option<bool> {
    let params = params::<S, D>(alloc, grids)?;
    if !params.is_valid() {
        return None;
    }
    let mut bits = Bitstream::new(bytes);
    let picture = decode_picture::<S, D>(alloc, &mut bits, params, 0, &mut Steps::new()).ok()?;
    match picture {
        Some(picture) => Some(are_same(picture.image_channels(), grids)),
        None => Some(grids.is_empty()),
    }
}

fn hexadecimal(alloc: Global, bytes: &[u8]) -> Option<String> {
    let mut text = String::new(alloc);
    for byte in bytes {
        write!(text, "{byte:02x}").ok()?;
    }
    Some(text)
}

/// What is said of bytes that are decoded to the image, or to another one.
fn bytes_or_fault(alloc: Global, bytes: &[u8], same: bool) -> Option<String> {
    if same {
        hexadecimal(alloc, bytes)
    } else {
        format!(in alloc; "comes back as another image").ok()
    }
}

/// What comes of encoding the image of a row.
pub fn seen<S: Sample>(alloc: Global, asked: &str, format: Format) -> Option<String> {
    let Asked {
        channels,
        transforms,
        tree,
    } = read::<S>(alloc, asked)?;
    if !are_small(&channels) || channels.len() > 1 << 20 {
        return None;
    }
    let encoded = match format {
        Format::First => encode::<S>(alloc, &channels, &transforms, &tree),
        Format::Second => encode2::<S>(alloc, &channels, &transforms, &tree),
    };
    let bytes = match encoded {
        Ok(bytes) => bytes,
        Err(error) => return format!(in alloc; "{error}").ok(),
    };
    let same = match format {
        Format::First => comes_back::<S, PlainDecoder>(alloc, &bytes, &channels)?,
        Format::Second => comes_back::<S, PlainDecoder2>(alloc, &bytes, &channels)?,
    };
    bytes_or_fault(alloc, &bytes, same)
}
