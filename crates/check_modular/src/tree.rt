//! Trees, as they are compiled for the samples of a channel.
//!
//! A row asks with, a bar between: the limits of the tree's nodes and of its depth, and the bits before it; the channel,
//! the stream and how many earlier channels there are; the properties by which a leaf is looked up, as `9=5,10=-3` for
//! each leaf, the others 0; and the bytes. It gives how many nodes the tree has, how deep it is, how its samples are
//! decoded, and after a colon the offset of each leaf; or an error.

ghost use Rattle.std.specs.Prelude.{IfSome};
ghost use Rattle.jxlm_tree.specs.FlatTree.{ClustersStandIn};

use check_rows::{listed, number, numbers, repeated, word};
use jxl_modular::bits::Bitstream;
use jxl_modular::decoder::Decoder;
use jxl_modular::error::Error;
use jxl_modular::flat::{FlatMaTree, Steps};
use jxl_modular::plain::PlainDecoder;
use jxl_modular::{MaConfig, MaConfigParams};
use jxlm_tree::flat::{AskedProperty, PlaceProperties};
use jxlm_tree::paths::Path;
use std::alloc::Global;

/// The properties of a cell that are not 0, as `9=5,10=-3`.
#[derive(Clone, Copy)]
pub(crate) struct Told<'a> {
    pub(crate) text: &'a str,
}

impl PlaceProperties for Told<'_> {
    ghost use Rattle.std.specs.Prelude.{ℕ};

    ghost IsCurrent = { λ _. Unit {0} };

    ghost gives = { λ _ _ _. Unit {0} };

    fn property(&self, asked: &AskedProperty) -> i32 {
        for word in self.text.split(',') {
            if let Some((name, value)) = word.split_once('=') {
                if number(name) == Some(asked.number()) {
                    return value.parse::<i32>().unwrap_or(0);
                }
            }
        }
        0
    }
}

/// The tree that stands in the bits, within limits of its nodes and of its depth.
pub(crate) fn read<D: Decoder>(
    alloc: Global,
    bits: &mut Bitstream<'_>,
    nodes: u32,
    depth: u32,
) -> Result<MaConfig<D>, Error> {
    let limits = MaConfigParams {
        node_limit: nodes.min(1 << 26) as usize,
        depth_limit: depth.min(2048) as usize,
    };
    MaConfig::parse(alloc, bits, limits)
}

/// The tree for the samples of a channel: by its index, the stream's, and how many earlier channels there are.
pub(crate) fn compiled<D: Decoder>(
    alloc: Global,
    config: &MaConfig<D>,
    place: &str,
) -> Option<FlatMaTree>
    ensures { IfSome result (λ t. ClustersStandIn (D.meaning.cluster_map config.now.decoder) t.tree) }
{
    let (channel, rest) = word(place);
    let (stream, earlier) = numbers(rest, ' ')?;
    config
        .make_flat_tree(alloc, number(channel)?, stream, earlier)
        .ok()
}

/// How the samples of a channel are decoded, by name.
pub(crate) fn name(path: Path<'_>) -> &'static str {
    match path {
        Path::Constant(_) => "constant",
        Path::Zero(_) => "zero",
        Path::Gradient(_) => "gradient",
        Path::Runs(_) => "runs",
        Path::Clusters(_) => "clusters",
        Path::GradientClusters(_) => "gradient-clusters",
        Path::Tree => "tree",
    }
}

/// The offset of the leaf for each word of properties.
fn offsets(alloc: Global, tree: &FlatMaTree, words: &str) -> Option<Vec<i32>> {
    let mut offsets = Vec::new(alloc);
    for text in words.split_whitespace() {
        let leaf = tree.leaf(&Told { text }, &mut Steps::new());
        offsets.push(leaf.offset).ok()?;
    }
    Some(offsets)
}

/// What a tree is for a channel, and its leaves.
fn described<D: Decoder>(
    alloc: Global,
    config: &MaConfig<D>,
    place: &str,
    words: &str,
    summed: bool,
) -> Option<String> {
    let tree = compiled(alloc, config, place)?;
    let name = name(tree.path_of(config.decoder()));
    let (nodes, depth) = (config.num_tree_nodes(), config.tree_depth());
    let leaves = listed(alloc, &offsets(alloc, &tree, words)?, summed).ok()?;
    format!(in alloc; "{nodes} {depth} {name}: {leaves}").ok()
}

/// The reader after this number of bits.
pub(crate) fn after(bytes: &[u8], before: u32) -> Option<Bitstream<'_>> {
    let mut bits = Bitstream::new(bytes);
    for _ in 0..before {
        bits.read_bool().ok()?;
    }
    Some(bits)
}

fn seen_by<D: Decoder>(alloc: Global, asked: &str, summed: bool) -> Option<String> {
    let (limits, rest) = asked.split_once('|')?;
    let (place, rest) = rest.split_once('|')?;
    let (words, digits) = rest.split_once('|')?;
    let (nodes, rest) = word(limits);
    let (depth, before) = numbers(rest, ' ')?;
    let bytes = repeated(alloc, digits)?;
    let mut bits = after(&bytes, before)?;
    match read::<D>(alloc, &mut bits, number(nodes)?, depth) {
        Ok(config) => described(alloc, &config, place, words, summed),
        Err(error) => format!(in alloc; "{error}").ok(),
    }
}

/// What comes of a row.
pub fn seen(alloc: Global, asked: &str, summed: bool) -> Option<String> {
    seen_by::<PlainDecoder>(alloc, asked, summed)
}
