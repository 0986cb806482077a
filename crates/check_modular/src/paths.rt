//! By which path the samples of a channel are decoded.
//!
//! A row asks with, a bar between: the bits before the tree, the channel, the stream and how many earlier channels there
//! are; and the bytes. It gives the path's name, and the cluster, predictor, offset and multiplier of its leaf; or of a
//! table the property, what the leaves agree in, and after a colon its cluster at each of some values. It gives nothing
//! where the leaf to which the compiled tree leads at such a value is not the table's.

use crate::tree::{Told, after, compiled, name, read};
use check_rows::{number, repeated, word};
use jxl_modular::bits::Bitstream;
use jxl_modular::decoder::Decoder;
use jxl_modular::flat::{FlatMaTree, Leaf, Steps};
use jxl_modular::plain::PlainDecoder;
use jxlm_tree::paths::{ClusterTable, Path};
use std::alloc::Global;

/// The values at which a table is asked.
const VALUES: [i32; 18] = [
    i32::MIN,
    -1,
    0,
    1,
    2,
    3,
    4,
    5,
    6,
    7,
    8,
    9,
    10,
    11,
    1021,
    1022,
    1023,
    i32::MAX,
];

/// What leaves agree in, after a number: that of a leaf's cluster, or of the property that chooses one.
fn leaf_words(alloc: Global, number: u32, leaf: &Leaf) -> Option<String> {
    let (offset, multiplier, predictor) = (leaf.offset, leaf.multiplier, leaf.predictor);
    format!(in alloc; "{number} {predictor:?} {offset} {multiplier}").ok()
}

/// The cluster at a value of a table's property.
fn cluster(alloc: Global, tree: &FlatMaTree, table: &ClusterTable, value: i32) -> Option<u8> {
    let text = format!(in alloc; "{}={value}", table.property()).ok()?;
    let told = Told {
        text: text.as_str(),
    };
    let mut steps = Steps::new();
    let leaf = *tree.leaf(&told, &mut steps);
    let same = leaf == table.leaf_by(&told, &mut steps);
    let cluster = table.cluster(value, &mut steps);
    if same && cluster == leaf.cluster {
        Some(cluster)
    } else {
        None
    }
}

/// A table in the words of a row.
fn table_words(alloc: Global, tree: &FlatMaTree, table: &ClusterTable) -> Option<String> {
    let leaf = leaf_words(alloc, table.property(), &table.leaf())?;
    let mut text = format!(in alloc; "{leaf}:").ok()?;
    for value in VALUES {
        let cluster = cluster(alloc, tree, table, value)?;
        write!(text, " {cluster}").ok()?;
    }
    Some(text)
}

/// What a path goes by, in the words of a row.
fn path_words(alloc: Global, tree: &FlatMaTree, path: &Path<'_>) -> Option<String> {
    match path {
        Path::Constant(leaf) | Path::Zero(leaf) | Path::Gradient(leaf) | Path::Runs(leaf) => {
            leaf_words(alloc, u32::from(leaf.cluster), leaf)
        }
        Path::Clusters(table) | Path::GradientClusters(table) => table_words(alloc, tree, table),
        Path::Tree => Some(String::new(alloc)),
    }
}

fn seen_by<D: Decoder>(alloc: Global, asked: &str) -> Option<String> {
    let (place, digits) = asked.split_once('|')?;
    let (before, place) = word(place);
    let bytes = repeated(alloc, digits)?;
    let mut bits = after(&bytes, number(before)?)?;
    let config = read::<D>(alloc, &mut bits, 1 << 26, 2048).ok()?;
    let tree = compiled(alloc, &config, place)?;
    let path = tree.path_of(config.decoder());
    let words = path_words(alloc, &tree, &path)?;
    format!(in alloc; "{} {words}", name(path)).ok()
}

/// What comes of a row.
pub fn seen(alloc: Global, asked: &str) -> Option<String> {
    seen_by::<PlainDecoder>(alloc, asked)
}
