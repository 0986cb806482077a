//! Trees as they are read, and walks through them.
//!
//! A row asks with, a bar between: the bits before the tree, and the limits of its nodes and of its depth; the bytes; and
//! walks, each of them a channel, a stream and how many earlier channels there are, and after a colon the properties that
//! are not 0, as `9=5,10=-3`, with semicolons between. It gives how many nodes the tree has and how deep it is, or an
//! error, and after an @ the reader's position; and for each walk, after a semicolon, the cluster, predictor, offset and
//! multiplier of the leaf, the sample of the next token before its prediction, and the reader's position after it.
//!
//! A row of kind `facts` has a channel, a stream and how many earlier channels there are in the place of walks, and gives
//! how many compiled nodes there are, how many earlier channels they name, and whether weights are needed.

ghost use Rattle.std.specs.Prelude.{◌≡◌, IfSome};
ghost use Rattle.jxlm_tree.specs.FlatTree.{ClustersStandIn};

use crate::tree::{Told, after, compiled, read};
use check_rows::{number, numbers, repeated, word};
use jxl_modular::MaConfig;
use jxl_modular::bits::Bitstream;
use jxl_modular::decoder::Decoder;
use jxl_modular::flat::{FlatMaTree, Leaf, Steps};
use jxl_modular::plain::PlainDecoder;
use std::alloc::Global;

/// The leaf, in the words of a row.
fn leaf_words(alloc: Global, leaf: &Leaf) -> Option<String> {
    let (cluster, offset, multiplier) = (leaf.cluster, leaf.offset, leaf.multiplier);
    let predictor = leaf.predictor;
    format!(in alloc; "{cluster} {predictor:?} {offset} {multiplier}").ok()
}

/// The sample of the next token before its prediction.
fn sample<D: Decoder>(
    tree: &FlatMaTree,
    decoder: &mut D,
    bits: &mut Bitstream<'_>,
    told: &Told<'_>,
) -> Option<i32>
    requires { ClustersStandIn (D.meaning.cluster_map decoder.old) tree.now.tree }
    ensures { IfSome result (λ _. D.meaning.cluster_map decoder.new ≡ D.meaning.cluster_map decoder.old) }
{
    match tree.decode_sample(bits, decoder, told, 0) {
        Ok((sample, _)) => Some(sample),
        Err(_) => None,
    }
}

/// What a walk comes to.
fn walked<D: Decoder>(
    alloc: Global,
    config: &MaConfig<D>,
    decoder: &mut D,
    bits: &mut Bitstream<'_>,
    walk: &str,
) -> Option<String>
    requires { D.meaning.cluster_map decoder.old ≡ D.meaning.cluster_map config.now.decoder }
    ensures { IfSome result (λ _. D.meaning.cluster_map decoder.new ≡ D.meaning.cluster_map decoder.old) }
{
    let (place, text) = walk.split_once(':')?;
    let tree = compiled(alloc, config, place)?;
    let told = Told { text };
    let leaf = leaf_words(alloc, tree.leaf(&told, &mut Steps::new()))?;
    let sample = sample(&tree, decoder, bits, &told)?;
    let position = bits.position();
    format!(in alloc; "{leaf} {sample} @{position}").ok()
}

/// What the walks come to, each after a semicolon.
fn walks<D: Decoder>(
    alloc: Global,
    config: &MaConfig<D>,
    bits: &mut Bitstream<'_>,
    asked: &str,
) -> Option<String> {
    let mut text = String::new(alloc);
    let mut decoder = config.decoder().try_clone(alloc).ok()?;
    decoder.begin(bits).ok()?;
    for walk in asked.split_terminator(';') {
        let told = walked(alloc, config, &mut decoder, bits, walk)?;
        write!(text, "; {told}").ok()?;
    }
    Some(text)
}

fn seen_by<D: Decoder>(alloc: Global, asked: &str) -> Option<String> {
    let (limits, rest) = asked.split_once('|')?;
    let (digits, asked) = rest.split_once('|')?;
    let (before, rest) = word(limits);
    let (nodes, depth) = numbers(rest, ' ')?;
    let bytes = repeated(alloc, digits)?;
    let mut bits = after(&bytes, number(before)?)?;
    let parsed = read::<D>(alloc, &mut bits, nodes, depth);
    let position = bits.position();
    match parsed {
        Ok(config) => {
            let (nodes, depth) = (config.num_tree_nodes(), config.tree_depth());
            let told = walks(alloc, &config, &mut bits, asked)?;
            format!(in alloc; "{nodes} nodes, depth {depth} @{position}{told}").ok()
        }
        Err(error) => format!(in alloc; "{error} @{position}").ok(),
    }
}

/// What comes of a row.
pub fn seen(alloc: Global, asked: &str) -> Option<String> {
    seen_by::<PlainDecoder>(alloc, asked)
}

fn facts_by<D: Decoder>(alloc: Global, asked: &str) -> Option<String> {
    let (limits, rest) = asked.split_once('|')?;
    let (digits, place) = rest.split_once('|')?;
    let (before, rest) = word(limits);
    let (nodes, depth) = numbers(rest, ' ')?;
    let bytes = repeated(alloc, digits)?;
    let mut bits = after(&bytes, number(before)?)?;
    let config = read::<D>(alloc, &mut bits, nodes, depth).ok()?;
    let tree = compiled(alloc, &config, place)?;
    let (nodes, named) = (tree.num_nodes(), tree.max_prev_channel_depth());
    let weights = tree.need_self_correcting();
    format!(in alloc; "{nodes} {named} {weights}").ok()
}

/// What comes of a row of kind `facts`.
pub fn facts(alloc: Global, asked: &str) -> Option<String> {
    facts_by::<PlainDecoder>(alloc, asked)
}
