//! Trees as an encoder is given them, and the tokens of their nodes (ISO/IEC 18181-1, Modular: meta-adaptive trees).

ghost use Rattle.std.specs.Prelude.{◌≡◌, ◌++◌, ◌↔◌, true, IsTrue, IfOk, length};
ghost use Rattle.std.specs.List.{All};
ghost use Rattle.jxlm_encode_write.specs.Nodes.{packed_number, node_tokens, tree_tokens, has_token};

use jxlm_predictor::predictor::Predictor;
use std::alloc::{AllocError, Global};

/// A node of a tree, which is listed level by level. Multipliers are 1.
#[derive(Clone, Copy, Debug, PartialEq, Eq)]
pub enum EncodeNode {
    /// Samples whose property is greater than the value go on to the left child, others to the right one.
    Decision {
        /// The property.
        property: u32,
        /// The value.
        value: i32,
    },
    /// How samples are predicted.
    Leaf {
        /// The predictor.
        predictor: Predictor,
        /// What is added to the prediction.
        offset: i32,
    },
}

/// The token of a signed number: 2k for k, and 2k + 1 for -k - 1.
pub fn pack(value: i32) -> u32
    ensures { result ≡ packed_number value }
{
    if value >= 0 {
        value.cast_unsigned() * 2
    } else {
        (-1 - value).cast_unsigned() * 2 + 1
    }
}

/// Adds the tokens of a node.
fn push_node(tokens: &mut Vec<u32>, node: &EncodeNode) -> Result<(), AllocError>
    requires { has_token node.now ≡ true }
    ensures { IfOk result (λ _. tokens.new.items ≡ tokens.old.items ++ node_tokens node.now) }
{
    match *node {
        EncodeNode::Decision { property, value } => {
            tokens.push(property + 1)?;
            tokens.push(pack(value))?;
        }
        EncodeNode::Leaf { predictor, offset } => {
            tokens.push(0)?;
            tokens.push(predictor.number())?;
            tokens.push(pack(offset))?;
            tokens.push(0)?;
            tokens.push(0)?;
        }
    }
    Ok(())
}

/// Whether the tokens of all properties, each a property and one more, are numbers of 32 bits.
pub fn has_tokens(nodes: &[EncodeNode]) -> bool
    ensures { IsTrue result ↔ All (λ n. has_token n ≡ true) nodes.now }
{
    nodes.iter().all(|node| match node {
        EncodeNode::Decision { property, .. } => *property < u32::MAX,
        EncodeNode::Leaf { .. } => true,
    })
}

/// The tokens of these nodes, one node after another: two for a decision, five for a leaf.
pub fn tokens_of(alloc: Global, nodes: &[EncodeNode]) -> Result<Vec<u32>, AllocError>
    requires { All (λ n. has_token n ≡ true) nodes.now }
    ensures { IfOk result (λ v. v.items ≡ tree_tokens nodes.now) }
{
    let mut tokens = Vec::new(alloc);
    for node in nodes {
        push_node(&mut tokens, node)?;
    }
    Ok(tokens)
}
