//! How a tree is compiled into flat nodes for the samples of one channel.

ghost use Rattle.std.specs.Prelude.{◌≡◌, ℕ, ℤ, pos, ◌+◌, ◌<◌, ◌≤◌, ◌∷◌, ◌≤ℤ◌, ◌+ℤ◌, ◌-ℤ◌, length, slice_index, IfOk, OnOk, ◌^◌};
ghost use Rattle.std.proofs.Common.{reverse};
ghost use Rattle.jxlm_tree.specs.Inner.FlatNodes.{Compiles, CompilesSide, Fills};
ghost use Rattle.jxlm_tree.specs.Inner.FlatShapes.{size};
ghost use Rattle.jxlm_ma_tree.specs.Marked.{IsMarked, marked_shape};
ghost use Rattle.jxlm_tree.specs.declared.flat.FlatNode.TheVariants.{Fused, Table};
ghost use Rattle.jxlm_ma_tree.specs.Cuts.{least, greatest};

use crate::flat::{FlatNode, Leaf, Side};
use jxlm_ma_tree::marks::Marked;
use jxlm_predictor::place::AskedProperty;
use std::alloc::{AllocError, Global};

// Adds a node, and says where it stands.
fn add(nodes: &mut Vec<FlatNode>, node: FlatNode) -> Result<u32, AllocError>
    requires { length (reverse nodes.old.items) < 2 ^ 32 }
    ensures place { IfOk result (λ i. i ≡ length (reverse nodes.old.items)) }
    ensures items { OnOk result (reverse nodes.new.items ≡ node ∷ reverse nodes.old.items) }
{
    let place = nodes.len() as u32;
    nodes.push(node)?;
    Ok(place)
}

// Adds the node of a table. It is put together here, and not in `compile`, whose frame stays small so.
#[inline(never)]
fn add_table(
    nodes: &mut Vec<FlatNode>,
    property: AskedProperty,
    base: i32,
    entries: Vec<u32>,
) -> Result<u32, AllocError>
    requires { length (reverse nodes.old.items) < 2 ^ 32 }
    ensures place { IfOk result (λ i. i ≡ length (reverse nodes.old.items)) }
    ensures items { OnOk result (reverse nodes.new.items ≡ Table property base entries ∷ reverse nodes.old.items) }
{
    add(
        nodes,
        FlatNode::Table {
            property,
            base,
            entries,
        },
    )
}

// Adds a fused node, which is put together here like a table.
#[inline(never)]
fn add_fused(
    nodes: &mut Vec<FlatNode>,
    property: AskedProperty,
    value: i32,
    left: Side,
    right: Side,
) -> Result<u32, AllocError>
    requires { length (reverse nodes.old.items) < 2 ^ 32 }
    ensures place { IfOk result (λ i. i ≡ length (reverse nodes.old.items)) }
    ensures items { OnOk result (reverse nodes.new.items ≡ Fused property value left right ∷ reverse nodes.old.items) }
{
    add(
        nodes,
        FlatNode::Fused {
            property,
            value,
            left,
            right,
        },
    )
}

// Adds the nodes of a tree, its root last.
#[cycle(compile)]
pub fn compile(alloc: Global, tree: &Marked, nodes: &mut Vec<FlatNode>) -> Result<u32, AllocError>
    requires marked { IsMarked tree.now }
    requires room { length (reverse nodes.old.items) + size (marked_shape tree.now) < 2 ^ 32 }
    ensures { IfOk result (λ i. Compiles (reverse nodes.old.items) (reverse nodes.new.items) i
        (marked_shape tree.now)) }
{
    match tree {
        Marked::Leaf(leaf) => add(nodes, FlatNode::Leaf(*leaf)),
        Marked::Decision {
            property,
            value,
            table,
            left,
            right,
        } => match table {
            Some(found) => {
                let mut entries = Vec::new(alloc);
                let low = i64::from(found.least);
                let high = i64::from(found.greatest) + 1;
                fill(alloc, tree, *property, low, high, nodes, &mut entries)?;
                add_table(nodes, AskedProperty::new(*property), found.least, entries)
            }
            None => {
                let left = compile_side(alloc, left, *property, nodes)?;
                let right = compile_side(alloc, right, *property, nodes)?;
                add_fused(nodes, AskedProperty::new(*property), *value, left, right)
            }
        },
    }
}

// Adds the nodes of one side of a fused node. A leaf or a table takes both its ends, whatever `fallback` is.
#[cycle(compile)]
fn compile_side(
    alloc: Global,
    tree: &Marked,
    fallback: u32,
    nodes: &mut Vec<FlatNode>,
) -> Result<Side, AllocError>
    requires marked { IsMarked tree.now }
    requires room { length (reverse nodes.old.items) + size (marked_shape tree.now) < 2 ^ 32 }
    ensures { IfOk result (λ s. CompilesSide fallback (reverse nodes.old.items) (reverse nodes.new.items) s
        (marked_shape tree.now)) }
{
    match tree {
        Marked::Leaf(_) => {}
        Marked::Decision {
            property,
            value,
            table,
            left,
            right,
        } => {
            if table.is_none() {
                let above = compile(alloc, left, nodes)?;
                let rest = compile(alloc, right, nodes)?;
                return Ok(Side {
                    property: AskedProperty::new(*property),
                    value: *value,
                    above,
                    rest,
                });
            }
        }
    }
    let place = compile(alloc, tree, nodes)?;
    Ok(Side {
        property: AskedProperty::new(fallback),
        value: 0,
        above: place,
        rest: place,
    })
}

// Adds one entry for each number in `low..=high`.
fn extend(entries: &mut Vec<u32>, place: u32, low: i64, high: i64) -> Result<(), AllocError>
    requires low { least ≤ℤ low }
    requires order { low ≤ℤ high }
    requires high { high ≤ℤ (greatest +ℤ pos 1) }
    requires short { (pos (length entries.old.items) +ℤ (high -ℤ low)) ≤ℤ pos 1023 }
    ensures longer { OnOk result (pos (length entries.new.items)
        ≡ (pos (length entries.old.items) +ℤ ((high -ℤ low) +ℤ pos 1))) }
    ensures kept { OnOk result ((k : ℕ) → k < length entries.old.items
        → slice_index entries.new.items k ≡ slice_index entries.old.items k) }
    ensures news { OnOk result ((k : ℕ) → length entries.old.items ≤ k → k < length entries.new.items
        → slice_index entries.new.items k ≡ place) }
{
    let length = entries.len() + (high - low) as usize + 1;
    entries.resize(length, place)
}

// Adds the nodes that the decisions on `property` lead to, and the entries for `low..=high`.
#[cycle(compile)]
fn fill(
    alloc: Global,
    tree: &Marked,
    property: u32,
    low: i64,
    high: i64,
    nodes: &mut Vec<FlatNode>,
    entries: &mut Vec<u32>,
) -> Result<(), AllocError>
    requires marked { IsMarked tree.now }
    requires room { length (reverse nodes.old.items) + size (marked_shape tree.now) < 2 ^ 32 }
    requires low { least ≤ℤ low }
    requires order { low ≤ℤ high }
    requires high { high ≤ℤ (greatest +ℤ pos 1) }
    requires short { (pos (length entries.old.items) +ℤ (high -ℤ low)) ≤ℤ pos 1023 }
    ensures { OnOk result (Fills (reverse nodes.old.items) (reverse nodes.new.items) entries.old.items
        entries.new.items property low high (marked_shape tree.now)) }
{
    match tree {
        Marked::Leaf(_) => {}
        Marked::Decision {
            property: tested,
            value,
            table: _,
            left,
            right,
        } => {
            if *tested == property {
                let cut = i64::from(*value);
                if cut < low {
                    return fill(alloc, left, property, low, high, nodes, entries);
                }
                if cut < high {
                    fill(alloc, right, property, low, cut, nodes, entries)?;
                    return fill(alloc, left, property, cut + 1, high, nodes, entries);
                }
                return fill(alloc, right, property, low, high, nodes, entries);
            }
        }
    }
    let place = compile(alloc, tree, nodes)?;
    extend(entries, place, low, high)
}
