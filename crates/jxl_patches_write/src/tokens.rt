//! The tokens of a dictionary of patches, each in the cluster of its context.

ghost use Rattle.std.specs.Prelude.{◌≡◌, ◌<◌, ◌++◌, if◌then◌else◌, replicate, IfOk};
ghost use Rattle.jxl_patches_write.specs.Inner.Tokens.{add_token, clusters_in, place_tokens, source_tokens};

use jxl_patches::dictionary::Rectangle;
use jxlm_bit_writer::token::Token;
use std::alloc::{AllocError, Global};

/// The cluster of counts: of rectangles, and of the places of each.
pub(crate) const COUNTS: u8 = 0;

/// The cluster of slots.
const SLOTS: u8 = 1;

/// The cluster of sides.
const SIDES: u8 = 2;

/// The cluster of the corners of rectangles.
const CORNERS: u8 = 3;

/// The cluster of the first places of rectangles.
const FIRST: u8 = 4;

/// The cluster of modes.
const MODES: u8 = 5;

/// The cluster of later places.
const LATER: u8 = 6;

/// The number of clusters.
pub(crate) const CLUSTERS: u32 = 7;

/// The cluster of each context.
pub(crate) fn clusters(alloc: Global) -> Result<Vec<u8>, AllocError>
    ensures { IfOk result (λ v. v.items ≡ clusters_in) }
{
    let mut clusters = Vec::new(alloc);
    clusters.extend_from_slice(&[
        COUNTS, SLOTS, SIDES, CORNERS, FIRST, MODES, LATER, COUNTS, MODES, MODES,
    ])?;
    Ok(clusters)
}

/// Adds the tokens of a rectangle.
pub(crate) fn add_source(tokens: &mut Vec<Token>, source: Rectangle) -> Result<(), AllocError>
    requires columns { 0 < source.width }
    requires rows { 0 < source.height }
    ensures { IfOk result (λ _. tokens.new.items ≡ tokens.old.items ++ source_tokens source) }
{
    let slot = Token {
        cluster: SLOTS,
        value: source.slot,
    };
    let x0 = Token {
        cluster: CORNERS,
        value: source.x0,
    };
    let y0 = Token {
        cluster: CORNERS,
        value: source.y0,
    };
    let columns = Token {
        cluster: SIDES,
        value: source.width - 1,
    };
    let rows = Token {
        cluster: SIDES,
        value: source.height - 1,
    };
    tokens.extend_from_slice(&[slot, x0, y0, columns, rows])?;
    Ok(())
}

/// Adds the tokens of this number of modes, each of which adds samples.
fn add_modes(tokens: &mut Vec<Token>, kinds: usize) -> Result<(), AllocError>
    ensures { IfOk result (λ _. tokens.new.items ≡ tokens.old.items ++ replicate kinds add_token) }
{
    for _ in 0..kinds {
        tokens.push(Token {
            cluster: MODES,
            value: 2,
        })?;
    }
    Ok(())
}

/// The cluster of the coordinates of a place.
fn cluster_of(later: bool) -> u8
    ensures { result ≡ (if later then 6 else 4) }
{
    if later { LATER } else { FIRST }
}

/// Adds the tokens of a place, whose coordinates have these codes, with this number of modes, each of which adds samples.
pub(crate) fn add_place(
    tokens: &mut Vec<Token>,
    later: bool,
    x: u32,
    y: u32,
    kinds: usize,
) -> Result<(), AllocError>
    ensures { IfOk result (λ _. tokens.new.items ≡ tokens.old.items ++ place_tokens later x y kinds) }
{
    let cluster = cluster_of(later);
    let column = Token { cluster, value: x };
    let row = Token { cluster, value: y };
    tokens.extend_from_slice(&[column, row])?;
    add_modes(tokens, kinds)?;
    Ok(())
}
