//! The dictionary of patches, written.

ghost use Rattle.std.specs.Prelude.{◌≡◌, ◌+◌, ◌<◌, ◌^◌, length, IfOk};
ghost use Rattle.std.specs.List.{All};
ghost use Rattle.jxlm_bit_writer.specs.Writes.{Adds};
ghost use Rattle.jxl_patches_write.specs.Written.{ArePatchesAt, IsWritable, added};
ghost use Rattle.jxl_patches_write.specs.Inner.Given.{AreInClusters, GiveAll};

use crate::runs::add_rectangles;
use crate::tokens::{CLUSTERS, COUNTS, clusters};
use jxl_coding_build::streams::{write_all, writer_for};
use jxl_patches::dictionary::Place;
use jxlm_bit_writer::token::Token;
use jxlm_bit_writer::writer::BitWriter;
use std::alloc::{AllocError, Global};

/// The tokens of a dictionary of these places, with this number of modes each.
fn tokens_of(alloc: Global, places: &[Place], kinds: usize) -> Result<Vec<Token>, AllocError>
    requires few { length places.now < 2 ^ 31 }
    requires writable { All IsWritable places.now }
    ensures clusters { IfOk result (λ v. AreInClusters v.items) }
    ensures read_as { IfOk result (λ v. GiveAll kinds places.now v.items) }
{
    let mut rectangles = Vec::new(alloc);
    let count = add_rectangles(&mut rectangles, places, kinds)?;
    let mut tokens = Vec::new(alloc);
    tokens.push(Token {
        cluster: COUNTS,
        value: count,
    })?;
    tokens.extend_from_slice(&rectangles)?;
    Ok(tokens)
}

/// Adds the dictionary of patches at these places of a frame with this number of extra channels. All their samples are
/// added to those of the frame. Places with one rectangle, one after another, are written shorter.
///
/// # Errors
///
/// Out of memory, also where there would be 2^31 tokens or more; then nothing is promised of the bits.
pub fn write_patches(
    alloc: Global,
    bits: &mut BitWriter,
    places: &[Place],
    extra: usize,
) -> Result<(), AllocError>
    requires few { length places.now < 2 ^ 31 }
    requires extra { extra < 2 ^ 63 }
    requires writable { All IsWritable places.now }
    ensures { IfOk result (λ _. Adds bits.old bits.new (ArePatchesAt extra (added extra places.now))) }
{
    let tokens = tokens_of(alloc, places, 1 + extra)?;
    if tokens.len() >= 1 << 31 {
        return Err(AllocError);
    }
    let clusters = clusters(alloc)?;
    let writer = writer_for(alloc, clusters, CLUSTERS, &tokens)?;
    write_all(alloc, bits, &writer, &tokens)?;
    Ok(())
}
