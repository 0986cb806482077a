//! The dictionary of patches.

ghost use Rattle.std.specs.Prelude.{◌≡◌, ◌+◌, ◌<◌, ◌≤◌, ◌^◌, length, IfOk};
ghost use Rattle.std.specs.List.{sum_by};
ghost use Rattle.jxlm_bits.specs.Bits.{bytes_of, position_of};
ghost use Rattle.jxlm_bits.specs.Turns.{chain};
ghost use Rattle.jxl_patches.specs.Errors.{patch_kind};
ghost use Rattle.jxlm_bits.specs.Grammar.{ParsesBy};
ghost use Rattle.jxl_patches.specs.Patches.{one_rectangle as the_one_rectangle, dictionary as the_dictionary};
ghost use Rattle.jxl_patches.specs.Inner.Steps.{StepRead};
ghost use Rattle.jxl_patches.specs.SavedParts.{sizes_in};
ghost use Rattle.jxl_patches.specs.Dictionaries.{AreWithin, area, patches_of};

use crate::error::Result;
use crate::place::{FrameShape, places};
use crate::slots::SavedFrames;
use crate::source::{place_count, rectangle_count, source};
use crate::token::decoder;
use jxl_frame_header::blending::BlendMode;
use jxl_image_header::size::Size;
use jxlm_bits::bits::Bitstream;
use jxlm_bits::decoder::Decoder;
use std::alloc::Global;

/// A rectangle of the frame that a slot holds.
#[derive(Clone, Copy)]
pub struct Rectangle {
    /// The slot, from 0 to 3.
    pub slot: u32,
    /// Its left column, and its top row.
    pub x0: u32,
    pub y0: u32,
    /// How many columns and rows it has, at least 1.
    pub width: u32,
    pub height: u32,
}

/// A rectangle, and where it is put.
#[derive(Clone, Copy)]
pub struct Place {
    pub source: Rectangle,
    /// The column of the frame where its left one lies, and the row where its top one lies.
    pub x: u32,
    pub y: u32,
}

/// How a patch is blended with the samples of a channel, as a frame is with the picture below it.
#[derive(Clone, Copy, Debug, PartialEq, Eq)]
pub struct PatchBlending {
    pub mode: BlendMode,
    /// Whether the patch lies below the samples of the channel, and they are blended over it.
    pub below: bool,
    /// Which extra channel is alpha, if the mode takes alpha.
    pub alpha_channel: u32,
    /// Whether alpha, or the product's factor, is kept between 0 and 1.
    pub clamp: bool,
}

/// What a patch does with the samples of a channel.
#[derive(Clone, Copy, Debug, PartialEq, Eq)]
pub enum PatchMode {
    /// They stay.
    Keep,
    /// Those of the rectangle stand in their place.
    Replace,
    /// Those of the rectangle are added.
    Add,
    /// They are multiplied, or blended by alpha.
    Blend(PatchBlending),
}

/// Patches, in the order in which they are put.
#[derive(Drop)]
pub struct Dictionary {
    pub places: Vec<Place>,
    /// Of each place one mode for the colours, and one for each extra channel.
    pub modes: Vec<PatchMode>,
}

// One rectangle more, and its places, where this number of cells are put before: gives how many are put with its own.
fn one_rectangle<D: Decoder>(
    decoder: &mut D,
    bits: &mut Bitstream<'_>,
    frame: FrameShape,
    slots: &SavedFrames,
    limit: u64,
    cells: u64,
    growing: &mut Dictionary,
) -> Result<u64>
    requires clusters { length (D.meaning.cluster_map decoder.old) ≡ 10 }
    requires counted { cells ≡ sum_by area growing.old.places.items }
    ensures gives { StepRead result decoder.new growing.new (position_of bits.new)
        ((the_one_rectangle D.meaning frame.size frame.kinds (sizes_in slots.now) limit (patches_of growing.old)
        decoder.old).read (bytes_of bits.old) (position_of bits.old)) }
    ensures counted { IfOk result (λ n. n ≡ sum_by area growing.new.places.items) }
    ensures clusters { IfOk result (λ _. length (D.meaning.cluster_map decoder.new) ≡ 10) }
    ensures bytes { bytes_of bits.new ≡ bytes_of bits.old }
{
    let rectangle = source(decoder, bits, slots)?;
    let done = growing.places.len();
    let counted = place_count(decoder, bits, frame.size, done, cells, rectangle, limit)?;
    places(
        decoder,
        bits,
        frame,
        done,
        rectangle,
        counted.places,
        growing,
    )?;
    Ok(counted.cells)
}

// This number of rectangles.
fn rectangles<D: Decoder>(
    decoder: &mut D,
    bits: &mut Bitstream<'_>,
    frame: FrameShape,
    slots: &SavedFrames,
    limit: u64,
    count: u32,
    growing: &mut Dictionary,
) -> Result<()>
    requires clusters { length (D.meaning.cluster_map decoder.old) ≡ 10 }
    requires none { sum_by area growing.old.places.items ≡ 0 }
    ensures gives { StepRead result decoder.new growing.new (position_of bits.new)
        ((chain (the_one_rectangle D.meaning frame.size frame.kinds (sizes_in slots.now) limit) count
        (patches_of growing.old) decoder.old).read (bytes_of bits.old) (position_of bits.old)) }
    ensures bytes { bytes_of bits.new ≡ bytes_of bits.old }
{
    let mut cells = 0;
    for _ in 0..count {
        cells = one_rectangle(decoder, bits, frame, slots, limit, cells, growing)?;
    }
    Ok(())
}

// The dictionary that stands at the reader's position.
fn read<D: Decoder>(
    alloc: Global,
    bits: &mut Bitstream<'_>,
    size: Size,
    extra: usize,
    slots: &SavedFrames,
    limit: u64,
) -> Result<Dictionary>
    requires { extra < 2 ^ 63 }
    ensures gives { ParsesBy patch_kind patches_of result (position_of bits.new)
        ((the_dictionary D.meaning size extra (sizes_in slots.now) limit).read (bytes_of bits.old)
        (position_of bits.old)) }
    ensures bytes { bytes_of bits.new ≡ bytes_of bits.old }
{
    let mut decoder: D = decoder(alloc, bits, 10)?;
    let count = rectangle_count(&mut decoder, bits, size)?;
    let mut growing = Dictionary {
        places: Vec::new(alloc),
        modes: Vec::new(alloc),
    };
    let kinds = 1 + extra;
    let frame = FrameShape { size, kinds };
    rectangles(&mut decoder, bits, frame, slots, limit, count, &mut growing)?;
    decoder.finalize()?;
    Ok(growing)
}

impl Dictionary {
    /// The dictionary of patches of a frame of this size with this number of extra channels, which stands at the
    /// reader's position. Each of the four slots holds a saved frame, or none. At most this number of cells
    /// are put, counted with their repetitions and once for all channels: `apply` takes this many steps for each
    /// channel, and those of a place besides.
    ///
    /// # Errors
    ///
    /// The first in the order of the bits: the decoder's; `Invalid` of `count of patches`, above 1024 rectangles and one
    /// for each 4 pixels; of `slot of a patch`, that holds no frame; of `rectangle of a patch`, that passes its frame
    /// (with its slot); of `places of a patch`, with those before above four times as many as there may be rectangles;
    /// `TooLarge`, of cells above the limit; `Invalid` of `place of a patch`, that passes the frame; of `mode of a patch`;
    /// of `alpha channel of a patch`, that is no extra channel. Or it is out of memory.
    pub fn parse<D: Decoder>(
        alloc: Global,
        bits: &mut Bitstream<'_>,
        size: Size,
        extra: usize,
        slots: &SavedFrames,
        limit: u64,
    ) -> Result<Dictionary>
        requires { extra < 2 ^ 63 }
        ensures gives { ParsesBy patch_kind patches_of result (position_of bits.new)
            ((the_dictionary D.meaning size extra (sizes_in slots.now) limit).read (bytes_of bits.old)
            (position_of bits.old)) }
        ensures fits { IfOk result (λ d. AreWithin size extra (sizes_in slots.now) (patches_of d)) }
        ensures bounded { IfOk result (λ d. sum_by area d.places.items ≤ limit) }
        ensures bytes { bytes_of bits.new ≡ bytes_of bits.old }
    {
        let dictionary = read::<D>(alloc, bits, size, extra, slots, limit)?;
        Ok(dictionary)
    }
}
