//! The places at which a rectangle is put, and how.

ghost use Rattle.std.specs.Prelude.{◌≡◌, ◌<◌, ◌^◌, ◌-◌, length, get_or, IfOk, IfSome};
ghost use Rattle.jxlm_bits.specs.Bits.{bytes_of, position_of};
ghost use Rattle.jxlm_bits.specs.Turns.{chain};
ghost use Rattle.jxl_patches.specs.Patches.{coordinate_of as the_moved, nowhere, coordinate as the_coordinate, alpha_channel as the_alpha_channel, clamp_flag as the_clamp_flag, frame_mode as the_frame_mode, mode_number as the_mode_number, mode_of as the_mode_of, one_mode, one_place};
ghost use Rattle.jxl_patches.specs.Dictionaries.{patches_of};
ghost use Rattle.jxl_patches.specs.Inner.Steps.{TokenRead, Checks, StepRead, coded_alpha as the_coded_alpha, inside as the_inside};

use crate::dictionary::{Dictionary, PatchBlending, PatchMode, Place, Rectangle};
use crate::error::{PatchError, Result};
use crate::token::token;
use jxl_frame_header::blending::BlendMode;
use jxl_image_header::size::Size;
use jxlm_bits::bits::Bitstream;
use jxlm_bits::decoder::Decoder;

/// The size of a frame, and how many modes a place in it has: one for the colours, and one for each extra channel.
#[derive(Clone, Copy)]
pub struct FrameShape {
    pub size: Size,
    pub kinds: usize,
}

fn moved(later: bool, before: u32, value: u32) -> Option<u64>
    ensures value { result ≡ the_moved later before value }
    ensures small { IfSome result (λ c. c < 2 ^ 33) }
{
    if !later {
        return Some(u64::from(value));
    }
    let half = value / 2;
    if value % 2 == 0 {
        Some(u64::from(before) + u64::from(half))
    } else if half < before {
        Some(u64::from(before) - (u64::from(half) + 1))
    } else {
        None
    }
}

fn inside(extent: u32, side: u32, value: u32, place: Option<u64>) -> Result<u32>
    requires { IfSome place (λ c. c < 2 ^ 33) }
    ensures { Checks result (the_inside extent side value place) }
{
    let name = "place of a patch";
    let Some(c) = place else {
        return Err(PatchError::Invalid { name, value });
    };
    if c + u64::from(extent) <= u64::from(side) {
        Ok(c as u32)
    } else {
        Err(PatchError::Invalid { name, value })
    }
}

// Such a coordinate, from which so much lies within a side.
fn coordinate<D: Decoder>(
    decoder: &mut D,
    bits: &mut Bitstream<'_>,
    later: bool,
    before: u32,
    extent: u32,
    side: u32,
) -> Result<u32>
    requires { length (D.meaning.cluster_map decoder.old) ≡ 10 }
    ensures gives { TokenRead (λ v. v) result decoder.new (position_of bits.new)
        ((the_coordinate D.meaning later before extent side decoder.old).read (bytes_of bits.old)
        (position_of bits.old)) }
    ensures clusters { IfOk result (λ _. D.meaning.cluster_map decoder.new ≡ D.meaning.cluster_map decoder.old) }
    ensures bytes { bytes_of bits.new ≡ bytes_of bits.old }
{
    let context = if later { 6 } else { 4 };
    let value = token(decoder, bits, context)?;
    inside(extent, side, value, moved(later, before, value))
}

fn mode_number<D: Decoder>(decoder: &mut D, bits: &mut Bitstream<'_>) -> Result<u32>
    requires { length (D.meaning.cluster_map decoder.old) ≡ 10 }
    ensures gives { TokenRead (λ v. v) result decoder.new (position_of bits.new)
        ((the_mode_number D.meaning decoder.old).read (bytes_of bits.old) (position_of bits.old)) }
    ensures clusters { IfOk result (λ _. D.meaning.cluster_map decoder.new ≡ D.meaning.cluster_map decoder.old) }
    ensures bytes { bytes_of bits.new ≡ bytes_of bits.old }
{
    let value = token(decoder, bits, 5)?;
    if value < 8 {
        Ok(value)
    } else {
        let name = "mode of a patch";
        Err(PatchError::Invalid { name, value })
    }
}

// The alpha channel of a mode, where it is coded.
fn coded_alpha<D: Decoder>(decoder: &mut D, bits: &mut Bitstream<'_>, kinds: usize) -> Result<u32>
    requires { length (D.meaning.cluster_map decoder.old) ≡ 10 }
    ensures gives { TokenRead (λ v. v) result decoder.new (position_of bits.new)
        ((the_coded_alpha D.meaning kinds decoder.old).read (bytes_of bits.old) (position_of bits.old)) }
    ensures clusters { IfOk result (λ _. D.meaning.cluster_map decoder.new ≡ D.meaning.cluster_map decoder.old) }
    ensures bytes { bytes_of bits.new ≡ bytes_of bits.old }
{
    let value = token(decoder, bits, 8)?;
    if u64::from(value) + 1 < kinds as u64 {
        Ok(value)
    } else {
        let name = "alpha channel of a patch";
        Err(PatchError::Invalid { name, value })
    }
}

// The alpha channel of the mode of this number.
fn alpha_channel<D: Decoder>(
    decoder: &mut D,
    bits: &mut Bitstream<'_>,
    kinds: usize,
    mode: u32,
) -> Result<u32>
    requires { length (D.meaning.cluster_map decoder.old) ≡ 10 }
    ensures gives { TokenRead (λ v. v) result decoder.new (position_of bits.new)
        ((the_alpha_channel D.meaning kinds mode decoder.old).read (bytes_of bits.old) (position_of bits.old)) }
    ensures clusters { IfOk result (λ _. D.meaning.cluster_map decoder.new ≡ D.meaning.cluster_map decoder.old) }
    ensures bytes { bytes_of bits.new ≡ bytes_of bits.old }
{
    if 3 < mode && 2 < kinds {
        coded_alpha(decoder, bits, kinds)
    } else {
        Ok(0)
    }
}

// Whether the mode of this number clamps.
fn clamp_flag<D: Decoder>(decoder: &mut D, bits: &mut Bitstream<'_>, mode: u32) -> Result<bool>
    requires { length (D.meaning.cluster_map decoder.old) ≡ 10 }
    ensures gives { TokenRead (λ v. v) result decoder.new (position_of bits.new)
        ((the_clamp_flag D.meaning mode decoder.old).read (bytes_of bits.old) (position_of bits.old)) }
    ensures clusters { IfOk result (λ _. D.meaning.cluster_map decoder.new ≡ D.meaning.cluster_map decoder.old) }
    ensures bytes { bytes_of bits.new ≡ bytes_of bits.old }
{
    if 2 < mode {
        let value = token(decoder, bits, 9)?;
        Ok(value != 0)
    } else {
        Ok(false)
    }
}

// What the mode of this number from 3 on is for frames.
fn frame_mode(number: u32) -> BlendMode
    ensures { result ≡ the_frame_mode number }
{
    match number {
        3 => BlendMode::Mul,
        0..=5 => BlendMode::Blend,
        _ => BlendMode::MulAdd,
    }
}

// The mode of this number.
fn mode_of(number: u32, alpha_channel: u32, clamp: bool) -> PatchMode
    ensures { result ≡ the_mode_of number alpha_channel clamp }
{
    match number {
        0 => PatchMode::Keep,
        1 => PatchMode::Replace,
        2 => PatchMode::Add,
        _ => PatchMode::Blend(PatchBlending {
            mode: frame_mode(number),
            below: number == 5 || number == 7,
            alpha_channel,
            clamp,
        }),
    }
}

// One mode more, of a place with this number of modes.
fn mode<D: Decoder>(
    decoder: &mut D,
    bits: &mut Bitstream<'_>,
    kinds: usize,
    growing: &mut Dictionary,
) -> Result<()>
    requires { length (D.meaning.cluster_map decoder.old) ≡ 10 }
    ensures gives { StepRead result decoder.new growing.new (position_of bits.new)
        ((one_mode D.meaning kinds (patches_of growing.old) decoder.old).read (bytes_of bits.old)
        (position_of bits.old)) }
    ensures clusters { IfOk result (λ _. D.meaning.cluster_map decoder.new ≡ D.meaning.cluster_map decoder.old) }
    ensures bytes { bytes_of bits.new ≡ bytes_of bits.old }
{
    let number = mode_number(decoder, bits)?;
    let alpha = alpha_channel(decoder, bits, kinds, number)?;
    let clamp = clamp_flag(decoder, bits, number)?;
    growing.modes.push(mode_of(number, alpha, clamp))?;
    Ok(())
}

// This number of modes.
fn modes<D: Decoder>(
    decoder: &mut D,
    bits: &mut Bitstream<'_>,
    kinds: usize,
    growing: &mut Dictionary,
) -> Result<()>
    requires { length (D.meaning.cluster_map decoder.old) ≡ 10 }
    ensures gives { StepRead result decoder.new growing.new (position_of bits.new)
        ((chain (one_mode D.meaning kinds) kinds (patches_of growing.old) decoder.old).read (bytes_of bits.old)
        (position_of bits.old)) }
    ensures clusters { IfOk result (λ _. length (D.meaning.cluster_map decoder.new) ≡ 10) }
    ensures bytes { bytes_of bits.new ≡ bytes_of bits.old }
{
    for _ in 0..kinds {
        mode(decoder, bits, kinds, growing)?;
    }
    Ok(())
}

// The last of these places, and one that covers no cell where there is none.
fn last(places: &[Place]) -> Place
    ensures { result ≡ get_or places.now (length places.now - 1) nowhere }
{
    let n = places.len().saturating_sub(1);
    if let Some(place) = places.get(n) {
        return *place;
    }
    let source = Rectangle {
        slot: 0,
        x0: 0,
        y0: 0,
        width: 0,
        height: 0,
    };
    Place { source, x: 0, y: 0 }
}

// One place more of a rectangle, whose places are those from the first of these on.
fn place<D: Decoder>(
    decoder: &mut D,
    bits: &mut Bitstream<'_>,
    frame: FrameShape,
    first: usize,
    source: Rectangle,
    growing: &mut Dictionary,
) -> Result<()>
    requires { length (D.meaning.cluster_map decoder.old) ≡ 10 }
    ensures gives { StepRead result decoder.new growing.new (position_of bits.new)
        ((one_place D.meaning frame.size frame.kinds first source (patches_of growing.old) decoder.old).read
        (bytes_of bits.old) (position_of bits.old)) }
    ensures clusters { IfOk result (λ _. length (D.meaning.cluster_map decoder.new) ≡ 10) }
    ensures bytes { bytes_of bits.new ≡ bytes_of bits.old }
{
    let FrameShape { size, kinds } = frame;
    let later = first < growing.places.len();
    let before = last(&growing.places);
    let x = coordinate(decoder, bits, later, before.x, source.width, size.width)?;
    let y = coordinate(decoder, bits, later, before.y, source.height, size.height)?;
    growing.places.push(Place { source, x, y })?;
    modes(decoder, bits, kinds, growing)
}

/// This number of places of a rectangle, after those of the rectangles before, of which there are `first`.
pub fn places<D: Decoder>(
    decoder: &mut D,
    bits: &mut Bitstream<'_>,
    frame: FrameShape,
    first: usize,
    source: Rectangle,
    count: u64,
    growing: &mut Dictionary,
) -> Result<()>
    requires { length (D.meaning.cluster_map decoder.old) ≡ 10 }
    ensures gives { StepRead result decoder.new growing.new (position_of bits.new)
        ((chain (one_place D.meaning frame.size frame.kinds first source) count (patches_of growing.old)
        decoder.old).read (bytes_of bits.old) (position_of bits.old)) }
    ensures clusters { IfOk result (λ _. length (D.meaning.cluster_map decoder.new) ≡ 10) }
    ensures bytes { bytes_of bits.new ≡ bytes_of bits.old }
{
    for _ in 0..count {
        place(decoder, bits, frame, first, source, growing)?;
    }
    Ok(())
}
