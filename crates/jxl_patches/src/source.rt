//! The rectangles that patches take, and how often.

ghost use Rattle.std.specs.Prelude.{◌≡◌, ◌+◌, ◌*◌, ◌/◌, ◌<◌, ◌≤◌, ◌^◌, length, None, Ok, Err, IfOk, MatchResult, is_some, nat_le, if◌then◌else◌, Some};
ghost use Rattle.jxlm_bits.specs.Bits.{bytes_of, position_of};
ghost use Rattle.jxl_patches.specs.Errors.{patch_kind};
ghost use Rattle.jxl_patches.specs.Patches.{most_rectangles, source as the_source};
ghost use Rattle.jxl_patches.specs.SavedParts.{sizes_in};
ghost use Rattle.jxl_patches.specs.Inner.Steps.{TokenRead, Checks, slot as the_slot, rectangle_count as the_rectangle_count, rectangle_within as the_rectangle_within, count_within as the_count_within, place_count as the_place_count};

use crate::dictionary::Rectangle;
use crate::error::{PatchError, Result};
use crate::slots::SavedFrames;
use crate::token::token;
use jxl_image_header::size::Size;
use jxlm_bits::bits::Bitstream;
use jxlm_bits::decoder::Decoder;

// How many rectangles there may be.
fn most(size: Size) -> u64
    ensures value { result ≡ most_rectangles size }
    ensures most { result < 2 ^ 63 }
{
    let pixels = u64::from(size.width) * u64::from(size.height);
    1024 + pixels / 4
}

/// How many rectangles there are.
pub fn rectangle_count<D: Decoder>(
    decoder: &mut D,
    bits: &mut Bitstream<'_>,
    size: Size,
) -> Result<u32>
    requires { length (D.meaning.cluster_map decoder.old) ≡ 10 }
    ensures gives { TokenRead (λ v. v) result decoder.new (position_of bits.new)
        ((the_rectangle_count D.meaning size decoder.old).read (bytes_of bits.old) (position_of bits.old)) }
    ensures clusters { IfOk result (λ _. D.meaning.cluster_map decoder.new ≡ D.meaning.cluster_map decoder.old) }
    ensures bytes { bytes_of bits.new ≡ bytes_of bits.old }
{
    let value = token(decoder, bits, 0)?;
    if u64::from(value) <= most(size) {
        Ok(value)
    } else {
        let name = "count of patches";
        Err(PatchError::Invalid { name, value })
    }
}

fn slot<D: Decoder>(decoder: &mut D, bits: &mut Bitstream<'_>, slots: &SavedFrames) -> Result<u32>
    requires { length (D.meaning.cluster_map decoder.old) ≡ 10 }
    ensures gives { TokenRead (λ v. v) result decoder.new (position_of bits.new)
        ((the_slot D.meaning (sizes_in slots.now) decoder.old).read (bytes_of bits.old) (position_of bits.old)) }
    ensures clusters { IfOk result (λ _. D.meaning.cluster_map decoder.new ≡ D.meaning.cluster_map decoder.old) }
    ensures bytes { bytes_of bits.new ≡ bytes_of bits.old }
{
    let value = token(decoder, bits, 1)?;
    if slots.size(value).is_some() {
        Ok(value)
    } else {
        let name = "slot of a patch";
        Err(PatchError::Invalid { name, value })
    }
}

// The rectangle at this corner of the frame that a slot holds, whose sides are coded less one.
fn rectangle_within(
    slots: &SavedFrames,
    slot: u32,
    x0: u32,
    y0: u32,
    w: u32,
    h: u32,
) -> Result<Rectangle>
    ensures { Checks result (the_rectangle_within (sizes_in slots.now) slot x0 y0 w h) }
{
    let name = "rectangle of a patch";
    let Some(frame) = slots.size(slot) else {
        return Err(PatchError::Invalid { name, value: slot });
    };
    let wide = u64::from(x0) + u64::from(w) < u64::from(frame.width);
    let high = u64::from(y0) + u64::from(h) < u64::from(frame.height);
    if wide && high {
        Ok(Rectangle {
            slot,
            x0,
            y0,
            width: w + 1,
            height: h + 1,
        })
    } else {
        Err(PatchError::Invalid { name, value: slot })
    }
}

/// A rectangle of a saved frame.
pub fn source<D: Decoder>(
    decoder: &mut D,
    bits: &mut Bitstream<'_>,
    slots: &SavedFrames,
) -> Result<Rectangle>
    requires { length (D.meaning.cluster_map decoder.old) ≡ 10 }
    ensures gives { TokenRead (λ v. v) result decoder.new (position_of bits.new)
        ((the_source D.meaning (sizes_in slots.now) decoder.old).read (bytes_of bits.old) (position_of bits.old)) }
    ensures clusters { IfOk result (λ _. D.meaning.cluster_map decoder.new ≡ D.meaning.cluster_map decoder.old) }
    ensures bytes { bytes_of bits.new ≡ bytes_of bits.old }
{
    let slot = slot(decoder, bits, slots)?;
    let x0 = token(decoder, bits, 3)?;
    let y0 = token(decoder, bits, 3)?;
    let w = token(decoder, bits, 2)?;
    let h = token(decoder, bits, 2)?;
    rectangle_within(slots, slot, x0, y0, w, h)
}

// How many cells there are with these ones, where it is at most the limit.
fn sum_within(cells: u64, rectangle: Rectangle, count: u64, limit: u64) -> Option<u64>
    ensures { let all = cells + rectangle.width * rectangle.height * count in result
        ≡ (if nat_le all limit then Some all else None) }
{
    let area = u64::from(rectangle.width) * u64::from(rectangle.height);
    let more = area.checked_mul(count)?;
    let all = cells.checked_add(more)?;
    if all <= limit { Some(all) } else { None }
}

/// At how many places a rectangle is put, and how many cells are put with these.
#[derive(Clone, Copy)]
pub struct Counted {
    pub places: u64,
    pub cells: u64,
}

fn count_within(
    size: Size,
    done: usize,
    cells: u64,
    rectangle: Rectangle,
    limit: u64,
    value: u32,
) -> Result<Counted>
    requires done { done < 2 ^ 63 }
    ensures { MatchResult result
        (λ c. (the_count_within size done cells rectangle limit value ≡ Ok c.places)
        × (c.cells ≡ cells + rectangle.width * rectangle.height * c.places))
        (λ e. the_count_within size done cells rectangle limit value ≡ Err (patch_kind e)) }
{
    let places = u64::from(value) + 1;
    let all = done as u64 + places;
    if (all + 3) / 4 > most(size) {
        let name = "places of a patch";
        return Err(PatchError::Invalid { name, value });
    }
    match sum_within(cells, rectangle, places, limit) {
        Some(cells) => Ok(Counted { places, cells }),
        None => Err(PatchError::TooLarge),
    }
}

/// At how many places a rectangle is put, where these numbers of places and cells come before.
pub fn place_count<D: Decoder>(
    decoder: &mut D,
    bits: &mut Bitstream<'_>,
    size: Size,
    done: usize,
    cells: u64,
    rectangle: Rectangle,
    limit: u64,
) -> Result<Counted>
    requires clusters { length (D.meaning.cluster_map decoder.old) ≡ 10 }
    requires done { done < 2 ^ 63 }
    ensures gives { TokenRead (λ c. c.places) result decoder.new (position_of bits.new)
        ((the_place_count D.meaning size done cells rectangle limit decoder.old).read (bytes_of bits.old)
        (position_of bits.old)) }
    ensures cells { IfOk result (λ c. c.cells ≡ cells + rectangle.width * rectangle.height * c.places) }
    ensures clusters { IfOk result (λ _. D.meaning.cluster_map decoder.new ≡ D.meaning.cluster_map decoder.old) }
    ensures bytes { bytes_of bits.new ≡ bytes_of bits.old }
{
    let value = token(decoder, bits, 7)?;
    count_within(size, done, cells, rectangle, limit, value)
}
