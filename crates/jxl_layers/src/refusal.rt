//! What is not supported of an animation, and what cannot be composed.

ghost use Rattle.std.specs.Prelude.{◌≡◌, ◌==◌, ◌||◌, not, false};
ghost use Rattle.std.specs.List.{list_any};
ghost use Rattle.std.specs.Option.{option_map_or};
ghost use Rattle.jxl_image_header.specs.Images.{image_of};
ghost use Rattle.jxl_frame_header.specs.Frames.{frame_of, has_floats as the_has_floats, has_shifts as the_has_shifts};
ghost use Rattle.jxl_patches.specs.SavedParts.{slots_of};
ghost use Rattle.jxl_layers.specs.Refusals.{animation_refusal as the_animation_refusal, composition_refusal as the_composition_refusal, has_short_floats as the_has_short_floats, is_other as the_is_other, is_short as the_is_short, layer_refusal as the_layer_refusal, slot_refusal as the_slot_refusal, slots_refusal as the_slots_refusal, use_refusal as the_use_refusal};

use crate::error::LayerError;
use crate::layer::is_taken;
use jxl_frame_header::blending::BlendingInfo;
use jxl_frame_header::frame::FrameHeader;
use jxl_frame_header::place::Crop;
use jxl_frame_header::refusal::Refusal;
use jxl_image_header::channel::{BitDepth, ExtraChannel};
use jxl_image_header::image::ImageHeader;
use jxl_image_header::refusal::Refusal as ImageRefusal;
use jxl_image_header::size::Size;
use jxl_patches::slots::SavedFrames;

/// What an image has that is not supported, but that it may be an animation. The header is as it was.
pub fn animation_refusal(image: &mut ImageHeader) -> Option<ImageRefusal>
    ensures is { result ≡ the_animation_refusal (image_of image.old) }
    ensures same { image.new ≡ image.old }
{
    let animation = image.animation;
    image.animation = None;
    let refusal = image.refused();
    image.animation = animation;
    refusal
}

fn some_floats(channels: &[ExtraChannel]) -> bool
    ensures { result ≡ list_any (λ c. not (c.bit_depth.exp_bits == 0)) channels.now }
{
    channels
        .iter()
        .any(|channel| channel.bit_depth.exp_bits != 0)
}

// Whether samples of colours or of an extra channel are floats.
fn has_floats(image: &ImageHeader) -> bool
    ensures { result ≡ the_has_floats (image_of image.now) }
{
    image.bit_depth.exp_bits != 0 || some_floats(&image.ec_info)
}

// Whether samples of a depth are floats of fewer than 32 bits.
fn is_short(depth: BitDepth) -> bool
    ensures { result ≡ the_is_short depth }
{
    depth.exp_bits != 0 && depth.bits_per_sample != 32
}

fn some_short(channels: &[ExtraChannel]) -> bool
    ensures { result ≡ list_any (λ c. the_is_short c.bit_depth) channels.now }
{
    channels.iter().any(|channel| is_short(channel.bit_depth))
}

// Whether those of colours or of an extra channel are.
fn has_short_floats(image: &ImageHeader) -> bool
    ensures { result ≡ the_has_short_floats (image_of image.now) }
{
    is_short(image.bit_depth) || some_short(&image.ec_info)
}

fn some_shifted(channels: &[ExtraChannel]) -> bool
    ensures { result ≡ list_any (λ c. not (c.dim_shift == 0)) channels.now }
{
    channels.iter().any(|channel| channel.dim_shift != 0)
}

// Whether an extra channel has a size of its own.
fn has_shifts(image: &ImageHeader) -> bool
    ensures { result ≡ the_has_shifts (image_of image.now) }
{
    some_shifted(&image.ec_info)
}

fn some_upsampled(factors: &[u32]) -> bool
    ensures { result ≡ list_any (λ f. not (f == 1)) factors.now }
{
    factors.iter().any(|factor| *factor != 1)
}

// Whether a frame has no cells.
fn is_empty(crop: Option<Crop>) -> bool
    ensures { result ≡ option_map_or (λ c. (c.width == 0) || (c.height == 0)) crop false }
{
    match crop {
        Some(crop) => crop.width == 0 || crop.height == 0,
        None => false,
    }
}

// What of a frame is not supported after its coding.
fn use_refusal(header: &FrameHeader) -> Option<Refusal>
    ensures { result ≡ the_use_refusal (frame_of header.now) }
{
    if some_upsampled(&header.ec_upsampling) {
        return Some(Refusal::ExtraUpsampling);
    }
    if is_empty(header.place.crop) {
        return Some(Refusal::EmptyFrame);
    }
    if header.is_saved() && !header.frame_use.save_before_ct {
        return Some(Refusal::SavedAfter);
    }
    header.restoration_filter.refused()
}

/// What a frame has that is not supported: the first that holds, or none.
pub fn layer_refusal(header: &FrameHeader, image: &ImageHeader) -> Option<Refusal>
    ensures { result ≡ the_layer_refusal (image_of image.now) (frame_of header.now) }
{
    header
        .coding
        .refused(has_floats(image), has_shifts(image))
        .or(use_refusal(header))
}

// Whether a frame in a slot is not as large as the picture.
fn is_other(size: Size, held: Option<Size>) -> bool
    ensures { result ≡ the_is_other size held }
{
    match held {
        Some(held) => !(held.width == size.width && held.height == size.height),
        None => false,
    }
}

// Why channels cannot be blended with what a slot holds.
fn slot_refusal(size: Size, slots: &SavedFrames, info: BlendingInfo) -> Option<LayerError>
    ensures { result ≡ the_slot_refusal size (slots_of slots.now) info }
{
    if is_other(size, slots.size(info.source)) {
        Some(LayerError::Background(info.source))
    } else {
        None
    }
}

// The same of the first of these channels.
fn slots_refusal(size: Size, slots: &SavedFrames, infos: &[BlendingInfo]) -> Option<LayerError>
    ensures { result ≡ the_slots_refusal size (slots_of slots.now) infos.now }
{
    for info in infos {
        let refusal = slot_refusal(size, slots, *info);
        if refusal.is_some() {
            return refusal;
        }
    }
    None
}

/// What of a frame cannot be composed with what the slots hold: the first that holds, or none.
pub fn composition_refusal(
    header: &FrameHeader,
    image: &ImageHeader,
    slots: &SavedFrames,
) -> Option<LayerError>
    ensures { result ≡ the_composition_refusal (image_of image.now) (frame_of header.now) (slots_of slots.now) }
{
    if is_taken(header) {
        return None;
    }
    if has_short_floats(image) {
        return Some(LayerError::BlendedFloats);
    }
    if has_shifts(image) {
        return Some(LayerError::ShiftedChannels);
    }
    let infos = &header.blending.ec_blending_info;
    slot_refusal(image.size, slots, header.blending.blending_info).or(slots_refusal(
        image.size, slots, infos,
    ))
}
