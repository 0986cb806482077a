//! A frame, composed with what the slots hold.

ghost use Rattle.std.specs.Prelude.{◌≡◌, ℕ, ◌<◌, ◌≤◌, ◌^◌, IfOk, None, [], false, get_or, length, map};
ghost use Rattle.jxlm_base.specs.Grid.{grid};
ghost use Rattle.jxl_image_header.specs.Images.{image_of};
ghost use Rattle.jxl_frame_header.specs.Frames.{frame_of, frame_size};
ghost use Rattle.jxl_patches.specs.SavedParts.{slots_of};
ghost use Rattle.jxl_picture.specs.Limits.{channel_count};
ghost use Rattle.jxl_patches.specs.Slots.{AreOfSize, HoldFrames, HoldSingles};
ghost use Rattle.jxl_blending.specs.SingleGrids.{singles_of};
ghost use Rattle.jxl_layers.specs.Compositions.{AreSingles, IsComposed, is_blend as the_is_blend};
ghost use Rattle.jxl_layers.specs.Refusals.{composition_refusal, is_taken};

use crate::layer::{corner_of, info_of};
use jxl_blending::blending::ChannelBlending;
use jxl_blending::choice::sample_scale;
use jxl_blending::grid::Layer;
use jxl_blending::singles::Singles;
use jxl_frame_header::blending::{BlendMode, BlendingInfo};
use jxl_frame_header::frame::FrameHeader;
use jxl_image_header::image::ImageHeader;
use jxl_patches::slots::SavedFrames;
use jxl_picture::picture::{colours, has_alpha};
use jxlm_base::grid::{AlignedGrid, OutOfMemory};
use std::alloc::Global;

/// A picture that a frame makes with what the slots hold: its channels, and what their samples stood for before they were
/// rounded.
#[derive(Drop)]
pub struct Composite {
    pub channels: Vec<AlignedGrid<i32>>,
    pub singles: Vec<Singles>,
}

// A channel of such a picture.
#[derive(Drop)]
struct CompositeChannel {
    samples: AlignedGrid<i32>,
    values: Singles,
}

// What a frame is composed of: the headers, what the slots hold, and its channels.
#[derive(Clone, Copy)]
struct Composition<'a> {
    image: &'a ImageHeader,
    header: &'a FrameHeader,
    slots: &'a SavedFrames,
    channels: &'a [AlignedGrid<i32>],
}

// Whether a mode blends by alpha.
fn is_blend(mode: BlendMode) -> bool
    ensures { result ≡ the_is_blend mode }
{
    match mode {
        BlendMode::Blend => true,
        _ => false,
    }
}

impl<'a> Composition<'a> {
    ghost use Rattle.jxl_patches.specs.Slots.{IsOfSize};
    ghost use Rattle.jxlm_base.specs.Grid.{IsFull};
    ghost use Rattle.jxl_layers.specs.Compositions.{IsLayered, alpha_of as the_alpha_of, IsShownOver, background, blending_of as the_blending_of, channel_below, samples_below as the_samples_below, writes_alpha as the_writes_alpha};
    ghost use Rattle.jxl_layers.specs.Inner.Compositions.{AreLayered, IsReadyComposition, frame_in, image_in, slots_in};

    // Whether colours are blended by the alpha that this extra channel is: then so is it.
    fn writes_alpha(self, channel: usize) -> bool
        ensures { result ≡ the_writes_alpha (image_in self.entry) (frame_in self.entry) channel }
    {
        let info = self.header.blending.blending_info;
        is_blend(info.mode) && has_alpha(self.image) && channel == info.alpha_channel as usize
    }

    // How a channel is blended.
    fn blending(self, channel: usize) -> ChannelBlending
        requires ready { IsReadyComposition self }
        requires channel { channel < length self.channels.now }
        ensures { result ≡ the_blending_of (image_in self.entry) (frame_in self.entry) channel }
    {
        let colours = colours(self.image);
        let info = info_of(self.header, colours, channel);
        if channel < colours {
            ChannelBlending::of_colours(self.image, info)
        } else if self.writes_alpha(channel - colours) {
            let info = self.header.blending.blending_info;
            ChannelBlending::of_alpha(self.image, info, channel - colours)
        } else {
            ChannelBlending::of_extra(self.image, info, channel - colours)
        }
    }

    // Which channel is the alpha that blending takes: where there is none, the channel itself.
    fn alpha_of(self, info: BlendingInfo, channel: usize) -> usize
        requires ready { IsReadyComposition self }
        requires channel { channel < length self.channels.now }
        ensures is { result ≡ the_alpha_of (image_in self.entry) info channel }
        ensures inside { result < length self.entry.channels.now }
    {
        if (info.alpha_channel as usize) < self.image.ec_info.len() {
            colours(self.image) + info.alpha_channel as usize
        } else {
            channel
        }
    }

    // A channel of the frame.
    fn own(self, channel: usize) -> &'a AlignedGrid<i32>
        requires channel { channel < length self.channels.now }
        ensures { result.now ≡ get_or self.entry.channels.now channel (grid 0 0 []) }
    {
        &self.channels[channel]
    }

    // What the samples of a channel of the frame in this slot stand for; zeros if it holds none.
    fn below_in(self, alloc: Global, slot: u32, channel: usize) -> Result<Singles, OutOfMemory>
        requires ready { IsReadyComposition self }
        requires channel { channel < length self.channels.now }
        ensures is { IfOk result (λ s. singles_of s
            ≡ channel_below (image_in self.entry) (slots_in self.entry) slot channel) }
        ensures full { IfOk result (λ s. IsFull (singles_of s)) }
    {
        if let Some(singles) = self.slots.singles(slot, channel) {
            return singles.try_clone(alloc);
        }
        match self.slots.size(slot) {
            Some(_size) => {
                let colours = colours(self.image);
                let scale = sample_scale(self.image, colours, channel);
                let samples = self.slots.channel(slot, channel);
                Singles::load(alloc, scale, samples)
            }
            None => {
                let size = self.image.size;
                Singles::zeros(alloc, size.width as usize, size.height as usize)
            }
        }
    }

    // A channel of the picture below the frame.
    fn below(self, alloc: Global, channel: usize) -> Result<Singles, OutOfMemory>
        requires ready { IsReadyComposition self }
        requires channel { channel < length self.channels.now }
        ensures is { IfOk result (λ s. singles_of s
            ≡ background (image_in self.entry) (frame_in self.entry) (slots_in self.entry) channel) }
        ensures sides { IfOk result (λ s. IsOfSize self.entry.image.now.size (singles_of s)) }
    {
        let colours = colours(self.image);
        let info = info_of(self.header, colours, channel);
        let values = self.below_in(alloc, info.source, channel)?;
        Ok(values)
    }

    // A channel of the picture below the frame, as samples.
    fn samples_below(self, alloc: Global, channel: usize) -> Result<AlignedGrid<i32>, OutOfMemory>
        requires ready { IsReadyComposition self }
        requires channel { channel < length self.channels.now }
        ensures is { IfOk result (λ g. g
            ≡ the_samples_below (image_in self.entry) (frame_in self.entry) (slots_in self.entry) channel) }
        ensures width { IfOk result (λ g. g.width ≡ self.entry.image.now.size.width) }
        ensures height { IfOk result (λ g. g.height ≡ self.entry.image.now.size.height) }
    {
        let colours = colours(self.image);
        let info = info_of(self.header, colours, channel);
        match self.slots.size(info.source) {
            Some(_size) => {
                let held = self.slots.channel(info.source, channel);
                let samples = held.try_clone(alloc)?;
                Ok(samples)
            }
            None => {
                let size = self.image.size;
                let zeros = AlignedGrid::new(alloc, size.width as usize, size.height as usize)?;
                Ok(zeros)
            }
        }
    }

    // What a channel of the picture stands for.
    fn compose_values(self, alloc: Global, channel: usize) -> Result<Singles, OutOfMemory>
        requires ready { IsReadyComposition self }
        requires channel { channel < length self.channels.now }
        ensures is { IfOk result (λ s. IsLayered (image_in self.entry) (frame_in self.entry) (slots_in self.entry)
            self.entry.channels.now channel (singles_of s)) }
        ensures sides { IfOk result (λ s. IsOfSize self.entry.image.now.size (singles_of s)) }
    {
        let colours = colours(self.image);
        let info = info_of(self.header, colours, channel);
        let alpha = self.alpha_of(info, channel);
        let samples = self.own(channel);
        let samples_alpha = self.own(alpha);
        let blending = self.blending(channel);
        let corner = corner_of(self.header);
        let below_alpha = self.below(alloc, alpha)?;
        let mut picture = self.below(alloc, channel)?;
        let layer = Layer {
            samples,
            alpha: samples_alpha,
        };
        blending.blend_grid(corner, layer, &below_alpha, &mut picture);
        Ok(picture)
    }

    // A channel of the picture.
    fn compose_channel(self, alloc: Global, channel: usize) -> Result<CompositeChannel, OutOfMemory>
        requires ready { IsReadyComposition self }
        requires channel { channel < length self.channels.now }
        ensures is { IfOk result (λ c. IsLayered (image_in self.entry) (frame_in self.entry) (slots_in self.entry)
            self.entry.channels.now channel (singles_of c.values)) }
        ensures shown { IfOk result (λ c. IsShownOver (image_in self.entry) (frame_in self.entry) (slots_in self.entry)
            self.entry.channels.now channel (singles_of c.values) c.samples) }
        ensures sides { IfOk result (λ c. IsOfSize self.entry.image.now.size (singles_of c.values)) }
        ensures width { IfOk result (λ c. c.samples.width ≡ self.entry.image.now.size.width) }
        ensures height { IfOk result (λ c. c.samples.height ≡ self.entry.image.now.size.height) }
    {
        let values = self.compose_values(alloc, channel)?;
        let mut samples = self.samples_below(alloc, channel)?;
        let colours = colours(self.image);
        let scale = sample_scale(self.image, colours, channel);
        let corner = corner_of(self.header);
        let own = self.own(channel);
        values.show_under(scale, corner, own.width(), own.height(), &mut samples);
        Ok(CompositeChannel { samples, values })
    }

    // All channels of the picture.
    fn compose_channels(self, alloc: Global) -> Result<Composite, OutOfMemory>
        requires ready { IsReadyComposition self }
        ensures { IfOk result (λ c. AreLayered (image_in self.entry) (frame_in self.entry) (slots_in self.entry)
            self.entry.channels.now (length self.entry.channels.now) (map singles_of c.singles.items) c.channels.items) }
    {
        let mut channels = Vec::new(alloc);
        let mut singles = Vec::new(alloc);
        for channel in 0..self.channels.len() {
            let made = self.compose_channel(alloc, channel)?;
            let CompositeChannel { samples, values } = made;
            channels.push(samples)?;
            singles.push(values)?;
        }
        Ok(Composite { channels, singles })
    }
}

/// The picture that a frame makes with what the slots hold. The samples that the frame does not cover are those of the
/// slots, and a slot without a frame counts as zeros. Samples are rounded once, as they are shown: a slot keeps what those
/// of a blended picture stood for.
pub fn compose(
    alloc: Global,
    image: &ImageHeader,
    header: &FrameHeader,
    slots: &SavedFrames,
    channels: &[AlignedGrid<i32>],
) -> Result<Composite, OutOfMemory>
    requires many { channel_count (image_of image.now) ≤ 2 ^ 20 }
    requires own { AreOfSize (channel_count (image_of image.now))
        (frame_size image.now.size (frame_of header.now)) channels.now }
    requires held { HoldFrames (channel_count (image_of image.now)) (slots_of slots.now) }
    requires singles_held { HoldSingles (slots_of slots.now) }
    requires layered { is_taken (frame_of header.now) ≡ false }
    requires composable { composition_refusal (image_of image.now) (frame_of header.now) (slots_of slots.now) ≡ None }
    ensures made { IfOk result (λ c. IsComposed (image_of image.now) (frame_of header.now) (slots_of slots.now)
        channels.now (map singles_of c.singles.items) c.channels.items) }
    ensures sides { IfOk result (λ c. AreOfSize (channel_count (image_of image.now)) image.now.size c.channels.items) }
    ensures singles { IfOk result (λ c. AreSingles image.now.size (map singles_of c.singles.items)) }
{
    let composition = Composition {
        image,
        header,
        slots,
        channels,
    };
    let composite = composition.compose_channels(alloc)?;
    Ok(composite)
}
