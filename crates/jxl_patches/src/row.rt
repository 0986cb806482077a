//! Samples of a patch, mixed into a row of a frame.

ghost use Rattle.std.specs.Prelude.{◌≡◌, ◌+◌, ◌≤◌, ◌++◌, length, take, drop, get_or, pos, ◌+ℤ◌};
ghost use Rattle.std.specs.Int.{int_wrap, w32};
ghost use Rattle.jxl_image_header.specs.Images.{image_of};
ghost use Rattle.jxl_patches.specs.Patched.{channel_blending, layered_sample as the_layered_sample, lies_below as the_lies_below};
ghost use Rattle.jxl_patches.specs.Inner.Rows.{IsRowMixed, layered_row, mixed_row};

use crate::dictionary::{PatchBlending, PatchMode};
use jxl_blending::blending::{BlendKind, ChannelBlending, Point};
use jxl_frame_header::blending::BlendingInfo;
use jxl_image_header::image::ImageHeader;

// Writes these over a part of a row.
fn write_between(row: &mut [i32], start: usize, end: usize, values: &[i32])
    requires fits { start + length values.now ≡ end }
    requires inside { end ≤ length row.old }
    ensures { row.new ≡ take start row.old ++ (values.now ++ drop end row.old) }
{
    row[start..end].copy_from_slice(values);
}

/// Samples of a row are replaced, from one on.
pub fn replace(row: &mut [i32], start: usize, from: &[i32])
    requires { start + length from.now ≤ length row.old }
    ensures { IsRowMixed (λ i v. get_or from.now i (pos 0)) start (length from.now) row.old row.new }
{
    write_between(row, start, start + from.len(), from);
}

#[inline(always)]
#[tactic(auto, using(std::proofs::lemmas::Int::wraps))]
fn plus(a: i32, b: i32) -> i32
    ensures { result ≡ int_wrap w32 (a +ℤ b) }
{
    a.wrapping_add(b)
}

// Samples are added to those of a row, from one on.
fn add(row: &mut [i32], start: usize, from: &[i32])
    requires { start + length from.now ≤ length row.old }
    ensures { IsRowMixed (λ i v. int_wrap w32 (v +ℤ get_or from.now i (pos 0))) start (length from.now) row.old row.new }
{
    for i in 0..from.len() {
        row[start + i] = plus(row[start + i], from[i]);
    }
}

// What samples of a patch and of a frame make: the one that lies above over the other.
#[derive(Clone, Copy)]
struct Layering {
    blending: ChannelBlending,
    // Whether the patch is said to lie below the frame.
    below: bool,
}

// Whether a patch lies below the frame: where samples replace others, it does not.
fn lies_below(kind: BlendKind, below: bool) -> bool
    ensures { result ≡ the_lies_below kind below }
{
    match kind {
        BlendKind::Replace => false,
        _ => below,
    }
}

impl Layering {
    fn blend(self, patch: Point, frame: Point) -> i32
        ensures { result ≡ the_layered_sample self.blending self.below patch frame }
    {
        if lies_below(self.blending.kind, self.below) {
            self.blending.blend(frame, patch)
        } else {
            self.blending.blend(patch, frame)
        }
    }

    // Samples are blended with those of a row, from one on, each with its alpha.
    fn blend_row(
        self,
        row: &mut [i32],
        start: usize,
        from: &[i32],
        from_alpha: &[i32],
        alpha: &[i32],
    )
        requires inside { start + length from.now ≤ length row.old }
        requires from_alpha { length from_alpha.now ≡ length from.now }
        requires alpha { length alpha.now ≡ length from.now }
        ensures { IsRowMixed (layered_row self.blending self.below from.now from_alpha.now alpha.now) start
            (length from.now) row.old row.new }
    {
        for i in 0..from.len() {
            let patch = Point {
                sample: from[i],
                alpha: from_alpha[i],
            };
            let frame = Point {
                sample: row[start + i],
                alpha: alpha[i],
            };
            row[start + i] = self.blend(patch, frame);
        }
    }
}

/// How patches are mixed into a channel of an image with this number of colours.
#[derive(Clone, Copy)]
pub struct Mixing<'a> {
    pub image: &'a ImageHeader,
    pub colours: usize,
    pub mode: PatchMode,
    pub channel: usize,
}

impl Mixing<'_> {
    // How the channel is blended.
    fn blending(self, patch: PatchBlending) -> ChannelBlending
        ensures { result ≡ channel_blending (image_of self.entry.image.now) self.entry.colours patch self.entry.channel }
    {
        let info = BlendingInfo {
            mode: patch.mode,
            alpha_channel: patch.alpha_channel,
            clamp: patch.clamp,
            source: 0,
        };
        if self.channel < self.colours {
            ChannelBlending::of_colours(self.image, info)
        } else {
            ChannelBlending::of_extra(self.image, info, self.channel - self.colours)
        }
    }

    /// Mixes samples of a patch into those of a row, from one on. The alpha is that of the patch, and that of the row.
    pub fn mix(self, row: &mut [i32], start: usize, from: &[i32], from_alpha: &[i32], alpha: &[i32])
        requires inside { start + length from.now ≤ length row.old }
        requires from_alpha { length from_alpha.now ≡ length from.now }
        requires alpha { length alpha.now ≡ length from.now }
        ensures { IsRowMixed (mixed_row (image_of self.entry.image.now) self.entry.colours self.entry.mode self.entry.channel
            from.now from_alpha.now alpha.now) start (length from.now) row.old row.new }
    {
        match self.mode {
            PatchMode::Keep => {}
            PatchMode::Replace => replace(row, start, from),
            PatchMode::Add => add(row, start, from),
            PatchMode::Blend(patch) => {
                let layering = Layering {
                    blending: self.blending(patch),
                    below: patch.below,
                };
                layering.blend_row(row, start, from, from_alpha, alpha);
            }
        }
    }
}
