//! Patches put into a frame.

ghost use Rattle.std.specs.Prelude.{◌≡◌, ℕ, ◌+◌, ◌<◌, ◌≤◌, ◌^◌, length, get_or, pos, [], ◌*◌, IfOk, MatchResult};
ghost use Rattle.jxlm_base.specs.Grid.{at, grid as the_grid};
ghost use Rattle.jxl_image_header.specs.Images.{image_of};
ghost use Rattle.jxl_patches.specs.Dictionaries.{patches_of, place_at};
ghost use Rattle.jxl_patches.specs.Patched.{alpha_of as the_alpha_of, kind_of as the_kind_of, kinds_of as the_kinds_of, mode_at, patching, PlaceFits, Fits, ArePatched};
ghost use Rattle.jxl_patches.specs.SavedParts.{frames_in};
ghost use Rattle.jxl_patches.specs.Inner.Rows.{AreCovered, ArePlacePut, IsCovered, IsChannelMixed, IsPut, IsReadyChannel, mixed_cell};

use crate::dictionary::{Dictionary, PatchMode, Place};
use crate::row::{Mixing, replace};
use crate::slots::SavedFrames;
use jxl_blending::grid::Layer;
use jxl_image_header::image::ImageHeader;
use jxlm_base::grid::{AlignedGrid, OutOfMemory};
use std::alloc::Global;

// This number of samples of row `y`, from column `x` on.
fn part(grid: &AlignedGrid<i32>, x: usize, y: usize, count: usize) -> &[i32]
    requires columns { x + count ≤ grid.now.width }
    requires in_rows { y < grid.now.height }
    ensures len { length result.now ≡ count }
    ensures cells { (i : ℕ) → i < count → get_or result.now i (pos 0) ≡ at grid.now (x + i) y }
{
    prove!(x <= grid.width() && y < grid.height());
    let row = grid.get_row(y);
    &row[x..x + count]
}

// The samples of a grid on which a place lies.
fn covered(
    alloc: Global,
    place: Place,
    grid: &AlignedGrid<i32>,
) -> Result<AlignedGrid<i32>, OutOfMemory>
    requires columns { place.x + place.source.width ≤ grid.now.width }
    requires in_rows { place.y + place.source.height ≤ grid.now.height }
    ensures { IfOk result (IsCovered place grid.now) }
{
    let width = place.source.width as usize;
    let height = place.source.height as usize;
    let mut samples = AlignedGrid::new(alloc, width, height)?;
    for j in 0..height {
        let from = part(grid, place.x as usize, place.y as usize + j, width);
        let row = samples.get_row_mut(j);
        replace(row, 0, from);
    }
    Ok(samples)
}

// The same of each channel.
fn covered_parts(
    alloc: Global,
    place: Place,
    channels: &[AlignedGrid<i32>],
) -> Result<Vec<AlignedGrid<i32>>, OutOfMemory>
    requires columns { (c : ℕ) → c < length channels.now →
        place.x + place.source.width ≤ (get_or channels.now c (the_grid 0 0 [])).width }
    requires in_rows { (c : ℕ) → c < length channels.now →
        place.y + place.source.height ≤ (get_or channels.now c (the_grid 0 0 [])).height }
    ensures { IfOk result (λ v. AreCovered place channels.now v.items) }
{
    let mut parts = Vec::new(alloc);
    for channel in 0..channels.len() {
        let samples = covered(alloc, place, &channels[channel])?;
        parts.push(samples)?;
    }
    Ok(parts)
}

// Puts a place into a grid: the samples of the place's frame, with their alpha, and the alpha on which the place lies.
fn put(
    mixing: Mixing<'_>,
    place: Place,
    source: Layer<'_>,
    alpha: &AlignedGrid<i32>,
    grid: &mut AlignedGrid<i32>,
)
    requires samples { PlaceFits place source.samples.now grid.old }
    requires source_alpha { PlaceFits place source.alpha.now grid.old }
    requires columns { alpha.now.width ≡ place.source.width }
    requires in_rows { alpha.now.height ≡ place.source.height }
    ensures { IsPut (mixed_cell (image_of mixing.entry.image.now) mixing.entry.colours mixing.entry.mode
        mixing.entry.channel place source.entry.samples.now source.entry.alpha.now alpha.now) place grid.old
        grid.new }
{
    prove!(place.x as usize <= grid.width());
    let x0 = place.source.x0 as usize;
    let y0 = place.source.y0 as usize;
    let width = place.source.width as usize;
    for j in 0..place.source.height as usize {
        let from = part(source.samples, x0, y0 + j, width);
        let from_alpha = part(source.alpha, x0, y0 + j, width);
        let below = part(alpha, 0, j, width);
        let row = grid.get_row_mut(place.y as usize + j);
        mixing.mix(row, place.x as usize, from, from_alpha, below);
    }
}

// Which of the modes of a place is that of a channel.
fn kind_of(colours: usize, channel: usize) -> usize
    requires { channel < 2 ^ 63 }
    ensures { result ≡ the_kind_of colours channel }
{
    if channel < colours {
        0
    } else {
        1 + (channel - colours)
    }
}

// How many modes a place has.
fn kinds_of(colours: usize, channels: usize) -> usize
    requires { channels < 2 ^ 63 }
    ensures { result ≡ the_kinds_of colours channels }
{
    1 + channels.saturating_sub(colours)
}

// The channel whose samples are the alpha of a channel, by a mode.
fn alpha_of(colours: usize, channels: usize, mode: PatchMode, channel: usize) -> usize
    requires channels { channels < 2 ^ 63 }
    requires channel { channel < channels }
    ensures is { result ≡ the_alpha_of colours channels mode channel }
    ensures inside { result < channels }
{
    let PatchMode::Blend(blending) = mode else {
        return channel;
    };
    let alpha = colours.saturating_add(blending.alpha_channel as usize);
    if alpha < channels { alpha } else { channel }
}

impl Dictionary {
    fn nth_place(&self, n: usize) -> Place
        requires { n < length self.now.places.items }
        ensures { result ≡ place_at (patches_of self.now) n }
    {
        self.places[n]
    }

    // The mode of a place for a channel.
    fn nth_mode(&self, n: usize, colours: usize, channels: usize, channel: usize) -> PatchMode
        requires place { n < length self.now.places.items }
        requires channels { channels < 2 ^ 63 }
        requires channel { channel < channels }
        requires modes { length self.now.modes.items
            ≡ length self.now.places.items * the_kinds_of colours channels }
        ensures { result ≡ mode_at (patches_of self.now) colours channels n channel }
    {
        let kinds = kinds_of(colours, channels);
        self.modes[n * kinds + kind_of(colours, channel)]
    }

    // Puts a place into a channel of a frame, where it covers these samples.
    fn put_channel(
        &self,
        image: &ImageHeader,
        colours: usize,
        slots: &SavedFrames,
        n: usize,
        parts: &[AlignedGrid<i32>],
        channel: usize,
        grid: &mut AlignedGrid<i32>,
    )
        requires { IsReadyChannel (frames_in slots.now) colours (patches_of self.now) n parts.now channel grid.old }
        ensures { IsChannelMixed (image_of image.now) (frames_in slots.now) colours (patches_of self.now) n parts.now
            channel grid.old grid.new }
    {
        let place = self.nth_place(n);
        let slot = place.source.slot;
        let mode = self.nth_mode(n, colours, parts.len(), channel);
        let alpha = alpha_of(colours, parts.len(), mode, channel);
        let mixing = Mixing {
            image,
            colours,
            mode,
            channel,
        };
        let samples = slots.channel(slot, channel);
        let samples_alpha = slots.channel(slot, alpha);
        let covered = &parts[alpha];
        let source = Layer {
            samples,
            alpha: samples_alpha,
        };
        put(mixing, place, source, covered, grid);
    }

    // Puts a place into all channels.
    fn put_place(
        &self,
        alloc: Global,
        image: &ImageHeader,
        colours: usize,
        slots: &SavedFrames,
        n: usize,
        channels: &mut [AlignedGrid<i32>],
    ) -> Result<(), OutOfMemory>
        requires fits { Fits (frames_in slots.now) colours (patches_of self.now) channels.old }
        requires place { n < length self.now.places.items }
        ensures { IfOk result (λ _. ArePlacePut (patching (image_of image.now) (frames_in slots.now) colours
            (patches_of self.now) channels.old) n channels.old channels.new) }
    {
        let parts = covered_parts(alloc, self.nth_place(n), channels)?;
        for channel in 0..channels.len() {
            let grid = &mut channels[channel];
            self.put_channel(image, colours, slots, n, &parts, channel, grid);
        }
        Ok(())
    }

    /// Puts the patches into the channels of their frame, of which this number are colours, in their order. Each slot
    /// holds the channels of its saved frame, as they were saved; none where it holds no frame. Sums of samples are
    /// taken modulo 2^32; products and blended samples are rounded to the nearest whole number by each patch. No channel
    /// changes its size, and no cell changes that no place covers.
    ///
    /// It takes time for each cell of each place, in each channel: `parse` bounds them by its limit.
    ///
    /// # Errors
    ///
    /// Out of memory: the samples on which a place lies are copied.
    pub fn apply(
        &self,
        alloc: Global,
        image: &ImageHeader,
        colours: usize,
        channels: &mut [AlignedGrid<i32>],
        slots: &SavedFrames,
    ) -> Result<(), OutOfMemory>
        requires { Fits (frames_in slots.now) colours (patches_of self.now) channels.old }
        ensures { IfOk result (λ _. ArePatched (image_of image.now) (frames_in slots.now) colours
            (patches_of self.now) channels.old channels.new) }
    {
        for n in 0..self.places.len() {
            self.put_place(alloc, image, colours, slots, n, channels)?;
        }
        Ok(())
    }
}
