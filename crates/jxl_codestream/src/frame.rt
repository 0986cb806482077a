//! What a codestream tells of a frame before its sections.

ghost use Rattle.std.specs.Prelude.{◌≡◌, ◌≢◌, ℕ, ◌+◌, ◌*◌, ◌<◌, ◌≤◌, ◌^◌, ◌↔◌, ◌&&◌, IsTrue, IfErr, IfOk, length, drop, true, false, None};
ghost use Rattle.std.specs.List.{list_all};
ghost use Rattle.jxlm_bits.specs.Bits.{bytes_of, position_of};
ghost use Rattle.jxlm_transform.specs.Params.{IsGroupDim};
ghost use Rattle.jxl_image_header.specs.Images.{image_of};
ghost use Rattle.jxl_frame_header.specs.Frames.{frame_header, frame_of, frame_refusal, frame_size, has_shifts};
ghost use Rattle.jxl_frame_header.specs.Passes.{IsPassCount};
ghost use Rattle.jxl_picture.specs.Limits.{AllowFrame, cells_of as the_cells_of, channel_count, tree_limits as the_tree_limits};
ghost use Rattle.jxl_codestream.specs.Layouts.{section_count_of};
ghost use Rattle.jxl_codestream.specs.LayoutParts.{parts_of};
ghost use Rattle.jxl_codestream.specs.Tocs.{is_within};
ghost use Rattle.jxl_codestream.specs.Fronts.{FrameStands, FrontFails, PartsFail, PartsStand, StandsAt, TableStands, end_of as the_end_of, layout_in};

use crate::error::FrontError;
use crate::layout::Layout;
use crate::toc::{Toc, TocEntry};
use jxl_frame_header::frame::FrameHeader;
use jxl_image_header::image::ImageHeader;
use jxl_image_header::size::Size;
use jxl_picture::limits::{Limits, TreeLimits};
use jxl_picture::picture::colours;
use jxlm_bits::bits::Bitstream;
use jxlm_bits::decoder::Decoder;
use std::alloc::Global;

/// What a codestream tells of a frame before its sections.
#[derive(Drop)]
pub struct FrameFront {
    /// The byte of the codestream where the frame begins.
    pub start: usize,
    /// The header of the frame.
    pub header: FrameHeader,
    /// How the frame is cut.
    pub layout: Layout,
    /// Where each of its sections lies, from its first byte on.
    pub toc: Toc,
    /// The limits on the tree that its sections share, and on their own ones.
    pub trees: TreeLimits,
}

/// How many cells a channel of this size has.
pub fn cells_of(size: Size) -> u64
    ensures { result ≡ the_cells_of size }
{
    u64::from(size.width) * u64::from(size.height)
}

// Whether a frame of this size, after others with this number of cells, is within the limits.
fn allows(limits: &Limits, image: &ImageHeader, used: u64, size: Size) -> bool
    requires many { channel_count (image_of image.now) ≤ 2 ^ 20 }
    ensures { IsTrue result ↔ AllowFrame limits.now (image_of image.now) used size }
{
    if size.width > 1 << 30 || size.height > 1 << 30 {
        return false;
    }
    let channels = (colours(image) + image.ec_info.len()) as u64;
    let Some(cells) = used.checked_add(cells_of(size)) else {
        return false;
    };
    if cells > limits.pixels {
        return false;
    }
    match cells.checked_mul(4 * channels) {
        Some(bytes) => bytes <= limits.bytes,
        None => false,
    }
}

// The limits on the trees of a frame, after others with this number of cells, if the frame is within the limits: trees may
// be deeper where together they have fewer than 2^22 samples.
fn tree_limits(limits: Limits, image: &ImageHeader, used: u64, size: Size) -> TreeLimits
    requires many { channel_count (image_of image.now) ≤ 2 ^ 20 }
    requires allowed { AllowFrame limits (image_of image.now) used size }
    ensures { result ≡ the_tree_limits limits (image_of image.now) used size }
{
    let channels = (colours(image) + image.ec_info.len()) as u64;
    let samples = (used + cells_of(size)) * channels;
    TreeLimits {
        depth: u64::from(limits.decisions) * (1 << 22) / samples.clamp(1, 1 << 22),
        codewords: limits.codewords,
    }
}

// The last byte that one of these sections reaches; they lie within this number of bytes.
fn end_of(entries: &[TocEntry], most: u64) -> u64
    requires within { list_all (is_within most) entries.now ≡ true }
    ensures end { result ≡ the_end_of entries.now }
    ensures most { result ≤ most }
{
    let mut end = 0;
    for entry in entries {
        let next = entry.offset + u64::from(entry.size);
        if next > end {
            end = next;
        }
    }
    end
}

/// Where a frame of a codestream begins, after others with this number of cells.
#[derive(Clone, Copy)]
pub struct FrameStart<'a> {
    /// The bytes of the codestream.
    pub bytes: &'a [u8],
    /// The limits on the picture.
    pub limits: &'a Limits,
    /// The image header.
    pub image: &'a ImageHeader,
    /// The byte where the frame begins.
    pub start: usize,
    /// How many cells the frames before it have.
    pub used: u64,
}

impl FrameStart<'_> {
    ghost use Rattle.jxl_codestream.specs.FrontParts.{IsNext, IsReadyFrame, frame_at};

    // The frame header, of a frame that is supported.
    fn read_header<D: Decoder>(
        self,
        alloc: Global,
        bits: &mut Bitstream<'_>,
    ) -> Result<FrameHeader, FrontError>
        requires next { IsNext D.meaning self.limits.now self.bytes.now (image_of self.image.now) self.start self.used }
        requires begin { position_of bits.old ≡ 0 }
        requires lies { bytes_of bits.old ≡ drop self.start self.bytes.now }
        ensures ok { IfOk result (λ f. StandsAt (frame_header (image_of self.entry.image.now))
            (drop self.entry.start self.entry.bytes.now) 0 (frame_of f) (position_of bits.new)) }
        ensures supported { IfOk result (λ f. frame_refusal (image_of self.entry.image.now) (frame_of f) ≡ None) }
        ensures plain { IfOk result (λ f. (f.coding.flags.patches && has_shifts (image_of self.entry.image.now))
            ≡ false) }
        ensures dim { IfOk result (λ f. IsGroupDim f.group_dim) }
        ensures counted { IfOk result (λ f. IsPassCount f.passes.num_passes) }
        ensures err { IfErr result (FrontFails D.meaning self.entry.limits.now self.entry.bytes.now) }
        ensures bytes { bytes_of bits.new ≡ bytes_of bits.old }
    {
        match FrameHeader::parse(alloc, bits, self.image) {
            Ok(frame) => match frame.refused(self.image) {
                Some(refusal) => Err(FrontError::Frame(refusal)),
                None => Ok(frame),
            },
            Err(error) => Err(FrontError::FrameHeader(error)),
        }
    }

    // The table of contents, which stands after the frame header.
    fn read_contents<D: Decoder>(
        self,
        alloc: Global,
        header: &FrameHeader,
        layout: &Layout,
        bits: &mut Bitstream<'_>,
    ) -> Result<Toc, FrontError>
        requires allowed { AllowFrame self.limits.now (image_of self.image.now) self.used
            (frame_size self.image.now.size (frame_of header.now)) }
        requires cut { parts_of layout.now ≡ layout_in (image_of self.image.now) (frame_of header.now) }
        requires short { 8 * length self.bytes.now < 2 ^ 64 }
        requires lies { bytes_of bits.old ≡ drop self.start self.bytes.now }
        ensures ok { IfOk result (λ t. TableStands D.meaning (drop self.entry.start self.entry.bytes.now)
            (image_of self.entry.image.now) (frame_of header.now) (position_of bits.old) t.entries.items) }
        ensures count { IfOk result (λ t. length t.entries.items
            ≡ section_count_of (layout_in (image_of self.entry.image.now) (frame_of header.now))) }
        ensures err { IfErr result (PartsFail D.meaning self.entry.limits.now
            (drop self.entry.start self.entry.bytes.now) (image_of self.entry.image.now) self.entry.used
            (frame_of header.now) (position_of bits.old)) }
    {
        match Toc::parse::<D>(alloc, bits, layout.section_count()) {
            Ok(toc) => Ok(toc),
            Err(error) => Err(FrontError::Contents(error)),
        }
    }

    /// What follows the frame header, at whose end the reader is: how the frame is cut, and where its sections lie. With
    /// this frame the frames are within the limits, and all its sections lie in the codestream.
    pub fn read_parts<D: Decoder>(
        self,
        alloc: Global,
        header: FrameHeader,
        mut bits: Bitstream<'_>,
    ) -> Result<FrameFront, FrontError>
        requires many { channel_count (image_of self.image.now) ≤ 2 ^ 20 }
        requires short { 8 * length self.bytes.now < 2 ^ 64 }
        requires inside { self.start ≤ length self.bytes.now }
        requires lies { bytes_of bits ≡ drop self.start self.bytes.now }
        requires header { StandsAt (frame_header (image_of self.image.now)) (drop self.start self.bytes.now) 0
            (frame_of header) (position_of bits) }
        requires plain { (header.coding.flags.patches && has_shifts (image_of self.image.now)) ≡ false }
        requires dim { IsGroupDim header.group_dim }
        requires counted { IsPassCount header.passes.num_passes }
        ensures start { IfOk result (λ f. f.start ≡ self.entry.start) }
        ensures header { IfOk result (λ f. frame_of f.header ≡ frame_of header) }
        ensures stands { IfOk result (λ f. PartsStand D.meaning self.entry.limits.now self.entry.bytes.now
            (image_of self.entry.image.now) self.entry.used (frame_at f) (position_of bits.entry)) }
        ensures ready { IfOk result (IsReadyFrame self.entry.bytes.now (image_of self.entry.image.now)) }
        ensures err { IfErr result (PartsFail D.meaning self.entry.limits.now
            (drop self.entry.start self.entry.bytes.now) (image_of self.entry.image.now) self.entry.used
            (frame_of header) (position_of bits.entry)) }
    {
        let image = self.image;
        let size = header.size(image.size);
        if !allows(self.limits, image, self.used, size) {
            return Err(FrontError::FramesTooLarge);
        }
        let Some(layout) = Layout::new(size, header.group_dim, header.passes.num_passes) else {
            return Err(FrontError::TooManySections);
        };
        let toc = self.read_contents::<D>(alloc, &header, &layout, &mut bits)?;
        let length = (self.bytes.len() - self.start) as u64;
        if let Some(number) = toc.truncated(length) {
            return Err(FrontError::TruncatedSection(number));
        }
        let trees = tree_limits(*self.limits, image, self.used, size);
        Ok(FrameFront {
            start: self.start,
            header,
            layout,
            toc,
            trees,
        })
    }
}

impl FrameFront {
    ghost use Rattle.jxl_codestream.specs.FrontParts.{IsNext, IsReadyFrame, frame_at};

    /// What a frame tells that begins at this byte, after others with this number of cells: it is supported, with these
    /// within the limits, and all its sections lie in the codestream.
    pub fn read<D: Decoder>(
        alloc: Global,
        bytes: &[u8],
        limits: &Limits,
        image: &ImageHeader,
        start: usize,
        used: u64,
    ) -> Result<FrameFront, FrontError>
        requires next { IsNext D.meaning limits.now bytes.now (image_of image.now) start used }
        requires many { channel_count (image_of image.now) ≤ 2 ^ 20 }
        requires short { 8 * length bytes.now < 2 ^ 64 }
        requires inside { start ≤ length bytes.now }
        ensures start { IfOk result (λ f. f.start ≡ start) }
        ensures stands { IfOk result (λ f. FrameStands D.meaning limits.now bytes.now (image_of image.now) used
            (frame_at f)) }
        ensures ready { IfOk result (λ f. IsReadyFrame bytes.now (image_of image.now) f) }
        ensures err { IfErr result (FrontFails D.meaning limits.now bytes.now) }
    {
        let rest = &bytes[start..];
        let mut bits = Bitstream::new(rest);
        let place = FrameStart {
            bytes,
            limits,
            image,
            start,
            used,
        };
        let header = place.read_header::<D>(alloc, &mut bits)?;
        place.read_parts::<D>(alloc, header, bits)
    }

    /// How many cells there are with those of this frame, which are at most this number.
    pub fn cells_with(&self, image: &ImageHeader, used: u64, most: u64) -> u64
        requires within { used + the_cells_of (frame_size image.now.size (frame_of self.now.header)) ≤ most }
        ensures { result ≡ used + the_cells_of (frame_size image.now.size (frame_of self.now.header)) }
    {
        used + cells_of(self.header.size(image.size))
    }

    /// The byte of the codestream where the sections of the frame end.
    pub fn end(&self, bytes: &[u8], image: &ImageHeader) -> usize
        requires ready { IsReadyFrame bytes.now (image_of image.now) self.now }
        ensures end { result ≡ self.now.start + the_end_of self.now.toc.entries.items }
        ensures inside { result ≤ length bytes.now }
    {
        let most = (bytes.len() - self.start) as u64;
        self.start + end_of(&self.toc.entries, most) as usize
    }
}
