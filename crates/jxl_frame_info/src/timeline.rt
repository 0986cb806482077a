//! For how long the pictures of a file are shown.

ghost use Rattle.std.specs.Prelude.{◌≡◌, ℕ, ◌+◌, ◌*◌, ◌<◌, ◌≤◌, ◌^◌, ◌++◌, ◌&&◌, List, [], ◌∷◌, IfErr, IfOk, OnOk, None, drop, if◌then◌else◌, length, false};
ghost use Rattle.jxlm_bits.specs.Bits.{bytes_of, position_of};
ghost use Rattle.jxlm_transform.specs.Params.{IsGroupDim};
ghost use Rattle.jxl_image_header.specs.Images.{image_of};
ghost use Rattle.jxl_frame_header.specs.Frames.{frame_of, frame_size, has_shifts};
ghost use Rattle.jxl_frame_header.specs.Passes.{IsPassCount};
ghost use Rattle.jxl_picture.specs.Limits.{cells_of as the_cells_of, channel_count};
ghost use Rattle.jxl_codestream.specs.FrontParts.{IsReadyFrame, frame_at};
ghost use Rattle.jxl_layers.specs.Compositions.{is_displayed as the_is_displayed};
ghost use Rattle.jxl_frame_info.specs.Timelines.{spare};

use jxl_codestream::error::FrontError;
use jxl_codestream::frame::{FrameFront, FrameStart};
use jxl_coding::decoder::EntropyDecoder;
use jxl_frame_header::frame::FrameHeader;
use jxl_image_header::image::ImageHeader;
use jxl_layers::layer::{is_displayed, is_final, spare_cells};
use jxl_layers::opening::Opening;
use jxl_layers::refusal::layer_refusal;
use jxl_picture::limits::Limits;
use jxlm_base::grid::OutOfMemory;
use jxlm_bits::bits::Bitstream;
use std::alloc::Global;

/// For how long the pictures of a file are shown, as far as the headers of its frames tell.
#[derive(Drop)]
pub struct Timeline {
    /// For how many units of time each of them is shown, one after another.
    pub durations: Vec<u32>,
    /// Why the frames that follow are not decoded; none where the last frame was read.
    pub reason: Option<FrontError>,
}

/// Why it is not known for how long the pictures of a file are shown.
#[derive(Clone, Copy)]
pub enum TimelineError {
    /// What comes before the frames has this error.
    Front(FrontError),
    /// Out of memory.
    OutOfMemory,
}

// What headers of frames are read from: the codestream, its image header, and the limits on frames.
#[derive(Clone, Copy)]
struct Source<'a> {
    bytes: &'a [u8],
    limits: Limits,
    image: &'a ImageHeader,
}

// Adds for how long a frame is shown, if it is.
fn append_duration(durations: &mut Vec<u32>, header: &FrameHeader) -> Result<(), OutOfMemory>
    ensures { OnOk result (durations.new.items ≡ durations.old.items
        ++ (if the_is_displayed (frame_of header.now) then header.now.frame_use.duration ∷ [] else [])) }
{
    if is_displayed(header) {
        durations.push(header.frame_use.duration)?;
    }
    Ok(())
}

impl Source<'_> {
    ghost use Rattle.jxl_frame_info.specs.Timelines.{ComesAt, HasHeader, IsTimeline, NextFails};

    // The header of the frame that begins at this byte, which is supported.
    fn read_header(
        self,
        alloc: Global,
        bits: &mut Bitstream<'_>,
        start: usize,
    ) -> Result<FrameHeader, FrontError>
        requires begin { position_of bits.old ≡ 0 }
        requires lies { bytes_of bits.old ≡ drop start self.bytes.now }
        ensures ok { IfOk result (λ h. HasHeader self.entry.bytes.now (image_of self.entry.image.now) start (frame_of h)
            (position_of bits.new)) }
        ensures plain { IfOk result (λ h. (h.coding.flags.patches && has_shifts (image_of self.entry.image.now))
            ≡ false) }
        ensures dim { IfOk result (λ h. IsGroupDim h.group_dim) }
        ensures counted { IfOk result (λ h. IsPassCount h.passes.num_passes) }
        ensures err { (used : ℕ) → IfErr result (NextFails self.entry.limits self.entry.bytes.now
            (image_of self.entry.image.now) start used) }
        ensures bytes { bytes_of bits.new ≡ bytes_of bits.old }
    {
        let header = match FrameHeader::parse(alloc, bits, self.image) {
            Ok(header) => header,
            Err(error) => return Err(FrontError::FrameHeader(error)),
        };
        match layer_refusal(&header, self.image) {
            Some(reason) => Err(FrontError::Frame(reason)),
            None => Ok(header),
        }
    }

    // What the frame that begins at this byte has before its sections, after frames that count this number of cells.
    fn read_front(self, alloc: Global, start: usize, used: u64) -> Result<FrameFront, FrontError>
        requires short { 8 * length self.bytes.now < 2 ^ 64 }
        requires many { channel_count (image_of self.image.now) ≤ 2 ^ 20 }
        requires inside { start ≤ length self.bytes.now }
        requires within { used ≤ self.limits.pixels }
        ensures ok { IfOk result (λ f. ComesAt self.entry.limits self.entry.bytes.now
            (image_of self.entry.image.now) start used (frame_at f)) }
        ensures ready { IfOk result (IsReadyFrame self.entry.bytes.now (image_of self.entry.image.now)) }
        ensures err { IfErr result (NextFails self.entry.limits self.entry.bytes.now
            (image_of self.entry.image.now) start used) }
    {
        let mut bits = Bitstream::new(&self.bytes[start..]);
        let header = self.read_header(alloc, &mut bits, start)?;
        let spare = spare_cells(self.image, &header);
        if spare > self.limits.pixels - used {
            return Err(FrontError::FramesTooLarge);
        }
        let place = FrameStart {
            bytes: self.bytes,
            limits: &self.limits,
            image: self.image,
            start,
            used: used + spare,
        };
        let front = place.read_parts::<EntropyDecoder>(alloc, header, bits)?;
        Ok(front)
    }

    // How many cells the frames count with this one.
    fn used_with(self, front: &FrameFront, used: u64) -> u64
        requires within { used + spare self.image.now.size (frame_of front.now.header)
            + the_cells_of (frame_size self.image.now.size (frame_of front.now.header)) ≤ self.limits.pixels }
        ensures { result ≡ used + spare self.entry.image.now.size (frame_of front.now.header)
            + the_cells_of (frame_size self.entry.image.now.size (frame_of front.now.header)) }
    {
        let most = self.limits.pixels;
        let before = used + spare_cells(self.image, &front.header);
        front.cells_with(self.image, before, most)
    }

    // The frames from the one on that begins at this byte, up to the last, or the first that is not decoded.
    fn read_frames(self, alloc: Global, first: usize) -> Result<Timeline, OutOfMemory>
        requires short { 8 * length self.bytes.now < 2 ^ 64 }
        requires many { channel_count (image_of self.image.now) ≤ 2 ^ 20 }
        requires inside { first ≤ length self.bytes.now }
        ensures { IfOk result (IsTimeline self.entry.limits self.entry.bytes.now (image_of self.entry.image.now)
            first) }
    {
        let mut durations = Vec::new(alloc);
        let mut start = first;
        let mut used = 0;
        for _ in 0..u64::MAX {
            let front = match self.read_front(alloc, start, used) {
                Ok(front) => front,
                Err(error) => {
                    let reason = Some(error);
                    return Ok(Timeline { durations, reason });
                }
            };
            append_duration(&mut durations, &front.header)?;
            if is_final(&front.header) {
                let reason = None;
                return Ok(Timeline { durations, reason });
            }
            used = self.used_with(&front, used);
            start = front.end(self.bytes, self.image);
        }
        Err(OutOfMemory)
    }
}

impl Timeline {
    ghost use Rattle.jxl_frame_info.specs.Timelines.{IsTimelineOf, TimelineFails};

    /// Reads the headers of the frames of a codestream: no sample is decoded. Whether frames can be composed is not
    /// looked at. Sizes are compared with the limits as when frames are decoded.
    ///
    /// # Errors
    ///
    /// Those of the image header and of the profile; what is wrong with the frames is the `reason`. Or it is out of
    /// memory.
    pub fn read(alloc: Global, bytes: &[u8], limits: &Limits) -> Result<Timeline, TimelineError>
        ensures ok { IfOk result (IsTimelineOf limits.now bytes.now) }
        ensures err { IfErr result (TimelineFails limits.now bytes.now) }
    {
        let opening = match Opening::read(alloc, bytes, limits) {
            Ok(opening) => opening,
            Err(error) => return Err(TimelineError::Front(error)),
        };
        let source = Source {
            bytes,
            limits: *limits,
            image: &opening.image,
        };
        match source.read_frames(alloc, opening.start) {
            Ok(timeline) => Ok(timeline),
            Err(_) => Err(TimelineError::OutOfMemory),
        }
    }
}
