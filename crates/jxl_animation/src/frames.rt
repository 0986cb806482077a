//! The frames of a file, one by one.

ghost use Rattle.std.specs.Prelude.{◌≡◌, ℕ, ◌≤◌, ◌+◌, ◌&&◌, List, IfErr, IfOk, IfSome, MatchOption, None, drop, length, false, true};
ghost use Rattle.jxlm_bits.specs.Bits.{bytes_of, position_of};
ghost use Rattle.jxlm_transform.specs.Params.{IsGroupDim};
ghost use Rattle.jxl_coding.specs.Parse.{decoder_at};
ghost use Rattle.jxl_coding.specs.Tokens.{entropy};
ghost use Rattle.jxl_image_header.specs.Images.{image_of};
ghost use Rattle.jxl_frame_header.specs.Frames.{frame_of, frame_size, has_shifts};
ghost use Rattle.jxl_frame_header.specs.Passes.{IsPassCount};
ghost use Rattle.jxl_picture.specs.Orientations.{IsUpright};
ghost use Rattle.jxl_picture.specs.Pictures.{AreChannels, IsWhole};
ghost use Rattle.jxl_picture.specs.declared.limits.Limits.{Limits};
ghost use Rattle.jxl_codestream.specs.FrontParts.{IsReadyFrame, bytes_if, frame_at};
ghost use Rattle.jxl_codestream.specs.Fronts.{end_of};
ghost use Rattle.jxl_patches.specs.SavedParts.{singles_in, slots_of};
ghost use Rattle.jxl_lossless.specs.Frames.{IsFrame};
ghost use Rattle.jxl_layers.specs.Compositions.{AreSinglesIf, IsPictureOf, is_final as the_is_final, picture_size as the_picture_size, slots_after};
ghost use Rattle.jxl_layers.specs.Refusals.{composition_refusal as the_composition_refusal};
ghost use Rattle.jxl_animation.specs.Files.{FileNotOpened, FrameOfFileFails, HasFewerFrames, IsFrameOfFile};
ghost use Rattle.jxl_animation.specs.Inner.Readings.{IsShownIf};

use crate::error::AnimationError;
use jxl_blending::singles::Singles;
use jxl_codestream::error::FrontError;
use jxl_codestream::frame::{FrameFront, FrameStart};
use jxl_coding::decoder::EntropyDecoder;
use jxl_container::codestream::{Codestream, find_codestream};
use jxl_frame_header::frame::FrameHeader;
use jxl_image_header::image::{Animation, ImageHeader};
use jxl_image_header::size::Size;
use jxl_layers::compose::compose;
use jxl_layers::layer::{is_displayed, is_final, is_kept, is_taken, picture_size, spare_cells};
use jxl_layers::opening::Opening;
use jxl_layers::refusal::{composition_refusal, layer_refusal};
use jxl_lossless::frame::FrameInput;
use jxl_lossless::{FileError, Limits, Steps};
use jxl_patches::slots::SavedFrames;
use jxl_picture::picture::Picture;
use jxlm_base::grid::{AlignedGrid, OutOfMemory};
use jxlm_bits::bits::Bitstream;
use std::alloc::Global;

/// A picture that is shown.
#[derive(Drop)]
pub struct ShownFrame {
    /// For how many units of time it is shown.
    pub duration: u32,
    /// Its time code, 0 where the animation has none.
    pub timecode: u32,
    /// Its channels: of colours as large as the picture, before it is turned upright.
    pub channels: Vec<AlignedGrid<i32>>,
}

/// A picture that is shown, upright.
#[derive(Drop)]
pub struct ShownPicture {
    /// For how many units of time it is shown.
    pub duration: u32,
    /// Its time code, 0 where the animation has none.
    pub timecode: u32,
    /// The picture, upright, with the profile of the file.
    pub picture: Picture,
}

/// What the frames are decoded from: the codestream, its headers, and the limits.
#[derive(Drop)]
pub struct Source<'a> {
    /// The codestream.
    pub stream: Codestream<'a>,
    /// The image header.
    pub image: ImageHeader,
    /// The profile that says what colours mean, if there is one.
    pub profile: Option<Vec<u8>>,
    /// The limits that frames are compared with, before memory is taken for them.
    pub limits: Limits,
}

/// The frames of a file that are still to be shown.
#[derive(Drop)]
pub struct FrameDecoder<'a> {
    source: Source<'a>,
    slots: SavedFrames,
    start: usize,
    used: u64,
    is_done: bool,
}

// What the next frame makes: its channels, or those of a picture, and what the samples of a blended picture stood for.
#[derive(Drop)]
struct Made {
    front: FrameFront,
    pictures: Vec<AlignedGrid<i32>>,
    singles: Option<Vec<Singles>>,
}

// The same without the frame.
#[derive(Drop)]
struct Drawn {
    pictures: Vec<AlignedGrid<i32>>,
    singles: Option<Vec<Singles>>,
}

// Copies of these channels.
fn copies(
    alloc: Global,
    channels: &[AlignedGrid<i32>],
) -> Result<Vec<AlignedGrid<i32>>, OutOfMemory>
    ensures { IfOk result (λ v. v.items ≡ channels.now) }
{
    let mut all = Vec::new(alloc);
    for channel in channels {
        let copy = channel.try_clone(alloc)?;
        all.push(copy)?;
    }
    Ok(all)
}

// A copy of what the headers say.
fn copy_of_header(alloc: Global, header: &ImageHeader) -> Result<ImageHeader, OutOfMemory>
    ensures { IfOk result (λ h. image_of h ≡ image_of header.now) }
{
    Ok(ImageHeader {
        size: header.size,
        orientation: header.orientation,
        intrinsic_size: header.intrinsic_size,
        preview: header.preview,
        animation: header.animation,
        bit_depth: header.bit_depth,
        modular_16bit_buffers: header.modular_16bit_buffers,
        ec_info: Vec::from_slice(alloc, &header.ec_info)?,
        xyb_encoded: header.xyb_encoded,
        colour_encoding: header.colour_encoding,
        tone_mapping: header.tone_mapping,
        extensions: header.extensions,
    })
}

// A copy of the profile, if there is one.
fn copy_of_profile(alloc: Global, profile: &Option<Vec<u8>>) -> Result<Option<Vec<u8>>, OutOfMemory>
    ensures { IfOk result (λ p. bytes_if p ≡ bytes_if profile.now) }
{
    match profile {
        Some(bytes) => {
            let copy = Vec::from_slice(alloc, bytes)?;
            Ok(Some(copy))
        }
        None => Ok(None),
    }
}

// Saves what a frame made in a picture of this size, if others may use it.
fn keep(slots: &mut SavedFrames, header: &FrameHeader, size: Size, drawn: Drawn)
    ensures { slots_of slots.new ≡ slots_after size (frame_of header.now) (slots_of slots.old)
        (singles_in drawn.singles) drawn.pictures.items }
{
    if !is_kept(header) {
        return;
    }
    let slot = header.frame_use.save_as_reference;
    let Drawn { pictures, singles } = drawn;
    slots.save_with(slot, picture_size(header, size), pictures, singles);
}

// Saves a copy of it, if others may use it.
fn keep_copy(
    alloc: Global,
    slots: &mut SavedFrames,
    header: &FrameHeader,
    size: Size,
    pictures: &[AlignedGrid<i32>],
    singles: Option<Vec<Singles>>,
) -> Result<(), OutOfMemory>
    ensures ok { IfOk result (λ _. slots_of slots.new
        ≡ slots_after size (frame_of header.now) (slots_of slots.old) (singles_in singles) pictures.now) }
    ensures err { IfErr result (λ _. slots_of slots.new ≡ slots_of slots.old) }
{
    if !is_kept(header) {
        return Ok(());
    }
    let pictures = copies(alloc, pictures)?;
    keep(slots, header, size, Drawn { pictures, singles });
    Ok(())
}

// Saves what a frame made, if others may use it, and returns it if it is shown.
fn keep_and_show(
    alloc: Global,
    slots: &mut SavedFrames,
    header: &FrameHeader,
    size: Size,
    drawn: Drawn,
) -> Result<Option<ShownFrame>, OutOfMemory>
    ensures ok { IfOk result (λ _. slots_of slots.new
        ≡ slots_after size (frame_of header.now) (slots_of slots.old) (singles_in drawn.singles) drawn.pictures.items) }
    ensures shown { IfOk result (IsShownIf (frame_of header.now) drawn.pictures.items) }
    ensures err { IfErr result (λ _. slots_of slots.new ≡ slots_of slots.old) }
{
    if !is_displayed(header) {
        keep(slots, header, size, drawn);
        return Ok(None);
    }
    let Drawn { pictures, singles } = drawn;
    keep_copy(alloc, slots, header, size, &pictures, singles)?;
    Ok(Some(ShownFrame {
        duration: header.frame_use.duration,
        timecode: header.frame_use.timecode,
        channels: pictures,
    }))
}

impl<'a> FrameDecoder<'a> {
    ghost use Rattle.jxl_animation.specs.Decoders.{HasShown, IsDecoderOf, IsNextOfFile, IsReadyDecoder, PictureFails, ShowsPicture, bytes_in, image_in, state_of};
    ghost use Rattle.jxl_animation.specs.States.{ComesNext, EndsBefore, FailsAfter, FailsBy, FailsNext, HeaderGoesOn, ShowsNext, ShowsNth, state_after};
    ghost use Rattle.jxl_animation.specs.Inner.Readings.{GoesOn, IsMade, used_after};

    /// Reads a file, bare or in boxes, up to its first frame.
    ///
    /// # Errors
    ///
    /// The first in the order of the bits: of the boxes up to the end of the codestream, of the image header, or of the
    /// profile; or it is out of memory, within these.
    pub fn new(
        alloc: Global,
        file: &'a [u8],
        limits: &Limits,
    ) -> Result<FrameDecoder<'a>, AnimationError>
        ensures ok { IfOk result (IsDecoderOf limits.now file.now) }
        ensures ready { IfOk result IsReadyDecoder }
        ensures err { IfErr result (FileNotOpened limits.now file.now) }
    {
        let stream = match find_codestream(alloc, file) {
            Ok(found) => found.codestream,
            Err(error) => return Err(AnimationError::File(FileError::File(error))),
        };
        let opening = match Opening::read(alloc, stream.bytes(), limits) {
            Ok(opening) => opening,
            Err(error) => return Err(AnimationError::File(FileError::Front(error))),
        };
        let Opening {
            image,
            profile,
            start,
        } = opening;
        Ok(FrameDecoder {
            source: Source {
                stream,
                image,
                profile,
                limits: *limits,
            },
            slots: SavedFrames::none(),
            start,
            used: 0,
            is_done: false,
        })
    }

    /// What the frames are decoded from.
    pub fn source(&self) -> &Source<'a>
        ensures { result.now ≡ self.now.source }
    {
        &self.source
    }

    /// When the pictures change, and how often they are shown; none where the file is no animation.
    pub fn animation(&self) -> Option<Animation>
        ensures { result ≡ (image_in self.now.source).animation }
    {
        self.source.image.animation
    }

    /// Whether no frame is left.
    pub fn is_done(&self) -> bool
        ensures { result ≡ (state_of self.now).done }
    {
        self.is_done
    }

    // The header of the next frame, which is supported and can be composed.
    fn read_header(
        &self,
        alloc: Global,
        bits: &mut Bitstream<'_>,
    ) -> Result<FrameHeader, AnimationError>
        requires begin { position_of bits.old ≡ 0 }
        requires lies { bytes_of bits.old ≡ drop self.now.start (bytes_in self.now.source) }
        ensures ok { IfOk result (λ h. HeaderGoesOn self.now.source.limits (bytes_in self.now.source)
            (image_in self.now.source) (state_of self.now) (frame_of h) (position_of bits.new)) }
        ensures plain { IfOk result (λ h. (h.coding.flags.patches && has_shifts (image_in self.now.source)) ≡ false) }
        ensures dim { IfOk result (λ h. IsGroupDim h.group_dim) }
        ensures counted { IfOk result (λ h. IsPassCount h.passes.num_passes) }
        ensures err { IfErr result (FailsNext self.now.source.limits (bytes_in self.now.source)
            (image_in self.now.source) (state_of self.now)) }
        ensures bytes { bytes_of bits.new ≡ bytes_of bits.old }
    {
        let image = &self.source.image;
        let header = match FrameHeader::parse(alloc, bits, image) {
            Ok(header) => header,
            Err(error) => return Err(AnimationError::File(FileError::Front(FrontError::FrameHeader(
                error,
            )))),
        };
        if let Some(reason) = layer_refusal(&header, image) {
            return Err(AnimationError::File(FileError::Front(FrontError::Frame(reason))));
        }
        if let Some(error) = composition_refusal(&header, image, &self.slots) {
            return Err(AnimationError::Layer(error));
        }
        Ok(header)
    }

    // What the next frame has before its sections.
    fn read_front(&self, alloc: Global) -> Result<FrameFront, AnimationError>
        requires ready { IsReadyDecoder self.now }
        requires going { self.now.is_done ≡ false }
        ensures ok { IfOk result (λ f. ComesNext self.now.source.limits (bytes_in self.now.source)
            (image_in self.now.source) (state_of self.now) (frame_at f)) }
        ensures ready { IfOk result (IsReadyFrame (bytes_in self.now.source) (image_in self.now.source)) }
        ensures err { IfErr result (FailsNext self.now.source.limits (bytes_in self.now.source)
            (image_in self.now.source) (state_of self.now)) }
    {
        let bytes = self.source.stream.bytes();
        let mut bits = Bitstream::new(&bytes[self.start..]);
        let header = self.read_header(alloc, &mut bits)?;
        let spare = spare_cells(&self.source.image, &header);
        if spare > self.source.limits.pixels - self.used {
            return Err(AnimationError::File(FileError::Front(FrontError::FramesTooLarge)));
        }
        let place = FrameStart {
            bytes,
            limits: &self.source.limits,
            image: &self.source.image,
            start: self.start,
            used: self.used + spare,
        };
        match place.read_parts::<EntropyDecoder>(alloc, header, bits) {
            Ok(front) => Ok(front),
            Err(error) => Err(AnimationError::File(FileError::Front(error))),
        }
    }

    // The channels of the next frame.
    fn decode(
        &self,
        alloc: Global,
        front: &FrameFront,
        steps: &mut Steps,
    ) -> Result<Vec<AlignedGrid<i32>>, AnimationError>
        requires ready { IsReadyDecoder self.now }
        requires frame { IsReadyFrame (bytes_in self.now.source) (image_in self.now.source) front.now }
        requires comes { ComesNext self.now.source.limits (bytes_in self.now.source)
            (image_in self.now.source) (state_of self.now) (frame_at front.now) }
        ensures ok { IfOk result (λ v. IsFrame (entropy decoder_at) (image_in self.now.source) (slots_of self.now.slots)
            (bytes_in self.now.source) (frame_at front.now) v.items steps.old steps.new) }
        ensures sides { IfOk result (λ v. AreChannels (image_in self.now.source)
            (frame_size self.now.source.image.size (frame_of front.now.header)) v.items) }
        ensures err { IfErr result (FailsNext self.now.source.limits (bytes_in self.now.source)
            (image_in self.now.source) (state_of self.now)) }
    {
        let input = FrameInput {
            bytes: self.source.stream.bytes(),
            image: &self.source.image,
            frame: front,
            slots: &self.slots,
        };
        match input.decode_entropy_coded::<()>(alloc, steps, &mut ()) {
            Ok(channels) => Ok(channels),
            Err(error) => Err(AnimationError::File(error)),
        }
    }

    // What a frame with these channels makes.
    fn picture(
        &self,
        alloc: Global,
        header: &FrameHeader,
        channels: Vec<AlignedGrid<i32>>,
    ) -> Result<Drawn, OutOfMemory>
        requires ready { IsReadyDecoder self.now }
        requires sides { AreChannels (image_in self.now.source)
            (frame_size self.now.source.image.size (frame_of header.now)) channels.items }
        requires composable { the_composition_refusal (image_in self.now.source) (frame_of header.now)
            (slots_of self.now.slots) ≡ None }
        ensures made { IfOk result (λ d. IsPictureOf (image_in self.now.source) (frame_of header.now)
            (slots_of self.now.slots) channels.items (singles_in d.singles) d.pictures.items) }
        ensures sides { IfOk result (λ d. AreChannels (image_in self.now.source)
            (the_picture_size self.now.source.image.size (frame_of header.now)) d.pictures.items) }
        ensures singles { IfOk result (λ d. AreSinglesIf
            (the_picture_size self.now.source.image.size (frame_of header.now)) (singles_in d.singles)) }
    {
        if is_taken(header) {
            return Ok(Drawn {
                pictures: channels,
                singles: None,
            });
        }
        let composite = compose(alloc, &self.source.image, header, &self.slots, &channels)?;
        Ok(Drawn {
            pictures: composite.channels,
            singles: Some(composite.singles),
        })
    }

    // Reads, decodes and composes the next frame.
    fn make(&self, alloc: Global, steps: &mut Steps) -> Result<Made, AnimationError>
        requires ready { IsReadyDecoder self.now }
        requires going { self.now.is_done ≡ false }
        ensures ok { IfOk result (λ m. GoesOn self.now m steps.old steps.new) }
        ensures made { IfOk result (IsMade self.now) }
        ensures err { IfErr result (FailsNext self.now.source.limits (bytes_in self.now.source)
            (image_in self.now.source) (state_of self.now)) }
    {
        let front = self.read_front(alloc)?;
        let channels = self.decode(alloc, &front, steps)?;
        let drawn = self.picture(alloc, &front.header, channels)?;
        let Drawn { pictures, singles } = drawn;
        Ok(Made {
            front,
            pictures,
            singles,
        })
    }

    // How many cells count after a frame.
    fn used_with(&self, front: &FrameFront) -> u64
        requires within { used_after self.now front.now ≤ self.now.source.limits.pixels }
        ensures { result ≡ used_after self.now front.now }
    {
        let image = &self.source.image;
        let most = self.source.limits.pixels;
        let used = self.used + spare_cells(image, &front.header);
        front.cells_with(image, used, most)
    }

    // The byte where a frame ends.
    fn end(&self, front: &FrameFront) -> usize
        requires ready { IsReadyFrame (bytes_in self.now.source) (image_in self.now.source) front.now }
        ensures end { result ≡ front.now.start + end_of front.now.toc.entries.items }
        ensures inside { result ≤ length (bytes_in self.now.source) }
    {
        front.end(self.source.stream.bytes(), &self.source.image)
    }

    // Goes to the end of a frame.
    fn pass(&mut self, front: &FrameFront)
        requires ready { IsReadyFrame (bytes_in self.old.source) (image_in self.old.source) front.now }
        requires within { used_after self.old front.now ≤ self.old.source.limits.pixels }
        ensures source { self.new.source ≡ self.old.source }
        ensures slots { self.new.slots ≡ self.old.slots }
        ensures start { self.new.start ≡ front.now.start + end_of front.now.toc.entries.items }
        ensures inside { self.new.start ≤ length (bytes_in self.old.source) }
        ensures used { self.new.used ≡ used_after self.old front.now }
        ensures done { self.new.is_done ≡ the_is_final (frame_of front.now.header) }
    {
        let used = self.used_with(front);
        let start = self.end(front);
        self.used = used;
        self.start = start;
        self.is_done = is_final(&front.header);
    }

    // Saves what a frame made, if others may use it, and goes to its end; returns it if it is shown.
    fn finish(&mut self, alloc: Global, made: Made) -> Result<Option<ShownFrame>, OutOfMemory>
        requires ready { IsReadyDecoder self.old }
        requires made { IsMade self.old made }
        ensures source { self.new.source ≡ self.old.source }
        ensures ready { IsReadyDecoder self.new }
        ensures state { IfOk result (λ _. state_of self.new ≡ state_after (image_in self.old.source)
            (state_of self.old) (frame_at made.front) (singles_in made.singles) made.pictures.items) }
        ensures shown { IfOk result (IsShownIf (frame_of made.front.header) made.pictures.items) }
        ensures whole { IfOk result (λ r. IfSome r (λ shown. IsWhole (image_in self.old.source) shown.channels.items)) }
        ensures err { IfErr result (λ _. state_of self.new ≡ state_of self.old) }
    {
        let Made {
            front,
            pictures,
            singles,
        } = made;
        let size = self.source.image.size;
        let drawn = Drawn { pictures, singles };
        let shown = keep_and_show(alloc, &mut self.slots, &front.header, size, drawn)?;
        self.pass(&front);
        Ok(shown)
    }

    /// The next picture that is shown, or none after the last one: frames that are not shown are passed. Each is decoded
    /// with patches of what the slots hold, composed with it as the headers say, and saved for others if they may use it.
    ///
    /// # Errors
    ///
    /// The first in the order of the frames, by its name; and `OutOfMemory` at any time. The decoder is then before the
    /// frame that has the error. Sizes are compared with the limits before memory is taken for samples.
    pub fn next(
        &mut self,
        alloc: Global,
        steps: &mut Steps,
    ) -> Result<Option<ShownFrame>, AnimationError>
        requires ready { IsReadyDecoder self.old }
        ensures ok { IfOk result (λ r. MatchOption r
            ((self.old.is_done ≡ true) × (self.new ≡ self.old) × (steps.new ≡ steps.old))
            (λ shown. ShowsNext self.old.source.limits (bytes_in self.old.source) (image_in self.old.source)
            (state_of self.old) shown (state_of self.new) steps.old steps.new)) }
        ensures whole { IfOk result (λ r. IfSome r (λ shown. IsWhole (image_in self.old.source) shown.channels.items)) }
        ensures err { IfErr result (FailsAfter self.old.source.limits (bytes_in self.old.source)
            (image_in self.old.source) (state_of self.old) (state_of self.new) steps.old) }
        ensures source { self.new.source ≡ self.old.source }
        ensures ready { IsReadyDecoder self.new }
    {
        if self.is_done {
            return Ok(None);
        }
        for _ in 0..u64::MAX {
            let made = self.make(alloc, steps)?;
            let picture = self.finish(alloc, made)?;
            if let Some(shown) = picture {
                return Ok(Some(shown));
            }
        }
        Err(AnimationError::File(FileError::OutOfMemory))
    }

    /// The picture with this number among those that are shown, from 0 on; or none if there are fewer. Those before it are
    /// passed.
    ///
    /// # Errors
    ///
    /// As of `next`, of this picture and those before it.
    pub fn nth(
        &mut self,
        alloc: Global,
        number: u32,
        steps: &mut Steps,
    ) -> Result<Option<ShownFrame>, AnimationError>
        requires ready { IsReadyDecoder self.old }
        ensures ok { IfOk result (λ r. MatchOption r
            (EndsBefore self.old.source.limits (bytes_in self.old.source) (image_in self.old.source)
            (state_of self.old) number (state_of self.new) steps.old steps.new)
            (λ shown. ShowsNth self.old.source.limits (bytes_in self.old.source) (image_in self.old.source)
            (state_of self.old) number shown (state_of self.new) steps.old steps.new)) }
        ensures whole { IfOk result (λ r. IfSome r (λ shown. IsWhole (image_in self.old.source) shown.channels.items)) }
        ensures err { IfErr result (FailsBy self.old.source.limits (bytes_in self.old.source)
            (image_in self.old.source) (state_of self.old) number (state_of self.new) steps.old) }
        ensures source { self.new.source ≡ self.old.source }
        ensures ready { IsReadyDecoder self.new }
    {
        for passed in 0..number {
            let picture = self.next(alloc, steps)?;
            let Some(_frame) = picture else {
                return Ok(None);
            };
        }
        let last = self.next(alloc, steps)?;
        Ok(last)
    }

    /// These channels as a picture, upright, with copies of what the headers say of it and of the profile.
    pub fn to_picture(
        &self,
        alloc: Global,
        channels: Vec<AlignedGrid<i32>>,
    ) -> Result<Picture, OutOfMemory>
        ensures upright { IfOk result (λ p. IsUpright (image_in self.now.source) channels.items (image_of p.header)
            p.channels.items) }
        ensures profile { IfOk result (λ p. bytes_if p.profile ≡ bytes_if self.now.source.profile) }
    {
        let header = copy_of_header(alloc, &self.source.image)?;
        let profile = copy_of_profile(alloc, &self.source.profile)?;
        let coded = Picture {
            header,
            channels,
            profile,
        };
        let shown = coded.upright(alloc)?;
        Ok(shown)
    }

    /// The next picture that is shown, upright, or none after the last one.
    ///
    /// # Errors
    ///
    /// As of `next`. If memory is short for the upright picture alone, the decoder has passed this picture.
    pub fn next_picture(
        &mut self,
        alloc: Global,
        steps: &mut Steps,
    ) -> Result<Option<ShownPicture>, AnimationError>
        requires ready { IsReadyDecoder self.old }
        ensures ok { IfOk result (λ r. MatchOption r
            ((self.old.is_done ≡ true) × (self.new ≡ self.old) × (steps.new ≡ steps.old))
            (λ shown. ShowsPicture self.old shown self.new steps.old steps.new)) }
        ensures whole { IfOk result (λ r. IfSome r (λ shown. IsWhole (image_of shown.picture.header)
            shown.picture.channels.items)) }
        ensures err { IfErr result (PictureFails self.old self.new steps.old steps.new) }
        ensures of_file { (limits : Limits) (file : List ℕ) (number : ℕ) → HasShown limits file number steps.old self.old
            → IsNextOfFile limits file number self.new steps.new result }
        ensures source { self.new.source ≡ self.old.source }
        ensures ready { IsReadyDecoder self.new }
    {
        let next = self.next(alloc, steps)?;
        let Some(frame) = next else {
            return Ok(None);
        };
        let picture = self.to_picture(alloc, frame.channels)?;
        Ok(Some(ShownPicture {
            duration: frame.duration,
            timecode: frame.timecode,
            picture,
        }))
    }

    /// These channels as a picture, upright, with what the headers say of it.
    pub fn into_picture(
        self,
        alloc: Global,
        channels: Vec<AlignedGrid<i32>>,
    ) -> Result<Picture, OutOfMemory>
        ensures upright { IfOk result (λ p. IsUpright (image_in self.entry.source) channels.items (image_of p.header)
            p.channels.items) }
        ensures profile { IfOk result (λ p. p.profile ≡ self.entry.source.profile) }
    {
        let FrameDecoder { source, .. } = self;
        let Source { image, profile, .. } = source;
        let coded = Picture {
            header: image,
            channels,
            profile,
        };
        let shown = coded.upright(alloc)?;
        Ok(shown)
    }
}

/// The picture with this number among those that a file shows, from 0 on, upright; or none if it shows fewer.
///
/// # Errors
///
/// As of `FrameDecoder::new`, and of `FrameDecoder::nth`.
pub fn decode_frame(
    alloc: Global,
    file: &[u8],
    number: u32,
    limits: &Limits,
) -> Result<Option<Picture>, AnimationError>
    ensures ok { IfOk result (λ r. MatchOption r (HasFewerFrames limits.now file.now number)
        (IsFrameOfFile limits.now file.now number)) }
    ensures whole { IfOk result (λ r. IfSome r (λ p. IsWhole (image_of p.header) p.channels.items)) }
    ensures err { IfErr result (FrameOfFileFails limits.now file.now number) }
{
    let mut steps = Steps::new();
    let mut decoder = FrameDecoder::new(alloc, file, limits)?;
    let shown = decoder.nth(alloc, number, &mut steps)?;
    let Some(frame) = shown else {
        return Ok(None);
    };
    let picture = decoder.into_picture(alloc, frame.channels)?;
    Ok(Some(picture))
}
