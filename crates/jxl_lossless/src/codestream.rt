//! The frames of a codestream.

ghost use Rattle.std.specs.Prelude.{List, [], ◌∷◌, ◌++◌, map, IfErr, IfOk};
ghost use Rattle.jxl_coding.specs.Parse.{decoder_at};
ghost use Rattle.jxl_coding.specs.Tokens.{entropy};
ghost use Rattle.jxl_image_header.specs.Images.{image_of};
ghost use Rattle.jxl_codestream.specs.FrontParts.{IsReady, frame_at};
ghost use Rattle.jxl_picture.specs.Pictures.{IsWhole};
ghost use Rattle.jxl_patches.specs.Slots.{no_slots};
ghost use Rattle.jxl_patches.specs.SavedParts.{slots_of};
ghost use Rattle.jxl_lossless.specs.Saved.{AreDecoded, AreSaved, FramesFail, HoldChannels};

use crate::error::FileError;
use crate::frame::FrameInput;
use jxl_codestream::front::Frames;
use jxl_coding::decoder::EntropyDecoder;
use jxl_image_header::image::ImageHeader;
use jxl_modular::sections::Progress;
use jxl_patches::slots::SavedFrames;
use jxlm_base::grid::AlignedGrid;
use jxlm_bits::decoder::Decoder;
use jxlm_tree::flat::Steps;
use std::alloc::Global;

/// What the frames of a codestream are decoded from: its bytes, its image header, and what it has of the frames before
/// their sections.
#[derive(Clone, Copy)]
pub struct CodestreamInput<'a> {
    /// The bytes of the codestream.
    pub bytes: &'a [u8],
    /// The image header.
    pub image: &'a ImageHeader,
    /// The frames, before their sections.
    pub frames: &'a Frames,
}

impl CodestreamInput<'_> {
    // Decodes the frames that are saved for others, and returns what the four slots hold then: each the last frame that
    // was saved in it, or none.
    fn decode_saved<D: Decoder, P: Progress>(
        self,
        alloc: Global,
        steps: &mut Steps,
        progress: &mut P,
    ) -> Result<SavedFrames, FileError>
        requires ready { IsReady self.bytes.now self.image.now self.frames.now }
        ensures ok { IfOk result (λ s. AreSaved D.meaning self.entry.bytes.now (image_of self.entry.image.now)
            (map frame_at self.entry.frames.now.saved.items) no_slots (slots_of s) steps.old steps.new) }
        ensures held { IfOk result (λ s. HoldChannels (image_of self.entry.image.now) (slots_of s)) }
        ensures err { IfErr result (FramesFail D.meaning self.entry.bytes.now (image_of self.entry.image.now)
            (map frame_at self.entry.frames.now.saved.items ++ frame_at self.entry.frames.now.shown ∷ [])) }
    {
        let mut slots = SavedFrames::none();
        for frame in &self.frames.saved {
            let input = FrameInput {
                bytes: self.bytes,
                image: self.image,
                frame,
                slots: &slots,
            };
            let channels = input.decode::<D, P>(alloc, steps, progress)?;
            let size = frame.header.size(self.image.size);
            slots.save(frame.header.frame_use.save_as_reference, size, channels);
        }
        Ok(slots)
    }

    /// The channels of the frame that is shown, with patches of the saved frames.
    pub fn decode_shown<P: Progress>(
        self,
        alloc: Global,
        steps: &mut Steps,
        progress: &mut P,
    ) -> Result<Vec<AlignedGrid<i32>>, FileError>
        requires ready { IsReady self.bytes.now self.image.now self.frames.now }
        ensures ok { IfOk result (λ v. AreDecoded (entropy decoder_at) self.entry.bytes.now
            (image_of self.entry.image.now) (map frame_at self.entry.frames.now.saved.items)
            (frame_at self.entry.frames.now.shown) v.items steps.old steps.new) }
        ensures whole { IfOk result (λ v. IsWhole (image_of self.entry.image.now) v.items) }
        ensures err { IfErr result (FramesFail (entropy decoder_at) self.entry.bytes.now
            (image_of self.entry.image.now)
            (map frame_at self.entry.frames.now.saved.items ++ frame_at self.entry.frames.now.shown ∷ [])) }
    {
        let slots = self.decode_saved::<EntropyDecoder, P>(alloc, steps, progress)?;
        let shown = FrameInput {
            bytes: self.bytes,
            image: self.image,
            frame: &self.frames.shown,
            slots: &slots,
        };
        shown.decode::<EntropyDecoder, P>(alloc, steps, progress)
    }
}
