//! A frame of a codestream, by its sections.

ghost use Rattle.std.specs.Prelude.{◌≡◌, pos, ℤ, IfErr, IfOk};
ghost use Rattle.std.specs.Int.{w32};
ghost use Rattle.jxlm_bits.specs.Bits.{bytes_of, position_of};
ghost use Rattle.jxl_image_header.specs.Images.{image_of};
ghost use Rattle.jxl_frame_header.specs.Frames.{frame_of};
ghost use Rattle.jxl_coding.specs.Parse.{decoder_at};
ghost use Rattle.jxl_coding.specs.Tokens.{entropy};
ghost use Rattle.jxl_codestream.specs.FrontParts.{frame_at};
ghost use Rattle.jxl_modular.specs.Image.{image_grids};
ghost use Rattle.jxl_picture.specs.Pictures.{AreChannels, colour_count};
ghost use Rattle.jxlm_transform.specs.Channels.{AreGridsOf};
ghost use Rattle.jxl_lossless.specs.Frames.{FrameFails, IsFrame};
ghost use Rattle.jxl_lossless.specs.Inner.Coded.{IsMade, MadeFails};
ghost use Rattle.jxl_lossless.specs.Inner.Given.{in_file, of_file};

use crate::error::FileError;
use crate::sections::sections;
use crate::still::decode::decode_frame;
use crate::still::places::Places;
use crate::tree::shared_tree;
use jxl_codestream::frame::FrameFront;
use jxl_coding::decoder::EntropyDecoder;
use jxl_image_header::channel::ExtraChannel;
use jxl_image_header::image::ImageHeader;
use jxl_image_header::size::Size;
use jxl_modular::image::ModularImageDestination;
use jxl_modular::sections::Progress;
use jxl_patches::patches::{put_patches, read_patches};
use jxl_patches::slots::SavedFrames;
use jxl_picture::picture::colours;
use jxlm_base::grid::{AlignedGrid, OutOfMemory};
use jxlm_base::sample::Sample;
use jxlm_bits::bits::Bitstream;
use jxlm_bits::decoder::Decoder;
use jxlm_transform::param::{
    ChannelShift, GradientSums, ModularChannelParams, ModularParams, PaletteTables,
};
use jxlm_tree::flat::Steps;
use std::alloc::Global;

// A channel of this shift in a frame of this size, with the tables of palettes and the sums that files hold.
fn channel_of(size: Size, shift: u32) -> ModularChannelParams
    ensures { result ≡ in_file size.width size.height shift }
{
    let shift = ChannelShift::from_shift(shift);
    ModularChannelParams::with_shift(size.width, size.height, shift)
        .with_palette_tables(PaletteTables::OfDeltasToo)
        .with_gradient_sums(GradientSums::Clamped)
}

// Channels of a frame of this size: this number of of colours, and the extra ones, each of its own shift.
fn channel_list(
    alloc: Global,
    size: Size,
    colours: usize,
    extra: &[ExtraChannel],
) -> Result<Vec<ModularChannelParams>, OutOfMemory>
    ensures list { IfOk result (λ v. v.items ≡ of_file colours extra.now size.width size.height) }
{
    let colour = channel_of(size, 0);
    let mut list = vec![in alloc; colour; colours]?;
    for channel in extra {
        list.push(channel_of(size, channel.dim_shift))?;
    }
    Ok(list)
}

// The channels of a frame of this size.
fn channels_of(
    alloc: Global,
    image: &ImageHeader,
    size: Size,
) -> Result<Vec<ModularChannelParams>, OutOfMemory>
    ensures list { IfOk result (λ v. v.items
        ≡ of_file (colour_count (image_of image.now)) image.now.ec_info.items size.width size.height) }
{
    channel_list(alloc, size, colours(image), &image.ec_info)
}

/// What a frame is decoded from: the codestream, its image header, what it has of the frame before the sections, and
/// the frames that were saved before it.
#[derive(Clone, Copy)]
pub struct FrameInput<'a> {
    /// The bytes of the codestream.
    pub bytes: &'a [u8],
    /// The image header.
    pub image: &'a ImageHeader,
    /// The header of the frame, how it is cut, where its sections lie, and how deep the tree may be that they share.
    pub frame: &'a FrameFront,
    /// The frames that were saved before it.
    pub slots: &'a SavedFrames,
}

impl FrameInput<'_> {
    ghost use Rattle.jxl_lossless.specs.Inputs.{IsReadyInput, image_in, size_of, slots_in};

    // How large the frame is.
    fn size(self) -> Size
        ensures { result ≡ size_of self.entry }
    {
        self.frame.header.size(self.image.size)
    }

    /// The channels of the frame, with samples of 32 bits and with patches of the frames that were saved before it.
    pub fn decode<D: Decoder, P: Progress>(
        self,
        alloc: Global,
        steps: &mut Steps,
        progress: &mut P,
    ) -> Result<Vec<AlignedGrid<i32>>, FileError>
        requires ready { IsReadyInput self }
        ensures ok { IfOk result (λ v. IsFrame D.meaning (image_in self.entry) (slots_in self.entry)
            self.entry.bytes.now (frame_at self.entry.frame.now) v.items steps.old steps.new) }
        ensures sides { IfOk result (λ v. AreChannels (image_in self.entry) (size_of self.entry) v.items) }
        ensures err { IfErr result (FrameFails D.meaning (image_in self.entry) (slots_in self.entry)
            self.entry.bytes.now (frame_at self.entry.frame.now)) }
    {
        let frame = self.frame;
        let list = sections(alloc, &self.bytes[frame.start..], &frame.toc.entries)?;
        let passes = frame.header.passes.shifts(alloc)?;
        let cut = SectionsInput {
            input: self,
            first: list[0],
            places: Places {
                layout: &frame.layout,
                sections: &list,
                passes: &passes,
            },
        };
        cut.decode_patched::<D, P>(alloc, steps, progress)
    }

    /// The same by the codes of JPEG XL: crates above that call this share one copy of the loops over samples.
    pub fn decode_entropy_coded<P: Progress>(
        self,
        alloc: Global,
        steps: &mut Steps,
        progress: &mut P,
    ) -> Result<Vec<AlignedGrid<i32>>, FileError>
        requires ready { IsReadyInput self }
        ensures ok { IfOk result (λ v. IsFrame (entropy decoder_at) (image_in self.entry) (slots_in self.entry)
            self.entry.bytes.now (frame_at self.entry.frame.now) v.items steps.old steps.new) }
        ensures sides { IfOk result (λ v. AreChannels (image_in self.entry) (size_of self.entry) v.items) }
        ensures err { IfErr result (FrameFails (entropy decoder_at) (image_in self.entry) (slots_in self.entry)
            self.entry.bytes.now (frame_at self.entry.frame.now)) }
    {
        self.decode::<EntropyDecoder, P>(alloc, steps, progress)
    }
}

// What the sections of a frame are decoded from: its input, its first section, and all by number.
#[derive(Clone, Copy)]
struct SectionsInput<'a, 't> {
    input: FrameInput<'t>,
    first: &'a [u8],
    places: Places<'a, 't>,
}

impl<'a> SectionsInput<'a, '_> {
    ghost use Rattle.jxl_lossless.specs.Inputs.{image_in, size_of, slots_in};
    ghost use Rattle.jxl_lossless.specs.Inner.Inputs.{CodedOf, CodedOfFails, IsReadyCut, given_of};

    // The channels of the frame, with its patches.
    fn decode_patched<D: Decoder, P: Progress>(
        self,
        alloc: Global,
        steps: &mut Steps,
        progress: &mut P,
    ) -> Result<Vec<AlignedGrid<i32>>, FileError>
        requires ready { IsReadyCut self }
        ensures ok { IfOk result (λ v. IsMade D.meaning (image_in self.entry.input) (slots_in self.entry.input)
            (frame_of self.entry.input.frame.now.header) self.entry.input.frame.now.trees self.entry.first.now
            self.entry.places v.items steps.old steps.new) }
        ensures sides { IfOk result (λ v. AreChannels (image_in self.entry.input) (size_of self.entry.input)
            v.items) }
        ensures err { IfErr result (MadeFails D.meaning (image_in self.entry.input) (slots_in self.entry.input)
            (frame_of self.entry.input.frame.now.header) self.entry.input.frame.now.trees self.entry.first.now
            self.entry.places) }
    {
        let image = self.input.image;
        let size = self.input.size();
        let there = self.input.frame.header.coding.flags.patches;
        let slots = self.input.slots;
        let extra = image.ec_info.len();
        let mut bits = Bitstream::new(self.first);
        let patches = match read_patches::<D>(alloc, &mut bits, there, size, extra, slots) {
            Ok(patches) => patches,
            Err(error) => return Err(FileError::Patches(error)),
        };
        let mut channels = self.decode_grids::<D, P>(alloc, bits, steps, progress)?;
        if !there {
            return Ok(channels);
        }
        put_patches(
            alloc,
            &patches,
            image,
            size,
            colours(image),
            extra,
            slots,
            &mut channels,
        )?;
        Ok(channels)
    }

    // The channels of the frame without its patches, by its first section, from the reader's position on, and those of
    // its groups.
    fn decode_grids<D: Decoder, P: Progress>(
        self,
        alloc: Global,
        bits: Bitstream<'a>,
        steps: &mut Steps,
        progress: &mut P,
    ) -> Result<Vec<AlignedGrid<i32>>, FileError>
        requires ready { IsReadyCut self }
        ensures ok { IfOk result (λ v. CodedOf D.meaning w32 self.entry (bytes_of bits.entry)
            (position_of bits.entry) v.items steps.old steps.new) }
        ensures sides { IfOk result (λ v. AreGridsOf (given_of self.entry.input).channels v.items) }
        ensures err { IfErr result (CodedOfFails D.meaning w32 self.entry (bytes_of bits.entry)
            (position_of bits.entry)) }
    {
        let decoded = self.decode_coded::<i32, D, P>(alloc, bits, steps, progress)?;
        Ok(decoded.into_image_channels())
    }

    // Its image, with samples of any kind.
    fn decode_coded<S: Sample, D: Decoder, P: Progress>(
        self,
        alloc: Global,
        mut bits: Bitstream<'a>,
        steps: &mut Steps,
        progress: &mut P,
    ) -> Result<ModularImageDestination<S, D>, FileError>
        requires ready { IsReadyCut self }
        ensures ok { IfOk result (λ x. CodedOf D.meaning S.width self.entry
            (bytes_of bits.entry) (position_of bits.entry) (image_grids S.to_int x) steps.old steps.new) }
        ensures sides { IfOk result (λ x. AreGridsOf (given_of self.entry.input).channels (image_grids S.to_int x)) }
        ensures err { IfErr result (CodedOfFails D.meaning S.width self.entry
            (bytes_of bits.entry) (position_of bits.entry)) }
    {
        let image = self.input.image;
        let size = self.input.size();
        let channels = colours(image) + image.ec_info.len();
        let trees = self.input.frame.trees;
        let tree = shared_tree::<D>(alloc, &mut bits, size, channels, trees.depth)?;
        let list = channels_of(alloc, image, size)?;
        let depth = image.bit_depth.bits_per_sample;
        let dim = self.input.frame.header.group_dim;
        let params = ModularParams::with_channels(dim, depth, list, tree.as_ref());
        let places = self.places;
        match decode_frame::<S, D, P>(alloc, bits, params, places, trees, steps, progress) {
            Ok(Some(image)) => Ok(image),
            Ok(None) => unreachable!(),
            Err(error) => Err(FileError::Samples(error)),
        }
    }
}
