//! What is made of the bytes of the input, command by command.
ghost use Rattle.std.specs.Prelude.{◌<◌, pos, MatchResult};
ghost use Rattle.jxlm_transform.specs.Params.{IsGroupDim};
ghost use Rattle.jxlmod_commands.specs.Arguments.{ArePossible};
ghost use Rattle.jxlmod_commands.specs.Channels.{channels_asked};
ghost use Rattle.jxlmod_commands.specs.PictureText.{IsCutPictureText, IsPictureText, width_of};
ghost use Rattle.jxlmod_commands.specs.Printed.{IsCutPictureError, IsOfImage, IsPictureError, PrintGives};

use crate::arguments::{Command, Format, Samples};
use crate::encoding::encode_text;
use crate::picture::{cut_picture_text, picture_text};
use crate::refusal::Refusal;
use crate::run::Print;
use jxlm_bits::decoder::Decoder;
use jxlm_plain::plain::PlainDecoder;
use jxlm_plain::plain2::PlainDecoder2;
use std::alloc::Global;

/// What is printed of one part, by the format of a decoder.
fn part_made<D: Decoder>(
    alloc: Global,
    bytes: &[u8],
    width: u32,
    height: u32,
    channels: u32,
    bit_depth: u32,
    samples: Samples,
) -> Result<Vec<u8>, Refusal>
    requires some { 0 < channels }
    requires possible { ArePossible width height channels bit_depth }
    ensures { MatchResult result
        (λ made. IsPictureText D.meaning (width_of samples) width height channels bytes.now bit_depth made.items)
        (λ refusal. IsOfImage (IsPictureError D.meaning (width_of samples) width height channels bytes.now) refusal) }
{
    let text = match samples {
        Samples::I16 => {
            picture_text::<i16, D>(alloc, bytes, width, height, channels, bit_depth)?
        }
        Samples::I32 => {
            picture_text::<i32, D>(alloc, bytes, width, height, channels, bit_depth)?
        }
    };
    Ok(text.into_bytes())
}

/// What is printed of sections, by the format of a decoder.
fn sections_made<D: Decoder>(
    alloc: Global,
    bytes: &[u8],
    width: u32,
    height: u32,
    channels: u32,
    bit_depth: u32,
    samples: Samples,
    group_dim: u32,
) -> Result<Vec<u8>, Refusal>
    requires some { 0 < channels }
    requires possible { ArePossible width height channels bit_depth }
    requires side { IsGroupDim group_dim }
    ensures { MatchResult result
        (λ made. IsCutPictureText D.meaning (width_of samples) (channels_asked width height channels) group_dim
        bit_depth bytes.now made.items)
        (λ refusal. IsOfImage (IsCutPictureError D.meaning (width_of samples) (λ v. v) (pos 0)
        (channels_asked width height channels) group_dim bit_depth bytes.now) refusal) }
{
    let text = match samples {
        Samples::I16 => cut_picture_text::<i16, D>(
            alloc, bytes, width, height, channels, bit_depth, group_dim,
        )?,
        Samples::I32 => cut_picture_text::<i32, D>(
            alloc, bytes, width, height, channels, bit_depth, group_dim,
        )?,
    };
    Ok(text.into_bytes())
}

/// Decodes and encodes by the formats of the plain decoders: a header and the samples of one part, or a row of sections.
#[derive(Clone, Copy)]
pub struct PartPrinter;

impl Print for PartPrinter {
    ghost may_return = { PrintGives };

    fn print(&self, alloc: Global, bytes: &[u8], command: Command) -> Result<Vec<u8>, Refusal> {
        match command {
            Command::Decode {
                format,
                width,
                height,
                channels,
                bit_depth,
                samples,
            } => match format {
                Format::First => part_made::<PlainDecoder>(
                    alloc, bytes, width, height, channels, bit_depth, samples,
                ),
                Format::Second => part_made::<PlainDecoder2>(
                    alloc, bytes, width, height, channels, bit_depth, samples,
                ),
            },
            Command::Sections {
                format,
                width,
                height,
                channels,
                bit_depth,
                samples,
                group_dim,
            } => match format {
                Format::First => sections_made::<PlainDecoder>(
                    alloc, bytes, width, height, channels, bit_depth, samples, group_dim,
                ),
                Format::Second => sections_made::<PlainDecoder2>(
                    alloc, bytes, width, height, channels, bit_depth, samples, group_dim,
                ),
            },
            Command::Encode { format, samples } => match samples {
                Samples::I16 => encode_text::<i16>(alloc, bytes, format),
                Samples::I32 => encode_text::<i32>(alloc, bytes, format),
            },
        }
    }
}
