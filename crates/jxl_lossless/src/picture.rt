//! The picture of a codestream whose headers were read.

ghost use Rattle.std.specs.Prelude.{◌≡◌, List, [], ◌∷◌, ◌++◌, map, IfErr, IfOk};
ghost use Rattle.jxl_coding.specs.Parse.{decoder_at};
ghost use Rattle.jxl_coding.specs.Tokens.{entropy};
ghost use Rattle.jxl_image_header.specs.Images.{image_of};
ghost use Rattle.jxl_codestream.specs.FrontParts.{IsReady, frame_at};
ghost use Rattle.jxl_picture.specs.Pictures.{IsWhole};
ghost use Rattle.jxl_lossless.specs.Saved.{FramesFail};
ghost use Rattle.jxl_lossless.specs.Inner.Shown.{IsShown};

use crate::codestream::CodestreamInput;
use crate::error::FileError;
use jxl_codestream::front::Frames;
use jxl_image_header::image::ImageHeader;
use jxl_modular::sections::Progress;
use jxl_picture::picture::Picture;
use jxlm_tree::flat::Steps;
use std::alloc::Global;

/// The picture of a codestream with this image header, this profile and these frames, shown upright.
pub fn decode_codestream<P: Progress>(
    alloc: Global,
    bytes: &[u8],
    image: ImageHeader,
    profile: Option<Vec<u8>>,
    frames: &Frames,
    steps: &mut Steps,
    progress: &mut P,
) -> Result<Picture, FileError>
    requires ready { IsReady bytes.now image frames.now }
    ensures ok { IfOk result (λ p. IsShown bytes.now (image_of image) (map frame_at frames.now.saved.items)
        (frame_at frames.now.shown) p steps.old steps.new) }
    ensures profile { IfOk result (λ p. p.profile ≡ profile) }
    ensures whole { IfOk result (λ p. IsWhole (image_of p.header) p.channels.items) }
    ensures err { IfErr result (FramesFail (entropy decoder_at) bytes.now
        (image_of image) (map frame_at frames.now.saved.items ++ frame_at frames.now.shown ∷ [])) }
{
    let input = CodestreamInput {
        bytes,
        image: &image,
        frames,
    };
    let channels = input.decode_shown(alloc, steps, progress)?;
    let coded = Picture {
        header: image,
        channels,
        profile,
    };
    let shown = coded.upright(alloc)?;
    Ok(shown)
}
