//! What keeps a file from being one still picture, and not from having frames.

ghost use Rattle.std.specs.Prelude.{◌≡◌};
ghost use Rattle.jxldec.specs.Layers.{is_layered as the_is_layered, is_of_layers as the_is_of_layers, lists_frames as the_lists_frames};

use jxl_codestream::error::FrontError;
use jxl_frame_header::refusal::Refusal;
use jxl_image_header::refusal::Refusal as ImageRefusal;
use jxl_lossless::FileError;
use jxldec_lines::failures::Failure;

// Whether what is not supported of a frame is only that it is a layer.
fn is_layer(refusal: Refusal) -> bool
    ensures { result ≡ the_is_of_layers (FrontError.Frame refusal) }
{
    match refusal {
        Refusal::Crop | Refusal::Blending => true,
        Refusal::ExtraBlending | Refusal::Frames => true,
        _ => false,
    }
}

// Whether the error is that a file has several pictures, or layers.
fn is_of_layers(error: FrontError) -> bool
    ensures { result ≡ the_is_of_layers error }
{
    match error {
        FrontError::Image(ImageRefusal::Animation) => true,
        FrontError::Frame(refusal) => is_layer(refusal),
        _ => false,
    }
}

/// Whether the headers of a file that is not decoded as a still picture, for this reason, are those of several pictures,
/// or of layers.
pub fn lists_frames(reason: Option<FrontError>) -> bool
    ensures { result ≡ the_lists_frames reason }
{
    match reason {
        Some(error) => is_of_layers(error),
        None => false,
    }
}

/// Whether a still picture is not made since the file has several pictures, or layers.
pub fn is_layered(failure: Failure) -> bool
    ensures { result ≡ the_is_layered failure }
{
    match failure {
        Failure::File(FileError::Front(error)) => is_of_layers(error),
        _ => false,
    }
}
