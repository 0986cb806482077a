//! What is written of a file, and what that leaves out.

ghost use Rattle.std.specs.Prelude.{◌≡◌, List, ℕ, Option, IfErr, IfOk, OnErr, OnOk, Some, string_bytes, true};
ghost use Rattle.std.specs.Option.{option_copied};
ghost use Rattle.std.specs.Io.KnownBytes.{Appends};
ghost use Rattle.jxl_codestream.specs.FrontParts.{bytes_if};
ghost use Rattle.jxl_container.specs.Files.{HasLaterError};
ghost use Rattle.jxl_image_header.specs.Images.{image_of};
ghost use Rattle.jxl_lossless.specs.Files.{IsReadOf};
ghost use Rattle.jxl_netpbm.specs.Output.{AppendsBeginning};
ghost use Rattle.jxl_picture.specs.Pictures.{IsWhole};
ghost use Rattle.jxl_picture.specs.declared.limits.Limits.{Limits as TheLimits};
ghost use Rattle.jxldec.specs.Contents.{IsWritable, content_text};
ghost use Rattle.jxldec_lines.specs.Failures.{IsOfContent};
ghost use Rattle.jxldec_lines.specs.Formats.{IsWrittenAs, chosen, suits_output};
ghost use Rattle.jxldec_lines.specs.Warnings.{one_frame};
ghost use Rattle.jxldec_lines.specs.declared.format.OutputFormat.{OutputFormat as TheFormat};

use jxl_command::output::Flush;
use jxl_container::error::FileError as BoxError;
use jxl_lossless::{JxlFile, Picture};
use jxl_netpbm::format::Format;
use jxl_netpbm::output::{WriteError, write_whole};
use jxl_png_write::upright::upright_png;
use jxldec_lines::failures::Failure;
use jxldec_lines::format::OutputFormat;
use jxldec_lines::warning::LeftOut;
use std::alloc::Global;
use std::io::Write;

/// What is written of a file.
#[derive(Drop)]
pub enum Content {
    /// What its headers tell.
    Headers(Vec<u8>),
    /// Nothing.
    Nothing,
    /// Its picture, in a format that suits it.
    Picture { picture: Picture, format: Format },
    /// A PNG file of its picture.
    Png(Vec<u8>),
}

/// What is written of a file, and what that leaves out.
#[derive(Drop)]
pub struct Output {
    pub content: Content,
    pub left_out: LeftOut,
}

/// What a file has beside its picture.
#[derive(Clone, Copy)]
pub struct Beside<'a> {
    /// The Exif data, if it has some.
    pub exif: Option<&'a [u8]>,
    /// The XMP data, if it has some.
    pub xmp: Option<&'a [u8]>,
    /// The first error of the boxes after the codestream, if there is one.
    pub later_error: Option<BoxError>,
}

impl<'a> Beside<'a> {
    ghost use Rattle.jxldec.specs.Texts.{IsBeside};

    /// What a file that was read has.
    pub fn of(read: &JxlFile<'a>) -> Beside<'a>
        ensures { (limits : TheLimits) (file : List ℕ) → IsReadOf limits file read.now → IsBeside file result }
    {
        Beside {
            exif: read.exif(),
            xmp: read.xmp(),
            later_error: read.later_error(),
        }
    }
}

/// What is written of a picture in a format that suits it: of a PNG file the bytes are made.
pub fn content_of(
    alloc: Global,
    picture: Picture,
    format: OutputFormat,
    exif: Option<&[u8]>,
    xmp: Option<&[u8]>,
) -> Result<Content, Failure>
    requires whole { IsWhole (image_of picture.header) picture.channels.items }
    requires suits { suits_output format (image_of picture.header) ≡ true }
    ensures text { IfOk result (λ content. IsWrittenAs format (image_of picture.header) picture.channels.items
        (bytes_if picture.profile) (option_copied exif.entry) (option_copied xmp.entry) (content_text content)) }
    ensures writable { IfOk result IsWritable }
    ensures err { IfErr result (λ failure. failure ≡ Failure.OutOfMemory) }
{
    match format {
        OutputFormat::Netpbm(format) => Ok(Content::Picture { picture, format }),
        OutputFormat::Png => match upright_png(alloc, &picture, exif, xmp) {
            Ok(file) => Ok(Content::Png(file)),
            Err(_) => Err(Failure::OutOfMemory),
        },
    }
}

impl Output {
    ghost use Rattle.jxldec.specs.Texts.{IsBeside, IsTextOf};

    /// A picture of a file in a format that suits it, and what that leaves out.
    pub fn of(
        alloc: Global,
        picture: Picture,
        format: OutputFormat,
        beside: Beside<'_>,
    ) -> Result<Output, Failure>
        requires whole { IsWhole (image_of picture.header) picture.channels.items }
        requires suits { suits_output format (image_of picture.header) ≡ true }
        ensures text { (file : List ℕ) (asked : Option TheFormat) → IsBeside file beside.entry
            → chosen asked (image_of picture.header) ≡ Some format → IfOk result (λ o. IsTextOf file picture asked
            (content_text o.content) (string_bytes o.left_out.channels) o.left_out.loss) }
        ensures writable { IfOk result (λ o. IsWritable o.content) }
        ensures frames { IfOk result (λ o. o.left_out.frames ≡ one_frame) }
        ensures later { (file : List ℕ) → IsBeside file beside.entry
            → IfOk result (λ o. HasLaterError file o.left_out.later_error) }
        ensures err { IfErr result (λ failure. failure ≡ Failure.OutOfMemory) }
    {
        let Ok(left_out) = LeftOut::of(alloc, format, &picture.header, beside.later_error) else {
            return Err(Failure::OutOfMemory);
        };
        let content = content_of(alloc, picture, format, beside.exif, beside.xmp)?;
        Ok(Output { content, left_out })
    }
}

// Writes the content, a piece at a time. Out of memory, it has written nothing.
fn write_content<W: Flush>(alloc: Global, output: &mut W, content: &Content) -> Result<(), Failure>
    requires { IsWritable content.now }
    ensures ok { OnOk result (Appends (W.contents output.old) (W.contents output.new) (content_text content.now)) }
    ensures begun { OnErr result (AppendsBeginning (W.contents output.old) (W.contents output.new)
        (content_text content.now)) }
    ensures kept { IfErr result (λ failure. failure ≡ Failure.OutOfMemory → output.new ≡ output.old) }
    ensures err { IfErr result IsOfContent }
{
    match content {
        Content::Headers(text) | Content::Png(text) => match write_whole(output, text) {
            Ok(()) => Ok(()),
            Err(error) => Err(Failure::of_write(error)),
        },
        Content::Nothing => Ok(()),
        Content::Picture { picture, format } => match format.write(alloc, picture, output) {
            Ok(()) => Ok(()),
            Err(WriteError::OutOfMemory) => Err(Failure::OutOfMemory),
            Err(WriteError::Writer(error)) => Err(Failure::of_write(error)),
        },
    }
}

/// Writes the content and passes it on.
pub fn pass_on<W: Flush>(alloc: Global, output: &mut W, content: &Content) -> Result<(), Failure>
    requires { IsWritable content.now }
    ensures ok { OnOk result (Appends (W.contents output.old) (W.contents output.new) (content_text content.now)) }
    ensures flushed { OnOk result (W.is_flushed output.new) }
    ensures begun { OnErr result (AppendsBeginning (W.contents output.old) (W.contents output.new)
        (content_text content.now)) }
    ensures kept { IfErr result (λ failure. failure ≡ Failure.OutOfMemory → output.new ≡ output.old) }
    ensures err { IfErr result IsOfContent }
{
    write_content(alloc, output, content)?;
    match output.flush_all() {
        Ok(()) => Ok(()),
        Err(error) => Err(Failure::of_write(error)),
    }
}
