//! The program over readers and two writers.

ghost use Rattle.std.specs.Prelude.{◌≡◌, ◌≤◌, is_some, IfErr, IfOk, IfSome, None, OnOk, false};
ghost use Rattle.std.specs.Option.{option_map, option_or};
ghost use Rattle.std.specs.declared.io.Error.{Error};
ghost use Rattle.jxl_codestream.specs.FrontParts.{bytes_if};
ghost use Rattle.jxl_command.specs.Extras.{has_path, stream_of};
ghost use Rattle.jxl_command.specs.Streams.{IsReportedLine};
ghost use Rattle.jxl_command.specs.declared.extra.Extra.{Extra as TheExtra};
ghost use Rattle.jxl_encode.specs.Codable.{IsCodable};
ghost use Rattle.jxl_image_header.specs.Images.{image_of};
ghost use Rattle.jxl_picture.specs.Pictures.{IsWhole};
ghost use Rattle.jxl_picture.specs.Pictures.{is_grey as the_grey};
ghost use Rattle.jxlenc.specs.Encodings.{AreGiven, EncodingFails, ExtraFails, InputFails, IsDone, IsEncodingOf, IsFailed, IsGiven, IsMade, IsOrientedBy, IsTiffOf, Reports, MakingFails, ProfileFails, image_with};
ghost use Rattle.jxlenc.specs.Profiles.{Describes};
ghost use Rattle.jxlenc.specs.Failures.{IsExtraUnread, cause_of, failure_line, is_of_output};

use crate::failures::Failure;
use crate::options::Options;
use crate::profile::check_profile;
use crate::source::read_source;
use jxl_command::end::End;
use jxl_command::errors::{ErrorStream, put_line};
use jxl_command::extra::{Extra, Extras};
use jxl_command::input::InputStream;
use jxl_command::meter::Line;
use jxl_command::output::{Flush, write_flushed};
use jxl_command::shown::Shown;
use jxl_encode::error::EncodeError;
use jxl_encode::file::encode_with_progress;
use jxl_encode::orientation::with_orientation;
use jxl_encode::profile::with_profile;
use jxl_encode::progress::Progress;
use jxl_exif::orientation::{orientation_of, set_upright};
use jxl_picture::picture::{Picture, is_grey};
use std::alloc::Global;

/// What the file is to hold beside the picture's samples.
#[derive(Drop)]
pub struct Metadata {
    pub profile: Option<Vec<u8>>,
    pub exif: Option<Vec<u8>>,
    pub xmp: Option<Vec<u8>>,
}

// Reads these data, if they are wanted.
fn extra_if<F: InputStream>(
    alloc: Global,
    input: &mut F,
    wanted: bool,
    extra: Extra,
) -> Result<Option<Vec<u8>>, Failure>
    ensures ok { IfOk result (λ v. IsGiven wanted (F.remaining input.old) (F.remaining input.new) (input.new ≡ input.old)
        (bytes_if v)) }
    ensures err { IfErr result (IsExtraUnread wanted extra (F.fails_by input.new)) }
{
    if !wanted {
        return Ok(None);
    }
    match input.read_rest(alloc) {
        Ok(bytes) => Ok(Some(bytes)),
        Err(error) => Err(Failure::ExtraUnreadable(extra, error)),
    }
}

// Reads what the file is to hold beside the picture.
fn metadata_given<F: InputStream>(
    alloc: Global,
    options: &Options<'_>,
    extras: &mut Extras<F>,
) -> Result<Metadata, Failure>
    ensures ok { IfOk result (AreGiven F.remaining options.now extras.old extras.new) }
    ensures err { IfErr result (λ failure. (extra : TheExtra) × IsExtraUnread (has_path options.now.paths extra) extra
        (F.fails_by (stream_of extras.new extra)) failure) }
{
    let paths = options.paths;
    let profile = extra_if(
        alloc,
        &mut extras.profile,
        paths.icc.is_some(),
        Extra::Profile,
    )?;
    let exif = extra_if(alloc, &mut extras.exif, paths.exif.is_some(), Extra::Exif)?;
    let xmp = extra_if(alloc, &mut extras.xmp, paths.xmp.is_some(), Extra::Xmp)?;
    Ok(Metadata { profile, exif, xmp })
}

// Exif data from the TIFF header on: without the six bytes that precede it in a JPEG file.
fn tiff_of(exif: &[u8]) -> &[u8]
    ensures { IsTiffOf exif.now result.now }
{
    exif.strip_prefix(b"Exif\0\0").unwrap_or(exif)
}

// The orientation that Exif data say, if there are some, and the data for an upright picture.
fn upright_exif(alloc: Global, exif: &Option<Vec<u8>>) -> Result<(u32, Option<Vec<u8>>), Failure>
    ensures value { IfOk result (λ made. IsOrientedBy (bytes_if exif.now) made.0 (bytes_if made.1)) }
    ensures least { IfOk result (λ made. 1 ≤ made.0) }
    ensures most { IfOk result (λ made. made.0 ≤ 8) }
    ensures err { IfErr result (λ failure. failure ≡ Failure.OutOfMemory) }
{
    let Some(bytes) = exif else {
        return Ok((1, None));
    };
    let Ok(mut tiff) = Vec::from_slice(alloc, tiff_of(bytes)) else {
        return Err(Failure::OutOfMemory);
    };
    let orientation = orientation_of(&tiff);
    set_upright(&mut tiff);
    Ok((orientation, Some(tiff)))
}

// The picture with this profile, if there is one, in place of its own.
fn picture_with(picture: Picture, profile: Option<Vec<u8>>) -> Result<Picture, Failure>
    requires whole { IsWhole (image_of picture.header) picture.channels.items }
    requires codable { IsCodable picture }
    ensures header { IfOk result (λ p. image_of p.header
        ≡ image_with (bytes_if profile) (image_of picture.header)) }
    ensures channels { IfOk result (λ p. p.channels ≡ picture.channels) }
    ensures profile { IfOk result (λ p. bytes_if p.profile ≡ option_or (bytes_if profile) (bytes_if picture.profile)) }
    ensures whole { IfOk result (λ p. IsWhole (image_of p.header) p.channels.items) }
    ensures codable { IfOk result IsCodable }
    ensures describes { IfOk result
        (λ _. IfSome (bytes_if profile) (Describes (the_grey (image_of picture.header)))) }
    ensures err { IfErr result (ProfileFails (image_of picture.header) (bytes_if profile)) }
{
    let Some(icc) = profile else {
        return Ok(picture);
    };
    match check_profile(&icc, is_grey(&picture.header)) {
        Ok(()) => Ok(with_profile(picture, icc)),
        Err(error) => Err(Failure::Profile(error)),
    }
}

// The file of a picture, with these Exif and XMP data, if there are some.
fn file_of_picture<P: Progress>(
    alloc: Global,
    picture: &Picture,
    options: &Options<'_>,
    exif: &Option<Vec<u8>>,
    xmp: &Option<Vec<u8>>,
    progress: &mut P,
) -> Result<Vec<u8>, Failure>
    requires whole { IsWhole (image_of picture.now.header) picture.now.channels.items }
    requires codable { IsCodable picture.now }
    ensures ok { IfOk result (λ v. IsEncodingOf picture.now options.now.boxed (bytes_if exif.now) (bytes_if xmp.now)
        v.items) }
    ensures err { IfErr result (EncodingFails picture.now) }
{
    let (effort, boxed) = (options.effort, options.boxed);
    let exif = exif.as_deref();
    let xmp = xmp.as_deref();
    match encode_with_progress(alloc, picture, effort, boxed, exif, xmp, progress) {
        Ok(file) => Ok(file),
        Err(EncodeError::TooLarge) => Err(Failure::TooLarge),
        Err(EncodeError::OutOfMemory) => Err(Failure::OutOfMemory),
    }
}

// The file that is asked for, before anything is written.
fn file_asked<R: InputStream, F: InputStream, P: Progress + Line>(
    alloc: Global,
    options: &Options<'_>,
    input: &mut R,
    extras: &mut Extras<F>,
    progress: &mut P,
) -> Result<Vec<u8>, Failure>
    ensures ok { IfOk result (λ v. IsMade options.now.boxed (R.remaining input.old) (R.remaining input.new)
        (AreGiven F.remaining options.now extras.old extras.new) v.items) }
    ensures err { IfErr result (MakingFails (R.fails_by input.new) (ExtraFails F.fails_by options.now extras.new)
        (R.remaining input.old) (R.remaining input.new)
        (AreGiven F.remaining options.now extras.old extras.new)) }
{
    let source = read_source(alloc, input)?;
    let Metadata { profile, exif, xmp } = metadata_given(alloc, options, extras)?;
    let given = exif.or(source.exif);
    let (orientation, exif) = upright_exif(alloc, &given)?;
    let xmp = xmp.or(source.xmp);
    let oriented = with_orientation(source.picture, orientation);
    let picture = picture_with(oriented, profile)?;
    let made = file_of_picture(alloc, &picture, options, &exif, &xmp, progress);
    progress.clear();
    let file = made?;
    Ok(file)
}

// Reads the picture, and writes its file.
fn carry_out<R: InputStream, F: InputStream, W: Flush, P: Progress + Line>(
    alloc: Global,
    options: &Options<'_>,
    input: &mut R,
    extras: &mut Extras<F>,
    output: &mut W,
    progress: &mut P,
) -> Result<(), Failure>
    ensures done { OnOk result (IsDone options.now.boxed (R.remaining input.old) (R.remaining input.new)
        (AreGiven F.remaining options.now extras.old extras.new) (W.contents output.old) (W.contents output.new)) }
    ensures failed { IfErr result (InputFails (R.fails_by input.new) (ExtraFails F.fails_by options.now extras.new)
        options.now.boxed (R.remaining input.old) (R.remaining input.new)
        (AreGiven F.remaining options.now extras.old extras.new) (W.contents output.old) (W.contents output.new)) }
    ensures flushed { OnOk result (W.is_flushed output.new) }
    ensures kept { IfErr result (λ failure. is_of_output failure ≡ false → output.new ≡ output.old) }
{
    let file = file_asked(alloc, options, input, extras, progress)?;
    match write_flushed(output, &file) {
        Ok(()) => Ok(()),
        Err(error) => Err(Failure::of_write(error)),
    }
}

// Writes the line of a failure about what has this name. It returns whether all of it was written.
fn put_failure<E: ErrorStream>(errors: &mut E, name: &str, failure: Failure) -> bool
    ensures { IsReportedLine result (E.contents errors.old) (E.contents errors.new) (E.has_failed errors.new)
        (cause_of failure) (failure_line name.now failure) }
{
    let (name, cause) = (Shown(name), failure.cause());
    put_line(errors, format_args!("jxlenc: {name}: {failure}"), cause)
}

/// Writes the line of a failure about what has this name, and ends with status 1. Of a closed pipe nothing is written.
pub fn report<E: ErrorStream>(errors: &mut E, name: &str, failure: Failure) -> End
    ensures status { result.status ≡ 1 }
    ensures reports { Reports name.now failure (errors.new ≡ errors.old) (IsReportedLine result.reported
        (E.contents errors.old) (E.contents errors.new) (E.has_failed errors.new)) }
{
    if failure.is_silent() {
        return End {
            status: 1,
            reported: true,
        };
    }
    let reported = put_failure(errors, name, failure);
    End {
        status: 1,
        reported,
    }
}

/// Reads a picture in PNG or a netpbm format from `input`, and a profile, Exif data and XMP data from `extras`, those
/// that are asked for, in place of those of the input, and writes a JPEG XL file of them to `output`. The picture has
/// the orientation that its Exif data say; those of the file say 1. It returns the status to end with: 0 where `output`
/// got the whole file, and has passed it on, and `errors` got nothing; else 1, and `errors` got the line of a failure
/// that holds, unless a write to it failed, or the output is a pipe that was closed. Nothing is written before the whole
/// file is encoded; after a failed write the output holds a beginning of the file. `progress` is called after each way
/// to code the picture that was tried.
pub fn run<R: InputStream, F: InputStream, W: Flush, E: ErrorStream, P: Progress + Line>(
    alloc: Global,
    options: Options<'_>,
    input: &mut R,
    extras: &mut Extras<F>,
    output: &mut W,
    errors: &mut E,
    progress: &mut P,
) -> End
    ensures status { result.status ≤ 1 }
    ensures done { result.status ≡ 0 → IsDone options.entry.boxed (R.remaining input.old) (R.remaining input.new)
        (AreGiven F.remaining options.entry extras.old extras.new) (W.contents output.old) (W.contents output.new) }
    ensures flushed { result.status ≡ 0 → W.is_flushed output.new }
    ensures silent { result.status ≡ 0 → errors.new ≡ errors.old }
    ensures failed { result.status ≡ 1 → IsFailed options.entry (InputFails (R.fails_by input.new)
        (ExtraFails F.fails_by options.entry extras.new) options.entry.boxed (R.remaining input.old)
        (R.remaining input.new) (AreGiven F.remaining options.entry extras.old extras.new) (W.contents output.old)
        (W.contents output.new)) (output.new ≡ output.old) (errors.new ≡ errors.old) (IsReportedLine result.reported
        (E.contents errors.old) (E.contents errors.new) (E.has_failed errors.new)) }
{
    match carry_out(alloc, &options, input, extras, output, progress) {
        Ok(()) => End {
            status: 0,
            reported: true,
        },
        Err(failure) => report(errors, options.name_of(failure), failure),
    }
}
