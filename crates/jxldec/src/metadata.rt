//! What is asked for of a file beside its picture: the profile, the Exif data and the XMP data.

ghost use Rattle.std.specs.Prelude.{◌≡◌, ◌&&◌, IfErr, IfOk, None, OnOk, if◌then◌else◌, is_none, is_some, true};
ghost use Rattle.std.specs.Option.{option_copied};
ghost use Rattle.jxl_codestream.specs.FrontParts.{bytes_if};
ghost use Rattle.jxl_command.specs.Streams.{IsKept};
ghost use Rattle.jxldec.specs.Texts.{AreLookedFor, HasProfile, IsLookedFor, ProfileFails};
ghost use Rattle.jxldec_lines.specs.Failures.{IsOfSaving};

use crate::layers::lists_frames;
use crate::run::{read_file, support};
use jxl_command::extra::{Extra, Extras};
use jxl_command::output::{Flush, write_flushed};
use jxl_container::codestream::find_codestream;
use jxl_container::metadata::{find_exif, find_xmp};
use jxl_layers::opening::Opening;
use jxl_lossless::{FileError, Limits};
use jxldec_lines::failures::{Failure, Lacks};
use jxldec_options::options::Options;
use std::alloc::Global;

/// What is asked for of a file beside its picture: what it has of that, and what it lacks.
#[derive(Drop)]
pub struct Metadata<'a> {
    pub profile: Option<Vec<u8>>,
    pub exif: Option<&'a [u8]>,
    pub xmp: Option<&'a [u8]>,
    pub lacks: Lacks,
}

// The profile of a file that has several pictures, or layers, if it has one.
fn profile_of_frames(
    alloc: Global,
    file: &[u8],
    limits: &Limits,
) -> Result<Option<Vec<u8>>, Failure>
    ensures ok { IfOk result (λ v. HasProfile limits.now file.now (bytes_if v)) }
    ensures err { IfErr result (ProfileFails limits.now file.now) }
{
    let stream = match find_codestream(alloc, file) {
        Ok(found) => found.codestream,
        Err(error) => return Err(Failure::File(FileError::File(error))),
    };
    match Opening::read(alloc, stream.bytes(), limits) {
        Ok(opening) => Ok(opening.profile),
        Err(error) => Err(Failure::of_frames(error)),
    }
}

// The profile of a file, if it has one.
fn profile_found(alloc: Global, file: &[u8], limits: &Limits) -> Result<Option<Vec<u8>>, Failure>
    ensures ok { IfOk result (λ v. HasProfile limits.now file.now (bytes_if v)) }
    ensures err { IfErr result (ProfileFails limits.now file.now) }
{
    let read = read_file(alloc, file, limits)?;
    if lists_frames(read.reason()) {
        return profile_of_frames(alloc, file, limits);
    }
    support(&read, limits)?;
    Ok(read.into_profile())
}

// The profile of a file, if it is wanted, and whether the file lacks it.
fn profile_if(
    alloc: Global,
    file: &[u8],
    limits: &Limits,
    wanted: bool,
) -> Result<(Option<Vec<u8>>, bool), Failure>
    ensures ok { IfOk result (λ p. IsLookedFor wanted (HasProfile limits.now file.now) p.1 (bytes_if p.0)) }
    ensures err { IfErr result (λ failure. (wanted ≡ true) × ProfileFails limits.now file.now failure) }
{
    if !wanted {
        return Ok((None, false));
    }
    match profile_found(alloc, file, limits) {
        Ok(Some(profile)) => Ok((Some(profile), false)),
        Ok(None) => Ok((None, true)),
        Err(failure) => Err(failure),
    }
}

// What was found of these data, if they are wanted, and whether the file lacks them.
fn if_wanted(found: Option<&[u8]>, wanted: bool) -> (Option<&[u8]>, bool)
    ensures found { option_copied result.0 ≡ (if wanted then option_copied found.entry else None) }
    ensures lack { result.1 ≡ (wanted && is_none (option_copied found.entry)) }
{
    if !wanted {
        return (None, false);
    }
    match found {
        Some(bytes) => (Some(bytes), false),
        None => (None, true),
    }
}

/// What is asked for of a file beside its picture: what it has of that, and what it lacks.
pub fn metadata_asked<'a>(
    alloc: Global,
    file: &'a [u8],
    options: &Options<'_>,
) -> Result<Metadata<'a>, Failure>
    ensures ok { IfOk result (AreLookedFor options.now file.now) }
    ensures err { IfErr result (λ failure. (is_some options.now.paths.icc ≡ true)
        × ProfileFails options.now.limits file.now failure) }
{
    let paths = options.paths;
    let (profile, no_profile) = profile_if(alloc, file, &options.limits, paths.icc.is_some())?;
    let (exif, no_exif) = if_wanted(find_exif(file), paths.exif.is_some());
    let (xmp, no_xmp) = if_wanted(find_xmp(file), paths.xmp.is_some());
    Ok(Metadata {
        profile,
        exif,
        xmp,
        lacks: Lacks {
            profile: no_profile,
            exif: no_exif,
            xmp: no_xmp,
        },
    })
}

// Writes these data, if there are some, and passes them on.
fn save<F: Flush>(output: &mut F, bytes: Option<&[u8]>, extra: Extra) -> Result<(), Failure>
    ensures ok { OnOk result (IsKept (option_copied bytes.entry) (F.contents output.old) (F.contents output.new)
        (F.is_flushed output.new) (output.new ≡ output.old)) }
    ensures err { IfErr result IsOfSaving }
{
    let Some(bytes) = bytes else {
        return Ok(());
    };
    match write_flushed(output, bytes) {
        Ok(()) => Ok(()),
        Err(error) => Err(Failure::Unsaved(extra, error)),
    }
}

/// Writes what is asked for of a file beside its picture.
pub fn save_all<F: Flush>(extras: &mut Extras<F>, metadata: &Metadata<'_>) -> Result<(), Failure>
    ensures profile { OnOk result (IsKept (bytes_if metadata.now.profile) (F.contents extras.old.profile)
        (F.contents extras.new.profile) (F.is_flushed extras.new.profile) (extras.new.profile ≡ extras.old.profile)) }
    ensures exif { OnOk result (IsKept (option_copied metadata.now.exif) (F.contents extras.old.exif)
        (F.contents extras.new.exif) (F.is_flushed extras.new.exif) (extras.new.exif ≡ extras.old.exif)) }
    ensures xmp { OnOk result (IsKept (option_copied metadata.now.xmp) (F.contents extras.old.xmp)
        (F.contents extras.new.xmp) (F.is_flushed extras.new.xmp) (extras.new.xmp ≡ extras.old.xmp)) }
    ensures err { IfErr result IsOfSaving }
{
    save(
        &mut extras.profile,
        metadata.profile.as_deref(),
        Extra::Profile,
    )?;
    save(&mut extras.exif, metadata.exif, Extra::Exif)?;
    save(&mut extras.xmp, metadata.xmp, Extra::Xmp)?;
    Ok(())
}
