//! Decodes a lossless JPEG XL file to a picture in PNG or a netpbm format, or tells what its headers say.
#![tactic(auto)]

mod animation;
mod content;
mod frames;
mod layers;
mod listing;
mod metadata;
mod meter;
mod outputs;
mod run;

use crate::frames::{refuse_pattern, run_frames};
use crate::meter::SectionMeter;
use crate::outputs::OutputFiles;
use crate::run::run;
use jxl_command::end::End;
use jxl_command::extra::{Extra, Extras};
use jxl_command::files::{is_same_file, is_same_output};
use jxl_command::input::{InputFile, InputStream};
use jxl_command::meter::Meter;
use jxl_command::output::{OutputFile, is_unasked_terminal};
use jxl_command::words::{end_of_parsing, end_without_memory, words_or_end};
use jxl_frame_names::pattern::NamePattern;
use jxldec_lines::ending::report;
use jxldec_lines::failures::Failure;
use jxldec_lines::refusals::{Refusal, refuse};
use jxldec_options::options::{Options, command};
use std::process::ExitCode;

// Writes what the options ask of the file that the reader gives.
fn carry_out<R: InputStream>(rt: &HostRuntime, options: Options<'_>, input: &mut R) -> End {
    let alloc = rt.alloc();
    let errors = &mut rt.stderr();
    let mut meter = SectionMeter(Meter::new(rt, "jxldec", options.input, options.quiet));
    let paths = options.paths;
    let mut extras = Extras {
        profile: OutputFile::new(rt, paths.path_of(Extra::Profile)),
        exif: OutputFile::new(rt, paths.path_of(Extra::Exif)),
        xmp: OutputFile::new(rt, paths.path_of(Extra::Xmp)),
    };
    match options.output {
        Some(path) => run(
            alloc,
            options,
            input,
            &mut OutputFile::new(rt, path),
            &mut extras,
            errors,
            &mut meter,
        ),
        None => run(
            alloc,
            options,
            input,
            &mut rt.stdout(),
            &mut extras,
            errors,
            &mut meter,
        ),
    }
}

// Writes each picture of the file that the reader gives to a file of its own, by names of this pattern.
fn carry_out_frames<R: InputStream>(
    rt: &HostRuntime,
    options: Options<'_>,
    name: &str,
    input: &mut R,
) -> End {
    let errors = &mut rt.stderr();
    match NamePattern::parse(name) {
        Some(pattern) => run_frames(
            rt.alloc(),
            &options,
            &pattern,
            input,
            &mut OutputFiles { rt },
            errors,
        ),
        None => refuse_pattern(errors, name),
    }
}

// Does what the options ask with the file that the reader gives.
fn carry_out_with<R: InputStream>(rt: &HostRuntime, options: Options<'_>, input: &mut R) -> End {
    match options.frames {
        Some(name) => carry_out_frames(rt, options, name, input),
        None => carry_out(rt, options, input),
    }
}

// The output that is one file with the input, of those that the options name.
fn same_as_input<'a>(rt: &HostRuntime, options: &Options<'a>) -> Option<&'a str> {
    let paths = options.paths;
    for path in [options.output, paths.icc, paths.exif, paths.xmp] {
        if let Some(path) = path {
            if is_same_file(rt, options.input, path) {
                return Some(path);
            }
        }
    }
    None
}

// Whether both outputs are named, and are one file.
fn are_one(rt: &HostRuntime, first: Option<&str>, second: Option<&str>) -> bool {
    match (first, second) {
        (Some(first), Some(second)) => is_same_output(rt, first, second),
        _ => false,
    }
}

// The output that is one file with one before it.
fn same_as_other<'a>(rt: &HostRuntime, options: &Options<'a>) -> Option<&'a str> {
    let (output, paths) = (options.output, options.paths);
    if are_one(rt, output, paths.icc) {
        return paths.icc;
    }
    if are_one(rt, output, paths.exif) || are_one(rt, paths.icc, paths.exif) {
        return paths.exif;
    }
    let is_one = are_one(rt, output, paths.xmp)
        || are_one(rt, paths.icc, paths.xmp)
        || are_one(rt, paths.exif, paths.xmp);
    if is_one { paths.xmp } else { None }
}

// What the options ask for that is not begun, and the name of the output that it is about.
fn refusal_of<'a>(rt: &HostRuntime, options: &Options<'a>) -> Option<(&'a str, Refusal)> {
    if let Some(path) = same_as_input(rt, options) {
        return Some((path, Refusal::Input));
    }
    if let Some(path) = same_as_other(rt, options) {
        return Some((path, Refusal::Outputs));
    }
    if options.writes_binary() && is_unasked_terminal(rt, options.has_output) {
        return Some((options.output_name, Refusal::Terminal));
    }
    None
}

// Does what the options ask.
fn decode(rt: &HostRuntime, options: Options<'_>) -> End {
    if options.has_other_ending() {
        return report(&mut rt.stderr(), options.output_name, Failure::Ending);
    }
    if let Some((name, refusal)) = refusal_of(rt, &options) {
        return refuse(&mut rt.stderr(), name, refusal);
    }
    if options.input == "-" {
        return carry_out_with(rt, options, &mut rt.stdin());
    }
    carry_out_with(rt, options, &mut InputFile::new(rt, options.input))
}

// Does what the words of the command line ask.
fn obey(rt: &HostRuntime, words: &[String]) -> End {
    let Ok(command) = command(rt.alloc()) else {
        return end_without_memory(&mut rt.stderr(), "jxldec");
    };
    match command.try_get_matches_from(words) {
        Ok(matches) => decode(rt, Options::of(&matches)),
        Err(error) => end_of_parsing(rt, &mut rt.stderr(), "jxldec", &error),
    }
}

fn main(rt: HostRuntime) -> ExitCode {
    let end = match words_or_end(&rt, &mut rt.stderr(), "jxldec") {
        Ok(words) => obey(&rt, words.as_slice()),
        Err(end) => end,
    };
    ExitCode::from(end.status)
}
