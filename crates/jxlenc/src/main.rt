//! Encodes a picture in PNG or a netpbm format to a lossless JPEG XL file.
#![tactic(auto)]

mod failures;
mod meter;
mod options;
mod profile;
mod reason;
mod run;
mod source;

use crate::failures::Failure;
use crate::meter::WayMeter;
use crate::options::Options;
use crate::run::{report, run};
use jxl_command::end::End;
use jxl_command::extra::{Extra, Extras};
use jxl_command::files::is_same_file;
use jxl_command::input::{InputFile, InputStream};
use jxl_command::meter::Meter;
use jxl_command::output::{OutputFile, is_unasked_terminal};
use jxl_command::words::{end_of_parsing, end_without_memory, words_or_end};
use std::process::ExitCode;

// Encodes the picture that the reader gives.
fn carry_out<R: InputStream>(rt: &HostRuntime, options: Options<'_>, input: &mut R) -> End {
    let alloc = rt.alloc();
    let errors = &mut rt.stderr();
    let paths = options.paths;
    let mut extras = Extras {
        profile: InputFile::new(rt, paths.path_of(Extra::Profile)),
        exif: InputFile::new(rt, paths.path_of(Extra::Exif)),
        xmp: InputFile::new(rt, paths.path_of(Extra::Xmp)),
    };
    let mut meter = WayMeter(Meter::new(rt, "jxlenc", options.input, options.quiet));
    match options.output {
        Some(path) => run(
            alloc,
            options,
            input,
            &mut extras,
            &mut OutputFile::new(rt, path),
            errors,
            &mut meter,
        ),
        None => run(
            alloc,
            options,
            input,
            &mut extras,
            &mut rt.stdout(),
            errors,
            &mut meter,
        ),
    }
}

// Whether this path, if there is one, is that of the output.
fn is_output(rt: &HostRuntime, path: Option<&str>, output: &str) -> bool {
    match path {
        Some(path) => is_same_file(rt, path, output),
        None => false,
    }
}

// Whether the output is one of the files that are read.
fn is_overwritten(rt: &HostRuntime, options: &Options<'_>) -> bool {
    let Some(output) = options.output else {
        return false;
    };
    let paths = options.paths;
    let picture = if options.input == "-" {
        None
    } else {
        Some(options.input)
    };
    is_output(rt, picture, output)
        || is_output(rt, paths.icc, output)
        || is_output(rt, paths.exif, output)
        || is_output(rt, paths.xmp, output)
}

// Does what the options ask.
fn encode(rt: &HostRuntime, options: Options<'_>) -> End {
    if is_unasked_terminal(rt, options.has_output) {
        return report(&mut rt.stderr(), options.output_name, Failure::Terminal);
    }
    if is_overwritten(rt, &options) {
        return report(&mut rt.stderr(), options.output_name, Failure::Overwritten);
    }
    if options.input == "-" {
        return carry_out(rt, options, &mut rt.stdin());
    }
    carry_out(rt, options, &mut InputFile::new(rt, options.input))
}

// Does what the command line asks.
fn end(rt: &HostRuntime) -> End {
    let errors = &mut rt.stderr();
    let words = match words_or_end(rt, errors, "jxlenc") {
        Ok(words) => words,
        Err(end) => return end,
    };
    let Ok(command) = options::command(rt.alloc()) else {
        return end_without_memory(errors, "jxlenc");
    };
    match command.try_get_matches_from(words.as_slice()) {
        Ok(matches) => encode(rt, Options::of(&matches)),
        Err(error) => end_of_parsing(rt, errors, "jxlenc", &error),
    }
}

fn main(rt: HostRuntime) -> ExitCode {
    ExitCode::from(end(&rt).status)
}
