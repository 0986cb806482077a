//! What the program is asked for on its command line.

ghost use Rattle.std.specs.Prelude.{◌≡◌, MatchOption};
ghost use Rattle.clap.specs.Matches.{found_of};
ghost use Rattle.jxlenc.specs.Asked.{AreOptions};
ghost use Rattle.jxlenc.specs.Failures.{subject};
ghost use Rattle.jxlenc.specs.Options.{IsName, IsNoName};

use crate::failures::Failure;
use clap::{Arg, ArgAction, ArgMatches, Command};
use jxl_command::extra::{Extra, ExtraPaths};
use jxl_encode::effort::Effort;
use std::alloc::{AllocError, Global};

/// What is asked for.
#[derive(Clone, Copy)]
pub struct Options<'a> {
    /// The path of the picture; `-` for standard input.
    pub input: &'a str,
    /// The path of the file; standard output where there is none.
    pub output: Option<&'a str>,
    /// Whether the output is given, by its path or by `-`.
    pub has_output: bool,
    /// What the output is called in a line of an error: its path, or `standard output`.
    pub output_name: &'a str,
    /// How much time the encoder takes.
    pub effort: Effort,
    /// Whether the file has boxes, also if they hold nothing but the picture.
    pub boxed: bool,
    /// Where the profile, the Exif data and the XMP data are read, those that the file is to have.
    pub paths: ExtraPaths<'a>,
    /// Whether nothing is printed but errors.
    pub quiet: bool,
}

fn input(alloc: Global) -> Arg<'static> {
    Arg::new(alloc, "input")
        .value_name("PICTURE")
        .required(true)
        .help("The picture, in PNG, PGM, PPM, PAM or PFM [-: standard input]")
}

fn output(alloc: Global) -> Arg<'static> {
    Arg::new(alloc, "output")
        .short('o')
        .long("output")
        .value_name("OUT")
        .help("Where to write the JPEG XL file [default, and -: standard output]")
}

fn effort(alloc: Global) -> Arg<'static> {
    Arg::new(alloc, "effort")
        .short('e')
        .long("effort")
        .value_name("EFFORT")
        .value_parser(["fast", "usual", "best"].as_slice())
        .help("How much time to take for a shorter file [default: usual]")
}

fn container(alloc: Global) -> Arg<'static> {
    Arg::new(alloc, "container")
        .long("container")
        .action(ArgAction::SetTrue)
        .help("Write boxes, also without metadata")
}

fn icc(alloc: Global) -> Arg<'static> {
    Arg::new(alloc, "icc").long("icc").value_name("FILE").help(
        "An ICC profile for the file, which describes the picture's colours",
    )
}

fn exif(alloc: Global) -> Arg<'static> {
    Arg::new(alloc, "exif")
        .long("exif")
        .value_name("FILE")
        .help("Exif data for the file, from their TIFF header on")
}

fn xmp(alloc: Global) -> Arg<'static> {
    Arg::new(alloc, "xmp")
        .long("xmp")
        .value_name("FILE")
        .help("XMP data for the file")
}

fn quiet(alloc: Global) -> Arg<'static> {
    Arg::new(alloc, "quiet")
        .short('q')
        .long("quiet")
        .action(ArgAction::SetTrue)
        .help("Print nothing but errors")
}

/// The command line of the program.
pub fn command<'a>(alloc: Global) -> Result<Command<'a>, AllocError> {
    let args = vec![in alloc;
        input(alloc),
        output(alloc),
        effort(alloc),
        container(alloc),
        icc(alloc),
        exif(alloc),
        xmp(alloc),
        quiet(alloc),
    ]?;
    Command::new(alloc, "jxlenc")
        .version("0.1.0")
        .about("Encodes a PNG or netpbm picture to a lossless JPEG XL file")
        .args(args)
}

// The effort of this name.
fn effort_of(name: &str) -> Option<Effort>
    ensures { MatchOption result (IsNoName name.now) (IsName name.now) }
{
    if name == "fast" {
        Some(Effort::Fast)
    } else if name == "usual" {
        Some(Effort::Usual)
    } else if name == "best" {
        Some(Effort::Best)
    } else {
        None
    }
}

impl<'a> Options<'a> {
    /// What a command line asks for.
    pub fn of(matches: &ArgMatches<'a>) -> Options<'a>
        ensures { AreOptions (found_of matches.now) result }
    {
        let given = matches.get_str("output");
        let path = given.unwrap_or("-");
        let output = if path == "-" { None } else { Some(path) };
        let effort = matches.get_str("effort").and_then(effort_of);
        Options {
            input: matches.get_str("input").unwrap_or(""),
            output,
            has_output: given.is_some(),
            output_name: output.unwrap_or("standard output"),
            effort: effort.unwrap_or(Effort::Usual),
            boxed: matches.get_flag("container"),
            paths: ExtraPaths {
                icc: matches.get_str("icc"),
                exif: matches.get_str("exif"),
                xmp: matches.get_str("xmp"),
            },
            quiet: matches.get_flag("quiet"),
        }
    }

    /// The name of what fails: of the picture, of the output, or of where other data are read.
    pub fn name_of(&self, failure: Failure) -> &'a str
        ensures { result.now ≡ subject self.now failure }
    {
        match failure {
            Failure::ExtraUnreadable(extra, _) => self.paths.path_of(extra),
            Failure::Profile(_) => self.paths.path_of(Extra::Profile),
            Failure::Terminal | Failure::Overwritten | Failure::Unwritable(_) | Failure::Closed =>
                self.output_name,
            _ => self.input,
        }
    }
}
