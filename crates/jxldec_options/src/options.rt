//! What the program is asked for on its command line.

ghost use Rattle.std.specs.Prelude.{◌≡◌, ◌≢◌, ◌↔◌, IsTrue, MatchOption, Some, codes, map};
ghost use Rattle.std.specs.Option.{option_copied};
ghost use Rattle.std.specs.Char.{to_ascii_lowercase};
ghost use Rattle.std.specs.Path.{path_extension};
ghost use Rattle.clap.specs.Matches.{found_of};
ghost use Rattle.jxldec_options.specs.Asked.{AreOptions};
ghost use Rattle.jxldec_options.specs.Options.{IsNoFormat, IsNoNetpbm, IsWordOf, has_other_ending as the_other, limits_of as the_limits, writes_binary as the_binary};
ghost use Rattle.jxldec_options.specs.Options.{subject, task_of as the_task};
ghost use Rattle.jxldec_lines.specs.declared.format.OutputFormat.TheVariants.{Netpbm};

use clap::{Arg, ArgAction, ArgMatches, Command};
use jxl_command::extra::ExtraPaths;
use jxl_netpbm::format::Format;
use jxl_picture::limits::Limits;
use jxldec_lines::failures::Failure;
use jxldec_lines::format::OutputFormat;
use std::alloc::{AllocError, Global};
use std::path::Path;

/// What is written to the output.
#[derive(Clone, Copy)]
pub enum Task {
    /// What the headers tell.
    Headers,
    /// The picture; of an animation, its first one.
    Picture,
    /// The animation, or the picture of a file that is none.
    Animation,
    /// The picture with this number among those that the file shows, from 0 on.
    Frame(u32),
    /// Nothing: only other data of the file are asked for.
    Nothing,
}

const PIXELS_HELP: &str = "The maximum number of pixels [default: 268435456]";

const BYTES_HELP: &str = "The maximum number of bytes of samples, four each [default: 2147483648]";

const CODEWORDS_HELP: &str =
    "The maximum number of codewords of sections' own codes [default: 67108864]";

/// What is asked for.
#[derive(Clone, Copy)]
pub struct Options<'a> {
    /// The path of the file; `-` for standard input.
    pub input: &'a str,
    /// The pattern of the names of files, where each picture is written to one of its own.
    pub frames: Option<&'a str>,
    /// The path of the picture; standard output where there is none.
    pub output: Option<&'a str>,
    /// What the output is called in a line of an error: its path, or `standard output`.
    pub output_name: &'a str,
    /// What is written there.
    pub task: Task,
    /// Where the profile, the Exif data and the XMP data are written, those that are asked for.
    pub paths: ExtraPaths<'a>,
    /// The format of the picture; where there is none, that of its kind.
    pub format: Option<OutputFormat>,
    /// How large a picture may be.
    pub limits: Limits,
    /// Whether nothing is printed but errors.
    pub quiet: bool,
    /// Whether the output is named, by its path or by `-`.
    pub has_output: bool,
}

fn input(alloc: Global) -> Arg<'static> {
    Arg::new(alloc, "input")
        .value_name("FILE")
        .required(true)
        .help("The JPEG XL file [-: standard input]")
}

fn output(alloc: Global) -> Arg<'static> {
    Arg::new(alloc, "output")
        .short('o')
        .long("output")
        .value_name("OUT")
        .help("Where to write the picture [default, and -: standard output]")
}

fn info(alloc: Global) -> Result<Arg<'static>, AllocError> {
    Arg::new(alloc, "info")
        .long("info")
        .action(ArgAction::SetTrue)
        .help("Print what the headers tell, and decode nothing; not with --output")
        .conflicts_with("output")
}

fn frame(alloc: Global) -> Result<Arg<'static>, AllocError> {
    Arg::new(alloc, "frame")
        .long("frame")
        .value_name("N")
        .value_parser(clap::value_parser!(u32))
        .help("Write the frame with this number, from 0 on; not with --info")
        .conflicts_with("info")
}

fn frames(alloc: Global) -> Result<Arg<'static>, AllocError> {
    Arg::new(alloc, "frames")
        .long("frames")
        .value_name("PATTERN")
        .help(
            "Write each frame to a file: PATTERN is its name, with %d or %03d for the frame's number",
        )
        .conflicts_with_all(["output", "info", "frame", "icc", "exif", "xmp"].as_slice())
}

// Where data beside the picture are written.
fn extra(alloc: Global, name: &'static str, help: &'static str) -> Arg<'static> {
    Arg::new(alloc, name)
        .long(name)
        .value_name("OUT")
        .help(help)
}

fn format(alloc: Global) -> Arg<'static> {
    Arg::new(alloc, "format")
        .long("format")
        .value_name("FORMAT")
        .value_parser(["png", "apng", "pgm", "ppm", "pnm", "pam", "pfm", "text"].as_slice())
        .help("Its format [default: by the ending of its name, else by what the picture holds]")
}

// A limit of 64 bits.
fn limit(
    alloc: Global,
    name: &'static str,
    long: &'static str,
    help: &'static str,
) -> Arg<'static> {
    Arg::new(alloc, name)
        .long(long)
        .value_name("N")
        .value_parser(clap::value_parser!(u64))
        .help(help)
}

fn decisions(alloc: Global) -> Arg<'static> {
    Arg::new(alloc, "decisions")
        .long("max-decisions")
        .value_name("N")
        .value_parser(clap::value_parser!(u32))
        .help("The maximum number of decisions for a sample in shared trees [default: 128]")
}

fn quiet(alloc: Global) -> Arg<'static> {
    Arg::new(alloc, "quiet")
        .short('q')
        .long("quiet")
        .action(ArgAction::SetTrue)
        .help("Print nothing but errors")
}

/// The command line of the program.
pub fn command<'a>(alloc: Global) -> Result<Command<'a>, AllocError> {
    let args = vec![in alloc;
        input(alloc),
        output(alloc),
        info(alloc)?,
        frame(alloc)?,
        frames(alloc)?,
        extra(
            alloc,
            "icc",
            "Where to write the ICC profile; without --output, no picture is written"
        ),
        extra(
            alloc,
            "exif",
            "Where to write the Exif data; without --output, no picture is written"
        ),
        extra(
            alloc,
            "xmp",
            "Where to write the XMP data; without --output, no picture is written"
        ),
        format(alloc),
        limit(alloc, "pixels", "max-pixels", PIXELS_HELP),
        limit(alloc, "bytes", "max-bytes", BYTES_HELP),
        decisions(alloc),
        limit(alloc, "codewords", "max-codewords", CODEWORDS_HELP),
        quiet(alloc),
    ]?;
    Command::new(alloc, "jxldec")
        .version("0.1.0")
        .about("Decodes a lossless JPEG XL file to a PNG or netpbm picture")
        .args(args)
}

// The netpbm format of this name, in letters of either case.
fn netpbm_of(name: &str) -> Option<Format>
    ensures { MatchOption result (IsNoNetpbm name.now) (λ format. IsWordOf name.now (Netpbm format)) }
{
    if name.eq_ignore_ascii_case("pgm") {
        Some(Format::Pgm)
    } else if name.eq_ignore_ascii_case("ppm") || name.eq_ignore_ascii_case("pnm") {
        Some(Format::Ppm)
    } else if name.eq_ignore_ascii_case("pam") {
        Some(Format::Pam)
    } else if name.eq_ignore_ascii_case("pfm") {
        Some(Format::Pfm)
    } else if name.eq_ignore_ascii_case("text") {
        Some(Format::Text)
    } else {
        None
    }
}

// Whether this is the name of PNG files with several pictures, in letters of either case.
fn is_apng(name: &str) -> bool
    ensures { IsTrue result ↔ (map to_ascii_lowercase name.now ≡ codes "apng") }
{
    name.eq_ignore_ascii_case("apng")
}

// The format of this name, in letters of either case.
fn format_of(name: &str) -> Option<OutputFormat>
    ensures { MatchOption result (IsNoFormat name.now) (IsWordOf name.now) }
{
    if name.eq_ignore_ascii_case("png") || is_apng(name) {
        return Some(OutputFormat::Png);
    }
    match netpbm_of(name) {
        Some(format) => Some(OutputFormat::Netpbm(format)),
        None => None,
    }
}

// The ending of a path, where it has one: what stands after the last dot of its last name, unless that begins with it.
fn ending(path: &str) -> Option<&str>
    ensures { option_copied result ≡ path_extension path.now }
{
    Path::new(path).extension()
}

// How large a picture may be: as by default, but for these numbers of pixels, of bytes of samples, of decisions for a
// sample and of codewords, if they are asked for.
fn limits_of(
    pixels: Option<u64>,
    bytes: Option<u64>,
    decisions: Option<u32>,
    codewords: Option<u64>,
) -> Limits
    ensures { result ≡ the_limits pixels bytes decisions codewords }
{
    let usual = Limits::usual();
    Limits {
        pixels: pixels.unwrap_or(usual.pixels),
        bytes: bytes.unwrap_or(usual.bytes),
        decisions: decisions.unwrap_or(usual.decisions),
        codewords: codewords.unwrap_or(usual.codewords),
        ..usual
    }
}

// What is written to the output: the headers; or the picture with a number that is asked for; or, if a picture is wanted, the
// animation or the picture.
fn task_of(info: bool, frame: Option<u32>, picture: bool, animated: bool) -> Task
    ensures { result ≡ the_task info frame picture animated }
{
    if info {
        return Task::Headers;
    }
    match frame {
        Some(number) => Task::Frame(number),
        None if !picture => Task::Nothing,
        None if animated => Task::Animation,
        None => Task::Picture,
    }
}

impl<'a> Options<'a> {
    /// What a command line asks for: of the format by its name, else by the ending of the picture's path.
    pub fn of(matches: &ArgMatches<'a>) -> Options<'a>
        ensures { AreOptions (found_of matches.now) result }
    {
        let path = matches.get_str("output").unwrap_or("-");
        let output = if path == "-" { None } else { Some(path) };
        let frames = matches.get_str("frames");
        let paths = ExtraPaths {
            icc: matches.get_str("icc"),
            exif: matches.get_str("exif"),
            xmp: matches.get_str("xmp"),
        };
        let name = matches
            .get_str("format")
            .or(frames.or(output).and_then(ending));
        Options {
            input: matches.get_str("input").unwrap_or(""),
            frames,
            output,
            output_name: frames.or(output).unwrap_or("standard output"),
            task: task_of(
                matches.get_flag("info"),
                matches.get_one("frame"),
                matches.get_str("output").is_some() || !paths.has_some(),
                name.is_some_and(is_apng),
            ),
            paths,
            format: name.and_then(format_of),
            limits: limits_of(
                matches.get_one("pixels"),
                matches.get_one("bytes"),
                matches.get_one("decisions"),
                matches.get_one("codewords"),
            ),
            quiet: matches.get_flag("quiet"),
            has_output: matches.get_str("output").is_some(),
        }
    }

    /// The name of what fails: of the file, of the output, or of where other data are written.
    pub fn name_of(&self, failure: Failure) -> &'a str
        ensures { result.now ≡ subject self.now failure }
    {
        match failure {
            Failure::Unsaved(extra, _) => self.paths.path_of(extra),
            Failure::Ending | Failure::Unwritable(_) | Failure::Closed => self.output_name,
            _ => self.input,
        }
    }

    /// Whether the output gets bytes of a picture that are no text, in one file.
    pub fn writes_binary(&self) -> bool
        ensures { result ≡ the_binary self.now }
    {
        let is_picture = match self.task {
            Task::Headers | Task::Nothing => false,
            _ => self.frames.is_none(),
        };
        let is_text = match self.format {
            Some(OutputFormat::Netpbm(Format::Text)) => true,
            _ => false,
        };
        is_picture && !is_text
    }

    /// Whether the ending of the picture's path is that of no format, and none is asked for by its name.
    pub fn has_other_ending(&self) -> bool
        ensures { result ≡ the_other self.now }
    {
        match self.frames.or(self.output) {
            Some(path) => self.format.is_none() && ending(path).is_some(),
            None => false,
        }
    }
}
