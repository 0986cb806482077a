//! Commands: `run ARGUMENTS | BYTES -> STATUS | OUTPUT | ERRORS`.
//!
//! The arguments have one space between each two. The bytes are hexadecimal, with a star and a number after those that
//! stand more than once. Of what is written, each line ends with a slash. The input fails after its bytes in a row of the
//! kind `broken`. The output takes as many bytes as the number says that comes first in a row of the kind `room`, and in
//! one of the kind `stuck` it cannot pass them on, either.
//!
//! `text ARGUMENTS | TEXT -> STATUS | BYTES | ERRORS` is the same of a text, whose lines end with a slash, too; what is
//! written on standard output is hexadecimal.
//!
//! `report FAILURE ROOM -> STATUS | ERRORS` is what is said of a failure where standard error takes this number of
//! bytes.

use crate::streams::{BrokenReader, SmallWriter};
use check_rows::{number, repeated, word};
use jxl_text::reading::TextError;
use jxlm_base::grid::OutOfMemory;
use jxlm_bits::decoder::DecoderError;
use jxlm_bits::error::Error;
use jxlm_encode::encode::EncodeError;
use jxlmod_commands::refusal::Refusal;
use jxlmod_commands::run::{Failure, report, run};
use std::alloc::Global;
use std::io::{Read, Write};

/// A command and its input.
#[derive(Drop)]
struct Command {
    words: Vec<String>,
    bytes: Vec<u8>,
}

impl Command {
    /// What a row asks.
    fn parse(alloc: Global, asked: &str) -> Option<Command> {
        let (line, bytes) = asked.rsplit_once('|')?;
        let line = line.strip_suffix(' ').unwrap_or(line);
        let words = words_in(alloc, line)?;
        let bytes = repeated(alloc, bytes)?;
        Some(Command { words, bytes })
    }
}

/// The words of a line.
fn words_in(alloc: Global, line: &str) -> Option<Vec<String>> {
    let mut words = Vec::new(alloc);
    for word in line.split(' ') {
        words.push(String::from_str(alloc, word).ok()?).ok()?;
    }
    Some(words)
}

/// Adds what was written, with a slash for each end of a line.
pub fn add_lines(text: &mut String, bytes: &[u8]) -> Option<()> {
    for c in std::str::from_utf8(bytes).ok()?.chars() {
        text.push(if c == '\n' { '/' } else { c }).ok()?;
    }
    Some(())
}

/// The status, and what was written.
fn written(alloc: Global, status: u8, output: &[u8], errors: &[u8]) -> Option<String> {
    let mut text = String::new(alloc);
    write!(text, "{status} | ").ok()?;
    add_lines(&mut text, output)?;
    write!(text, " | ").ok()?;
    add_lines(&mut text, errors)?;
    Some(text)
}

/// The status with which the program ends, and what it writes on standard error.
fn ended<R: Read, W: Write>(
    alloc: Global,
    words: &[String],
    input: &mut R,
    output: &mut W,
) -> (u8, Vec<u8>) {
    let mut errors = Vec::new(alloc);
    let status = run(alloc, words, input, output, &mut errors);
    (status, errors)
}

/// What the program does.
pub fn seen(alloc: Global, asked: &str) -> Option<String> {
    let command = Command::parse(alloc, asked)?;
    let mut input = command.bytes.as_slice();
    let mut output = Vec::new(alloc);
    let (status, errors) = ended(alloc, &command.words, &mut input, &mut output);
    written(alloc, status, &output, &errors)
}

/// What it does with a text, and the bytes that it writes.
pub fn seen_of_text(alloc: Global, asked: &str) -> Option<String> {
    let (words, lines) = asked.split_once(" | ")?;
    let words = words_in(alloc, words)?;
    let mut text = Vec::new(alloc);
    for byte in lines.bytes() {
        text.push(if byte == b'/' { b'\n' } else { byte }).ok()?;
    }
    let mut input = text.as_slice();
    let mut output = Vec::new(alloc);
    let (status, errors) = ended(alloc, &words, &mut input, &mut output);
    let mut seen = String::new(alloc);
    write!(seen, "{status} | ").ok()?;
    for byte in &output {
        write!(seen, "{byte:02x}").ok()?;
    }
    write!(seen, " | ").ok()?;
    add_lines(&mut seen, &errors)?;
    Some(seen)
}

/// What it does where the input fails after its bytes.
pub fn seen_of_broken_input(alloc: Global, asked: &str) -> Option<String> {
    let command = Command::parse(alloc, asked)?;
    let mut input = BrokenReader {
        bytes: command.bytes.as_slice(),
    };
    let mut output = Vec::new(alloc);
    let (status, errors) = ended(alloc, &command.words, &mut input, &mut output);
    written(alloc, status, &output, &errors)
}

/// What it does where the output takes this number of bytes, which it can pass on or not.
pub fn seen_of_full_output(alloc: Global, asked: &str, flushes: bool) -> Option<String> {
    let (room, asked) = word(asked);
    let command = Command::parse(alloc, asked)?;
    let mut input = command.bytes.as_slice();
    let mut output = SmallWriter {
        taken: Vec::new(alloc),
        room: number(room)? as usize,
        flushes,
    };
    let (status, errors) = ended(alloc, &command.words, &mut input, &mut output);
    written(alloc, status, &output.taken, &errors)
}

/// The failure of an image that has this error.
fn image_failure(error: Error) -> Option<Failure> {
    Some(Failure::Refused(Refusal::Image(error)))
}

/// The failure of this name.
fn failure(name: &str) -> Option<Failure> {
    match name {
        "wrong" => Some(Failure::WrongArguments),
        "unreadable" => Some(Failure::Unreadable),
        "unwritable" => Some(Failure::Unwritable),
        "memory" => image_failure(Error::Buffer(OutOfMemory)),
        "memory_of_decoder" => image_failure(Error::Decoder(DecoderError::OutOfMemory)),
        "memory_of_text" => Some(Failure::Refused(Refusal::Text(TextError::OutOfMemory))),
        "memory_of_encoder" => Some(Failure::Refused(Refusal::Encoder(EncodeError::OutOfMemory))),
        _ => None,
    }
}

/// What is said of a failure.
pub fn seen_of_report(alloc: Global, asked: &str) -> Option<String> {
    let (name, room) = word(asked);
    let mut errors = SmallWriter {
        taken: Vec::new(alloc),
        room: number(room)? as usize,
        flushes: true,
    };
    let status = report(&mut errors, failure(name)?);
    let mut text = String::new(alloc);
    write!(text, "{status} | ").ok()?;
    add_lines(&mut text, &errors.taken)?;
    Some(text)
}
