//! Checks rows of tables of JPEG XL files, of decoders of entropy codes, of deflate streams and of commands, files that
//! the arguments name: each row says what is asked, and what is expected of it. A line that begins with # says what the
//! rows after it are.
#![tactic(auto)]

mod command;
mod example;
mod files;
mod frames;
mod netpbm;
mod pictures;
mod png;
mod printing;
mod profiles;
mod streams;
mod told;
mod words;
mod writing;

use check_rows::{Kinds, Row, check_arguments};
use std::alloc::Global;
use std::io;
use std::process::ExitCode;

/// What comes of a row of a file.
fn seen_of_files(alloc: Global, row: &Row<'_>) -> Option<String> {
    match row.kind {
        "file" => files::seen(alloc, row.asked),
        "frames" => frames::seen(alloc, row.asked),
        "cuts" => files::seen_of_cuts(alloc, row.asked),
        "written" => writing::seen(alloc, row.asked),
        "small" => writing::seen_of_small_writer(alloc, row.asked),
        "info" => told::seen(alloc, row.asked),
        "decoded" => pictures::seen(alloc, row.asked),
        "decided" => pictures::seen_of_decisions(alloc, row.asked),
        "counted" => pictures::seen_of_codewords(alloc, row.asked),
        "sections" => pictures::seen_of_sections(alloc, row.asked),
        "later" => pictures::seen_of_later_error(alloc, row.asked),
        "beginnings" => pictures::seen_of_beginnings(alloc, row.asked),
        "maximum" => pictures::seen_of_maximum(alloc, row.asked),
        "profile" => profiles::seen(alloc, row.asked),
        "metadata" => profiles::seen_of_metadata(alloc, row.asked),
        "profile_again" => profiles::seen_again(alloc, row.asked),
        _ => None,
    }
}

/// What comes of a row of a command.
fn seen_of_commands(alloc: Global, row: &Row<'_>) -> Option<String> {
    match row.kind {
        "run" => command::seen(alloc, row.asked),
        "text" => command::seen_of_text(alloc, row.asked),
        "broken" => command::seen_of_broken_input(alloc, row.asked),
        "room" => command::seen_of_full_output(alloc, row.asked, true),
        "stuck" => command::seen_of_full_output(alloc, row.asked, false),
        "report" => command::seen_of_report(alloc, row.asked),
        "number" => words::seen_of_number(alloc, row.asked),
        "words" => words::seen(alloc, row.asked),
        "print" => printing::seen(alloc, row.asked),
        "netpbm" => netpbm::seen(alloc, row.asked),
        "png" => png::seen(alloc, row.asked),
        _ => None,
    }
}

/// The kinds of rows of files, of decoders of entropy codes, of deflate streams and of commands.
struct FileRows;

impl Kinds for FileRows {
    fn seen(alloc: Global, row: &Row<'_>) -> Option<String> {
        if let Some(seen) = check_streams::seen(alloc, row) {
            return Some(seen);
        }
        if let Some(seen) = check_headers::seen(alloc, row) {
            return Some(seen);
        }
        if let Some(seen) = check_encoder::seen(alloc, row) {
            return Some(seen);
        }
        if let Some(seen) = check_deflate::seen(alloc, row) {
            return Some(seen);
        }
        if let Some(seen) = seen_of_files(alloc, row) {
            return Some(seen);
        }
        seen_of_commands(alloc, row)
    }
}

fn main(rt: HostRuntime) -> io::Result<ExitCode> {
    check_arguments::<FileRows>(&rt)
}
