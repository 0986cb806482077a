//! The words of a command line, and how a program ends that cannot obey them.

ghost use Rattle.std.specs.Prelude.{◌≡◌, None};
ghost use Rattle.jxl_command.specs.Streams.{IsReportedLine, memory_line};

use crate::end::End;
use crate::errors::{ErrorStream, is_closed, put_line};
use clap::error::ErrorKind as Kind;
use std::alloc::Global;
use std::env::{self, FillError};
use std::io::{self, ErrorKind};
use std::rt::Env;

/// What the system takes for one word at most (`MAX_ARG_STRLEN` of Linux).
const LONGEST: usize = 131_072;

// The number of the first word that is not UTF-8, if there is one; the program's name has the number 0.
fn first_without_text<R: Env>(rt: &R, alloc: Global) -> Option<usize> {
    let mut word = Vec::new(alloc);
    word.resize(LONGEST, 0).ok()?;
    for number in 0..usize::MAX {
        match rt.arg(number, &mut word) {
            Ok(len) => {
                if std::str::from_utf8(&word[..len]).is_err() {
                    return Some(number);
                }
            }
            Err(FillError::TooLong) => {}
            Err(FillError::NotPresent) => return None,
        }
    }
    None
}

// The words, or the error of the system.
fn words(rt: &HostRuntime, alloc: Global) -> io::Result<Vec<String>> {
    let words: Vec<String> = env::args(rt)?.collect(alloc)?;
    Ok(words)
}

/// Writes that memory ran out for the command line, and returns status 1.
#[tactic(auto, unfolding(crate::specs::Streams::memory_line))]
pub fn end_without_memory<E: ErrorStream>(errors: &mut E, program: &str) -> End
    ensures status { result.status ≡ 1 }
    ensures line { IsReportedLine result.reported (E.contents errors.old) (E.contents errors.new)
        (E.has_failed errors.new) None (memory_line program.now) }
{
    let reported = put_line(errors, format_args!("{program}: out of memory"), None);
    End {
        status: 1,
        reported,
    }
}

// Writes why the words are not read, and returns how to end: with status 2 if one of them is not UTF-8.
fn refuse<E: ErrorStream>(
    rt: &HostRuntime,
    errors: &mut E,
    program: &str,
    error: io::Error,
) -> End {
    if error.kind() == ErrorKind::OutOfMemory {
        return end_without_memory(errors, program);
    }
    match first_without_text(rt, rt.alloc()) {
        Some(number) => End {
            status: 2,
            reported: put_line(
                errors,
                format_args!("{program}: the name of argument {number} is not UTF-8"),
                None,
            ),
        },
        None => End {
            status: 1,
            reported: put_line(
                errors,
                format_args!("{program}: cannot read the command line"),
                Some(error),
            ),
        },
    }
}

/// The words of the command line, of which the first is the program's name. If one of them is not UTF-8, a line says which,
/// and the program is to end with status 2.
pub fn words_or_end<E: ErrorStream>(
    rt: &HostRuntime,
    errors: &mut E,
    program: &str,
) -> Result<Vec<String>, End> {
    match words(rt, rt.alloc()) {
        Ok(words) => Ok(words),
        Err(error) => Err(refuse(rt, errors, program, error)),
    }
}

/// Prints what the parser of the command line says: help or the version on standard output, with status 0; a mistake on
/// standard error, with status 2. If it cannot be printed, or memory ran out, a line says so, with status 1.
pub fn end_of_parsing<E: ErrorStream>(
    rt: &HostRuntime,
    errors: &mut E,
    program: &str,
    error: &clap::Error,
) -> End {
    if matches!(error.kind(), Kind::OutOfMemory) {
        return end_without_memory(errors, program);
    }
    match error.print(rt) {
        Ok(()) => End {
            status: if error.use_stderr() { 2 } else { 0 },
            reported: true,
        },
        Err(_) if error.use_stderr() => End {
            status: 2,
            reported: false,
        },
        Err(failed) if is_closed(&failed) => End {
            status: 1,
            reported: true,
        },
        Err(failed) => End {
            status: 1,
            reported: put_line(
                errors,
                format_args!("{program}: standard output: cannot write"),
                Some(failed),
            ),
        },
    }
}
