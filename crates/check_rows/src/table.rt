//! Tables: files of rows, which a program takes as arguments.

use crate::row::Row;
use std::alloc::Global;
use std::io::{self, BufRead, BufReader};
use std::process::ExitCode;
use std::{env, fs};

/// The kinds of rows that a program checks.
pub trait Kinds {
    /// What comes of a row, by its kind; none if the row cannot be read.
    fn seen(alloc: Global, row: &Row<'_>) -> Option<String>;
}

// Checks the rows of a file: prints each that is wrong, with the file's name, and at the end the number of all.
fn check_file<K: Kinds>(rt: &HostRuntime, name: &str) -> io::Result<()> {
    let alloc = rt.alloc();
    let mut rows = 0u64;
    for line in BufReader::new(alloc, fs::open(rt, name)?)?.lines(alloc) {
        let line = line?;
        let Some(row) = Row::parse(line.as_str()) else {
            continue;
        };
        if let Some(seen) = row.fault(alloc, K::seen(alloc, &row))? {
            println!(rt; "{name}: wrong: {line}\n  seen: {seen}")?;
        }
        rows = rows.saturating_add(1);
    }
    println!(rt; "{name}: {rows} rows")
}

/// Checks the rows of the files that the program's arguments name, in turn. A file that cannot be read is reported on
/// standard error, and the status is then 1.
pub fn check_arguments<K: Kinds>(rt: &HostRuntime) -> io::Result<ExitCode> {
    let mut code = ExitCode::SUCCESS;
    for name in env::args(rt)?.skip(1) {
        if let Err(error) = check_file::<K>(rt, name.as_str()) {
            eprintln!(rt; "{name}: {error}")?;
            code = ExitCode::FAILURE;
        }
    }
    Ok(code)
}
