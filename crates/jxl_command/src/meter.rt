//! How far a program has come, on a terminal.

use crate::shown::Shown;
use std::io::{IsTerminal, Stderr, Write};
use std::time::{Duration, Instant};

/// A line that tells how far a program has come.
pub trait Line {
    /// Takes the line away, if there is one.
    fn clear(&mut self);
}

/// Tells how many parts of its work a program has done, in one line of standard error that each later one takes the
/// place of, once the work has taken a second. Nothing is written where it is not asked for.
#[derive(Drop)]
pub struct Meter<'a> {
    rt: &'a HostRuntime,
    program: &'a str,
    name: &'a str,
    errors: Stderr,
    /// When the work began, where it is to be told of.
    start: Option<Instant>,
    done: usize,
    shown: bool,
}

impl<'a> Meter<'a> {
    /// Tells of the file of this name, unless `quiet` is set or standard error is no terminal.
    pub fn new(rt: &'a HostRuntime, program: &'a str, name: &'a str, quiet: bool) -> Meter<'a> {
        let errors = rt.stderr();
        let start = if !quiet && errors.is_terminal() {
            Instant::now(rt).ok()
        } else {
            None
        };
        Meter {
            rt,
            program,
            name,
            errors,
            start,
            done: 0,
            shown: false,
        }
    }

    // Whether the work has taken long enough.
    fn is_due(&self) -> bool {
        match self.start {
            Some(start) => match start.elapsed(self.rt) {
                Ok(time) => time >= Duration::from_secs(1),
                Err(_) => false,
            },
            None => false,
        }
    }

    /// One more part was done, of `count`; after the last one the next is the first again.
    pub fn advance(&mut self, count: usize, parts: &str) {
        self.done = if self.done < count { self.done + 1 } else { 1 };
        if self.is_due() {
            let (program, name, done) = (self.program, Shown(self.name), self.done);
            let _ = write!(
                self.errors,
                "\r\x1b[K{program}: {name}: {done} of {count} {parts}"
            );
            self.shown = true;
        }
    }
}

impl Line for Meter<'_> {
    fn clear(&mut self) {
        if self.shown {
            let _ = write!(self.errors, "\r\x1b[K");
            self.shown = false;
        }
    }
}
