//! Reads a Modular image from standard input, and prints its samples.
#![tactic(auto)]

use jxlmod_commands::run::{report, run, words_of};
use std::env;
use std::process::ExitCode;

fn main(rt: HostRuntime) -> ExitCode {
    let alloc = rt.alloc();
    let status = match words_of(alloc, env::args(&rt)) {
        Ok(words) => run(
            alloc,
            &words,
            &mut rt.stdin(),
            &mut rt.stdout(),
            &mut rt.stderr(),
        ),
        Err(failure) => report(&mut rt.stderr(), failure),
    };
    ExitCode::from(status)
}
