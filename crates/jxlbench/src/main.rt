//! Decodes a Modular image of standard input again and again, or encodes it, and prints how long that took.
#![tactic(auto)]

mod checksum;
mod decoding;
mod encoding;
mod request;
mod run;

use jxlmod_commands::run::words_of;
use std::env;
use std::process::ExitCode;

fn main(rt: HostRuntime) -> ExitCode {
    let alloc = rt.alloc();
    let words = words_of(alloc, env::args(&rt)).unwrap_or(Vec::new(alloc));
    let status = match run::run(alloc, &rt, &words, &mut rt.stdin(), &mut rt.stdout()) {
        Ok(()) => 0,
        Err(failure) => run::report(&mut rt.stderr(), failure),
    };
    ExitCode::from(status)
}
