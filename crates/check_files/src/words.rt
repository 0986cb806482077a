//! Words: `number 'TEXT' -> NUMBER`, the number that a text writes, or `none`; and `words ARGUMENT .. -> WORD ..`, what is
//! left of arguments without the program's name, or `none`. Arguments that fail are `!memory` and `!text`; no argument at
//! all is `!none`.

use jxlmod_commands::arguments;
use jxlmod_commands::run::{Failure, words_of};
use std::alloc::Global;
use std::env::Args;
use std::io;
use std::io::ErrorKind;

/// The number that a text between quotes writes.
pub fn seen_of_number(alloc: Global, asked: &str) -> Option<String> {
    let text = asked.strip_prefix('\'')?.strip_suffix('\'')?;
    match arguments::number(text) {
        Some(number) => format!(in alloc; "{number}").ok(),
        None => String::from_str(alloc, "none").ok(),
    }
}

/// The arguments of a row.
fn arguments_of(alloc: Global, asked: &str) -> Option<io::Result<Args>> {
    match asked {
        "!memory" => return Some(Err(io::Error::from(ErrorKind::OutOfMemory))),
        "!text" => return Some(Err(io::Error::from(ErrorKind::InvalidData))),
        "!none" => return Some(Ok(Vec::new(alloc).into_iter())),
        _ => {}
    }
    let mut words = Vec::new(alloc);
    for word in asked.split_whitespace() {
        words.push(String::from_str(alloc, word).ok()?).ok()?;
    }
    Some(Ok(words.into_iter()))
}

/// The words of the arguments, or why there are none.
pub fn seen(alloc: Global, asked: &str) -> Option<String> {
    match words_of(alloc, arguments_of(alloc, asked)?) {
        Ok(words) if words.is_empty() => String::from_str(alloc, "none").ok(),
        Ok(words) => {
            let mut text = String::new(alloc);
            for word in &words {
                write!(text, "{} ", word.as_str()).ok()?;
            }
            Some(text)
        }
        Err(Failure::WrongArguments) => String::from_str(alloc, "wrong").ok(),
        Err(Failure::Unreadable) => String::from_str(alloc, "unreadable").ok(),
        Err(_) => None,
    }
}
