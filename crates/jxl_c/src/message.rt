//! The text of a reason, as C reads it.

ghost use Rattle.std.specs.Prelude.{◌≡◌, ◌≤◌};
ghost use Rattle.jxl_c.specs.Messages.{IsMessage, with_message};
ghost use Rattle.jxl_c.specs.Statuses.{status_of};

use crate::status::status_of_error;
use jxl_lossless::FileError;
use std::alloc::Global;

/// Writes as much of a message as there is room for, and a zero after it.
pub fn put_message(text: &mut [u8], message: &[u8])
    ensures { text.new ≡ with_message text.old message.now }
{
    if text.is_empty() {
        return;
    }
    let most = message.len().min(text.len() - 1);
    text[..most].copy_from_slice(&message[..most]);
    text[most] = 0;
}

// Writes the reason, as far as there is room and memory.
fn put_reason(alloc: Global, text: &mut [u8], error: FileError)
    ensures { IsMessage text.old text.new }
{
    match format!(in alloc; "{error}") {
        Ok(message) => put_message(text, message.as_bytes()),
        Err(_) => put_message(text, b"out of memory"),
    }
}

/// Writes the reason, and returns its status.
pub fn fail(alloc: Global, text: &mut [u8], error: FileError) -> u32
    ensures status { result ≡ status_of error }
    ensures some { 1 ≤ result }
    ensures few { result ≤ 6 }
    ensures message { IsMessage text.old text.new }
{
    put_reason(alloc, text, error);
    status_of_error(error)
}
