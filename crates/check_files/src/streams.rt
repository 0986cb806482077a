//! Readers and writers that fail.

use std::io;
use std::io::{ErrorKind, Read, Write};

/// Gives its bytes, and then fails.
#[derive(Drop)]
pub struct BrokenReader<'a> {
    /// What is left of them.
    pub bytes: &'a [u8],
}

impl Read for BrokenReader<'_> {
    fn read(&mut self, buf: &mut [u8]) -> io::Result<usize> {
        let n = self.bytes.read(buf)?;
        if n == 0 && !buf.is_empty() {
            return Err(io::Error::from(ErrorKind::Other));
        }
        Ok(n)
    }
}

/// Takes one byte in each call, as long as there is room.
#[derive(Drop)]
pub struct SmallWriter {
    /// What was taken.
    pub taken: Vec<u8>,
    /// How many bytes it takes.
    pub room: usize,
    /// Whether it can pass them on.
    pub flushes: bool,
}

impl Write for SmallWriter {
    fn write(&mut self, buf: &[u8]) -> io::Result<usize> {
        if self.taken.len() >= self.room {
            return Err(io::Error::from(ErrorKind::Other));
        }
        if buf.is_empty() {
            return Ok(0);
        }
        self.taken.push(buf[0])?;
        Ok(1)
    }

    fn flush(&mut self) -> io::Result<()> {
        if self.flushes {
            Ok(())
        } else {
            Err(io::Error::from(ErrorKind::Other))
        }
    }
}
