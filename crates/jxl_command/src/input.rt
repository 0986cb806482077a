//! What a program reads: a file that is opened when it is first read.

ghost use Rattle.std.specs.Prelude.{◌≡◌, ◌<◌, ◌≤◌, ℕ, List, IfErr, IfOk, None, OnErr, OnOk, Option, is_some, length, take, true};
ghost use Rattle.std.specs.Io.KnownBytes.{Consumes, IsAtEnd, Keeps};
ghost use Rattle.std.specs.Option.{option_and_then};
ghost use Rattle.std.specs.declared.io.Error.{Error};
ghost use Rattle.jxl_command.specs.Streams.{IsReadPart};

use std::alloc::Global;
use std::fs;
use std::io::{self, ErrorKind, Read, Stdin};
use std::rt::Files;

/// A reader that says by which error a read of all that is left fails.
pub trait InputStream: Read {
    /// What is left cannot be read, by this error, or it is out of memory for it.
    ghost fails_by: { Self → Error → Type 0 };

    /// Reads all bytes that are left.
    fn read_rest(&mut self, alloc: Global) -> io::Result<Vec<u8>>
        ensures read { IfOk result (λ v. Consumes (Self.remaining self.old) (Self.remaining self.new) v.items) }
        ensures ended { OnOk result (IsAtEnd (Self.remaining self.new)) }
        ensures part { OnErr result (IsReadPart (Self.remaining self.old) (Self.remaining self.new)) }
        ensures err { IfErr result (fails_by self.new) };

    /// Reads bytes up to this number: fewer only if no more are left.
    fn read_start(&mut self, alloc: Global, count: usize) -> io::Result<Vec<u8>>
        ensures read { IfOk result (λ v. Consumes (Self.remaining self.old) (Self.remaining self.new) v.items) }
        ensures most { IfOk result (λ v. length v.items ≤ count) }
        ensures short { IfOk result (λ v. length v.items < count → IsAtEnd (Self.remaining self.new)) }
        ensures part { OnErr result (IsReadPart (Self.remaining self.old) (Self.remaining self.new)) }
        ensures err { IfErr result (fails_by self.new) };

    /// Reads all bytes that are left after `start`, which was read before. It returns both.
    fn read_on(&mut self, start: Vec<u8>) -> io::Result<Vec<u8>>
        ensures read { (left : Option (List ℕ)) → Consumes left (Self.remaining self.old) start.items
            → IfOk result (λ v. Consumes left (Self.remaining self.new) v.items) }
        ensures starts { IfOk result (λ v. take (length start.items) v.items ≡ start.items) }
        ensures ended { OnOk result (IsAtEnd (Self.remaining self.new)) }
        ensures part { OnErr result (IsReadPart (Self.remaining self.old) (Self.remaining self.new)) }
        ensures err { IfErr result (fails_by self.new) };
}

/// A file that is opened at the first read: a file that cannot be opened is an error of that read.
#[derive(Drop)]
pub struct InputFile<'a, R: Files> {
    rt: &'a R,
    path: &'a str,
    file: Option<R::File>,
}

impl<'a, R: Files> InputFile<'a, R> {
    /// The file of this path, which is not opened yet.
    pub fn new(rt: &'a R, path: &'a str) -> InputFile<'a, R>
        ensures files { result.rt ≡ rt.entry }
        ensures path { result.path ≡ path.entry }
        ensures closed { result.file ≡ None }
    {
        InputFile {
            rt,
            path,
            file: None,
        }
    }

    // Opens the file, if that is not done.
    fn open(&mut self) -> io::Result<()>
        ensures opened { OnOk result (is_some self.new.file ≡ true) }
        ensures kept { Keeps (option_and_then R.File.remaining self.old.file)
            (option_and_then R.File.remaining self.new.file) }
    {
        if self.file.is_none() {
            self.file = Some(fs::open(self.rt, self.path)?);
        }
        Ok(())
    }
}

impl<'a, R: Files> Read for InputFile<'a, R> {
    ghost remaining = { λ input. option_and_then R.File.remaining input.file };

    fn read(&mut self, buf: &mut [u8]) -> io::Result<usize> {
        self.open()?;
        match &mut self.file {
            Some(file) => file.read(buf),
            None => Ok(0),
        }
    }
}

impl<R: Files> InputStream for InputFile<'_, R> {
    ghost use Rattle.std.specs.Prelude.{⊤};

    ghost fails_by = { λ _ _. ⊤ };

    fn read_rest(&mut self, alloc: Global) -> io::Result<Vec<u8>> {
        read_whole(alloc, self)
    }

    fn read_start(&mut self, alloc: Global, count: usize) -> io::Result<Vec<u8>> {
        read_first(alloc, self, count)
    }

    fn read_on(&mut self, start: Vec<u8>) -> io::Result<Vec<u8>> {
        read_after(self, start)
    }
}

impl InputStream for Stdin {
    ghost use Rattle.std.specs.Prelude.{⊤};

    ghost fails_by = { λ _ _. ⊤ };

    fn read_rest(&mut self, alloc: Global) -> io::Result<Vec<u8>> {
        read_whole(alloc, self)
    }

    fn read_start(&mut self, alloc: Global, count: usize) -> io::Result<Vec<u8>> {
        read_first(alloc, self, count)
    }

    fn read_on(&mut self, start: Vec<u8>) -> io::Result<Vec<u8>> {
        read_after(self, start)
    }
}

/// Reads all bytes that are left.
pub fn read_whole<R: Read>(alloc: Global, input: &mut R) -> io::Result<Vec<u8>>
    ensures read { IfOk result (λ v. Consumes (R.remaining input.old) (R.remaining input.new) v.items) }
    ensures ended { OnOk result (IsAtEnd (R.remaining input.new)) }
    ensures part { OnErr result (IsReadPart (R.remaining input.old) (R.remaining input.new)) }
{
    let mut bytes = Vec::new(alloc);
    input.read_to_end(&mut bytes)?;
    Ok(bytes)
}

// Fills a buffer with the next bytes, unless fewer are left. It returns how many were read. A read that is interrupted is
// repeated.
fn fill<R: Read>(input: &mut R, buf: &mut [u8]) -> io::Result<usize>
    ensures read { IfOk result (λ n. Consumes (R.remaining input.old) (R.remaining input.new) (take n buf.new)) }
    ensures most { IfOk result (λ n. n ≤ length buf.new) }
    ensures short { IfOk result (λ n. n < length buf.new → IsAtEnd (R.remaining input.new)) }
    ensures len { length buf.new ≡ length buf.old }
    ensures part { OnErr result (IsReadPart (R.remaining input.old) (R.remaining input.new)) }
{
    let mut at = 0;
    for _ in 0..u64::MAX {
        if at >= buf.len() {
            return Ok(at);
        }
        match input.read(&mut buf[at..]) {
            Ok(0) => return Ok(at),
            Ok(count) => at += count,
            Err(error) => {
                if error.kind() != ErrorKind::Interrupted {
                    return Err(error);
                }
            }
        }
    }
    Err(io::Error::from(ErrorKind::TimedOut))
}

/// Reads bytes up to this number: fewer only if no more are left.
pub fn read_first<R: Read>(alloc: Global, input: &mut R, count: usize) -> io::Result<Vec<u8>>
    ensures read { IfOk result (λ v. Consumes (R.remaining input.old) (R.remaining input.new) v.items) }
    ensures most { IfOk result (λ v. length v.items ≤ count) }
    ensures short { IfOk result (λ v. length v.items < count → IsAtEnd (R.remaining input.new)) }
    ensures part { OnErr result (IsReadPart (R.remaining input.old) (R.remaining input.new)) }
{
    let mut bytes = Vec::new(alloc);
    bytes.resize(count, 0)?;
    let filled = fill(input, &mut bytes)?;
    bytes.truncate(filled);
    Ok(bytes)
}

/// Reads all bytes that are left after `start`, which was read before. It returns both.
pub fn read_after<R: Read>(input: &mut R, start: Vec<u8>) -> io::Result<Vec<u8>>
    ensures read { (left : Option (List ℕ)) → Consumes left (R.remaining input.old) start.items
        → IfOk result (λ v. Consumes left (R.remaining input.new) v.items) }
    ensures starts { IfOk result (λ v. take (length start.items) v.items ≡ start.items) }
    ensures ended { OnOk result (IsAtEnd (R.remaining input.new)) }
    ensures part { OnErr result (IsReadPart (R.remaining input.old) (R.remaining input.new)) }
{
    let mut bytes = start;
    input.read_to_end(&mut bytes)?;
    Ok(bytes)
}
