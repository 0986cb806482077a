//! What a program writes to: standard output, or a file that is made when it is first written to.

ghost use Rattle.std.specs.Prelude.{◌≡◌, IfErr, None, OnErr, OnOk, false, is_some, true};
ghost use Rattle.std.specs.Io.KnownBytes.{Appends, Keeps};
ghost use Rattle.std.specs.Option.{option_and_then};
ghost use Rattle.jxl_command.specs.Streams.{terminal_text as the_terminal_text};
ghost use Rattle.jxl_netpbm.specs.Output.{AppendsBeginning};

use jxl_netpbm::output::{Output, write_whole};
use std::fs;
use std::io::{self, IsTerminal, Stdout, Write};
use std::rt::Files;

/// A writer that says whether it is flushed. A flush fails by an error by which a write fails.
pub trait Flush: Output {
    /// It is there, also if nothing was written, and passed on all that was written.
    ghost is_flushed: { Self → Type 0 };

    /// Makes it, if nothing was written, and passes on all that was written.
    fn flush_all(&mut self) -> io::Result<()>
        ensures bytes { Keeps (Self.contents self.old) (Self.contents self.new) }
        ensures flushed { OnOk result (is_flushed self.new) }
        ensures failed { IfErr result (Self.fails_by self.new) };
}

/// A file that is made, or emptied, at the first write or flush: before that, nothing of it changes.
#[derive(Drop)]
pub struct OutputFile<'a, R: Files> {
    rt: &'a R,
    path: &'a str,
    file: Option<R::File>,
    /// Whether a write was begun since the file was last flushed.
    waits: bool,
}

impl<'a, R: Files> OutputFile<'a, R> {
    /// The file of this path, which is not made yet.
    pub fn new(rt: &'a R, path: &'a str) -> OutputFile<'a, R>
        ensures files { result.rt ≡ rt.entry }
        ensures path { result.path ≡ path.entry }
        ensures closed { result.file ≡ None }
        ensures flushed { result.waits ≡ false }
    {
        OutputFile {
            rt,
            path,
            file: None,
            waits: false,
        }
    }

    // Makes or empties the file, if that is not done.
    fn open(&mut self) -> io::Result<()>
        ensures opened { OnOk result (is_some self.new.file ≡ true) }
        ensures kept { Keeps (option_and_then R.File.contents self.old.file)
            (option_and_then R.File.contents self.new.file) }
    {
        if self.file.is_none() {
            self.file = Some(fs::create(self.rt, self.path)?);
        }
        Ok(())
    }
}

impl<'a, R: Files> Write for OutputFile<'a, R> {
    ghost contents = { λ output. option_and_then R.File.contents output.file };

    fn write(&mut self, buf: &[u8]) -> io::Result<usize> {
        self.open()?;
        self.waits = true;
        match &mut self.file {
            Some(file) => file.write(buf),
            None => Ok(0),
        }
    }

    fn flush(&mut self) -> io::Result<()> {
        match &mut self.file {
            Some(file) => file.flush(),
            None => Ok(()),
        }
    }
}

impl<'a, R: Files> Flush for OutputFile<'a, R> {
    ghost is_flushed = { λ output. (is_some output.file ≡ true) × (output.waits ≡ false) };

    fn flush_all(&mut self) -> io::Result<()> {
        self.open()?;
        self.waits = false;
        match &mut self.file {
            Some(file) => file.flush(),
            None => Ok(()),
        }
    }
}

impl Flush for Stdout {
    ghost use Rattle.std.specs.Prelude.{⊤};

    ghost is_flushed = { λ _. ⊤ };

    fn flush_all(&mut self) -> io::Result<()> {
        self.flush()
    }
}

/// Writes all bytes, and passes them on. An error is that of the last write, or of the flush.
pub fn write_flushed<W: Flush>(output: &mut W, bytes: &[u8]) -> io::Result<()>
    ensures ok { OnOk result (Appends (W.contents output.old) (W.contents output.new) bytes.now) }
    ensures flushed { OnOk result (W.is_flushed output.new) }
    ensures begun { OnErr result (AppendsBeginning (W.contents output.old) (W.contents output.new) bytes.now) }
    ensures failed { IfErr result (W.fails_by output.new) }
{
    write_whole(output, bytes)?;
    output.flush_all()?;
    Ok(())
}

/// Whether standard output is a terminal, and the command line does not ask for it: `given` is whether an output is named.
pub fn is_unasked_terminal(rt: &HostRuntime, given: bool) -> bool {
    !given && rt.stdout().is_terminal()
}

/// Why nothing is written to a terminal that was not asked for.
#[tactic(auto, unfolding(crate::specs::Streams::terminal_text))]
pub fn terminal_text() -> &'static str
    ensures { result.now ≡ the_terminal_text }
{
    "a terminal; -o OUT writes to a file, -o - to standard output"
}
