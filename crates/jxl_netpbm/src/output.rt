//! Bytes that are written to a writer, by as many writes as it takes.

ghost use Rattle.std.specs.Prelude.{◌≡◌, ◌≤◌, length, IfErr, IfOk, OnOk, OnErr};
ghost use Rattle.std.specs.Io.{WritesAtMost};
ghost use Rattle.std.specs.Io.KnownBytes.{Appends, WriteAppends};
ghost use Rattle.std.specs.declared.io.Error.{Error};
ghost use Rattle.jxl_netpbm.specs.Output.{AppendsBeginning, AppendsLess};

use jxlm_base::grid::OutOfMemory;
use std::io::{self, ErrorKind, Write};

/// Why a picture is not written.
#[derive(Clone, Copy, Debug)]
pub enum WriteError {
    /// Out of memory, before the first byte was written.
    OutOfMemory,
    /// The writer's error.
    Writer(io::Error),
}

impl From<OutOfMemory> for WriteError {
    ghost use Rattle.jxl_netpbm.specs.declared.output.WriteError.TheVariants.{OutOfMemory};

    ghost from_gives = { λ _ e. e ≡ OutOfMemory };

    fn from(_error: OutOfMemory) -> WriteError {
        WriteError::OutOfMemory
    }
}

/// A writer that says by which error a write fails.
pub trait Output: Write {
    /// A write that did not take a byte failed by this error.
    ghost fails_by: { Self → Error → Type 0 };

    /// Writes a beginning of the bytes, at least one byte if there is one.
    fn write_part(&mut self, bytes: &[u8]) -> io::Result<usize>
        ensures bound { WritesAtMost result bytes.now }
        ensures some { IfOk result (λ n. 1 ≤ length bytes.now → 1 ≤ n) }
        ensures bytes { WriteAppends (Self.contents self.old) (Self.contents self.new) result bytes.now }
        ensures failed { IfErr result (fails_by self.new) };
}

impl<W: Write> Output for W {
    ghost use Rattle.std.specs.Prelude.{⊤};

    ghost fails_by = { λ _ _. ⊤ };

    // A write that is interrupted is repeated.
    fn write_part(&mut self, bytes: &[u8]) -> io::Result<usize> {
        for _ in 0..u64::MAX {
            match self.write(bytes) {
                Ok(count) => {
                    if count == 0 && !bytes.is_empty() {
                        return Err(io::Error::from(ErrorKind::WriteZero));
                    }
                    return Ok(count);
                }
                Err(error) => {
                    if error.kind() != ErrorKind::Interrupted {
                        return Err(error);
                    }
                }
            }
        }
        Err(io::Error::from(ErrorKind::TimedOut))
    }
}

/// Writes all bytes, by as many writes as it takes. A write that is interrupted is repeated. After an error, which is
/// that of the last write, the writer holds a beginning of the bytes, and not all.
#[tactic(auto, using(crate::proofs::Writing::wrote_less, crate::proofs::Writing::less_begun))]
pub fn write_whole<W: Output>(output: &mut W, bytes: &[u8]) -> io::Result<()>
    ensures ok { OnOk result (Appends (W.contents output.old) (W.contents output.new) bytes.now) }
    ensures err { OnErr result (AppendsBeginning (W.contents output.old) (W.contents output.new) bytes.now) }
    ensures short { OnErr result (AppendsLess (W.contents output.old) (W.contents output.new) bytes.now) }
    ensures failed { IfErr result (W.fails_by output.new) }
{
    let mut at = 0;
    while at < bytes.len() {
        at += output.write_part(&bytes[at..])?;
    }
    Ok(())
}
