//! The program over a reader and two writers.
ghost use Rattle.std.specs.Prelude.{◌≡◌, ◌≢◌, ℕ, ◌≤◌, ◌↔◌, ◌⊎◌, List, map, drop, Result, Ok, Err, MatchResult, string_bytes, IfOk, IfErr, IsOk, IsOkAnd, IsErrAnd, IsErrOf, IsOkUnless, OnOk};
ghost use Rattle.std.specs.Io.KnownBytes.{Appends};
ghost use Rattle.std.specs.IoError.{error_kind};
ghost use Rattle.std.specs.Vec.Iter.{into_iter_items};
ghost use Rattle.jxlmod_commands.specs.declared.refusal.Refusal.{Refusal};
ghost use Rattle.jxlmod_commands.specs.declared.arguments.Command.{Command};
ghost use Rattle.jxlmod_commands.specs.Arguments.{AreFor, AreWrong, IsIdle, IsWithinLimits};
ghost use Rattle.jxlmod_commands.specs.PictureText.{Prints};
ghost use Rattle.jxlmod_commands.specs.Run.{IsPrinted, IsPartlyRead, status_of};
ghost use Rattle.jxlmod_commands.specs.Reading.{IsReadWhole};

use crate::arguments::{Command, USAGE};
use crate::printer::PartPrinter;
use crate::refusal::Refusal;
use std::alloc::{AllocError, Global};
use std::env::Args;
use std::io;
use std::io::{ErrorKind, Read, Write};

/// Why the program did not do what it was asked.
#[derive(Clone, Copy, Debug, PartialEq, Eq)]
pub enum Failure {
    /// The arguments ask for nothing that the program does.
    WrongArguments,
    /// The input cannot be read, or it is out of memory for it.
    Unreadable,
    /// Nothing can be made of the input, by this error.
    Refused(Refusal),
    /// The output cannot be written.
    Unwritable,
}

impl From<Refusal> for Failure {
    ghost use Rattle.jxlmod_commands.specs.declared.run.Failure.TheVariants.{Refused};

    ghost from_gives = { λ refusal failure. failure ≡ Refused refusal };

    fn from(refusal: Refusal) -> Failure {
        Failure::Refused(refusal)
    }
}

/// What makes the output of the bytes of the input.
pub trait Print {
    // what may be returned for the bytes and the command: the bytes to write, or an error
    ghost may_return: { List ℕ → Command → Result (List ℕ) Refusal → Type 0 };

    /// What is to be written for a command that is not idle.
    fn print(&self, alloc: Global, bytes: &[u8], command: Command) -> Result<Vec<u8>, Refusal>
        requires within { IsWithinLimits command }
        requires busy { ¬ (IsIdle command) }
        ensures { MatchResult result
            (λ made. may_return bytes.now command (Ok made.items))
            (λ refusal. may_return bytes.now command (Err refusal)) };
}

/// Carries out what the words ask for, which are the arguments without the program's name, and
/// returns the status to end with: 0 where it is done, 1 where it fails, and 2 where the words are
/// wrong, and then nothing is read. The printer makes what is written from the bytes of the input. The
/// output gets that alone and `errors` a line on what failed, each as far as it can be written. An image
/// of no channels is nothing: no stream is touched.
pub fn run_with<R: Read, W: Write, E: Write, P: Print>(
    alloc: Global,
    words: &[String],
    input: &mut R,
    output: &mut W,
    errors: &mut E,
    printer: &P,
) -> u8
    ensures status { result ≤ 2 }

    // Wrong words: nothing is read, and the output stays.
    ensures wrong { (result ≡ 2) ↔ AreWrong (map string_bytes words.now) }
    ensures unread { result ≡ 2 → (input.new ≡ input.old) × (output.new ≡ output.old) }

    // An idle command: nothing is done.
    ensures nothing { (c : Command) → AreFor (map string_bytes words.now) c → IsIdle c
        → (result ≡ 0) × (input.new ≡ input.old) × (output.new ≡ output.old) × (errors.new ≡ errors.old) }

    // Done: the output has what was made of all the input, and no error is printed.
    ensures done { result ≡ 0 → (c : Command) → AreFor (map string_bytes words.now) c → ¬ (IsIdle c)
        → IsPrinted (λ bytes made. P.may_return bytes c (Ok made))
        (R.remaining input.old) (R.remaining input.new) (W.contents output.old) (W.contents output.new) }
    ensures quiet { result ≡ 0 → errors.new ≡ errors.old }

    // An error, for a command that is not idle alone: it is printed, and the output stays; or the output cannot be
    // written, and nothing is printed. Of the input nothing is lost.
    ensures failed { result ≡ 1 → (output.new ≡ output.old) ⊎ (errors.new ≡ errors.old) }
    ensures asked { result ≡ 1
        → IsPartlyRead (AreFor (map string_bytes words.now)) (R.remaining input.old) (R.remaining input.new) }
{
    match carry_out(alloc, words, input, output, printer) {
        Ok(()) => 0,
        Err(failure) => report(errors, failure),
    }
}

/// Carries out what the words ask for, as `run_with` does: `decode W H N BITS i16|i32` reads a picture
/// of `N` channels of `W` by `H` samples from the input, in one part and in the format of the plain
/// decoder, and prints its samples; `sections W H N BITS i16|i32 GROUP_DIM` reads one that is cut into
/// sections, with groups of the side `GROUP_DIM`; `encode i16|i32` reads an image as these print it, and
/// writes the bytes that it has with no transform and one leaf, which predicts by `Gradient`. `decode2`,
/// `sections2` and `encode2` do so in the second plain format.
pub fn run<R: Read, W: Write, E: Write>(
    alloc: Global,
    words: &[String],
    input: &mut R,
    output: &mut W,
    errors: &mut E,
) -> u8
    ensures status { result ≤ 2 }
    ensures wrong { (result ≡ 2) ↔ AreWrong (map string_bytes words.now) }
    ensures unread { result ≡ 2 → (input.new ≡ input.old) × (output.new ≡ output.old) }
    ensures nothing { (c : Command) → AreFor (map string_bytes words.now) c → IsIdle c
        → (result ≡ 0) × (input.new ≡ input.old) × (output.new ≡ output.old) × (errors.new ≡ errors.old) }
    ensures done { result ≡ 0 → (c : Command) → AreFor (map string_bytes words.now) c → ¬ (IsIdle c)
        → IsPrinted (λ bytes made. Prints bytes c made)
        (R.remaining input.old) (R.remaining input.new) (W.contents output.old) (W.contents output.new) }
    ensures quiet { result ≡ 0 → errors.new ≡ errors.old }
    ensures failed { result ≡ 1 → (output.new ≡ output.old) ⊎ (errors.new ≡ errors.old) }
    ensures asked { result ≡ 1
        → IsPartlyRead (AreFor (map string_bytes words.now)) (R.remaining input.old) (R.remaining input.new) }
{
    run_with(alloc, words, input, output, errors, &PartPrinter)
}

/// Carries out what the words ask for, as `run_with` does, and returns why it was not done.
///
/// # Errors
///
/// `WrongArguments` comes before the input is read. `Unreadable` shows only for a command that
/// is not idle. `Refused` has the error that the printer returns for all the bytes of the input, and the
/// output stays then; `Unwritable` shows only when there was something to write.
pub fn carry_out<R: Read, W: Write, P: Print>(
    alloc: Global,
    words: &[String],
    input: &mut R,
    output: &mut W,
    printer: &P,
) -> Result<(), Failure>
    ensures wrong { IsErrOf result Failure.WrongArguments ↔ AreWrong (map string_bytes words.now) }
    ensures unread { IsErrOf result Failure.WrongArguments → input.new ≡ input.old }
    ensures kept { IfErr result (λ failure. failure ≢ Failure.Unwritable → output.new ≡ output.old) }
    ensures asked { IfErr result (λ failure. failure ≢ Failure.WrongArguments
        → IsPartlyRead (AreFor (map string_bytes words.now)) (R.remaining input.old) (R.remaining input.new)) }
    ensures nothing { (c : Command) → AreFor (map string_bytes words.now) c → IsIdle c
        → IsOk result × (input.new ≡ input.old) × (output.new ≡ output.old) }
    ensures done { OnOk result ((c : Command) → AreFor (map string_bytes words.now) c → ¬ (IsIdle c)
        → IsPrinted (λ bytes made. P.may_return bytes c (Ok made))
        (R.remaining input.old) (R.remaining input.new) (W.contents output.old) (W.contents output.new)) }
    ensures failed { IfErr result (λ failure. (e : Refusal) → failure ≡ Failure.Refused e
        → IsReadWhole (λ c bytes. AreFor (map string_bytes words.now) c × P.may_return bytes c (Err e))
        (R.remaining input.old) (R.remaining input.new)) }
    ensures unwritten { IfErr result (λ failure. failure ≡ Failure.Unwritable → IsReadWhole (λ c bytes.
        AreFor (map string_bytes words.now) c × ((made : List ℕ) × P.may_return bytes c (Ok made)))
        (R.remaining input.old) (R.remaining input.new)) }
{
    let Some(command) = Command::parse(words) else {
        return Err(Failure::WrongArguments);
    };
    if command.is_idle() {
        return Ok(());
    }
    let mut bytes = Vec::new(alloc);
    if input.read_to_end(&mut bytes).is_err() {
        return Err(Failure::Unreadable);
    }
    let made = printer.print(alloc, &bytes, command)?;
    write_bytes(output, &made)
}

fn write_bytes<W: Write>(output: &mut W, bytes: &[u8]) -> Result<(), Failure>
    ensures ok { OnOk result (Appends (W.contents output.old) (W.contents output.new) bytes.now) }
    ensures err { IsOkUnless result Failure.Unwritable }
{
    if output.write_all(bytes).is_err() || output.flush().is_err() {
        return Err(Failure::Unwritable);
    }
    Ok(())
}

/// Writes the line of a failure, as far as it can be written, and returns the status to end with.
/// Of output that cannot be written nothing is said.
pub fn report<E: Write>(errors: &mut E, failure: Failure) -> u8
    ensures status { result ≡ status_of failure }
    ensures silent { failure ≡ Failure.Unwritable → errors.new ≡ errors.old }
{
    let _ = match failure {
        Failure::WrongArguments => writeln!(errors, "{USAGE}"),
        Failure::Unreadable => writeln!(errors, "error: cannot read standard input"),
        Failure::Refused(refusal) => writeln!(errors, "error: {refusal}"),
        Failure::Unwritable => Ok(()),
    };
    match failure {
        Failure::WrongArguments => 2,
        _ => 1,
    }
}

/// The words of the arguments: all but the first, which is the program's name. Arguments that are
/// not text are wrong ones; where it is out of memory for them, the input cannot be read either.
pub fn words_of(alloc: Global, arguments: io::Result<Args>) -> Result<Vec<String>, Failure>
    ensures ok { IfOk result (λ words. IsOkAnd arguments (λ all. words.items ≡ drop 1 (into_iter_items all))) }
    ensures wrong { IsErrOf result Failure.WrongArguments ↔ IsErrAnd arguments
        (λ e. error_kind e ≢ ErrorKind.OutOfMemory) }
    ensures err { IfErr result (λ failure. (failure ≡ Failure.WrongArguments) ⊎ (failure ≡ Failure.Unreadable)) }
{
    match arguments {
        Ok(all) => all_but_first(alloc, all).map_err(|_| Failure::Unreadable),
        Err(e) if e.kind() == ErrorKind::OutOfMemory => Err(Failure::Unreadable),
        Err(_) => Err(Failure::WrongArguments),
    }
}

fn all_but_first(alloc: Global, all: Args) -> Result<Vec<String>, AllocError>
    ensures { IfOk result (λ words. words.items ≡ drop 1 (into_iter_items all)) }
{
    all.skip(1).collect(alloc)
}
