//! The program over a clock, a reader and a writer.

use crate::decoding::measure_decoding;
use crate::encoding::measure_encoding;
use crate::request::{Request, Task};
use jxl_modular::encode::EncodeError;
use jxl_modular::error::Error;
use jxl_modular::plain::{PlainDecoder, PlainDecoder2};
use jxl_modular::sample::Sample;
use jxlmod_commands::arguments::{Format, Samples};
use std::alloc::Global;
use std::io;
use std::io::{Read, Write};
use std::time::Clock;

/// What is printed for wrong arguments.
const USAGE: &str = "usage: jxlbench decode W H N BITS i16|i32 REPEAT | \
    jxlbench sections W H N BITS i16|i32 GROUP_DIM REPEAT | \
    jxlbench encode W H N BITS i16|i32 REPEAT, or decode2, sections2 or encode2 and the same words";

/// What was measured.
pub struct Measured {
    /// How long all runs together took.
    pub nanoseconds: u128,
    /// The checksum of the samples, or of the bytes that were written.
    pub checksum: u64,
    /// How many bytes were written.
    pub bytes: usize,
}

/// Why the program did not do what it was asked.
#[derive(Clone, Copy, Debug, PartialEq, Eq)]
pub enum Failure {
    /// The arguments ask for nothing that the program does.
    WrongArguments,
    /// The input or the clock cannot be read, the output cannot be written, or it is out of memory for the input.
    Unusable,
    /// The image gives this error.
    ErrorAt(Error),
    /// The image is not encoded, by this error.
    NotEncoded(EncodeError),
}

impl From<Error> for Failure {
    fn from(error: Error) -> Failure {
        Failure::ErrorAt(error)
    }
}

impl From<EncodeError> for Failure {
    fn from(error: EncodeError) -> Failure {
        Failure::NotEncoded(error)
    }
}

impl From<io::Error> for Failure {
    fn from(_: io::Error) -> Failure {
        Failure::Unusable
    }
}

/// What is measured of a request.
fn measure<S: Sample, C: Clock>(
    alloc: Global,
    clock: &C,
    bytes: &[u8],
    request: Request,
) -> Result<Measured, Failure> {
    match (request.task, request.format) {
        (Task::Decode, Format::First) => {
            measure_decoding::<S, PlainDecoder, C>(alloc, clock, bytes, request)
        }
        (Task::Decode, Format::Second) => {
            measure_decoding::<S, PlainDecoder2, C>(alloc, clock, bytes, request)
        }
        (Task::Encode, _) => measure_encoding::<S, C>(alloc, clock, bytes, request),
    }
}

/// Carries out what the words ask for: reads the input to its end, decodes the image at its start again and again, and
/// prints the nanoseconds that all runs together took, and the checksum of the samples. Or it decodes the image once, of
/// the first format, and encodes it again and again; then it prints the nanoseconds of this, the checksum of the bytes,
/// and how many they are.
pub fn run<R: Read, W: Write, C: Clock>(
    alloc: Global,
    clock: &C,
    words: &[String],
    input: &mut R,
    output: &mut W,
) -> Result<(), Failure> {
    let Some(request) = Request::parse(words) else {
        return Err(Failure::WrongArguments);
    };
    let mut bytes = Vec::new(alloc);
    input.read_to_end(&mut bytes)?;
    let measured = match request.samples {
        Samples::I16 => measure::<i16, C>(alloc, clock, &bytes, request)?,
        Samples::I32 => measure::<i32, C>(alloc, clock, &bytes, request)?,
    };
    let Measured {
        nanoseconds,
        checksum,
        bytes,
    } = measured;
    writeln!(output, "nanoseconds {nanoseconds}")?;
    writeln!(output, "checksum {checksum:016x}")?;
    if request.task != Task::Decode {
        writeln!(output, "bytes {bytes}")?;
    }
    Ok(output.flush()?)
}

/// Writes the line of a failure, as far as it can be written, and returns the status to end with.
pub fn report<E: Write>(errors: &mut E, failure: Failure) -> u8 {
    let _ = match failure {
        Failure::WrongArguments => writeln!(errors, "{USAGE}"),
        Failure::Unusable => writeln!(errors, "error: cannot read, time or write"),
        Failure::ErrorAt(error) => writeln!(errors, "error: {error}"),
        Failure::NotEncoded(error) => writeln!(errors, "error: {error}"),
    };
    match failure {
        Failure::WrongArguments => 2,
        _ => 1,
    }
}
