//! Netpbm files that are drawn: `KIND WIDTHxHEIGHT BITS NOISE SEED`, and perhaps ` PLAIN`.
//!
//! The kind is `grey`, `rgb`, `grey_alpha` or `rgb_alpha`, or `grey_float` or `rgb_float` with 32 bits. In the order of the
//! file, the sample of channel k in column x of a row y steps the state, from the seed on, to 1664525 times the state plus
//! 1013904223, modulo 2^32. It is 5x + 3y + 7k, plus the top NOISE bits of the state, modulo 2^BITS; of floats the bits.
//! In the first PLAIN columns, none without the word, it is 5x + 3y + 7k modulo 4 instead.

use check_rows::{number, numbers, word};
use std::alloc::Global;

/// What is drawn.
#[derive(Drop)]
struct Drawn<'t> {
    kind: &'t str,
    width: u32,
    height: u32,
    bits: u32,
    noise: u32,
    seed: u32,
    plain: u32,
}

/// The number of columns without noise and with four values, which a row may leave out.
fn plain_columns(text: &str) -> Option<u32> {
    if text.is_empty() {
        Some(0)
    } else {
        number(text)
    }
}

/// What a row asks for; the noise has at most as many bits as a sample.
fn asked(text: &str) -> Option<Drawn<'_>> {
    let (kind, rest) = word(text);
    let (sides, rest) = word(rest);
    let (bits, rest) = word(rest);
    let (noise, rest) = word(rest);
    let (seed, plain) = word(rest);
    let (width, height) = numbers(sides, 'x')?;
    Some(Drawn {
        kind,
        width,
        height,
        bits: number(bits)?,
        noise: number(noise)?,
        seed: number(seed)?,
        plain: plain_columns(plain)?,
    })
}

/// The number of channels of a kind.
fn channels(kind: &str) -> Option<u32> {
    match kind {
        "grey" | "grey_float" => Some(1),
        "grey_alpha" => Some(2),
        "rgb" | "rgb_float" => Some(3),
        "rgb_alpha" => Some(4),
        _ => None,
    }
}

/// The type of tuples of a kind with alpha.
fn tuples(kind: &str) -> &'static str {
    if kind == "grey_alpha" {
        "GRAYSCALE_ALPHA"
    } else {
        "RGB_ALPHA"
    }
}

/// Adds text.
fn add(file: &mut Vec<u8>, text: &str) -> Option<()> {
    file.extend_from_slice(text.as_bytes()).ok()
}

/// The header of the file.
fn header(alloc: Global, drawn: &Drawn<'_>, channels: u32) -> Option<String> {
    let (width, height) = (drawn.width, drawn.height);
    let maximum = 1u32.wrapping_shl(drawn.bits).wrapping_sub(1);
    let text = match drawn.kind {
        "grey" => format!(in alloc; "P5\n{width} {height}\n{maximum}\n"),
        "rgb" => format!(in alloc; "P6\n{width} {height}\n{maximum}\n"),
        "grey_float" => format!(in alloc; "Pf\n{width} {height}\n-1.0\n"),
        "rgb_float" => format!(in alloc; "PF\n{width} {height}\n-1.0\n"),
        _ => return pam_header(alloc, drawn, channels, maximum),
    };
    text.ok()
}

/// The same of a kind with alpha.
fn pam_header(alloc: Global, drawn: &Drawn<'_>, channels: u32, maximum: u32) -> Option<String> {
    let mut text = String::new(alloc);
    let (width, height, tuples) = (drawn.width, drawn.height, tuples(drawn.kind));
    write!(
        text,
        "P7\nWIDTH {width}\nHEIGHT {height}\nDEPTH {channels}\n"
    )
    .ok()?;
    write!(text, "MAXVAL {maximum}\nTUPLTYPE {tuples}\nENDHDR\n").ok()?;
    Some(text)
}

/// The numbers from which the samples are drawn.
#[derive(Drop)]
struct State {
    state: u32,
    noise: u32,
    plain: u32,
}

impl State {
    /// The next sample in channel k of column x of a row y, before it is reduced.
    fn next(&mut self, k: u32, x: u32, y: u32) -> u32 {
        self.state = self
            .state
            .wrapping_mul(1_664_525)
            .wrapping_add(1_013_904_223);
        let noise = (u64::from(self.state) << self.noise.min(32)) >> 32;
        let (across, down) = (x.wrapping_mul(5), y.wrapping_mul(3));
        let sum = across.wrapping_add(down).wrapping_add(k.wrapping_mul(7));
        if x < self.plain {
            sum % 4
        } else {
            sum.wrapping_add(noise as u32)
        }
    }
}

/// Adds a sample of this number of bits.
fn add_sample(file: &mut Vec<u8>, bits: u32, number: u32) -> Option<()> {
    if bits == 32 {
        return file.extend_from_slice(&number.to_le_bytes()).ok();
    }
    let sample = number.checked_rem(1u32.wrapping_shl(bits))?;
    let bytes = sample.to_be_bytes();
    file.extend_from_slice(if bits <= 8 { &bytes[3..] } else { &bytes[2..] })
        .ok()
}

/// Adds a row of the file.
fn add_row(
    file: &mut Vec<u8>,
    drawn: &Drawn<'_>,
    state: &mut State,
    channels: u32,
    y: u32,
) -> Option<()> {
    for x in 0..drawn.width {
        for k in 0..channels {
            add_sample(file, drawn.bits, state.next(k, x, y))?;
        }
    }
    Some(())
}

/// The file that a row asks for.
pub fn draw(alloc: Global, text: &str) -> Option<Vec<u8>> {
    let drawn = asked(text)?;
    let channels = channels(drawn.kind)?;
    let mut file = Vec::new(alloc);
    add(&mut file, header(alloc, &drawn, channels)?.as_str())?;
    let mut state = State {
        state: drawn.seed,
        noise: drawn.noise,
        plain: drawn.plain,
    };
    for y in 0..drawn.height {
        add_row(&mut file, &drawn, &mut state, channels, y)?;
    }
    Some(file)
}
