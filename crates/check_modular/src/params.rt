//! What an image is read by: single reads of bits, and the limits of parameters.

use check_images::channels;
use check_rows::{bytes, number, numbers};
use jxl_modular::ModularParams;
use jxl_modular::bits::{Bitstream, BitstreamError, U32Spec};
use jxl_modular::plain::PlainDecoder;
use std::alloc::{AllocError, Global};

/// What a word asks of the reader: a flag, a number of four choices, or a number of bits.
fn ask(bits: &mut Bitstream<'_>, word: &str) -> Result<u32, BitstreamError> {
    match word {
        "flag" => Ok(u32::from(bits.read_bool()?)),
        "count" => bits.read_u32(
            U32Spec::Const(0),
            U32Spec::Const(1),
            U32Spec::Offset(2, 4),
            U32Spec::Offset(18, 8),
        ),
        _ => bits.read_bits(number(word).unwrap_or(0).min(32)),
    }
}

/// What each word gives, and the reader's position after an @.
fn answers(alloc: Global, bytes: &[u8], words: &str) -> Result<String, AllocError> {
    let mut bits = Bitstream::new(bytes);
    let mut text = String::new(alloc);
    for word in words.split(' ') {
        let answer = ask(&mut bits, word);
        write!(text, "{answer:?}@{} ", bits.position())?;
    }
    Ok(text)
}

/// A row of reads asks with the bytes, and after a bar the words: `flag`, `count` for a number of four choices, or how
/// many bits. It gives what each returns, and after an @ the reader's position.
pub fn seen_of_reads(alloc: Global, asked: &str) -> Option<String> {
    let (digits, words) = asked.split_once('|')?;
    let bytes = bytes(alloc, digits)?;
    answers(alloc, &bytes, words).ok()
}

/// A row of parameters asks with the side of a group and the bit depth, as `256x8`, and after a bar the channels. It
/// gives whether they are valid, and of the first channel, if there is one that is valid, its sides and shifts.
pub fn seen_of_params(alloc: Global, asked: &str) -> Option<String> {
    let (limits, channels_text) = asked.split_once('|')?;
    let (group_dim, depth) = numbers(limits, 'x')?;
    let channels = channels(alloc, channels_text)?;
    let first = channels.first().copied();
    let params = ModularParams::<PlainDecoder>::with_channels(group_dim, depth, channels, None);
    let valid = if params.is_valid() {
        "valid"
    } else {
        "invalid"
    };
    let Some(channel) = first else {
        return format!(in alloc; "{valid}").ok();
    };
    if !channel.is_valid() {
        return format!(in alloc; "{valid}").ok();
    }
    let (width, height) = channel.shift.shift_size((channel.width, channel.height));
    let (hshift, vshift) = (channel.shift.hshift(), channel.shift.vshift());
    format!(in alloc; "{valid} {width}x{height} {hshift} {vshift}").ok()
}
