//! Channels as rows have them, with a space between: the sides of the picture, as `5x3`; after a slash the shift, unless
//! it is 0: one number for both sides, two for each side its own, or four, each 0 or 1, for a channel of a JPEG picture;
//! and after a star how many of these channels come, unless it is one.

use check_rows::{number, numbers};
use jxl_modular::{ChannelShift, ModularChannelParams};
use std::alloc::Global;

fn shift(alloc: Global, text: &str) -> Option<ChannelShift> {
    let mut sides = Vec::new(alloc);
    for word in text.split(',') {
        sides.push(number(word)?).ok()?;
    }
    match sides.as_slice() {
        [both] => Some(ChannelShift::Shifts(*both)),
        [h, v] => Some(ChannelShift::Raw(h.cast_signed(), v.cast_signed())),
        [has_h, h, has_v, v] => Some(ChannelShift::JpegUpsampling {
            has_h_subsample: *has_h == 1,
            h_subsample: *h == 1,
            has_v_subsample: *has_v == 1,
            v_subsample: *v == 1,
        }),
        _ => None,
    }
}

fn channel(alloc: Global, word: &str) -> Option<ModularChannelParams> {
    let (sides, shifts) = word.split_once('/').unwrap_or((word, "0"));
    let (width, height) = numbers(sides, 'x')?;
    Some(ModularChannelParams::with_shift(width, height, shift(alloc, shifts)?))
}

/// Adds the channels of a word.
fn push_word(alloc: Global, channels: &mut Vec<ModularChannelParams>, word: &str) -> Option<()> {
    let (one, count) = word.split_once('*').unwrap_or((word, "1"));
    let channel = channel(alloc, one)?;
    for _ in 0..number(count)? {
        channels.push(channel).ok()?;
    }
    Some(())
}

/// The channels of a text, which may be empty.
pub fn channels(alloc: Global, text: &str) -> Option<Vec<ModularChannelParams>> {
    let mut channels = Vec::new(alloc);
    for word in text.split_whitespace() {
        push_word(alloc, &mut channels, word)?;
    }
    Some(channels)
}
