//! Decoders, by what is asked of them in turn.

use check_rows::{bytes, number, word};
use jxl_modular::bits::Bitstream;
use jxl_modular::decoder::{Decoder, DecoderError};
use std::alloc::{AllocError, Global};

/// The clusters of a decoder's contexts, whether its tokens come in runs, and the single token of each context.
fn about<D: Decoder>(text: &mut String, decoder: &D) -> Result<(), AllocError> {
    let clusters = decoder.cluster_map();
    write!(text, "{clusters:?} {} ", decoder.as_rle())?;
    for cluster in clusters {
        let single = decoder.single_token(*cluster);
        write!(text, "{single:?} ")?;
    }
    Ok(())
}

/// A token of a context, or its error.
fn token<D: Decoder>(
    decoder: &mut D,
    bits: &mut Bitstream<'_>,
    context: u32,
) -> Result<u32, DecoderError> {
    if context as usize >= decoder.cluster_map().len() {
        return Err(DecoderError::Invalid(99));
    }
    decoder.read_varint(bits, context)
}

/// Adds tokens of a context that are read together into a list of sevens: the list, and where an error ended them, how
/// many there are, and the error.
fn together<D: Decoder>(
    text: &mut String,
    decoder: &mut D,
    bits: &mut Bitstream<'_>,
    context: usize,
    count: usize,
) -> Result<(), AllocError> {
    if context >= decoder.cluster_map().len() || count > 80 {
        return write!(text, "none ");
    }
    let cluster = decoder.cluster_map()[context];
    let mut room = [7; 80];
    let read = decoder.read_varints_with_multiplier_clustered(bits, cluster, 0, &mut room[..count]);
    let tokens = &room[..count];
    match read {
        Ok(()) => write!(text, "{tokens:?} "),
        Err(ended) => write!(text, "{tokens:?} {} {} ", ended.read, ended.error),
    }
}

/// Adds what a word asks of a decoder: to begin, to end, what it is, a token of a context, or as in `0x5`, five tokens
/// of context 0 together; `at` is the reader's position.
fn ask<D: Decoder>(
    text: &mut String,
    decoder: &mut D,
    bits: &mut Bitstream<'_>,
    word: &str,
) -> Result<(), AllocError> {
    let answer = match word {
        "at" => return write!(text, "@{} ", bits.position()),
        "about" => return about(text, decoder),
        "begin" => decoder.begin(bits).and(Ok(0)),
        "end" => decoder.finalize().and(Ok(0)),
        _ => match word.split_once('x') {
            Some((context, count)) => {
                let (context, count) = (context.parse::<usize>(), count.parse::<usize>());
                return together(
                    text,
                    decoder,
                    bits,
                    context.unwrap_or(99),
                    count.unwrap_or(99),
                );
            }
            None => token(decoder, bits, word.parse::<u32>().unwrap_or(99)),
        },
    };
    match answer {
        Ok(number) => write!(text, "{number} "),
        Err(error) => write!(text, "{error} "),
    }
}

/// What all words give. After `clone` a clone goes on, and after `back` the reader is where the decoder ended.
fn answers<D: Decoder>(
    alloc: Global,
    mut decoder: D,
    mut bits: Bitstream<'_>,
    words: &str,
) -> Result<String, DecoderError> {
    let start = bits;
    let mut text = String::new(alloc);
    for word in words.split(' ') {
        match word {
            "clone" => decoder = decoder.try_clone(alloc)?,
            "back" => bits = start,
            _ => ask(&mut text, &mut decoder, &mut bits, word)?,
        }
    }
    Ok(text)
}

/// Passes n bits, or those that there are.
fn skip(bits: &mut Bitstream<'_>, n: u32) {
    for _ in 0..n {
        let _ = bits.read_bits(1);
    }
}

/// What all words give of the decoder that stands in the bits, or its error.
fn told<D: Decoder>(
    alloc: Global,
    mut bits: Bitstream<'_>,
    contexts: u32,
    words: &str,
) -> Result<String, DecoderError> {
    let decoder = D::parse(alloc, &mut bits, contexts)?;
    answers(alloc, decoder, bits, words)
}

/// A row asks with how many contexts there are, how many bits come before the decoder, and the bytes; and after a bar
/// the words. It gives what they give, or the decoder's error.
pub fn seen<D: Decoder>(alloc: Global, asked: &str) -> Option<String> {
    let (head, words) = asked.split_once('|')?;
    let (contexts, rest) = word(head);
    let (skipped, digits) = word(rest);
    let bytes = bytes(alloc, digits)?;
    let mut bits = Bitstream::new(&bytes);
    skip(&mut bits, number(skipped)?);
    match told::<D>(alloc, bits, number(contexts)?, words) {
        Ok(text) => Some(text),
        Err(error) => format!(in alloc; "{error}").ok(),
    }
}
