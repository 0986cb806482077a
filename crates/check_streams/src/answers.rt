//! Entropy decoders, by what is asked of them in turn.

use crate::names::name;
use check_rows::{bytes, number, numbers, text_sum, word};
use jxl_coding::decoder::EntropyDecoder;
use jxlm_bits::bits::Bitstream;
use jxlm_bits::decoder::{Decoder, DecoderError};
use std::alloc::Global;

/// A decoder, its reader, and the multiplier that its tokens are read under.
#[derive(Drop)]
struct Asked<'b> {
    decoder: EntropyDecoder,
    bits: Bitstream<'b>,
    multiplier: u32,
}

/// What was answered so far, and the error that ended it.
#[derive(Drop)]
pub struct Answered {
    pub text: String,
    pub error: Option<DecoderError>,
}

/// A token of a context.
fn token(asked: &mut Asked<'_>, context: u32) -> Result<u32, DecoderError> {
    let cluster = match asked.decoder.cluster_map().get(context as usize) {
        Some(cluster) => *cluster,
        None => return Err(DecoderError::Invalid(99)),
    };
    asked
        .decoder
        .read_varint_with_multiplier_clustered(&mut asked.bits, cluster, asked.multiplier)
}

/// Adds the clusters of the contexts, and the single tokens of these.
fn about(text: &mut String, decoder: &EntropyDecoder) -> Option<()> {
    for cluster in decoder.cluster_map() {
        write!(text, "{cluster}").ok()?;
        if let Some(single) = decoder.single_token(*cluster) {
            write!(text, "={single}").ok()?;
        }
        write!(text, " ").ok()?;
    }
    Some(())
}

/// Adds this number of tokens of a context, up to an error.
fn tokens(
    text: &mut String,
    asked: &mut Asked<'_>,
    context: u32,
    count: u32,
) -> Option<Result<(), DecoderError>> {
    for _ in 0..count {
        match token(asked, context) {
            Ok(token) => write!(text, "{token} ").ok()?,
            Err(error) => return Some(Err(error)),
        }
    }
    Some(Ok(()))
}

/// Adds this number of tokens of a context that are read together into a list of sevens: the list, and where an error
/// ended them, how many there are, and the error. The words after it are asked where that left decoder and reader.
fn together(text: &mut String, asked: &mut Asked<'_>, context: u32, count: usize) -> Option<()> {
    let cluster = *asked.decoder.cluster_map().get(context as usize)?;
    let mut room = [7; 80];
    let tokens = room.get_mut(..count)?;
    let read = asked
        .decoder
        .read_varints_with_multiplier_clustered(&mut asked.bits, cluster, asked.multiplier, tokens);
    match read {
        Ok(()) => write!(text, "{tokens:?} ").ok(),
        Err(ended) => write!(text, "{tokens:?} {} {} ", ended.read, ended.error).ok(),
    }
}

/// Tokens that a word asks for: a context, and how many after a star, or after an `x` where they are read together.
fn of_word(
    text: &mut String,
    asked: &mut Asked<'_>,
    word: &str,
) -> Option<Result<(), DecoderError>> {
    if let Some((context, count)) = numbers(word, 'x') {
        together(text, asked, context, count as usize)?;
        return Some(Ok(()));
    }
    let (context, count) = match numbers(word, '*') {
        Some(both) => both,
        None => (number(word)?, 1),
    };
    tokens(text, asked, context, count)
}

/// Passes this number of bits, or those that there are.
fn skip(bits: &mut Bitstream<'_>, n: u32) {
    for _ in 0..n {
        let _ = bits.read_bits(1);
    }
}

/// Adds what a word asks for: to begin, to end, what the decoder is, the reader's position, or tokens; `m` and a number
/// is the multiplier of those that follow, `skip` and a number passes this number of bits.
fn ask(text: &mut String, asked: &mut Asked<'_>, word: &str) -> Option<Result<(), DecoderError>> {
    if let Some(digits) = word.strip_prefix('m') {
        asked.multiplier = number(digits)?;
        return Some(Ok(()));
    }
    if let Some(digits) = word.strip_prefix("skip") {
        skip(&mut asked.bits, number(digits)?);
        return Some(Ok(()));
    }
    match word {
        "begin" => Some(asked.decoder.begin(&mut asked.bits)),
        "end" => Some(asked.decoder.finalize()),
        "about" => {
            about(text, &asked.decoder)?;
            Some(Ok(()))
        }
        "at" => {
            let position = asked.bits.position();
            write!(text, "@{position} ").ok()?;
            Some(Ok(()))
        }
        _ => of_word(text, asked, word),
    }
}

/// What all words give, up to the first error.
fn ask_all(alloc: Global, asked: &mut Asked<'_>, words: &str) -> Option<Answered> {
    let mut text = String::new(alloc);
    for word in words.split_whitespace() {
        if let Err(error) = ask(&mut text, asked, word)? {
            return Some(Answered {
                text,
                error: Some(error),
            });
        }
    }
    Some(Answered { text, error: None })
}

/// What is asked: how many contexts there are, how many bits come before the decoder, its bytes, and words.
#[derive(Clone, Copy)]
pub struct Question<'t> {
    pub contexts: u32,
    pub skipped: u32,
    pub digits: &'t str,
    pub words: &'t str,
}

impl<'t> Question<'t> {
    /// `CONTEXTS SKIPPED BYTES|WORDS`.
    pub fn parse(text: &'t str) -> Option<Question<'t>> {
        let (head, words) = text.split_once('|')?;
        let (contexts, rest) = word(head);
        let (skipped, digits) = word(rest);
        Some(Question {
            contexts: number(contexts)?,
            skipped: number(skipped)?,
            digits,
            words,
        })
    }

    /// What the decoder in these bytes answers.
    pub fn answers(&self, alloc: Global, bytes: &[u8]) -> Option<Answered> {
        let mut bits = Bitstream::new(bytes);
        skip(&mut bits, self.skipped);
        match EntropyDecoder::parse(alloc, &mut bits, self.contexts) {
            Ok(decoder) => {
                let mut asked = Asked {
                    decoder,
                    bits,
                    multiplier: 0,
                };
                ask_all(alloc, &mut asked, self.words)
            }
            Err(error) => Some(Answered {
                text: String::new(alloc),
                error: Some(error),
            }),
        }
    }
}

impl Answered {
    /// The answers, and the name of the error.
    pub fn told(self, alloc: Global) -> Option<String> {
        let mut text = self.text;
        if let Some(error) = self.error {
            let name = name(alloc, error).ok()?;
            write!(text, "{name}").ok()?;
        }
        Some(text)
    }
}

/// A row asks with how many contexts there are, how many bits come before the decoder, and the bytes; and after a bar
/// the words. It gives what they give, up to the first error, and its name; or the checksum of that.
pub fn seen(alloc: Global, asked: &str, summed: bool) -> Option<String> {
    let question = Question::parse(asked)?;
    let bytes = bytes(alloc, question.digits)?;
    let told = question.answers(alloc, &bytes)?.told(alloc)?;
    if summed {
        let sum = text_sum(0, told.as_str());
        return format!(in alloc; "#{sum}").ok();
    }
    Some(told)
}
