//! The headers of PAM files: lines of a keyword and a value.

ghost use Rattle.std.specs.Prelude.{◌≡◌, ◌<◌, ◌≤◌, true, length, IfOk, IfSome};
ghost use Rattle.std.specs.Str.{bytes_eq};
ghost use Rattle.jxl_netpbm_read.specs.Parts.{IsHeader};
ghost use Rattle.jxl_netpbm_read.specs.Pam.{AreLines, end_from, header_by_lines, keyword_of as the_keyword_of, line_from, lines_from, line_value as the_line_value, next_line as the_next_line, pam_from, type_at as the_type_at, type_from, type_of as the_type_of, type_or as the_type_or};

use crate::error::NetpbmError;
use crate::header::{Header, Storage, channel_count};
use crate::parts::{bits_at, side_at};
use crate::words::{number_at, word_at};

/// The keyword of a line.
#[derive(Clone, Copy)]
pub enum Keyword {
    Width,
    Height,
    Depth,
    Maximum,
    TupleType,
    /// The end of the header.
    End,
}

/// The type of tuples: which channels a pixel has.
#[derive(Clone, Copy)]
pub struct TupleType {
    pub grey: bool,
    pub alpha: bool,
}

/// The values of the lines so far.
#[derive(Clone, Copy)]
pub struct Lines {
    pub width: Option<u32>,
    pub height: Option<u32>,
    /// The number of channels.
    pub depth: Option<u32>,
    /// The number of bits of samples.
    pub bits: Option<u32>,
    pub tuple_type: Option<TupleType>,
}

/// The lines up to a byte.
#[derive(Clone, Copy)]
pub struct Parsed {
    pub lines: Lines,
    pub after: usize,
    /// The last line is the end of the header.
    pub ended: bool,
}

fn is_word(word: &[u8], name: &[u8]) -> bool
    ensures { result ≡ bytes_eq word.now name.now }
{
    word == name
}

fn keyword_of(word: &[u8]) -> Option<Keyword>
    ensures { result ≡ the_keyword_of word.now }
{
    if is_word(word, b"WIDTH") {
        Some(Keyword::Width)
    } else if is_word(word, b"HEIGHT") {
        Some(Keyword::Height)
    } else if is_word(word, b"DEPTH") {
        Some(Keyword::Depth)
    } else if is_word(word, b"MAXVAL") {
        Some(Keyword::Maximum)
    } else if is_word(word, b"TUPLTYPE") {
        Some(Keyword::TupleType)
    } else if is_word(word, b"ENDHDR") {
        Some(Keyword::End)
    } else {
        None
    }
}

fn type_of(word: &[u8]) -> Option<TupleType>
    ensures { result ≡ the_type_of word.now }
{
    let (grey, alpha) = if is_word(word, b"GRAYSCALE") || is_word(word, b"BLACKANDWHITE") {
        (true, false)
    } else if is_word(word, b"GRAYSCALE_ALPHA") || is_word(word, b"BLACKANDWHITE_ALPHA") {
        (true, true)
    } else if is_word(word, b"RGB") {
        (false, false)
    } else if is_word(word, b"RGB_ALPHA") {
        (false, true)
    } else {
        return None;
    };
    Some(TupleType { grey, alpha })
}

// The type of tuples of a file of this depth, which may be named.
fn type_or(named: Option<TupleType>, depth: u32) -> TupleType
    ensures { result ≡ the_type_or named depth }
{
    match named {
        Some(named) => named,
        None => TupleType {
            grey: depth == 1 || depth == 2,
            alpha: depth == 2 || depth == 4,
        },
    }
}

// The type of tuples, if it has this number of channels.
fn type_at(named: TupleType, depth: u32) -> Result<TupleType, NetpbmError>
    ensures { result ≡ the_type_at named depth }
{
    if channel_count(named.grey, named.alpha) == depth {
        Ok(named)
    } else {
        Err(NetpbmError::Channels)
    }
}

fn line_value(value: Option<u32>) -> Result<u32, NetpbmError>
    ensures { result ≡ the_line_value value }
{
    match value {
        Some(value) => Ok(value),
        None => Err(NetpbmError::MissingLine),
    }
}

// The header of these lines.
#[tactic(auto, unfolding(crate::specs::Pam::header_by_lines))]
fn header_by(lines: Lines, start: usize) -> Result<Header, NetpbmError>
    requires { AreLines lines }
    ensures value { result ≡ header_by_lines lines start }
    ensures header { IfOk result IsHeader }
    ensures start { IfOk result (λ h. h.start ≡ start) }
{
    let width = line_value(lines.width)?;
    let height = line_value(lines.height)?;
    let depth = line_value(lines.depth)?;
    let bits = line_value(lines.bits)?;
    let tuples = type_at(type_or(lines.tuple_type, depth), depth)?;
    Ok(Header {
        width,
        height,
        grey: tuples.grey,
        alpha: tuples.alpha,
        storage: Storage::Numbers(bits),
        start,
    })
}

// The end of the header, whose line has no value.
fn end_at(bytes: &[u8], lines: Lines, start: usize) -> Result<Parsed, NetpbmError>
    requires inside { start < length bytes.now }
    requires lines { AreLines lines }
    ensures value { result ≡ end_from bytes.now lines start }
    ensures inside { IfOk result (λ s. s.after < length bytes.now) }
    ensures lines { IfOk result (λ s. AreLines s.lines) }
{
    if bytes[start] != 10 {
        return Err(NetpbmError::InvalidHeader);
    }
    Ok(Parsed {
        lines,
        after: start,
        ended: true,
    })
}

// The lines after one with the type of tuples.
fn type_line(bytes: &[u8], lines: Lines, start: usize) -> Result<Parsed, NetpbmError>
    requires inside { start ≤ length bytes.now }
    requires lines { AreLines lines }
    ensures value { result ≡ type_from bytes.now lines start }
    ensures inside { IfOk result (λ s. s.after < length bytes.now) }
    ensures lines { IfOk result (λ s. AreLines s.lines) }
{
    let word = word_at(bytes, start)?;
    match type_of(&bytes[word.start..word.end]) {
        Some(named) => {
            let mut lines = lines;
            lines.tuple_type = Some(named);
            Ok(Parsed {
                lines,
                after: word.end,
                ended: false,
            })
        }
        None => Err(NetpbmError::Channels),
    }
}

// The lines after one more, with this keyword.
#[tactic(auto, unfolding(crate::specs::Pam::line_from))]
fn line_at(
    bytes: &[u8],
    keyword: Keyword,
    lines: Lines,
    start: usize,
) -> Result<Parsed, NetpbmError>
    requires inside { start < length bytes.now }
    requires lines { AreLines lines }
    ensures value { result ≡ line_from bytes.now keyword lines start }
    ensures inside { IfOk result (λ s. s.after < length bytes.now) }
    ensures lines { IfOk result (λ s. AreLines s.lines) }
{
    let mut lines = lines;
    let after = match keyword {
        Keyword::Width => {
            let number = side_at(bytes, start)?;
            lines.width = Some(number.value);
            number.after
        }
        Keyword::Height => {
            let number = side_at(bytes, start)?;
            lines.height = Some(number.value);
            number.after
        }
        Keyword::Depth => {
            let number = number_at(bytes, start)?;
            lines.depth = Some(number.value);
            number.after
        }
        Keyword::Maximum => {
            let number = bits_at(bytes, start)?;
            lines.bits = Some(number.value);
            number.after
        }
        Keyword::TupleType => return type_line(bytes, lines, start),
        Keyword::End => return end_at(bytes, lines, start),
    };
    Ok(Parsed {
        lines,
        after,
        ended: false,
    })
}

// The lines after the next one.
#[tactic(auto, unfolding(crate::specs::Pam::next_line))]
fn next_line(bytes: &[u8], lines: Lines, start: usize) -> Result<Parsed, NetpbmError>
    requires inside { start ≤ length bytes.now }
    requires lines { AreLines lines }
    ensures value { result ≡ the_next_line bytes.now lines start }
    ensures inside { IfOk result (λ s. s.after < length bytes.now) }
    ensures lines { IfOk result (λ s. AreLines s.lines) }
{
    let word = word_at(bytes, start)?;
    match keyword_of(&bytes[word.start..word.end]) {
        Some(keyword) => line_at(bytes, keyword, lines, word.end),
        None => Err(NetpbmError::InvalidHeader),
    }
}

// The header by at most `most` lines after these.
#[tactic(auto, unfolding(crate::specs::Pam::lines_from))]
fn lines_at(bytes: &[u8], most: u32, lines: Lines, start: usize) -> Result<Header, NetpbmError>
    requires inside { start ≤ length bytes.now }
    requires lines { AreLines lines }
    ensures value { result ≡ lines_from most bytes.now lines start }
    ensures header { IfOk result IsHeader }
    ensures inside { IfOk result (λ h. h.start ≤ length bytes.now) }
{
    if most == 0 {
        return Err(NetpbmError::InvalidHeader);
    }
    let next = next_line(bytes, lines, start)?;
    if next.ended {
        return header_by(next.lines, next.after + 1);
    }
    lines_at(bytes, most - 1, next.lines, next.after)
}

/// The header of a PAM file, after its magic.
pub(crate) fn pam_at(bytes: &[u8], start: usize) -> Result<Header, NetpbmError>
    requires { start ≤ length bytes.now }
    ensures value { result ≡ pam_from bytes.now start }
    ensures header { IfOk result IsHeader }
    ensures inside { IfOk result (λ h. h.start ≤ length bytes.now) }
{
    let none = Lines {
        width: None,
        height: None,
        depth: None,
        bits: None,
        tuple_type: None,
    };
    lines_at(bytes, 64, none, start)
}
