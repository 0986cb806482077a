//! Why a PNG file is read as no picture, in words.

ghost use Rattle.std.specs.Prelude.{◌≡◌};
ghost use Rattle.jxlenc.specs.Reasons.{chunk_text as the_chunk_text, png_text as the_png_text, stream_text as the_stream_text, zlib_text as the_zlib_text};

use jxl_deflate::error::InflateError;
use jxl_deflate::zlib::ZlibError;
use jxl_png::error::PngError;
use jxl_png_read::error::ReadError;

// What is wrong with the chunks, or with the rows of the image.
#[tactic(auto, unfolding(crate::specs::Reasons::chunk_text))]
fn chunk_text(error: PngError) -> &'static str
    ensures { result.now ≡ the_chunk_text error }
{
    match error {
        PngError::Signature => "not a PNG file",
        PngError::Truncated => "truncated",
        PngError::ChunkLength => "invalid length of a chunk",
        PngError::ChunkType => "invalid type of a chunk",
        PngError::Crc => "wrong CRC",
        PngError::Order => "chunks out of order",
        PngError::UnknownChunk => "unknown critical chunk",
        PngError::WrongLength => "wrong length of a chunk",
        PngError::Size => "invalid size",
        PngError::ColourType => "invalid colour type or bit depth",
        PngError::Method => "unknown method",
        PngError::Palette => "a palette that is not allowed",
        PngError::Transparency => "transparency that is not allowed",
        PngError::TooShort => "too little data",
        PngError::Filter => "unknown filter type",
        PngError::Index => "index above the palette",
        PngError::OutOfMemory => "out of memory",
    }
}

// What is wrong with a deflate stream.
#[tactic(auto, unfolding(crate::specs::Reasons::stream_text))]
fn stream_text(error: InflateError) -> &'static str
    ensures { result.now ≡ the_stream_text error }
{
    match error {
        InflateError::InputTooLong => "an input of 2^61 bytes or more",
        InflateError::Truncated => "truncated deflate stream",
        InflateError::ReservedBlockType => "reserved block type",
        InflateError::StoredLengths => "stored block lengths that do not match",
        InflateError::TooManyLengthCodes => "more than 286 literal and length codes",
        InflateError::TooManyDistanceCodes => "more than 30 distance codes",
        InflateError::Oversubscribed(_) => "over-subscribed code",
        InflateError::Incomplete(_) => "incomplete code",
        InflateError::RepeatWithoutLength => "repeat without a previous code length",
        InflateError::LengthsOverrun => "code lengths past the last code",
        InflateError::NoEndOfBlock => "no codeword for the end of the block",
        InflateError::InvalidSymbol(_) => "invalid symbol",
        InflateError::BeyondWindow => "match distance beyond the window",
        InflateError::DistanceTooFar => "match distance before the start of the text",
        InflateError::TooLarge => "text longer than the limit",
        InflateError::OutOfMemory => "out of memory",
    }
}

// What is wrong with the compressed data of the image.
#[tactic(auto, unfolding(crate::specs::Reasons::zlib_text))]
fn zlib_text(error: ZlibError) -> &'static str
    ensures { result.now ≡ the_zlib_text error }
{
    match error {
        ZlibError::TruncatedHeader => "truncated zlib header",
        ZlibError::HeaderCheck => "zlib header check failed",
        ZlibError::CompressionMethod => "unknown compression method",
        ZlibError::WindowSize => "window of more than 32768 bytes",
        ZlibError::PresetDictionary => "preset dictionary",
        ZlibError::Inflate(error) => stream_text(error),
        ZlibError::TruncatedChecksum => "truncated checksum",
        ZlibError::Checksum => "wrong checksum",
    }
}

/// Why a PNG file is read as no picture.
#[tactic(auto, unfolding(crate::specs::Reasons::png_text))]
pub fn png_text(error: ReadError) -> &'static str
    ensures { result.now ≡ the_png_text error }
{
    match error {
        ReadError::Png(error) => chunk_text(error),
        ReadError::Zlib(error) => zlib_text(error),
        ReadError::Limits => "above the limits",
        ReadError::OutOfMemory => "out of memory",
    }
}
