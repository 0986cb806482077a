//! Rows of deflate streams and zlib streams: streams, read, and drawn texts, written and read again.
#![tactic(auto)]

mod deflated;

use check_rows::Row;
use std::alloc::Global;

/// What comes of a row of deflate streams; none if its kind is another.
pub fn seen(alloc: Global, row: &Row<'_>) -> Option<String> {
    match row.kind {
        "inflate" => deflated::seen_of_inflate(alloc, row.asked),
        "zlib" => deflated::seen_of_zlib(alloc, row.asked),
        "deflate" => deflated::seen_of_written(alloc, row.asked),
        _ => None,
    }
}
