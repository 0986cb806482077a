//! Rows of netpbm pictures that are encoded: the pictures that are decoded from the files, written again.
#![tactic(auto)]

mod drawn;
mod encoded;

use check_rows::Row;
use std::alloc::Global;

/// What comes of a row of an encoded picture; none if its kind is another.
pub fn seen(alloc: Global, row: &Row<'_>) -> Option<String> {
    match row.kind {
        "encoded" => encoded::seen(alloc, row.asked),
        "encoded_drawn" => encoded::seen_of_drawn(alloc, row.asked),
        _ => None,
    }
}
